//! The header that tables of ACPI share.

ghost use Rattle.std.specs.Prelude.{◌≡◌};
ghost use Rattle.ras_base.specs.AcpiTable.{has_sum};

/// Returns whether the bytes of a table sum to 0 modulo 256, as its checksum byte makes them: ACPI
/// 6.5, section 5.2.6.
pub fn has_sum(table: &[u8]) -> bool
    ensures { result ≡ has_sum table.now }
{
    let mut sum = 0u8;
    for byte in table {
        sum = sum.wrapping_add(*byte);
    }
    sum == 0
}
