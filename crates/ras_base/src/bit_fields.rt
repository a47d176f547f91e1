//! The bits of a number.

ghost use Rattle.std.specs.Prelude.{◌≡◌, ◌<◌, ◌+◌, ◌≤◌, ◌^◌};
ghost use Rattle.ras_base.specs.Bits.{is_set, bits};

/// Returns whether a bit of a field is 1.
pub fn is_set(bit: u32, field: u64) -> bool
    requires { bit < 64 }
    ensures { result ≡ is_set bit field }
{
    field >> bit & 1 == 1
}

/// Returns the number in `width` bits of a field from bit `low` on.
#[tactic(auto, using(crate::proofs::BitLemmas::mask_of_ones))]
pub fn bits(low: u32, width: u32, field: u64) -> u64
    requires place { low < 64 }
    requires width { width < 64 }
    ensures number { result ≡ bits low width field }
    ensures small { result < 2 ^ width }
{
    field >> low & ((1 << width) - 1)
}
