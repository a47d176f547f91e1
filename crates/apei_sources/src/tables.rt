//! The header that tables share.

ghost use Rattle.std.specs.Prelude.{◌≡◌, ◌≤◌, length, IfOk};
ghost use Rattle.apei_sources.specs.Steps.Answering.{Reads};
ghost use Rattle.apei_sources.specs.Tables.{table_of};

use crate::TableRefused;
use ras_base::has_sum;
use ras_base::little_endian::u32_at;

// Returns the table with this signature at the front of bytes, whose fixed part has `fixed` bytes.
#[tactic(auto, unfolding(crate::specs::Tables::table_of))]
pub(crate) fn table_at<'a>(
    bytes: &'a [u8],
    signature: &[u8],
    fixed: usize,
) -> Result<&'a [u8], TableRefused>
    requires header { 8 ≤ fixed }
    ensures answer { Reads (λ table. table.now) result (table_of signature.now fixed bytes.now) }
    ensures fixed { IfOk result (λ table. fixed ≤ length table.now) }
{
    if bytes.len() < fixed {
        return Err(TableRefused::Short);
    }
    if !bytes.starts_with(signature) {
        return Err(TableRefused::Signature);
    }
    let length = u32_at(bytes, 4) as usize;
    if length < fixed || bytes.len() < length {
        return Err(TableRefused::Length);
    }
    let table = &bytes[..length];
    if !has_sum(table) {
        return Err(TableRefused::Sum);
    }
    Ok(table)
}
