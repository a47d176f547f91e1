//! The boot error record table.

ghost use Rattle.std.specs.Prelude.{◌≡◌};
ghost use Rattle.apei_sources.specs.Bert.{bert_of};

use crate::TableRefused;
use crate::tables::table_at;
use ras_base::little_endian::{u32_at, u64_at};

/// The bytes of a BERT.
pub const BERT_FIXED_LENGTH: usize = 48;

/// Where in memory the errors of the previous boot are.
#[derive(Clone, Copy, Debug, PartialEq, Eq)]
pub struct Bert {
    /// The length of the region, in bytes.
    pub length: u32,
    /// The physical address of the region.
    pub address: u64,
}

/// Returns the region that the BERT at the front of the bytes names. Bytes after the table's length
/// are ignored. (ACPI 6.5, section 18.3.1, "Boot Error Source".)
///
/// The error is the first that applies. `Short`: there are fewer than 48 bytes. `Signature`: they
/// don't begin with `BERT`. `Length`: the table's length is below 48 or above the number of bytes.
/// `Sum`: the table's bytes don't sum to 0 modulo 256. The region's own length is not judged.
#[tactic(auto, unfolding(crate::specs::Bert::bert_of))]
pub fn read_bert(bytes: &[u8]) -> Result<Bert, TableRefused>
    ensures { result ≡ bert_of bytes.now }
{
    let table = table_at(bytes, b"BERT", BERT_FIXED_LENGTH)?;
    Ok(Bert {
        length: u32_at(table, 36),
        address: u64_at(table, 40),
    })
}
