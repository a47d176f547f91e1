//! Platform memory sections.

ghost use Rattle.std.specs.Prelude.{◌≡◌, ◌≤◌, length};
ghost use Rattle.cper_sections.specs.Memory.{memory_of, rank_of};

use ras_base::is_set;
use ras_base::little_endian::{u16_at, u64_at};

/// The fields of a platform memory section. Each field is there if and only if its validation bit
/// is set.
#[derive(Clone, Copy, Debug, PartialEq, Eq)]
pub struct MemSection {
    /// The physical address of the error.
    pub physical: Option<u64>,
    /// The mask of the address bits that are valid.
    pub mask: Option<u64>,
    /// The number of the node.
    pub node: Option<u16>,
    /// The number of the card.
    pub card: Option<u16>,
    /// The number of the module.
    pub module: Option<u16>,
    /// The number of the bank.
    pub bank: Option<u16>,
    /// The number of the row.
    pub row: Option<u16>,
    /// The number of the rank, which the old form of 73 bytes doesn't have.
    pub rank: Option<u16>,
    /// The type of memory error.
    pub kind: Option<u8>,
}

/// The bytes of a memory section of the old form, without the rank.
pub const OLD_LENGTH: usize = 73;

/// The bytes of a memory section that has the rank.
pub const RANK_LENGTH: usize = 80;

// Reads a memory section.
#[tactic(auto, unfolding(crate::specs::Memory::memory_of))]
pub(crate) fn memory_at(bytes: &[u8]) -> MemSection
    requires { OLD_LENGTH ≤ length bytes.now }
    ensures { result ≡ memory_of bytes.now }
{
    let validation = u64_at(bytes, 0);
    MemSection {
        physical: is_set(1, validation).then_some(u64_at(bytes, 16)),
        mask: is_set(2, validation).then_some(u64_at(bytes, 24)),
        node: is_set(3, validation).then_some(u16_at(bytes, 32)),
        card: is_set(4, validation).then_some(u16_at(bytes, 34)),
        module: is_set(5, validation).then_some(u16_at(bytes, 36)),
        bank: is_set(6, validation).then_some(u16_at(bytes, 38)),
        row: is_set(8, validation).then_some(u16_at(bytes, 42)),
        rank: rank_at(bytes, validation),
        kind: is_set(14, validation).then_some(bytes[72]),
    }
}

// Returns the rank, if it is valid and the section is long enough for it.
fn rank_at(bytes: &[u8], validation: u64) -> Option<u16>
    ensures { result ≡ rank_of validation bytes.now }
{
    if bytes.len() < RANK_LENGTH {
        return None;
    }
    is_set(15, validation).then_some(u16_at(bytes, 74))
}
