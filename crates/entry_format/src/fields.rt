//! Reads the fields of every kind of value.
//!
//! Each function reads one value at the front of the bytes, and returns it with the bytes after it.
//! It returns `Bad` if the bytes don't begin with such a value, allocates nothing, and never
//! returns `NoMemory`.
ghost use Rattle.std.specs.Prelude.{◌≡◌};
ghost use Rattle.entry_format.specs.Reading.{ReadsExactly, u16_at, u32_at, u64_at, byte_at, bytes_at};

use crate::EntryRefused;
use ras_base::little_endian;

// Returns a number of 2 bytes, the lowest first, and the bytes after it.
#[tactic(auto, unfolding(crate::specs::Reading::u16_at))]
pub(crate) fn u16_at(bytes: &[u8]) -> Result<(u16, &[u8]), EntryRefused>
    ensures { ReadsExactly (λ x. (x.0, x.1.now)) result (u16_at bytes.now) }
{
    if bytes.len() < 2 {
        return Err(EntryRefused::Bad);
    }
    Ok((little_endian::u16_at(bytes, 0), &bytes[2..]))
}

/// Returns a number of 4 bytes at the front, the lowest byte first, and the bytes after it.
///
/// `Bad`: if and only if there are fewer bytes. `NoMemory`: never.
#[tactic(auto, unfolding(crate::specs::Reading::u32_at))]
pub fn u32_at(bytes: &[u8]) -> Result<(u32, &[u8]), EntryRefused>
    ensures { ReadsExactly (λ x. (x.0, x.1.now)) result (u32_at bytes.now) }
{
    if bytes.len() < 4 {
        return Err(EntryRefused::Bad);
    }
    Ok((little_endian::u32_at(bytes, 0), &bytes[4..]))
}

/// Returns a number of 8 bytes at the front, the lowest byte first, and the bytes after it.
///
/// `Bad`: if and only if there are fewer bytes. `NoMemory`: never.
#[tactic(auto, unfolding(crate::specs::Reading::u64_at))]
pub fn u64_at(bytes: &[u8]) -> Result<(u64, &[u8]), EntryRefused>
    ensures { ReadsExactly (λ x. (x.0, x.1.now)) result (u64_at bytes.now) }
{
    if bytes.len() < 8 {
        return Err(EntryRefused::Bad);
    }
    Ok((little_endian::u64_at(bytes, 0), &bytes[8..]))
}

/// Returns the first byte, and the bytes after it.
///
/// `Bad`: if and only if there is no byte. `NoMemory`: never.
#[tactic(auto, unfolding(crate::specs::Reading::byte_at))]
pub fn byte_at(bytes: &[u8]) -> Result<(u8, &[u8]), EntryRefused>
    ensures { ReadsExactly (λ x. (x.0, x.1.now)) result (byte_at bytes.now) }
{
    match bytes {
        [] => Err(EntryRefused::Bad),
        [byte, rest @ ..] => Ok((*byte, rest)),
    }
}

// Returns this many bytes, and the bytes after them.
#[tactic(auto, unfolding(crate::specs::Reading::bytes_at))]
pub(crate) fn bytes_at(count: usize, bytes: &[u8]) -> Result<(&[u8], &[u8]), EntryRefused>
    ensures { ReadsExactly (λ x. (x.0.now, x.1.now)) result (bytes_at count bytes.now) }
{
    match bytes.split_at_checked(count) {
        Some((front, rest)) => Ok((front, rest)),
        None => Err(EntryRefused::Bad),
    }
}
