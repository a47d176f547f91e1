//! Generic error status blocks, as views of the bytes that contain them.

ghost use Rattle.std.specs.Prelude.{◌≡◌, ◌<◌, length, Ok};
ghost use Rattle.cper_sections.specs.Sections.{section_of};
ghost use Rattle.apei_sources.specs.Entries.{entry_guid, entry_severity, entry_data, entries_of};
ghost use Rattle.apei_sources.specs.Blocks.{entry_at, block_with, block_of};

use crate::BlockRefused;
use crate::entries::{count_entries, entry_section, is_some_refused, nth_entry};
use cper_sections::Descriptor;
use ras_base::little_endian::u32_at;
use std::marker::Model;

/// The bytes of a block before its data.
pub const BLOCK_HEADER_LENGTH: usize = 20;

/// A status block that was read, as a view of the bytes that contain it: nothing is copied. A
/// contract sees its status and the bytes of each entry.
#[derive(Drop)]
pub struct Block<'a> {
    status: u32,
    count: usize,
    bytes: &'a [u8],
}

impl<'a> Model for Block<'a> {
    ghost use Rattle.apei_sources.specs.Blocks.{BlockParts};
    ghost use Rattle.apei_sources.specs.Steps.Cut.{cut, IsBlock};

    ghost Value = { BlockParts };

    ghost view = { λ a. record { status = a.status; entries = cut a.count a.bytes.now } };

    ghost invariant = { λ a. IsBlock a.count a.bytes.now };
}

/// Returns the status block at the front of the bytes. A block of status 0 has no entries, and
/// nothing else of it is read. In every other block the entries fill the data. The count of entries
/// in the status is not compared, raw data is not read, and bytes after the data are ignored. (ACPI
/// 6.5, section 18.3.2.7.1, "Generic Error Data".)
///
/// The error is the first that applies. `Short`: there are fewer than 20 bytes or, if the status
/// isn't 0, than 20 and the data's length. `EntryOut`: the header or the data of some entry passes
/// the end of the data. `Section`: `read_section` refuses some entry's data.
#[tactic(auto, unfolding(crate::specs::Blocks::block_of, crate::specs::Steps::Cut::cut, crate::specs::Steps::Cut::AreInside))]
pub fn read_block(bytes: &[u8]) -> Result<Block<'_>, BlockRefused>
    ensures { result ≡ block_of bytes.now }
{
    if bytes.len() < BLOCK_HEADER_LENGTH {
        return Err(BlockRefused::Short);
    }
    let status = u32_at(bytes, 0);
    if status == 0 {
        return Ok(Block {
            status,
            count: 0,
            bytes: &bytes[..0],
        });
    }
    let end = BLOCK_HEADER_LENGTH + u32_at(bytes, 12) as usize;
    if bytes.len() < end {
        return Err(BlockRefused::Short);
    }
    block_with(status, &bytes[BLOCK_HEADER_LENGTH..end])
}

// Returns the block with this status and its data.
fn block_with(status: u32, bytes: &[u8]) -> Result<Block<'_>, BlockRefused>
    ensures { result ≡ block_with status (entries_of bytes.now) }
{
    let Some(count) = count_entries(bytes) else {
        return Err(BlockRefused::EntryOut);
    };
    if is_some_refused(bytes, count) {
        return Err(BlockRefused::Section);
    }
    Ok(Block {
        status,
        count,
        bytes,
    })
}

impl<'a> Block<'a> {
    /// Returns the block status, 0 if there is no error.
    pub fn status(&self) -> u32
        ensures { result ≡ self.now.status }
    {
        self.status
    }

    /// Returns the number of entries.
    pub fn count(&self) -> usize
        ensures { result ≡ length self.now.entries }
    {
        self.count
    }

    /// Returns an entry by its number, from 0, which has to be below the count. The entries are
    /// walked from the first. (ACPI 6.5, section 18.3.2.7.1, "Generic Error Data Entry".)
    pub fn entry(&self, i: usize) -> Descriptor<'a>
        requires { i < length self.now.entries }
        ensures severity { result.severity ≡ entry_severity (entry_at self.now i) }
        ensures guid { result.guid ≡ entry_guid (entry_at self.now i) }
        ensures bytes { result.bytes.now ≡ entry_data (entry_at self.now i) }
        ensures section { section_of result.guid result.bytes.now ≡ Ok result.section }
    {
        entry_section(nth_entry(self.bytes, self.count, i)).read()
    }
}
