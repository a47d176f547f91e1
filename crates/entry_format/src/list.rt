//! Reads a list of entries from bytes.
ghost use Rattle.std.specs.Prelude.{◌≡◌, ◌≢◌, ℕ, List, length, IfOk, IsOkAnd};
ghost use Rattle.entry_format.specs.File.{AreEntriesOf};
ghost use Rattle.entry_format.specs.Reading.{ReadsUnlessMemory, many_at, whole_at, entry_at};

use crate::reading::entry_at;
use crate::{EntryRefused, Version};
use ras_facts::Entry;
use std::alloc::Global;

// Returns this many entries at the front of the bytes, and the bytes after them.
fn many_entries_at(
    alloc: Global,
    version: Version,
    count: u32,
    bytes: &[u8],
) -> Result<(Vec<Entry>, &[u8]), EntryRefused>
    ensures { ReadsUnlessMemory (λ x. (x.0.items, x.1.now)) result
        (many_at (entry_at version) count bytes.now) }
{
    let mut entries = Vec::new(alloc);
    let mut rest = bytes;
    for _ in 0..count {
        let (entry, after) = entry_at(alloc, version, rest)?;
        entries.push(entry)?;
        rest = after;
    }
    Ok((entries, rest))
}

// Returns this many entries, which are all of the bytes.
fn whole_list(
    alloc: Global,
    version: Version,
    count: u32,
    bytes: &[u8],
) -> Result<Vec<Entry>, EntryRefused>
    ensures { ReadsUnlessMemory (λ entries. entries.items) result
        (whole_at (many_at (entry_at version) count) bytes.now) }
{
    let (entries, rest) = many_entries_at(alloc, version, count, bytes)?;
    if rest.is_empty() {
        Ok(entries)
    } else {
        Err(EntryRefused::Bad)
    }
}

/// Returns the entries whose spelling the bytes are, if they are `count` entries. Each byte is read
/// once, and no byte after the last of these entries is read.
///
/// `Bad`: if and only if the bytes aren't the spelling of `count` valid entries of the version.
/// `NoMemory`: only if memory runs out.
pub fn read_list(
    alloc: Global,
    version: Version,
    count: u32,
    bytes: &[u8],
) -> Result<Vec<Entry>, EntryRefused>
    // The returned entries are the entries that the bytes spell.
    ensures found { IfOk result (λ read. AreEntriesOf version read.items bytes.now) }
    ensures count { IfOk result (λ read. length read.items ≡ count) }

    // The entries that the bytes spell are read, unless memory runs out.
    ensures entries { (entries : List Entry) → AreEntriesOf version entries bytes.now
        → length entries ≡ count → result ≢ Err EntryRefused.NoMemory
        → IsOkAnd result (λ read. read.items ≡ entries) }
{
    whole_list(alloc, version, count, bytes)
}
