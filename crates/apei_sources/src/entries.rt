//! The entries of a status block's data.

ghost use Rattle.std.specs.Prelude.{◌≡◌, ◌≤◌, ◌<◌, [], length, get_or, IfSome, IsTrue};
ghost use Rattle.std.specs.Option.{option_map};
ghost use Rattle.std.specs.List.{list_any};
ghost use Rattle.apei_sources.specs.Entries.{entry_header_length, entry_length, first_of, rest_of, entry_guid, entry_severity, entry_data, has_entry, is_refused, entries_of};
ghost use Rattle.apei_sources.specs.Laid.{IsEntry};
ghost use Rattle.apei_sources.specs.Steps.Cut.{cut, AreInside};

use cper_sections::RawSection;
use ras_base::little_endian::{u16_at, u32_at};

/// The bytes of an entry's header without its timestamp.
pub const ENTRY_HEADER_LENGTH: usize = 64;

/// The bytes of an entry's header with its timestamp.
pub const LONG_ENTRY_HEADER_LENGTH: usize = 72;

/// The first major revision whose header has a timestamp.
pub const TIMESTAMP_REVISION: u16 = 3;

// Returns the length of the header of the entry at the front.
fn entry_header_length(bytes: &[u8]) -> usize
    requires { ENTRY_HEADER_LENGTH ≤ length bytes.now }
    ensures value { result ≡ entry_header_length bytes.now }
    ensures small { result ≤ LONG_ENTRY_HEADER_LENGTH }
{
    let major_revision = u16_at(bytes, 20) >> 8;
    if major_revision < TIMESTAMP_REVISION {
        ENTRY_HEADER_LENGTH
    } else {
        LONG_ENTRY_HEADER_LENGTH
    }
}

// Returns the length of the entry at the front, its header and its data.
fn entry_length(bytes: &[u8]) -> usize
    requires { ENTRY_HEADER_LENGTH ≤ length bytes.now }
    ensures { result ≡ entry_length bytes.now }
{
    entry_header_length(bytes) + u32_at(bytes, 24) as usize
}

// Returns whether the entry at the front lies inside the bytes.
fn has_entry(bytes: &[u8]) -> bool
    ensures { result ≡ has_entry bytes.now }
{
    ENTRY_HEADER_LENGTH <= bytes.len() && entry_length(bytes) <= bytes.len()
}

// Returns the entry at the front, header and data.
fn first_entry(bytes: &[u8]) -> &[u8]
    requires { IsTrue (has_entry bytes.now) }
    ensures entry { result.now ≡ first_of bytes.now }
    ensures whole { IsEntry result.now }
{
    &bytes[..entry_length(bytes)]
}

// Returns the bytes after the entry at the front.
fn behind_first(bytes: &[u8]) -> &[u8]
    requires { IsTrue (has_entry bytes.now) }
    ensures { result.now ≡ rest_of bytes.now }
{
    &bytes[entry_length(bytes)..]
}

// Returns how many entries the bytes consist of, or `None` if an entry passes their end.
pub(crate) fn count_entries(bytes: &[u8]) -> Option<usize>
    ensures entries { option_map (λ count. cut count bytes.now) result ≡ entries_of bytes.now }
    ensures inside { IfSome result (λ count. AreInside count bytes.now) }
{
    let mut rest = bytes;
    let mut count = 0usize;
    while !rest.is_empty() {
        if !has_entry(rest) {
            return None;
        }
        rest = behind_first(rest);
        count += 1;
    }
    Some(count)
}

// Returns whether one of the first entries can't be read.
pub(crate) fn is_some_refused(bytes: &[u8], count: usize) -> bool
    requires { AreInside count bytes.now }
    ensures { result ≡ list_any is_refused (cut count bytes.now) }
{
    let mut rest = bytes;
    for done in 0..count {
        if is_refused(first_entry(rest)) {
            return true;
        }
        rest = behind_first(rest);
    }
    false
}

// Returns the bytes of an entry by its number among the first entries.
pub(crate) fn nth_entry(bytes: &[u8], count: usize, i: usize) -> &[u8]
    requires inside { AreInside count bytes.now }
    requires within { i < count }
    ensures entry { result.now ≡ get_or (cut count bytes.now) i [] }
    ensures whole { IsEntry result.now }
{
    let mut left = bytes;
    for passed in 0..i {
        left = behind_first(left);
    }
    first_entry(left)
}

// Returns whether an entry's section can't be read.
#[tactic(auto, using(crate::proofs::CutLemmas::not_is_ok), unfolding(crate::specs::Entries::is_refused))]
fn is_refused(entry: &[u8]) -> bool
    requires { IsEntry entry.now }
    ensures { result ≡ is_refused entry.now }
{
    !entry_section(entry).is_readable()
}

// Returns an entry's section, with the fields of its header.
pub(crate) fn entry_section(entry: &[u8]) -> RawSection<'_>
    requires { IsEntry entry.now }
    ensures severity { result.severity ≡ entry_severity entry.now }
    ensures guid { result.guid ≡ entry_guid entry.now }
    ensures bytes { result.bytes.now ≡ entry_data entry.now }
{
    RawSection::new(
        entry,
        u32_at(entry, 16),
        &entry[entry_header_length(entry)..],
    )
}
