//! Links as bytes, and back.
ghost use Rattle.std.specs.Prelude.{◌≡◌, ◌≢◌, ◌↔◌, ◌+◌, ◌*◌, ◌^◌, ◌++◌, ◌≤◌, OnOk, ℕ, List, length, All, IsTrue, IfOk, IsOkAnd, Err};
ghost use Rattle.std.specs.Bool.{IsFalse};
ghost use Rattle.std.specs.List.{flat_map};
ghost use Rattle.ras_facts.specs.Entries.{IsValidEntry};
ghost use Rattle.entry_format.specs.Spelling.{entry_bytes};
ghost use Rattle.entry_format.specs.Reading.{ReadsExactly};
ghost use Rattle.journal_format.specs.PayloadReading.{link_count_at};
ghost use Rattle.journal_format.specs.Links.{payload_bytes, link_bytes, IsPayload, CanLink, link_length, ends_early, payload_in};

use crate::{Link, LinkRefused, MOST_LINK_ENTRIES, MOST_PAYLOAD};
use entry_format::{EntryRefused, Version, entry_len, push_entry, read_list, u32_at};
use ras_base::NoMemory;
use ras_base::little_endian::{self, push_u32};
use ras_facts::Entry;
use std::alloc::Global;

/// The bytes before a link's payload: its length.
const LENGTH_BYTES: usize = 4;

/// The bytes before a payload's entries: how many they are.
const COUNT_BYTES: usize = 4;

// Adds entries in order.
fn push_entries(bytes: &mut Vec<u8>, entries: &[Entry]) -> Result<(), NoMemory>
    requires { All IsValidEntry entries.now }
    ensures { OnOk result (bytes.new.items ≡ bytes.old.items ++ flat_map entry_bytes entries.now) }
{
    for entry in entries {
        push_entry(bytes, entry)?;
    }
    Ok(())
}

// How many bytes the payload of a link of these entries has.
#[tactic(auto, using(crate::proofs::LinkLemmas::link_sizes), unfolding(crate::specs::Links::payload_bytes))]
fn payload_len(entries: &[Entry]) -> usize
    requires few { length entries.now ≤ MOST_LINK_ENTRIES }
    requires valid { All IsValidEntry entries.now }
    ensures { result ≡ length (payload_bytes entries.now) }
{
    COUNT_BYTES + entries_len(entries)
}

// How many bytes the spellings of entries have, one after the other.
fn entries_len(entries: &[Entry]) -> usize
    requires few { length entries.now ≤ MOST_LINK_ENTRIES }
    requires valid { All IsValidEntry entries.now }
    ensures length { result ≡ length (flat_map entry_bytes entries.now) }
    ensures most { result ≤ 2 ^ 22 * MOST_LINK_ENTRIES }
{
    let mut total = 0;
    for entry in entries {
        total += entry_len(entry);
    }
    total
}

/// Returns the link of these entries. Requires 1 to 2,000 valid entries whose payload has at most
/// 67,108,864 bytes.
///
/// `NoMemory`: only if memory runs out.
#[tactic(auto, unfolding(crate::specs::Links::link_bytes, crate::specs::Links::payload_bytes))]
pub fn encode_link(alloc: Global, entries: &[Entry]) -> Result<Link, NoMemory>
    requires some { 1 ≤ length entries.now }
    requires few { length entries.now ≤ MOST_LINK_ENTRIES }
    requires valid { All IsValidEntry entries.now }
    requires payload { length (payload_bytes entries.now) ≤ MOST_PAYLOAD }
    ensures bytes { IfOk result (λ link. link ≡ link_bytes entries.now) }
{
    let length = payload_len(entries);
    let mut bytes = Vec::with_capacity(alloc, LENGTH_BYTES + length + 1)?;
    push_u32(&mut bytes, length as u32)?;
    push_u32(&mut bytes, entries.len() as u32)?;
    push_entries(&mut bytes, entries)?;
    Link::of_bytes(bytes)
}

// Whether bytes end before the link at their front does.
fn ends_early(bytes: &[u8]) -> bool
    ensures { result ≡ ends_early bytes.now }
{
    if bytes.len() < LENGTH_BYTES {
        return true;
    }
    bytes.len() - LENGTH_BYTES < little_endian::u32_at(bytes, 0) as usize
}

// The payload of the link at the front of bytes.
fn payload_in(bytes: &[u8]) -> &[u8]
    requires { IsFalse (ends_early bytes.now) }
    ensures payload { result.now ≡ payload_in bytes.now }
    ensures length { length result.now + 4 ≡ link_length bytes.now }
{
    let length = little_endian::u32_at(bytes, 0) as usize;
    &bytes[LENGTH_BYTES..][..length]
}

// The number of a link's entries.
#[tactic(auto, unfolding(crate::specs::PayloadReading::link_count_at))]
fn link_count_at(bytes: &[u8]) -> Result<(u32, &[u8]), EntryRefused>
    ensures { ReadsExactly (λ x. (x.0, x.1.now)) result (link_count_at bytes.now) }
{
    let (count, rest) = u32_at(bytes)?;
    if 1 <= count && count <= MOST_LINK_ENTRIES as u32 {
        Ok((count, rest))
    } else {
        Err(EntryRefused::Bad)
    }
}

// Returns the entries whose payload the bytes are.
fn read_payload(alloc: Global, version: Version, bytes: &[u8]) -> Result<Vec<Entry>, EntryRefused>
    ensures found { IfOk result (λ read. IsPayload version read.items bytes.now) }
    ensures entries { (entries : List Entry) → IsPayload version entries bytes.now
        → result ≢ Err EntryRefused.NoMemory → IsOkAnd result (λ read. read.items ≡ entries) }
{
    match link_count_at(bytes) {
        Ok((count, rest)) => read_list(alloc, version, count, rest),
        Err(refused) => Err(refused),
    }
}

/// Returns the entries of the link at the front of the bytes, and the link's length. Each byte is
/// read once, and none after the link.
///
/// `Cut`: if and only if the bytes end before the link does, within the length of its payload or
/// within that many bytes after it. `Bad`: if they don't and the payload isn't that of 1 to 2,000
/// valid entries of the version, unless memory runs out; never otherwise. `NoMemory`: only if
/// memory runs out.
pub fn read_link(
    alloc: Global,
    version: Version,
    bytes: &[u8],
) -> Result<(Vec<Entry>, usize), LinkRefused>
    // The entries that are read are the entries of the link at the start of the bytes.
    ensures found { IfOk result (λ read. IsPayload version read.0.items (payload_in bytes.now)) }
    ensures length { IfOk result (λ read. read.1 ≡ link_length bytes.now) }

    // Bytes are rejected because they are cut or their payload is invalid, unless memory runs out.
    ensures cut { (result ≡ Err LinkRefused.Cut) ↔ IsTrue (ends_early bytes.now) }
    ensures bad { result ≡ Err LinkRefused.Bad → (entries : List Entry)
        → ¬ IsPayload version entries (payload_in bytes.now) }

    // A link is read, whatever follows it, unless memory runs out.
    ensures entries { (entries : List Entry) (rest : List ℕ) → CanLink version entries
        → bytes.now ≡ link_bytes entries ++ rest
        → result ≢ Err LinkRefused.NoMemory
        → IsOkAnd result (λ read. (read.0.items ≡ entries) × (read.1
        ≡ length (link_bytes entries))) }
{
    if ends_early(bytes) {
        return Err(LinkRefused::Cut);
    }
    let payload = payload_in(bytes);
    match read_payload(alloc, version, payload) {
        Ok(entries) => Ok((entries, LENGTH_BYTES + payload.len())),
        Err(EntryRefused::Bad) => Err(LinkRefused::Bad),
        Err(EntryRefused::NoMemory) => Err(LinkRefused::NoMemory),
    }
}
