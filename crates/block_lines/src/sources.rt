//! The table of the sources seen so far.

ghost use Rattle.std.specs.Prelude.{◌≡◌, ◌<◌, ◌≤◌, ◌%◌, [], ◌∷◌, ◌++◌, length, sum, IfOk, OnOk};
ghost use Rattle.std.specs.List.{flat_map};
ghost use Rattle.block_lines.specs.Sources.{checksum, source_bytes, table_bytes, table_front};
ghost use Rattle.block_lines.specs.Sources.{sources_with, table_rest};

use ras_base::NoMemory;
use ras_base::little_endian::{push_u16, push_u32};
use std::alloc::Global;

/// The most sources of a table, so that its line isn't longer than what a pipe keeps in one piece.
pub const MOST_SOURCES: usize = 28;

// Stores a source, unless it is known. If the table is full, a new table begins.
pub(crate) fn keep_source(sources: &mut Vec<u16>, source: u16) -> Result<(), NoMemory>
    requires { length sources.old.items ≤ MOST_SOURCES }
    ensures ok { OnOk result (sources.new.items ≡ sources_with sources.old.items source) }
    ensures few { length sources.new.items ≤ MOST_SOURCES }
{
    if sources.contains(&source) {
        return Ok(());
    }
    if sources.len() >= MOST_SOURCES {
        sources.clear();
    }
    sources.push(source)?;
    Ok(())
}

// Returns the table of these sources and one more.
#[tactic(auto, unfolding(crate::specs::Sources::table_bytes))]
pub(crate) fn table_with(alloc: Global, kept: &[u16], source: u16) -> Result<Vec<u8>, NoMemory>
    requires { length kept.now < MOST_SOURCES }
    ensures { IfOk result (λ table. table.items ≡ table_bytes (kept.now ++ source ∷ [])) }
{
    let mut table = Vec::new(alloc);
    push_front(&mut table, kept.len() + 1)?;
    let mut rest = Vec::new(alloc);
    push_rest(&mut rest, kept, source)?;
    let sum = checksum(&table, &rest);
    table.push(sum)?;
    table.extend_from_slice(&rest)?;
    Ok(table)
}

// Appends what is before the checksum of a table with this number of sources.
#[tactic(auto, unfolding(crate::specs::Sources::table_front))]
fn push_front(bytes: &mut Vec<u8>, count: usize) -> Result<(), NoMemory>
    requires { count ≤ MOST_SOURCES }
    ensures { OnOk result (bytes.new.items ≡ bytes.old.items ++ table_front count) }
{
    bytes.extend_from_slice(b"HEST")?;
    push_u32(bytes, 40 + 64 * count as u32)?;
    bytes.push(0)?;
    Ok(())
}

// Appends what follows the checksum of a table of these sources and one more.
#[tactic(auto, unfolding(crate::specs::Sources::table_rest))]
fn push_rest(bytes: &mut Vec<u8>, kept: &[u16], source: u16) -> Result<(), NoMemory>
    requires { length kept.now < MOST_SOURCES }
    ensures { OnOk result (bytes.new.items
        ≡ bytes.old.items ++ table_rest (kept.now ++ source ∷ [])) }
{
    bytes.extend_from_slice(&[0u8; 26])?;
    push_u32(bytes, kept.len() as u32 + 1)?;
    push_all(bytes, kept, source)
}

// Appends sources in order, and one more.
fn push_all(bytes: &mut Vec<u8>, kept: &[u16], source: u16) -> Result<(), NoMemory>
    ensures { OnOk result (bytes.new.items
        ≡ bytes.old.items ++ flat_map source_bytes (kept.now ++ source ∷ [])) }
{
    push_sources(bytes, kept)?;
    push_source(bytes, source)
}

// Appends sources in order.
fn push_sources(bytes: &mut Vec<u8>, sources: &[u16]) -> Result<(), NoMemory>
    ensures { OnOk result (bytes.new.items ≡ bytes.old.items ++ flat_map source_bytes sources.now) }
{
    for source in sources {
        push_source(bytes, *source)?;
    }
    Ok(())
}

// Appends a source.
#[tactic(auto, unfolding(crate::specs::Sources::source_bytes))]
fn push_source(bytes: &mut Vec<u8>, source: u16) -> Result<(), NoMemory>
    ensures { OnOk result (bytes.new.items ≡ bytes.old.items ++ source_bytes source) }
{
    bytes.extend_from_slice(&[9, 0])?;
    push_u16(bytes, source)?;
    bytes.extend_from_slice(&[0u8; 60])?;
    Ok(())
}

// Returns the checksum of a table from what is before the checksum and what follows it.
fn checksum(front: &[u8], rest: &[u8]) -> u8
    ensures { result ≡ checksum front.now rest.now }
{
    ((512 - u32::from(byte_sum(front)) - u32::from(byte_sum(rest))) % 256) as u8
}

// Returns the sum of bytes modulo 256.
fn byte_sum(bytes: &[u8]) -> u8
    ensures { result ≡ sum bytes.now % 256 }
{
    let mut sum = 0u8;
    for byte in bytes {
        sum = sum.wrapping_add(*byte);
    }
    sum
}
