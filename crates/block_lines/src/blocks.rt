//! Writes the bytes of the blocks.

ghost use Rattle.std.specs.Prelude.{◌≡◌, ◌≤◌, ◌<◌, [], ◌∷◌, ◌++◌, length, unwrap_or, OnOk};
ghost use Rattle.std.specs.List.{flat_map};
ghost use Rattle.block_lines.specs.Blocks.{address_bytes, block_bytes, error_entry_bytes, flag, block_front};
ghost use Rattle.block_lines.specs.Blocks.{entry_header_bytes, kind_bytes, location_bytes, location_flags};
ghost use Rattle.block_lines.specs.Blocks.{memory_section_bytes, memory_type, section_block_bytes};
ghost use Rattle.block_lines.specs.Blocks.{section_entry_bytes, validation_of};
ghost use Rattle.block_lines.specs.Reports.{section_errors};

use crate::memory::{ErrorLocation, MemoryError};
use crate::report::{MOST_ERRORS, OpenSection};
use ras_base::NoMemory;
use ras_base::little_endian::{push_u16, push_u32, push_u64};

/// The most bytes of a section in a block of its own: a line of script has no more than these and
/// the block's other bytes, in hexadecimal.
pub const LONGEST_SECTION: usize = 19_800;

// The bytes of a block of one memory error. Most blocks have no more, so they are allocated at once.
pub(crate) const ONE_ERROR_BYTES: usize = 172;

// The type of memory sections, as a block has it.
const MEMORY_TYPE: [u8; 16] = [
    0x14, 0x11, 0xbc, 0xa5, 0x64, 0x6f, 0xde, 0x4e, 0xb8, 0x63, 0x3e, 0x83, 0xed, 0x7c, 0x83, 0xb1,
];

// Appends the block of a report with this severity: the errors whose sections ended, and the error
// of the last section.
pub(crate) fn push_block(
    bytes: &mut Vec<u8>,
    severity: u32,
    errors: &[MemoryError],
    section: OpenSection,
) -> Result<(), NoMemory>
    requires { length (errors.now ++ section_errors section) ≤ MOST_ERRORS }
    ensures { OnOk result (bytes.new.items
        ≡ bytes.old.items ++ block_bytes severity (errors.now ++ section_errors section)) }
{
    match section {
        OpenSection::Memory(error) => push_both(bytes, severity, errors, &[error]),
        _ => push_both(bytes, severity, errors, &[]),
    }
}

// Appends the block of a report with this severity, of these errors and others after them.
#[tactic(auto, unfolding(crate::specs::Blocks::block_bytes))]
fn push_both(
    bytes: &mut Vec<u8>,
    severity: u32,
    errors: &[MemoryError],
    others: &[MemoryError],
) -> Result<(), NoMemory>
    requires { length (errors.now ++ others.now) ≤ MOST_ERRORS }
    ensures { OnOk result (bytes.new.items
        ≡ bytes.old.items ++ block_bytes severity (errors.now ++ others.now)) }
{
    let count = (errors.len() + others.len()) as u32;
    push_front(bytes, severity, count, 152 * count)?;
    push_entries(bytes, errors)?;
    push_entries(bytes, others)
}

/// Appends the block of one memory error, which has the error's severity.
///
/// # Errors
///
/// `NoMemory`: only if memory runs out.
pub fn push_error_block(bytes: &mut Vec<u8>, error: MemoryError) -> Result<(), NoMemory>
    ensures { OnOk result (bytes.new.items
        ≡ bytes.old.items ++ block_bytes error.severity (error ∷ [])) }
{
    push_both(bytes, error.severity, &[error], &[])
}

/// Appends the block of one error, which has this severity and a section of this type. Requires a
/// section of at most `LONGEST_SECTION` bytes.
///
/// # Errors
///
/// `NoMemory`: only if memory runs out.
#[tactic(auto, unfolding(crate::specs::Blocks::section_block_bytes, crate::specs::Blocks::section_entry_bytes))]
pub fn push_section_block(
    bytes: &mut Vec<u8>,
    kind: &[u8; 16],
    severity: u32,
    section: &[u8],
) -> Result<(), NoMemory>
    requires { length section.now ≤ LONGEST_SECTION }
    ensures { OnOk result (bytes.new.items
        ≡ bytes.old.items ++ section_block_bytes kind.now severity section.now) }
{
    let size = section.len() as u32;
    push_front(bytes, severity, 1, 72 + size)?;
    push_header(bytes, kind, severity, size)?;
    bytes.extend_from_slice(section)?;
    Ok(())
}

// Appends what is before the entries of a block, which have this size together.
#[tactic(auto, unfolding(crate::specs::Blocks::block_front))]
fn push_front(bytes: &mut Vec<u8>, severity: u32, count: u32, size: u32) -> Result<(), NoMemory>
    requires { count ≤ MOST_ERRORS }
    ensures { OnOk result (bytes.new.items ≡ bytes.old.items ++ block_front severity count size) }
{
    let kind = if severity == 2 { 2 } else { 1 };
    push_u32(bytes, 16 * count + kind)?;
    bytes.extend_from_slice(&[0u8; 8])?;
    push_u32(bytes, size)?;
    push_u32(bytes, severity)
}

// Appends entries in order.
fn push_entries(bytes: &mut Vec<u8>, errors: &[MemoryError]) -> Result<(), NoMemory>
    ensures { OnOk result (bytes.new.items
        ≡ bytes.old.items ++ flat_map error_entry_bytes errors.now) }
{
    for error in errors {
        push_entry(bytes, error)?;
    }
    Ok(())
}

// Appends the entry of an error.
#[tactic(auto, unfolding(crate::specs::Blocks::error_entry_bytes))]
fn push_entry(bytes: &mut Vec<u8>, error: &MemoryError) -> Result<(), NoMemory>
    ensures { OnOk result (bytes.new.items ≡ bytes.old.items ++ error_entry_bytes error.now) }
{
    push_header(bytes, &MEMORY_TYPE, error.severity, 80)?;
    push_section(bytes, error)
}

// Appends the header of an entry, whose section has this type and this size.
#[tactic(auto, unfolding(crate::specs::Blocks::entry_header_bytes))]
fn push_header(
    bytes: &mut Vec<u8>,
    kind: &[u8; 16],
    severity: u32,
    size: u32,
) -> Result<(), NoMemory>
    ensures { OnOk result (bytes.new.items
        ≡ bytes.old.items ++ entry_header_bytes kind.now severity size) }
{
    bytes.extend_from_slice(kind)?;
    push_u32(bytes, severity)?;
    bytes.extend_from_slice(&[0, 3, 0, 0])?;
    push_u32(bytes, size)?;
    bytes.extend_from_slice(&[0u8; 44])?;
    Ok(())
}

// Appends the memory section of an error.
#[tactic(auto, unfolding(crate::specs::Blocks::memory_section_bytes))]
fn push_section(bytes: &mut Vec<u8>, error: &MemoryError) -> Result<(), NoMemory>
    ensures { OnOk result (bytes.new.items
        ≡ bytes.old.items ++ memory_section_bytes error.now) }
{
    push_address(bytes, error)?;
    push_location(bytes, &error.location)?;
    push_kind(bytes, error.kind)
}

// Appends a memory section's bytes up to its location.
#[tactic(auto, unfolding(crate::specs::Blocks::address_bytes))]
fn push_address(bytes: &mut Vec<u8>, error: &MemoryError) -> Result<(), NoMemory>
    ensures { OnOk result (bytes.new.items ≡ bytes.old.items ++ address_bytes error.now) }
{
    push_u64(bytes, validation_of(error))?;
    bytes.extend_from_slice(&[0u8; 8])?;
    push_u64(bytes, error.physical.unwrap_or(0))?;
    push_u64(bytes, error.mask.unwrap_or(0))
}

// Appends the location of an error.
#[tactic(auto, unfolding(crate::specs::Blocks::location_bytes))]
fn push_location(bytes: &mut Vec<u8>, at: &ErrorLocation) -> Result<(), NoMemory>
    ensures { OnOk result (bytes.new.items ≡ bytes.old.items ++ location_bytes at.now) }
{
    push_u16(bytes, at.node.unwrap_or(0))?;
    push_u16(bytes, at.card.unwrap_or(0))?;
    push_u16(bytes, at.module.unwrap_or(0))
}

// Appends the type of an error, and the bytes before and after it.
#[tactic(auto, unfolding(crate::specs::Blocks::kind_bytes))]
fn push_kind(bytes: &mut Vec<u8>, kind: Option<u8>) -> Result<(), NoMemory>
    ensures { OnOk result (bytes.new.items ≡ bytes.old.items ++ kind_bytes kind) }
{
    bytes.extend_from_slice(&[0u8; 34])?;
    bytes.push(kind.unwrap_or(0))?;
    bytes.extend_from_slice(&[0u8; 7])?;
    Ok(())
}

// Returns which fields of a memory section are valid.
fn validation_of(error: &MemoryError) -> u64
    ensures { result ≡ validation_of error.now }
{
    flag(error.physical.is_some(), 2)
        + flag(error.mask.is_some(), 4)
        + location_flags(&error.location)
        + flag(error.kind.is_some(), 16384)
}

// Returns which numbers of a location are valid.
fn location_flags(at: &ErrorLocation) -> u64
    ensures value { result ≡ location_flags at.now }
    ensures within { result ≤ 56 }
{
    flag(at.node.is_some(), 8) + flag(at.card.is_some(), 16) + flag(at.module.is_some(), 32)
}

// Returns the value of a validation bit if it is set, otherwise 0.
fn flag(present: bool, value: u64) -> u64
    ensures value { result ≡ flag present value }
    ensures within { result ≤ value }
{
    if present { value } else { 0 }
}
