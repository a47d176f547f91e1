//! Reads the text of the event `non_standard_event`: a section of a firmware's report, with all of
//! its bytes, whose type the kernel doesn't know.

ghost use Rattle.std.specs.Prelude.{◌≡◌, ◌<◌, ◌≤◌, [], length, IfOk, IfSome};
ghost use Rattle.block_lines.specs.declared.blocks.TheConstants.{LONGEST_SECTION};
ghost use Rattle.std.specs.Option.{option_map};
ghost use Rattle.uuid.specs.Text.{parsed};
ghost use Rattle.bank_lines.specs.Parts.{cut_at};
ghost use Rattle.event_lines.specs.SectionEvent.{behind_byte, byte_of, bytes_from, cper_of_ghes, last_two};
ghost use Rattle.event_lines.specs.SectionEvent.{raw_text_of, section_bytes_of, section_head_of};

use crate::flags::hexadecimal_to;
use bank_lines::{Parts, cut, value_after};
use block_lines::LONGEST_SECTION;
use ras_base::NoMemory;
use ras_script::decimal;
use std::alloc::Global;
use uuid::Uuid;

/// What the event of a section says, besides the section's bytes: its type, its severity's number
/// in a block, and how many bytes it has.
#[derive(Clone, Copy, Debug, PartialEq, Eq)]
pub(crate) struct SectionHead {
    pub(crate) kind: [u8; 16],
    pub(crate) severity: u32,
    pub(crate) size: u64,
}

// Returns what the event's text says besides the bytes, if it can be read:
// `severity: <n>; sec type:<type>; FRU: <any text>; data len:<n>; raw data:<bytes>`.
pub(crate) fn section_head(text: &[u8]) -> Option<SectionHead>
    ensures { result ≡ section_head_of text.now }
{
    let (severity, rest) = cut(b';', value_after(b"severity: ", text)?);
    let (kind, rest) = cut(b';', value_after(b" sec type:", rest)?);
    let size = value_after(b" data len:", size_part(value_after(b" FRU: ", rest)?))?;
    Some(SectionHead {
        kind: guid_of(kind)?,
        severity: cper_of_ghes(decimal(severity, 3)?),
        size: decimal(size, LONGEST_SECTION as u64)?,
    })
}

// Returns the bytes of a GUID in the order in which a text has them.
fn guid_of(text: &[u8]) -> Option<[u8; 16]>
    ensures { result ≡ parsed text.now }
{
    match Uuid::try_parse_ascii(text) {
        Ok(guid) => Some(*guid.as_bytes()),
        Err(_) => None,
    }
}

// Returns a severity's number in a block, by the kernel's number.
fn cper_of_ghes(severity: u64) -> u32
    ensures { result ≡ cper_of_ghes severity }
{
    match severity {
        0 => 3,
        1 => 2,
        2 => 0,
        _ => 1,
    }
}

// Returns the last part but one of a text that semicolons separate.
fn size_part(text: &[u8]) -> &[u8]
    ensures { result.now ≡ (last_two ([], []) (cut_at 59 text.now)).0 }
{
    let mut before: &[u8] = &[];
    let mut last: &[u8] = &[];
    let mut parts = Parts::new(b';', text);
    while let Some(part) = parts.next() {
        before = last;
        last = part;
    }
    before
}

// Returns the last part of a line, if it has the bytes of a section, and nothing otherwise.
fn raw_text(line: &[u8]) -> &[u8]
    ensures { result.now ≡ raw_text_of line.now }
{
    let mut last: &[u8] = &[];
    let mut parts = Parts::new(b';', line);
    while let Some(part) = parts.next() {
        last = part;
    }
    value_after(b" raw data:", last).unwrap_or(&[])
}

// Returns the bytes of a section from the line of its event, if they can be read and are as many as
// the event says.
pub(crate) fn section_bytes(
    alloc: Global,
    head: SectionHead,
    line: &[u8],
) -> Result<Option<Vec<u8>>, NoMemory>
    ensures bytes { IfOk result (λ read. option_map (λ bytes. bytes.items) read
        ≡ section_bytes_of head line.now) }
    ensures few { IfOk result (λ read.
        IfSome read (λ bytes. length bytes.items ≤ LONGEST_SECTION)) }
{
    match raw_bytes(alloc, raw_text(line))? {
        Some(bytes) if bytes.len() as u64 == head.size && bytes.len() <= LONGEST_SECTION => {
            Ok(Some(bytes))
        }
        _ => Ok(None),
    }
}

// Returns the bytes of a text that has two hexadecimal digits for each, with a space between two
// bytes. Between two rows of 16 bytes the space may be missing, since Linux 6.1 prints none there.
fn raw_bytes(alloc: Global, text: &[u8]) -> Result<Option<Vec<u8>>, NoMemory>
    ensures { IfOk result (λ read. option_map (λ bytes. bytes.items) read ≡ bytes_from 0 text.now) }
{
    let mut bytes = Vec::new(alloc);
    let mut rest = text;
    while rest.len() > 2 {
        let Some(byte) = byte_of(&rest[..2]) else {
            return Ok(None);
        };
        bytes.push(byte)?;
        let Some(behind) = behind_byte(bytes.len(), rest) else {
            return Ok(None);
        };
        rest = behind;
    }
    let Some(byte) = byte_of(rest) else {
        return Ok(None);
    };
    bytes.push(byte)?;
    Ok(Some(bytes))
}

// Returns the text after a byte and the space after it. The byte is the last of `count`.
fn behind_byte(count: usize, text: &[u8]) -> Option<&[u8]>
    requires { 2 < length text.now }
    ensures value { option_map (λ rest. rest.now) result ≡ behind_byte count text.now }
    ensures shorter { IfSome result (λ rest. length rest.now < length text.now) }
{
    if text[2] == b' ' {
        Some(&text[3..])
    } else if count % 16 == 0 {
        Some(&text[2..])
    } else {
        None
    }
}

// Returns the byte that two hexadecimal digits give.
fn byte_of(word: &[u8]) -> Option<u8>
    ensures { result ≡ byte_of word.now }
{
    if word.len() == 2 {
        Some(hexadecimal_to(u64::from(u8::MAX), word)? as u8)
    } else {
        None
    }
}
