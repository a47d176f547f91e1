//! What a log line prints about a section of firmware.

ghost use Rattle.std.specs.Prelude.{◌≡◌, ◌++◌, codes, decimal, MatchOption, OnOk};
ghost use Rattle.ras_texts.specs.Sections.{digits_text, memory_text, other_text, processor_text};
ghost use Rattle.ras_texts.specs.Sections.{told_text, type_text, x64_text};

use crate::pieces::hexadecimal_digits;
use cper_sections::{MemSection, ProcSection, X64Section};
use ras_base::{NoMemory, push_number};
use uuid::Uuid;

/// Appends the text of a memory section: the type of the error, where it is, and the address's
/// mask.
///
/// `NoMemory`: only if memory runs out.
#[tactic(auto, unfolding(crate::specs::Sections::memory_text))]
pub fn push_memory(text: &mut Vec<u8>, memory: &MemSection) -> Result<(), NoMemory>
    ensures { OnOk result (text.new.items ≡ text.old.items ++ memory_text memory.now) }
{
    text.extend_from_slice(b"memory type=")?;
    push_type(text, memory.kind)?;
    push_place(text, b" node=", memory.node)?;
    push_place(text, b" card=", memory.card)?;
    push_place(text, b" module=", memory.module)?;
    push_digits(text, b" mask=", memory.mask)?;
    Ok(())
}

/// Appends the text of a processor section.
///
/// `NoMemory`: only if memory runs out.
#[tactic(auto, unfolding(crate::specs::Sections::processor_text))]
pub fn push_processor(text: &mut Vec<u8>, processor: &ProcSection) -> Result<(), NoMemory>
    ensures { OnOk result (text.new.items ≡ text.old.items ++ processor_text processor.now) }
{
    push_field(text, b"processor type=", processor.kind)?;
    push_field(text, b" isa=", processor.isa)?;
    push_field(text, b" error=", processor.error)?;
    push_field(text, b" op=", processor.operation)?;
    push_field(text, b" level=", processor.level)?;
    Ok(())
}

/// Appends the text of an IA32/X64 section.
///
/// `NoMemory`: only if memory runs out.
#[tactic(auto, unfolding(crate::specs::Sections::x64_text))]
pub fn push_x64(text: &mut Vec<u8>, x64: &X64Section) -> Result<(), NoMemory>
    ensures { OnOk result (text.new.items ≡ text.old.items ++ x64_text x64.now) }
{
    push_digits(text, b"x64 apic=", x64.apic)?;
    push_field(text, b" structures=", x64.structures)?;
    push_field(text, b" contexts=", x64.contexts)
}

/// Appends the type of a section of another type.
///
/// `NoMemory`: only if memory runs out.
#[tactic(auto, unfolding(crate::specs::Sections::other_text))]
pub fn push_other(text: &mut Vec<u8>, guid: Uuid) -> Result<(), NoMemory>
    ensures { OnOk result (text.new.items ≡ text.old.items ++ other_text guid) }
{
    let mut buffer = Uuid::encode_buffer();
    text.extend_from_slice(b"section=")?;
    text.extend_from_slice(guid.hyphenated().encode_lower(&mut buffer).as_bytes())?;
    Ok(())
}

// Appends the type of a memory error, if it is there.
fn push_type(text: &mut Vec<u8>, kind: Option<u8>) -> Result<(), NoMemory>
    ensures { OnOk result (text.new.items ≡ text.old.items ++ told_text type_text kind) }
{
    match kind {
        Some(kind) => push_known_type(text, kind),
        None => Ok(text.extend_from_slice(b"-")?),
    }
}

// Appends a type of memory errors.
fn push_known_type(text: &mut Vec<u8>, kind: u8) -> Result<(), NoMemory>
    ensures { OnOk result (text.new.items ≡ text.old.items ++ type_text kind) }
{
    match type_word(kind) {
        Some(word) => Ok(text.extend_from_slice(word)?),
        None => push_field(text, b"type-", kind),
    }
}

// Returns the name of a type of memory errors, if it has one.
#[tactic(auto, unfolding(crate::specs::Sections::type_text))]
fn type_word(kind: u8) -> Option<&'static [u8]>
    ensures { MatchOption result (type_text kind ≡ codes "type-" ++ decimal kind)
        (λ word. type_text kind ≡ word.now) }
{
    match kind {
        0 => Some(b"unknown"),
        1 => Some(b"no-error"),
        2 => Some(b"single-bit-ecc"),
        3 => Some(b"multi-bit-ecc"),
        4 => Some(b"single-symbol-chipkill"),
        5 => Some(b"multi-symbol-chipkill"),
        6 => Some(b"master-abort"),
        7 => Some(b"target-abort"),
        8 => Some(b"parity"),
        9 => Some(b"watchdog-timeout"),
        10 => Some(b"invalid-address"),
        11 => Some(b"mirror-broken"),
        12 => Some(b"sparing"),
        13 => Some(b"scrub-corrected"),
        14 => Some(b"scrub-uncorrected"),
        15 => Some(b"map-out"),
        _ => None,
    }
}

// Appends a field that is a number.
fn push_field(text: &mut Vec<u8>, head: &[u8], value: u8) -> Result<(), NoMemory>
    ensures { OnOk result (text.new.items ≡ text.old.items ++ (head.now ++ decimal value)) }
{
    text.extend_from_slice(head)?;
    push_number(text, u64::from(value))
}

// Appends a field that is a number, if it is there.
fn push_place(text: &mut Vec<u8>, head: &[u8], value: Option<u16>) -> Result<(), NoMemory>
    ensures { OnOk result
        (text.new.items ≡ text.old.items ++ (head.now ++ told_text decimal value)) }
{
    text.extend_from_slice(head)?;
    match value {
        Some(value) => push_number(text, u64::from(value)),
        None => Ok(text.extend_from_slice(b"-")?),
    }
}

// Appends a field of 16 hexadecimal digits, if it is there.
fn push_digits(text: &mut Vec<u8>, head: &[u8], value: Option<u64>) -> Result<(), NoMemory>
    ensures { OnOk result
        (text.new.items ≡ text.old.items ++ (head.now ++ told_text digits_text value)) }
{
    text.extend_from_slice(head)?;
    match value {
        Some(value) => text.extend_from_slice(&hexadecimal_digits(value))?,
        None => text.extend_from_slice(b"-")?,
    }
    Ok(())
}
