//! Reads the lines that a driver of EDAC prints of a machine check.

ghost use Rattle.std.specs.Prelude.{◌≡◌, ◌≤◌, drop, IfSome};
ghost use Rattle.std.specs.List.{list_all};
ghost use Rattle.std.specs.Option.{option_map};
ghost use Rattle.ras_klog.specs.Reading.{colon_number, is_empty, word};
ghost use Rattle.bank_lines.specs.EdacLines.{driver_text, edac_line_of, edac_vendor, is_check, is_driver, is_of_edac};
ghost use Rattle.bank_lines.specs.EdacLines.{edac_bank, edac_processor, edac_register, edac_start, edac_number};
ghost use Rattle.bank_lines.specs.PartsLeft.{parts_in};

use crate::log_heads::{cut, is_number};
use crate::parts::{Parts, value_after};
use ras_script::{decimal, hexadecimal};

/// What a line of a report says that a driver of EDAC prints.
#[derive(Clone, Copy, Debug, PartialEq, Eq)]
pub(crate) enum EdacLine {
    // A report begins.
    Start {
        cpu: u16,
        mcg: u64,
        bank: u8,
        status: u64,
    },
    // The counter, the address and the other register.
    Tsc(u64),
    Addr(u64),
    Misc(u64),
    // The processor's vendor, and when the bank was read.
    Processor {
        vendor: u64,
        seconds: u64,
    },
}

// Returns the text after `<driver> MC<number>: `.
pub(crate) fn driver_text(text: &[u8]) -> Option<&[u8]>
    ensures { option_map (λ rest. rest.now) result ≡ driver_text text.now }
{
    let (driver, rest) = cut(b' ', text);
    if !is_driver(driver) {
        return None;
    }
    let (number, rest) = cut(b':', value_after(b"MC", rest)?);
    if !is_number(number) {
        return None;
    }
    value_after(b" ", rest)
}

// Returns whether a driver prints this name.
fn is_driver(name: &[u8]) -> bool
    ensures { result ≡ is_driver name.now }
{
    name == b"skx".as_slice() || name == b"sbridge".as_slice() || name == b"pnd2".as_slice()
}

// Returns whether a driver's text begins like a line of a report.
pub(crate) fn is_of_edac(text: &[u8]) -> bool
    ensures { result ≡ is_of_edac text.now }
{
    let (kind, _) = cut(b' ', text);
    kind == b"CPU".as_slice()
        || kind == b"TSC".as_slice()
        || kind == b"ADDR".as_slice()
        || kind == b"MISC".as_slice()
        || kind == b"PROCESSOR".as_slice()
}

// Returns what a driver's text says that begins like a line of a report.
pub(crate) fn edac_line(text: &[u8]) -> Option<EdacLine>
    ensures { result ≡ edac_line_of text.now }
{
    let mut words = Parts::new(b' ', text);
    let kind = next_word(&mut words);
    if kind == b"CPU".as_slice() {
        return start_of(&mut words);
    }
    if kind == b"PROCESSOR".as_slice() {
        return processor_of(&mut words);
    }
    let register = edac_register(&mut words)?;
    if kind == b"TSC".as_slice() {
        Some(EdacLine::Tsc(register))
    } else if kind == b"ADDR".as_slice() {
        Some(EdacLine::Addr(register))
    } else {
        Some(EdacLine::Misc(register))
    }
}

// Returns the next word, or an empty one after the last.
fn next_word<'a>(words: &mut Parts<'a>) -> &'a [u8]
    ensures word { result.now ≡ word (parts_in words.old) 0 }
    ensures rest { parts_in words.new ≡ drop 1 (parts_in words.old) }
{
    match words.next() {
        Some(word) => word,
        None => &[],
    }
}

// `<cpu>: Machine Check Event: ` or `<cpu>: Machine Check Exception: `, followed by the bank.
#[tactic(auto, unfolding(crate::specs::EdacLines::edac_start))]
fn start_of(words: &mut Parts<'_>) -> Option<EdacLine>
    ensures { result ≡ edac_start (parts_in words.old) }
{
    let cpu = colon_number(next_word(words), u64::from(u16::MAX))? as u16;
    if next_word(words) != b"Machine".as_slice() || next_word(words) != b"Check".as_slice() {
        return None;
    }
    if !is_check(next_word(words)) {
        return None;
    }
    bank_of(cpu, words)
}

// `<mcg> Bank <bank>: <status>`, followed only by spaces.
#[tactic(auto, unfolding(crate::specs::EdacLines::edac_bank))]
fn bank_of(cpu: u16, words: &mut Parts<'_>) -> Option<EdacLine>
    ensures { result ≡ edac_bank cpu (parts_in words.old) }
{
    let mcg = edac_number(next_word(words))?;
    if next_word(words) != b"Bank".as_slice() {
        return None;
    }
    let bank = colon_number(next_word(words), u64::from(u8::MAX))? as u8;
    let status = edac_register(words)?;
    Some(EdacLine::Start {
        cpu,
        mcg,
        bank,
        status,
    })
}

// `<register>`, followed only by spaces.
#[tactic(auto, unfolding(crate::specs::EdacLines::edac_register))]
fn edac_register(words: &mut Parts<'_>) -> Option<u64>
    ensures { result ≡ edac_register (parts_in words.old) }
{
    let register = edac_number(next_word(words))?;
    if are_empty(words) {
        Some(register)
    } else {
        None
    }
}

// `<vendor>:<id> TIME <seconds>`, followed by at least one space.
#[tactic(auto, unfolding(crate::specs::EdacLines::edac_processor))]
fn processor_of(words: &mut Parts<'_>) -> Option<EdacLine>
    ensures { result ≡ edac_processor (parts_in words.old) }
{
    let vendor = edac_vendor(next_word(words))?;
    if next_word(words) != b"TIME".as_slice() {
        return None;
    }
    let seconds = decimal(next_word(words), u64::MAX)?;
    if words.are_taken() {
        return None;
    }
    Some(EdacLine::Processor { vendor, seconds })
}

// Returns a decimal number of at most `most` with a colon after it.
fn colon_number(word: &[u8], most: u64) -> Option<u64>
    ensures value { result ≡ colon_number most word.now }
    ensures within { IfSome result (λ n. n ≤ most) }
{
    decimal(word.strip_suffix(b":")?, most)
}

// Returns a hexadecimal number, with or without `0x` before it.
#[tactic(auto, unfolding(crate::specs::EdacLines::edac_number))]
fn edac_number(word: &[u8]) -> Option<u64>
    ensures { result ≡ edac_number word.now }
{
    match value_after(b"0x", word) {
        Some(digits) => hexadecimal(digits),
        None => hexadecimal(word),
    }
}

// Returns the vendor's number in `<vendor>:<id>`.
fn edac_vendor(word: &[u8]) -> Option<u64>
    ensures { result ≡ edac_vendor word.now }
{
    let (vendor, id) = cut(b':', word);
    edac_number(id)?;
    decimal(vendor, u64::MAX)
}

// Returns whether a word says that a machine check was found by polling or came as an exception.
fn is_check(word: &[u8]) -> bool
    ensures { result ≡ is_check word.now }
{
    word == b"Event:".as_slice() || word == b"Exception:".as_slice()
}

// Returns whether only spaces are left.
fn are_empty(words: &mut Parts<'_>) -> bool
    ensures { result ≡ list_all is_empty (parts_in words.old) }
{
    while let Some(word) = words.next() {
        if !word.is_empty() {
            return false;
        }
    }
    true
}
