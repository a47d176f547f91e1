//! Reads the text after the prefix of a firmware report's line.

ghost use Rattle.std.specs.Prelude.{◌≡◌};
ghost use Rattle.std.specs.Option.{option_map};
ghost use Rattle.bank_lines.specs.Parts.{value_after};
ghost use Rattle.block_lines.specs.Lines.{after_named, error_line, error_severity, kind_line};
ghost use Rattle.block_lines.specs.Lines.{location_line, location_of, mask_line, number_named};
ghost use Rattle.block_lines.specs.Lines.{physical_line, report_line_of, section_said};
ghost use Rattle.block_lines.specs.Lines.{severity_of, start_line, type_line};

use crate::memory::{ErrorLocation, MemoryField};
use bank_lines::{cut, without_spaces};
use ras_script::{decimal, hexadecimal};

/// What a line of a firmware's report says.
#[derive(Clone, Copy, Debug, PartialEq, Eq)]
pub(crate) enum ReportLine {
    // A report of this source begins.
    Start { source: u16 },
    // The severity of all errors of the report.
    Event { severity: u32 },
    // A section begins, of an error of this severity.
    Error { severity: u32 },
    // The section is about memory.
    MemoryType,
    // The section is about something else.
    OtherType,
    // What a memory section says, if it can be read. Other sections have fields of these names too.
    Field(Option<MemoryField>),
    // The line begins like one of these lines, but can't be read as one.
    Unread,
    // Anything else, which no block gets.
    Other,
}

// Returns what the text after the prefix says.
pub(crate) fn report_line(text: &[u8]) -> ReportLine
    ensures { result ≡ report_line_of text.now }
{
    let start = b"Hardware error from APEI Generic Hardware Error Source: ";
    if let Some(value) = value_after(start, text) {
        return start_line(value);
    }
    if let Some(value) = value_after(b"event severity: ", text) {
        return ReportLine::Event {
            severity: severity_of(value),
        };
    }
    if let Some(value) = value_after(b" Error ", text) {
        return error_line(value);
    }
    match value_after(b"  ", text) {
        Some(value) => section_said(value),
        None => ReportLine::Other,
    }
}

// Returns what follows a name, if a text begins with it.
fn value_after<'a>(name: &[u8], text: &'a [u8]) -> Option<&'a [u8]>
    ensures { option_map (λ value. value.now) result ≡ value_after name.now text.now }
{
    text.strip_prefix(name)
}

/// Returns the number of a severity by the kernel's word for it.
pub fn severity_of(word: &[u8]) -> u32
    ensures { result ≡ severity_of word.now }
{
    if word == b"recoverable".as_slice() {
        0
    } else if word == b"fatal".as_slice() {
        1
    } else if word == b"corrected".as_slice() {
        2
    } else {
        3
    }
}

// Reads the first line of a report, which has the number of its source.
fn start_line(value: &[u8]) -> ReportLine
    ensures { result ≡ start_line value.now }
{
    match decimal(value, u64::from(u16::MAX)) {
        Some(source) => ReportLine::Start {
            source: source as u16,
        },
        None => ReportLine::Unread,
    }
}

// Reads the first line of a section, which has its number and its severity.
fn error_line(value: &[u8]) -> ReportLine
    ensures { result ≡ error_line value.now }
{
    match error_severity(value) {
        Some(severity) => ReportLine::Error { severity },
        None => ReportLine::Unread,
    }
}

// Returns the severity in `<number>, type: <severity>`.
fn error_severity(value: &[u8]) -> Option<u32>
    ensures { result ≡ error_severity value.now }
{
    let (number, rest) = cut(b',', value);
    decimal(number, u64::MAX)?;
    let word = value_after(b" type: ", rest)?;
    Some(severity_of(word))
}

// Reads a line of a section, after its two spaces.
fn section_said(text: &[u8]) -> ReportLine
    ensures { result ≡ section_said text.now }
{
    if let Some(value) = value_after(b"section_type: ", text) {
        return type_line(value);
    }
    if value_after(b"section type: ", text).is_some() {
        return ReportLine::OtherType;
    }
    if let Some(value) = value_after(b"physical_address: 0x", text) {
        return physical_line(value);
    }
    if let Some(value) = value_after(b"physical_address_mask: 0x", text) {
        return mask_line(value);
    }
    if let Some(value) = value_after(b"error_type: ", text) {
        return kind_line(value);
    }
    location_line(text)
}

// Reads what a section is about.
fn type_line(value: &[u8]) -> ReportLine
    ensures { result ≡ type_line value.now }
{
    if value == b"memory error".as_slice() {
        ReportLine::MemoryType
    } else {
        ReportLine::OtherType
    }
}

// Reads the physical address.
fn physical_line(value: &[u8]) -> ReportLine
    ensures { result ≡ physical_line value.now }
{
    match hexadecimal(value) {
        Some(address) => ReportLine::Field(Some(MemoryField::Physical(address))),
        None => ReportLine::Field(None),
    }
}

// Reads the mask of the physical address.
fn mask_line(value: &[u8]) -> ReportLine
    ensures { result ≡ mask_line value.now }
{
    match hexadecimal(value) {
        Some(mask) => ReportLine::Field(Some(MemoryField::Mask(mask))),
        None => ReportLine::Field(None),
    }
}

// Reads the type of error, `<number>, <words>`.
fn kind_line(value: &[u8]) -> ReportLine
    ensures { result ≡ kind_line value.now }
{
    let (number, _) = cut(b',', value);
    match decimal(number, u64::from(u8::MAX)) {
        Some(kind) => ReportLine::Field(Some(MemoryField::Kind(kind as u8))),
        None => ReportLine::Field(None),
    }
}

// Reads the location of an error, if the line has one.
fn location_line(text: &[u8]) -> ReportLine
    ensures { result ≡ location_line text.now }
{
    if text.starts_with(b"node:") || text.starts_with(b"card:") || text.starts_with(b"module:") {
        ReportLine::Field(Some(MemoryField::At(location_of(text))))
    } else {
        ReportLine::Other
    }
}

/// Returns the location of an error from a text that begins with the location. Its numbers come in
/// the order node, card, module, and each may be missing.
pub fn location_of(text: &[u8]) -> ErrorLocation
    ensures { result ≡ location_of text.now }
{
    let cards = after_named(b"node:", text);
    let modules = after_named(b"card:", cards);
    ErrorLocation {
        node: number_named(b"node:", text),
        card: number_named(b"card:", cards),
        module: number_named(b"module:", modules),
    }
}

// Returns the number after a name, if a text begins with that name.
fn number_named(name: &[u8], text: &[u8]) -> Option<u16>
    ensures { result ≡ number_named name.now text.now }
{
    let value = value_after(name, text)?;
    let (number, _) = cut(b' ', without_spaces(value));
    Some(decimal(number, u64::from(u16::MAX))? as u16)
}

// Returns what follows the number after a name, or the whole text if it doesn't begin with the
// name.
fn after_named<'a>(name: &[u8], text: &'a [u8]) -> &'a [u8]
    ensures { result.now ≡ after_named name.now text.now }
{
    match value_after(name, text) {
        Some(value) => cut(b' ', without_spaces(value)).1,
        None => text,
    }
}
