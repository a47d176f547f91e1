//! What a line of a script asks for.

ghost use Rattle.std.specs.Prelude.{◌≡◌, ℕ, ◌<◌, List, length, map, IfOk, IsErr, IsTrue};
ghost use Rattle.ras_script.specs.Line.{GivesLine, ReadsLine, line_of, line_of_words};
ghost use Rattle.ras_script.specs.LineLaws.{HasFewBytes, IsInRange, line_text};
ghost use Rattle.ras_script.specs.Refusals.{line_number};
ghost use Rattle.ras_script.specs.Splitting.{AreHeldWords, words_of};
ghost use Rattle.ras_script.specs.declared.line.LineRefused.TheVariants as RefusedFor;

use crate::kinds::event_of;
use crate::splitting::words;
use dimm_topology::Row;
use mca_codes::Text;
use ras_base::NoMemory;
use ras_facts::{BankReport, Entry};
use std::alloc::Global;
use thiserror::Error;

/// What a line of a script asks for.
#[derive(Debug, Drop)]
pub enum Line {
    /// Nothing: the line has no words, or is a comment.
    Nothing,
    /// Add a row to the machine description: of `cpu`, `module`, `range` or `place`.
    Row(Row),
    /// Read a table of the firmware: of `hest` or `erst`.
    Table(Table),
    /// Count a report: of `bank`, `ghes` or `bert`.
    Report(ErrorReport),
    /// Count an entry: of `limit`, `module-limit` or `retire`.
    Entry(Entry),
    /// Put a record into the record store, under an identifier.
    Put { id: u64, bytes: Text },
    /// Save the report of a bank in the record store, under an identifier.
    Panic { id: u64, bank: BankReport },
    /// Count the records of the record store, as read at a time in seconds.
    Poll { seconds: u64 },
    /// Recover the account from its files again.
    Restart,
}

/// A table of the firmware, as bytes.
#[derive(Debug, Drop)]
pub enum Table {
    /// The hardware error source table.
    Hest(Text),
    /// The error record serialization table.
    Erst(Text),
}

/// A report of errors, with the number of its boot and its time in seconds.
#[derive(Debug, Drop)]
pub enum ErrorReport {
    /// A snapshot of a machine-check bank.
    Bank(BankReport),
    /// A generic error status block: the identifier of its error source, its number, and its bytes.
    Block {
        boot: u64,
        seconds: u64,
        source: u16,
        number: u64,
        bytes: Text,
    },
    /// A boot error region: the bytes of the boot error record table, and the bytes of the region.
    Boot {
        boot: u64,
        seconds: u64,
        table: Text,
        region: Text,
    },
}

/// Why a line is rejected: the first reason that applies, going through the words from left to
/// right. A refusal is printed by its number.
#[derive(Clone, Copy, Debug, Error, PartialEq, Eq)]
pub enum LineRefused {
    /// 1: the first word isn't a kind of line.
    #[error("the first word is no kind of line")]
    Kind,
    /// 2: the kind has another number of words.
    #[error("the number of words isn't that of the kind of line")]
    Words,
    /// 3: a decimal or hexadecimal word isn't a number in its range, or a range has its first
    /// address above its last.
    #[error("a word is no number in its range")]
    Number,
    /// 4: a word for bytes isn't an even number of hexadecimal digits.
    #[error("a word is no even number of hexadecimal digits")]
    Hex,
    /// 6: a word for a label isn't a label.
    #[error("a word is no label")]
    Label,
    /// Memory ran out.
    #[error("memory ran out")]
    NoMemory,
}

impl LineRefused {
    /// Returns the number by which the refusal is printed, or `None` if memory ran out.
    pub fn number(self) -> Option<u8>
        ensures { result ≡ line_number self }
    {
        match self {
            LineRefused::Kind => Some(1),
            LineRefused::Words => Some(2),
            LineRefused::Number => Some(3),
            LineRefused::Hex => Some(4),
            LineRefused::Label => Some(6),
            LineRefused::NoMemory => None,
        }
    }
}

/// Returns what a line asks for, given its bytes without the line feed.
///
/// # Errors
///
/// The first that applies. `Kind`: the first word isn't a kind of line. `Words`: the kind has
/// another number of words. Then, from left to right, `Number`: a word for a number isn't a number
/// in its range; `Hex`: a word for bytes isn't an even number of hexadecimal digits; `Label`: a
/// word for a label isn't a label. Last, `Number`: the first address of a range is above its last.
/// `NoMemory`: only if memory runs out.
pub fn read_line(alloc: Global, bytes: &[u8]) -> Result<Line, LineRefused>
    ensures read { ReadsLine result bytes.now }
    ensures range { IfOk result IsInRange }
{
    if asks_nothing(bytes) {
        return Ok(Line::Nothing);
    }
    line_of_words(alloc, &words(bytes))
}

// Returns whether a line's first byte shows that it asks for nothing: the line is empty or a
// comment.
#[tactic(auto, using(crate::proofs::SpaceLemmas::empty_asks, crate::proofs::SpaceLemmas::comment_asks))]
fn asks_nothing(bytes: &[u8]) -> bool
    ensures { IsTrue result → line_of bytes.now ≡ Ok Line.Nothing }
{
    bytes.is_empty() || bytes[0] == b'#'
}

// Returns what a line asks for, by its words.
fn line_of_words(alloc: Global, words: &[&[u8]]) -> Result<Line, LineRefused>
    ensures read { GivesLine result (line_of_words (map (λ word. word.now) words.now)) }
    ensures line { (bytes : List ℕ) → AreHeldWords (map (λ word. word.now) words.now) bytes
        → ReadsLine result bytes }
    ensures range { IfOk result IsInRange }
{
    let [kind, rest @ ..] = words else {
        return Ok(Line::Nothing);
    };
    if kind.first() == Some(&b'#') {
        return Ok(Line::Nothing);
    }
    event_of(alloc, kind, rest)
}

/// The numbers of a line that was read are in their ranges: a bank's registers below 2^64, its CPU
/// below 2^16 and its number below 2^8. Labels are labels, and no bytes are empty. A report has no
/// more bytes than its line.
pub fn numbers_are_in_range()
    ensures range { (bytes : List ℕ) → IfOk (line_of bytes) IsInRange }
    ensures few { (bytes : List ℕ) → IfOk (line_of bytes) (HasFewBytes (length bytes)) }
{}

/// A line written with single spaces, plain numbers and hexadecimal bytes is read back.
pub fn written_lines_are_read()
    ensures { (line : Line) → IsInRange line → line_of (line_text line) ≡ Ok line }
{}

/// A line is rejected only because of a word, so a line without words is never rejected.
pub fn refused_lines_have_words()
    ensures { (bytes : List ℕ) → IsErr (line_of bytes) → 0 < length (words_of bytes) }
{}

impl From<NoMemory> for LineRefused {
    ghost from_gives = { λ _ e. e ≡ RefusedFor.NoMemory };

    fn from(_: NoMemory) -> Self {
        LineRefused::NoMemory
    }
}
