//! Reads the lines of a kernel log that belong to a firmware's report.

ghost use Rattle.std.specs.Prelude.{◌≡◌, ℕ, List, true};
ghost use Rattle.std.specs.Option.{option_map};
ghost use Rattle.bank_lines.specs.LogHeads.{is_own};
ghost use Rattle.bank_lines.specs.LogLines.{log_stamp_of};
ghost use Rattle.bank_lines.specs.Parts.{value_after};
ghost use Rattle.block_lines.specs.LogLines.{error_mark, has_mark, marked_line_of, own_after};
ghost use Rattle.block_lines.specs.LogLines.{own_line_of, report_log_line, without_return};

use crate::report_line::{ReportLine, report_line};
use bank_lines::{console_stamp, cut, is_own, log_stamp_of};
use ras_script::decimal;

/// What is read of a line of a kernel log.
#[derive(Clone, Copy, Debug, PartialEq, Eq)]
pub(crate) struct ReportLogLine {
    // When the line was printed, in microseconds since the boot, if the line says so.
    pub(crate) stamp: Option<u64>,
    // Whether the line belongs to a firmware's report.
    pub(crate) marking: Marking,
}

/// Whether a line belongs to a firmware's report.
#[derive(Clone, Copy, Debug, PartialEq, Eq)]
pub(crate) enum Marking {
    // The line has no report's number before the prefix.
    Unmarked,
    // The line has a report's number there, but its head doesn't show it to be the kernel's own.
    Foreign,
    // The kernel itself printed the line.
    Own(OwnLine),
}

/// A line of a firmware's report: the report's number, and what the line says.
#[derive(Clone, Copy, Debug, PartialEq, Eq)]
pub(crate) struct OwnLine {
    pub(crate) report: u64,
    pub(crate) line: ReportLine,
}

// Returns what a line of a kernel log says. Allocates nothing.
pub(crate) fn log_line(line: &[u8]) -> ReportLogLine
    ensures { result ≡ report_log_line line.now }
{
    if line.ends_with(b"\r") {
        return returned_line(line);
    }
    let (head, text) = cut(b'{', line);
    line_of(head, text)
}

// Returns what a line says, which may have a carriage return at its end.
fn returned_line(line: &[u8]) -> ReportLogLine
    ensures { result ≡ report_log_line line.now }
{
    let (head, _) = cut(b'{', line);
    ReportLogLine {
        stamp: log_stamp_of(head),
        marking: own_line(without_return(line)),
    }
}

// Returns a line without the carriage return at its end.
fn without_return(line: &[u8]) -> &[u8]
    ensures { result.now ≡ without_return line.now }
{
    match line.strip_suffix(b"\r") {
        Some(front) => front,
        None => line,
    }
}

// Returns what a line says, from its head and what follows the brace after the head. Most heads
// have a time in brackets, which also shows the line to be the kernel's own.
fn line_of(head: &[u8], text: &[u8]) -> ReportLogLine
    ensures stamp { result.stamp ≡ log_stamp_of head.now }
    ensures marking { result.marking ≡ own_after head.now text.now }
{
    match console_stamp(head) {
        Some(stamp) => ReportLogLine {
            stamp: Some(stamp),
            marking: kernels_text(text),
        },
        None => ReportLogLine {
            stamp: log_stamp_of(head),
            marking: own_after(head, text),
        },
    }
}

// Returns what a line of the kernel's own is, from what follows the brace after its head.
fn kernels_text(text: &[u8]) -> Marking
    ensures { (head : List ℕ) → is_own head ≡ true → result ≡ own_after head text.now }
{
    match marked_line(text) {
        Some(line) => Marking::Own(line),
        None if has_mark(text) => Marking::Foreign,
        None => Marking::Unmarked,
    }
}

// Returns what a line is, which is split at its first brace.
fn own_line(line: &[u8]) -> Marking
    ensures { result ≡ own_line_of line.now }
{
    let (head, rest) = cut(b'{', line);
    own_after(head, rest)
}

// Returns what a line is, from its head and what follows the brace after the head.
fn own_after(head: &[u8], text: &[u8]) -> Marking
    ensures { result ≡ own_after head.now text.now }
{
    match marked_line(text) {
        Some(line) if is_own(head) => Marking::Own(line),
        Some(_) => Marking::Foreign,
        None if has_mark(text) => Marking::Foreign,
        None => Marking::Unmarked,
    }
}

// Returns whether a report's number and the prefix follow one of a text's braces.
#[tactic(auto, using(crate::proofs::MarkLemmas::mark_after, crate::proofs::MarkLemmas::after_shorter))]
fn has_mark(text: &[u8]) -> bool
    ensures { result ≡ has_mark text.now }
{
    let mut rest = text;
    while !rest.is_empty() {
        rest = cut(b'{', rest).1;
        if marked_line(rest).is_some() {
            return true;
        }
    }
    false
}

// Returns what a line says, from what follows the brace before its number.
fn marked_line(text: &[u8]) -> Option<OwnLine>
    ensures { result ≡ marked_line_of text.now }
{
    let (number, marked) = cut(b'}', text);
    let report = decimal(number, u64::MAX)?;
    let words = after_mark(marked)?;
    Some(OwnLine {
        report,
        line: report_line(words),
    })
}

// Returns what follows the prefix of a text, if the text begins with it.
fn after_mark(text: &[u8]) -> Option<&[u8]>
    ensures { option_map (λ words. words.now) result ≡ value_after error_mark text.now }
{
    text.strip_prefix(b"[Hardware Error]: ")
}
