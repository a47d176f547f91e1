//! Reads what the lines of a kernel log say about machine checks.

ghost use Rattle.std.specs.Prelude.{◌≡◌, ◌≤◌, ◌∷◌, ◌++◌, [], length, true, IfSome, Some};
ghost use Rattle.bank_lines.specs.LogHeads.{is_own};
ghost use Rattle.bank_lines.specs.Steps.Times.{IsTime};
ghost use Rattle.bank_lines.specs.LogLines.{bracket_stamp, is_cut, is_of_report, log_line_after};
ghost use Rattle.bank_lines.specs.LogLines.{log_line_of, log_mark, log_stamp_of, marked_stamp_of, micros_of};
ghost use Rattle.bank_lines.specs.EdacLines.{edac_mark};
ghost use Rattle.bank_lines.specs.LogLines.{driver_told, edac_line_after, left_unread, line_told_by, vendor_of};

use crate::edac_line::{EdacLine, driver_text, edac_line, is_of_edac};
use crate::log_heads::{cut, is_joined, is_own, record_time, without_spaces};
use crate::mark::{EDAC_MARK, LogMark, PLAIN_MARK, mark_of};
use ras_klog::{KlogLine, klog_line_after};
use ras_script::decimal;

/// The greatest second of a time stamp: 12 digits.
pub const LAST_SECOND: u64 = 999_999_999_999;

/// The greatest time stamp, in microseconds.
pub const LAST_STAMP: u64 = 999_999_999_999_999_999;

/// The microseconds of a second.
pub const MICROSECONDS: u64 = 1_000_000;

/// What a line of a kernel log says about machine checks.
#[derive(Clone, Copy, Debug, PartialEq, Eq)]
pub(crate) enum LogLine {
    // Nothing.
    Nothing,
    // A line that begins like a line of a report, and can't be read as one, or isn't the kernel's
    // own.
    Unread,
    // A line of a report, how it was printed, and the vendor's number, which only a `Processor` has.
    Part {
        line: KlogLine,
        print: Print,
        vendor: u64,
    },
}

// How a line was printed: by EDAC, or in the kernel's own text.
#[derive(Clone, Copy, Debug, PartialEq, Eq)]
pub(crate) struct Print {
    pub by_edac: bool,
}

// What a line says, and by which prefix it was read.
#[derive(Clone, Copy, Debug, PartialEq, Eq)]
pub(crate) enum MarkedLine {
    // By the prefix of the kernel's own text, or without a prefix.
    Plain(LogLine),
    // By EDAC's prefix.
    Edac(EdacLine),
}

// Returns what a line of a kernel log says. Allocates nothing.
#[tactic(auto, using(crate::proofs::LogLineLemmas::line_is, crate::proofs::LogLineLemmas::edac_is, crate::proofs::LogLineLemmas::none_is))]
pub(crate) fn log_line(line: &[u8]) -> MarkedLine
    ensures { result ≡ log_line_of line.now }
{
    match mark_of(line) {
        Some(LogMark::AtPlain(place)) => {
            let text = &line[place + PLAIN_MARK.len()..];
            MarkedLine::Plain(log_line_after(&line[..place], text))
        }
        Some(LogMark::AtEdac(place)) => edac_line_after(&line[..place], &line[place..]),
        None => MarkedLine::Plain(LogLine::Nothing),
    }
}

// Returns what a line with this head and this text after its prefix says.
#[tactic(auto, using(crate::proofs::LogLineLemmas::after_is, crate::proofs::LogLineLemmas::other_is))]
fn log_line_after(head: &[u8], text: &[u8]) -> LogLine
    ensures { result ≡ log_line_after head.now (log_mark ++ text.now) }
{
    if !is_kernels(head) {
        return left_unread(text);
    }
    let print = Print { by_edac: false };
    line_told_by(print, text, klog_line_after(text))
}

// Returns whether a head shows its line to be the kernel's own. Most heads have a time in brackets,
// in which nothing has to be searched for.
fn is_kernels(head: &[u8]) -> bool
    ensures { result ≡ is_own head.now }
{
    match console_stamp(head) {
        Some(_) => true,
        None => is_own(head),
    }
}

/// Returns the microseconds in a head as the console and dmesg print it: brackets and a space. Such
/// a head shows its line to be the kernel's own.
pub fn console_stamp(head: &[u8]) -> Option<u64>
    ensures { IfSome result
        (λ stamp. (is_own head.now ≡ true) × (log_stamp_of head.now ≡ Some stamp)) }
{
    time_stamp(in_brackets(head)?)
}

// Returns the text in brackets, if a head consists of brackets and a space.
fn in_brackets(head: &[u8]) -> Option<&[u8]>
    ensures { IfSome result (λ time. head.now ≡ 91 ∷ (time.now ++ 93 ∷ 32 ∷ [])) }
{
    match head {
        [b'[', time @ .., b']', b' '] => Some(time),
        _ => None,
    }
}

// Returns the microseconds of a time in seconds, with 6 digits after its point.
fn time_stamp(time: &[u8]) -> Option<u64>
    ensures { IfSome result (λ stamp. IsTime time.now stamp) }
{
    let point = time.len().checked_sub(7)?;
    let [b'.', micros @ ..] = &time[point..] else {
        return None;
    };
    let micros = micros_of(micros)?;
    let seconds = decimal(without_spaces(&time[..point]), LAST_SECOND)?;
    Some(seconds * MICROSECONDS + micros)
}

// Returns what a text after a prefix says that is no line of a report.
fn left_unread(text: &[u8]) -> LogLine
    ensures { result ≡ left_unread text.now }
{
    if is_of_report(text) {
        LogLine::Unread
    } else {
        LogLine::Nothing
    }
}

// Returns what a text after a prefix says, given what `klog` reads in it.
fn line_told_by(print: Print, text: &[u8], line: KlogLine) -> LogLine
    ensures { result ≡ line_told_by print text.now line }
{
    match line {
        KlogLine::Other => left_unread(text),
        KlogLine::Processor { .. } => match vendor_of(text) {
            Some(vendor) => LogLine::Part {
                line,
                print,
                vendor,
            },
            None => LogLine::Unread,
        },
        KlogLine::Start { .. } | KlogLine::Tsc { .. } => LogLine::Part {
            line,
            print,
            vendor: 0,
        },
    }
}

// Returns what a line with this head says from EDAC's prefix on.
fn edac_line_after(head: &[u8], marked: &[u8]) -> MarkedLine
    requires { length edac_mark ≤ length marked.now }
    ensures { result ≡ edac_line_after head.now marked.now }
{
    match driver_text(&marked[EDAC_MARK.len()..]) {
        Some(text) => driver_told(head, text),
        None => MarkedLine::Plain(LogLine::Nothing),
    }
}

// Returns what a line with this head says, given the text of a driver of EDAC.
fn driver_told(head: &[u8], text: &[u8]) -> MarkedLine
    ensures { result ≡ driver_told head.now text.now }
{
    if !is_of_edac(text) {
        return MarkedLine::Plain(LogLine::Nothing);
    }
    if !is_own(head) {
        return MarkedLine::Plain(LogLine::Unread);
    }
    match edac_line(text) {
        Some(line) => MarkedLine::Edac(line),
        None => MarkedLine::Plain(LogLine::Unread),
    }
}

// Returns whether a text begins like a line of a report.
fn is_of_report(text: &[u8]) -> bool
    ensures { result ≡ is_of_report text.now }
{
    let (word, _) = cut(b' ', text);
    word == b"CPU".as_slice() || word == b"TSC".as_slice() || word == b"PROCESSOR".as_slice()
}

// Returns the vendor's number, the second word up to its colon, of a line that wasn't cut off.
fn vendor_of(text: &[u8]) -> Option<u64>
    ensures { result ≡ vendor_of text.now }
{
    if is_cut(text) {
        return None;
    }
    let (_, rest) = cut(b' ', text);
    let (number, _) = cut(b':', rest);
    decimal(number, u64::MAX)
}

// Returns whether the line of a time ends with the time.
fn is_cut(text: &[u8]) -> bool
    ensures { result ≡ is_cut text.now }
{
    let (_, rest) = cut(b' ', text);
    let (_, rest) = cut(b' ', rest);
    let (_, rest) = cut(b' ', rest);
    is_joined(rest)
}

/// Returns when a line with the mark of a machine check was printed, in microseconds since the
/// kernel's start, if its head says so.
pub fn marked_stamp(line: &[u8]) -> Option<u64>
    ensures { result ≡ marked_stamp_of line.now }
{
    match mark_of(line) {
        Some(LogMark::AtPlain(place) | LogMark::AtEdac(place)) => log_stamp_of(&line[..place]),
        None => None,
    }
}

/// Returns when a line was printed, in microseconds since the kernel's start, if its head says so:
/// in its first brackets, or in the third field of a record's head.
pub fn log_stamp_of(head: &[u8]) -> Option<u64>
    ensures { result ≡ log_stamp_of head.now }
{
    if head.ends_with(b";") {
        let (time, _) = record_time(head);
        return decimal(time, LAST_STAMP);
    }
    bracket_stamp(head)
}

// Returns the microseconds in the first brackets of a head.
fn bracket_stamp(head: &[u8]) -> Option<u64>
    ensures { result ≡ bracket_stamp head.now }
{
    let (_, rest) = cut(b'[', head);
    let (inner, _) = cut(b']', rest);
    let (seconds, micros) = cut(b'.', without_spaces(inner));
    let seconds = decimal(seconds, LAST_SECOND)?;
    let micros = micros_of(micros)?;
    Some(seconds * MICROSECONDS + micros)
}

// Returns a number of 6 digits.
fn micros_of(word: &[u8]) -> Option<u64>
    ensures value { result ≡ micros_of word.now }
    ensures within { IfSome result (λ micros. micros ≤ MICROSECONDS) }
{
    if word.len() == 6 {
        decimal(word, MICROSECONDS - 1)
    } else {
        None
    }
}
