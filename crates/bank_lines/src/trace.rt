//! Finds the machine check in a line of the kernel's trace.

ghost use Rattle.std.specs.Prelude.{◌≡◌, ◌+◌, ◌<◌, ◌≤◌, [], length, IfSome};
ghost use Rattle.bank_lines.specs.Parts.{cut_at};
ghost use Rattle.bank_lines.specs.Steps.Names.{LastBelow};
ghost use Rattle.bank_lines.specs.Trace.{are_count_signs, behind_name, event_found, event_report};
ghost use Rattle.bank_lines.specs.Trace.{is_count, is_system, is_traced, last_mark, last_word, trace_found};

use crate::Finding;
use crate::event::{TraceEvent, event_in};
use crate::log_heads::{has_digit, mark_place, stands_round, without_spaces};
use ras_facts::BankReport;
use ras_script::position_of;

// The event name, which comes before the text of an event.
const MARK: &[u8] = b"mce_record: ";

// The index of the byte `_` in the event name.
const PIVOT: usize = 3;

/// Returns what is found in a line of the kernel's trace in this boot. Allocates nothing.
///
/// Reads the text after the last `mce_record: ` of the line, if this name is where tracers print
/// it.
pub fn trace_found(boot: u64, line: &[u8]) -> Finding
    ensures { result ≡ trace_found boot line.now }
{
    let Some(place) = last_mark(line) else {
        return Finding::Nothing;
    };
    if !is_traced(&line[..place]) {
        return Finding::Unread;
    }
    match event_in(&line[place + MARK.len()..]) {
        Some(event) => event_found(boot, event),
        None => Finding::Unread,
    }
}

// Returns the index of a line's last event name. Searches for one byte of the name, because a
// search for the whole name costs more to set up than to look through a line.
fn last_mark(line: &[u8]) -> Option<usize>
    ensures place { result ≡ last_mark line.now }
    ensures within { IfSome result (λ place. place + 12 ≤ length line.now) }
{
    let mut last = None;
    let mut from = 0;
    while let Some(passed) = position_of(b'_', &line[from..]) {
        let place = from + passed;
        last = last_here(last, place, line);
        from = place + 1;
    }
    last
}

// Returns the index of the last event name up to an index, if `before` is the last one before this
// index.
#[tactic(auto, using(crate::proofs::NameLemmas::last_here))]
fn last_here(before: Option<usize>, place: usize, line: &[u8]) -> Option<usize>
    requires inside { place < length line.now }
    requires last { LastBelow line.now place before }
    ensures { LastBelow line.now (place + 1) result }
{
    if stands_round(place, PIVOT, MARK, line) {
        Some(place - PIVOT)
    } else {
        before
    }
}

// Returns whether tracers print this text before an event's name.
fn is_traced(before: &[u8]) -> bool
    ensures { result ≡ is_traced before.now }
{
    let head = behind_name(before);
    match mark_place(b": ", head) {
        Some(place) => is_count(last_word(&head[..place])) && is_system(&head[place + 1..]),
        None => false,
    }
}

/// Returns what follows the name of the process, if a line has the name in the columns of the
/// kernel's own trace file, and otherwise the whole line.
pub fn behind_name(line: &[u8]) -> &[u8]
    ensures { result.now ≡ behind_name line.now }
{
    if line.len() > 17 && line[16] == b'-' && line[17].is_ascii_digit() {
        &line[17..]
    } else {
        line
    }
}

/// Returns the last word of a text. Words are between spaces. The search begins at the end, because
/// most last words are short.
pub fn last_word(text: &[u8]) -> &[u8]
    ensures { result.now ≡ last_word [] (cut_at 32 text.now) }
{
    let mut start = text.len();
    while start > 0 {
        if text[start - 1] == b' ' {
            return &text[start..];
        }
        start -= 1;
    }
    text
}

/// Returns whether a word is what a tracer's clock shows.
pub fn is_count(word: &[u8]) -> bool
    ensures { result ≡ is_count word.now }
{
    word.len() > 3 && has_digit(word) && are_count_signs(word)
}

// Returns whether a word consists of digits and points.
fn are_count_signs(word: &[u8]) -> bool
    ensures { result ≡ are_count_signs word.now }
{
    word.iter().all(|b| *b == b'.' || b.is_ascii_digit())
}

// Returns whether a text may come between the clock's colon and the event name.
fn is_system(text: &[u8]) -> bool
    ensures { result ≡ is_system text.now }
{
    let name = without_spaces(text);
    name.is_empty() || name == b"mce:".as_slice()
}

// Returns the finding of an event.
fn event_found(boot: u64, event: TraceEvent) -> Finding
    ensures { result ≡ event_found boot event }
{
    if event.vendor != 0 {
        return Finding::Foreign {
            vendor: event.vendor,
            cpu: event.cpu,
            bank: event.bank,
        };
    }
    Finding::of_report(event_report(boot, event))
}

/// Returns the report of an event of this boot.
pub fn event_report(boot: u64, event: TraceEvent) -> BankReport
    ensures { result ≡ event_report boot event }
{
    BankReport {
        boot,
        seconds: event.seconds,
        cpu: event.cpu,
        bank: event.bank,
        tsc: event.tsc,
        cap: event.cap,
        mcg: event.mcg,
        status: event.status,
        addr: event.addr,
        misc: event.misc,
    }
}
