//! Finds the event of a line, where tracers print it.

ghost use Rattle.std.specs.Prelude.{◌≡◌, ◌+◌, ◌≤◌, codes, false, is_some, length, IfSome};
ghost use Rattle.bank_lines.specs.LogHeads.{mark_place};
ghost use Rattle.bank_lines.specs.Parts.{cut_at};
ghost use Rattle.event_lines.specs.Traced.{clock_event, clock_place, controller_event, event_behind, found_event};
ghost use Rattle.event_lines.specs.Traced.{found_memory, found_section, has_name, shows_clock, is_event_name};
ghost use Rattle.event_lines.specs.Traced.{is_extlog, is_firmware, line_event_of, named_text, other_event, stamp_at};

use crate::aer::{AerEvent, aer_event};
use crate::memory_event::{
    FIRMWARE_MARK, behind_controller, controller_error, controller_of, detail_in, extlog_error,
    place_of,
};
use crate::section_event::{SectionHead, section_head};
use bank_lines::{
    Parts, behind_name, is_count, last_word, mark_place, stamp_of, value_after, without_spaces,
};
use block_lines::MemoryError;

// The name of the event of a memory error that a driver decoded.
const EXTLOG_NAME: &[u8] = b"extlog_mem_event: ";

/// An event, and the time stamp of its line in microseconds since the boot.
#[derive(Clone, Copy, Debug, PartialEq, Eq)]
pub(crate) struct FoundEvent {
    pub(crate) stamp: u64,
    pub(crate) event: AerEvent,
}

/// An event with a whole section, without the section's bytes, and the time stamp of its line.
#[derive(Clone, Copy, Debug, PartialEq, Eq)]
pub(crate) struct FoundSection {
    pub(crate) stamp: u64,
    pub(crate) head: SectionHead,
}

/// A memory error that the firmware or a driver reported, and the time stamp of its line.
#[derive(Clone, Copy, Debug, PartialEq, Eq)]
pub(crate) struct FoundMemory {
    pub(crate) stamp: u64,
    pub(crate) error: MemoryError,
}

/// Which event a line has.
#[derive(Clone, Copy, Debug, PartialEq, Eq)]
pub(crate) enum LineEvent {
    // No name of an event is where tracers print it, or another driver than the firmware's made the
    // event of a memory controller.
    Absent,
    // An event that can't be read, or has no time stamp.
    Unread,
    // A PCI Express error.
    Found(FoundEvent),
    // A section, whose bytes weren't read yet.
    Section(FoundSection),
    // A memory error.
    Memory(FoundMemory),
}

// Returns which event a line has. Allocates nothing.
pub(crate) fn line_event(line: &[u8]) -> LineEvent
    ensures { result ≡ line_event_of line.now }
{
    let text = behind_name(line);
    if !names_event(text) {
        return LineEvent::Absent;
    }
    match clock_event(text) {
        LineEvent::Absent => {
            if has_name(is_firmware(text), text) {
                LineEvent::Unread
            } else {
                LineEvent::Absent
            }
        }
        event => event,
    }
}

/// Returns whether a line has an `extlog_mem_event` where tracers print an event. Allocates nothing.
pub fn is_extlog(line: &[u8]) -> bool
    ensures { result ≡ is_extlog line.now }
{
    let behind = behind_name(line);
    if !names_event(behind) {
        return false;
    }
    match clock_place(behind) {
        Some(place) => named_text(place, behind).starts_with(EXTLOG_NAME),
        None => false,
    }
}

// Returns whether a text has the end of an event's name. Most lines of a trace lack it, and the
// search for it is quicker than the search for a clock.
pub(crate) fn names_event(text: &[u8]) -> bool
    ensures { result ≡ is_some (mark_place (codes "_event:") text.now) }
{
    place_of(b"_event:", text).is_some()
}

// Returns the event after the first clock of a text.
pub(crate) fn clock_event(text: &[u8]) -> LineEvent
    ensures { result ≡ clock_event text.now }
{
    match clock_place(text) {
        Some(place) => event_behind(stamp_at(place, text), named_text(place, text)),
        None => LineEvent::Absent,
    }
}

// Returns whether a text has the name of the firmware's detail after its last ` (mc:`, or no `
// (mc:`.
fn is_firmware(text: &[u8]) -> bool
    ensures { result ≡ is_firmware text.now }
{
    match behind_controller(text) {
        Some(behind) => place_of(FIRMWARE_MARK, behind).is_some(),
        None => true,
    }
}

// Returns whether a word of a text is the name of an event with a clock and spaces before it.
pub(crate) fn has_name(by_firmware: bool, text: &[u8]) -> bool
    ensures { result ≡ has_name by_firmware false (cut_at 32 text.now) }
{
    let mut is_behind = false;
    let mut words = Parts::new(b' ', text);
    while let Some(word) = words.next() {
        if is_behind && is_event_name(by_firmware, word) {
            return true;
        }
        is_behind = shows_clock(word) || is_behind && word.is_empty();
    }
    false
}

// Returns whether a word is what a tracer's clock shows, and its colon.
fn shows_clock(word: &[u8]) -> bool
    ensures { result ≡ shows_clock word.now }
{
    match word.strip_suffix(b":") {
        Some(shown) => is_count(shown),
        None => false,
    }
}

// Returns whether a word is an event's name and its colon; `mc_event:` only if the firmware's
// driver made the event.
fn is_event_name(by_firmware: bool, word: &[u8]) -> bool
    ensures { result ≡ is_event_name by_firmware word.now }
{
    let name = value_after(b"ras:", word).unwrap_or(word);
    name == b"aer_event:".as_slice()
        || name == b"non_standard_event:".as_slice()
        || name == b"extlog_mem_event:".as_slice()
        || by_firmware && name == b"mc_event:".as_slice()
}

// Returns the index of the first colon before a space, if the word before the colon is what a
// tracer's clock shows.
pub(crate) fn clock_place(line: &[u8]) -> Option<usize>
    ensures place { result ≡ clock_place line.now }
    ensures within { IfSome result (λ place. place + 2 ≤ length line.now) }
{
    let place = mark_place(b": ", line)?;
    if is_count(last_word(&line[..place])) {
        Some(place)
    } else {
        None
    }
}

// Returns the time stamp that a clock with its colon at this index shows.
pub(crate) fn stamp_at(place: usize, line: &[u8]) -> Option<u64>
    requires { place + 2 ≤ length line.now }
    ensures { result ≡ stamp_at place line.now }
{
    stamp_of(last_word(&line[..place + 1]))
}

// Returns the text after a clock with its colon at this index, from the event's name on.
pub(crate) fn named_text(place: usize, line: &[u8]) -> &[u8]
    requires { place + 2 ≤ length line.now }
    ensures { result.now ≡ named_text place line.now }
{
    let text = without_spaces(&line[place + 1..]);
    match value_after(b"ras:", text) {
        Some(named) => named,
        None => text,
    }
}

// Returns which event a text after a clock has, from the event's name on.
fn event_behind(stamp: Option<u64>, text: &[u8]) -> LineEvent
    ensures { result ≡ event_behind stamp text.now }
{
    if let Some(told) = value_after(b"aer_event: ", text) {
        return found_event(stamp, aer_event(without_spaces(told)));
    }
    if let Some(told) = value_after(b"non_standard_event: ", text) {
        return found_section(stamp, section_head(without_spaces(told)));
    }
    if let Some(told) = value_after(b"mc_event: ", text) {
        return controller_event(stamp, without_spaces(told));
    }
    match value_after(EXTLOG_NAME, text) {
        Some(told) => found_memory(stamp, extlog_error(without_spaces(told))),
        None => LineEvent::Absent,
    }
}

// Returns which event the text of a memory controller's event is.
fn controller_event(stamp: Option<u64>, text: &[u8]) -> LineEvent
    ensures { result ≡ controller_event stamp text.now }
{
    let Some(controller) = controller_of(text) else {
        return LineEvent::Unread;
    };
    match value_after(FIRMWARE_MARK, detail_in(controller)) {
        Some(places) => found_memory(stamp, controller_error(text, controller, places)),
        None => other_event(controller),
    }
}

// Returns which event has this text in its parentheses, if the driver's detail doesn't begin with
// the name of the firmware's detail.
fn other_event(controller: &[u8]) -> LineEvent
    ensures { result ≡ other_event controller.now }
{
    match place_of(FIRMWARE_MARK, controller) {
        Some(_) => LineEvent::Unread,
        None => LineEvent::Absent,
    }
}

// Returns an event with its time stamp, if both were read.
fn found_event(stamp: Option<u64>, event: Option<AerEvent>) -> LineEvent
    ensures { result ≡ found_event stamp event }
{
    match (stamp, event) {
        (Some(stamp), Some(event)) => LineEvent::Found(FoundEvent { stamp, event }),
        _ => LineEvent::Unread,
    }
}

// Returns a section's event with its time stamp, if both were read.
fn found_section(stamp: Option<u64>, head: Option<SectionHead>) -> LineEvent
    ensures { result ≡ found_section stamp head }
{
    match (stamp, head) {
        (Some(stamp), Some(head)) => LineEvent::Section(FoundSection { stamp, head }),
        _ => LineEvent::Unread,
    }
}

// Returns a memory error with its time stamp, if both were read.
pub(crate) fn found_memory(stamp: Option<u64>, error: Option<MemoryError>) -> LineEvent
    ensures { result ≡ found_memory stamp error }
{
    match (stamp, error) {
        (Some(stamp), Some(error)) => LineEvent::Memory(FoundMemory { stamp, error }),
        _ => LineEvent::Unread,
    }
}
