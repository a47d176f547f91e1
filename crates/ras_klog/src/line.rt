//! Reads what a line of a kernel log says.

ghost use Rattle.std.specs.Prelude.{◌≡◌, ◌==◌, ◌-◌, ◌≤◌, ◌↔◌, length, not, true, IfSome, IsTrue};
ghost use Rattle.std.specs.List.{list_all};
ghost use Rattle.std.specs.Option.{option_map};
ghost use Rattle.memchr.specs.Find.{FindsNeedle, OccursAt};
ghost use Rattle.ras_klog.specs.Reading.{after_marker, bank_of, check_of, colon_number, is_vendor_and_model, klog_line_after, klog_line_of, marker, named, parts_of, processor_line_of, start_line_of, told_by_words, tsc_of};
ghost use Rattle.ras_klog.specs.Steps.Words.{words_in};

use crate::words::Words;
use ras_script::{decimal, hexadecimal, position_of};

/// What a line of a kernel log says.
#[derive(Clone, Copy, Debug, PartialEq, Eq)]
pub enum KlogLine {
    /// A report begins: the processor's number, IA32_MCG_STATUS, the bank's number and its
    /// IA32_MCi_STATUS.
    Start {
        cpu: u16,
        mcg: u64,
        bank: u8,
        status: u64,
    },
    /// The processor's time-stamp counter, and the bank's IA32_MCi_ADDR and IA32_MCi_MISC, each of
    /// which is 0 if it is missing.
    Tsc {
        tsc: u64,
        addr: u64,
        misc: u64,
    },
    /// When the bank was read, in seconds.
    Processor {
        seconds: u64,
    },
    /// Anything else.
    Other,
}

// The prefix of the words about a machine check.
const MARKER: &[u8] = b"[Hardware Error]: ";

/// Returns what a line of a kernel log says, by what follows the first `[Hardware Error]: ` in it.
/// Allocates nothing.
///
/// The lines are the following, with one space between two words:
///
/// - `CPU <cpu>: Machine Check: <mcg> Bank <bank>: <status>`, or with `Machine Check Exception:`,
///   and then nothing but spaces
/// - `TSC <tsc>`, then ` ADDR <addr>` if it can be read, then ` MISC <misc>` if it can be read, and
///   then nothing, or a space and anything
/// - `PROCESSOR <n>:<m> TIME <seconds>`, and then nothing, or a space and anything
///
/// `<cpu>` up to 65,535, `<bank>` up to 255, `<n>` and `<seconds>` are decimal; the other numbers
/// are hexadecimal.
///
/// A carriage return isn't a space. So no report begins in a log whose lines end in one, and such
/// line ends have to be removed first.
pub fn klog_line(bytes: &[u8]) -> KlogLine
    ensures { result ≡ klog_line_of bytes.now }
{
    match after_marker(bytes) {
        Some(text) => klog_line_after(text),
        None => KlogLine::Other,
    }
}

/// Returns what a line of a kernel log says, given the text after its first `[Hardware Error]: `.
/// Allocates nothing.
pub fn klog_line_after(text: &[u8]) -> KlogLine
    ensures { result ≡ klog_line_after text.now }
{
    told_by(text).unwrap_or(KlogLine::Other)
}

// Returns the text after the first prefix of a line, if the line has one.
fn after_marker(line: &[u8]) -> Option<&[u8]>
    ensures { option_map (λ text. text.now) result ≡ after_marker line.now }
{
    match marker_in(line) {
        Some(place) => Some(&line[place + MARKER.len()..]),
        None => None,
    }
}

// Returns the index of the first prefix of a line. Searches for the prefix's second byte, which few
// lines without the prefix have, because a search for the whole prefix costs more to set up than
// looking through a line.
fn marker_in(line: &[u8]) -> Option<usize>
    ensures { FindsNeedle line.now marker 0 result }
{
    let mut from = 0;
    while let Some(passed) = position_of(b'H', &line[from..]) {
        let second = from + passed;
        if has_marker_round(line, second) {
            return Some(second - 1);
        }
        from = second + 1;
    }
    None
}

// Returns whether a prefix has its second byte at an index of a line.
fn has_marker_round(line: &[u8], second: usize) -> bool
    requires { second ≤ length line.now }
    ensures { IsTrue result ↔ ((1 ≤ second) × OccursAt line.now marker (second - 1)) }
{
    second >= 1 && line[second - 1..].starts_with(MARKER)
}

// Returns what a text after the prefix says.
fn told_by(text: &[u8]) -> Option<KlogLine>
    ensures { result ≡ told_by_words (parts_of text.now) }
{
    let mut words = Words::new(text);
    if words.takes(b"CPU") {
        start_line_of(&mut words)
    } else if words.takes(b"TSC") {
        tsc_of(&mut words)
    } else if words.takes(b"PROCESSOR") {
        processor_line_of(&mut words)
    } else {
        None
    }
}

// `<cpu>: Machine `, followed by the check.
#[tactic(auto, unfolding(crate::specs::Reading::start_line_of))]
fn start_line_of(words: &mut Words<'_>) -> Option<KlogLine>
    ensures { result ≡ start_line_of (words_in words.old) }
{
    let cpu = colon_number(words.next(), u64::from(u16::MAX))? as u16;
    if !words.takes(b"Machine") {
        return None;
    }
    check_of(cpu, words)
}

// `Check: ` or `Check Exception: `, followed by the bank.
#[tactic(auto, unfolding(crate::specs::Reading::check_of))]
fn check_of(cpu: u16, words: &mut Words<'_>) -> Option<KlogLine>
    ensures { result ≡ check_of cpu (words_in words.old) }
{
    if words.takes(b"Check:") {
        return bank_of(cpu, words);
    }
    if !words.takes(b"Check") || !words.takes(b"Exception:") {
        return None;
    }
    bank_of(cpu, words)
}

// `<mcg> Bank <bank>: <status>`, followed only by spaces.
#[tactic(auto, unfolding(crate::specs::Reading::bank_of))]
fn bank_of(cpu: u16, words: &mut Words<'_>) -> Option<KlogLine>
    ensures { result ≡ bank_of cpu (words_in words.old) }
{
    let mcg = hexadecimal(words.next())?;
    if !words.takes(b"Bank") {
        return None;
    }
    let bank = colon_number(words.next(), u64::from(u8::MAX))? as u8;
    let status = hexadecimal(words.next())?;
    if words.are_empty() {
        Some(KlogLine::Start {
            cpu,
            mcg,
            bank,
            status,
        })
    } else {
        None
    }
}

// `<tsc>`, then the address and the miscellaneous register if they can be read, then anything.
#[tactic(auto, unfolding(crate::specs::Reading::tsc_of))]
fn tsc_of(words: &mut Words<'_>) -> Option<KlogLine>
    ensures { result ≡ tsc_of (words_in words.old) }
{
    let tsc = hexadecimal(words.next())?;
    let addr = named(b"ADDR", words);
    let misc = named(b"MISC", words);
    Some(KlogLine::Tsc { tsc, addr, misc })
}

// Returns a hexadecimal number after its name. If name or number can't be read, returns 0 and uses
// no word.
#[inline(always)]
#[tactic(auto, unfolding(crate::specs::Reading::named))]
fn named(name: &[u8], words: &mut Words<'_>) -> u64
    requires { list_all (λ b. not (b == 32)) name.now ≡ true }
    ensures value { result ≡ (named name.now (words_in words.old)).0 }
    ensures rest { words_in words.new ≡ (named name.now (words_in words.old)).1 }
{
    let mut ahead = *words;
    if !ahead.takes(name) {
        return 0;
    }
    match hexadecimal(ahead.next()) {
        Some(number) => {
            *words = ahead;
            number
        }
        None => 0,
    }
}

// `<n>:<m> TIME <seconds>`, then anything.
#[tactic(auto, unfolding(crate::specs::Reading::processor_line_of))]
fn processor_line_of(words: &mut Words<'_>) -> Option<KlogLine>
    ensures { result ≡ processor_line_of (words_in words.old) }
{
    if !is_vendor_and_model(words.next()) || !words.takes(b"TIME") {
        return None;
    }
    let seconds = decimal(words.next(), u64::MAX)?;
    Some(KlogLine::Processor { seconds })
}

// Returns a decimal number of at most `most` with a colon after it.
fn colon_number(word: &[u8], most: u64) -> Option<u64>
    ensures value { result ≡ colon_number most word.now }
    ensures within { IfSome result (λ n. n ≤ most) }
{
    decimal(word.strip_suffix(b":")?, most)
}

// Returns whether a word is a decimal number, a colon and a hexadecimal number.
fn is_vendor_and_model(word: &[u8]) -> bool
    ensures { result ≡ is_vendor_and_model word.now }
{
    match position_of(b':', word) {
        Some(colon) => {
            decimal(&word[..colon], u64::MAX).is_some() && hexadecimal(&word[colon + 1..]).is_some()
        }
        None => false,
    }
}
