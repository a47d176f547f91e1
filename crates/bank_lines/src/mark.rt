//! Finds the prefix of a machine check in a line of a kernel log.

ghost use Rattle.std.specs.Prelude.{◌≡◌, ◌+◌, ◌≤◌, length, IfSome};
ghost use Rattle.bank_lines.specs.LogLines.{mark_of};
ghost use Rattle.bank_lines.specs.Steps.Marks.{FirstBelow, IsWithin};

use crate::log_heads::stands_round;
use ras_script::position_of;

// The prefix of the kernel's own text of a machine check.
pub(crate) const PLAIN_MARK: &[u8] = b"mce: [Hardware Error]: ";

// The prefix of EDAC's lines.
pub(crate) const EDAC_MARK: &[u8] = b"EDAC ";

// The index of the letter E in the kernel's prefix. Both prefixes are found by this letter, so that
// a line is looked through once: a search for a whole prefix costs more to set up.
const PLAIN_PIVOT: usize = 15;

// A prefix and its index.
#[derive(Clone, Copy, Debug, PartialEq, Eq)]
pub(crate) enum LogMark {
    AtPlain(usize),
    AtEdac(usize),
}

// Returns the prefix by which a line is read: the first prefix of the kernel's own text, or EDAC's
// first prefix if there is no other.
pub(crate) fn mark_of(line: &[u8]) -> Option<LogMark>
    ensures place { result ≡ mark_of line.now }
    ensures within { IfSome result (λ mark. IsWithin mark line.now) }
{
    let mut edac = None;
    let mut from = 0;
    while let Some(passed) = position_of(b'E', &line[from..]) {
        let place = from + passed;
        if stands_round(place, PLAIN_PIVOT, PLAIN_MARK, line) {
            return Some(LogMark::AtPlain(place - PLAIN_PIVOT));
        }
        edac = first_edac(edac, place, line);
        from = place + 1;
    }
    match edac {
        Some(place) => Some(LogMark::AtEdac(place)),
        None => None,
    }
}

// Returns EDAC's first prefix up to an index, if `below` is the first one below this index.
#[tactic(auto, using(crate::proofs::EdacMarkLemmas::first_here, crate::proofs::EdacMarkLemmas::first_round, crate::proofs::EdacMarkLemmas::first_stays))]
fn first_edac(below: Option<usize>, place: usize, line: &[u8]) -> Option<usize>
    requires inside { place ≤ length line.now }
    requires first { FirstBelow line.now place below }
    ensures { FirstBelow line.now (place + 1) result }
{
    match below {
        Some(found) => Some(found),
        None => {
            if stands_round(place, 0, EDAC_MARK, line) {
                Some(place)
            } else {
                None
            }
        }
    }
}
