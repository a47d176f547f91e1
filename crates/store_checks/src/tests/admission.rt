//! Which tables are admitted.
use super::rows::{ACTION, ALL, Row, VALUE, admitted, joined};
use super::samples::{PADDING, PLAIN};
use std::alloc::Global;

// Whether the plain table is admitted with its entry at an index changed.
fn admits_changed(alloc: Global, place: usize, row: Row) -> Option<bool> {
    let mut rows = PLAIN.to_vec(alloc).ok()?;
    if place < rows.len() {
        rows[place] = row;
    }
    admitted(alloc, &rows)
}

// Whether the plain table is admitted with these entries before it.
fn admits_behind(alloc: Global, before: &[Row]) -> Option<bool> {
    admitted(alloc, &joined(alloc, before, &PLAIN)?)
}

// Whether the plain table is admitted with an entry after it.
fn admits_with(alloc: Global, after: Row) -> Option<bool> {
    admitted(alloc, &joined(alloc, &PLAIN, &[after])?)
}

#[test]
fn admits_the_plain_and_the_padded_table(rt: HostRuntime) {
    assert!(rt; admitted(rt.alloc(), &PLAIN) == Some(true));
    assert!(rt; admits_behind(rt.alloc(), &PADDING) == Some(true));
    assert!(rt; admitted(rt.alloc(), &[]) == Some(false));
}

// An entry of the plain table by its index, what replaces it, and whether the table is admitted
// then.
const CHANGED: [(usize, Row, bool); 31] = [
    // other forms that are admitted too, as the compared busy bit
    (1, Row(1, 3, 0, 0, 0, ACTION, 0x101, 0xff), true),
    (4, Row(4, 2, 0, 0, 0, VALUE, 0, 0xffff_ffff), true),
    (6, Row(5, 3, 0, 0, 40, VALUE, 1, 0), true),
    (9, Row(6, 0, 0, 0, 0, VALUE, 0, 1), true),
    (9, Row(6, 1, 0, 0, 0, VALUE, 1, 1), true),
    (11, Row(7, 0, 1, 0, 0, VALUE, 0, 0xff), true),
    (17, Row(10, 0, 0, 0, 0, VALUE, 0, 0xffff_ffff), true),
    // the action's write: another number (the unfaithful table), another register, an offset,
    // preserve, a mask that lacks a bit, another instruction, a bad register, none at all
    (1, Row(1, 3, 0, 0, 0, ACTION, 2, ALL), false),
    (1, Row(1, 3, 0, 0, 0, VALUE, 1, ALL), false),
    (1, Row(1, 3, 0, 0, 1, ACTION, 1, ALL), false),
    (1, Row(1, 3, 1, 0, 0, ACTION, 1, ALL), false),
    (1, Row(1, 3, 0, 0, 0, ACTION, 1, 0xfe), false),
    (1, Row(1, 2, 0, 0, 0, ACTION, 1, ALL), false),
    (1, Row(1, 3, 0, 1, 0, ACTION, 1, ALL), false),
    (1, Row(1, 4, 0, 0, 0, ACTION, 1, ALL), false),
    // the input's write: a mask of too few bits, an offset, preserve, a number of the entry's own,
    // after the action's write
    (4, Row(4, 2, 0, 0, 0, VALUE, 0, 0x7fff_ffff), false),
    (14, Row(9, 2, 0, 0, 0, VALUE, 0, 0xffff_ffff), false),
    (14, Row(9, 2, 0, 0, 8, VALUE, 0, ALL), false),
    (14, Row(9, 2, 1, 0, 0, VALUE, 0, ALL), false),
    (14, Row(9, 3, 0, 0, 0, VALUE, 0, ALL), false),
    (14, Row(9, 4, 0, 0, 0, VALUE, 0, ALL), false),
    // a write before the action's that EXECUTE doesn't allow
    (6, Row(5, 3, 1, 0, 0, VALUE, 0x9c, ALL), false),
    (6, Row(5, 2, 0, 0, 0, VALUE, 0, ALL), false),
    // the result's read: a mask of too few bits, an offset, another value to compare with, and
    // comparing if the result has more than a bit
    (9, Row(6, 1, 0, 0, 0, VALUE, 0, ALL), false),
    (11, Row(7, 0, 0, 0, 0, VALUE, 0, 0x7f), false),
    (11, Row(7, 0, 0, 0, 1, VALUE, 0, ALL), false),
    (11, Row(7, 1, 0, 0, 0, VALUE, 1, ALL), false),
    (13, Row(8, 0, 0, 0, 0, VALUE, 0, ALL - 1), false),
    // as servers with a command port have it: numbers are written into the low byte of the command
    // register, whose other bits stay, and what is read first may be any number
    (0, Row(0, 3, 1, 0, 0, ACTION, 0, 0xff), false),
    (8, Row(6, 3, 1, 0, 0, ACTION, 6, 0xff), false),
    // one list that is replaced by a GOTO to itself
    (1, Row(1, 15, 0, 0, 0, VALUE, 0, ALL), false),
];

#[test]
fn judges_each_rule(rt: HostRuntime) {
    for (row, (place, entry, wanted)) in CHANGED.iter().enumerate() {
        assert!(rt;
            admits_changed(rt.alloc(), *place, *entry) == Some(*wanted),
            "row {row}"
        );
    }
}

// Entries that break a rule, whether they come after all others or before them. The last one is
// that of a table which tests the device before it acts: if Value holds all ones it skips the
// write.
const MORE: [Row; 11] = [
    // a second write to Action, a second input, a read after the result's
    Row(1, 3, 0, 0, 0, ACTION, 1, ALL),
    Row(9, 2, 0, 0, 0, VALUE, 0, ALL),
    Row(8, 0, 0, 0, 0, VALUE, 0, ALL),
    // a read of a result where there is no result, a write to Value elsewhere
    Row(0, 0, 0, 0, 0, VALUE, 0, ALL),
    Row(0, 3, 0, 0, 0, VALUE, 0, ALL),
    // another instruction, a bad register, and none
    Row(1, 14, 0, 0, 0, VALUE, 0, ALL),
    Row(1, 15, 0, 0, 0, VALUE, 0, ALL),
    Row(1, 18, 0, 0, 0, VALUE, 0, ALL),
    Row(1, 5, 0, 1, 0, VALUE, 0, ALL),
    Row(1, 0x13, 0, 0, 0, VALUE, 0, ALL),
    Row(0, 14, 0, 0, 0, VALUE, ALL, ALL),
];

// After the action's write EXECUTE allows no write to Value, and no entry follows the read of a
// result.
const MORE_AFTER: [Row; 2] = [
    Row(5, 3, 0, 0, 0, VALUE, 0, ALL),
    Row(8, 4, 0, 0, 0, VALUE, 0, ALL),
];

#[test]
fn refuses_one_entry_more(rt: HostRuntime) {
    for (number, row) in MORE.iter().enumerate() {
        assert!(rt;
            admits_with(rt.alloc(), *row) == Some(false)
                && admits_behind(rt.alloc(), &[*row]) == Some(false),
            "entry {number}"
        );
    }
    for (number, row) in MORE_AFTER.iter().enumerate() {
        assert!(rt;
            admits_with(rt.alloc(), *row) == Some(false),
            "entry {number} after"
        );
    }
}

// Whether the plain table is admitted after this many entries NOOP.
fn admits_behind_many(alloc: Global, count: usize) -> Option<bool> {
    let before = vec![in alloc; Row(3, 4, 0, 0, 0, 0, 0, ALL); count].ok()?;
    admits_behind(alloc, &before)
}

// An admitted list has at most 4,096 entries.
#[test]
fn admits_a_list_within_the_turns(rt: HostRuntime) {
    assert!(rt; admits_behind_many(rt.alloc(), 4_095) == Some(true));
    assert!(rt; admits_behind_many(rt.alloc(), 4_096) == Some(false));
}
