//! The disk calls of runs, one by one.
use super::board::TestBoard;
use super::journals::{OLD_LABELLED, Pieces, SHUT};
use super::records::{ENTRIES, ERST, POLL, PUT_5, PUT_7, RECORD};
use super::{ANOTHER, EVERYDAY, MODULE, joined, play_on};
use board_core::DiskCall::{Size, Sync, WriteAt};
use board_core::{DiskCall, FileNo};
use std::alloc::Global;
use std::test::Fail;

const ZERO: FileNo = FileNo::Zero;

const ONE: FileNo = FileNo::One;

// The calls of an opening over missing files.
const OPENING: &[DiskCall] = &[
    Sync(ZERO),
    Sync(ONE),
    Size(ZERO),
    Size(ONE),
    WriteAt(ZERO, 0, 1),
    Sync(ZERO),
    WriteAt(ZERO, 1, 97),
    Sync(ZERO),
    WriteAt(ZERO, 0, 1),
    Sync(ZERO),
];

// The calls of an opening over a file 0 whose front gate is closed, and of a link of one fact with
// a module.
const APPENDING: &[DiskCall] = &[
    WriteAt(ZERO, 1, 97),
    Sync(ZERO),
    WriteAt(ZERO, 0, 1),
    Sync(ZERO),
    WriteAt(ZERO, 98, 60),
    Sync(ZERO),
    WriteAt(ZERO, 97, 1),
    Sync(ZERO),
];

// The calls that take over a file of version 1 and append a link.
const TAKING_OVER: &[DiskCall] = &[
    WriteAt(ONE, 0, 1),
    Sync(ONE),
    WriteAt(ONE, 1, 231),
    Sync(ONE),
    WriteAt(ONE, 0, 1),
    Sync(ONE),
    WriteAt(ONE, 232, 60),
    Sync(ONE),
    WriteAt(ONE, 231, 1),
    Sync(ONE),
];

// The calls of an opening over missing files, and of one link for the two records of a poll: all of
// the run.
const POLLING: &[DiskCall] = &[
    Sync(ZERO),
    Sync(ONE),
    Size(ZERO),
    Size(ONE),
    WriteAt(ZERO, 0, 1),
    Sync(ZERO),
    WriteAt(ZERO, 1, 97),
    Sync(ZERO),
    WriteAt(ZERO, 0, 1),
    Sync(ZERO),
    WriteAt(ZERO, 98, 85),
    Sync(ZERO),
    WriteAt(ZERO, 97, 1),
    Sync(ZERO),
];

// A script over a file 0, and its last disk calls.
const ROWS: [(&[&[u8]], Pieces, &[DiskCall]); 4] = [
    (&[], &[], OPENING),
    (&[MODULE, EVERYDAY, EVERYDAY], SHUT, APPENDING),
    (&[MODULE, ANOTHER, EVERYDAY], OLD_LABELLED, TAKING_OVER),
    (
        &[ERST, ENTRIES, PUT_5, RECORD, PUT_7, RECORD, POLL],
        &[],
        POLLING,
    ),
];

fn makes(alloc: Global, script: &[&[u8]], file0: Pieces, calls: &[DiskCall]) -> Result<bool, Fail> {
    let zero = joined(alloc, file0)?;
    let board = TestBoard::new(alloc, zero, Vec::new(alloc))?;
    let board = play_on(alloc, script, board);
    Ok(board.disk_calls().ends_with(calls))
}

#[test]
fn runs_make_these_disk_calls(rt: HostRuntime) -> Result<(), Fail> {
    for (row, (script, file0, calls)) in ROWS.iter().enumerate() {
        assert!(rt; makes(rt.alloc(), script, file0, calls)?, "row {row}");
    }
    Ok(())
}
