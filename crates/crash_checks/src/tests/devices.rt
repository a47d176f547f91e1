//! The record store's device: its accesses in whole runs, word for word, and a slow device.
use super::board::TestBoard;
use super::records::{ENTRIES, ERST, PADDED, PANIC, POLL, PUT_5, RECORD, TOLD_5};
use super::{ends_so, play_on};
use board_core::Access::{self, RangeRead, RangeWrite, Read, Write};
use board_core::Reg::{Action, Value};
use ras_daemon::Exit;
use std::alloc::Global;
use std::test::Fail;

const NONE: u64 = u64::MAX;

// A store with the record 5 is listed to the end, and then from its first record on.
const LISTING: &[Access] = &[
    Write(Action, 8),
    Read(Value, 5),
    Write(Action, 8),
    Read(Value, NONE),
    Write(Action, 8),
    Read(Value, 5),
    Write(Action, 8),
    Read(Value, NONE),
];

// What the padded table reads besides, before a read: Value has the listing's last result.
const IDLE: &[Access] = &[Read(Value, NONE)];

const READING: &[Access] = &[
    Write(Action, 1),
    Write(Value, 0),
    Write(Action, 4),
    Write(Value, 5),
    Write(Action, 9),
    Write(Value, 0x9c),
    Write(Action, 5),
    Write(Action, 6),
    Read(Value, 0),
    Write(Action, 7),
    Read(Value, 0),
    Write(Action, 3),
    RangeRead(0, 16_384),
];

const CLEARING: &[Access] = &[
    Write(Action, 2),
    Write(Value, 5),
    Write(Action, 9),
    Write(Value, 0x9c),
    Write(Action, 5),
    Write(Action, 6),
    Read(Value, 0),
    Write(Action, 7),
    Read(Value, 0),
    Write(Action, 3),
];

const WRITING: &[Access] = &[
    RangeWrite(0, 456),
    Write(Action, 0),
    Write(Value, 0),
    Write(Action, 4),
    Write(Value, 0x9c),
    Write(Action, 5),
    Write(Action, 6),
    Read(Value, 0),
    Write(Action, 7),
    Read(Value, 0),
    Write(Action, 3),
];

const POLLED: &[&[u8]] = &[ERST, ENTRIES, PUT_5, RECORD, POLL];

const SAVED: &[&[u8]] = &[ERST, ENTRIES, PANIC];

// A script, and all accesses of its run.
const ROWS: [(&[&[u8]], &[&[Access]]); 3] = [
    (POLLED, &[LISTING, READING, CLEARING]),
    (
        &[PADDED, ENTRIES, PUT_5, RECORD, POLL],
        &[LISTING, IDLE, READING, CLEARING],
    ),
    (SAVED, &[WRITING]),
];

fn accesses_so(alloc: Global, script: &[&[u8]], parts: &[&[Access]]) -> Result<bool, Fail> {
    let board = play_on(alloc, script, TestBoard::slow(alloc, 0)?);
    let wanted = parts.concat(alloc)?;
    Ok(board.accesses() == wanted.as_slice())
}

#[test]
fn runs_make_these_accesses(rt: HostRuntime) -> Result<(), Fail> {
    for (row, (script, parts)) in ROWS.iter().enumerate() {
        assert!(rt; accesses_so(rt.alloc(), script, parts)?, "row {row}");
    }
    Ok(())
}

// How many times the device is busy in each operation, a script, how its run ends, what it prints,
// and how many records are in the store then.
const PLAYS: [(u64, &[&[u8]], Exit, &[&[u8]], usize); 4] = [
    (
        999,
        POLLED,
        Exit::Done,
        &[
            b"done 1\ndone 2\n",
            TOLD_5,
            b"done 3\nend entries=1 names=1\n",
        ],
        0,
    ),
    (
        1000,
        POLLED,
        Exit::ErstBusy,
        &[b"done 1\ndone 2\nstop 10 busy\n"],
        1,
    ),
    // The record is saved before the device is found to be busy.
    (1000, SAVED, Exit::ErstBusy, &[b"done 1\nstop 10 busy\n"], 1),
    // An empty store is listed, and no more calls of the device are made.
    (
        1000,
        &[ERST, ENTRIES, POLL],
        Exit::Done,
        &[b"done 1\ndone 2\nend entries=0 names=0\n"],
        0,
    ),
];

fn plays_so(
    alloc: Global,
    slow: u64,
    script: &[&[u8]],
    exit: Exit,
    output: &[&[u8]],
    records: usize,
) -> Result<bool, Fail> {
    let mut board = TestBoard::slow(alloc, slow)?;
    Ok(ends_so(alloc, script, &mut board, exit, output) && board.records() == records)
}

#[test]
fn a_busy_device_is_asked_1000_times(rt: HostRuntime) -> Result<(), Fail> {
    for (row, (slow, script, exit, output, records)) in PLAYS.iter().enumerate() {
        let is_so = plays_so(rt.alloc(), *slow, script, *exit, output, *records)?;
        assert!(rt; is_so, "row {row}");
    }
    Ok(())
}
