//! Calls that fail.
use super::board::TestBoard;
use super::records::{ENTRIES, ERST, PANIC, POLL, PUT_5, RECORD, TOLD_5};
use super::{EVERYDAY, LOGGED, ends_so};
use ras_daemon::Exit;
use std::alloc::Global;
use std::test::Fail;

// The calls from one number to another, how a run ends in which one of them fails, and what it has
// printed then.
type Faults = &'static [(u64, u64, Exit, &'static [&'static [u8]])];

const ONE: &[u8] = b"done 1\n";

const TWO: &[u8] = b"done 1\ndone 2\n";

// The calls of the opening, and the last line.
const NOTHING: Faults = &[
    (1, 10, Exit::DiskFault, &[]),
    (11, 11, Exit::PrintFault, &[]),
    (12, 12, Exit::Done, &[b"end entries=0 names=0\n"]),
];

// The calls of the opening and of the link, the two lines, the opening again, which reads the front
// of file 0 once more to find the older file, and the last two lines.
const RESTARTED: Faults = &[
    (1, 14, Exit::DiskFault, &[]),
    (15, 15, Exit::PrintFault, &[]),
    (16, 16, Exit::PrintFault, &[LOGGED]),
    (17, 22, Exit::DiskFault, &[LOGGED, ONE]),
    (23, 23, Exit::PrintFault, &[LOGGED, ONE]),
    (24, 24, Exit::PrintFault, &[LOGGED, TWO]),
    (
        25,
        26,
        Exit::Done,
        &[LOGGED, TWO, b"end entries=1 names=1\n"],
    ),
];

// The calls of the opening, the put, the listing and the reading, the link, the text, the clearing,
// and the last two lines.
const POLLED: Faults = &[
    (1, 10, Exit::DiskFault, &[]),
    (11, 11, Exit::PrintFault, &[]),
    (12, 12, Exit::RegisterFault, &[ONE]),
    (13, 13, Exit::PrintFault, &[ONE]),
    (14, 34, Exit::RegisterFault, &[TWO]),
    (35, 38, Exit::DiskFault, &[TWO]),
    (39, 39, Exit::PrintFault, &[TWO]),
    (40, 49, Exit::RegisterFault, &[TWO, TOLD_5]),
    (50, 50, Exit::PrintFault, &[TWO, TOLD_5]),
    (51, 51, Exit::PrintFault, &[TWO, TOLD_5, b"done 3\n"]),
    (
        52,
        53,
        Exit::Done,
        &[TWO, TOLD_5, b"done 3\nend entries=1 names=1\n"],
    ),
];

// The calls of the opening, the writing of the record, and the last two lines.
const SAVED: Faults = &[
    (1, 10, Exit::DiskFault, &[]),
    (11, 11, Exit::PrintFault, &[]),
    (12, 22, Exit::RegisterFault, &[ONE]),
    (23, 23, Exit::PrintFault, &[ONE]),
    (24, 24, Exit::PrintFault, &[TWO]),
    (25, 26, Exit::Done, &[TWO, b"end entries=0 names=0\n"]),
];

// A script, and the calls of its run.
const ROWS: [(&[&[u8]], Faults); 4] = [
    (&[], NOTHING),
    (&[EVERYDAY, b"restart\n"], RESTARTED),
    (&[ERST, ENTRIES, PUT_5, RECORD, POLL], POLLED),
    (&[ERST, ENTRIES, PANIC], SAVED),
];

// Whether a run in which this call fails ends in this way, with this call as the last.
fn fails_so(
    alloc: Global,
    script: &[&[u8]],
    call: u64,
    exit: Exit,
    output: &[&[u8]],
) -> Result<bool, Fail> {
    let mut board = TestBoard::new(alloc, Vec::new(alloc), Vec::new(alloc))?;
    board.fail_at(call);
    let is_so = ends_so(alloc, script, &mut board, exit, output);
    Ok(is_so && (exit == Exit::Done || board.calls() == call))
}

#[test]
fn a_failing_call_ends_the_run(rt: HostRuntime) -> Result<(), Fail> {
    for (row, (script, faults)) in ROWS.iter().enumerate() {
        for (first, last, exit, output) in *faults {
            for call in *first..=*last {
                let is_so = fails_so(rt.alloc(), script, call, *exit, output)?;
                assert!(rt; is_so, "row {row}, call {call}");
            }
        }
    }
    Ok(())
}
