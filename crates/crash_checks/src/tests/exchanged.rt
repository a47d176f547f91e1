//! The account is recovered from what the disk has, and from nothing else.
use super::board::TestBoard;
use super::journals::{OLD_CUT, OLD_EMPTY, Pieces};
use super::{EVERYDAY, LOGGED, ends_so, joined};
use ras_daemon::Exit;
use std::alloc::Global;
use std::test::Fail;

// The disk is exchanged when the journal is opened again, for a disk with this file 0; how the run
// ends, and what it prints.
const ROWS: [(Pieces, Exit, &[&[u8]]); 2] = [
    // The same line is new again.
    (
        OLD_EMPTY,
        Exit::Done,
        &[
            LOGGED,
            b"done 1\ndone 2\n",
            LOGGED,
            b"done 3\nend entries=1 names=1\n",
        ],
    ),
    // If somebody has damaged the disk by then, the run reports at which byte.
    (
        OLD_CUT,
        Exit::Damaged { file: 0, place: 73 },
        &[LOGGED, b"done 1\nstop 7 file=0 place=73\n"],
    ),
];

const SCRIPT: &[&[u8]] = &[EVERYDAY, b"restart\n", EVERYDAY];

fn asks(alloc: Global, zero: Pieces, exit: Exit, output: &[&[u8]]) -> Result<bool, Fail> {
    let second = joined(alloc, zero)?;
    let mut board = TestBoard::exchanging(alloc, second)?;
    Ok(ends_so(alloc, SCRIPT, &mut board, exit, output))
}

#[test]
fn a_restart_asks_the_disk(rt: HostRuntime) -> Result<(), Fail> {
    for (row, (zero, exit, output)) in ROWS.iter().enumerate() {
        assert!(rt; asks(rt.alloc(), zero, *exit, output)?, "row {row}");
    }
    Ok(())
}
