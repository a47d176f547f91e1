//! Crashes of the machine after each call of a run, and runs that continue from what they leave.
use super::board::TestBoard;
use super::journals::{GATE, LABELLED, OLD_LABELLED, Pieces, SECOND, SHUT, full_chain};
use super::records::{
    ENTRIES, ERST, PANIC, PANIC_TOLD, POLL, PUT_5, PUT_7, RECORD, REPEATED_5, TOLD_5,
};
use super::{ANOTHER, EVERYDAY, MODULE, are_joined, joined, play, play_on};
use board_core::Pick;
use ras_daemon::Exit;
use std::alloc::Global;
use std::test::Fail;

const PICKS: &[Pick] = &[Pick::Old, Pick::New, Pick::Fill(0xa5)];

// The text printed by a run over the module and the everyday line if the line is new, and if it
// isn't.
const NEWS: &[u8] = b"done 1\ndone 2\nlog bank=1/0/7/1000 t=100 class=CE weight=1 label=DIMM_A1 \
page=0000000012345000 code=memory:RD:0 threshold=none over=0 mark=- ripv=0 eipv=0 mcip=0\ndone 3\n\
end entries=1 names=1\n";

const NO_NEWS: &[u8] = b"done 1\ndone 2\nrepeat bank=1/0/7/1000\ndone 3\nend entries=1 names=1\n";

const ONE: &[u8] = b"done 1\n";

const TWO: &[u8] = b"done 1\ndone 2\n";

const NO_NAME: &[u8] = b"end entries=0 names=0\n";

const ONE_NAME: &[u8] = b"end entries=1 names=1\n";

const TWO_NAMES: &[u8] = b"end entries=2 names=2\n";

// A script whose run over a new board is ended by a crash, a script whose run goes over what is
// left, and the outcome.
struct Stop {
    script: &'static [&'static [u8]],
    next: &'static [&'static [u8]],
    cases: &'static [Case],
}

// The calls from one number to another, after each of which the machine crashes in the first run;
// what that run has printed then; and what the next one prints over what is left under each of some
// picks.
struct Case {
    first: u64,
    last: u64,
    printed: &'static [&'static [u8]],
    picks: &'static [Pick],
    output: &'static [&'static [u8]],
}

// After call 14 the link's first sync was made, after call 15 the write of its gate, and after call
// 16 the sync of the gate.
const LINKED: Stop = Stop {
    script: &[MODULE, EVERYDAY],
    next: &[MODULE, EVERYDAY],
    cases: &[
        Case {
            first: 14,
            last: 14,
            printed: &[TWO],
            picks: PICKS,
            output: &[NEWS],
        },
        Case {
            first: 15,
            last: 15,
            printed: &[TWO],
            picks: &[Pick::Old],
            output: &[NEWS],
        },
        Case {
            first: 15,
            last: 15,
            printed: &[TWO],
            picks: &[Pick::New],
            output: &[NO_NEWS],
        },
        Case {
            first: 16,
            last: 16,
            printed: &[TWO],
            picks: &[Pick::Old],
            output: &[NO_NEWS],
        },
    ],
};

// A record is counted and printed by call 39, and cleared by call 44.
const POLLED: Stop = Stop {
    script: &[ERST, ENTRIES, PUT_5, RECORD, POLL],
    next: &[ERST, ENTRIES, POLL],
    cases: &[Case {
        first: 39,
        last: 43,
        printed: &[TWO, TOLD_5],
        picks: PICKS,
        output: &[ONE, REPEATED_5, b"done 2\n", ONE_NAME],
    }],
};

// Two records of one poll are in one link, whose gate call 56 opens.
const BOTH_POLLED: Stop = Stop {
    script: &[ERST, ENTRIES, PUT_5, RECORD, PUT_7, RECORD, POLL],
    next: &[],
    cases: &[
        Case {
            first: 15,
            last: 55,
            printed: &[TWO, b"done 3\n"],
            picks: PICKS,
            output: &[NO_NAME],
        },
        Case {
            first: 56,
            last: 56,
            printed: &[TWO, b"done 3\n"],
            picks: &[Pick::Old],
            output: &[NO_NAME],
        },
        Case {
            first: 56,
            last: 56,
            printed: &[TWO, b"done 3\n"],
            picks: &[Pick::New, Pick::Fill(0xa5)],
            output: &[TWO_NAMES],
        },
        Case {
            first: 57,
            last: 57,
            printed: &[TWO, b"done 3\n"],
            picks: PICKS,
            output: &[TWO_NAMES],
        },
    ],
};

// Call 17 saves a panic record.
const SAVED: Stop = Stop {
    script: &[ERST, ENTRIES, PANIC],
    next: &[ERST, ENTRIES, POLL],
    cases: &[
        Case {
            first: 11,
            last: 16,
            printed: &[ONE],
            picks: PICKS,
            output: &[TWO, NO_NAME],
        },
        Case {
            first: 17,
            last: 22,
            printed: &[ONE],
            picks: PICKS,
            output: &[ONE, PANIC_TOLD, b"done 2\n", ONE_NAME],
        },
    ],
};

fn is_left(alloc: Global, stop: &Stop, case: &Case, calls: u64, pick: Pick) -> Result<bool, Fail> {
    let mut board = TestBoard::new(alloc, Vec::new(alloc), Vec::new(alloc))?;
    board.stop_after(calls);
    let board = play_on(alloc, stop.script, board);
    let is_so = are_joined(board.out(), case.printed);
    let left = play_on(alloc, stop.next, board.left(alloc, pick)?);
    Ok(is_so && are_joined(left.out(), case.output))
}

// Returns the number of calls after which a crash left something else.
fn first_otherwise(alloc: Global, stop: &Stop) -> Result<Option<u64>, Fail> {
    for case in stop.cases {
        for calls in case.first..=case.last {
            for pick in case.picks {
                if !is_left(alloc, stop, case, calls, *pick)? {
                    return Ok(Some(calls));
                }
            }
        }
    }
    Ok(None)
}

#[test]
fn a_stop_leaves_what_was_done(rt: HostRuntime) -> Result<(), Fail> {
    let alloc = rt.alloc();
    assert!(rt; first_otherwise(alloc, &LINKED)? == None);
    assert!(rt; first_otherwise(alloc, &POLLED)? == None);
    assert!(rt; first_otherwise(alloc, &BOTH_POLLED)? == None);
    assert!(rt; first_otherwise(alloc, &SAVED)? == None);
    Ok(())
}

// A script over both files, the most calls that its run makes, and the end of a run over what a
// crash leaves, whichever crash it was.
struct Row {
    script: &'static [&'static [u8]],
    zero: Pieces,
    one: Pieces,
    calls: u64,
    end: &'static [u8],
}

const LIMIT: &[u8] = b"limit 6 60\n";

const ROWS: [Row; 7] = [
    // The journal is made, and opened again.
    Row {
        script: &[EVERYDAY, b"restart\nretire 1\n", ANOTHER],
        zero: &[],
        one: &[],
        calls: 45,
        end: b"end entries=3 names=2\n",
    },
    Row {
        script: &[EVERYDAY],
        zero: SHUT,
        one: SHUT,
        calls: 20,
        end: b"end entries=1 names=1\n",
    },
    Row {
        script: &[EVERYDAY],
        zero: GATE,
        one: GATE,
        calls: 20,
        end: b"end entries=1 names=1\n",
    },
    // A link is appended to either file, also beside a file of an earlier generation.
    Row {
        script: &[LIMIT],
        zero: LABELLED,
        one: &[],
        calls: 20,
        end: b"end entries=2 names=1\n",
    },
    Row {
        script: &[LIMIT],
        zero: OLD_LABELLED,
        one: SECOND,
        calls: 20,
        end: b"end entries=1 names=0\n",
    },
    // A file of version 1 is taken over.
    Row {
        script: &[ANOTHER],
        zero: OLD_LABELLED,
        one: SHUT,
        calls: 25,
        end: b"end entries=2 names=2\n",
    },
    Row {
        script: &[ANOTHER],
        zero: GATE,
        one: OLD_LABELLED,
        calls: 25,
        end: b"end entries=2 names=2\n",
    },
];

// The scripts over a file 0 of 256 links, from which the journal is switched.
const SWITCHES: [Row; 2] = [
    Row {
        script: &[LIMIT],
        zero: &[],
        one: SHUT,
        calls: 25,
        end: b"end entries=2 names=0\n",
    },
    Row {
        script: &[LIMIT],
        zero: &[],
        one: &[],
        calls: 25,
        end: b"end entries=2 names=0\n",
    },
];

// Records that are put or saved, and polled.
const POLLS: [Row; 3] = [
    Row {
        script: &[ERST, ENTRIES, PUT_5, RECORD, POLL],
        zero: &[],
        one: &[],
        calls: 51,
        end: ONE_NAME,
    },
    Row {
        script: &[ERST, ENTRIES, PUT_5, RECORD, PUT_7, RECORD, POLL],
        zero: &[],
        one: &[],
        calls: 80,
        end: TWO_NAMES,
    },
    Row {
        script: &[ERST, ENTRIES, PANIC, POLL],
        zero: &[],
        one: &[],
        calls: 61,
        end: ONE_NAME,
    },
];

// Whether a run over this file 0 that a crash ends after this many calls leaves a board, under a
// pick, over which the script is taken to its end, and no record stays in the store.
fn goes_on(alloc: Global, row: &Row, zero: &[u8], calls: u64, pick: Pick) -> Result<bool, Fail> {
    let zero = zero.to_vec(alloc)?;
    let one = joined(alloc, row.one)?;
    let mut board = TestBoard::new(alloc, zero, one)?;
    board.stop_after(calls);
    let board = play_on(alloc, row.script, board);
    let mut left = board.left(alloc, pick)?;
    let is_done = play(alloc, row.script, &mut left) == Some(Exit::Done);
    Ok(is_done && left.out().ends_with(row.end) && left.records() == 0)
}

// Returns the number of calls after which a run couldn't continue from a crash.
fn first_wrong(alloc: Global, row: &Row, zero: &[u8]) -> Result<Option<u64>, Fail> {
    for calls in 0..=row.calls {
        for pick in PICKS {
            if !goes_on(alloc, row, zero, calls, *pick)? {
                return Ok(Some(calls));
            }
        }
    }
    Ok(None)
}

#[test]
fn a_stopped_run_goes_on(rt: HostRuntime) -> Result<(), Fail> {
    for (number, row) in ROWS.iter().enumerate() {
        let zero = joined(rt.alloc(), row.zero)?;
        let wrong = first_wrong(rt.alloc(), row, &zero)?;
        assert!(rt; wrong == None, "row {number}");
    }
    Ok(())
}

#[test]
fn a_stopped_switch_goes_on(rt: HostRuntime) -> Result<(), Fail> {
    let zero = full_chain(rt.alloc())?;
    for (number, row) in SWITCHES.iter().enumerate() {
        let wrong = first_wrong(rt.alloc(), row, &zero)?;
        assert!(rt; wrong == None, "row {number}");
    }
    Ok(())
}

#[test]
fn a_stopped_poll_goes_on(rt: HostRuntime) -> Result<(), Fail> {
    for (number, row) in POLLS.iter().enumerate() {
        let wrong = first_wrong(rt.alloc(), row, &[])?;
        assert!(rt; wrong == None, "row {number}");
    }
    Ok(())
}
