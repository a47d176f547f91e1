//! The instructions one by one, and the ends of runs.
use super::rows::{ACTION, ALL, Row, VALUE, plain, run_rows};
use erst_interp::RunRefused;
use std::alloc::Global;

// Entries, what Value has before, what the run returns, and what Value has after. The input is 7.
type Case = (&'static [Row], u64, Result<u64, RunRefused>, u64);

const CASES: [Case; 32] = [
    (&[], 9, Ok(7), 9),
    // READ_REGISTER of bits 4 to 11
    (
        &[Row(16, 0, 0, 0, 4, VALUE, 0, 0xff)],
        0x1234,
        Ok(0x23),
        0x1234,
    ),
    (&[Row(16, 0, 0, 0, 63, VALUE, 0, ALL)], ALL, Ok(1), ALL),
    // READ_REGISTER_VALUE
    (&[Row(16, 1, 0, 0, 0, VALUE, 9, ALL)], 9, Ok(1), 9),
    (&[Row(16, 1, 0, 0, 0, VALUE, 9, ALL)], 8, Ok(0), 8),
    // WRITE_REGISTER and WRITE_REGISTER_VALUE, with and without preserve
    (&[Row(16, 2, 0, 0, 0, VALUE, 0, ALL)], 9, Ok(7), 7),
    (&[Row(16, 3, 0, 0, 0, VALUE, 5, ALL)], 9, Ok(7), 5),
    (&[Row(16, 3, 1, 0, 8, VALUE, 5, 0xf)], 0xabcd, Ok(7), 0xa5cd),
    (&[Row(16, 3, 0, 0, 8, VALUE, 5, 0xf)], 0xabcd, Ok(7), 0x500),
    (
        &[Row(16, 3, 0, 0, 60, VALUE, 0xff, ALL)],
        9,
        Ok(7),
        0xf << 60,
    ),
    // NOOP and STALL
    (
        &[
            Row(16, 4, 0, 0, 0, VALUE, 5, ALL),
            Row(16, 12, 0, 0, 0, VALUE, 5, ALL),
        ],
        9,
        Ok(7),
        9,
    ),
    // LOAD_VAR1, LOAD_VAR2 and STORE_VAR1, with ADD and SUBTRACT
    (
        &[
            Row(16, 5, 0, 0, 0, VALUE, 0, ALL),
            Row(16, 3, 0, 0, 0, VALUE, 5, ALL),
            Row(16, 7, 0, 0, 0, VALUE, 0, ALL),
        ],
        9,
        Ok(7),
        9,
    ),
    (
        &[
            Row(16, 5, 0, 0, 0, VALUE, 0, ALL),
            Row(16, 3, 0, 0, 0, VALUE, 5, ALL),
            Row(16, 6, 0, 0, 0, VALUE, 0, ALL),
            Row(16, 8, 0, 0, 0, VALUE, 0, ALL),
            Row(16, 7, 0, 0, 0, VALUE, 0, ALL),
        ],
        9,
        Ok(7),
        14,
    ),
    (
        &[
            Row(16, 5, 0, 0, 0, VALUE, 0, ALL),
            Row(16, 3, 0, 0, 0, VALUE, 5, ALL),
            Row(16, 6, 0, 0, 0, VALUE, 0, ALL),
            Row(16, 9, 0, 0, 0, VALUE, 0, ALL),
            Row(16, 7, 0, 0, 0, VALUE, 0, ALL),
        ],
        9,
        Ok(7),
        ALL - 3,
    ),
    // ADD_VALUE and SUBTRACT_VALUE
    (&[Row(16, 10, 0, 0, 0, VALUE, 2, ALL)], ALL, Ok(7), 1),
    (&[Row(16, 11, 0, 0, 0, VALUE, 2, ALL)], 1, Ok(7), ALL),
    // STALL_WHILE_TRUE
    (
        &[
            Row(16, 13, 0, 0, 0, VALUE, 9, ALL),
            Row(16, 3, 0, 0, 0, VALUE, 5, ALL),
        ],
        8,
        Ok(7),
        5,
    ),
    (
        &[
            Row(16, 13, 0, 0, 0, VALUE, 9, ALL),
            Row(16, 3, 0, 0, 0, VALUE, 5, ALL),
        ],
        9,
        Err(RunRefused::Fuel),
        9,
    ),
    // SKIP_NEXT_INSTRUCTION_IF_TRUE, and past the end
    (
        &[
            Row(16, 14, 0, 0, 0, VALUE, 9, ALL),
            Row(16, 3, 0, 0, 0, VALUE, 5, ALL),
            Row(16, 10, 0, 0, 0, VALUE, 1, ALL),
        ],
        9,
        Ok(7),
        10,
    ),
    (
        &[
            Row(16, 14, 0, 0, 0, VALUE, 9, ALL),
            Row(16, 3, 0, 0, 0, VALUE, 5, ALL),
            Row(16, 10, 0, 0, 0, VALUE, 1, ALL),
        ],
        8,
        Ok(7),
        6,
    ),
    (&[Row(16, 14, 0, 0, 0, VALUE, 9, ALL)], 9, Ok(7), 9),
    // GOTO over an entry, past the end, and to itself
    (
        &[
            Row(16, 15, 0, 0, 0, VALUE, 2, ALL),
            Row(16, 3, 0, 0, 0, VALUE, 5, ALL),
            Row(16, 10, 0, 0, 0, VALUE, 1, ALL),
        ],
        9,
        Ok(7),
        10,
    ),
    (&[Row(16, 15, 0, 0, 0, VALUE, ALL, ALL)], 9, Ok(7), 9),
    (
        &[Row(16, 15, 0, 0, 0, VALUE, 0, ALL)],
        9,
        Err(RunRefused::Fuel),
        9,
    ),
    // an instruction that isn't known, with a register that isn't usable either
    (
        &[Row(16, 0x13, 0, 1, 0, VALUE, 0, ALL)],
        9,
        Err(RunRefused::BadInstruction),
        9,
    ),
    (
        &[
            Row(16, 3, 0, 0, 0, VALUE, 5, ALL),
            Row(16, 0, 0, 1, 0, VALUE, 0, ALL),
        ],
        9,
        Err(RunRefused::BadRegister),
        5,
    ),
    // other registers that aren't usable: another address space, a bit offset of 64, other
    // addresses
    (&[Row(16, 0, 0, 1, 0, VALUE, 0, ALL)], 9, BAD, 9),
    (&[Row(16, 0, 0, 0, 64, VALUE, 0, ALL)], 9, BAD, 9),
    (&[Row(16, 0, 0, 0, 255, ACTION, 0, ALL)], 9, BAD, 9),
    (&[Row(16, 0, 0, 0, 0, VALUE + 1, 0, ALL)], 9, BAD, 9),
    (&[Row(16, 0, 0, 0, 0, 0, 0, ALL)], 9, BAD, 9),
    // SET_DST_ADDRESS_BASE from a register that has 0, and MOVE_DATA
    (
        &[
            Row(16, 17, 0, 0, 0, VALUE, 0, ALL),
            Row(16, 18, 0, 0, 0, VALUE, 0, ALL),
        ],
        0,
        Err(RunRefused::BadRange),
        0,
    ),
];

const BAD: Result<u64, RunRefused> = Err(RunRefused::BadRegister);

fn runs_so(alloc: Global, case: Case) -> bool {
    let (rows, before, answer, after) = case;
    run_rows(alloc, rows, before, 7) == Some((answer, Some(after)))
}

#[test]
fn does_each_instruction(rt: HostRuntime) {
    for (number, case) in CASES.iter().enumerate() {
        assert!(rt; runs_so(rt.alloc(), *case), "case {number}");
    }
}

// Returns this many NOOP entries, and entries of another action between them.
fn many_rows(alloc: Global, count: usize) -> Option<Vec<Row>> {
    let mut rows = Vec::new(alloc);
    for _ in 0..count {
        rows.extend_from_slice(&[plain(16, 4, VALUE, 0), plain(17, 3, VALUE, 1)])
            .ok()?;
    }
    Some(rows)
}

fn answer_of_many(alloc: Global, count: usize) -> Option<Result<u64, RunRefused>> {
    let rows = many_rows(alloc, count)?;
    let (answer, _) = run_rows(alloc, &rows, 9, 7)?;
    Some(answer)
}

// How many entries of the action there are, and what the run returns.
const TURNS: [(usize, Result<u64, RunRefused>); 3] = [
    (4_095, Ok(7)),
    (4_096, Ok(7)),
    (4_097, Err(RunRefused::Fuel)),
];

// Entries of another action use no turn.
#[test]
fn ends_within_its_turns(rt: HostRuntime) {
    for (count, wanted) in &TURNS {
        assert!(rt;
            answer_of_many(rt.alloc(), *count) == Some(*wanted),
            "{count} entries"
        );
    }
}
