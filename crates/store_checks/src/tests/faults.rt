//! A failed call of the board at each point of an operation, and a crash at each point.
use super::accesses::WRITING;
use super::played::{Answer, Operation, Start, USUAL, answer_on, left, play};
use board_core::{Access, Pick};
use erst_driver::DriverRefused;
use std::alloc::Global;
use std::test::Fail;

const REFUSED: Answer = Answer::Refused(DriverRefused::Register);

// Returns the access as it is listed if its call failed.
fn as_failed(access: Access) -> Access {
    match access {
        Access::Read(reg, _) => Access::Read(reg, 0),
        other => other,
    }
}

// If a write's call of this number fails, it is the last one.
fn ends_at(alloc: Global, fails: u64) -> Result<bool, Fail> {
    let seen = play(alloc, Start { fails, ..USUAL }, &[Operation::Write(7)])?;
    Ok(seen.answers.as_slice() == [REFUSED].as_slice() && are_writing_up_to(&seen.accesses, fails))
}

// Whether these are the accesses of a write up to the one of this number, which failed.
fn are_writing_up_to(accesses: &[Access], fails: u64) -> bool {
    for (place, access) in accesses.iter().enumerate() {
        let call = place.saturating_add(1);
        if !is_writing(*access, call, call as u64 == fails) {
            return false;
        }
    }
    accesses.len() as u64 == fails
}

fn is_writing(access: Access, call: usize, failed: bool) -> bool {
    if call == 0 || call > WRITING.len() {
        return false;
    }
    let wanted = WRITING[call - 1];
    access == if failed { as_failed(wanted) } else { wanted }
}

#[test]
fn failing_call_ends_a_write(rt: HostRuntime) -> Result<(), Fail> {
    for fails in 1..=11 {
        assert!(rt; ends_at(rt.alloc(), fails)?, "call {fails}");
    }
    Ok(())
}

// An operation, its calls, how many of them may succeed until the store changes, and the number of
// records that it leaves.
const STOPS: [(Operation, u64, u64, usize); 3] = [
    (Operation::Clear(1), 10, 5, 0),
    (Operation::Write(7), 11, 6, 2),
    (Operation::Read(1), 13, 14, 1),
];

// Whether this many records are left by an operation that is cut after this many calls, and it ends
// in this way.
fn stops_so(
    alloc: Global,
    operation: Operation,
    allowed: u64,
    records: usize,
    answer: Answer,
) -> Result<bool, Fail> {
    let start = Start { allowed, ..USUAL };
    Ok(
        left(alloc, start, &[operation], Pick::Old)? == records
            && answer_on(alloc, start, operation)? == answer,
    )
}

#[test]
fn stop_leaves_the_store_or_its_change(rt: HostRuntime) -> Result<(), Fail> {
    for (operation, all, change, records) in &STOPS {
        for calls in 0..=*all {
            let records = if calls < *change { 1 } else { *records };
            let answer = if calls < *all { REFUSED } else { Answer::Done };
            assert!(rt;
                stops_so(rt.alloc(), *operation, calls, records, answer)?,
                "stopped after call {calls}"
            );
        }
    }
    Ok(())
}
