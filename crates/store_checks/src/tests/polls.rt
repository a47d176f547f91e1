//! Polls of slow devices, of stores without records or with all that a store can have, and polls in
//! which each call fails or is the last.
use super::played::{Start, USUAL, store_of};
use super::polled::{Outcome, left_by_poll, poll_store, store_with};
use board_core::Pick;
use erst_driver::DriverRefused;
use std::alloc::Global;
use std::test::Fail;

// How many records a store has, how often the device is busy, how a poll ends, and how many records
// it leaves.
const POLLS: [(u64, u64, Outcome, usize); 6] = [
    (0, 0, Ok(0), 0),
    (0, 1000, Ok(0), 0),
    (1, 999, Ok(1), 0),
    (1, 1000, Err(DriverRefused::Busy), 1),
    (2, 1000, Err(DriverRefused::Busy), 2),
    (1024, 0, Ok(1024), 0),
];

fn ends_so(
    alloc: Global,
    records: u64,
    slow: u64,
    outcome: Outcome,
    left: usize,
) -> Result<bool, Fail> {
    let polled = poll_store(alloc, Start { slow, ..USUAL }, store_of(alloc, records))?;
    Ok(polled.outcome == outcome && polled.records == left)
}

#[test]
fn polls_end_as_device_and_store_have_it(rt: HostRuntime) -> Result<(), Fail> {
    for (records, slow, outcome, left) in &POLLS {
        assert!(rt;
            ends_so(rt.alloc(), *records, *slow, *outcome, *left)?,
            "{records} records, busy {slow} times"
        );
    }
    Ok(())
}

// Three records, of which the second can't be read. To list them takes 16 calls, to read each 13,
// and to clear each of the two others 10, of which the fifth carries the command out.
const THREE: [(u64, bool); 3] = [(5, true), (6, false), (7, true)];

const CALLS: u64 = 75;

// Returns how many records a poll of the three leaves, of which this many calls succeeded.
fn left_after(calls: u64) -> usize {
    match calls {
        0..=59 => 3,
        60..=69 => 2,
        _ => 1,
    }
}

// If this call of a poll fails, it is the last.
fn ends_at(alloc: Global, fails: u64) -> Result<bool, Fail> {
    let polled = poll_store(alloc, Start { fails, ..USUAL }, store_with(alloc, &THREE))?;
    Ok(
        polled.outcome == Err(DriverRefused::Register)
            && polled.accesses.len() as u64 == fails
            && polled.records == left_after(fails.saturating_sub(1)),
    )
}

#[test]
fn failing_call_ends_a_poll(rt: HostRuntime) -> Result<(), Fail> {
    for fails in 1..=CALLS {
        assert!(rt; ends_at(rt.alloc(), fails)?, "call {fails}");
    }
    Ok(())
}

// A poll that is cut after this many calls leaves the records that aren't cleared yet.
fn stops_so(alloc: Global, allowed: u64, pick: Pick) -> Result<bool, Fail> {
    let start = Start { allowed, ..USUAL };
    Ok(left_by_poll(alloc, start, store_with(alloc, &THREE), pick)? == left_after(allowed))
}

#[test]
fn stop_leaves_what_is_not_cleared(rt: HostRuntime) -> Result<(), Fail> {
    for calls in 0..=CALLS {
        for pick in &[Pick::Old, Pick::New, Pick::Fill(0xa5)] {
            assert!(rt;
                stops_so(rt.alloc(), calls, *pick)?,
                "stopped after call {calls}"
            );
        }
    }
    Ok(())
}
