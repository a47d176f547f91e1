//! The accesses of a poll and of a write, word for word.
use super::played::{Answer, Operation, Start, USUAL, play};
use super::polled::{Polled, poll_store, store_with};
use board_core::Access::{self, RangeRead, RangeWrite, Read, Write};
use board_core::Reg::{Action, Value};
use std::alloc::Global;
use std::test::Fail;

const NONE: u64 = u64::MAX;

// A store with the record 5 is listed to the end, and then from its first record on.
const LISTING: [Access; 8] = [
    Write(Action, 8),
    Read(Value, 5),
    Write(Action, 8),
    Read(Value, NONE),
    Write(Action, 8),
    Read(Value, 5),
    Write(Action, 8),
    Read(Value, NONE),
];

const READING: [Access; 13] = [
    Write(Action, 1),
    Write(Value, 0),
    Write(Action, 4),
    Write(Value, 5),
    Write(Action, 9),
    Write(Value, 0x9c),
    Write(Action, 5),
    Write(Action, 6),
    Read(Value, 0),
    Write(Action, 7),
    Read(Value, 0),
    Write(Action, 3),
    RangeRead(0, 16_384),
];

const CLEARING: [Access; 10] = [
    Write(Action, 2),
    Write(Value, 5),
    Write(Action, 9),
    Write(Value, 0x9c),
    Write(Action, 5),
    Write(Action, 6),
    Read(Value, 0),
    Write(Action, 7),
    Read(Value, 0),
    Write(Action, 3),
];

/// A write of 128 bytes.
pub const WRITING: [Access; 11] = [
    RangeWrite(0, 128),
    Write(Action, 0),
    Write(Value, 0),
    Write(Action, 4),
    Write(Value, 0x9c),
    Write(Action, 5),
    Write(Action, 6),
    Read(Value, 0),
    Write(Action, 7),
    Read(Value, 0),
    Write(Action, 3),
];

// A poll of a store with one record lists it, reads it and clears it. Before each read the padded
// table reads Value once, which has the listing's last result.
fn polling(alloc: Global, is_padded: bool) -> Result<Vec<Access>, Fail> {
    let padding: &[Access] = if is_padded { &[Read(Value, NONE)] } else { &[] };
    let mut accesses = LISTING.to_vec(alloc)?;
    add(&mut accesses, padding)?;
    add(&mut accesses, &READING)?;
    add(&mut accesses, &CLEARING)?;
    Ok(accesses)
}

fn add(accesses: &mut Vec<Access>, part: &[Access]) -> Result<(), Fail> {
    Ok(accesses.extend_from_slice(part)?)
}

fn polls(alloc: Global, is_padded: bool) -> Result<bool, Fail> {
    let start = Start { is_padded, ..USUAL };
    let polled = poll_store(alloc, start, store_with(alloc, &[(5, true)]))?;
    has_polled(alloc, &polled, is_padded)
}

fn has_polled(alloc: Global, polled: &Polled, is_padded: bool) -> Result<bool, Fail> {
    let wanted = polling(alloc, is_padded)?;
    Ok(
        polled.outcome == Ok(1)
            && polled.accesses.as_slice() == wanted.as_slice()
            && polled.records == 0,
    )
}

#[test]
fn poll_makes_these_accesses(rt: HostRuntime) -> Result<(), Fail> {
    assert!(rt; polls(rt.alloc(), false)?, "the plain table");
    assert!(rt; polls(rt.alloc(), true)?, "the padded table");
    Ok(())
}

fn writes(alloc: Global, is_padded: bool) -> Result<bool, Fail> {
    let seen = play(alloc, Start { is_padded, ..USUAL }, &[Operation::Write(7)])?;
    Ok(
        seen.answers.as_slice() == [Answer::Done].as_slice()
            && seen.accesses.as_slice() == WRITING.as_slice()
            && seen.records == 2,
    )
}

#[test]
fn write_makes_these_accesses(rt: HostRuntime) -> Result<(), Fail> {
    assert!(rt; writes(rt.alloc(), false)?, "the plain table");
    assert!(rt; writes(rt.alloc(), true)?, "the padded table");
    Ok(())
}
