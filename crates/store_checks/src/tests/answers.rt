//! What operations return: over busy devices, stores that lack the record, and a full store.
use super::played::{Answer, Operation, Start, USUAL, answer_on};
use erst_driver::DriverRefused;
use std::alloc::Global;
use std::test::Fail;

const OPERATIONS: [Operation; 3] = [Operation::Read(1), Operation::Clear(1), Operation::Write(1)];

fn is_busy_from_1000(alloc: Global, slow: u64) -> Result<bool, Fail> {
    let wanted = if slow < 1000 {
        Answer::Done
    } else {
        Answer::Refused(DriverRefused::Busy)
    };
    for operation in &OPERATIONS {
        if answer_on(alloc, Start { slow, ..USUAL }, *operation)? != wanted {
            return Ok(false);
        }
    }
    Ok(true)
}

#[test]
fn busy_device_is_asked_1000_times(rt: HostRuntime) -> Result<(), Fail> {
    for slow in &[998, 999, 1000, 1001] {
        assert!(rt; is_busy_from_1000(rt.alloc(), *slow)?, "busy {slow} times");
    }
    Ok(())
}

// The records of a store, an operation, and how it ends. A full store has no room for one more
// record, but has room for a record that replaces another.
const ANSWERS: [(u64, Operation, Answer); 14] = [
    (0, Operation::Read(1), EMPTY),
    (0, Operation::Clear(1), EMPTY),
    (1, Operation::Read(2), ABSENT),
    (1, Operation::Clear(2), ABSENT),
    (1, Operation::Read(1), Answer::Done),
    (1, Operation::Clear(1), Answer::Done),
    (0, Operation::Write(0), NO_ROOM),
    (0, Operation::Write(u64::MAX), NO_ROOM),
    (0, Operation::Ids, Answer::Listed(0)),
    (3, Operation::Ids, Answer::Listed(3)),
    (1024, Operation::Ids, Answer::Listed(1024)),
    (1024, Operation::Write(1025), NO_ROOM),
    (1024, Operation::Write(1024), Answer::Done),
    (1024, Operation::Read(1024), Answer::Done),
];

// The statuses of no room, of an empty store, and of a record that isn't there.
const NO_ROOM: Answer = Answer::Refused(DriverRefused::Status(1));

const EMPTY: Answer = Answer::Refused(DriverRefused::Status(4));

const ABSENT: Answer = Answer::Refused(DriverRefused::Status(5));

fn has_answer(
    alloc: Global,
    records: u64,
    operation: Operation,
    wanted: Answer,
) -> Result<bool, Fail> {
    Ok(answer_on(alloc, Start { records, ..USUAL }, operation)? == wanted)
}

#[test]
fn stores_are_told(rt: HostRuntime) -> Result<(), Fail> {
    for (row, (records, operation, wanted)) in ANSWERS.iter().enumerate() {
        assert!(rt;
            has_answer(rt.alloc(), *records, *operation, *wanted)?,
            "row {row}"
        );
    }
    Ok(())
}
