//! Moves of bytes in the range.
use super::rows::{
    ALL, Row, VALUE, board, last_access, plain, range_read, range_write, run, table,
};
use board_core::{Access, MemBoard, Reg};
use erst_interp::{RunRefused, Table};
use std::alloc::Global;

// The address of the range.
const RANGE: u64 = 0xf001_0000;

// Entries of action 16 that write a number to Value and take it from there.
fn taken(number: u64, instruction: u8) -> [Row; 2] {
    [
        plain(16, 3, VALUE, number),
        plain(16, instruction, VALUE, 0),
    ]
}

// The bases of source and destination, the offset of both, and a count.
type Move = (u64, u64, u64, u64);

// What a move returns, the first 8 bytes of the range after it, and the last access.
type Moved = (Result<u64, RunRefused>, [u8; 8], Option<Access>);

// Returns the entries that do a move.
fn rows_of(alloc: Global, wanted: Move) -> Option<Vec<Row>> {
    let (from, to, offset, count) = wanted;
    [
        taken(from, 16),
        taken(to, 17),
        taken(count, 6),
        taken(offset, 18),
    ]
    .concat(alloc)
    .ok()
}

// Runs a table over a board whose range begins with the numbers from 1 on; `None` if the range
// can't be written or read.
fn run_over(table: &Table, board: &mut MemBoard) -> Option<Moved> {
    if !range_write(board, &[1, 2, 3, 4, 5, 6, 7, 8]) {
        return None;
    }
    let answer = run(table, 16, 7, board);
    let last = last_access(board);
    let mut front = [0; 8];
    if !range_read(board, &mut front) {
        return None;
    }
    Some((answer, front, last))
}

fn move_bytes(alloc: Global, wanted: Move) -> Option<Moved> {
    let table = table(alloc, &rows_of(alloc, wanted)?)?;
    let mut board = board(alloc, 0)?;
    run_over(&table, &mut board)
}

// Source and destination, offset and count, and the first bytes after the move.
const MOVES: [(u64, u64, u64, u64, [u8; 8], u32); 6] = [
    (0, 4, 0, 4, [1, 2, 3, 4, 1, 2, 3, 4], 4),
    // overlapping stretches, upwards and downwards
    (0, 2, 0, 6, [1, 2, 1, 2, 3, 4, 5, 6], 2),
    (2, 0, 0, 6, [3, 4, 5, 6, 7, 8, 7, 8], 0),
    // moved on by an offset
    (0, 2, 1, 2, [1, 2, 3, 2, 3, 6, 7, 8], 3),
    // no bytes, at the range's end
    (16_384, 16_384, 0, 0, [1, 2, 3, 4, 5, 6, 7, 8], 16_384),
    // all bytes
    (0, 0, 0, 16_384, [1, 2, 3, 4, 5, 6, 7, 8], 0),
];

fn moves_so(alloc: Global, wanted: Move, front: [u8; 8], place: u32) -> bool {
    let (from, to, offset, count) = wanted;
    let placed = (
        RANGE.saturating_add(from),
        RANGE.saturating_add(to),
        offset,
        count,
    );
    let last = Access::RangeWrite(place, count.min(16_384) as u32);
    move_bytes(alloc, placed) == Some((Ok(7), front, Some(last)))
}

#[test]
fn moves_as_if_read_whole_first(rt: HostRuntime) {
    for (from, to, offset, count, front, place) in &MOVES {
        assert!(rt;
            moves_so(rt.alloc(), (*from, *to, *offset, *count), *front, *place),
            "{count} from {from} to {to}"
        );
    }
}

// Bases, offset and count of stretches that aren't inside: one byte past the end, before the range,
// no bytes past the end, and sums above 2^64.
const OUTSIDE: [Move; 8] = [
    (RANGE + 1, RANGE, 0, 16_384),
    (RANGE, RANGE + 1, 0, 16_384),
    (RANGE - 1, RANGE, 0, 1),
    (RANGE, 0, 0, 0),
    (RANGE, RANGE + 16_385, 0, 0),
    (RANGE, RANGE, ALL, 1),
    (RANGE, RANGE, 0, ALL),
    (ALL, ALL, RANGE + 1, 1),
];

// The register that gives the offset is read in every case, and nothing more.
fn is_refused(alloc: Global, wanted: Move) -> bool {
    let last = Access::Read(Reg::Value, wanted.2);
    let front = [1, 2, 3, 4, 5, 6, 7, 8];
    move_bytes(alloc, wanted) == Some((Err(RunRefused::BadRange), front, Some(last)))
}

#[test]
fn refuses_what_is_not_inside(rt: HostRuntime) {
    for (from, to, offset, count) in &OUTSIDE {
        assert!(rt;
            is_refused(rt.alloc(), (*from, *to, *offset, *count)),
            "{count} from {from} to {to}"
        );
    }
}
