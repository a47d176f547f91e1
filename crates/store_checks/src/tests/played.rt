//! A driver over a board in memory, on which operations are run. No function here has a contract,
//! so that the terms of the driver's clauses come only into the proof of one short function for
//! each operation, and never into the proof of a test.
use super::rows::{Row, joined, table};
use super::samples::{PADDING, PLAIN};
use board_core::{Access, Board, MemBoard, Pick};
use erst_driver::{Driver, DriverRefused};
use erst_interp::{Table, admits};
use erst_store::{RANGE_LENGTH, Store};
use ras_base::little_endian::u32_at;
use std::alloc::Global;
use std::test::Fail;

/// An operation on the record under an identifier, or on all records.
#[derive(Clone, Copy, Debug)]
pub enum Operation {
    Ids,
    Read(u64),
    Clear(u64),
    Write(u64),
}

/// How it ended. Listed identifiers are counted, and have to be those from 1 on.
#[derive(Clone, Copy, Debug, PartialEq, Eq)]
pub enum Answer {
    Done,
    Listed(usize),
    Refused(DriverRefused),
    Wrong,
}

/// Whether the table is the padded one, how many records the store has (their identifiers begin
/// with 1), how slow the device is, the call that fails (0 for none) and how many may succeed.
#[derive(Clone, Copy)]
pub struct Start {
    pub is_padded: bool,
    pub records: u64,
    pub slow: u64,
    pub fails: u64,
    pub allowed: u64,
}

/// The plain table, and one record, on a board on which every call succeeds.
pub const USUAL: Start = Start {
    is_padded: false,
    records: 1,
    slow: 0,
    fails: 0,
    allowed: u64::MAX,
};

/// What the operations returned, and what the board has after them.
#[derive(Drop)]
pub struct Seen {
    pub answers: Vec<Answer>,
    pub accesses: Vec<Access>,
    pub records: usize,
}

/// Runs operations one after the other on a new board.
pub fn play(alloc: Global, start: Start, operations: &[Operation]) -> Result<Seen, Fail> {
    let mut board = board_at(alloc, start)?;
    see(alloc, start.is_padded, operations, &mut board)
}

fn see(
    alloc: Global,
    is_padded: bool,
    operations: &[Operation],
    board: &mut MemBoard,
) -> Result<Seen, Fail> {
    let answers = answers_on(alloc, is_padded, operations, board).ok_or("memory is left")?;
    Ok(Seen {
        answers,
        accesses: accesses_of(alloc, board)?,
        records: records_of(board),
    })
}

/// Returns how many records a crash after operations leaves.
pub fn left(
    alloc: Global,
    start: Start,
    operations: &[Operation],
    pick: Pick,
) -> Result<usize, Fail> {
    let mut board = board_at(alloc, start)?;
    answers_on(alloc, start.is_padded, operations, &mut board);
    records_after_stop(alloc, board, pick)
}

/// Returns how many records a crash of a board leaves.
pub fn records_after_stop(alloc: Global, board: MemBoard, pick: Pick) -> Result<usize, Fail> {
    let board = board.left(alloc, pick)?;
    Ok(records_of(&board))
}

/// Returns how an operation ended that was run alone on a new board.
pub fn answer_on(alloc: Global, start: Start, operation: Operation) -> Result<Answer, Fail> {
    let seen = play(alloc, start, &[operation])?;
    Ok(seen.answers.first().copied().unwrap_or(Answer::Wrong))
}

// What the operations answer by the driver of a table; None if memory runs out. No function here
// that owns a board or a driver uses `?`: each way out would be proved to drop it.
fn answers_on(
    alloc: Global,
    is_padded: bool,
    operations: &[Operation],
    board: &mut MemBoard,
) -> Option<Vec<Answer>> {
    let driver = driver_at(alloc, is_padded)?;
    answers_of(alloc, &driver, operations, board)
}

fn answers_of(
    alloc: Global,
    driver: &Driver,
    operations: &[Operation],
    board: &mut MemBoard,
) -> Option<Vec<Answer>> {
    let mut answers = Vec::new(alloc);
    for operation in operations {
        let answer = outcome_of(alloc, driver, *operation, board)?;
        answers.push(answer).ok()?;
    }
    Some(answers)
}

fn outcome_of(
    alloc: Global,
    driver: &Driver,
    operation: Operation,
    board: &mut MemBoard,
) -> Option<Answer> {
    match operation {
        Operation::Ids => Some(listed(alloc, driver, board)),
        Operation::Read(id) => fetched(alloc, driver, id, board),
        Operation::Clear(id) => Some(ended(clear(driver, id, board))),
        Operation::Write(id) => Some(ended(write(driver, &record(id), board))),
    }
}

fn ended(outcome: Result<(), DriverRefused>) -> Answer {
    match outcome {
        Ok(()) => Answer::Done,
        Err(why) => Answer::Refused(why),
    }
}

fn listed(alloc: Global, driver: &Driver, board: &mut MemBoard) -> Answer {
    match list(alloc, driver, board) {
        Ok(ids) if are_counted(&ids) => Answer::Listed(ids.len()),
        Ok(_) => Answer::Wrong,
        Err(why) => Answer::Refused(why),
    }
}

fn are_counted(ids: &[u64]) -> bool {
    ids.iter().zip(1..).all(|(id, wanted)| *id == wanted)
}

fn fetched(alloc: Global, driver: &Driver, id: u64, board: &mut MemBoard) -> Option<Answer> {
    let mut buffer = vec![in alloc; 0xa5; RANGE_LENGTH].ok()?;
    Some(fetched_into(driver, id, &mut buffer, board))
}

fn fetched_into(driver: &Driver, id: u64, buffer: &mut [u8], board: &mut MemBoard) -> Answer {
    let result = fetch(driver, id, buffer, board);
    if result.is_ok() && !holds(buffer, &record(id)) {
        return Answer::Wrong;
    }
    ended(result)
}

// Whether a buffer begins with these bytes, and has zeros after them.
fn holds(buffer: &[u8], bytes: &[u8]) -> bool {
    match buffer.strip_prefix(bytes) {
        Some(rest) => rest.iter().all(|byte| *byte == 0),
        None => false,
    }
}

fn list<B: Board>(
    alloc: Global,
    driver: &Driver,
    board: &mut B,
) -> Result<Vec<u64>, DriverRefused> {
    driver.ids(alloc, board)
}

fn fetch<B: Board>(
    driver: &Driver,
    id: u64,
    buffer: &mut [u8],
    board: &mut B,
) -> Result<(), DriverRefused> {
    if buffer.len() != RANGE_LENGTH {
        return Err(DriverRefused::NoMemory);
    }
    driver.read(id, buffer, board)
}

fn clear<B: Board>(driver: &Driver, id: u64, board: &mut B) -> Result<(), DriverRefused> {
    driver.clear(id, board)
}

fn write<B: Board>(driver: &Driver, bytes: &[u8], board: &mut B) -> Result<(), DriverRefused> {
    if bytes.len() < 128 || bytes.len() > RANGE_LENGTH {
        return Err(DriverRefused::NoMemory);
    }
    if u32_at(bytes, 20) as usize != bytes.len() {
        return Err(DriverRefused::NoMemory);
    }
    driver.write(bytes, board)
}

/// A record of 128 bytes, with no section: its signatures are at 0 and 6, its length at 20, and its
/// identifier at 96.
pub fn record(id: u64) -> [u8; 128] {
    let mut bytes = [0; 128];
    bytes[..4].copy_from_slice(b"CPER");
    bytes[6..10].copy_from_slice(&[0xff; 4]);
    bytes[20] = 128;
    bytes[96..104].copy_from_slice(&id.to_le_bytes());
    bytes
}

/// The driver of the plain table or of the padded one.
pub fn driver_at(alloc: Global, is_padded: bool) -> Option<Driver> {
    let padding: &[Row] = if is_padded { &PADDING } else { &[] };
    driver_of(table(alloc, &joined(alloc, padding, &PLAIN)?)?)
}

fn driver_of(table: Table) -> Option<Driver> {
    if admits(&table) {
        Some(Driver::new(table))
    } else {
        None
    }
}

/// Returns a new board with this start.
pub fn board_at(alloc: Global, start: Start) -> Result<MemBoard, Fail> {
    board_over(alloc, start, store_of(alloc, start.records))
}

/// Returns a new board over a store.
pub fn board_over(alloc: Global, start: Start, store: Store) -> Result<MemBoard, Fail> {
    let mut board = new_board(alloc, store, start.slow)?;
    let _ = board.fail_at(start.fails);
    board.stop_after(start.allowed);
    Ok(board)
}

fn new_board(alloc: Global, store: Store, slow: u64) -> Result<MemBoard, Fail> {
    Ok(MemBoard::new(alloc, store, slow)?)
}

/// Returns a store of this many records.
pub fn store_of(alloc: Global, records: u64) -> Store {
    let mut store = Store::new(alloc);
    put_all(&mut store, records);
    store
}

fn put_all(store: &mut Store, records: u64) {
    for id in 0..records {
        put(store, id.saturating_add(1));
    }
}

fn put(store: &mut Store, id: u64) -> bool {
    store.put(id, &record(id)).is_ok()
}

/// The accesses that a board lists.
pub fn accesses_of(alloc: Global, board: &MemBoard) -> Result<Vec<Access>, Fail> {
    Ok(board.accesses().to_vec(alloc)?)
}

/// How many records a board has.
pub fn records_of(board: &MemBoard) -> usize {
    board.store().len()
}
