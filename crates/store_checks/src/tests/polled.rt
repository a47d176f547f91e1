//! Polls over a board in memory, by functions without a contract.
use super::played::{
    Start, accesses_of, board_over, driver_at, record, records_after_stop, records_of,
};
use board_core::{Access, Board, MemBoard, Pick};
use dimm_topology::Topology;
use erst_driver::{Driver, DriverRefused};
use erst_store::{RANGE_LENGTH, Store};
use ras_records::{clear_all, look};
use std::alloc::Global;
use std::test::Fail;

/// How a poll ended: this many records were cleared, or it was refused.
pub type Outcome = Result<usize, DriverRefused>;

/// The outcome of a poll, and what the board has after it.
#[derive(Drop)]
pub struct Polled {
    pub outcome: Outcome,
    pub accesses: Vec<Access>,
    pub records: usize,
}

/// Polls a store on a new board.
pub fn poll_store(alloc: Global, start: Start, store: Store) -> Result<Polled, Fail> {
    let mut board = board_over(alloc, start, store)?;
    see(alloc, start.is_padded, &mut board)
}

fn see(alloc: Global, is_padded: bool, board: &mut MemBoard) -> Result<Polled, Fail> {
    let outcome = poll_by_table(alloc, is_padded, board).ok_or("memory is left")?;
    Ok(Polled {
        outcome,
        accesses: accesses_of(alloc, board)?,
        records: records_of(board),
    })
}

/// Returns how many records a crash after a poll leaves.
pub fn left_by_poll(alloc: Global, start: Start, store: Store, pick: Pick) -> Result<usize, Fail> {
    let mut board = board_over(alloc, start, store)?;
    poll_by_table(alloc, start.is_padded, &mut board);
    records_after_stop(alloc, board, pick)
}

// Returns `None` if memory runs out.
fn poll_by_table(alloc: Global, is_padded: bool, board: &mut MemBoard) -> Option<Outcome> {
    let driver = driver_at(alloc, is_padded)?;
    let mut buffer = vec![in alloc; 0xa5; RANGE_LENGTH].ok()?;
    Some(poll(alloc, &driver, &mut buffer, board))
}

fn poll<B: Board>(alloc: Global, driver: &Driver, buffer: &mut [u8], board: &mut B) -> Outcome {
    if buffer.len() != RANGE_LENGTH {
        return Err(DriverRefused::NoMemory);
    }
    let looked = look(alloc, 300, driver, &Topology::new(alloc), buffer, board)?;
    clear_all(driver, &looked.readable, board)?;
    Ok(looked.readable.len())
}

/// A store of records that can be read or that can't, under these identifiers.
pub fn store_with(alloc: Global, records: &[(u64, bool)]) -> Store {
    let mut store = Store::new(alloc);
    for (id, is_readable) in records {
        put(&mut store, *id, *is_readable);
    }
    store
}

fn put(store: &mut Store, id: u64, is_readable: bool) -> bool {
    let bytes = record(id);
    let length = if is_readable { 128 } else { 1 };
    store.put(id, &bytes[..length]).is_ok()
}
