//! Tables as rows, and their runs, by functions without a contract.
use board_core::{Access, Board, MemBoard, Reg};
use erst_interp::{ErstTableRefused, RunRefused, Table, admits, read_erst};
use erst_store::Store;
use std::alloc::{AllocError, Global};

/// The addresses of the registers Action and Value.
pub const ACTION: u64 = 0xf000_0000;

pub const VALUE: u64 = 0xf000_0008;

pub const ALL: u64 = u64::MAX;

/// An entry of a table: its action, its instruction, its flags, the address space, the bit offset
/// and the address of its register, its value and its mask.
#[derive(Clone, Copy)]
pub struct Row(
    pub u8,
    pub u8,
    pub u8,
    pub u8,
    pub u8,
    pub u64,
    pub u64,
    pub u64,
);

/// An entry that uses the whole of a register.
pub const fn plain(action: u8, instruction: u8, address: u64, value: u64) -> Row {
    Row(action, instruction, 0, 0, 0, address, value, ALL)
}

/// Two lists of entries, one after the other.
pub fn joined(alloc: Global, one: &[Row], other: &[Row]) -> Option<Vec<Row>> {
    [one, other].concat(alloc).ok()
}

/// The bytes of a table of these entries.
pub fn bytes_of(alloc: Global, rows: &[Row]) -> Option<Vec<u8>> {
    let mut bytes = vec![in alloc; 0; 48].ok()?;
    for row in rows {
        add_row(&mut bytes, *row).ok()?;
    }
    set_head(&mut bytes, rows.len());
    Some(bytes)
}

fn add_row(bytes: &mut Vec<u8>, row: Row) -> Result<(), AllocError> {
    bytes.extend_from_slice(&[row.0, row.1, row.2, 0, row.3, 64, row.4, 4])?;
    bytes.extend_from_slice(&row.5.to_le_bytes())?;
    bytes.extend_from_slice(&row.6.to_le_bytes())?;
    bytes.extend_from_slice(&row.7.to_le_bytes())
}

// Sets the head of a table of this many entries, and the checksum last.
fn set_head(bytes: &mut [u8], count: usize) {
    let length = bytes.len();
    set_number(bytes, 0, 0x5453_5245);
    set_number(bytes, 4, length);
    set_number(bytes, 36, 48);
    set_number(bytes, 44, count);
    mend(bytes);
}

/// Sets a number of four bytes, if the bytes reach that far and it fits.
pub fn set_number(bytes: &mut [u8], place: usize, number: usize) {
    let Ok(number) = u32::try_from(number) else {
        return;
    };
    for (i, byte) in number.to_le_bytes().iter().enumerate() {
        if place < bytes.len() && i < bytes.len() - place {
            bytes[place + i] = *byte;
        }
    }
}

/// Sets the checksum byte so that the bytes sum to 0.
pub fn mend(bytes: &mut [u8]) {
    if bytes.len() > 9 {
        bytes[9] = 0;
        let sum = bytes.iter().fold(0u8, |sum, byte| sum.wrapping_add(*byte));
        bytes[9] = 0u8.wrapping_sub(sum);
    }
}

/// Returns why bytes can't be read, if so.
pub fn refusal(alloc: Global, bytes: &[u8]) -> Option<ErstTableRefused> {
    read_erst(alloc, bytes).err()
}

/// Returns a table of these entries, or `None` if memory runs out.
pub fn table(alloc: Global, rows: &[Row]) -> Option<Table> {
    let bytes = bytes_of(alloc, rows)?;
    read_erst(alloc, &bytes).ok()
}

/// Whether a table of these entries is admitted.
pub fn admitted(alloc: Global, rows: &[Row]) -> Option<bool> {
    let table = table(alloc, rows)?;
    Some(is_admitted(&table))
}

fn is_admitted(table: &Table) -> bool {
    admits(table)
}

/// Returns a new board over an empty store, whose register Value has this number.
pub fn board(alloc: Global, value: u64) -> Option<MemBoard> {
    let mut board = MemBoard::new(alloc, Store::new(alloc), 0).ok()?;
    set(&mut board, Reg::Value, value);
    Some(board)
}

pub fn run(table: &Table, action: u8, input: u64, board: &mut MemBoard) -> Result<u64, RunRefused> {
    table.run(action, input, board)
}

/// Runs a table of these entries, which are all of action 16, over a board whose register Value has
/// this number, and returns the result and what the register has then.
pub fn run_rows(
    alloc: Global,
    rows: &[Row],
    value: u64,
    input: u64,
) -> Option<(Result<u64, RunRefused>, Option<u64>)> {
    let table = table(alloc, rows)?;
    let mut board = board(alloc, value)?;
    Some(run_on(&table, input, &mut board))
}

fn run_on(
    table: &Table,
    input: u64,
    board: &mut MemBoard,
) -> (Result<u64, RunRefused>, Option<u64>) {
    let answer = run(table, 16, input, board);
    (answer, get(board, Reg::Value))
}

fn set(board: &mut MemBoard, reg: Reg, value: u64) -> bool {
    board.reg_write(reg, value).is_ok()
}

fn get(board: &mut MemBoard, reg: Reg) -> Option<u64> {
    board.reg_read(reg).ok()
}

/// The last access that was made.
pub fn last_access(board: &MemBoard) -> Option<Access> {
    board.accesses().last().copied()
}

/// Reads from the front of the range, where it is long enough.
pub fn range_read(board: &mut MemBoard, buf: &mut [u8]) -> bool {
    buf.len() <= 16_384 && board.range_read(0, buf).is_ok()
}

/// Writes to the front of the range, where it is long enough.
pub fn range_write(board: &mut MemBoard, bytes: &[u8]) -> bool {
    bytes.len() <= 16_384 && board.range_write(0, bytes).is_ok()
}
