//! The calls that all tests make, and the lines that many of them use.
//!
//! Nothing here has a contract, so the clauses of `rasd` come only into the proof of one short
//! function, `exit_over`. A test sees plain bytes and an exit.

mod board;
mod calls;
mod devices;
mod edge;
mod exchanged;
mod faults;
mod files;
mod journals;
mod records;
mod stops;

use board::TestBoard;
use board_core::MemSource;
use ras_daemon::{Exit, RasWord, rasd};
use std::alloc::Global;
use std::test::Fail;

// A processor and a module of its socket.
const MODULE: &[u8] = b"cpu 0 0\nmodule DIMM_A1 0 7 0\n";

// A `bank` line of a corrected error, and another one.
const EVERYDAY: &[u8] = b"bank 1 100 0 7 1000 1000c14 0 8c00004000010090 12345040 86\n";

const ANOTHER: &[u8] = b"bank 1 100 0 7 1001 1000c14 0 8c00004000010090 12345040 86\n";

// The text printed for the everyday line as long as no module is known.
const LOGGED: &[u8] = b"log bank=1/0/7/1000 t=100 class=CE weight=1 label=- \
page=0000000012345000 code=memory:RD:0 threshold=none over=0 mark=- ripv=0 eipv=0 mcip=0\n";

// Calls `rasd`. No other function here does.
fn exit_over(
    alloc: Global,
    words: &[RasWord],
    source: &mut MemSource,
    board: &mut TestBoard,
) -> Exit {
    rasd(alloc, words, source, board)
}

// Returns the pieces, one after the other.
fn joined(alloc: Global, pieces: &[&[u8]]) -> Result<Vec<u8>, Fail> {
    Ok(pieces.concat(alloc)?)
}

// Returns the arguments of a run.
fn words(alloc: Global) -> Option<Vec<RasWord>> {
    let word = RasWord::new(alloc, b"run").ok()?;
    vec![in alloc; word].ok()
}

// Runs a script, given in parts, over a board. Returns `None` if memory runs out before the run.
fn play(alloc: Global, script: &[&[u8]], board: &mut TestBoard) -> Option<Exit> {
    let words = words(alloc)?;
    let bytes = script.concat(alloc).ok()?;
    let mut source = MemSource::new(bytes, 7, Vec::new(alloc));
    Some(exit_over(alloc, &words, &mut source, board))
}

// Runs a script over a board, and returns the board.
fn play_on(alloc: Global, script: &[&[u8]], mut board: TestBoard) -> TestBoard {
    play(alloc, script, &mut board);
    board
}

// Returns whether a run over the script ends with this exit and prints this output.
fn ends_so(
    alloc: Global,
    script: &[&[u8]],
    board: &mut TestBoard,
    exit: Exit,
    output: &[&[u8]],
) -> bool {
    play(alloc, script, board) == Some(exit) && are_joined(board.out(), output)
}

// Returns whether the bytes are these parts, one after the other.
fn are_joined(bytes: &[u8], parts: &[&[u8]]) -> bool {
    let mut rest = bytes;
    for part in parts {
        match rest.strip_prefix(*part) {
            Some(after) => rest = after,
            None => return false,
        }
    }
    rest.is_empty()
}
