//! What calls of the board do to real files, which no clause says. Each test has a folder of its
//! own.

mod store;

use board_core::{Board, Failed, FileNo};
use ras_host::{Alone, FileBoard, OnlyReading, RealSystem, Use};
use std::env::Env;
use std::fs;
use std::marker::Brand;
use std::test::Fail;

fn enter(rt: &HostRuntime, name: &str) -> Result<(), Fail> {
    let _ = fs::remove_dir_all(rt, name);
    fs::create_dir(rt, name)?;
    rt.set_current_dir(name)?;
    Ok(())
}

fn leave(rt: &HostRuntime, name: &str) -> Result<(), Fail> {
    rt.set_current_dir("..")?;
    fs::remove_dir_all(rt, name)?;
    Ok(())
}

fn board<U: Use>(rt: HostRuntime) -> FileBoard<RealSystem, U, Brand> {
    FileBoard::new(rt.alloc(), RealSystem::new(rt))
}

fn is_missing(rt: &HostRuntime, name: &str) -> bool {
    fs::symlink_metadata(rt, name).is_err()
}

// Returns whether a file has these bytes.
fn holds(rt: &HostRuntime, name: &str, bytes: &[u8]) -> bool {
    matches!(fs::read(rt, name), Ok(found) if found.as_slice() == bytes)
}

// Returns how many bytes of file 1 are read at an offset, and the buffer that they are read into.
fn read<U: Use>(
    board: &mut FileBoard<RealSystem, U, Brand>,
    place: u64,
) -> (Result<usize, Failed>, [u8; 4]) {
    let mut buf = [0; 4];
    (board.read_at(FileNo::One, place, &mut buf), buf)
}

// Returns whether bytes are written to file 1, and whether the file is synced.
fn write<U: Use>(board: &mut FileBoard<RealSystem, U, Brand>, bytes: &[u8]) -> (bool, bool) {
    let is_written = board.write_at(FileNo::One, 0, bytes).is_ok();
    (is_written, board.sync(FileNo::One).is_ok())
}

// A board that only reads finds a missing file empty, makes no file and writes to no file. Beside a
// board that writes it has what the files contained at its first use.
#[test]
fn reading_board_changes_nothing(rt: HostRuntime) -> Result<(), Fail> {
    enter(&rt, "reading")?;
    let mut reader = board::<OnlyReading>(rt);
    assert!(rt; reader.size(FileNo::One) == Ok(0) && read(&mut reader, 0) == (Ok(0), [0; 4]));
    assert!(rt; write(&mut reader, b"x") == (false, true));
    assert!(rt; is_missing(&rt, "rasd.0") && is_missing(&rt, "rasd.1"));
    let mut writer = board::<Alone>(rt);
    assert!(rt; write(&mut writer, b"abcdef") == (true, true));
    assert!(rt; reader.size(FileNo::One) == Ok(0) && read(&mut reader, 0) == (Ok(0), [0; 4]));
    let mut later = board::<OnlyReading>(rt);
    assert!(rt; later.size(FileNo::One) == Ok(6) && read(&mut later, 1) == (Ok(4), *b"bcde"));
    assert!(rt; read(&mut later, 4) == (Ok(2), *b"ef\0\0"));
    assert!(rt; read(&mut later, 7) == (Ok(0), [0; 4]));
    assert!(rt; write(&mut later, b"x") == (false, true) && holds(&rt, "rasd.1", b"abcdef"));
    leave(&rt, "reading")
}
