//! The record store's file.
use super::{board, enter, holds, is_missing, leave};
use board_core::{Board, BoardPut, Reg};
use erst_store::PutRefused;
use erst_store::actions::{
    BEGIN_CLEAR_OPERATION, EXECUTE_OPERATION, GET_COMMAND_STATUS, GET_RECORD_COUNT,
    SET_RECORD_IDENTIFIER,
};
use ras_host::{Alone, FileBoard, RealSystem};
use std::fs;
use std::fs::Permissions;
use std::marker::Brand;
use std::os::unix::fs::{MetadataExt, PermissionsExt, chown, symlink};
use std::test::Fail;

const STORE: &str = "rasd.store";

const NEW_STORE: &str = "rasd.new";

// The store of one record, (6, 00), and the empty store.
const ONE: &[u8] = b"RASERST1\x01\0\0\0\x06\0\0\0\0\0\0\0\x01\0\0\0\0";

const NONE: &[u8] = b"RASERST1\0\0\0\0";

// The longest file of a store is one byte shorter.
const TOO_LONG: u64 = 16_789_517;

type RunBoard = FileBoard<RealSystem, Alone, Brand>;

fn act(board: &mut RunBoard, action: u64) -> bool {
    board.reg_write(Reg::Action, action).is_ok()
}

// Does an action that returns something in the register Value.
fn ask(board: &mut RunBoard, action: u64) -> Option<u64> {
    if !act(board, action) {
        return None;
    }
    board.reg_read(Reg::Value).ok()
}

fn count_anew(rt: HostRuntime) -> Option<u64> {
    ask(&mut board::<Alone>(rt), GET_RECORD_COUNT)
}

// Clears the record under an identifier, and returns the status.
fn clear(board: &mut RunBoard, id: u64) -> Option<u64> {
    let is_set = board.reg_write(Reg::Value, id).is_ok() && act(board, SET_RECORD_IDENTIFIER);
    if !is_set || !act(board, BEGIN_CLEAR_OPERATION) || !act(board, EXECUTE_OPERATION) {
        return None;
    }
    ask(board, GET_COMMAND_STATUS)
}

// Puts the record (id, 00).
fn put(board: &mut RunBoard, id: u64) -> Result<(), BoardPut> {
    board.put(id, &[0])
}

fn put_anew(rt: HostRuntime) -> Result<(), BoardPut> {
    put(&mut board::<Alone>(rt), 6)
}

// A file is made by the first change and replaced by each later change, with the same owner and
// mode. A change that changes nothing doesn't touch the file.
#[test]
fn file_follows_the_store(rt: HostRuntime) -> Result<(), Fail> {
    enter(&rt, "changes")?;
    let mut board = board::<Alone>(rt);
    assert!(rt; ask(&mut board, GET_RECORD_COUNT) == Some(0) && clear(&mut board, 6) == Some(4));
    assert!(rt; is_missing(&rt, STORE) && put(&mut board, 6) == Ok(()));
    assert!(rt; holds(&rt, STORE, ONE) && count_anew(rt) == Some(1));
    let _ = chown(&rt, STORE, Some(7), Some(8));
    fs::set_permissions(&rt, STORE, Permissions::from_mode(0o640))?;
    let old = fs::metadata(&rt, STORE)?;
    let refused = Err(BoardPut::Refused(PutRefused::ReservedId));
    assert!(rt; put(&mut board, 0) == refused && clear(&mut board, 7) == Some(5));
    assert!(rt; put(&mut board, 6) == Ok(()) && fs::metadata(&rt, STORE)?.ino() == old.ino());
    assert!(rt; clear(&mut board, 6) == Some(0) && holds(&rt, STORE, NONE));
    let new = fs::metadata(&rt, STORE)?;
    assert!(rt; (new.uid(), new.gid(), new.mode()) == (old.uid(), old.gid(), old.mode()));
    assert!(rt; new.ino() != old.ino() && is_missing(&rt, NEW_STORE));
    leave(&rt, "changes")
}

// A crash during a change leaves a part of the new file, or all of it beside the old one. The old
// one is then current, and the next change succeeds.
#[test]
fn stop_leaves_the_old_file(rt: HostRuntime) -> Result<(), Fail> {
    enter(&rt, "stops")?;
    for left in [b"", &ONE[..24], ONE, b"longer than the next file is"] {
        fs::write(&rt, STORE, NONE)?;
        fs::write(&rt, NEW_STORE, left)?;
        assert!(rt; count_anew(rt) == Some(0) && put_anew(rt) == Ok(()));
        assert!(rt; holds(&rt, STORE, ONE) && is_missing(&rt, NEW_STORE));
    }
    leave(&rt, "stops")
}

// If no new file can be made, the old one stays, and the device isn't used again.
#[test]
fn failed_change_ends_the_device(rt: HostRuntime) -> Result<(), Fail> {
    enter(&rt, "failed")?;
    fs::write(&rt, STORE, NONE)?;
    fs::create_dir(&rt, NEW_STORE)?;
    let mut board = board::<Alone>(rt);
    assert!(rt; put(&mut board, 6) == Err(BoardPut::Failed) && holds(&rt, STORE, NONE));
    fs::remove_dir(&rt, NEW_STORE)?;
    assert!(rt; !act(&mut board, GET_RECORD_COUNT) && put(&mut board, 6) == Err(BoardPut::Failed));
    leave(&rt, "failed")
}

// A file that isn't a store is refused and left unchanged: other bytes, too many bytes, a folder, a
// symlink.
#[test]
fn what_is_no_store_is_refused(rt: HostRuntime) -> Result<(), Fail> {
    enter(&rt, "refused")?;
    fs::write(&rt, STORE, &ONE[..24])?;
    assert!(rt; count_anew(rt).is_none() && put_anew(rt).is_err());
    assert!(rt; holds(&rt, STORE, &ONE[..24]));
    fs::File::create(&rt, STORE)?.set_len(TOO_LONG)?;
    assert!(rt; count_anew(rt).is_none());
    fs::remove_file(&rt, STORE)?;
    fs::create_dir(&rt, STORE)?;
    assert!(rt; count_anew(rt).is_none() && put_anew(rt).is_err());
    fs::remove_dir(&rt, STORE)?;
    fs::write(&rt, "elsewhere", ONE)?;
    symlink(&rt, "elsewhere", STORE)?;
    assert!(rt; count_anew(rt).is_none() && put_anew(rt).is_err());
    assert!(rt; fs::symlink_metadata(&rt, STORE)?.is_symlink() && is_missing(&rt, NEW_STORE));
    leave(&rt, "refused")
}
