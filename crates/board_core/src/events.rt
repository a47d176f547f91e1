//! What a board in memory records of each successful call, and the calls on plain vectors.
ghost use Rattle.std.specs.Prelude.{◌≡◌, ◌≤◌, ◌++◌, [], ◌∷◌, length, IsSome, OnOk, OnErr};
ghost use Rattle.board_core.specs.Steps.History.{acts_of, first_bytes};
ghost use Rattle.board_core.specs.Doing.{prints, writes};
ghost use Rattle.board_core.specs.Told.{overlay};

use crate::FileNo;
use crate::history::{MemChange, MemFile};
use ras_base::NoMemory;
use std::alloc::Global;

/// Records the bytes and the file's first contents, and writes them.
pub fn write(
    alloc: Global,
    file: &mut MemFile,
    events: &mut Vec<MemChange>,
    number: FileNo,
    place: u64,
    bytes: &[u8],
) -> Result<(), NoMemory>
    requires { place ≤ length file.old.bytes.items }
    ensures file { OnOk result (file.new.bytes.items ≡ overlay place bytes.now file.old.bytes.items) }
    ensures events { OnOk result (acts_of events.new.items
        ≡ acts_of events.old.items ++ writes number place bytes.now ∷ []) }
    ensures first { first_bytes file.new ≡ first_bytes file.old }
    ensures same_file { OnErr result (file.new.bytes.items ≡ file.old.bytes.items) }
    ensures same_events { OnErr result (events.new.items ≡ events.old.items) }
{
    let kept = Vec::from_slice(alloc, bytes)?;
    events.reserve(1)?;
    keep_first(alloc, file)?;
    overlay_bytes(&mut file.bytes, place as usize, bytes)?;
    events.push(MemChange::Wrote(number, place, kept))?;
    Ok(())
}

// Records the file's first contents, unless they were recorded before.
fn keep_first(alloc: Global, file: &mut MemFile) -> Result<(), NoMemory>
    ensures bytes { file.new.bytes ≡ file.old.bytes }
    ensures first { first_bytes file.new ≡ first_bytes file.old }
    ensures kept { OnOk result (IsSome file.new.first) }
{
    if file.first.is_none() {
        file.first = Some(Vec::from_slice(alloc, &file.bytes)?);
    }
    Ok(())
}

/// Records the piece, and appends it.
pub fn print(
    alloc: Global,
    out: &mut Vec<u8>,
    events: &mut Vec<MemChange>,
    bytes: &[u8],
) -> Result<(), NoMemory>
    ensures out { OnOk result (out.new.items ≡ out.old.items ++ bytes.now) }
    ensures events { OnOk result (acts_of events.new.items
        ≡ acts_of events.old.items ++ prints bytes.now ∷ []) }
    ensures same_out { OnErr result (out.new.items ≡ out.old.items) }
    ensures same_events { OnErr result (events.new.items ≡ events.old.items) }
{
    let kept = Vec::from_slice(alloc, bytes)?;
    events.reserve(1)?;
    out.extend_from_slice(bytes)?;
    events.push(MemChange::Printed(kept))?;
    Ok(())
}

/// Writes bytes at an offset, over the bytes there and past the end of the file.
pub fn overlay_bytes(file: &mut Vec<u8>, place: usize, bytes: &[u8]) -> Result<(), NoMemory>
    requires { place ≤ length file.old.items }
    ensures ok { OnOk result (file.new.items ≡ overlay place bytes.now file.old.items) }
    ensures err { OnErr result (file.new.items ≡ file.old.items) }
{
    let room = file.len() - place;
    if bytes.len() <= room {
        file[place..place + bytes.len()].copy_from_slice(bytes);
        return Ok(());
    }
    let (over, past) = bytes.split_at(room);
    file.extend_from_slice(past)?;
    file[place..place + room].copy_from_slice(over);
    Ok(())
}
