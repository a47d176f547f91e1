//! A file of a board in memory as a crash may leave it.
ghost use Rattle.std.specs.Prelude.{◌≡◌, ◌↔◌, ◌≤◌, IsTrue, [], ◌∷◌, length, take, drop, IfOk, OnOk};
ghost use Rattle.board_core.specs.Steps.FileHistory.{bytes_after, bytes_after_all, disk_after_all, range_of, ranges_of, ArePartedAtSync};
ghost use Rattle.board_core.specs.Steps.History.{first_bytes};
ghost use Rattle.board_core.specs.DiskModel.{settled_file};
ghost use Rattle.board_core.specs.declared.history.MemChange.TheVariants.{Synced};
ghost use Rattle.board_core.specs.Pick.{IsFilled, IsPicked};

use crate::events::overlay_bytes;
use crate::history::{MemChange, MemFile};
use crate::{FileNo, Pick};
use ras_base::NoMemory;

/// Returns the file of this number in the state that `pick` names, from all events so far.
pub fn picked_bytes(
    file: MemFile,
    events: &[MemChange],
    number: FileNo,
    pick: Pick,
) -> Result<Vec<u8>, NoMemory>
    ensures { IfOk result (λ taken. IsPicked pick
        (disk_after_all number events.now (first_bytes file)
        (settled_file (first_bytes file))) file.bytes.items taken.items) }
{
    let MemFile { mut bytes, first } = file;
    let settled = events_to_last_sync(events, number);
    match pick {
        Pick::New => Ok(bytes),
        Pick::Fill(byte) => {
            fill(&mut bytes, &events[settled..], number, byte);
            Ok(bytes)
        }
        Pick::Old => {
            let mut synced = first.unwrap_or(bytes);
            repeat(&mut synced, &events[..settled], number)?;
            Ok(synced)
        }
    }
}

// How many events there are up to and including the last sync of a file: 0 if it wasn't synced.
fn events_to_last_sync(events: &[MemChange], number: FileNo) -> usize
    ensures within { result ≤ length events.now }
    ensures parted { ArePartedAtSync number (take result events.now)
        (drop result events.now) events.now }
{
    let mut count = 0;
    for (place, event) in events.iter().enumerate() {
        if syncs(event, number) {
            count = place + 1;
        }
    }
    count
}

fn syncs(event: &MemChange, number: FileNo) -> bool
    ensures { IsTrue result ↔ (event.now ≡ Synced number) }
{
    match event {
        MemChange::Synced(file) => *file == number,
        _ => false,
    }
}

// Writes again what these events wrote into a file.
fn repeat(bytes: &mut Vec<u8>, events: &[MemChange], number: FileNo) -> Result<(), NoMemory>
    ensures { OnOk result (bytes.new.items ≡ bytes_after_all number events.now
        bytes.old.items) }
{
    for event in events {
        repeat_one(bytes, event, number)?;
    }
    Ok(())
}

// Writes again what one event wrote. No write began past the file's end.
fn repeat_one(bytes: &mut Vec<u8>, event: &MemChange, number: FileNo) -> Result<(), NoMemory>
    ensures { OnOk result (bytes.new.items ≡ bytes_after number event.now bytes.old.items) }
{
    match event {
        MemChange::Wrote(file, place, written) if *file == number => {
            let place = (*place as usize).min(bytes.len());
            overlay_bytes(bytes, place, written)
        }
        _ => Ok(()),
    }
}

// Sets each byte that these events wrote into a file.
fn fill(bytes: &mut [u8], events: &[MemChange], number: FileNo, byte: u8)
    ensures { IsFilled byte (ranges_of number events.now) bytes.old bytes.new }
{
    for event in events {
        fill_one(bytes, event, number, byte);
    }
}

fn fill_one(bytes: &mut [u8], event: &MemChange, number: FileNo, byte: u8)
    ensures { IsFilled byte (range_of number event.now) bytes.old bytes.new }
{
    match event {
        MemChange::Wrote(file, place, written) if *file == number => {
            fill_range(bytes, *place as usize, written.len(), byte);
        }
        _ => {}
    }
}

// Sets the bytes of a range that are in the file.
fn fill_range(bytes: &mut [u8], place: usize, count: usize, byte: u8)
    ensures { IsFilled byte (record { place = place; count = count } ∷ []) bytes.old bytes.new }
{
    let start = place.min(bytes.len());
    let end = start.saturating_add(count).min(bytes.len());
    bytes[start..end].fill(byte);
}
