//! What a crash leaves of a system in memory.
ghost use Rattle.std.specs.Prelude.{◌≡◌, ℕ, List, Option, length, IfOk, OnOk};
ghost use Rattle.board_core.specs.DiskModel.{MayLeaveFile};
ghost use Rattle.host_system.specs.Folder.{MayLeaveOne, MayLeaveName, MayLeaveFolder};
ghost use Rattle.mem_system.specs.MemSystem.{as_stopped, items_in, nothing_there};
ghost use Rattle.mem_system.specs.Steps.MemFiles.{Uses, disk_seen, entry_seen, held_in, other_seen, range_of};
ghost use Rattle.mem_system.specs.Steps.LeftFolder.{IsLaid, IsPadded};

use crate::mem_files::{MemEntry, MemFile, MemFiles, MemWrite, copy_bytes, overlaid};
use ras_base::NoMemory;
use std::alloc::Global;

/// What a crash of the machine leaves: the bytes of each file that exists, and the output.
#[derive(Drop)]
pub struct LeftFolder {
    /// `rasd.0`
    pub zero: Option<Vec<u8>>,
    /// `rasd.1`
    pub one: Option<Vec<u8>>,
    /// `rasd.store`
    pub store: Option<Vec<u8>>,
    /// `rasd.new`
    pub fresh: Option<Vec<u8>>,
    /// The printed text.
    pub out: Vec<u8>,
}

/// What a crash leaves of a write that isn't durable.
#[derive(Clone, Copy, Debug, PartialEq, Eq)]
pub enum WriteLeft {
    /// The bytes from before the write.
    Old,
    /// The bytes that were written.
    New,
    /// This byte at each offset of the write.
    Fill(u8),
}

/// What a crash leaves of a name.
#[derive(Clone, Copy)]
pub struct NamePick<'a> {
    /// Which of its files the name refers to on the disk: 0 is the present one, 1 the one before
    /// it, and so on back to the last sync of the folder. Greater numbers mean the oldest.
    pub back: usize,
    /// What is left of each write to that file since its last sync, the oldest write first.
    pub writes: &'a [WriteLeft],
    /// What is left of the writes after those in `writes`.
    pub rest: WriteLeft,
}

/// What a crash leaves of each name.
#[derive(Clone, Copy)]
pub struct StopPick<'a> {
    /// `rasd.0`
    pub zero: NamePick<'a>,
    /// `rasd.1`
    pub one: NamePick<'a>,
    /// `rasd.store`
    pub store: NamePick<'a>,
    /// `rasd.new`
    pub fresh: NamePick<'a>,
}

impl LeftFolder {
    /// Returns a folder without files, and with nothing printed.
    pub fn empty(alloc: Global) -> LeftFolder
        ensures { as_stopped result ≡ nothing_there }
    {
        LeftFolder {
            zero: None,
            one: None,
            store: None,
            fresh: None,
            out: Vec::new(alloc),
        }
    }

    /// Returns a copy.
    ///
    /// # Errors
    ///
    /// `NoMemory`: only if memory runs out.
    pub fn copy(&self, alloc: Global) -> Result<LeftFolder, NoMemory>
        ensures { IfOk result (λ copied. as_stopped copied ≡ as_stopped self.now) }
    {
        Ok(LeftFolder {
            zero: copy_bytes(alloc, &self.zero)?,
            one: copy_bytes(alloc, &self.one)?,
            store: copy_bytes(alloc, &self.store)?,
            fresh: copy_bytes(alloc, &self.fresh)?,
            out: Vec::from_slice(alloc, &self.out)?,
        })
    }
}

impl NamePick<'_> {
    fn of_write(&self, index: usize) -> WriteLeft {
        match self.writes.get(index) {
            Some(how) => *how,
            None => self.rest,
        }
    }
}

/// Returns what a crash leaves of a folder with these files and this output, if `pick` is what the
/// disk kept.
///
/// # Errors
///
/// `NoMemory`: only if memory runs out.
pub fn left_of_folder(
    alloc: Global,
    files: &MemFiles,
    out: &[u8],
    pick: &StopPick,
) -> Result<LeftFolder, NoMemory>
    ensures { IfOk result (λ left. (uses : Uses)
        → MayLeaveFolder (held_in files.now out.now uses) (as_stopped left)) }
{
    Ok(LeftFolder {
        zero: left_of_name(alloc, &files.zero, pick.zero)?,
        one: left_of_name(alloc, &files.one, pick.one)?,
        store: left_of_name(alloc, &files.store, pick.store)?,
        fresh: left_of_name(alloc, &files.fresh, pick.fresh)?,
        out: Vec::from_slice(alloc, out)?,
    })
}

fn left_of_name(
    alloc: Global,
    entry: &MemEntry,
    pick: NamePick,
) -> Result<Option<Vec<u8>>, NoMemory>
    ensures { IfOk result (λ left. MayLeaveName (entry_seen entry.now) (items_in left)) }
{
    match stood_for(entry, pick.back) {
        Some(file) => Ok(Some(left_of_file(alloc, file, pick)?)),
        None => Ok(None),
    }
}

// Returns what the name refers to now, or has referred to `back` changes ago.
fn stood_for(entry: &MemEntry, back: usize) -> &Option<MemFile>
    ensures { (left : Option (List ℕ)) → MayLeaveOne (other_seen result.now) left
        → MayLeaveName (entry_seen entry.now) left }
{
    let back = back.min(entry.others.len());
    if back == 0 {
        &entry.here
    } else {
        &entry.others[back - 1]
    }
}

// Returns a file's bytes as of its last sync, with what is left of each write since.
fn left_of_file(alloc: Global, file: &MemFile, pick: NamePick) -> Result<Vec<u8>, NoMemory>
    ensures { IfOk result (λ left. MayLeaveFile (disk_seen file.now) left.items) }
{
    let mut left = match &file.synced {
        Some(synced) => Vec::from_slice(alloc, synced)?,
        None => Vec::from_slice(alloc, &file.bytes)?,
    };
    for (index, write) in file.written.iter().enumerate() {
        left = after_write(alloc, left, write, pick.of_write(index))?;
    }
    Ok(left)
}

// Returns the bytes with what is left of a write.
fn after_write(
    alloc: Global,
    old: Vec<u8>,
    write: &MemWrite,
    how: WriteLeft,
) -> Result<Vec<u8>, NoMemory>
    ensures { IfOk result (λ new. IsLaid (range_of write.now) old.items new.items) }
{
    match how {
        WriteLeft::Old => Ok(old),
        WriteLeft::New => lay(alloc, old, write.place, &write.bytes),
        WriteLeft::Fill(byte) => {
            let count = (write.bytes.len() as u64).saturating_add(write.missing);
            let bytes = vec![in alloc; byte; count as usize]?;
            lay(alloc, old, write.place, &bytes)
        }
    }
}

// Returns the old bytes with others at an offset. If that is past their end, zeros fill the gap.
fn lay(alloc: Global, old: Vec<u8>, place: u64, bytes: &[u8]) -> Result<Vec<u8>, NoMemory>
    ensures { IfOk result (λ new. IsLaid
        (record { place = place; count = length bytes.now }) old.items new.items) }
{
    let mut old = old;
    pad(alloc, &mut old, place as usize)?;
    overlaid(alloc, &old, place as usize, bytes)
}

// Appends zeros up to a length.
fn pad(alloc: Global, bytes: &mut Vec<u8>, size: usize) -> Result<(), NoMemory>
    ensures { OnOk result (IsPadded size bytes.old.items bytes.new.items) }
{
    if bytes.len() < size {
        let gap = vec![in alloc; 0; size - bytes.len()]?;
        bytes.extend_from_slice(&gap)?;
    }
    Ok(())
}
