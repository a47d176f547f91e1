//! The files of a system in memory, with what the disk may have of each.
ghost use Rattle.std.specs.Prelude.{◌≡◌, ◌+◌, ◌≤◌, length, map, take, vec_len, vec_capacity, None, Some, IfOk, OnOk, OnErr};
ghost use Rattle.std.specs.Option.{option_map};
ghost use Rattle.board_core.specs.Told.{overlay};
ghost use Rattle.host_system.specs.Folder.{after_writing, with_now, renewed, settled_name, shut, entry_from, bytes_now};
ghost use Rattle.host_system.specs.Steps.FolderLemmas.{after_syncing, empty_file};
ghost use Rattle.host_system.specs.FolderPast.{bytes_or};
ghost use Rattle.std.specs.Borrow.{sem};
ghost use Rattle.mem_system.specs.MemSystem.{items_in};
ghost use Rattle.mem_system.specs.Steps.MemFiles.{entry_seen, file_seen, other_seen, mem_entry, range_of, IsChanged, IsRenewed, IsSame, IsRenamed, AreSettled, LendsEntry};

use board_core::FileNo;
use host_system::FileName;
use ras_base::NoMemory;
use std::alloc::{AllocError, Global};
use std::mem;

/// A file, and what the disk may have of it: its bytes as of its last sync, which are stored
/// separately once something is written, and the writes since.
#[derive(Drop)]
pub struct MemFile {
    pub bytes: Vec<u8>,
    pub synced: Option<Vec<u8>>,
    pub written: Vec<MemWrite>,
}

/// A write at an offset: the bytes that arrived, and the number of bytes that are missing.
#[derive(Drop)]
pub struct MemWrite {
    pub place: u64,
    pub bytes: Vec<u8>,
    pub missing: u64,
}

impl Clone for MemWrite {
    ghost is_clone = { λ old new. range_of new ≡ range_of old };

    fn clone(&self) -> Result<MemWrite, AllocError> {
        Ok(MemWrite {
            place: self.place,
            bytes: self.bytes.clone()?,
            missing: self.missing,
        })
    }
}

/// What a name refers to now, and what else it may refer to on the disk, the newest first.
#[derive(Drop)]
pub struct MemEntry {
    pub here: Option<MemFile>,
    pub others: Vec<Option<MemFile>>,
}

/// The four files of the folder, by name.
#[derive(Drop)]
pub struct MemFiles {
    pub zero: MemEntry,
    pub one: MemEntry,
    pub store: MemEntry,
    pub fresh: MemEntry,
}

impl MemFile {
    /// Returns an empty file.
    pub fn empty(alloc: Global) -> MemFile
        ensures { file_seen result ≡ empty_file }
    {
        MemFile {
            bytes: Vec::new(alloc),
            synced: None,
            written: Vec::new(alloc),
        }
    }

    // Writes bytes over the old ones and past their end.
    fn write(
        &mut self,
        alloc: Global,
        place: u64,
        bytes: &[u8],
        missing: u64,
    ) -> Result<(), NoMemory>
        requires within { place ≤ length self.old.bytes.items }
        ensures ok { OnOk result
            (file_seen self.new ≡ after_writing place (length bytes.now + missing) bytes.now
            (file_seen self.old)) }
        ensures err { OnErr result (file_seen self.new ≡ file_seen self.old) }
    {
        let made = overlaid(alloc, &self.bytes, place as usize, bytes)?;
        let bytes = Vec::from_slice(alloc, bytes)?;
        self.written.push(MemWrite {
            place,
            bytes,
            missing,
        })?;
        let before = mem::replace(&mut self.bytes, made);
        if self.synced.is_none() {
            self.synced = Some(before);
        }
        Ok(())
    }

    // Makes all of the file durable.
    fn sync(&mut self)
        ensures { file_seen self.new ≡ after_syncing (file_seen self.old) }
    {
        self.synced = None;
        self.written.clear();
    }

    // Returns a copy of the file.
    fn copy(&self, alloc: Global) -> Result<MemFile, NoMemory>
        ensures { IfOk result (λ copied. file_seen copied ≡ file_seen self.now) }
    {
        let bytes = Vec::from_slice(alloc, &self.bytes)?;
        let synced = copy_bytes(alloc, &self.synced)?;
        let written = self.written.clone()?;
        Ok(MemFile {
            bytes,
            synced,
            written,
        })
    }
}

impl MemEntry {
    /// Returns a name that refers to a file of these bytes, or to no file, and on the disk to
    /// nothing else.
    pub fn settled(alloc: Global, bytes: Option<Vec<u8>>) -> MemEntry
        ensures { entry_seen result ≡ entry_from (items_in bytes) }
    {
        let here = match bytes {
            Some(bytes) => Some(MemFile {
                bytes,
                synced: None,
                written: Vec::new(alloc),
            }),
            None => None,
        };
        MemEntry {
            here,
            others: Vec::new(alloc),
        }
    }

    /// Returns the file's length in bytes, if the file exists.
    pub fn length(&self) -> Option<u64>
        ensures { result ≡ option_map length (bytes_now (entry_seen self.now)) }
    {
        match &self.here {
            Some(file) => Some(file.bytes.len() as u64),
            None => None,
        }
    }

    /// Returns the file's bytes, or no bytes if it is missing.
    pub fn bytes(&self) -> &[u8]
        ensures { result.now ≡ bytes_or (bytes_now (entry_seen self.now)) }
    {
        match &self.here {
            Some(file) => &file.bytes,
            None => &[],
        }
    }

    /// Returns the first bytes of the file, at most `most`, if the file exists.
    pub fn front(&self, alloc: Global, most: u64) -> Result<Option<Vec<u8>>, NoMemory>
        ensures { IfOk result (λ found. option_map (λ v. v.items) found
            ≡ option_map (take most) (bytes_now (entry_seen self.now))) }
    {
        let Some(file) = &self.here else {
            return Ok(None);
        };
        let count = most.min(file.bytes.len() as u64) as usize;
        Ok(Some(Vec::from_slice(alloc, &file.bytes[..count])?))
    }

    // Writes into the file, which exists.
    fn write(
        &mut self,
        alloc: Global,
        place: u64,
        bytes: &[u8],
        missing: u64,
    ) -> Result<(), NoMemory>
        requires within { place ≤ length (bytes_or (bytes_now (entry_seen self.old))) }
        ensures ok { OnOk result (entry_seen self.new
            ≡ with_now (after_writing place (length bytes.now + missing) bytes.now)
            (entry_seen self.old)) }
        ensures err { OnErr result (entry_seen self.new ≡ entry_seen self.old) }
    {
        match &mut self.here {
            Some(file) => file.write(alloc, place, bytes, missing),
            None => Ok(()),
        }
    }

    fn sync(&mut self)
        ensures { entry_seen self.new ≡ with_now after_syncing (entry_seen self.old) }
    {
        if let Some(file) = &mut self.here {
            file.sync();
        }
    }

    // Lets the name refer to another file, or to no file.
    fn renew(&mut self, file: Option<MemFile>) -> Result<(), NoMemory>
        ensures ok { OnOk result (entry_seen self.new
            ≡ renewed (option_map file_seen file) shut (entry_seen self.old)) }
        ensures err { OnErr result (entry_seen self.new ≡ entry_seen self.old) }
        ensures full { OnErr result (vec_capacity self.old.others ≤ vec_len self.old.others) }
    {
        self.others.reserve(1)?;
        let before = mem::replace(&mut self.here, file);
        self.others.insert(0, before)?;
        Ok(())
    }

    fn copy(&self, alloc: Global) -> Result<MemEntry, NoMemory>
        ensures { IfOk result (λ copied. entry_seen copied ≡ entry_seen self.now) }
    {
        let here = copy_file(alloc, &self.here)?;
        let others = copy_others(alloc, &self.others)?;
        Ok(MemEntry { here, others })
    }

    // Makes the name durable as it is.
    fn settle(&mut self)
        ensures { entry_seen self.new ≡ settled_name (entry_seen self.old) }
    {
        self.others.clear();
    }
}

impl MemFiles {
    /// Returns what a name refers to.
    pub fn get(&self, name: FileName) -> &MemEntry
        ensures { result.now ≡ mem_entry name self.now }
    {
        match name {
            FileName::Journal(FileNo::Zero) => &self.zero,
            FileName::Journal(FileNo::One) => &self.one,
            FileName::Store => &self.store,
            FileName::New => &self.fresh,
        }
    }

    fn get_mut(&mut self, name: FileName) -> &mut MemEntry
        ensures* writes_back { sem 𝓛 (LendsEntry name self.entry result) }
        ensures value { result.now ≡ mem_entry name self.old }
    {
        match name {
            FileName::Journal(FileNo::Zero) => &mut self.zero,
            FileName::Journal(FileNo::One) => &mut self.one,
            FileName::Store => &mut self.store,
            FileName::New => &mut self.fresh,
        }
    }

    /// Writes into a file that exists.
    pub fn write(
        &mut self,
        alloc: Global,
        name: FileName,
        place: u64,
        bytes: &[u8],
        missing: u64,
    ) -> Result<(), NoMemory>
        requires within { place
            ≤ length (bytes_or (bytes_now (entry_seen (mem_entry name self.old)))) }
        ensures ok { OnOk result (IsChanged name
            (with_now (after_writing place (length bytes.now + missing) bytes.now)) self.old
            self.new) }
        ensures err { OnErr result (IsSame self.old self.new) }
    {
        self.get_mut(name).write(alloc, place, bytes, missing)
    }

    /// Makes a file's bytes durable.
    pub fn sync(&mut self, name: FileName)
        ensures { IsChanged name (with_now after_syncing) self.old self.new }
    {
        self.get_mut(name).sync();
    }

    /// Lets a name refer to another file, or to no file.
    pub fn renew(&mut self, name: FileName, file: Option<MemFile>) -> Result<(), NoMemory>
        ensures ok { OnOk result (IsRenewed name (option_map file_seen file) self.old
            self.new) }
        ensures err { OnErr result (IsSame self.old self.new) }
    {
        self.get_mut(name).renew(file)
    }

    /// Gives the new store's file the name of the old one.
    pub fn rename(&mut self, alloc: Global) -> Result<(), NoMemory>
        ensures ok { OnOk result (IsRenamed self.old self.new) }
        ensures err { OnErr result (IsSame self.old self.new) }
    {
        let moved = copy_file(alloc, &self.fresh.here)?;
        self.store.others.reserve(1)?;
        self.fresh.renew(None)?;
        self.store.renew(moved)
    }

    /// Returns a copy of the files.
    pub fn copy(&self, alloc: Global) -> Result<MemFiles, NoMemory>
        ensures { IfOk result (λ copied. IsSame self.now copied) }
    {
        let zero = self.zero.copy(alloc)?;
        let one = self.one.copy(alloc)?;
        let store = self.store.copy(alloc)?;
        let fresh = self.fresh.copy(alloc)?;
        Ok(MemFiles {
            zero,
            one,
            store,
            fresh,
        })
    }

    /// Makes all names durable as they are.
    pub fn settle(&mut self)
        ensures { AreSettled self.old self.new }
    {
        self.zero.settle();
        self.one.settle();
        self.store.settle();
        self.fresh.settle();
    }
}

fn copy_file(alloc: Global, file: &Option<MemFile>) -> Result<Option<MemFile>, NoMemory>
    ensures { IfOk result
        (λ copied. option_map file_seen copied ≡ option_map file_seen file.now) }
{
    match file {
        Some(file) => Ok(Some(file.copy(alloc)?)),
        None => Ok(None),
    }
}

fn copy_others(alloc: Global, others: &[Option<MemFile>]) -> Result<Vec<Option<MemFile>>, NoMemory>
    ensures { IfOk result (λ copied. map other_seen copied.items ≡ map other_seen others.now) }
{
    let mut copied = Vec::new(alloc);
    for other in others {
        let made = copy_file(alloc, other)?;
        copied.push(made)?;
    }
    Ok(copied)
}

/// Returns a copy of the bytes, if there are any.
pub fn copy_bytes(alloc: Global, bytes: &Option<Vec<u8>>) -> Result<Option<Vec<u8>>, NoMemory>
    ensures { IfOk result (λ copied. items_in copied ≡ items_in bytes.now) }
{
    match bytes {
        Some(bytes) => Ok(Some(Vec::from_slice(alloc, bytes)?)),
        None => Ok(None),
    }
}

/// Returns the old bytes with others written over them at an offset, and past their end.
pub fn overlaid(alloc: Global, old: &[u8], place: usize, bytes: &[u8]) -> Result<Vec<u8>, NoMemory>
    requires { place ≤ length old.now }
    ensures { IfOk result (λ made. made.items ≡ overlay place bytes.now old.now) }
{
    let mut made = Vec::from_slice(alloc, &old[..place])?;
    made.extend_from_slice(bytes)?;
    let end = place.saturating_add(bytes.len()).min(old.len());
    made.extend_from_slice(&old[end..])?;
    Ok(made)
}
