//! A system in memory.
ghost use Rattle.std.specs.Prelude.{◌≡◌, ◌+◌, ◌^◌, ◌<◌, ◌≤◌, [], ◌∷◌, ◌++◌, length, map, take, Some, IfSome, IfOk, OnOk, OnErr};
ghost use Rattle.std.specs.Option.{option_map, is_some};
ghost use Rattle.host_system.specs.Folder.{MayLeaveFolder, settled_folder, made, opens, locks, loses, removed, renamed, synced, synced_names, wrote, printed};
ghost use Rattle.host_system.specs.FolderPast.{MayLeaveFolderSince, HasFile, file_bytes, folder_of};
ghost use Rattle.mem_system.specs.MemSystem.{as_stopped, nothing_there, begun_over, chosen_at, chosen_next, choosing, counted, items_in, other, starving, with_change, work_of};
ghost use Rattle.mem_system.specs.Steps.Calls.{choice_seen, fault_seen, is_whole, printed_by, written_by, Ends, Looks};
ghost use Rattle.mem_system.specs.Steps.Kept.{IsCopied};
ghost use Rattle.mem_system.specs.Steps.MemFiles.{number_of};

mod calls;
mod mem_kernel;
mod reads;

use crate::left_folder::{LeftFolder, StopPick, left_of_folder};
use crate::mem_files::{MemEntry, MemFile, MemFiles};
use board_core::{Failed, FileNo};
use host_system::{FileName, Notes};
pub use mem_kernel::MemKernel;
use ras_base::NoMemory;
use std::alloc::Global;
use std::marker::Model;

/// A system in memory, which is modelled and fails at chosen calls.
///
/// It stores what the disk may have of each file and of each name, so that it can say what a crash
/// leaves. A call fails if and only if it was chosen to or if memory for it runs out; in the second
/// case it has done nothing, and the count `starved` rises.
#[derive(Drop)]
pub struct MemSystem {
    alloc: Global,
    first: LeftFolder,
    files: MemFiles,
    out: Vec<u8>,
    fails: Vec<ChosenFailure>,
    made: u64,
    starved: u64,
    stop: u64,
    kept: Kept,
    notes: Notes,
    faults: u64,
}

/// The state before a chosen call.
#[derive(Drop)]
enum Kept {
    /// The call wasn't made yet.
    Nothing,
    /// The files and the output before the call.
    Folder(MemFiles, Vec<u8>),
    /// Memory ran out.
    NoMemory,
}

// A call, by its number, that is to fail.
#[derive(Drop)]
struct ChosenFailure {
    call: u64,
    fault: Fault,
}

// What a failing call has done: an effect, or a write of these bytes in place of those asked for.
#[derive(Drop)]
enum Fault {
    Does(Effect),
    Writes(Vec<u8>),
}

/// What a failing call has done. Whatever is chosen, a failing sync of a file loses the file, and a
/// failing sync of the names does nothing.
#[derive(Clone, Copy, Debug, PartialEq, Eq)]
pub enum Effect {
    /// Nothing.
    Nothing,
    /// Everything asked for: a write, a print, or making, removing or renaming a file.
    All,
    /// A write or a print of the first bytes only, at most this many.
    Part(u64),
}

impl Model for MemSystem {
    ghost use Rattle.std.specs.Prelude.{map};
    ghost use Rattle.mem_system.specs.MemSystem.{MemState, as_stopped, past_noted};
    ghost use Rattle.mem_system.specs.Steps.Calls.{choice_seen};
    ghost use Rattle.mem_system.specs.Steps.Kept.{Holds};

    ghost Value = { MemState };

    ghost view = { λ s. record {
      past = past_noted (as_stopped s.first) s.notes.calls;
      fails = map choice_seen s.fails.items;
      made = s.made;
      starved = s.starved;
      faults = s.faults;
    } };

    ghost invariant = { λ s.
        Holds (past_noted (as_stopped s.first) s.notes.calls) s.files s.out.items s.kept };
}

fn kept_folder(alloc: Global, files: &MemFiles, out: &[u8]) -> Kept
    ensures { IsCopied files.now out.now result }
{
    let Ok(files) = files.copy(alloc) else {
        return Kept::NoMemory;
    };
    let Ok(out) = Vec::from_slice(alloc, out) else {
        return Kept::NoMemory;
    };
    Kept::Folder(files, out)
}

fn number(name: FileName) -> u64
    ensures is { result ≡ number_of name }
    ensures below { result < 4 }
{
    match name {
        FileName::Journal(FileNo::Zero) => 0,
        FileName::Journal(FileNo::One) => 1,
        FileName::Store => 2,
        FileName::New => 3,
    }
}

fn note(notes: &mut Notes, change: u64, name: FileName, place: u64, count: u64, bytes: &[u8])
    ensures { notes.new.calls ≡ notes.old.calls
        ++ ((change ∷ number_of name ∷ place ∷ count ∷ []), bytes.now) ∷ [] }
{
    notes.note(&[change, number(name), place, count], bytes);
}

impl MemSystem {
    /// Returns a system with an empty folder, and with nothing printed.
    pub fn new(alloc: Global) -> MemSystem
        ensures { result ≡ begun_over nothing_there }
    {
        MemSystem::begun(alloc, LeftFolder::empty(alloc), LeftFolder::empty(alloc))
    }

    /// Returns a system whose folder has these files, all of them durable, and with nothing
    /// printed.
    ///
    /// # Errors
    ///
    /// `NoMemory`: only if memory runs out.
    pub fn over(alloc: Global, start: &LeftFolder) -> Result<MemSystem, NoMemory>
        ensures { IfOk result (λ system. system ≡ begun_over (as_stopped start.now)) }
    {
        let first = start.copy(alloc)?;
        Ok(MemSystem::begun(alloc, first, start.copy(alloc)?))
    }

    // Returns a system that begins with these files, which are given twice.
    fn begun(alloc: Global, first: LeftFolder, start: LeftFolder) -> MemSystem
        requires { as_stopped start ≡ as_stopped first }
        ensures { result ≡ begun_over (as_stopped first) }
    {
        let first = LeftFolder {
            zero: first.zero,
            one: first.one,
            store: first.store,
            fresh: first.fresh,
            out: Vec::new(alloc),
        };
        MemSystem {
            alloc,
            first,
            files: MemFiles {
                zero: MemEntry::settled(alloc, start.zero),
                one: MemEntry::settled(alloc, start.one),
                store: MemEntry::settled(alloc, start.store),
                fresh: MemEntry::settled(alloc, start.fresh),
            },
            out: Vec::new(alloc),
            fails: Vec::new(alloc),
            made: 0,
            starved: 0,
            stop: 0,
            kept: Kept::Nothing,
            notes: Notes::new(),
            faults: 0,
        }
    }

    /// Makes the call with this number fail, after it has done `effect`. All calls of the trait are
    /// numbered from 1. The first choice for a number applies.
    ///
    /// # Errors
    ///
    /// `NoMemory`: only if memory runs out.
    pub fn fail_at(&mut self, call: u64, effect: Effect) -> Result<(), NoMemory>
        ensures ok { OnOk result (self.new ≡ choosing call (work_of effect) self.old) }
        ensures err { OnErr result (self.new ≡ self.old) }
    {
        let fault = Fault::Does(effect);
        self.fails.push(ChosenFailure { call, fault })?;
        Ok(())
    }

    /// Makes the call with this number fail. A write has then written these bytes instead of those
    /// asked for, at most as many as were asked for. Any other call has done the same as with
    /// `Effect::Nothing`.
    ///
    /// # Errors
    ///
    /// `NoMemory`: only if memory runs out.
    pub fn fail_writing(&mut self, call: u64, bytes: Vec<u8>) -> Result<(), NoMemory>
        ensures ok { OnOk result (self.new ≡ choosing call (other bytes.items) self.old) }
        ensures err { OnErr result (self.new ≡ self.old) }
    {
        let fault = Fault::Writes(bytes);
        self.fails.push(ChosenFailure { call, fault })?;
        Ok(())
    }

    /// Returns how many calls failed because memory ran out.
    pub fn starved(&self) -> u64
        ensures { result ≡ self.now.starved }
    {
        self.starved
    }

    /// Returns what a crash leaves now, if `pick` is what the disk kept.
    ///
    /// # Errors
    ///
    /// `NoMemory`: only if memory runs out.
    pub fn left(&self, pick: &StopPick) -> Result<LeftFolder, NoMemory>
        ensures { IfOk result (λ left. MayLeaveFolder (folder_of self.now.past) (as_stopped left)) }
    {
        left_of_folder(self.alloc, &self.files, &self.out, pick)
    }

    /// Chooses the point before the call with this number, for `left_before`. Has to be called
    /// before that call is made. The last choice applies.
    pub fn stop_before(&mut self, call: u64)
        ensures { self.new ≡ self.old }
    {
        self.stop = call;
    }

    /// Returns what a crash at the chosen point left, if `pick` is what the disk kept, or `None` if
    /// that point wasn't reached.
    ///
    /// # Errors
    ///
    /// `NoMemory`: only if memory ran out, now or at the chosen point.
    pub fn left_before(&self, pick: &StopPick) -> Result<Option<LeftFolder>, NoMemory>
        ensures { IfOk result (λ found. IfSome found (λ left.
            MayLeaveFolderSince (settled_folder self.now.past.first) self.now.past.changes 0
            (as_stopped left))) }
    {
        match &self.kept {
            Kept::Nothing => Ok(None),
            Kept::Folder(files, out) => {
                let left = left_of_folder(self.alloc, files, out, pick)?;
                Ok(Some(left))
            }
            Kept::NoMemory => Err(NoMemory),
        }
    }

    // Stores the present state for `left_before`.
    fn keep(&mut self)
        ensures { self.new ≡ self.old }
    {
        self.kept = kept_folder(self.alloc, &self.files, &self.out);
    }

    // Returns what was chosen for the next call, if it is to fail.
    fn chosen(&self) -> Option<&Fault>
        ensures { option_map (λ f. fault_seen f.now) result ≡ chosen_next self.now }
    {
        chosen_in(&self.fails, self.made.saturating_add(1))
    }

    // Returns whether the next call makes its change, if the change is made in full or not at all.
    fn does_all(&self) -> bool
        ensures { result ≡ is_whole (chosen_next self.now) }
    {
        match self.chosen() {
            None => true,
            Some(Fault::Does(Effect::All)) => true,
            Some(_) => false,
        }
    }

    // Returns the bytes that arrive if the next call writes these, unless none do.
    fn arriving(&self, bytes: &[u8]) -> Result<Option<Vec<u8>>, NoMemory>
        ensures { IfOk result
            (λ came. items_in came ≡ written_by (chosen_next self.now) bytes.now) }
    {
        let count = bytes.len() as u64;
        match self.chosen() {
            None => copied(self.alloc, bytes),
            Some(Fault::Does(Effect::Nothing)) => Ok(None),
            Some(Fault::Does(Effect::All)) => copied(self.alloc, bytes),
            Some(Fault::Does(Effect::Part(most))) => copied(self.alloc, front(bytes, *most)),
            Some(Fault::Writes(others)) => copied(self.alloc, front(others, count)),
        }
    }

    // Returns the bytes that are printed if the next call prints these.
    fn printing<'a>(&self, bytes: &'a [u8]) -> &'a [u8]
        ensures { result.now ≡ printed_by (chosen_next self.now) bytes.now }
    {
        match self.chosen() {
            None => bytes,
            Some(Fault::Does(Effect::All)) => bytes,
            Some(Fault::Does(Effect::Part(most))) => front(bytes, *most),
            Some(_) => &[],
        }
    }

    // Counts a call, and returns whether it was chosen to fail.
    fn begin(&mut self) -> bool
        ensures counted { self.new ≡ counted self.old }
        ensures chosen { result ≡ is_some (chosen_next self.old) }
    {
        let is_chosen = self.chosen().is_some();
        self.made = self.made.saturating_add(1);
        if self.made == self.stop {
            self.keep();
        }
        is_chosen
    }

    // Ends a call: it fails if it was chosen to fail, or if memory ran out.
    fn end(&mut self, is_chosen: bool, made: Result<(), NoMemory>) -> Result<(), Failed>
        ensures ends { Ends is_chosen made self.old self.new result }
        ensures later { self.old.faults ≤ self.new.faults }
    {
        if made.is_err() {
            return Err(self.starve());
        }
        if is_chosen {
            self.faults = self.faults.saturating_add(1);
            return Err(Failed);
        }
        Ok(())
    }

    // Counts a call in which memory ran out.
    fn starve(&mut self) -> Failed
        ensures starves { self.new ≡ starving self.old }
        ensures later { self.old.faults ≤ self.new.faults }
    {
        self.starved = self.starved.saturating_add(1);
        self.faults = self.faults.saturating_add(1);
        Failed
    }

    // Makes a call that changes nothing.
    fn look(&mut self) -> Result<(), Failed>
        ensures looks { Looks self.old self.new result }
        ensures later { self.old.faults ≤ self.new.faults }
    {
        let is_chosen = self.begin();
        self.end(is_chosen, Ok(()))
    }

    fn make_file(&mut self, name: FileName) -> Result<(), NoMemory>
        ensures ok { OnOk result (self.new ≡ with_change (made name) self.old) }
        ensures err { OnErr result (self.new ≡ self.old) }
    {
        let file = MemFile::empty(self.alloc);
        self.files.renew(name, Some(file))?;
        note(&mut self.notes, 2, name, 0, 0, &[]);
        Ok(())
    }

    fn open_file(&mut self, name: FileName)
        ensures { self.new ≡ with_change (opens name) self.old }
    {
        note(&mut self.notes, 3, name, 0, 0, &[]);
    }

    fn lock_file(&mut self, name: FileName)
        ensures { self.new ≡ with_change (locks name) self.old }
    {
        note(&mut self.notes, 4, name, 0, 0, &[]);
    }

    fn remove_file(&mut self, name: FileName) -> Result<(), NoMemory>
        ensures ok { OnOk result (self.new ≡ with_change (removed name) self.old) }
        ensures err { OnErr result (self.new ≡ self.old) }
    {
        self.files.renew(name, None)?;
        note(&mut self.notes, 6, name, 0, 0, &[]);
        Ok(())
    }

    fn rename_file(&mut self) -> Result<(), NoMemory>
        ensures ok { OnOk result (self.new ≡ with_change renamed self.old) }
        ensures err { OnErr result (self.new ≡ self.old) }
    {
        self.files.rename(self.alloc)?;
        note(&mut self.notes, 7, FileName::New, 0, 0, &[]);
        Ok(())
    }

    fn sync_file(&mut self, name: FileName)
        ensures { self.new ≡ with_change (synced name) self.old }
    {
        self.files.sync(name);
        note(&mut self.notes, 1, name, 0, 0, &[]);
    }

    // Notes that no call may rely on a file's bytes any more.
    fn lose_file(&mut self, name: FileName)
        ensures { self.new ≡ with_change (loses name) self.old }
    {
        note(&mut self.notes, 5, name, 0, 0, &[]);
    }

    fn settle(&mut self)
        ensures { self.new ≡ with_change synced_names self.old }
    {
        self.files.settle();
        note(&mut self.notes, 8, FileName::New, 0, 0, &[]);
    }

    // Writes bytes; `missing` bytes are missing at the end.
    fn write(
        &mut self,
        name: FileName,
        place: u64,
        bytes: &[u8],
        missing: u64,
    ) -> Result<(), NoMemory>
        requires there { HasFile name self.old.past }
        requires within { place ≤ length (file_bytes name self.old.past) }
        requires fits { length bytes.now + missing < 2 ^ 64 }
        ensures ok { OnOk result (self.new ≡ with_change
            (wrote name place (length bytes.now + missing) bytes.now) self.old) }
        ensures err { OnErr result (self.new ≡ self.old) }
    {
        self.files.write(self.alloc, name, place, bytes, missing)?;
        let count = bytes.len() as u64 + missing;
        note(&mut self.notes, 0, name, place, count, bytes);
        Ok(())
    }

    // Appends to the output. If memory runs out, nothing is appended.
    fn append(&mut self, bytes: &[u8]) -> Result<(), NoMemory>
        ensures ok { OnOk result (self.new ≡ with_change (printed bytes.now) self.old) }
        ensures err { OnErr result (self.new ≡ with_change (printed []) self.old) }
    {
        if self.out.extend_from_slice(bytes).is_err() {
            note(&mut self.notes, 9, FileName::New, 0, 0, &[]);
            return Err(NoMemory);
        }
        note(&mut self.notes, 9, FileName::New, 0, 0, bytes);
        Ok(())
    }
}

// Returns the first failure that was chosen for a call with this number.
fn chosen_in(fails: &[ChosenFailure], call: u64) -> Option<&Fault>
    ensures { option_map (λ f. fault_seen f.now) result
        ≡ chosen_at call (map choice_seen fails.now) }
{
    for choice in fails {
        if choice.call == call {
            return Some(&choice.fault);
        }
    }
    None
}

// Returns the first bytes, at most `most`.
fn front(bytes: &[u8], most: u64) -> &[u8]
    ensures { result.now ≡ take most bytes.now }
{
    &bytes[..most.min(bytes.len() as u64) as usize]
}

fn copied(alloc: Global, bytes: &[u8]) -> Result<Option<Vec<u8>>, NoMemory>
    ensures { IfOk result (λ made. items_in made ≡ Some bytes.now) }
{
    Ok(Some(Vec::from_slice(alloc, bytes)?))
}
