//! A kernel in memory.
ghost use Rattle.std.specs.Prelude.{◌≡◌, ◌+◌, ◌<◌, ◌≤◌, length, Some, IfSome, true};
ghost use Rattle.std.specs.List.{list_any};
ghost use Rattle.host_system.specs.FolderPast.{FolderPast, HasFile, file_bytes};
ghost use Rattle.host_system.specs.Kernel.{IsFound, failed_any, failed_make, failed_names, failed_sync, name_of};
ghost use Rattle.mem_system.specs.MemKernel.{change_prepared, Serves};
ghost use Rattle.mem_system.specs.SystemCall.{to_make, to_write_at, to_sync, to_remove, to_rename, to_sync_names, to_print};

use super::{MemSystem, number};
use board_core::Failed;
use host_system::{
    FailedCalls, FileKind, FileName, FoundFile, Held, Kernel, Note, Place, Refusal, System, Way,
};
use ras_base::NoMemory;

/// A kernel in memory over the files of a system in memory, which is modelled.
///
/// It shows that the clauses of `Kernel` can be met, by calls that succeed and by calls that fail. A
/// call that makes a file, writes, syncs, removes, renames or prints is the system's: it fails, as
/// `Refusal::Other`, where a failure was chosen or memory runs out. The other calls make no call of
/// the system. They fail if the file is missing or isn't kept, or if memory runs out.
///
/// Each name's file has a number and a link of its own, so rasd's checks of the names pass.
#[derive(Drop)]
pub struct MemKernel {
    system: MemSystem,
    prepared: Prepared,
    way: Way,
    // Whether a file is kept, at each name's number.
    kept: [bool; 4],
    failed: FailedCalls,
}

/// What the last calls have prepared.
#[derive(Clone, Copy)]
enum Prepared {
    /// Nothing.
    Nothing,
    /// The file of this name is open, and may be kept.
    Opened(FileName),
    /// The file of this name is locked, which may be noted.
    Locked(FileName),
}

impl MemKernel {
    /// Returns a kernel over a system's files, which keeps none of them.
    pub fn over(system: MemSystem) -> MemKernel
        ensures system { result.system ≡ system }
        ensures quiet { result.failed ≡ 0 }
    {
        MemKernel {
            system,
            prepared: Prepared::Nothing,
            way: Way::Read,
            kept: [false; 4],
            failed: FailedCalls::none(),
        }
    }

    fn found(&self, name: FileName) -> Option<FoundFile>
        ensures { IsFound name result self.now.system.past }
    {
        match self.system.length(name) {
            Some(length) => Some(file_of(number(name), length)),
            None => None,
        }
    }

    // Notes whether a file is kept as this name's.
    fn set_kept(&mut self, name: FileName, is_kept: bool)
        ensures system { self.new.system ≡ self.old.system }
        ensures prepared { self.new.prepared ≡ self.old.prepared }
        ensures way { self.new.way ≡ self.old.way }
        ensures failed { self.new.failed ≡ self.old.failed }
    {
        self.kept[number(name) as usize] = is_kept;
    }
}

impl Kernel for MemKernel {
    ghost told = { λ s. Some s.system.past };

    ghost prepared = { λ s. change_prepared s.prepared };

    ghost way = { λ s. s.way };

    ghost keeps = { λ s. list_any (λ is_kept. is_kept) s.kept };

    ghost fails = { λ s. s.failed };

    // No name is a symlink, so all files are in one folder.
    ghost reaches = { λ _ _. true };

    fn keeps_any(&self) -> bool {
        self.kept.iter().any(|is_kept| *is_kept)
    }

    fn is_kept(&self, name: FileName) -> bool {
        self.kept[number(name) as usize]
    }

    fn lstat(&mut self, place: Place) -> Result<Option<FoundFile>, Refusal> {
        self.stat(place)
    }

    fn stat(&mut self, place: Place) -> Result<Option<FoundFile>, Refusal> {
        match place {
            Place::Name(name) => Ok(self.found(name)),
            Place::Left => Ok(None),
            Place::Output => Ok(Some(file_of(4, self.system.out.len() as u64))),
            Place::Process => Ok(Some(file_of(5, 0))),
        }
    }

    fn fstat(&mut self, held: Held) -> Result<FoundFile, Refusal> {
        let answer = self.found(name_of(held)).ok_or(Refusal::NotOpen);
        self.failed.count(answer)
    }

    // No call uses a descriptor, so each file has the first one above the standard streams'.
    fn number(&mut self, _held: Held) -> Result<i32, Refusal> {
        Ok(3)
    }

    fn dup(&mut self, _held: Held) -> Result<(), Refusal> {
        Ok(())
    }

    fn open(&mut self, name: FileName, how: Way) -> Result<(), Refusal> {
        self.prepared = Prepared::Nothing;
        self.way = how;
        if self.system.length(name).is_none() {
            return self.failed.count(Err(Refusal::Other));
        }
        self.prepared = Prepared::Opened(name);
        Ok(())
    }

    fn keep(&mut self, name: FileName) {
        self.prepared = Prepared::Nothing;
        self.set_kept(name, true);
        self.system.open_file(name);
    }

    fn close(&mut self) {
        self.prepared = Prepared::Nothing;
    }

    fn create(&mut self, name: FileName, _mode: u32) -> Result<(), Refusal>
        ensures serves { Serves (to_make name) result self.old.system self.new.system }
        ensures cause { self.new.failed ≡ self.old.failed + failed_make result }
    {
        self.prepared = Prepared::Nothing;
        match self.system.make(name) {
            Ok(()) => {
                self.set_kept(name, true);
                Ok(())
            }
            Err(Failed) => self.failed.count_make(Err(Refusal::Other)),
        }
    }

    fn fchown(&mut self, _name: FileName, _owner: u32, _group: u32) -> Result<(), Refusal> {
        Ok(())
    }

    fn fchmod(&mut self, _name: FileName, _mode: u32) -> Result<(), Refusal> {
        Ok(())
    }

    fn flock(&mut self, name: FileName) -> Result<(), Refusal> {
        self.prepared = Prepared::Locked(name);
        Ok(())
    }

    fn open_folder(&mut self, _name: FileName) -> Result<(), Refusal> {
        Ok(())
    }

    fn note(&mut self, note: Note) {
        self.prepared = Prepared::Nothing;
        match note {
            Note::Locked(name) => self.system.lock_file(name),
            Note::Lost(name) => self.system.lose_file(name),
            Note::Absent(file) => self.system.sync_file(FileName::Journal(file)),
            Note::Names => self.system.settle(),
        }
    }

    fn read(&mut self, name: FileName, most: u64) -> Result<Vec<u8>, Refusal> {
        self.prepared = Prepared::Nothing;
        match self.system.front(name, most) {
            Ok(Some(bytes)) => Ok(bytes),
            Ok(None) => self.failed.count(Err(Refusal::NotOpen)),
            Err(NoMemory) => self.failed.count(Err(Refusal::Other)),
        }
    }

    fn pread(&mut self, name: FileName, place: u64, buf: &mut [u8]) -> Result<(), Refusal> {
        self.system.fill(name, place, buf);
        Ok(())
    }

    fn pwrite(&mut self, name: FileName, place: u64, bytes: &[u8]) -> Result<(), Refusal>
        requires there { HasFile name self.old.system.past }
        requires within { place ≤ length (file_bytes name self.old.system.past) }
        ensures serves { Serves (to_write_at name place bytes.now) result self.old.system
            self.new.system }
        ensures cause { self.new.failed ≡ self.old.failed + failed_any result }
    {
        self.prepared = Prepared::Nothing;
        match self.system.write_at(name, place, bytes) {
            Ok(()) => Ok(()),
            Err(Failed) => self.failed.count(Err(Refusal::Other)),
        }
    }

    fn fsync(&mut self, held: Held) -> Result<(), Refusal>
        ensures serves { Serves (to_sync (name_of held)) result self.old.system self.new.system }
        ensures cause { self.new.failed ≡ self.old.failed + failed_sync held result }
    {
        self.prepared = Prepared::Nothing;
        match self.system.sync(name_of(held)) {
            Ok(()) => Ok(()),
            Err(Failed) => self.failed.count_sync(held, Err(Refusal::Other)),
        }
    }

    fn fdatasync(&mut self, held: Held) -> Result<(), Refusal>
        ensures serves { Serves (to_sync (name_of held)) result self.old.system self.new.system }
        ensures cause { self.new.failed ≡ self.old.failed + failed_sync held result }
    {
        self.fsync(held)
    }

    fn unlink(&mut self, name: FileName) -> Result<(), Refusal>
        ensures serves { Serves (to_remove name) result self.old.system self.new.system }
        ensures cause { self.new.failed ≡ self.old.failed + failed_any result }
    {
        self.prepared = Prepared::Nothing;
        self.set_kept(name, false);
        match self.system.remove(name) {
            Ok(()) => Ok(()),
            Err(Failed) => self.failed.count(Err(Refusal::Other)),
        }
    }

    fn rename(&mut self) -> Result<(), Refusal>
        ensures serves { Serves to_rename result self.old.system self.new.system }
        ensures cause { self.new.failed ≡ self.old.failed + failed_any result }
    {
        self.prepared = Prepared::Nothing;
        self.set_kept(FileName::New, false);
        self.set_kept(FileName::Store, false);
        match self.system.rename() {
            Ok(()) => Ok(()),
            Err(Failed) => self.failed.count(Err(Refusal::Other)),
        }
    }

    // Nothing reads `rasd.left`, so the file is only removed.
    fn leave(&mut self) -> Result<(), Refusal>
        ensures serves { Serves (to_remove FileName.New) result self.old.system self.new.system }
        ensures cause { self.new.failed ≡ self.old.failed + failed_any result }
    {
        self.unlink(FileName::New)
    }

    fn fsync_folders(&mut self) -> Result<(), Refusal>
        ensures serves { Serves to_sync_names result self.old.system self.new.system }
        ensures cause { self.new.failed ≡ self.old.failed
            + failed_names (list_any (λ is_kept. is_kept) self.old.kept) result }
    {
        let is_run = self.keeps_any();
        self.prepared = Prepared::Nothing;
        match self.system.sync_names() {
            Ok(()) => Ok(()),
            Err(Failed) => self.failed.count_names(is_run, Err(Refusal::Other)),
        }
    }

    fn write(&mut self, bytes: &[u8]) -> Result<(), Refusal>
        ensures serves { Serves (to_print bytes.now) result self.old.system self.new.system }
        ensures cause { self.new.failed ≡ self.old.failed + failed_any result }
    {
        self.prepared = Prepared::Nothing;
        match self.system.print(bytes) {
            Ok(()) => Ok(()),
            Err(Failed) => self.failed.count(Err(Refusal::Other)),
        }
    }
}

fn name_of(held: Held) -> FileName
    ensures { result ≡ name_of held }
{
    match held {
        Held::Kept(name) | Held::Opened(name) => name,
    }
}

// Returns a regular file with this number, one link and this length.
fn file_of(inode: u64, length: u64) -> FoundFile
    ensures { result.length ≡ length }
{
    FoundFile {
        kind: FileKind::Regular,
        length,
        device: 0,
        inode,
        links: 1,
        user: 0,
        group: 0,
        mode: 0o640,
    }
}
