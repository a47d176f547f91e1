//! The kernel under the process: each method makes the call that its name says, and decides nothing.
//! No clause covers the effects of these calls.
//!
//! The library's calls on a whole file, `read_exact_at` and `write_all_at`, continue after a short
//! read or write, and repeat a call that a signal interrupted.
ghost use Rattle.std.specs.Prelude.{◌≡◌, ◌<◌, ◌↔◌, [], None, Some, IfOk, IfErr, OnOk, IsOk, replicate, is_some, true};
ghost use Rattle.std.specs.Fs.{IsFile, IsSymlink, file_type, metadata_len};
ghost use Rattle.std.specs.Option.{option_map};
ghost use Rattle.std.specs.IoError.{error_kind};
ghost use Rattle.host_system.specs.declared.kernel.Way.TheVariants.{Write};
ghost use Rattle.std.specs.List.{list_any};
ghost use Rattle.ras_host.specs.Steps.KernelTables.{name_number, name_text, nothing_found, place_text, refusal_of};

use crate::over_kernel::OverKernel;
use board_core::FileNo;
use host_system::{
    FailedCalls, FileKind, FileName, FoundFile, Held, Kernel, Note, Place, Refusal, Way,
};
use std::fs::{
    File, Metadata, OpenOptions, Permissions, canonicalize, metadata, remove_file, rename,
    symlink_metadata,
};
use std::io;
use std::io::{ErrorKind, Read, Write};
use std::os::fd::AsRawFd;
use std::os::unix::fs::{FileExt, MetadataExt, OpenOptionsExt, PermissionsExt, fchown};

/// The kernel under the process, which isn't modelled.
#[derive(Drop)]
pub struct RealKernel {
    rt: HostRuntime,
    // The file that was opened last, unless it is kept or closed.
    opened: Option<File>,
    // Each file that is kept, at its name's number.
    files: [Option<File>; 4],
    // The folders that are kept.
    folders: Vec<File>,
    failed: FailedCalls,
}

/// The working folder and standard output of the process.
pub type RealSystem = OverKernel<RealKernel>;

impl OverKernel<RealKernel> {
    /// Returns the process's folder and output, with no file open and no faults.
    pub fn new(rt: HostRuntime) -> RealSystem
        ensures process { result.kernel.rt ≡ rt }
        ensures shut { result.kernel.files ≡ replicate 4 None }
        ensures unlinked { result.kernel.folders.items ≡ [] }
        ensures quiet { (result.kernel.failed ≡ 0) × (result.refused ≡ 0) }
    {
        OverKernel::over(RealKernel {
            rt,
            opened: None,
            files: [None, None, None, None],
            folders: Vec::new(rt.alloc()),
            failed: FailedCalls::none(),
        })
    }
}

impl RealKernel {
    fn file(&self, held: Held) -> Result<&File, Refusal> {
        let file = match held {
            Held::Kept(name) => &self.files[number(name)],
            Held::Opened(_) => &self.opened,
        };
        file.as_ref().ok_or(Refusal::NotOpen)
    }

    fn find(&self, held: Held) -> Result<FoundFile, Refusal> {
        Ok(seen(self.file(held)?.metadata().map_err(refusal)?))
    }

    fn copy(&mut self, held: Held) -> Result<(), Refusal>
        ensures { self.new.failed ≡ self.old.failed }
    {
        let copy = self.file(held)?.try_clone().map_err(refusal)?;
        match held {
            Held::Kept(name) => self.files[number(name)] = Some(copy),
            Held::Opened(_) => self.opened = Some(copy),
        }
        Ok(())
    }

    fn open_as(&mut self, name: FileName, way: Way) -> Result<(), Refusal>
        ensures { self.new.failed ≡ self.old.failed }
    {
        let mut options = OpenOptions::new();
        options.read(true).write(matches!(way, Way::Write));
        let file = options.open(&self.rt, named(name)).map_err(refusal)?;
        self.opened = Some(file);
        Ok(())
    }

    fn make(&mut self, name: FileName, mode: u32) -> Result<(), Refusal>
        ensures { self.new.failed ≡ self.old.failed }
    {
        let mut options = OpenOptions::new();
        options.read(true).write(true).create_new(true).mode(mode);
        let file = options.open(&self.rt, named(name)).map_err(refusal)?;
        self.files[number(name)] = Some(file);
        Ok(())
    }

    fn own(&self, name: FileName, owner: u32, group: u32) -> Result<(), Refusal> {
        fchown(self.file(Held::Kept(name))?, Some(owner), Some(group)).map_err(refusal)
    }

    fn set_mode(&self, name: FileName, mode: u32) -> Result<(), Refusal> {
        self.file(Held::Kept(name))?
            .set_permissions(Permissions::from_mode(mode))
            .map_err(refusal)
    }

    fn lock(&self, name: FileName) -> Result<(), Refusal> {
        self.file(Held::Kept(name))?
            .try_lock()
            .map_err(|_| Refusal::Other)
    }

    fn keep_folder(&mut self, name: FileName) -> Result<(), Refusal>
        ensures { self.new.failed ≡ self.old.failed }
    {
        let leads_to = canonicalize(&self.rt, named(name)).map_err(refusal)?;
        let folder = leads_to.parent().ok_or(Refusal::Other)?;
        let folder = File::open(&self.rt, folder).map_err(refusal)?;
        self.folders.push(folder).map_err(|_| Refusal::Other)
    }

    fn read_front(&mut self, most: u64) -> Result<Vec<u8>, Refusal>
        ensures { self.new.failed ≡ self.old.failed }
    {
        let file = self.opened.take().ok_or(Refusal::NotOpen)?;
        let mut bytes = Vec::new(self.rt.alloc());
        file.take(most).read_to_end(&mut bytes).map_err(refusal)?;
        Ok(bytes)
    }

    fn fill(&self, name: FileName, place: u64, buf: &mut [u8]) -> Result<(), Refusal> {
        let file = self.file(Held::Kept(name))?;
        file.read_exact_at(buf, place).map_err(refusal)
    }

    fn sync_all(&self, held: Held) -> Result<(), Refusal> {
        self.file(held)?.sync_all().map_err(refusal)
    }

    fn sync_data(&self, held: Held) -> Result<(), Refusal> {
        self.file(held)?.sync_data().map_err(refusal)
    }

    fn sync_folders(&self) -> Result<(), Refusal> {
        File::open(&self.rt, ".")
            .and_then(|folder| folder.sync_all())
            .map_err(refusal)?;
        for folder in &self.folders {
            folder.sync_all().map_err(refusal)?;
        }
        Ok(())
    }
}

impl Kernel for RealKernel {
    ghost told = { λ _. None };

    ghost prepared = { λ _. None };

    ghost way = { λ _. Write };

    ghost keeps = { λ s. list_any is_some s.files };

    ghost fails = { λ s. s.failed };

    ghost reaches = { λ _ _. true };

    fn keeps_any(&self) -> bool {
        self.files.iter().any(|file| file.is_some())
    }

    fn is_kept(&self, name: FileName) -> bool {
        self.files[number(name)].is_some()
    }

    fn lstat(&mut self, place: Place) -> Result<Option<FoundFile>, Refusal> {
        let answer = found(symlink_metadata(&self.rt, path(place)));
        self.failed.count(answer)
    }

    fn stat(&mut self, place: Place) -> Result<Option<FoundFile>, Refusal> {
        let answer = found(metadata(&self.rt, path(place)));
        self.failed.count(answer)
    }

    fn fstat(&mut self, held: Held) -> Result<FoundFile, Refusal> {
        let answer = self.find(held);
        self.failed.count(answer)
    }

    fn number(&mut self, held: Held) -> Result<i32, Refusal> {
        let answer = match self.file(held) {
            Ok(file) => Ok(file.as_raw_fd()),
            Err(why) => Err(why),
        };
        self.failed.count(answer)
    }

    fn dup(&mut self, held: Held) -> Result<(), Refusal> {
        let answer = self.copy(held);
        self.failed.count(answer)
    }

    fn open(&mut self, name: FileName, how: Way) -> Result<(), Refusal> {
        let answer = self.open_as(name, how);
        self.failed.count(answer)
    }

    fn keep(&mut self, name: FileName) {
        self.files[number(name)] = self.opened.take();
    }

    fn close(&mut self) {
        self.opened = None;
    }

    fn create(&mut self, name: FileName, mode: u32) -> Result<(), Refusal> {
        let answer = self.make(name, mode);
        self.failed.count_make(answer)
    }

    fn fchown(&mut self, name: FileName, owner: u32, group: u32) -> Result<(), Refusal> {
        let answer = self.own(name, owner, group);
        self.failed.count(answer)
    }

    fn fchmod(&mut self, name: FileName, mode: u32) -> Result<(), Refusal> {
        let answer = self.set_mode(name, mode);
        self.failed.count(answer)
    }

    fn flock(&mut self, name: FileName) -> Result<(), Refusal> {
        let answer = self.lock(name);
        self.failed.count(answer)
    }

    fn open_folder(&mut self, name: FileName) -> Result<(), Refusal> {
        let answer = self.keep_folder(name);
        self.failed.count(answer)
    }

    fn note(&mut self, _note: Note) {}

    fn read(&mut self, _name: FileName, most: u64) -> Result<Vec<u8>, Refusal> {
        let answer = self.read_front(most);
        self.failed.count(answer)
    }

    fn pread(&mut self, name: FileName, place: u64, buf: &mut [u8]) -> Result<(), Refusal> {
        let answer = self.fill(name, place, buf);
        self.failed.count(answer)
    }

    fn pwrite(&mut self, name: FileName, place: u64, bytes: &[u8]) -> Result<(), Refusal> {
        let answer = match self.file(Held::Kept(name)) {
            Ok(file) => file.write_all_at(bytes, place).map_err(refusal),
            Err(why) => Err(why),
        };
        self.failed.count(answer)
    }

    fn fsync(&mut self, held: Held) -> Result<(), Refusal> {
        let answer = self.sync_all(held);
        self.failed.count_sync(held, answer)
    }

    fn fdatasync(&mut self, held: Held) -> Result<(), Refusal> {
        let answer = self.sync_data(held);
        self.failed.count_sync(held, answer)
    }

    fn unlink(&mut self, name: FileName) -> Result<(), Refusal> {
        self.files[number(name)] = None;
        let answer = remove_file(&self.rt, named(name)).map_err(refusal);
        self.failed.count(answer)
    }

    fn rename(&mut self) -> Result<(), Refusal> {
        self.files[number(FileName::New)] = None;
        self.files[number(FileName::Store)] = None;
        let answer = rename(&self.rt, named(FileName::New), named(FileName::Store));
        self.failed.count(answer.map_err(refusal))
    }

    fn leave(&mut self) -> Result<(), Refusal> {
        self.files[number(FileName::New)] = None;
        let answer = rename(&self.rt, named(FileName::New), path(Place::Left));
        self.failed.count(answer.map_err(refusal))
    }

    fn fsync_folders(&mut self) -> Result<(), Refusal> {
        let (keeps, answer) = (self.keeps_any(), self.sync_folders());
        self.failed.count_names(keeps, answer)
    }

    fn write(&mut self, bytes: &[u8]) -> Result<(), Refusal> {
        let answer = self.rt.stdout().write_all(bytes).map_err(refusal);
        self.failed.count(answer)
    }
}

fn number(name: FileName) -> usize
    ensures within { result < 4 }
    ensures number { result ≡ name_number name }
{
    match name {
        FileName::Journal(FileNo::Zero) => 0,
        FileName::Journal(FileNo::One) => 1,
        FileName::Store => 2,
        FileName::New => 3,
    }
}

fn named(name: FileName) -> &'static str
    ensures { result.now ≡ name_text name }
{
    match name {
        FileName::Journal(FileNo::Zero) => "rasd.0",
        FileName::Journal(FileNo::One) => "rasd.1",
        FileName::Store => "rasd.store",
        FileName::New => "rasd.new",
    }
}

fn path(place: Place) -> &'static str
    ensures { result.now ≡ place_text place }
{
    match place {
        Place::Name(name) => named(name),
        Place::Left => "rasd.left",
        Place::Output => "/proc/self/fd/1",
        Place::Process => "/proc/self",
    }
}

// Returns what was found, or `None` if nothing is there.
fn found(answer: io::Result<Metadata>) -> Result<Option<FoundFile>, Refusal>
    ensures length { IfOk answer (λ m. IfOk result
        (λ found. option_map (λ f. f.length) found ≡ Some (metadata_len m))) }
    ensures found { OnOk answer (IsOk result) }
    ensures failed { IfErr answer (λ error. result ≡ nothing_found (error_kind error)) }
{
    match answer {
        Err(error) if error.kind() == ErrorKind::NotFound => Ok(None),
        Ok(metadata) => Ok(Some(seen(metadata))),
        Err(error) => Err(refusal(error)),
    }
}

fn seen(metadata: Metadata) -> FoundFile
    ensures length { result.length ≡ metadata_len metadata }
    ensures regular { result.kind ≡ FileKind.Regular ↔ IsFile (file_type metadata) }
    ensures link { result.kind ≡ FileKind.Link ↔ IsSymlink (file_type metadata) }
{
    FoundFile {
        kind: match metadata.is_file() {
            true => FileKind::Regular,
            false if metadata.is_symlink() => FileKind::Link,
            false => FileKind::Other,
        },
        length: metadata.len(),
        device: metadata.dev(),
        inode: metadata.ino(),
        links: metadata.nlink(),
        user: metadata.uid(),
        group: metadata.gid(),
        mode: metadata.permissions().mode(),
    }
}

pub(crate) fn refusal(error: io::Error) -> Refusal
    ensures { result ≡ refusal_of (error_kind error) }
{
    match error.kind() {
        ErrorKind::AlreadyExists => Refusal::Exists,
        ErrorKind::PermissionDenied => Refusal::NotPermitted,
        ErrorKind::InvalidInput => Refusal::Unsupported,
        ErrorKind::Interrupted => Refusal::Interrupted,
        _ => Refusal::Other,
    }
}
