//! The system over a kernel: which calls each call of the system makes, and in which order.
ghost use Rattle.std.specs.Prelude.{◌≡◌, ◌≢◌, ◌+◌, ◌≤◌, Err, length, take, IfSome, IfOk, IfErr, OnOk, OnErr};
ghost use Rattle.std.proofs.Props.{props};
ghost use Rattle.std.specs.Option.{option_map};
ghost use Rattle.host_system.specs.Folder.{wrote, made, opens, locks, loses, removed, synced, synced_names};
ghost use Rattle.host_system.specs.FolderPast.{Did, IfTold, HasFile, IsMissing, IsOpen, IsNotLost, MayBeWritten, MayDo, MayWrite, bytes_named, file_bytes, length_told};
ghost use Rattle.host_system.specs.Kernel.{FailsSync, IsHeldBy, IsOpenAs, Looks, MaySync, failed_any, failed_sync, name_of};
ghost use Rattle.host_system.specs.View.{MayBeRead};
ghost use Rattle.host_system.specs.declared.kernel.Refusal.TheVariants.{Other};
ghost use Rattle.host_system.specs.declared.kernel.Way.TheVariants.{Write};
ghost use Rattle.host_system.specs.declared.system.FileName.TheVariants.{Journal};
ghost use Rattle.ras_host.specs.LongFiles.{AreLong, IsFoundLong};
ghost use Rattle.ras_host.specs.Steps.OverCounts.{counted_up_to};

use crate::found_files::FoundFiles;
use crate::long_files::LongFiles;
use crate::names::{check_names, check_to_write, keep_folder, look, open_to_read};
use crate::refused::Refused;
use board_core::{Failed, FileNo};
use host_system::{FileName, Held, INLINE_LENGTH, Kernel, Note, Place, Refusal, System, Way};

// The mode of a new file, without the bits of the process's mask. Other users may not read a
// journal file, because whoever can read it can hold its lock.
const NEW_MODE: u32 = 0o640;

// The mode of a new store's file before it gets the owner and mode of the old one.
const UNOWNED_MODE: u32 = 0o600;

/// The system over a kernel. It is modelled if its kernel is. Its faults are the kernel's failed
/// calls, and the calls that it refused for its own reasons.
#[derive(Drop)]
pub struct OverKernel<K: Kernel + Drop> {
    kernel: K,
    refused: Refused,
    // What was found of each locked journal file under its name when it was locked.
    locked: FoundFiles,
    long: LongFiles,
    ghost known: { IfSome (K.told kernel) (AreLong long) } by { Prim.hlevel props },
}

impl<K: Kernel + Drop> OverKernel<K> {
    /// Returns a system over a kernel that keeps no file, with no faults.
    pub fn over(kernel: K) -> OverKernel<K>
        ensures kernel { result.kernel ≡ kernel }
        ensures quiet { result.refused ≡ 0 }
    {
        OverKernel {
            kernel,
            refused: Refused::none(),
            locked: FoundFiles::none(),
            long: LongFiles::none(),
        }
    }
}

// The system's calls, each made up of calls of the kernel. Faults aren't counted separately: each
// fault is a failed call of the kernel, or a refusal that `Refused` counts.
impl<K: Kernel + Drop> System for OverKernel<K> {
    ghost told = { λ s. K.told s.kernel };

    ghost faults = { λ s. counted_up_to (K.fails s.kernel + s.refused) };

    fn find(&mut self, name: FileName) -> Result<Option<u64>, Failed> {
        find(&mut self.kernel, &mut self.refused, name).or(Err(Failed))
    }

    fn open(&mut self, name: FileName) -> Result<(), Failed> {
        self.locked.keep(name, None);
        self.long.set(name, false);
        open_file(&mut self.kernel, name).or(Err(Failed))
    }

    fn make(&mut self, name: FileName) -> Result<(), Failed> {
        self.locked.keep(name, None);
        self.long.set(name, false);
        make_file(&mut self.kernel, &mut self.refused, name).or(Err(Failed))
    }

    fn lock(&mut self, name: FileName) -> Result<(), Failed> {
        lock_file(&mut self.kernel, &mut self.refused, &mut self.locked, name).or(Err(Failed))
    }

    fn read(&mut self, name: FileName, most: u64) -> Result<Option<Vec<u8>>, Failed> {
        read_file(&mut self.kernel, &mut self.refused, name, most).or(Err(Failed))
    }

    fn read_at(&mut self, name: FileName, place: u64, buf: &mut [u8]) -> Result<(), Failed> {
        self.kernel.pread(name, place, buf).or(Err(Failed))
    }

    #[tactic(auto, using(crate::proofs::LongLemmas::write_long))]
    fn write_at(&mut self, name: FileName, place: u64, bytes: &[u8]) -> Result<(), Failed> {
        check_to_write(
            &mut self.kernel,
            &mut self.refused,
            &self.locked,
            name,
            place,
            bytes,
        )
        .or(Err(Failed))?;
        self.kernel.pwrite(name, place, bytes).or(Err(Failed))?;
        if place.saturating_add(bytes.len() as u64) > INLINE_LENGTH {
            self.long.set(name, true);
        }
        Ok(())
    }

    fn sync(&mut self, name: FileName) -> Result<(), Failed> {
        sync_kept(&mut self.kernel, &mut self.long, name).or(Err(Failed))
    }

    fn sync_read(&mut self, file: FileNo) -> Result<(), Failed> {
        sync_to_read(&mut self.kernel, &mut self.refused, file).or(Err(Failed))
    }

    fn remove(&mut self, name: FileName) -> Result<(), Failed> {
        self.long.set(name, false);
        remove_file(&mut self.kernel, &mut self.refused, name).or(Err(Failed))
    }

    fn rename(&mut self) -> Result<(), Failed> {
        self.kernel.rename().or(Err(Failed))
    }

    fn sync_names(&mut self) -> Result<(), Failed> {
        sync_folders(&mut self.kernel).or(Err(Failed))
    }

    fn print(&mut self, bytes: &[u8]) -> Result<(), Failed> {
        self.kernel.write(bytes).or(Err(Failed))
    }
}

// Returns the length of a file, or `None` if it is missing. The length of a kept file is read from
// the file itself.
fn find<K: Kernel>(
    kernel: &mut K,
    refused: &mut Refused,
    name: FileName,
) -> Result<Option<u64>, Refusal>
    ensures found { IfOk result (λ found. IfSome (K.told kernel.old)
        (λ p. found ≡ length_told name p)) }
    ensures told { K.told kernel.new ≡ K.told kernel.old }
    ensures cause { K.fails kernel.new + refused.new
        ≡ K.fails kernel.old + refused.old + failed_any result }
{
    if kernel.is_kept(name) {
        return Ok(Some(kernel.fstat(Held::Kept(name))?.length));
    }
    Ok(look(kernel, refused, name)?.map(|it| it.length))
}

// Opens a file to read and write it, and keeps it.
fn open_file<K: Kernel>(kernel: &mut K, name: FileName) -> Result<(), Refusal>
    requires there { IfSome (K.told kernel.old) (HasFile name) }
    requires kept { IfSome (K.told kernel.old) (IsNotLost name) }
    ensures told { OnOk result (Did (opens name) (K.told kernel.old) (K.told kernel.new)) }
    ensures failed { OnErr result (K.told kernel.new ≡ K.told kernel.old) }
    ensures cause { K.fails kernel.new ≡ K.fails kernel.old + failed_any result }
{
    kernel.open(name, Way::Write)?;
    move_up(kernel, Held::Opened(name))?;
    kernel.keep(name);
    Ok(())
}

// Gives a file another descriptor if it has a standard stream's. The kernel gives a file the lowest
// free number, which may be a closed stream's.
fn move_up<K: Kernel>(kernel: &mut K, held: Held) -> Result<(), Refusal>
    ensures told { K.told kernel.new ≡ K.told kernel.old }
    ensures prepared { OnOk result (K.prepared kernel.new ≡ K.prepared kernel.old) }
    ensures way { OnOk result (K.way kernel.new ≡ K.way kernel.old) }
    ensures cause { K.fails kernel.new ≡ K.fails kernel.old + failed_any result }
{
    if kernel.number(held)? <= 2 {
        return kernel.dup(held);
    }
    Ok(())
}

// Makes a file and keeps it.
fn make_file<K: Kernel>(
    kernel: &mut K,
    refused: &mut Refused,
    name: FileName,
) -> Result<(), Refusal>
    requires { IfSome (K.told kernel.old) (IsMissing name) }
    ensures told { OnOk result (Did (made name) (K.told kernel.old) (K.told kernel.new)) }
    ensures failed { OnErr result (IfTold (MayDo (made name)) (K.told kernel.old)
        (K.told kernel.new)) }
    ensures cause { K.fails kernel.new + refused.new
        ≡ K.fails kernel.old + refused.old + failed_any result }
{
    match name {
        FileName::New => make_new(kernel, refused),
        _ => make_or_open(kernel, name),
    }
}

// Makes a file, or opens it if another run has made it meanwhile: its lock then decides. No file is
// made through a symlink that leads nowhere, because the disk behind it may not be mounted.
fn make_or_open<K: Kernel>(kernel: &mut K, name: FileName) -> Result<(), Refusal>
    requires { IfSome (K.told kernel.old) (IsMissing name) }
    ensures told { OnOk result (Did (made name) (K.told kernel.old) (K.told kernel.new)) }
    ensures failed { OnErr result (IfTold (MayDo (made name)) (K.told kernel.old)
        (K.told kernel.new)) }
    ensures cause { K.fails kernel.new ≡ K.fails kernel.old + failed_any result }
{
    match kernel.create(name, NEW_MODE) {
        Ok(()) => move_up(kernel, Held::Kept(name)),
        Err(Refusal::Exists) => open_file(kernel, name),
        Err(why) => Err(why),
    }
}

// Makes a new store's file, with the owner and the mode of the old one.
fn make_new<K: Kernel>(kernel: &mut K, refused: &mut Refused) -> Result<(), Refusal>
    requires { IfSome (K.told kernel.old) (IsMissing FileName.New) }
    ensures told { OnOk result (Did (made FileName.New) (K.told kernel.old)
        (K.told kernel.new)) }
    ensures failed { OnErr result (IfTold (MayDo (made FileName.New)) (K.told kernel.old)
        (K.told kernel.new)) }
    ensures cause { K.fails kernel.new + refused.new
        ≡ K.fails kernel.old + refused.old + failed_any result }
{
    let old = look(kernel, refused, FileName::Store)?;
    let mode = old.as_ref().map_or(NEW_MODE, |_| UNOWNED_MODE);
    let made = kernel.create(FileName::New, mode);
    if let Err(Refusal::Exists) = made {
        return Err(refused.made_meanwhile(&made));
    }
    made?;
    move_up(kernel, Held::Kept(FileName::New))?;
    if let Some(old) = old {
        kernel.fchown(FileName::New, old.user, old.group)?;
        kernel.fchmod(FileName::New, old.mode)?;
    }
    Ok(())
}

// Locks a file. The names are checked once it is locked, and what was found of the file is
// recorded.
fn lock_file<K: Kernel>(
    kernel: &mut K,
    refused: &mut Refused,
    locked: &mut FoundFiles,
    name: FileName,
) -> Result<(), Refusal>
    requires { IfSome (K.told kernel.old) (IsOpen name) }
    ensures told { OnOk result (Did (locks name) (K.told kernel.old) (K.told kernel.new)) }
    ensures failed { OnErr result (K.told kernel.new ≡ K.told kernel.old) }
    ensures cause { K.fails kernel.new + refused.new
        ≡ K.fails kernel.old + refused.old + failed_any result }
{
    kernel.flock(name)?;
    let found = check_names(kernel, refused)?;
    keep_folder(kernel, refused, name)?;
    kernel.note(Note::Locked(name));
    locked.keep(name, found.of(name));
    Ok(())
}

// Returns the first bytes of a file, at most `most`, or `None` if it is missing.
fn read_file<K: Kernel>(
    kernel: &mut K,
    refused: &mut Refused,
    name: FileName,
    most: u64,
) -> Result<Option<Vec<u8>>, Refusal>
    ensures read { IfOk result (λ found. IfSome (K.told kernel.old)
        (λ p. MayBeRead name p → option_map (λ v. v.items) found
        ≡ option_map (take most) (bytes_named name p))) }
    ensures told { K.told kernel.new ≡ K.told kernel.old }
    ensures cause { K.fails kernel.new + refused.new
        ≡ K.fails kernel.old + refused.old + failed_any result }
{
    if name != FileName::Store {
        check_names(kernel, refused)?;
    }
    if !open_to_read(kernel, refused, name)? {
        return Ok(None);
    }
    Ok(Some(kernel.read(name, most)?))
}

// Makes a file that is kept durable. The owner and the mode of a new store's file have to be durable
// too.
fn sync_kept<K: Kernel>(kernel: &mut K, long: &mut LongFiles, name: FileName) -> Result<(), Refusal>
    requires there { IfSome (K.told kernel.old) (HasFile name) }
    requires open { IfSome (K.told kernel.old) (IsOpen name) }
    requires known { IfSome (K.told kernel.old) (AreLong long.old) }
    ensures told { OnOk result (Did (synced name) (K.told kernel.old) (K.told kernel.new)) }
    ensures failed { OnErr result (Did (loses name) (K.told kernel.old) (K.told kernel.new)) }
    ensures known { IfSome (K.told kernel.new) (AreLong long.new) }
    ensures cause { K.fails kernel.new ≡ K.fails kernel.old + failed_any result }
{
    match name {
        FileName::New => kernel.fsync(Held::Kept(name)),
        _ => {
            let found = find_long(kernel, long, name);
            sync_bytes(kernel, Held::Kept(name), found)
        }
    }
}

// Returns whether a file that is kept is long. For a file that is known to be long no call is made.
fn find_long<K: Kernel>(
    kernel: &mut K,
    long: &mut LongFiles,
    name: FileName,
) -> Result<bool, Refusal>
    requires known { IfSome (K.told kernel.old) (AreLong long.old) }
    ensures found { IfOk result (IsFoundLong name (K.told kernel.old)) }
    ensures known { IfSome (K.told kernel.old) (AreLong long.new) }
    ensures looks { Looks (K.told kernel.old) (K.told kernel.new) (K.prepared kernel.old)
        (K.prepared kernel.new) }
    ensures cause { K.fails kernel.new ≡ K.fails kernel.old + failed_any result }
{
    if long.knows(name) {
        return Ok(true);
    }
    let is_long = is_long(kernel, Held::Kept(name))?;
    if is_long {
        long.set(name, true);
    }
    Ok(is_long)
}

// Returns whether a file is longer than `INLINE_LENGTH`.
fn is_long<K: Kernel>(kernel: &mut K, held: Held) -> Result<bool, Refusal>
    requires { IsHeldBy held (K.told kernel.old) (K.prepared kernel.old) }
    ensures found { IfOk result (IsFoundLong (name_of held) (K.told kernel.old)) }
    ensures looks { Looks (K.told kernel.old) (K.told kernel.new) (K.prepared kernel.old)
        (K.prepared kernel.new) }
    ensures cause { K.fails kernel.new ≡ K.fails kernel.old + failed_any result }
{
    Ok(kernel.fstat(held)?.length > INLINE_LENGTH)
}

// Makes a file's bytes durable, by whether it is long.
fn sync_bytes<K: Kernel>(
    kernel: &mut K,
    held: Held,
    found: Result<bool, Refusal>,
) -> Result<(), Refusal>
    requires held { MaySync held (K.told kernel.old) (K.prepared kernel.old) }
    requires found { IfOk found (IsFoundLong (name_of held) (K.told kernel.old)) }
    requires owned { name_of held ≢ FileName.New }
    ensures told { OnOk result (Did (synced (name_of held)) (K.told kernel.old)
        (K.told kernel.new)) }
    ensures failed { IfErr result (λ why. FailsSync held why (K.told kernel.old)
        (K.told kernel.new)) }
    ensures cause { OnOk found (K.fails kernel.new
        ≡ K.fails kernel.old + failed_sync held result) }
    ensures lost { OnErr found ((result ≡ Err Other) × (K.fails kernel.new ≡ K.fails kernel.old)) }
{
    match found {
        Ok(true) => kernel.fdatasync(held),
        Ok(false) => kernel.fsync(held),
        Err(_) => {
            kernel.note(Note::Lost(name_of(held)));
            Err(Refusal::Other)
        }
    }
}

fn name_of(held: Held) -> FileName
    ensures { result ≡ name_of held }
{
    match held {
        Held::Kept(name) | Held::Opened(name) => name,
    }
}

// Makes a journal file durable that is only read: a run may have written there and not yet synced
// it.
fn sync_to_read<K: Kernel>(
    kernel: &mut K,
    refused: &mut Refused,
    file: FileNo,
) -> Result<(), Refusal>
    ensures told { OnOk result (Did (synced (Journal file)) (K.told kernel.old)
        (K.told kernel.new)) }
    ensures failed { OnErr result (Did (loses (Journal file)) (K.told kernel.old)
        (K.told kernel.new)) }
    ensures cause { K.fails kernel.new + refused.new
        ≡ K.fails kernel.old + refused.old + failed_any result }
{
    let name = FileName::Journal(file);
    match open_to_read(kernel, refused, name) {
        Ok(true) => sync_opened(kernel, file),
        Ok(false) => {
            kernel.note(Note::Absent(file));
            Ok(())
        }
        Err(why) => {
            kernel.note(Note::Lost(name));
            Err(why)
        }
    }
}

// Makes a file durable that was opened to read it, and closes it. If the file system has no syncs,
// nothing is left to be written.
fn sync_opened<K: Kernel>(kernel: &mut K, file: FileNo) -> Result<(), Refusal>
    requires { MaySync (Held.Opened (Journal file)) (K.told kernel.old) (K.prepared kernel.old) }
    ensures told { OnOk result (Did (synced (Journal file)) (K.told kernel.old)
        (K.told kernel.new)) }
    ensures failed { OnErr result (Did (loses (Journal file)) (K.told kernel.old)
        (K.told kernel.new)) }
    ensures cause { K.fails kernel.new ≡ K.fails kernel.old + failed_any result }
{
    let held = Held::Opened(FileName::Journal(file));
    let found = is_long(kernel, held);
    let answer = sync_bytes(kernel, held, found);
    kernel.close();
    match answer {
        Err(Refusal::Unsupported) => Ok(()),
        answer => answer,
    }
}

// Removes a name.
fn remove_file<K: Kernel>(
    kernel: &mut K,
    refused: &mut Refused,
    name: FileName,
) -> Result<(), Refusal>
    requires { IfSome (K.told kernel.old) (HasFile name) }
    ensures told { OnOk result (Did (removed name) (K.told kernel.old) (K.told kernel.new)) }
    ensures failed { OnErr result (IfTold (MayDo (removed name)) (K.told kernel.old)
        (K.told kernel.new)) }
    ensures cause { K.fails kernel.new + refused.new
        ≡ K.fails kernel.old + refused.old + failed_any result }
{
    match name {
        FileName::New => remove_new(kernel, refused),
        _ => kernel.unlink(name),
    }
}

// Removes `rasd.new`. A file system without a journal may lose half of the rename of a new store:
// the store then has its first name, and `rasd.store` is missing. So the file isn't removed in that
// case, but kept under another name.
fn remove_new<K: Kernel>(kernel: &mut K, refused: &mut Refused) -> Result<(), Refusal>
    requires { IfSome (K.told kernel.old) (HasFile FileName.New) }
    ensures told { OnOk result (Did (removed FileName.New) (K.told kernel.old)
        (K.told kernel.new)) }
    ensures failed { OnErr result (IfTold (MayDo (removed FileName.New)) (K.told kernel.old)
        (K.told kernel.new)) }
    ensures cause { K.fails kernel.new + refused.new
        ≡ K.fails kernel.old + refused.old + failed_any result }
{
    if kernel.lstat(Place::Name(FileName::Store))?.is_some() {
        return kernel.unlink(FileName::New);
    }
    let left = kernel.lstat(Place::Left)?;
    if left.is_some() {
        return Err(refused.left_before(&left));
    }
    kernel.leave()
}

// Makes the names durable. A run keeps its files, a report keeps none. A run made the names durable
// before it reported anything. So a report continues if it may search the folder but not open it,
// or if the folder can't be synced, as it does for a file.
fn sync_folders<K: Kernel>(kernel: &mut K) -> Result<(), Refusal>
    ensures told { OnOk result (Did synced_names (K.told kernel.old) (K.told kernel.new)) }
    ensures failed { OnErr result (K.told kernel.new ≡ K.told kernel.old) }
    ensures cause { K.fails kernel.new ≡ K.fails kernel.old + failed_any result }
{
    let is_run = kernel.keeps_any();
    match kernel.fsync_folders() {
        Err(Refusal::NotPermitted) if !is_run => Ok(()),
        Err(Refusal::Unsupported) if !is_run => {
            kernel.note(Note::Names);
            Ok(())
        }
        answer => answer,
    }
}
