//! The calls of the operating system, one for each method.
ghost use Rattle.std.specs.Prelude.{◌≡◌, ◌≢◌, ℕ, ◌+◌, ◌<◌, ◌≤◌, Bool, true, false, List, length, take, drop, Option, Some, IfOk, IfErr, OnOk, OnErr, IfSome};
ghost use Rattle.std.specs.Option.{option_map};
ghost use Rattle.board_core.specs.Takes.{Takes};
ghost use Rattle.host_system.specs.Folder.{FolderChange, wrote, synced, made, opens, locks, removed, renamed, synced_names, printed};
ghost use Rattle.host_system.specs.FolderPast.{FolderPast, Did, IfTold, HasFile, IsMissing, IsOpen, IsNotLost, MayBeWritten, bytes_named, file_bytes, MayDo, MayWrite, MayPrint};
ghost use Rattle.host_system.specs.Kernel.{FailsMake, FailsNames, FailsSync, IsFound, IsFoundAt, IsFoundItself, IsHeldBy, IsOpenAs, IsPrepared, IsThere, Looks, MayNote, MaySync, change_of, failed_any, failed_make, failed_names, failed_read, failed_sync, name_of};
ghost use Rattle.host_system.specs.View.{MayBeRead};
ghost use Rattle.host_system.specs.declared.kernel.Way.{Way};
ghost use Rattle.host_system.specs.declared.system.FileName.{FileName};
ghost use Rattle.host_system.specs.declared.kernel.Way.TheVariants.{Write};

use crate::FileName;
use board_core::FileNo;

/// The greatest length of a file whose bytes may be in its inode. Linux's ext4 has such files if it
/// was made with `inline_data`, and its fdatasync doesn't make these bytes durable.
pub const INLINE_LENGTH: u64 = 4096;

/// What a call looks at.
#[derive(Clone, Copy)]
pub enum Place {
    /// One of the four names.
    Name(FileName),
    /// `rasd.left`, under which a new store's file is kept if `rasd.store` is missing.
    Left,
    /// The process's standard output.
    Output,
    /// The process itself, which belongs to its user.
    Process,
}

/// What kind of file a name refers to.
#[derive(Clone, Copy, PartialEq, Eq)]
pub enum FileKind {
    /// A regular file.
    Regular,
    /// A symlink.
    Link,
    /// Anything else.
    Other,
}

/// What was found of a file.
#[derive(Clone, Copy)]
pub struct FoundFile {
    pub kind: FileKind,
    pub length: u64,
    pub device: u64,
    pub inode: u64,
    pub links: u64,
    pub user: u32,
    pub group: u32,
    pub mode: u32,
}

/// An open file.
#[derive(Clone, Copy)]
pub enum Held {
    /// The file that is kept as this name's.
    Kept(FileName),
    /// The file that was opened last, by this name.
    Opened(FileName),
}

/// How a file is opened.
#[derive(Clone, Copy)]
pub enum Way {
    /// To read it.
    Read,
    /// To read and write it.
    Write,
}

/// Why a call failed.
#[derive(Clone, Copy)]
pub enum Refusal {
    /// Something has this name.
    Exists,
    /// The process may not do that.
    NotPermitted,
    /// The file doesn't support that.
    Unsupported,
    /// No such file is open.
    NotOpen,
    /// A signal interrupted the call.
    Interrupted,
    /// Anything else, also a check of the caller.
    Other,
}

/// A note that only the model uses: how the process has its files.
#[derive(Clone, Copy)]
pub enum Note {
    /// The file of this name, which was locked before, counts as locked.
    Locked(FileName),
    /// The bytes of this name's file aren't relied on any more.
    Lost(FileName),
    /// A missing journal file counts as synced.
    Absent(FileNo),
    /// The names count as synced.
    Names,
}

/// The calls of the operating system on the working folder and on standard output.
///
/// A kernel may be modelled, as a system may be: its clauses then say what a call did to the
/// folder, provided that its four names refer to regular files that nobody else changes, the
/// journal's maybe through symlinks. A call that takes `&self` changes nothing that clauses speak
/// of.
pub trait Kernel {
    /// What was done to the folder and the output, if the kernel is modelled.
    ghost told: { Self → Option FolderPast };

    /// The change that the last calls have prepared: a file is open and not kept yet; or a file is
    /// locked and not noted as locked yet; or the names may count as synced. Any change ends it.
    ghost prepared: { Self → Option FolderChange };

    /// How the file that was opened last is open.
    ghost way: { Self → Way };

    /// Whether the process keeps a file.
    ghost keeps: { Self → Bool };

    /// How many calls have failed. Each call says which failures it counts.
    ghost fails: { Self → ℕ };

    /// Whether the folder of this name's file is the working folder, or is kept.
    ghost reaches: { Self → FileName → Bool };

    /// Returns whether the process keeps a file. No call is made.
    fn keeps_any(&self) -> bool
        ensures { result ≡ keeps self.now };

    /// Returns whether a file is kept as this name's. No call is made.
    fn is_kept(&self, name: FileName) -> bool;

    /// Returns what a name itself refers to, or `None` if it refers to nothing.
    fn lstat(&mut self, place: Place) -> Result<Option<FoundFile>, Refusal>
        ensures found { IfOk result (λ found. IfSome (told self.old) (IsFoundItself place found)) }
        ensures reaches { IfOk result (λ found. IsThere place found (reaches self.new)) }
        ensures looks { Looks (told self.old) (told self.new) (prepared self.old)
            (prepared self.new) }
        ensures cause { fails self.new ≡ fails self.old + failed_any result };

    /// Returns what was found of the file that a name refers to, through any symlink, or `None` if
    /// there is no such file.
    fn stat(&mut self, place: Place) -> Result<Option<FoundFile>, Refusal>
        ensures found { IfOk result (λ found. IfSome (told self.old) (IsFoundAt place found)) }
        ensures looks { Looks (told self.old) (told self.new) (prepared self.old)
            (prepared self.new) }
        ensures cause { fails self.new ≡ fails self.old + failed_any result };

    /// Returns what was found of an open file. A kept file is the name's present file.
    fn fstat(&mut self, held: Held) -> Result<FoundFile, Refusal>
        requires { IsHeldBy held (told self.old) (prepared self.old) }
        ensures found { IfOk result (λ m. IfSome (told self.old)
            (IsFound (name_of held) (Some m))) }
        ensures looks { Looks (told self.old) (told self.new) (prepared self.old)
            (prepared self.new) }
        ensures cause { fails self.new ≡ fails self.old + failed_any result };

    /// Returns the descriptor of an open file.
    fn number(&mut self, held: Held) -> Result<i32, Refusal>
        ensures way { way self.new ≡ way self.old }
        ensures looks { Looks (told self.old) (told self.new) (prepared self.old)
            (prepared self.new) }
        ensures cause { fails self.new ≡ fails self.old + failed_any result };

    /// Gives an open file a descriptor above the standard streams'.
    fn dup(&mut self, held: Held) -> Result<(), Refusal>
        ensures told { told self.new ≡ told self.old }
        ensures prepared { OnOk result (prepared self.new ≡ prepared self.old) }
        ensures way { OnOk result (way self.new ≡ way self.old) }
        ensures cause { fails self.new ≡ fails self.old + failed_any result };

    /// Opens the file of a name. It isn't kept yet. A file that is opened only to be read can't be
    /// kept.
    fn open(&mut self, name: FileName, how: Way) -> Result<(), Refusal>
        ensures told { told self.new ≡ told self.old }
        ensures prepared { OnOk result (IsPrepared (opens name) (told self.old)
            (prepared self.new)) }
        ensures way { OnOk result (IsOpenAs how (told self.old) (way self.new)) }
        ensures cause { fails self.new ≡ fails self.old + failed_any result };

    /// Keeps the opened file as the name's file, instead of any other. No call is made.
    fn keep(&mut self, name: FileName)
        requires prepared { IsPrepared (opens name) (told self.old) (prepared self.old) }
        requires way { IsOpenAs Write (told self.old) (way self.old) }
        requires there { IfSome (told self.old) (HasFile name) }
        requires kept { IfSome (told self.old) (IsNotLost name) }
        ensures told { Did (opens name) (told self.old) (told self.new) }
        ensures calm { fails self.new ≡ fails self.old };

    /// Closes the file that was opened last, unless it was kept.
    fn close(&mut self)
        ensures told { told self.new ≡ told self.old }
        ensures calm { fails self.new ≡ fails self.old };

    /// Makes an empty file with this mode to read and write it, and keeps it. After an error it may
    /// exist.
    fn create(&mut self, name: FileName, mode: u32) -> Result<(), Refusal>
        requires { IfSome (told self.old) (IsMissing name) }
        ensures told { OnOk result (Did (made name) (told self.old) (told self.new)) }
        ensures failed { IfErr result (λ why. FailsMake name why (told self.old)
            (told self.new)) }
        ensures cause { fails self.new ≡ fails self.old + failed_make result };

    /// Gives the file that is kept as this name's an owner and a group.
    fn fchown(&mut self, name: FileName, owner: u32, group: u32) -> Result<(), Refusal>
        ensures looks { Looks (told self.old) (told self.new) (prepared self.old)
            (prepared self.new) }
        ensures cause { fails self.new ≡ fails self.old + failed_any result };

    /// Gives the file that is kept as this name's a mode.
    fn fchmod(&mut self, name: FileName, mode: u32) -> Result<(), Refusal>
        ensures looks { Looks (told self.old) (told self.new) (prepared self.old)
            (prepared self.new) }
        ensures cause { fails self.new ≡ fails self.old + failed_any result };

    /// Locks the file that is kept as this name's, so that no other run has it.
    fn flock(&mut self, name: FileName) -> Result<(), Refusal>
        requires { IfSome (told self.old) (IsOpen name) }
        ensures told { told self.new ≡ told self.old }
        ensures prepared { OnOk result (IsPrepared (locks name) (told self.old)
            (prepared self.new)) }
        ensures cause { fails self.new ≡ fails self.old + failed_any result };

    /// Opens the folder that a name's file is in, through any symlink, and keeps it too.
    fn open_folder(&mut self, name: FileName) -> Result<(), Refusal>
        ensures told { told self.new ≡ told self.old }
        ensures prepared { OnOk result (prepared self.new ≡ prepared self.old) }
        ensures reaches { OnOk result (reaches self.new name ≡ true) }
        ensures cause { fails self.new ≡ fails self.old + failed_any result };

    /// Notes how the process has a file. No call is made.
    fn note(&mut self, note: Note)
        requires { MayNote note (told self.old) (prepared self.old) (reaches self.old) }
        ensures told { Did (change_of note) (told self.old) (told self.new) }
        ensures calm { fails self.new ≡ fails self.old };

    /// Returns the first bytes of the file that was opened last, at most `most`, and closes it.
    fn read(&mut self, name: FileName, most: u64) -> Result<Vec<u8>, Refusal>
        requires { IsPrepared (opens name) (told self.old) (prepared self.old) }
        ensures read { IfOk result (λ v. IfSome (told self.old) (λ p. MayBeRead name p
            → Some v.items ≡ option_map (take most) (bytes_named name p))) }
        ensures told { told self.new ≡ told self.old }
        ensures cause { fails self.new ≡ fails self.old + failed_any result };

    /// Fills the buffer with the bytes of a file that is kept, from the offset `place` on.
    fn pread(&mut self, name: FileName, place: u64, buf: &mut [u8]) -> Result<(), Refusal>
        requires open { IfSome (told self.old) (IsOpen name) }
        requires within { IfSome (told self.old)
            (λ p. length buf.old ≤ length (drop place (file_bytes name p))) }
        ensures read { OnOk result (IfSome (told self.old)
            (λ p. buf.new ≡ take (length buf.old) (drop place (file_bytes name p)))) }
        ensures looks { Looks (told self.old) (told self.new) (prepared self.old)
            (prepared self.new) }
        ensures cause { fails self.new ≡ fails self.old + failed_any result };

    /// Writes bytes at the offset `place` of a file that is kept. After an error any part may be
    /// written.
    fn pwrite(&mut self, name: FileName, place: u64, bytes: &[u8]) -> Result<(), Refusal>
        requires there { IfSome (told self.old) (HasFile name) }
        requires open { IfSome (told self.old) (MayBeWritten name) }
        requires within { IfSome (told self.old) (λ p. place ≤ length (file_bytes name p)) }
        ensures told { OnOk result
            (Did (wrote name place (length bytes.now) bytes.now) (told self.old)
            (told self.new)) }
        ensures failed { OnErr result (IfTold (MayWrite name place (length bytes.now))
            (told self.old) (told self.new)) }
        ensures cause { fails self.new ≡ fails self.old + failed_any result };

    /// Makes the bytes and the metadata of an open file durable.
    fn fsync(&mut self, held: Held) -> Result<(), Refusal>
        requires { MaySync held (told self.old) (prepared self.old) }
        ensures told { OnOk result (Did (synced (name_of held)) (told self.old) (told self.new)) }
        ensures failed { IfErr result (λ why. FailsSync held why (told self.old)
            (told self.new)) }
        ensures cause { fails self.new ≡ fails self.old + failed_sync held result };

    /// Makes the bytes of an open file durable. Requires a length of more than `INLINE_LENGTH`, and
    /// not a new store's file, whose owner and mode have to be durable too.
    fn fdatasync(&mut self, held: Held) -> Result<(), Refusal>
        requires held { MaySync held (told self.old) (prepared self.old) }
        requires long { IfSome (told self.old)
            (λ p. INLINE_LENGTH < length (file_bytes (name_of held) p)) }
        requires owned { name_of held ≢ FileName.New }
        ensures told { OnOk result (Did (synced (name_of held)) (told self.old) (told self.new)) }
        ensures failed { IfErr result (λ why. FailsSync held why (told self.old)
            (told self.new)) }
        ensures cause { fails self.new ≡ fails self.old + failed_sync held result };

    /// Removes a name. No file is kept as the name's any more.
    fn unlink(&mut self, name: FileName) -> Result<(), Refusal>
        requires { IfSome (told self.old) (HasFile name) }
        ensures told { OnOk result (Did (removed name) (told self.old) (told self.new)) }
        ensures failed { OnErr result (IfTold (MayDo (removed name)) (told self.old)
            (told self.new)) }
        ensures cause { fails self.new ≡ fails self.old + failed_any result };

    /// Renames `rasd.new` to `rasd.store`. No file is kept as either's any more.
    fn rename(&mut self) -> Result<(), Refusal>
        requires { IfSome (told self.old) (HasFile FileName.New) }
        ensures told { OnOk result (Did renamed (told self.old) (told self.new)) }
        ensures failed { OnErr result (IfTold (MayDo renamed) (told self.old)
            (told self.new)) }
        ensures cause { fails self.new ≡ fails self.old + failed_any result };

    /// Renames `rasd.new` to `rasd.left`, so that the name is missing. No file is kept as the name's
    /// any more.
    fn leave(&mut self) -> Result<(), Refusal>
        requires { IfSome (told self.old) (HasFile FileName.New) }
        ensures told { OnOk result (Did (removed FileName.New) (told self.old) (told self.new)) }
        ensures failed { OnErr result (IfTold (MayDo (removed FileName.New)) (told self.old)
            (told self.new)) }
        ensures cause { fails self.new ≡ fails self.old + failed_any result };

    /// Makes the names durable, by an fsync of the working folder and of each folder that is kept.
    /// After an error a later sync makes them durable, or no later sync succeeds, because a file
    /// system with a log gives up the log.
    fn fsync_folders(&mut self) -> Result<(), Refusal>
        ensures told { OnOk result (Did synced_names (told self.old) (told self.new)) }
        ensures failed { OnErr result (told self.new ≡ told self.old) }
        ensures prepared { IfErr result (λ why. keeps self.old ≡ false
            → FailsNames why (told self.old) (prepared self.new)) }
        ensures cause { fails self.new ≡ fails self.old + failed_names (keeps self.old) result };

    /// Appends to standard output. After an error a beginning of the bytes may be printed.
    fn write(&mut self, bytes: &[u8]) -> Result<(), Refusal>
        ensures told { OnOk result (Did (printed bytes.now) (told self.old) (told self.new)) }
        ensures failed { OnErr result (IfTold (MayPrint bytes.now) (told self.old)
            (told self.new)) }
        ensures cause { fails self.new ≡ fails self.old + failed_any result };
}

/// The call of the operating system on standard input.
pub trait KernelInput {
    /// The bytes that are left, if the input is modelled.
    ghost left: { Self → Option (List ℕ) };

    /// How many reads have failed. A read that a signal interrupted doesn't count.
    ghost fails: { Self → ℕ };

    /// Reads the next bytes into the front of `buf` and returns their number, 0 at the end. A
    /// failed read takes no bytes.
    fn read(&mut self, buf: &mut [u8]) -> Result<usize, Refusal>
        requires { 0 < length buf.old }
        ensures within { IfOk result (λ n. n ≤ length buf.old) }
        ensures taken { IfOk result (λ n. Takes n buf.new (left self.old) (left self.new)) }
        ensures failed { OnErr result (left self.new ≡ left self.old) }
        ensures cause { fails self.new ≡ fails self.old + failed_read result };
}
