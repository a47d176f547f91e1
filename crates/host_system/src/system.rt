//! The calls of the operating system.
ghost use Rattle.std.specs.Prelude.{◌≡◌, ℕ, ◌<◌, ◌≤◌, List, Option, length, take, drop, IfOk, OnOk, OnErr, IfSome};
ghost use Rattle.std.specs.Option.{option_map};
ghost use Rattle.board_core.specs.Cause.{HasCause};
ghost use Rattle.board_core.specs.Takes.{Takes};
ghost use Rattle.host_system.specs.Folder.{wrote, synced, made, opens, locks, loses, removed, renamed, synced_names, printed};
ghost use Rattle.host_system.specs.FolderPast.{FolderPast, Did, IfTold, HasFile, IsMissing, IsOpen, IsNotLost, MayBeWritten, bytes_named, file_bytes, length_told, MayDo, MayWrite, MayPrint};
ghost use Rattle.host_system.specs.View.{MayBeRead};
ghost use Rattle.host_system.specs.declared.system.FileName.TheVariants.{Journal};

use board_core::{Failed, FileNo};

/// A name in the working folder.
#[derive(Clone, Copy, Debug, PartialEq, Eq)]
pub enum FileName {
    /// `rasd.0` or `rasd.1`
    Journal(FileNo),
    /// `rasd.store`
    Store,
    /// `rasd.new`, which is to become `rasd.store`
    New,
}

/// The system calls on the working folder and on standard output.
///
/// A system may be modelled: its contracts then say what was done to the folder, provided that its
/// four names refer to regular files that nobody else changes. The real system isn't modelled. For
/// every system, modelled or not, a call returns `Failed` only if it raised the count of faults.
pub trait System {
    /// What was done to the folder and the output, if the system is modelled.
    ghost told: { Self → Option FolderPast };

    /// How often calls have failed.
    ghost faults: { Self → ℕ };

    /// Returns the length of the file with this name in bytes, or `None` if the file is missing.
    fn find(&mut self, name: FileName) -> Result<Option<u64>, Failed>
        ensures found { IfOk result (λ found. IfSome (told self.old)
            (λ p. found ≡ length_told name p)) }
        ensures told { told self.new ≡ told self.old }
        ensures cause { HasCause (faults self.old) (faults self.new) result };

    /// Opens a file to read and write it, and releases any lock on it. Requires that the file
    /// exists and that no sync of it failed.
    fn open(&mut self, name: FileName) -> Result<(), Failed>
        requires there { IfSome (told self.old) (HasFile name) }
        requires kept { IfSome (told self.old) (IsNotLost name) }
        ensures told { OnOk result (Did (opens name) (told self.old) (told self.new)) }
        ensures failed { OnErr result (told self.new ≡ told self.old) }
        ensures cause { HasCause (faults self.old) (faults self.new) result };

    /// Makes an empty file and opens it. Requires that the file is missing. After `Failed` it may
    /// exist.
    fn make(&mut self, name: FileName) -> Result<(), Failed>
        requires { IfSome (told self.old) (IsMissing name) }
        ensures told { OnOk result (Did (made name) (told self.old) (told self.new)) }
        ensures failed { OnErr result (IfTold (MayDo (made name)) (told self.old)
            (told self.new)) }
        ensures cause { HasCause (faults self.old) (faults self.new) result };

    /// Locks an open file, so that no other run has it.
    fn lock(&mut self, name: FileName) -> Result<(), Failed>
        requires { IfSome (told self.old) (IsOpen name) }
        ensures told { OnOk result (Did (locks name) (told self.old) (told self.new)) }
        ensures failed { OnErr result (told self.new ≡ told self.old) }
        ensures cause { HasCause (faults self.old) (faults self.new) result };

    /// Returns the first bytes of a file, at most `most`, or `None` if the file is missing. The
    /// file needn't be open.
    fn read(&mut self, name: FileName, most: u64) -> Result<Option<Vec<u8>>, Failed>
        ensures read { IfOk result (λ found. IfSome (told self.old)
            (λ p. MayBeRead name p → option_map (λ v. v.items) found
            ≡ option_map (take most) (bytes_named name p))) }
        ensures told { told self.new ≡ told self.old }
        ensures cause { HasCause (faults self.old) (faults self.new) result };

    /// Fills the buffer with the bytes of an open file from the offset `place` on. Requires that
    /// the file has that many bytes there.
    fn read_at(&mut self, name: FileName, place: u64, buf: &mut [u8]) -> Result<(), Failed>
        requires open { IfSome (told self.old) (IsOpen name) }
        requires within { IfSome (told self.old)
            (λ p. length buf.old ≤ length (drop place (file_bytes name p))) }
        ensures read { OnOk result (IfSome (told self.old)
            (λ p. buf.new ≡ take (length buf.old) (drop place (file_bytes name p)))) }
        ensures told { told self.new ≡ told self.old }
        ensures cause { HasCause (faults self.old) (faults self.new) result };

    /// Writes bytes at the offset `place`. Requires a file that is open, is locked if it is a
    /// journal file, isn't the record store's, and isn't shorter than `place`. After `Failed` any
    /// part may be written.
    fn write_at(&mut self, name: FileName, place: u64, bytes: &[u8]) -> Result<(), Failed>
        requires there { IfSome (told self.old) (HasFile name) }
        requires open { IfSome (told self.old) (MayBeWritten name) }
        requires within { IfSome (told self.old) (λ p. place ≤ length (file_bytes name p)) }
        ensures told { OnOk result
            (Did (wrote name place (length bytes.now) bytes.now) (told self.old)
            (told self.new)) }
        ensures failed { OnErr result (IfTold (MayWrite name place (length bytes.now))
            (told self.old) (told self.new)) }
        ensures cause { HasCause (faults self.old) (faults self.new) result };

    /// Makes the bytes of an open file durable. After `Failed` they may not be relied on, because
    /// the system may have dropped what was written and report the next sync as successful.
    fn sync(&mut self, name: FileName) -> Result<(), Failed>
        requires there { IfSome (told self.old) (HasFile name) }
        requires open { IfSome (told self.old) (IsOpen name) }
        ensures told { OnOk result (Did (synced name) (told self.old) (told self.new)) }
        ensures failed { OnErr result (Did (loses name) (told self.old) (told self.new)) }
        ensures cause { HasCause (faults self.old) (faults self.new) result };

    /// Makes durable what others wrote to a journal file that this system only reads, if the file
    /// exists. After `Failed` its bytes may not be relied on, as after a failed `sync`.
    fn sync_read(&mut self, file: FileNo) -> Result<(), Failed>
        requires { IfSome (told self.old) (IsNotLost (Journal file)) }
        ensures told { OnOk result (Did (synced (Journal file)) (told self.old)
            (told self.new)) }
        ensures failed { OnErr result (Did (loses (Journal file)) (told self.old)
            (told self.new)) }
        ensures cause { HasCause (faults self.old) (faults self.new) result };

    /// Removes a name, and its file unless the file has other names. Requires that the file exists.
    /// After `Failed` it may be removed.
    fn remove(&mut self, name: FileName) -> Result<(), Failed>
        requires { IfSome (told self.old) (HasFile name) }
        ensures told { OnOk result (Did (removed name) (told self.old) (told self.new)) }
        ensures failed { OnErr result (IfTold (MayDo (removed name)) (told self.old)
            (told self.new)) }
        ensures cause { HasCause (faults self.old) (faults self.new) result };

    /// Renames `rasd.new` to `rasd.store`, replacing any file with that name. Requires that
    /// `rasd.new` exists. After `Failed` it may be renamed.
    fn rename(&mut self) -> Result<(), Failed>
        requires { IfSome (told self.old) (HasFile FileName.New) }
        ensures told { OnOk result (Did renamed (told self.old) (told self.new)) }
        ensures failed { OnErr result (IfTold (MayDo renamed) (told self.old)
            (told self.new)) }
        ensures cause { HasCause (faults self.old) (faults self.new) result };

    /// Makes the folder's names durable. After `Failed` they are as durable as before.
    fn sync_names(&mut self) -> Result<(), Failed>
        ensures told { OnOk result (Did synced_names (told self.old) (told self.new)) }
        ensures failed { OnErr result (told self.new ≡ told self.old) }
        ensures cause { HasCause (faults self.old) (faults self.new) result };

    /// Appends to standard output. After `Failed` a beginning of the bytes may be printed.
    fn print(&mut self, bytes: &[u8]) -> Result<(), Failed>
        ensures told { OnOk result (Did (printed bytes.now) (told self.old) (told self.new)) }
        ensures failed { OnErr result (IfTold (MayPrint bytes.now) (told self.old)
            (told self.new)) }
        ensures cause { HasCause (faults self.old) (faults self.new) result };
}

/// Standard input.
pub trait Input {
    /// The bytes that are left, if the input is modelled.
    ghost left: { Self → Option (List ℕ) };

    /// How often reads have failed.
    ghost faults: { Self → ℕ };

    /// Reads the next bytes into the front of `buf` and returns their number, 0 at the end.
    /// Requires that `buf` isn't empty. A failed read takes no bytes.
    fn read(&mut self, buf: &mut [u8]) -> Result<usize, Failed>
        requires { 0 < length buf.old }
        ensures within { IfOk result (λ n. n ≤ length buf.old) }
        ensures taken { IfOk result (λ n. Takes n buf.new (left self.old) (left self.new)) }
        ensures failed { OnErr result (left self.new ≡ left self.old) }
        ensures cause { HasCause (faults self.old) (faults self.new) result };
}
