//! Opening and reading a board's two files.
ghost use Rattle.std.specs.Prelude.{◌≡◌, ◌≤◌, length, IfSome, IfOk, OnOk};
ghost use Rattle.board_core.specs.Cause.{HasCause};
ghost use Rattle.board_core.specs.Clock.{Passes};
ghost use Rattle.board_core.specs.Stop.{Same, file_in};
ghost use Rattle.board_core.specs.Told.{ReadsBytes};
ghost use Rattle.host_system.specs.BoardFile.{IsUsable, IsOpenable, IsHeld, AreOpenable, AreOpened, KeepsStore, KeepsOthers, SeesSame};
ghost use Rattle.host_system.specs.FolderPast.{IfTold, HasFile, IsOpen};
ghost use Rattle.host_system.specs.View.{clock_over, seen_now};
ghost use Rattle.host_system.specs.declared.system.FileName.TheVariants.{Journal};

use crate::{FileName, System};
use board_core::{Failed, FileNo};

/// Opens and locks both files, makes those that are missing, and then makes all names durable, even
/// if this call made no file. Requires that no sync of either file failed.
///
/// # Errors
///
/// `Failed`: only if a call of the system failed, which is counted.
pub fn open_files<S: System>(system: &mut S) -> Result<(), Failed>
    requires { IfSome (S.told system.old) AreOpenable }
    ensures told { IfTold SeesSame (S.told system.old) (S.told system.new) }
    ensures store { IfTold KeepsStore (S.told system.old) (S.told system.new) }
    ensures stops { Passes Same (clock_over (S.told system.old)) (clock_over (S.told system.new)) }
    ensures openable { IfSome (S.told system.new) AreOpenable }
    ensures opened { OnOk result (IfSome (S.told system.new) AreOpened) }
    ensures cause { HasCause (S.faults system.old) (S.faults system.new) result }
{
    open_file(FileNo::Zero, system)?;
    open_file(FileNo::One, system)?;
    system.sync_names()
}

// Opens a file and locks it. A missing file is made.
fn open_file<S: System>(file: FileNo, system: &mut S) -> Result<(), Failed>
    requires { IfSome (S.told system.old) (IsOpenable file) }
    ensures told { IfTold SeesSame (S.told system.old) (S.told system.new) }
    ensures keeps { IfTold (KeepsOthers file) (S.told system.old) (S.told system.new) }
    ensures stops { Passes Same (clock_over (S.told system.old)) (clock_over (S.told system.new)) }
    ensures openable { IfSome (S.told system.new) (IsOpenable file) }
    ensures held { OnOk result (IfSome (S.told system.new) (IsHeld file)) }
    ensures cause { HasCause (S.faults system.old) (S.faults system.new) result }
{
    open_or_make(file, system)?;
    system.lock(FileName::Journal(file))
}

// Opens a file. A missing file is made.
fn open_or_make<S: System>(file: FileNo, system: &mut S) -> Result<(), Failed>
    requires { IfSome (S.told system.old) (IsOpenable file) }
    ensures told { IfTold SeesSame (S.told system.old) (S.told system.new) }
    ensures keeps { IfTold (KeepsOthers file) (S.told system.old) (S.told system.new) }
    ensures stops { Passes Same (clock_over (S.told system.old)) (clock_over (S.told system.new)) }
    ensures openable { IfSome (S.told system.new) (IsOpenable file) }
    ensures there { OnOk result (IfSome (S.told system.new) (HasFile (Journal file))) }
    ensures opened { OnOk result (IfSome (S.told system.new) (IsOpen (Journal file))) }
    ensures cause { HasCause (S.faults system.old) (S.faults system.new) result }
{
    match system.find(FileName::Journal(file))? {
        Some(_) => system.open(FileName::Journal(file)),
        None => system.make(FileName::Journal(file)),
    }
}

/// Reads the bytes from the offset `place` on into the front of a buffer, and returns their number,
/// which is smaller than the buffer only if the file ends. Requires a usable file.
///
/// # Errors
///
/// `Failed`: only if a call of the system failed, which is counted.
pub fn read_file<S: System>(
    file: FileNo,
    place: u64,
    buf: &mut [u8],
    system: &mut S,
) -> Result<usize, Failed>
    requires { IfSome (S.told system.old) (IsUsable file) }
    ensures within { IfOk result (λ n. n ≤ length buf.old) }
    ensures read { IfOk result (λ n. IfSome (S.told system.old)
        (λ p. ReadsBytes place n buf.new (file_in file (seen_now p)))) }
    ensures told { S.told system.new ≡ S.told system.old }
    ensures cause { HasCause (S.faults system.old) (S.faults system.new) result }
{
    let found = system.find(FileName::Journal(file))?;
    let left = found.unwrap_or(0).saturating_sub(place);
    let count = left.min(buf.len() as u64) as usize;
    system.read_at(FileName::Journal(file), place, &mut buf[..count])?;
    Ok(count)
}
