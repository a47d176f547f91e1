//! The model of the folder allows the results of the calls of any modelled system.
//!
//! Each function only makes the call with its name: its clauses are the point.
ghost use Rattle.std.specs.Prelude.{length, IfSome, OnOk};
ghost use Rattle.host_system.specs.FolderPast.{IfTold};
ghost use Rattle.host_system.specs.View.{MayBeRead};
ghost use Rattle.mem_system.specs.SystemCall.{MayAsk, did, to_find, to_open, to_make, to_lock, to_read, to_read_at, to_write_at, to_sync, to_sync_read, to_remove, to_rename, to_sync_names, to_print, did_or_failed, found_or_failed, gave_or_failed, filled_or_failed};
ghost use Rattle.mem_system.specs.Transcript.{Allows};

use board_core::{Failed, FileNo};
use host_system::{FileName, System};

/// Calls `System::find`.
pub fn find<S: System>(name: FileName, system: &mut S) -> Result<Option<u64>, Failed>
    ensures { IfTold (Allows (to_find name) (found_or_failed result)) (S.told system.old)
        (S.told system.new) }
{
    system.find(name)
}

/// Calls `System::open`.
pub fn open<S: System>(name: FileName, system: &mut S) -> Result<(), Failed>
    requires { IfSome (S.told system.old) (MayAsk (to_open name)) }
    ensures { IfTold (Allows (to_open name) (did_or_failed result)) (S.told system.old)
        (S.told system.new) }
{
    system.open(name)
}

/// Calls `System::make`.
pub fn make<S: System>(name: FileName, system: &mut S) -> Result<(), Failed>
    requires { IfSome (S.told system.old) (MayAsk (to_make name)) }
    ensures { IfTold (Allows (to_make name) (did_or_failed result)) (S.told system.old)
        (S.told system.new) }
{
    system.make(name)
}

/// Calls `System::lock`.
pub fn lock<S: System>(name: FileName, system: &mut S) -> Result<(), Failed>
    requires { IfSome (S.told system.old) (MayAsk (to_lock name)) }
    ensures { IfTold (Allows (to_lock name) (did_or_failed result)) (S.told system.old)
        (S.told system.new) }
{
    system.lock(name)
}

/// Calls `System::read`. A file whose bytes may not be relied on may give any bytes.
pub fn read<S: System>(name: FileName, most: u64, system: &mut S) -> Result<Option<Vec<u8>>, Failed>
    ensures { IfTold
        (λ old new. MayBeRead name old → Allows (to_read name most) (gave_or_failed result) old new)
        (S.told system.old) (S.told system.new) }
{
    system.read(name, most)
}

/// Calls `System::read_at`.
pub fn read_at<S: System>(
    name: FileName,
    place: u64,
    buf: &mut [u8],
    system: &mut S,
) -> Result<(), Failed>
    requires { IfSome (S.told system.old) (MayAsk (to_read_at name place (length buf.old))) }
    ensures { IfTold (Allows (to_read_at name place (length buf.old))
        (filled_or_failed buf.new result)) (S.told system.old) (S.told system.new) }
{
    system.read_at(name, place, buf)
}

/// Calls `System::write_at`. After `Failed` the clauses of `System` say less than `Allows`: they
/// don't say that the numbers that arrived are below 256.
pub fn write_at<S: System>(
    name: FileName,
    place: u64,
    bytes: &[u8],
    system: &mut S,
) -> Result<(), Failed>
    requires { IfSome (S.told system.old) (MayAsk (to_write_at name place bytes.now)) }
    ensures { OnOk result (IfTold (Allows (to_write_at name place bytes.now) did)
        (S.told system.old) (S.told system.new)) }
{
    system.write_at(name, place, bytes)
}

/// Calls `System::sync`.
pub fn sync<S: System>(name: FileName, system: &mut S) -> Result<(), Failed>
    requires { IfSome (S.told system.old) (MayAsk (to_sync name)) }
    ensures { IfTold (Allows (to_sync name) (did_or_failed result)) (S.told system.old)
        (S.told system.new) }
{
    system.sync(name)
}

/// Calls `System::sync_read`.
pub fn sync_read<S: System>(file: FileNo, system: &mut S) -> Result<(), Failed>
    requires { IfSome (S.told system.old) (MayAsk (to_sync_read file)) }
    ensures { IfTold (Allows (to_sync_read file) (did_or_failed result)) (S.told system.old)
        (S.told system.new) }
{
    system.sync_read(file)
}

/// Calls `System::remove`.
pub fn remove<S: System>(name: FileName, system: &mut S) -> Result<(), Failed>
    requires { IfSome (S.told system.old) (MayAsk (to_remove name)) }
    ensures { IfTold (Allows (to_remove name) (did_or_failed result)) (S.told system.old)
        (S.told system.new) }
{
    system.remove(name)
}

/// Calls `System::rename`.
pub fn rename<S: System>(system: &mut S) -> Result<(), Failed>
    requires { IfSome (S.told system.old) (MayAsk to_rename) }
    ensures { IfTold (Allows to_rename (did_or_failed result)) (S.told system.old)
        (S.told system.new) }
{
    system.rename()
}

/// Calls `System::sync_names`.
pub fn sync_names<S: System>(system: &mut S) -> Result<(), Failed>
    ensures { IfTold (Allows to_sync_names (did_or_failed result)) (S.told system.old)
        (S.told system.new) }
{
    system.sync_names()
}

/// Calls `System::print`.
pub fn print<S: System>(bytes: &[u8], system: &mut S) -> Result<(), Failed>
    ensures { IfTold (Allows (to_print bytes.now) (did_or_failed result)) (S.told system.old)
        (S.told system.new) }
{
    system.print(bytes)
}
