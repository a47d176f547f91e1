//! The record store's file.
ghost use Rattle.std.specs.Prelude.{IfSome, OnOk};
ghost use Rattle.board_core.specs.Cause.{HasCause};
ghost use Rattle.host_system.specs.Folder.{settled_file_of};
ghost use Rattle.host_system.specs.FolderPast.{IsMissing};
ghost use Rattle.host_system.specs.Steps.Quiet.{Quiet, HasNew};
ghost use Rattle.host_system.specs.StoreFile.{Replaces};

use crate::{FileName, System};
use board_core::Failed;

/// Replaces the record store's file by a file of these bytes.
///
/// A crash at any point leaves a store that a crash before might have left, or the store of these
/// bytes, and everything else unchanged. After `Ok` the file has these bytes and is durable.
///
/// # Errors
///
/// `Failed`: only if a call of the system failed, which is counted. The store is then the old one
/// or the new one.
pub fn replace_store<S: System>(bytes: &[u8], system: &mut S) -> Result<(), Failed>
    ensures replaces { Replaces bytes.now result (S.told system.old) (S.told system.new) }
    ensures cause { HasCause (S.faults system.old) (S.faults system.new) result }
{
    write_new(bytes, system)?;
    system.rename()?;
    system.sync_names()
}

// Makes `rasd.new` a durable file of these bytes.
fn write_new<S: System>(bytes: &[u8], system: &mut S) -> Result<(), Failed>
    ensures quiet { Quiet (S.told system.old) (S.told system.new) }
    ensures new { OnOk result
        (IfSome (S.told system.new) (HasNew (settled_file_of bytes.now))) }
    ensures cause { HasCause (S.faults system.old) (S.faults system.new) result }
{
    clear_new(system)?;
    system.make(FileName::New)?;
    system.write_at(FileName::New, 0, bytes)?;
    system.sync(FileName::New)
}

// Removes the file that a crash left under the name `rasd.new`, if the file exists.
fn clear_new<S: System>(system: &mut S) -> Result<(), Failed>
    ensures quiet { Quiet (S.told system.old) (S.told system.new) }
    ensures missing { OnOk result (IfSome (S.told system.new) (IsMissing FileName.New)) }
    ensures cause { HasCause (S.faults system.old) (S.faults system.new) result }
{
    match system.find(FileName::New)? {
        Some(_) => system.remove(FileName::New),
        None => Ok(()),
    }
}
