//! The record store of the working folder, and a device over it.
ghost use Rattle.std.specs.Prelude.{◌≡◌, IfOk, IfSome, IsOk};
ghost use Rattle.std.specs.Option.{option_map};
ghost use Rattle.board_core.specs.Cause.{HasCause};
ghost use Rattle.erst_store.specs.Device.{new_device};
ghost use Rattle.erst_store.specs.StoreFile.{store_bytes};
ghost use Rattle.host_system.specs.FolderPast.{bytes_named};
ghost use Rattle.host_system.specs.View.{HasWholeStore, IsFileOf, seen_now, store_in};
ghost use Rattle.ras_host.specs.Steps.Failures.{system_failure};

use crate::faults::CallFailed;
use erst_store::{Dev, MOST_BYTES, MOST_RECORDS, Store, StoreFile};
use host_system::{FileName, System};
use std::alloc::Global;

/// The number of bytes before a record's bytes in the store's file: its identifier and its length.
pub const RECORD_HEADING: usize = 12;

// The greatest length of the record store's file: its letters, the number of records, and the
// records.
const LONGEST_STORE: u64 = 12 + MOST_RECORDS as u64 * (RECORD_HEADING + MOST_BYTES) as u64;

/// A device whose record store is in its file. `file` has the bytes of the file, or those that it
/// would have if it weren't missing.
#[derive(Drop)]
pub struct Saved {
    pub device: Dev,
    pub file: StoreFile,
    ghost same: { file ≡ store_bytes device.store },
}

impl Saved {
    /// Returns a new device over the record store of the working folder. The store's file is
    /// missing, or it is the file of the device's store.
    ///
    /// # Errors
    ///
    /// `System`: the store's file can't be read. `Refused`: it isn't a store, or memory ran out.
    pub fn read<S: System>(alloc: Global, system: &mut S) -> Result<Saved, CallFailed>
        requires { IfSome (S.told system.old) HasWholeStore }
        ensures new { IfOk result (λ saved. IfSome (S.told system.old)
            (λ p. saved.device ≡ new_device (seen_now p).store 0)) }
        ensures file { IfOk result (λ saved. IfSome (S.told system.old)
            (λ p. IsFileOf saved.device.store (bytes_named FileName.Store p))) }
        ensures fresh { IfOk result (λ saved. saved.device ≡ new_device saved.device.store 0) }
        ensures told { S.told system.new ≡ S.told system.old }
        ensures cause { HasCause (S.faults system.old) (S.faults system.new)
            (system_failure result) }
    {
        let found = read_store(system)?;
        let store = store_from(alloc, found)?;
        let Ok(file) = store.to_bytes(alloc) else {
            return Err(CallFailed::Refused);
        };
        let Ok(device) = Dev::new(alloc, store, 0) else {
            return Err(CallFailed::Refused);
        };
        Ok(Saved {
            device,
            file: StoreFile::new(file),
        })
    }
}

// Returns the bytes of the record store's file, or `None` if it is missing. A file that is longer
// than any store's is an error, before memory is allocated for it.
fn read_store<S: System>(system: &mut S) -> Result<Option<Vec<u8>>, CallFailed>
    requires { IfSome (S.told system.old) HasWholeStore }
    ensures read { IfOk result (λ found. IfSome (S.told system.old)
        (λ p. option_map (λ v. v.items) found ≡ bytes_named FileName.Store p)) }
    ensures told { S.told system.new ≡ S.told system.old }
    ensures cause { HasCause (S.faults system.old) (S.faults system.new) (system_failure result) }
{
    match system.find(FileName::Store)? {
        Some(length) if length > LONGEST_STORE => Err(CallFailed::Refused),
        Some(_) => system
            .read(FileName::Store, LONGEST_STORE)
            .or(Err(CallFailed::System)),
        None => Ok(None),
    }
}

// Returns the store whose file has these bytes, or the empty store without a file. Bytes that aren't
// a store's file are an error: a store that is damaged isn't empty.
fn store_from(alloc: Global, found: Option<Vec<u8>>) -> Result<Store, CallFailed>
    ensures seen { IfOk result (λ store. store ≡ store_in (option_map (λ v. v.items) found)) }
    ensures file { IfOk result (λ store. IsFileOf store (option_map (λ v. v.items) found)) }
    ensures cause { IsOk (system_failure result) }
{
    match found {
        Some(bytes) => Store::from_bytes(alloc, &bytes).or(Err(CallFailed::Refused)),
        None => Ok(Store::new(alloc)),
    }
}
