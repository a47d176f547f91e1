//! Converts a store to the bytes of its file, and back.
ghost use Rattle.std.specs.Prelude.{◌≡◌, ◌≤◌, List, [], ◌++◌, length, IfOk, OnOk};
ghost use Rattle.erst_store.specs.Store.{Stored, IsStore};
ghost use Rattle.erst_store.specs.StoreFile.{record_bytes, store_bytes, ReadsStore, ReadsBack};
ghost use Rattle.erst_store.specs.StoreReading.{GivesStore, front_number, front_record, with_next, records_at, count_at, file_at};

use crate::store::{PutRefused, Store};
use ras_base::NoMemory;
use ras_base::little_endian::{push_u32, push_u64, u32_at, u64_at};
use std::alloc::Global;
use thiserror::Error;

/// Why bytes can't be read as a store.
#[derive(Clone, Copy, Debug, PartialEq, Eq, Drop, Error)]
pub enum StoreRefused {
    /// The bytes aren't a store file.
    #[error("the bytes are no store file")]
    Malformed,
    /// Memory ran out.
    #[error("memory ran out")]
    NoMemory,
}

// The first bytes of a store file.
pub(crate) const MAGIC: &[u8; 8] = b"RASERST1";

// How many bytes come before all records, and before the bytes of each record.
pub(crate) const HEADING_LENGTH: usize = 12;

pub(crate) const RECORD_HEADING_LENGTH: usize = 12;

impl Store {
    /// Returns the bytes of the store's file: eight letters, the number of records in 4 bytes, and
    /// for each record its identifier in 8 bytes, its length in 4 and its bytes. All numbers are
    /// little-endian.
    pub fn to_bytes(&self, alloc: Global) -> Result<Vec<u8>, NoMemory>
        ensures { IfOk result (λ v. v.items ≡ store_bytes self.now) }
    {
        let mut out = self.room(alloc, 0)?;
        self.push_bytes(&mut out)?;
        Ok(out)
    }

    /// Appends the bytes of the store's file, as `to_bytes` returns them.
    ///
    /// `NoMemory`: only if memory runs out.
    pub fn push_bytes(&self, out: &mut Vec<u8>) -> Result<(), NoMemory>
        ensures { OnOk result (out.new.items ≡ out.old.items ++ store_bytes self.now) }
    {
        out.extend_from_slice(MAGIC)?;
        push_u32(out, self.len() as u32)?;
        for i in 0..self.len() {
            push_record(out, self.id(i), self.bytes(i))?;
        }
        Ok(())
    }

    /// Returns an empty vector with room for the store's file and for `more` bytes after it.
    pub fn room(&self, alloc: Global, more: usize) -> Result<Vec<u8>, NoMemory>
        ensures { IfOk result (λ v. v.items ≡ []) }
    {
        let mut length = HEADING_LENGTH.saturating_add(more);
        for i in 0..self.len() {
            length = length.saturating_add(RECORD_HEADING_LENGTH + self.bytes(i).len());
        }
        Ok(Vec::with_capacity(alloc, length)?)
    }

    /// Returns the store whose file these bytes are.
    ///
    /// `Malformed`: if and only if the bytes aren't a store file. A store file is refused only if
    /// memory runs out.
    pub fn from_bytes(alloc: Global, bytes: &[u8]) -> Result<Store, StoreRefused>
        ensures gives { GivesStore (λ store. store) result (file_at bytes.now) }
        ensures read { ReadsStore bytes.now result }
        ensures back { (records : List Stored) → IsStore records → bytes.now ≡ store_bytes records
            → ReadsBack records result }
    {
        read_all(alloc, bytes)
    }

    // Appends a record, if it may come after the others.
    fn append(&mut self, id: u64, bytes: &[u8]) -> Result<(), StoreRefused>
        ensures { GivesStore (λ _. self.new) result (with_next (record { id = id; bytes = bytes.now })
            self.old) }
    {
        if self.place(id).is_some() {
            return Err(StoreRefused::Malformed);
        }
        match self.put(id, bytes) {
            Ok(()) => Ok(()),
            Err(PutRefused::NoMemory) => Err(StoreRefused::NoMemory),
            Err(_) => Err(StoreRefused::Malformed),
        }
    }
}

// Appends a record: its identifier, its length and its bytes.
fn push_record(out: &mut Vec<u8>, id: u64, bytes: &[u8]) -> Result<(), NoMemory>
    requires { length bytes.now ≤ 16384 }
    ensures { OnOk result (out.new.items ≡ out.old.items ++ record_bytes
        (record { id = id; bytes = bytes.now })) }
{
    push_u64(out, id)?;
    push_u32(out, bytes.len() as u32)?;
    out.extend_from_slice(bytes)?;
    Ok(())
}

// Returns the number in the first 4 bytes, and the bytes after it.
fn front_u32(bytes: &[u8]) -> Result<(u32, &[u8]), StoreRefused>
    ensures { GivesStore (λ x. (x.0, x.1.now)) result (front_number 4 bytes.now) }
{
    if bytes.len() < 4 {
        return Err(StoreRefused::Malformed);
    }
    let (_, rest) = bytes.split_at(4);
    Ok((u32_at(bytes, 0), rest))
}

// Returns the number in the first 8 bytes, and the bytes after it.
fn front_u64(bytes: &[u8]) -> Result<(u64, &[u8]), StoreRefused>
    ensures { GivesStore (λ x. (x.0, x.1.now)) result (front_number 8 bytes.now) }
{
    if bytes.len() < 8 {
        return Err(StoreRefused::Malformed);
    }
    let (_, rest) = bytes.split_at(8);
    Ok((u64_at(bytes, 0), rest))
}

// Returns the number of records that a file states, and the bytes after it.
#[tactic(auto, unfolding(crate::specs::StoreReading::count_at))]
fn count_of(bytes: &[u8]) -> Result<(u32, &[u8]), StoreRefused>
    ensures { GivesStore (λ x. (x.0, x.1.now)) result (count_at bytes.now) }
{
    match bytes.strip_prefix(MAGIC) {
        Some(rest) => front_u32(rest),
        None => Err(StoreRefused::Malformed),
    }
}

// Returns the first record of these bytes, and the bytes after it.
#[tactic(auto, unfolding(crate::specs::StoreReading::front_record))]
fn front_record(bytes: &[u8]) -> Result<(u64, &[u8], &[u8]), StoreRefused>
    ensures { GivesStore (λ x. (record { id = x.0; bytes = x.1.now }, x.2.now)) result (front_record bytes.now) }
{
    let (id, rest) = front_u64(bytes)?;
    let (len, rest) = front_u32(rest)?;
    let len = len as usize;
    if rest.len() < len {
        return Err(StoreRefused::Malformed);
    }
    let (content, rest) = rest.split_at(len);
    Ok((id, content, rest))
}

// Returns the store of this many records, which take up all of these bytes.
fn records_of(alloc: Global, count: u32, bytes: &[u8]) -> Result<Store, StoreRefused>
    ensures { GivesStore (λ s. s) result (records_at count [] bytes.now) }
{
    let mut store = Store::new(alloc);
    let mut rest = bytes;
    for _ in 0..count {
        let (id, content, after) = front_record(rest)?;
        store.append(id, content)?;
        rest = after;
    }
    if !rest.is_empty() {
        return Err(StoreRefused::Malformed);
    }
    Ok(store)
}

// Returns the store whose file these bytes are, all of them.
#[tactic(auto, unfolding(crate::specs::StoreReading::file_at))]
fn read_all(alloc: Global, bytes: &[u8]) -> Result<Store, StoreRefused>
    ensures { GivesStore (λ s. s) result (file_at bytes.now) }
{
    let (count, rest) = count_of(bytes)?;
    records_of(alloc, count, rest)
}
