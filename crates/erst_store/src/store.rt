//! The record store.
ghost use Rattle.std.specs.Prelude.{◌≡◌, ◌<◌, ◌≤◌, length, [], Option, Some, false, nat_eq, IfOk, OnOk, OnErr, slice_get};
ghost use Rattle.std.specs.List.{position};
ghost use Rattle.std.specs.Bool.{IsFalse};
ghost use Rattle.std.specs.Option.{option_map};
ghost use Rattle.erst_store.specs.Store.{Fits, IsStore, ids, contents, holds, bytes_under, with_record, without, refusal_of, AnswersRefusal, SameBut};
ghost use Rattle.erst_store.specs.Steps.View.{views, StandsAt, Places, Finds};

use ras_base::NoMemory;
use std::alloc::Global;
use std::marker::Model;
use thiserror::Error;

/// The most records that a store contains.
pub const MOST_RECORDS: usize = 1024;

/// The most bytes of a record.
pub const MOST_BYTES: usize = 16_384;

/// Why a record can't be put: the first reason that applies, in this order.
#[derive(Clone, Copy, Debug, PartialEq, Eq, Drop, Error)]
pub enum PutRefused {
    /// The identifier is 0 or all ones, which no record has.
    #[error("the identifier is 0 or all ones, which name no record")]
    ReservedId,
    /// There are more than `MOST_BYTES` bytes.
    #[error("the record has more than {MOST_BYTES} bytes")]
    TooLong,
    /// The store has `MOST_RECORDS` records, none of them under this identifier.
    #[error("the store holds {MOST_RECORDS} records, none of them under this identifier")]
    StoreFull,
    /// Memory ran out.
    #[error("memory ran out")]
    NoMemory,
}

impl From<NoMemory> for PutRefused {
    ghost use Rattle.erst_store.specs.declared.store.PutRefused.TheVariants.{NoMemory};

    ghost from_gives = { λ _ e. e ≡ NoMemory };

    fn from(_: NoMemory) -> Self {
        PutRefused::NoMemory
    }
}

// A record under its identifier.
#[derive(Drop)]
struct Record {
    id: u64,
    bytes: Vec<u8>,
}

/// Error records, each under its own identifier, in the order in which their identifiers were first
/// stored.
#[derive(Drop)]
pub struct Store {
    alloc: Global,
    records: Vec<Record>,
}

impl Model for Store {
    ghost use Rattle.std.specs.Prelude.{List};
    ghost use Rattle.erst_store.specs.Store.{Stored, IsStore};
    ghost use Rattle.erst_store.specs.Steps.View.{views};

    ghost Value = { List Stored };

    ghost view = { λ s. views s.records.items };

    ghost invariant = { λ s. IsStore (views s.records.items) };
}

impl Store {
    /// Returns an empty store.
    pub fn new(alloc: Global) -> Store
        ensures { result ≡ [] }
    {
        Store {
            alloc,
            records: Vec::new(alloc),
        }
    }

    /// Puts a record under an identifier. It replaces the record under that identifier, or else
    /// comes after all others.
    ///
    /// Each error is returned if and only if it is the first that applies. The store is then
    /// unchanged.
    pub fn put(&mut self, id: u64, bytes: &[u8]) -> Result<(), PutRefused>
        ensures ok { OnOk result (self.new ≡ with_record id bytes.now self.old) }
        ensures err { OnErr result (self.new ≡ self.old) }
        ensures refused { AnswersRefusal result (refusal_of id bytes.now self.old) }
        ensures found { OnOk result (bytes_under id self.new ≡ Some bytes.now) }
        ensures others { SameBut id self.old self.new }
        ensures kept { OnOk result (IsStore self.new) }
    {
        if let Some(refused) = self.refusal(id, bytes) {
            return Err(refused);
        }
        match self.place(id) {
            Some(place) => self.replace(id, place, bytes)?,
            None => self.push(id, bytes)?,
        }
        Ok(())
    }

    /// Returns why `put` would refuse this record however much memory there is, or `None` if it
    /// wouldn't.
    pub fn refusal(&self, id: u64, bytes: &[u8]) -> Option<PutRefused>
        ensures { result ≡ refusal_of id bytes.now self.now }
    {
        if id == 0 || id == u64::MAX {
            return Some(PutRefused::ReservedId);
        }
        if bytes.len() > MOST_BYTES {
            return Some(PutRefused::TooLong);
        }
        if self.len() == MOST_RECORDS && self.place(id).is_none() {
            return Some(PutRefused::StoreFull);
        }
        None
    }

    /// Returns a copy of the store.
    pub fn copy(&self, alloc: Global) -> Result<Store, NoMemory>
        ensures { IfOk result (λ store. store ≡ self.now) }
    {
        let records = copies(alloc, &self.records)?;
        Ok(Store { alloc, records })
    }

    /// Returns how many records the store has.
    pub fn len(&self) -> usize
        ensures count { result ≡ length self.now }
        ensures kept { IsStore self.now }
    {
        self.records.len()
    }

    /// Returns the identifier of a record by its index in the store's order, from 0. The index has
    /// to be below `len`.
    pub fn id(&self, i: usize) -> u64
        requires { i < length self.now }
        ensures { slice_get (ids self.now) i ≡ Some result }
    {
        self.records[i].id
    }

    /// Returns the bytes of a record by its index in the store's order, from 0. The index has to be
    /// below `len`.
    pub fn bytes(&self, i: usize) -> &[u8]
        requires { i < length self.now }
        ensures there { slice_get (contents self.now) i ≡ Some result.now }
        ensures short { length result.now ≤ 16384 }
    {
        &self.records[i].bytes
    }

    // Returns the index of the record under an identifier.
    pub(crate) fn place(&self, id: u64) -> Option<usize>
        ensures place { Places id self.now result }
        ensures kept { IsStore self.now }
    {
        place_of(&self.records, id)
    }

    // Returns whether the store is empty.
    pub(crate) fn is_empty(&self) -> bool
        ensures { result ≡ nat_eq (length self.now) 0 }
    {
        self.len() == 0
    }

    // Returns the bytes under an identifier.
    pub(crate) fn find(&self, id: u64) -> Option<&[u8]>
        ensures { Finds id self.now (option_map (λ bytes. bytes.now) result) }
    {
        let _kept = self.len();
        match self.place(id) {
            Some(place) => Some(self.bytes(place)),
            None => None,
        }
    }

    // Removes the record under an identifier, and returns whether one was there.
    pub(crate) fn remove(&mut self, id: u64) -> bool
        ensures there { result ≡ holds id self.old }
        ensures rest { self.new ≡ without id self.old }
        ensures none { IsFalse result → self.new ≡ self.old }
        ensures kept { IsStore self.new }
    {
        match self.place(id) {
            Some(place) => {
                self.remove_at(id, place);
                true
            }
            None => false,
        }
    }

    // Removes the record at the index of its identifier.
    fn remove_at(&mut self, id: u64, place: usize)
        requires { StandsAt id self.old place }
        ensures rest { self.new ≡ without id self.old }
        ensures kept { IsStore self.new }
    {
        let _ = self.records.remove(place);
    }

    // Replaces the bytes of the record at an index.
    fn replace(&mut self, id: u64, place: usize, bytes: &[u8]) -> Result<(), NoMemory>
        requires there { StandsAt id self.old place }
        requires short { length bytes.now ≤ 16384 }
        ensures ok { OnOk result (self.new ≡ with_record id bytes.now self.old) }
        ensures err { OnErr result (self.new ≡ self.old) }
        ensures kept { IsStore self.new }
    {
        let bytes = Vec::from_slice(self.alloc, bytes)?;
        self.records[place] = Record { id, bytes };
        Ok(())
    }

    // Appends a record under a new identifier.
    fn push(&mut self, id: u64, bytes: &[u8]) -> Result<(), NoMemory>
        requires new { holds id self.old ≡ false }
        requires fits { Fits (record { id = id; bytes = bytes.now }) }
        requires room { length self.old < 1024 }
        ensures ok { OnOk result (self.new ≡ with_record id bytes.now self.old) }
        ensures err { OnErr result (self.new ≡ self.old) }
        ensures kept { IsStore self.new }
    {
        let bytes = Vec::from_slice(self.alloc, bytes)?;
        self.records.push(Record { id, bytes })?;
        Ok(())
    }
}

// Returns a copy of the records.
fn copies(alloc: Global, records: &[Record]) -> Result<Vec<Record>, NoMemory>
    ensures { IfOk result (λ copied. views copied.items ≡ views records.now) }
{
    let mut copied = Vec::with_capacity(alloc, records.len())?;
    for record in records {
        let bytes = Vec::from_slice(alloc, &record.bytes)?;
        copied.push(Record {
            id: record.id,
            bytes,
        })?;
    }
    Ok(copied)
}

// Returns the index of the record under an identifier.
fn place_of(records: &[Record], id: u64) -> Option<usize>
    ensures { result ≡ position (λ r. nat_eq r.id id) records.now }
{
    records.iter().position(|record| record.id == id)
}
