//! The bytes of a store's file in memory, from which a record is removed in place.
ghost use Rattle.std.specs.Prelude.{◌≡◌, ℕ, ◌+◌, ◌<◌, ◌≤◌, ◌++◌, length, take, drop, IsFalse};
ghost use Rattle.std.specs.List.{flat_map};
ghost use Rattle.ras_base.specs.LittleEndian.{u32_bytes};
ghost use Rattle.erst_store.specs.Store.{IsStore, holds, without};
ghost use Rattle.erst_store.specs.StoreFile.{record_bytes, store_bytes};
ghost use Rattle.erst_store.specs.Steps.View.{StandsAt};

use crate::reading::{HEADING_LENGTH, MAGIC, RECORD_HEADING_LENGTH};
use crate::store::Store;
use std::marker::Model;

/// The bytes of a store's file.
///
/// Most clears remove a record near the front. So the file begins at `start`, and a removal moves
/// only the bytes before the record.
#[derive(Drop)]
pub struct StoreFile {
    bytes: Vec<u8>,
    start: usize,
}

impl Model for StoreFile {
    ghost use Rattle.std.specs.Prelude.{ℕ, ◌≤◌, List, length, drop};

    ghost Value = { List ℕ };

    ghost view = { λ f. drop f.start f.bytes.items };

    ghost invariant = { λ f. f.start ≤ length f.bytes.items };
}

impl StoreFile {
    /// Returns the file with these bytes.
    pub fn new(bytes: Vec<u8>) -> StoreFile
        ensures { result ≡ bytes.items }
    {
        StoreFile { bytes, start: 0 }
    }

    /// Returns the file's bytes.
    pub fn as_slice(&self) -> &[u8]
        ensures { result.now ≡ self.now }
    {
        &self.bytes[self.start..]
    }

    /// Removes the record under an identifier from the file of `store`, and returns whether one was
    /// there. Requires that these are the bytes of the store's file.
    pub fn remove(&mut self, store: &Store, id: u64) -> bool
        requires { self.old ≡ store_bytes store.now }
        ensures there { result ≡ holds id store.now }
        ensures rest { self.new ≡ store_bytes (without id store.now) }
        ensures none { IsFalse result → self.new ≡ self.old }
    {
        match store.place(id) {
            Some(place) => {
                self.remove_at(store, id, place);
                true
            }
            None => false,
        }
    }

    // Removes the record at the place of its identifier.
    fn remove_at(&mut self, store: &Store, id: u64, place: usize)
        requires file { self.old ≡ store_bytes store.now }
        requires there { StandsAt id store.now place }
        requires kept { IsStore store.now }
        ensures { self.new ≡ store_bytes (without id store.now) }
    {
        let before = length_before(store, place);
        self.cut(before, RECORD_HEADING_LENGTH + store.bytes(place).len());
        self.set_count(store.len() as u32 - 1);
    }

    // Removes this many bytes from the offset `at` on: turns them to the front, and begins after
    // them.
    fn cut(&mut self, at: usize, count: usize)
        requires { at + count ≤ length self.old }
        ensures { self.new ≡ take at self.old ++ drop (at + count) self.old }
    {
        let end = self.start + at + count;
        self.bytes[self.start..end].rotate_left(at);
        self.start += count;
    }

    // Writes the number of records into the heading.
    fn set_count(&mut self, count: u32)
        requires { 12 ≤ length self.old }
        ensures { self.new ≡ take 8 self.old ++ u32_bytes count ++ drop 12 self.old }
    {
        let place = self.start + MAGIC.len();
        self.bytes[place..place + 4].copy_from_slice(&count.to_le_bytes());
    }
}

// Returns the number of bytes of a store's file before the record at an index.
fn length_before(store: &Store, place: usize) -> usize
    requires within { place < length store.now }
    requires kept { IsStore store.now }
    ensures { result ≡ 12 + length (flat_map record_bytes (take place store.now)) }
{
    let mut before = HEADING_LENGTH;
    for i in 0..place {
        before += RECORD_HEADING_LENGTH + store.bytes(i).len();
    }
    before
}
