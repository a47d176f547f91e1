//! The table: the keys with their rows, and the reserved keys.

ghost use Rattle.std.specs.Prelude.{◌≡◌, ◌↔◌, ◌<◌, ◌≤◌, ◌^◌, ◌++◌, [], ◌∷◌, not, map, IsTrue, Some, Err, IfOk, OnOk, OnErr, length, slice_get, take, drop, filter, nat_eq, ◌-◌, ◌||◌, Bool};
ghost use Rattle.std.specs.Bool.{IsFalse, OnTrue};
ghost use Rattle.std.specs.List.{list_any};
ghost use Rattle.std.specs.Map.{keys_of, values_of, lookup};
ghost use Rattle.indexmap.specs.IndexMap.{set_value_at};
ghost use Rattle.row_tables.specs.Tables.{added_keys};
ghost use Rattle.row_tables.specs.Held.{all_keys, is_held, is_there, is_ready, new_keys, waiting_with, waiting_rows, kept_entries, IsPlace, PutsAt};
ghost use Rattle.row_tables.specs.declared.row_table.RowRefused.TheVariants.{Repeated};

use indexmap::IndexMap;
use ras_base::{ExactEq, NoMemory};
use std::alloc::Global;
use std::hash::Hash;
use std::marker::Model;

/// A test of keys, by which a table keeps or removes rows.
pub trait KeyTest<K> {
    ghost passes: { Self → K → Bool };

    /// Returns whether a key passes.
    fn passes(&self, key: &K) -> bool
        ensures { result ≡ passes self.now key.now };
}

/// Why a row can't be appended.
#[derive(Clone, Copy, Debug, PartialEq, Eq)]
pub enum RowRefused {
    /// The key has a row.
    Repeated,
    /// Memory ran out.
    NoMemory,
}

/// Keys in the order in which they were added, each with its row, and after them reserved keys,
/// which wait for a row.
///
/// A key is reserved so that its row can be added later without allocating memory. Each key is
/// there once.
#[derive(Drop)]
pub struct RowTable<K: Hash + ExactEq + Copy, R: Copy> {
    table: IndexMap<K, R>,
    held: usize,
}

impl<K: Hash + ExactEq + Copy, R: Copy> Model for RowTable<K, R> {
    ghost use Rattle.std.specs.Prelude.{◌≤◌, length, take, drop};
    ghost use Rattle.std.specs.Map.{keys_of};
    ghost use Rattle.row_tables.specs.Held.{Held};

    ghost Value = { Held K R };

    ghost view = { λ t. record {
      rows = take t.held t.table.entries;
      waiting = drop t.held (keys_of t.table.entries);
    } };

    ghost invariant = { λ t. t.held ≤ length t.table.entries };
}

impl<K: Hash + ExactEq + Copy, R: Copy> RowTable<K, R> {
    /// Returns a table without rows and without reserved keys.
    pub fn new(alloc: Global) -> RowTable<K, R>
        ensures rows { result.rows ≡ [] }
        ensures waiting { result.waiting ≡ [] }
    {
        RowTable {
            table: IndexMap::new(alloc),
            held: 0,
        }
    }

    /// Returns how many keys have a row.
    pub fn len(&self) -> usize
        ensures { result ≡ length self.now.rows }
    {
        self.held
    }

    /// Returns whether no key has a row.
    pub fn is_empty(&self) -> bool
        ensures { IsTrue result ↔ (self.now.rows ≡ []) }
    {
        self.held == 0
    }

    /// Returns how many keys have a row or are reserved.
    pub fn len_with_waiting(&self) -> usize
        ensures { result ≡ length (all_keys self.now) }
    {
        self.table.len()
    }

    /// Returns the key with a row at an index, from 0.
    pub fn key(&self, place: usize) -> &K
        requires { place < length self.now.rows }
        ensures { slice_get (keys_of self.now.rows) place ≡ Some result.now }
    {
        &self.table.keys().as_slice()[place]
    }

    /// Returns the row at an index, from 0.
    pub fn row(&self, place: usize) -> &R
        requires { place < length self.now.rows }
        ensures { slice_get (values_of self.now.rows) place ≡ Some result.now }
    {
        &self.table[place]
    }

    /// Returns whether a key has a row.
    pub fn holds(&self, key: &K) -> bool
        ensures { result ≡ is_held K.eq self.now.rows key.now }
    {
        match self.table.get_index_of(key) {
            Some(place) => place < self.held,
            None => false,
        }
    }

    /// Returns whether a key is the first reserved one, by one comparison and without a hash. A key
    /// with a row is never reserved.
    pub fn waits_first(&self, key: &K) -> bool
        ensures first { result ≡ list_any (K.eq key.now) (take 1 self.now.waiting) }
        ensures apart { OnTrue result (IsFalse (is_held K.eq self.now.rows key.now)) }
    {
        self.held < self.table.len() && *key == self.table.keys().as_slice()[self.held]
    }

    /// Returns the index of a key, and its row if it has one. Requires that the key has a row or is
    /// the first reserved one.
    pub fn find(&self, key: &K) -> (usize, Option<R>)
        requires { IsTrue (is_ready K.eq self.now key.now) }
        ensures place { IsPlace K.eq key.now (all_keys self.now) result.0 }
        ensures there { result.0 < length (all_keys self.now) }
        ensures next { result.0 ≤ length self.now.rows }
        ensures row { result.1 ≡ lookup (K.eq key.now) self.now.rows }
    {
        let place = place_of(&self.table, key);
        (place, row_at(&self.table, self.held, place))
    }

    /// Puts a row at an index that `find` returned. If the key there was reserved, it has a row
    /// now.
    pub fn put(&mut self, place: usize, row: R)
        requires there { place < length (all_keys self.old) }
        requires next { place ≤ length self.old.rows }
        ensures { PutsAt K.eq self.old self.new place row }
    {
        // The length fits a `usize`, so `place + 1` does too.
        let _len = self.table.len();
        self.table[place] = row;
        self.held = self.held.max(place + 1);
    }

    /// Replaces the row at an index.
    pub fn set_row(&mut self, place: usize, row: R)
        requires { place < length self.old.rows }
        ensures rows { self.new.rows ≡ set_value_at self.old.rows place row }
        ensures waiting { self.new.waiting ≡ self.old.waiting }
    {
        self.table[place] = row;
    }

    /// Appends a row for the first reserved key. Requires that a key is reserved.
    pub fn begin_next(&mut self, row: R)
        requires { 0 < length self.old.waiting }
        ensures rows { self.new.rows ≡ self.old.rows ++ waiting_rows row (take 1 self.old.waiting) }
        ensures waiting { self.new.waiting ≡ drop 1 self.old.waiting }
    {
        let _len = self.table.len();
        self.table[self.held] = row;
        self.held += 1;
    }

    /// Appends a key with its row. Requires that no key is reserved. After an error the rows are
    /// unchanged.
    ///
    /// `Repeated`: if and only if the key has a row.
    pub fn push_row(&mut self, key: K, row: R) -> Result<(), RowRefused>
        requires { self.old.waiting ≡ [] }
        ensures ok { OnOk result (self.new.rows ≡ self.old.rows ++ (key, row) ∷ []) }
        ensures waiting { self.new.waiting ≡ [] }
        ensures err { OnErr result (self.new.rows ≡ self.old.rows) }
        ensures repeated { (result ≡ Err Repeated) ↔ IsTrue (is_held K.eq self.old.rows key) }
    {
        match insert_last(&mut self.table, key, row) {
            Ok(true) => {
                self.held = self.table.len();
                Ok(())
            }
            Ok(false) => Err(RowRefused::Repeated),
            Err(NoMemory) => Err(RowRefused::NoMemory),
        }
    }

    /// Reserves memory for this many more keys at once, so that the table needn't grow again and
    /// again as it is filled. Its contents don't change.
    pub fn make_room(&mut self, additional: usize) -> Result<(), NoMemory>
        ensures { self.new ≡ self.old }
    {
        self.table.reserve(additional)?;
        Ok(())
    }

    /// Removes all reserved keys.
    pub fn give_up(&mut self)
        ensures rows { self.new.rows ≡ self.old.rows }
        ensures waiting { self.new.waiting ≡ [] }
    {
        self.table.truncate(self.held);
    }

    /// Removes the rows whose keys fail the test. The other rows keep their order, and reserved
    /// keys stay.
    pub fn retain<T: KeyTest<K>>(&mut self, test: &T)
        ensures rows { self.new.rows ≡ filter (λ e. T.passes test.now e.0) self.old.rows }
        ensures waiting { self.new.waiting ≡ self.old.waiting }
    {
        let waiting = self.table.len() - self.held;
        keep_passing(&mut self.table, self.held, test);
        self.held = self.table.len() - waiting;
    }

    /// Reserves a key after the other reserved keys, unless it has a row or is reserved already.
    /// Returns whether it was new. Nothing reads `row` while the key is reserved.
    pub fn let_wait(&mut self, key: K, row: R) -> Result<bool, NoMemory>
        ensures rows { self.new.rows ≡ self.old.rows }
        ensures ok { OnOk result (self.new.waiting ≡ waiting_with K.eq self.old (key ∷ [])) }
        ensures fresh { IfOk result (λ fresh. fresh ≡ not (is_there K.eq self.old key)) }
        ensures err { OnErr result (self.new.waiting ≡ self.old.waiting) }
    {
        insert_last(&mut self.table, key, row)
    }

    /// Reserves those of these keys that have no row, in the order in which they first appear, each
    /// once. Earlier reservations are dropped, and after `NoMemory` no key is reserved.
    pub fn reserve(&mut self, keys: &[K], row: R) -> Result<(), NoMemory>
        ensures rows { self.new.rows ≡ self.old.rows }
        ensures ok { OnOk result (self.new.waiting ≡ new_keys K.eq self.old.rows keys.now) }
        ensures err { OnErr result (self.new.waiting ≡ []) }
    {
        self.give_up();
        for key in keys {
            if let Err(NoMemory) = self.let_wait(*key, row) {
                self.give_up();
                return Err(NoMemory);
            }
        }
        Ok(())
    }
}

// Returns the index of a key that is in the table.
fn place_of<K: Hash + ExactEq + Copy, R: Copy>(table: &IndexMap<K, R>, key: &K) -> usize
    requires { IsTrue (is_held K.eq table.now.entries key.now) }
    ensures place { IsPlace K.eq key.now (keys_of table.now.entries) result }
    ensures within { result < length table.now.entries }
    ensures small { result < 2 ^ 63 }
{
    table.get_index_of(key).unwrap_or(table.len())
}

// Returns the row at an index, if it is one of the first `held`.
fn row_at<K: Hash + ExactEq + Copy, R: Copy>(
    table: &IndexMap<K, R>,
    held: usize,
    place: usize,
) -> Option<R>
    requires { place < length table.now.entries }
    ensures { (key : _) → IsPlace K.eq key (keys_of table.now.entries) place
        → result ≡ lookup (K.eq key) (take held table.now.entries) }
{
    if place < held {
        Some(table[place])
    } else {
        None
    }
}

// Inserts a key after the others unless it is there, and returns whether it was new.
fn insert_last<K: Hash + ExactEq + Copy, R: Copy>(
    table: &mut IndexMap<K, R>,
    key: K,
    row: R,
) -> Result<bool, NoMemory>
    ensures ok { OnOk result (table.new.entries ≡ table.old.entries
        ++ waiting_rows row (added_keys K.eq (keys_of table.old.entries) (key ∷ []))) }
    ensures fresh { IfOk result (λ fresh. fresh ≡ not (is_held K.eq table.old.entries key)) }
    ensures err { OnErr result (table.new.entries ≡ table.old.entries) }
    ensures absent { OnErr result (IsFalse (is_held K.eq table.old.entries key)) }
{
    let (place, known) = table.insert_full(key, row)?;
    match known {
        None => Ok(true),
        Some(known) => {
            // The key was there: its own row is put back.
            table[place] = known;
            Ok(false)
        }
    }
}

// Keeps those of the first `held` entries whose keys pass the test, and all others.
fn keep_passing<K: Hash + ExactEq + Copy, R: Copy, T: KeyTest<K>>(
    table: &mut IndexMap<K, R>,
    held: usize,
    test: &T,
)
    ensures { table.new.entries ≡ kept_entries (T.passes test.now) held table.old.entries }
{
    let mut left = held;
    table.retain(
        |key: &K, row: &mut R| -> bool
            ensures kept { result ≡ (nat_eq left.entry 0 || T.passes test.entry.now key.now) }
            ensures row { row.new ≡ row.old }
            ensures left { left.exit ≡ left.entry - 1 }
            ensures test { test.exit.now ≡ test.entry.now }
        {
            if left == 0 {
                return true;
            }
            left -= 1;
            test.passes(key)
        },
    );
}
