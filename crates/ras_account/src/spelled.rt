//! The names as a checkpoint spells them.
ghost use Rattle.std.specs.Prelude.{◌≡◌, ◌+◌, ◌*◌, ◌-◌, ◌<◌, ◌≤◌, ◌++◌, [], OnOk, length, take, vec_len, vec_capacity};
ghost use Rattle.std.specs.List.{flat_map};
ghost use Rattle.std.specs.Map.{keys_of};
ghost use Rattle.entry_format.specs.Spelling.{name_bytes};

use entry_format::put_name;
use ras_base::NoMemory;
use ras_facts::Name;
use row_tables::RowTable;
use std::alloc::Global;

/// The most bytes of a name.
const NAME_BYTES: usize = 20;

// The bytes of names, one after the other, with memory for more. Each checkpoint copies them, so
// that it doesn't have to spell each name again.
#[derive(Drop)]
pub(crate) struct Spelled {
    pub(crate) bytes: Vec<u8>,
}

impl Spelled {
    // Returns the bytes of an empty list of names.
    pub(crate) fn new(alloc: Global) -> Spelled
        ensures { result.bytes.items ≡ [] }
    {
        Spelled {
            bytes: Vec::new(alloc),
        }
    }

    // Reserves memory for this many names in all. The bytes don't change.
    pub(crate) fn make_room(&mut self, names: usize) -> Result<(), NoMemory>
        ensures bytes { self.new.bytes.items ≡ self.old.bytes.items }
        ensures kept { vec_capacity self.old.bytes ≤ vec_capacity self.new.bytes }
        ensures room { OnOk result (20 * names ≤ vec_capacity self.new.bytes) }
    {
        let Some(all) = names.checked_mul(NAME_BYTES) else {
            return Err(NoMemory);
        };
        self.bytes.reserve(all.saturating_sub(self.bytes.len()))?;
        Ok(())
    }

    // Appends a name. Requires that memory for it is reserved.
    fn add(&mut self, name: &Name)
        requires { vec_len self.old.bytes + 20 ≤ vec_capacity self.old.bytes }
        ensures bytes { self.new.bytes.items ≡ self.old.bytes.items ++ name_bytes name.now }
        ensures kept { vec_capacity self.old.bytes ≤ vec_capacity self.new.bytes }
    {
        let mut room = [0; NAME_BYTES];
        let end = put_name(&mut room, 0, name);
        // Memory for it is reserved, so this allocates nothing and doesn't fail.
        let _ = self.bytes.extend_from_slice(&room[..end]);
    }

    // Appends the last name of a table to the names before it.
    pub(crate) fn add_last(&mut self, table: &RowTable<Name, ()>)
        requires last { 0 < length table.now.rows }
        requires spelled { self.old.bytes.items
            ≡ flat_map name_bytes (take (length table.now.rows - 1) (keys_of table.now.rows)) }
        requires room { 20 * length table.now.rows ≤ vec_capacity self.old.bytes }
        ensures bytes { self.new.bytes.items ≡ flat_map name_bytes (keys_of table.now.rows) }
        ensures kept { vec_capacity self.old.bytes ≤ vec_capacity self.new.bytes }
    {
        self.add(table.key(table.len() - 1));
    }

    // Spells the names of a table, and drops the earlier bytes.
    pub(crate) fn spell(&mut self, table: &RowTable<Name, ()>)
        requires { 20 * length table.now.rows ≤ vec_capacity self.old.bytes }
        ensures bytes { self.new.bytes.items ≡ flat_map name_bytes (keys_of table.now.rows) }
        ensures kept { vec_capacity self.old.bytes ≤ vec_capacity self.new.bytes }
    {
        self.bytes.clear();
        for place in 0..table.len() {
            self.add(table.key(place));
        }
    }
}
