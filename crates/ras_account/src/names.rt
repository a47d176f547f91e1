//! The counted names, and after them the reserved names.
ghost use Rattle.std.specs.Prelude.{◌≡◌, ◌↔◌, ◌<◌, ◌++◌, [], ◌∷◌, not, IsTrue, Some, Err, IfOk, OnOk, OnErr, length, take, drop, slice_get};
ghost use Rattle.std.specs.Bool.{IsFalse, OnTrue};
ghost use Rattle.std.specs.List.{list_any, flat_map};
ghost use Rattle.row_tables.specs.Tables.{added_keys};
ghost use Rattle.ras_facts.specs.Names.{same_name};
ghost use Rattle.entry_format.specs.Spelling.{name_bytes};
ghost use Rattle.ras_account.specs.History.{is_retired};
ghost use Rattle.ras_account.specs.Fresh.{is_among};
ghost use Rattle.ras_account.specs.Account.{kept_names};
ghost use Rattle.ras_account.specs.Rows.{has_retired};
ghost use Rattle.ras_account.specs.Steps.Parts.{all_names};

use crate::spelled::Spelled;
use page_policy::RowRefused;
use ras_base::NoMemory;
use ras_facts::Name;
use row_tables::{KeyTest, RowTable};
use std::alloc::Global;
use std::marker::Model;

// Names in the order in which they were counted. Names can be reserved after them, so that they can
// be counted without allocating memory.
#[derive(Drop)]
pub(crate) struct Names {
    table: RowTable<Name, ()>,
    // The counted names, with memory for the reserved ones.
    spelled: Spelled,
}

impl Model for Names {
    ghost use Rattle.std.specs.Prelude.{vec_capacity};
    ghost use Rattle.std.specs.Map.{keys_of};
    ghost use Rattle.ras_account.specs.Steps.Parts.{NameList, AreSpelled};

    ghost Value = { NameList };

    ghost view = { λ n. record { held = keys_of n.table.rows; waiting = n.table.waiting } };

    ghost invariant = { λ n. AreSpelled n.table.rows n.table.waiting n.spelled.bytes.items (vec_capacity n.spelled.bytes) };
}

// The test of names whose boot isn't below a floor.
#[derive(Drop)]
struct NotRetired {
    floor: u64,
}

impl KeyTest<Name> for NotRetired {
    ghost passes = { λ test name. not (is_retired test.floor name) };

    fn passes(&self, name: &Name) -> bool {
        !name.is_retired(self.floor)
    }
}

impl Names {
    // No names.
    pub(crate) fn new(alloc: Global) -> Names
        ensures held { result.held ≡ [] }
        ensures waiting { result.waiting ≡ [] }
    {
        Names {
            table: RowTable::new(alloc),
            spelled: Spelled::new(alloc),
        }
    }

    // Whether a name is counted.
    pub(crate) fn holds(&self, name: &Name) -> bool
        ensures { result ≡ is_among self.now.held name.now }
    {
        self.table.holds(name)
    }

    // Whether a name is the first reserved name. A counted name is never reserved.
    pub(crate) fn waits_first(&self, name: &Name) -> bool
        ensures first { result ≡ is_among (take 1 self.now.waiting) name.now }
        ensures apart { OnTrue result (IsFalse (is_among self.now.held name.now)) }
    {
        self.table.waits_first(name)
    }

    // How many names are counted.
    pub(crate) fn len(&self) -> usize
        ensures { result ≡ length self.now.held }
    {
        self.table.len()
    }

    // How many names are counted or reserved.
    pub(crate) fn len_with_waiting(&self) -> usize
        ensures { result ≡ length (all_names self.now) }
    {
        self.table.len_with_waiting()
    }

    // The counted name at an index.
    pub(crate) fn get(&self, i: usize) -> &Name
        requires { i < length self.now.held }
        ensures { slice_get self.now.held i ≡ Some result.now }
    {
        self.table.key(i)
    }

    // The counted names as a checkpoint spells them, one after the other.
    pub(crate) fn spelled(&self) -> &[u8]
        ensures { result.now ≡ flat_map name_bytes self.now.held }
    {
        self.spelled.bytes.as_slice()
    }

    // Counts the first reserved name.
    pub(crate) fn count_next(&mut self)
        requires { 0 < length self.old.waiting }
        ensures held { self.new.held ≡ self.old.held ++ take 1 self.old.waiting }
        ensures waiting { self.new.waiting ≡ drop 1 self.old.waiting }
    {
        self.table.begin_next(());
        self.spelled.add_last(&self.table);
    }

    // Removes all reservations.
    pub(crate) fn give_up(&mut self)
        ensures held { self.new.held ≡ self.old.held }
        ensures waiting { self.new.waiting ≡ [] }
    {
        self.table.give_up();
    }

    // Reserves a name unless it is counted or reserved already, and returns whether it was neither.
    pub(crate) fn let_wait(&mut self, name: Name) -> Result<bool, NoMemory>
        ensures held { self.new.held ≡ self.old.held }
        ensures ok { OnOk result (self.new.waiting
            ≡ self.old.waiting ++ added_keys same_name (all_names self.old) (name ∷ [])) }
        ensures fresh { IfOk result (λ fresh. fresh ≡ not (list_any (same_name name) (all_names self.old))) }
        ensures err { OnErr result (self.new.waiting ≡ self.old.waiting) }
    {
        let names = self.table.len_with_waiting();
        self.spelled.make_room(names.saturating_add(1))?;
        self.table.let_wait(name, ())
    }

    // Whether a counted name is of a boot below a floor.
    pub(crate) fn any_retired(&self, floor: u64) -> bool
        ensures { result ≡ has_retired floor self.now.held }
    {
        for place in 0..self.table.len() {
            if self.table.key(place).is_retired(floor) {
                return true;
            }
        }
        false
    }

    // Removes the counted names of boots below a floor. Reserved names stay.
    pub(crate) fn retire(&mut self, floor: u64)
        ensures held { self.new.held ≡ kept_names floor self.old.held }
        ensures waiting { self.new.waiting ≡ self.old.waiting }
    {
        self.table.retain(&NotRetired { floor });
        self.spelled.spell(&self.table);
    }

    // Reserves memory for this many more names at once. The names don't change.
    pub(crate) fn make_room(&mut self, additional: usize) -> Result<(), NoMemory>
        ensures { self.new ≡ self.old }
    {
        let names = self.table.len_with_waiting();
        self.spelled.make_room(names.saturating_add(additional))?;
        self.table.make_room(additional)
    }

    // Appends a counted name. Requires that no name is reserved. After an error the names are
    // unchanged.
    pub(crate) fn push(&mut self, name: Name) -> Result<(), RowRefused>
        requires { self.old.waiting ≡ [] }
        ensures ok { OnOk result (self.new.held ≡ self.old.held ++ name ∷ []) }
        ensures err { OnErr result (self.new.held ≡ self.old.held) }
        ensures waiting { self.new.waiting ≡ [] }
        ensures repeated { (result ≡ Err RowRefused.Repeated) ↔ IsTrue (is_among self.old.held name) }
    {
        // A name that is there already needs no memory.
        if let Err(NoMemory) = self.spelled.make_room(self.table.len().saturating_add(1)) {
            return Err(if self.table.holds(&name) {
                RowRefused::Repeated
            } else {
                RowRefused::NoMemory
            });
        }
        let pushed = self.table.push_row(name, ());
        if pushed.is_ok() {
            self.spelled.add_last(&self.table);
        }
        pushed
    }
}
