//! The rows of memory modules, and after them the labels for which a row is reserved.
ghost use Rattle.std.specs.Prelude.{◌≡◌, ◌↔◌, ◌+◌, ◌<◌, ◌≤◌, ◌++◌, [], ◌∷◌, IsTrue, None, Some, Err, OnOk, OnErr, ◌&&◌, not, false, if◌then◌else◌, length, map, sum, slice_get};
ghost use Rattle.std.specs.List.{list_any};
ghost use Rattle.std.specs.Map.{keys_of};
ghost use Rattle.dimm_topology.specs.Labels.{Bytes, same_label};
ghost use Rattle.page_policy.specs.Buckets.{IsLimit};
ghost use Rattle.row_tables.specs.Tables.{added_keys};
ghost use Rattle.ras_account.specs.Sightings.{Sighting};
ghost use Rattle.ras_account.specs.Modules.{Module};
ghost use Rattle.ras_account.specs.Account.{weight_in};
ghost use Rattle.ras_account.specs.Continued.{module_after, new_module, sums_after, without_bucket};
ghost use Rattle.page_policy.specs.Rows.{is_corrected};
ghost use Rattle.ras_account.specs.Orders.{module_order_in};
ghost use Rattle.ras_account.specs.Steps.Parts.{all_labels, is_next_label, with_sighting, IsCounting};
ghost use Rattle.ras_account.specs.Rows.{row_of};

use crate::MOST_TOTAL;
use dimm_topology::Label;
use mca_status::CLASS_COUNT;
use page_policy::{Bucket, Limit, Order, RowRefused, is_corrected};
use ras_base::NoMemory;
use ras_facts::Item;
use row_tables::RowTable;
use std::alloc::Global;
use std::marker::Model;

/// The row of a memory module.
#[derive(Clone, Copy, Debug, PartialEq, Eq)]
pub struct ModuleRow {
    /// The module's label, or `Label::none()`.
    pub label: Label,
    /// The weights of its items by class, in the order of the class numbers.
    pub sums: [u64; CLASS_COUNT],
    /// The bucket of its corrected errors since the last upgrade marker, if it had any.
    pub bucket: Option<Bucket>,
    /// Whether it is to be replaced: its bucket has tripped since the last upgrade marker.
    pub replace: bool,
}

impl ModuleRow {
    // Returns the row of a module without items.
    fn new(label: Label) -> ModuleRow
        ensures row { row_of result ≡ (label, new_module) }
        ensures counting { IsCounting result }
    {
        ModuleRow {
            label,
            sums: [0; CLASS_COUNT],
            bucket: None,
            replace: false,
        }
    }

    // Returns the row after an item of the module with this time, and with this limit in force for
    // modules.
    fn after(self, item: &Item, seconds: u64, limit: Limit) -> ModuleRow
        requires counting { IsCounting self }
        requires limit { IsLimit limit }
        requires total { sum self.sums + item.now.weight ≤ MOST_TOTAL }
        ensures row { (s : Sighting) → s.item ≡ item.now → s.seconds ≡ seconds
            → s.module_limit ≡ limit → row_of result ≡ (self.label, module_after (row_of self).1 s) }
        ensures counting { IsCounting result }
    {
        let sums = sums_after(self.sums, item);
        if !fills_bucket(item) {
            return ModuleRow { sums, ..self };
        }
        let mut bucket = self.bucket.unwrap_or(Bucket {
            count: 0,
            stamp: seconds,
        });
        let trips = bucket.step(limit, seconds, item.weight);
        ModuleRow {
            sums,
            bucket: Some(bucket),
            replace: self.replace || trips,
            ..self
        }
    }

    // The row without its bucket, and not to be replaced.
    fn without_bucket(&self) -> ModuleRow
        ensures { result ≡ record self.now { bucket = None; replace = false } }
    {
        let mut row = *self;
        row.bucket = None;
        row.replace = false;
        row
    }
}

// The sums with an item's weight added to the sum of its class.
fn sums_after(sums: [u64; CLASS_COUNT], item: &Item) -> [u64; CLASS_COUNT]
    requires { sum sums + item.now.weight ≤ MOST_TOTAL }
    ensures { result ≡ sums_after sums item.now }
{
    let mut after = sums;
    after[usize::from(item.class.number())] += u64::from(item.weight);
    after
}

// Whether an item fills its module's bucket: a corrected error with a label.
fn fills_bucket(item: &Item) -> bool
    ensures { result ≡ (is_corrected item.now.class && not (same_label [] item.now.label)) }
{
    is_corrected(item.class) && Label::none() != item.label
}

// The order to replace the module at an index, if it wasn't ordered before.
fn order_for(place: usize, before: bool, after: bool) -> Option<Order>
    ensures { result ≡ (if not before && after then Some (Order.Module place) else None) }
{
    if !before && after {
        return Some(Order::Module(place));
    }
    None
}

// The modules that items named, in first-seen order, each with its row. Rows can be reserved after
// them for further labels, so that their items can be counted without allocating memory.
#[derive(Drop)]
pub(crate) struct Modules {
    table: RowTable<Label, ModuleRow>,
}

impl Model for Modules {
    ghost use Rattle.std.specs.Prelude.{map};
    ghost use Rattle.ras_account.specs.Steps.Parts.{ModuleList, entry_of, AreModules};

    ghost Value = { ModuleList };

    ghost view = { λ m. record { rows = map entry_of m.table.rows; waiting = m.table.waiting } };

    ghost invariant = { λ m. AreModules m.table.rows };
}

impl Modules {
    // No modules.
    pub(crate) fn new(alloc: Global) -> Modules
        ensures rows { result.rows ≡ [] }
        ensures waiting { result.waiting ≡ [] }
    {
        Modules {
            table: RowTable::new(alloc),
        }
    }

    // Counts an item with this time, with this limit in force for modules. Returns the order to
    // replace its module, if this item gives it.
    pub(crate) fn count(&mut self, item: &Item, seconds: u64, limit: Limit) -> Option<Order>
        requires next { IsTrue (is_next_label self.old item.now.label) }
        requires limit { IsLimit limit }
        requires total { weight_in self.old.rows + item.now.weight ≤ MOST_TOTAL }
        ensures rows { (s : Sighting) → s.item ≡ item.now → s.seconds ≡ seconds
            → s.module_limit ≡ limit → self.new ≡ with_sighting self.old s }
        ensures order { (s : Sighting) → s.item ≡ item.now → s.seconds ≡ seconds
            → s.module_limit ≡ limit → result ≡ module_order_in self.old.rows s }
    {
        let label = item.label;
        let (place, known) = self.table.find(&label);
        let before = known.unwrap_or(ModuleRow::new(label));
        let was_asked = before.replace;
        let after = before.after(item, seconds, limit);
        let is_asked = after.replace;
        self.table.put(place, after);
        order_for(place, was_asked, is_asked)
    }

    // Removes all reservations.
    pub(crate) fn give_up(&mut self)
        ensures rows { self.new.rows ≡ self.old.rows }
        ensures waiting { self.new.waiting ≡ [] }
    {
        self.table.give_up();
    }

    // Reserves a row for a label that has neither a row nor a reservation.
    pub(crate) fn let_wait(&mut self, label: &Label) -> Result<(), NoMemory>
        ensures rows { self.new.rows ≡ self.old.rows }
        ensures ok { OnOk result (self.new.waiting
            ≡ self.old.waiting ++ added_keys same_label (all_labels self.old) (label.now ∷ [])) }
    {
        self.table.let_wait(*label, ModuleRow::new(*label))?;
        Ok(())
    }

    // Removes the bucket of each module; no module is to be replaced then.
    pub(crate) fn mark(&mut self)
        ensures rows { self.new.rows
            ≡ map {B = Bytes × Module} (λ row. (row.0, without_bucket row.1)) self.old.rows }
        ensures waiting { self.new.waiting ≡ self.old.waiting }
    {
        for place in 0..self.table.len() {
            let row = self.table.row(place).without_bucket();
            self.table.set_row(place, row);
        }
    }

    // Appends a row. Requires that nothing is reserved. After an error the rows are unchanged.
    pub(crate) fn push(&mut self, row: ModuleRow) -> Result<(), RowRefused>
        requires waiting { self.old.waiting ≡ [] }
        requires counting { IsCounting row }
        ensures ok { OnOk result (self.new.rows ≡ self.old.rows ++ row_of row ∷ []) }
        ensures err { OnErr result (self.new.rows ≡ self.old.rows) }
        ensures waiting { self.new.waiting ≡ [] }
        ensures repeated { (result ≡ Err RowRefused.Repeated)
            ↔ IsTrue (list_any (same_label row.label) (keys_of self.old.rows)) }
    {
        self.table.push_row(row.label, row)
    }

    // How many modules have a row.
    pub(crate) fn len(&self) -> usize
        ensures { result ≡ length self.now.rows }
    {
        self.table.len()
    }

    // Whether a label has a row.
    pub(crate) fn holds(&self, label: &Label) -> bool
        ensures { result ≡ list_any (same_label label.now) (keys_of self.now.rows) }
    {
        self.table.holds(label)
    }

    // The row at an index.
    pub(crate) fn row(&self, i: usize) -> &ModuleRow
        requires { i < length self.now.rows }
        ensures { slice_get self.now.rows i ≡ Some (row_of result.now) }
    {
        self.table.row(i)
    }
}
