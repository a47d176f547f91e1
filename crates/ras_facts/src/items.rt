//! The items of a report.

ghost use Rattle.std.specs.Prelude.{◌≡◌, ◌++◌, [], ◌∷◌, IfOk, OnOk, OnErr};

use dimm_topology::Label;
use mca_status::ItemClass;
use ras_base::NoMemory;
use std::alloc::Global;
use std::marker::Model;

/// The most items that a valid fact has.
pub const MOST_ITEMS: usize = 65_535;

/// The most errors that a valid item counts for.
pub const MOST_WEIGHT: u16 = 32_767;

/// The number of pages of 4,096 bytes that 64 bits address: page numbers are below it.
pub const PAGES: u64 = 1 << 52;

/// One error of a report, or several of one kind at one place.
#[derive(Debug, Drop, PartialEq, Eq)]
pub struct Item {
    /// The class of the error.
    pub class: ItemClass,
    /// The label of the memory module that the error belongs to, or `Label::none()`.
    pub label: Label,
    /// The number of the page of 4,096 bytes with the error, if it is known.
    pub page: Option<u64>,
    /// How many errors the item counts for.
    pub weight: u16,
}

/// The items of a report, in order.
#[derive(Debug, Drop)]
pub struct Items {
    list: Vec<Item>,
}

impl Model for Items {
    ghost use Rattle.std.specs.Prelude.{List};
    ghost use Rattle.ras_facts.specs.declared.items.Item.{Item};

    ghost Value = { List Item };

    ghost view = { λ a. a.list.items };
}

impl Items {
    /// Returns an empty list.
    pub fn new(alloc: Global) -> Items
        ensures { result ≡ [] }
    {
        Items {
            list: Vec::new(alloc),
        }
    }

    /// Returns a list of one item, without room for others.
    pub fn one(alloc: Global, item: Item) -> Result<Items, NoMemory>
        ensures { IfOk result (λ items. items ≡ item ∷ []) }
    {
        let list = vec![in alloc; item]?;
        Ok(Items { list })
    }

    /// Appends an item. If memory runs out the list is unchanged and the item is dropped.
    pub fn push(&mut self, item: Item) -> Result<(), NoMemory>
        ensures ok { OnOk result (self.new ≡ self.old ++ item ∷ []) }
        ensures err { OnErr result (self.new ≡ self.old) }
    {
        self.list.push(item)?;
        Ok(())
    }

    /// Returns the items in order.
    pub fn as_slice(&self) -> &[Item]
        ensures { result.now ≡ self.now }
    {
        self.list.as_slice()
    }

    /// Returns the items in order, in a vector. Allocates nothing.
    pub fn into_vec(self) -> Vec<Item>
        ensures { result.items ≡ self }
    {
        self.list
    }
}
