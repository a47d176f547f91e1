//! The account.
ghost use Rattle.std.specs.Prelude.{◌≡◌, ◌+◌, ◌<◌, ◌≤◌, ◌*◌, ◌++◌, List, [], ◌∷◌, IsTrue, IfSome, Some, nat_eq, length, slice_get};
ghost use Rattle.std.specs.Bool.{IsFalse, OnTrue};
ghost use Rattle.std.specs.List.{flat_map};
ghost use Rattle.page_policy.specs.Buckets.{IsLimit};
ghost use Rattle.ras_facts.specs.Entries.{IsValidEntry, most_orders};
ghost use Rattle.entry_format.specs.Spelling.{name_bytes};
ghost use Rattle.ras_account.specs.History.{History, empty, with_entry, with_mark};
ghost use Rattle.ras_account.specs.Fresh.{is_fresh_behind};
ghost use Rattle.ras_account.specs.Account.{account_of, weight_in, IsAccountOf};
ghost use Rattle.ras_account.specs.Continued.{is_fresh_in, knows, account_after, account_after_fresh, account_with_count, account_after_mark};
ghost use Rattle.ras_account.specs.Sightings.{Sighting};
ghost use Rattle.row_tables.specs.Held.{is_ready};
ghost use Rattle.ras_facts.specs.declared.entry.Entry.{Entry};
ghost use Rattle.ras_account.specs.Orders.{orders_at, orders_behind, page_order_in};
ghost use Rattle.ras_account.specs.Numbers.{IsWithin};
ghost use Rattle.ras_account.specs.View.{Waiting, nothing, then_waits, WaitsFirst, added_by, IsReservedFor};
ghost use Rattle.ras_account.specs.Accounts.{IsAccount};
ghost use Rattle.ras_account.specs.Rows.{row_of};
ghost use Rattle.ras_account.specs.Steps.Taking.{SetsLimit, holds_name, name_waits_first, IsNext, view_after_item, item_orders_in, sighting_in, GivesOrders, AreNext, TakesItems, orders_of_items_at, CanTakeFact, TakesFact, Takes, CanCountName, view_after_name, pages_after_item};

use crate::in_force::InForce;
use crate::modules::Modules;
use crate::names::Names;
use crate::{FIRST_LIMIT, FIRST_MODULE_LIMIT, MOST_ENTRIES, ModuleRow, Orders};
use page_policy::{Limit, Order, Pages};
use ras_facts::{Entry, Fact, Item, Name};
use std::alloc::Global;
use std::marker::Model;

/// The account: the names of the reports in the order in which they were counted, what the reports
/// say about memory modules and pages, and the limits and the floor in force.
///
/// Memory can be reserved for further names, labels and pages, so that their entries can be counted
/// without allocating memory. No call returns anything reserved.
#[derive(Drop)]
pub struct Account {
    pub(crate) names: Names,
    pub(crate) in_force: InForce,
    pub(crate) entries: u64,
    pub(crate) total: u64,
    pub(crate) modules: Modules,
    pub(crate) pages: Pages,
    pub(crate) alloc: Global,
}

impl Model for Account {
    ghost use Rattle.ras_account.specs.View.{View};
    ghost use Rattle.ras_account.specs.Accounts.{IsAccount};

    ghost Value = { View };

    ghost view = { λ a. record {
      state = record {
        names = a.names.held;
        floor = a.in_force.floor;
        limit = a.in_force.limit;
        module_limit = a.in_force.module_limit;
        entries = a.entries;
        total = a.total;
        modules = a.modules.rows;
        pages = a.pages.rows;
      };
      waiting = record { names = a.names.waiting; labels = a.modules.waiting; pages = a.pages.waiting };
    } };

    ghost invariant = { λ a. IsAccount (record {
      names = a.names.held;
      floor = a.in_force.floor;
      limit = a.in_force.limit;
      module_limit = a.in_force.module_limit;
      entries = a.entries;
      total = a.total;
      modules = a.modules.rows;
      pages = a.pages.rows;
    }) };
}

impl Account {
    /// Returns an account in which nothing is counted yet, with the first limits in force.
    pub fn new(alloc: Global) -> Account
        ensures state { result.state ≡ account_of empty }
        ensures waiting { result.waiting ≡ nothing }
    {
        Account {
            names: Names::new(alloc),
            in_force: InForce {
                floor: 0,
                limit: FIRST_LIMIT,
                module_limit: FIRST_MODULE_LIMIT,
            },
            entries: 0,
            total: 0,
            modules: Modules::new(alloc),
            pages: Pages::new(alloc),
            alloc,
        }
    }

    /// Returns whether `take` would count this entry: a fact whose name isn't in the account and
    /// whose boot isn't retired, a limit that isn't in force, or a retire above the floor.
    pub fn is_fresh(&self, entry: &Entry) -> bool
        ensures fresh { result ≡ is_fresh_in self.now.state entry.now }
        ensures history { (history : History) → IsAccountOf history self.now.state
            → result ≡ is_fresh_behind history entry.now }
        ensures stale { (history : History) → IsAccountOf history self.now.state
            → IsFalse result → IsAccountOf (with_entry history entry.now) self.now.state }
    {
        self.in_force.admits(entry) && !self.holds_name_of(entry)
    }

    /// Returns whether the name is in the account or of a retired boot. A report is new if and only
    /// if its name isn't known.
    pub fn knows(&self, name: &Name) -> bool
        ensures known { result ≡ knows self.now.state name.now }
        ensures account { IsAccount self.now.state }
    {
        self.names.holds(name) || name.is_retired(self.in_force.floor)
    }

    // Returns whether an entry is a fact whose name is in the account.
    fn holds_name_of(&self, entry: &Entry) -> bool
        ensures { result ≡ holds_name self.now.state entry.now }
    {
        match entry {
            Entry::Fact(fact) => self.names.holds(&fact.name),
            Entry::Limit(_) | Entry::Retire(_) | Entry::ModuleLimit(_) => false,
        }
    }

    /// Counts the entry if it is new, and appends the orders it gives to `orders`. Allocates
    /// nothing.
    ///
    /// Requires a valid entry; that what it adds is the first reservation; room in `orders` for
    /// `Entry::most_orders`; and that the account stays within `MOST_NAMES`,
    /// `MOST_ENTRIES` and `MOST_TOTAL`. This reservation is used up.
    pub fn take(&mut self, entry: Entry, orders: &mut Orders)
        requires valid { IsValidEntry entry }
        requires waits { WaitsFirst (added_by self.old.state (entry ∷ [])) self.old.waiting }
        requires room { most_orders entry ≤ orders.old.room }
        requires within { IsWithin (account_after self.old.state entry) }
        ensures state { self.new.state ≡ account_after self.old.state entry }
        ensures waiting { self.old.waiting
            ≡ then_waits (added_by self.old.state (entry ∷ [])) self.new.waiting }
        ensures orders { orders.new.orders ≡ orders.old.orders ++ orders_at self.old.state entry }
        ensures room { orders.new.room + length (orders_at self.old.state entry) ≡ orders.old.room }

        // If what a list of entries adds is reserved, the entries can be counted one after the
        // other.
        ensures in_turn { (entries : List Entry) → IsReservedFor self.old (entry ∷ entries)
            → IsReservedFor self.new entries }

        // The account of a history becomes the account of the history with the entry after it, and
        // the orders are the orders of the history there.
        ensures history { (history : History) → IsAccountOf history self.old.state
            → IsAccountOf (with_entry history entry) self.new.state }
        ensures history_orders { (history : History) → IsAccountOf history self.old.state
            → orders.new.orders ≡ orders.old.orders ++ orders_behind history entry }
    {
        self.take_any(entry, orders);
    }

    // Counts the entry if it is new.
    fn take_any(&mut self, entry: Entry, orders: &mut Orders)
        requires valid { IsValidEntry entry }
        requires waits { WaitsFirst (added_by self.old.state (entry ∷ [])) self.old.waiting }
        requires room { most_orders entry ≤ orders.old.room }
        requires within { IsWithin (account_after self.old.state entry) }
        ensures { Takes self.old self.new orders.old orders.new entry }
    {
        if !self.is_next(&entry) {
            return;
        }
        match &entry {
            Entry::Fact(fact) => self.take_fact(fact, orders),
            Entry::Limit(_) | Entry::ModuleLimit(_) => self.put_limit(&entry),
            Entry::Retire(boot) => self.retire(*boot),
        }
    }

    // Returns whether an entry is new, if what it adds is reserved first. A name in the account is
    // never reserved, so no name needs to be hashed.
    fn is_next(&self, entry: &Entry) -> bool
        requires { WaitsFirst (added_by self.now.state (entry.now ∷ [])) self.now.waiting }
        ensures { result ≡ is_fresh_in self.now.state entry.now }
    {
        self.in_force.admits(entry) && self.has_name_waiting(entry)
    }

    // Returns whether the name of an entry is the first reserved name; false for an entry other
    // than a fact.
    fn has_name_waiting(&self, entry: &Entry) -> bool
        ensures first { result ≡ name_waits_first self.now.waiting.names entry.now }
        ensures apart { OnTrue result (IsFalse (holds_name self.now.state entry.now)) }
    {
        match entry {
            Entry::Fact(fact) => self.names.waits_first(&fact.name),
            Entry::Limit(_) | Entry::Retire(_) | Entry::ModuleLimit(_) => true,
        }
    }

    // Counts a fact that is new: its name, and then its items.
    fn take_fact(&mut self, fact: &Fact, orders: &mut Orders)
        requires ready { CanTakeFact self.old fact.now }
        requires room { 2 * length fact.now.items ≤ orders.old.room }
        ensures account { TakesFact self.old self.new fact.now }
        ensures orders { GivesOrders orders.old orders.new
            (orders_of_items_at self.old.state fact.now.seconds fact.now.items) }
    {
        self.count_name();
        self.take_items(fact.items.as_slice(), fact.seconds, orders);
    }

    // Counts the first reserved name, and one entry.
    fn count_name(&mut self)
        requires { CanCountName self.old }
        ensures { self.new ≡ view_after_name self.old }
    {
        self.entries += 1;
        self.names.count_next();
    }

    // Counts the items of a fact with this time, in order.
    fn take_items(&mut self, items: &[Item], seconds: u64, orders: &mut Orders)
        requires next { (rest : Waiting) × AreNext self.old items.now rest }
        requires room { 2 * length items.now ≤ orders.old.room }
        ensures account { TakesItems self.old self.new seconds items.now }
        ensures orders { GivesOrders orders.old orders.new
            (orders_of_items_at self.old.state seconds items.now) }
    {
        for item in items {
            self.take_item(item, seconds, orders);
        }
    }

    // Counts an item of a fact with this time.
    fn take_item(&mut self, item: &Item, seconds: u64, orders: &mut Orders)
        requires next { IsNext self.old item.now }
        requires room { 2 ≤ orders.old.room }
        ensures account { self.new ≡ view_after_item self.old (sighting_in self.old.state seconds item.now) }
        ensures orders { GivesOrders orders.old orders.new
            (item_orders_in self.old.state (sighting_in self.old.state seconds item.now)) }
    {
        self.total += u64::from(item.weight);
        let replaced = self
            .modules
            .count(item, seconds, self.in_force.module_limit);
        let ordered = order_for_page(&mut self.pages, item, seconds, self.in_force.limit);
        orders.push_some(ordered);
        orders.push_some(replaced);
    }

    // Puts the limit of an entry in force, for pages or for modules.
    fn put_limit(&mut self, entry: &Entry)
        requires limit { SetsLimit entry.now }
        requires room { self.old.state.entries < MOST_ENTRIES }
        ensures state { self.new.state ≡ account_after_fresh (account_with_count self.old.state) entry.now }
        ensures waiting { self.new.waiting ≡ self.old.waiting }
    {
        self.entries += 1;
        self.in_force.put(entry);
    }

    // Retires the boots below a number: removes their names.
    fn retire(&mut self, boot: u64)
        requires { self.old.state.entries < MOST_ENTRIES }
        ensures state { self.new.state ≡ account_after_fresh (account_with_count self.old.state) (Entry.Retire boot) }
        ensures waiting { self.new.waiting ≡ self.old.waiting }
    {
        self.entries += 1;
        self.in_force.floor = boot;
        self.names.retire(boot);
    }

    /// Counts an upgrade marker: from now on no module has a bucket or is to be replaced, and
    /// everything else is unchanged. Requires that nothing is reserved.
    pub fn mark(&mut self)
        requires { self.old.waiting ≡ nothing }
        ensures state { self.new.state ≡ account_after_mark self.old.state }
        ensures waiting { self.new.waiting ≡ nothing }
        ensures history { (history : History) → IsAccountOf history self.old.state
            → IsAccountOf (with_mark history) self.new.state }
    {
        self.modules.mark();
    }

    /// Returns how many names are in the account.
    pub fn names_len(&self) -> usize
        ensures count { result ≡ length self.now.state.names }
        ensures account { IsAccount self.now.state }
    {
        self.names.len()
    }

    /// Returns a name by its index, from 0 in the order in which the names came. The index has to
    /// be below `names_len`.
    pub fn name(&self, i: usize) -> &Name
        requires { i < length self.now.state.names }
        ensures { slice_get self.now.state.names i ≡ Some result.now }
    {
        self.names.get(i)
    }

    /// Returns the names as a checkpoint spells them, one after the other.
    pub fn spelled_names(&self) -> &[u8]
        ensures { result.now ≡ flat_map name_bytes self.now.state.names }
    {
        self.names.spelled()
    }

    /// Returns how many entries are counted.
    pub fn entries(&self) -> u64
        ensures count { result ≡ self.now.state.entries }
        ensures account { IsAccount self.now.state }
    {
        self.entries
    }

    /// Returns the sum of the weights of all items.
    pub fn total(&self) -> u64
        ensures total { result ≡ self.now.state.total }
        ensures rows { result ≡ weight_in self.now.state.modules }
        ensures account { IsAccount self.now.state }
    {
        self.total
    }

    /// Returns the floor: all boots below it are retired, and 0 means none.
    pub fn floor(&self) -> u64
        ensures { result ≡ self.now.state.floor }
    {
        self.in_force.floor
    }

    /// Returns the limit in force for pages.
    pub fn limit(&self) -> Limit
        ensures limit { result ≡ self.now.state.limit }
        ensures valid { IsLimit result }
    {
        self.in_force.limit
    }

    /// Returns the limit in force for modules.
    pub fn module_limit(&self) -> Limit
        ensures limit { result ≡ self.now.state.module_limit }
        ensures valid { IsLimit result }
    {
        self.in_force.module_limit
    }

    /// Returns how many modules have a row.
    pub fn modules_len(&self) -> usize
        ensures { result ≡ length self.now.state.modules }
    {
        self.modules.len()
    }

    /// Returns the row of a module by its index, from 0 in the order in which the modules were
    /// first seen. The index has to be below `modules_len`.
    pub fn module(&self, i: usize) -> &ModuleRow
        requires { i < length self.now.state.modules }
        ensures { slice_get self.now.state.modules i ≡ Some (row_of result.now) }
    {
        self.modules.row(i)
    }

    /// Returns the pages with their rows, in the order in which they were first seen.
    pub fn pages(&self) -> &Pages
        ensures { result.now.rows ≡ self.now.state.pages }
    {
        &self.pages
    }
}

// Counts an item of a fact with this time as a report of its page, if it names a page.
fn order_for_page(pages: &mut Pages, item: &Item, seconds: u64, limit: Limit) -> Option<Order>
    requires ready { IfSome item.now.page (λ page. IsTrue (is_ready nat_eq pages.old page)) }
    requires limit { IsLimit limit }
    ensures pages { (s : Sighting) → s.item ≡ item.now → s.seconds ≡ seconds → s.limit ≡ limit
        → pages.new ≡ pages_after_item pages.old s }
    ensures order { (s : Sighting) → s.item ≡ item.now → s.seconds ≡ seconds → s.limit ≡ limit
        → result ≡ page_order_in pages.old.rows s }
{
    let page = item.page?;
    pages.account(page, item.class, seconds, item.weight, limit)
}
