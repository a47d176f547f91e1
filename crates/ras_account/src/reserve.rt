//! Reserves what a list of entries adds to an account, before any of them is counted.
ghost use Rattle.std.specs.Prelude.{◌≡◌, List, [], ◌∷◌, ◌++◌, Err, IfOk, OnOk, OnErr};
ghost use Rattle.ras_account.specs.declared.reserve.ReserveRefused.TheVariants.{NoMemory as NoMemoryForEntries, Full};
ghost use Rattle.ras_facts.specs.declared.entry.Entry.{Entry};
ghost use Rattle.ras_account.specs.Numbers.{HasRoomFor, HasNoRoomFor};
ghost use Rattle.ras_account.specs.View.{nothing, added_by};
ghost use Rattle.ras_account.specs.Continued.{is_fresh_in, account_after_all};
ghost use Rattle.ras_account.specs.Tallies.{IsTallyOf, Reserves};
ghost use Rattle.ras_account.specs.Steps.Reserving.{NotesItems};

use crate::in_force::InForce;
use crate::modules::Modules;
use crate::{Account, MOST_ENTRIES, MOST_NAMES, MOST_TOTAL};
use ras_base::NoMemory;
use ras_facts::{Entry, Item};
use thiserror::Error;

/// Why nothing can be reserved for a list of entries.
#[derive(Clone, Copy, Debug, PartialEq, Eq, Drop, Error)]
pub enum ReserveRefused {
    /// With the new entries of the list the account would exceed `MOST_NAMES`, `MOST_ENTRIES` or
    /// `MOST_TOTAL`.
    #[error("the account is full")]
    Full,
    /// Memory ran out.
    #[error("memory ran out")]
    NoMemory,
}

impl From<NoMemory> for ReserveRefused {
    ghost from_gives = { λ _ e. e ≡ NoMemoryForEntries };

    fn from(_: NoMemory) -> Self {
        ReserveRefused::NoMemory
    }
}

impl Account {
    /// Reserves what these entries add, so that each can be counted in turn without allocating
    /// memory: their names, and the labels and pages that have no row yet. Earlier reservations are
    /// dropped. What is counted doesn't change, and after an error nothing is reserved.
    ///
    /// `Full`: if and only if the number of names, the number of entries or the total weight, with
    /// all new entries of the list, would exceed `MOST_NAMES`, `MOST_ENTRIES` or `MOST_TOTAL`,
    /// unless memory runs out first.
    pub fn reserve(&mut self, entries: &[Entry]) -> Result<(), ReserveRefused>
        ensures state { self.new.state ≡ self.old.state }
        ensures ok { OnOk result (self.new.waiting ≡ added_by self.old.state entries.now) }
        ensures err { OnErr result (self.new.waiting ≡ nothing) }
        ensures full { result ≡ Err Full → HasNoRoomFor self.old.state entries.now }
        ensures within { OnOk result (HasRoomFor self.old.state entries.now) }
    {
        match self.let_wait(entries) {
            Ok(()) => Ok(()),
            Err(refused) => {
                self.give_up();
                Err(refused)
            }
        }
    }

    // Reserves what these entries add, and drops earlier reservations.
    fn let_wait(&mut self, entries: &[Entry]) -> Result<(), ReserveRefused>
        ensures { Reserves result self.old.state self.new entries.now }
    {
        let mut tally = self.begin_tally();
        for entry in entries {
            self.wait_if_fresh(&mut tally, entry)?;
        }
        self.end_tally(&tally)
    }

    /// Removes all reservations.
    pub fn give_up(&mut self)
        ensures { self.new ≡ record self.old { waiting = nothing } }
    {
        self.names.give_up();
        self.modules.give_up();
        self.pages.give_up();
    }

    /// Returns an empty tally of entries. Earlier reservations are dropped.
    pub fn begin_tally(&mut self) -> Tally
        ensures state { self.new.state ≡ self.old.state }
        ensures tally { IsTallyOf self.new result [] }
    {
        self.give_up();
        Tally {
            in_force: self.in_force,
            entries: self.entries,
            total: self.total,
            pages: Vec::new(self.alloc),
        }
    }

    /// Appends an entry to a tally if it is new after the tally's entries, and returns whether it
    /// is. Its name and its labels are then reserved, and its pages are in the tally.
    ///
    /// # Errors
    ///
    /// `NoMemory`: only if memory runs out.
    pub fn wait_if_fresh(&mut self, tally: &mut Tally, entry: &Entry) -> Result<bool, NoMemory>
        ensures state { self.new.state ≡ self.old.state }
        ensures fresh { (before : List Entry) → IsTallyOf self.old tally.old before
            → IfOk result (λ fresh. fresh
            ≡ is_fresh_in (account_after_all self.old.state before) entry.now) }
        ensures tally { (before : List Entry) → IsTallyOf self.old tally.old before
            → OnOk result (IsTallyOf self.new tally.new (before ++ entry.now ∷ [])) }
    {
        if !tally.in_force.admits(entry) {
            return Ok(false);
        }
        if let Entry::Fact(fact) = entry {
            if !self.names.let_wait(fact.name)? {
                return Ok(false);
            }
            tally.note_items(&mut self.modules, fact.items.as_slice())?;
        }
        tally.entries = tally.entries.saturating_add(1);
        tally.in_force.put(entry);
        Ok(true)
    }

    /// Reserves the pages of a tally too, so that its entries can be counted in turn without
    /// allocating memory.
    ///
    /// `Full`: if and only if the number of names, the number of entries or the total weight, with
    /// the tally's entries, would exceed `MOST_NAMES`, `MOST_ENTRIES` or `MOST_TOTAL`.
    pub fn end_tally(&mut self, tally: &Tally) -> Result<(), ReserveRefused>
        ensures { (entries : List Entry) → IsTallyOf self.old tally.now entries
            → Reserves result self.old.state self.new entries }
    {
        if self.names.len_with_waiting() > MOST_NAMES
            || tally.entries > MOST_ENTRIES
            || tally.total > MOST_TOTAL
        {
            return Err(ReserveRefused::Full);
        }
        self.pages.reserve(tally.pages.as_slice())?;
        Ok(())
    }
}

/// A tally of entries that may follow an account: what is in force after them, the numbers that
/// they bring the account to, and the pages that they name.
// A number stays at the greatest of 64 bits, which is past all that an account counts.
#[derive(Drop)]
pub struct Tally {
    pub(crate) in_force: InForce,
    pub(crate) entries: u64,
    pub(crate) total: u64,
    pub(crate) pages: Vec<u64>,
}

impl Tally {
    // Records items: reserves their labels, and adds their pages and weights to the tally.
    fn note_items(&mut self, modules: &mut Modules, items: &[Item]) -> Result<(), NoMemory>
        ensures rows { modules.new.rows ≡ modules.old.rows }
        ensures noted { OnOk result (NotesItems modules.old modules.new self.old self.new items.now) }
    {
        for item in items {
            self.note_item(modules, item)?;
        }
        Ok(())
    }

    // Notes an item.
    fn note_item(&mut self, modules: &mut Modules, item: &Item) -> Result<(), NoMemory>
        ensures rows { modules.new.rows ≡ modules.old.rows }
        ensures noted { OnOk result
            (NotesItems modules.old modules.new self.old self.new (item.now ∷ [])) }
    {
        modules.let_wait(&item.label)?;
        if let Some(page) = item.page {
            self.pages.push(page)?;
        }
        self.total = self.total.saturating_add(u64::from(item.weight));
        Ok(())
    }
}
