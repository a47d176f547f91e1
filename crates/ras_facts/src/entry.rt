//! The entries of an account.
ghost use Rattle.std.specs.Prelude.{◌≡◌};

use crate::Fact;
use page_policy::Limit;

/// An entry: what an account counts, or puts in force.
#[derive(Debug, Drop)]
pub enum Entry {
    /// A report, with its errors.
    Fact(Fact),
    /// From now on this limit is in force for pages.
    Limit(Limit),
    /// From now on reports of the boots below this number are no longer counted, and their names
    /// are dropped.
    Retire(u64),
    /// From now on this limit is in force for memory modules.
    ModuleLimit(Limit),
}

impl Entry {
    ghost use Rattle.ras_facts.specs.Entries.{IsValidEntry, most_orders};

    /// Returns the most orders that the entry can give: two for each item, one for its page and one
    /// for its module.
    pub fn most_orders(&self) -> usize
        requires { IsValidEntry self.now }
        ensures { result ≡ most_orders self.now }
    {
        match self {
            Entry::Fact(fact) => 2 * fact.items.as_slice().len(),
            Entry::Limit(_) | Entry::Retire(_) | Entry::ModuleLimit(_) => 0,
        }
    }
}
