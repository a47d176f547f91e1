//! What is in force: the floor, and the limits for pages and modules.
ghost use Rattle.std.specs.Prelude.{◌≡◌};
ghost use Rattle.ras_account.specs.Steps.Taking.{is_news};
ghost use Rattle.ras_account.specs.Steps.Reserving.{in_force_after};

use page_policy::Limit;
use ras_facts::Entry;

// What is in force.
#[derive(Clone, Copy)]
pub(crate) struct InForce {
    // The boot below which all boots are retired.
    pub(crate) floor: u64,
    // The limit for pages.
    pub(crate) limit: Limit,
    // The limit for modules.
    pub(crate) module_limit: Limit,
}

impl InForce {
    // Returns whether an entry is new, unless its name is counted already: its name's boot isn't
    // retired, it is a retire above the floor, or it sets another limit.
    pub(crate) fn admits(&self, entry: &Entry) -> bool
        ensures { result ≡ is_news self.now.floor self.now.limit self.now.module_limit entry.now }
    {
        match entry {
            Entry::Fact(fact) => !fact.name.is_retired(self.floor),
            Entry::Limit(limit) => *limit != self.limit,
            Entry::Retire(boot) => self.floor < *boot,
            Entry::ModuleLimit(limit) => *limit != self.module_limit,
        }
    }

    // Puts in force what an entry sets. A fact sets nothing.
    pub(crate) fn put(&mut self, entry: &Entry)
        ensures { self.new ≡ in_force_after self.old entry.now }
    {
        match entry {
            Entry::Fact(_) => {}
            Entry::Limit(limit) => self.limit = *limit,
            Entry::Retire(boot) => self.floor = *boot,
            Entry::ModuleLimit(limit) => self.module_limit = *limit,
        }
    }
}
