//! Why bytes can't be read.
ghost use Rattle.std.specs.Prelude.{◌≡◌};
ghost use Rattle.entry_format.specs.declared.refused.EntryRefused.TheVariants.{Bad as NoEntry, NoMemory as NoMemoryForEntry};

use dimm_topology::LabelRefused;
use ras_base::NoMemory;
use std::alloc::AllocFailed;
use thiserror::Error;

/// Why bytes can't be read as entries.
#[derive(Clone, Copy, Debug, PartialEq, Eq, Drop, Error)]
pub enum EntryRefused {
    /// The bytes aren't entries: they end before an entry does, or don't begin like an entry.
    #[error("the bytes are no entry")]
    Bad,
    /// Memory ran out.
    #[error("memory ran out")]
    NoMemory,
}

impl From<NoMemory> for EntryRefused {
    ghost from_gives = { λ _ e. e ≡ NoMemoryForEntry };

    fn from(_: NoMemory) -> Self {
        EntryRefused::NoMemory
    }
}

impl<T: Drop> From<AllocFailed<T>> for EntryRefused {
    ghost from_gives = { λ _ e. e ≡ NoMemoryForEntry };

    fn from(_: AllocFailed<T>) -> Self {
        EntryRefused::NoMemory
    }
}
