//! How far a journal file is read.
ghost use Rattle.std.specs.Prelude.{◌≡◌};

use board_core::Failed;
use entry_format::Version;
use ras_base::NoMemory;
use std::alloc::AllocError;

/// What was read of a journal file up to a gate, besides the account: the version, the generation,
/// the gate's offset, and the number of links before it.
#[derive(Clone, Copy, Debug, PartialEq, Eq)]
pub(crate) struct Place {
    pub(crate) version: Version,
    pub(crate) generation: u64,
    pub(crate) gate: usize,
    pub(crate) links: u64,
}

/// Why a journal file can't be read.
#[derive(Clone, Copy, Debug, PartialEq, Eq, Drop)]
pub(crate) enum ReadRefused {
    /// A disk call failed.
    Disk,
    /// The file is damaged at this offset.
    Damaged(usize),
    /// Memory ran out.
    NoMemory,
}

impl From<Failed> for ReadRefused {
    ghost use Rattle.ras_recover.specs.declared.place.ReadRefused.TheVariants.{Disk};

    ghost from_gives = { λ _ refused. refused ≡ Disk };

    fn from(_: Failed) -> Self {
        ReadRefused::Disk
    }
}

impl From<NoMemory> for ReadRefused {
    ghost use Rattle.ras_recover.specs.declared.place.ReadRefused.TheVariants as Why;

    ghost from_gives = { λ _ refused. refused ≡ Why.NoMemory };

    fn from(_: NoMemory) -> Self {
        ReadRefused::NoMemory
    }
}

impl From<AllocError> for ReadRefused {
    ghost use Rattle.ras_recover.specs.declared.place.ReadRefused.TheVariants as Why;

    ghost from_gives = { λ _ refused. refused ≡ Why.NoMemory };

    fn from(_: AllocError) -> Self {
        ReadRefused::NoMemory
    }
}
