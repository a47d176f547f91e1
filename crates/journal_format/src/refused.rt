//! Why bytes could not be read.
ghost use Rattle.std.specs.Prelude.{◌≡◌};
ghost use Rattle.journal_format.specs.declared.refused.LinkRefused.TheVariants.{NoMemory as NoMemoryForLink};
ghost use Rattle.journal_format.specs.declared.refused.CheckpointRefused.TheVariants.{NoMemory as NoMemoryForCheckpoint};

use ras_base::NoMemory;
use thiserror::Error;

/// Why bytes can't be read as a link.
#[derive(Clone, Copy, Debug, PartialEq, Eq, Drop, Error)]
pub enum LinkRefused {
    /// The bytes end before the link does.
    #[error("the link is cut")]
    Cut,
    /// The link's payload isn't a list of entries.
    #[error("the payload of the link is no list of entries")]
    Bad,
    /// Memory ran out.
    #[error("memory ran out")]
    NoMemory,
}

impl From<NoMemory> for LinkRefused {
    ghost from_gives = { λ _ e. e ≡ NoMemoryForLink };

    fn from(_: NoMemory) -> Self {
        LinkRefused::NoMemory
    }
}

/// Why bytes can't be read as a checkpoint.
#[derive(Clone, Copy, Debug, PartialEq, Eq, Drop, Error)]
pub enum CheckpointRefused {
    /// The bytes aren't a checkpoint, or are more than one.
    #[error("the bytes are no checkpoint")]
    Bad,
    /// Memory ran out.
    #[error("memory ran out")]
    NoMemory,
}

impl From<NoMemory> for CheckpointRefused {
    ghost from_gives = { λ _ e. e ≡ NoMemoryForCheckpoint };

    fn from(_: NoMemory) -> Self {
        CheckpointRefused::NoMemory
    }
}
