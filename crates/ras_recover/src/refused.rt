//! Why a call of this crate fails.
ghost use Rattle.std.specs.Prelude.{◌≡◌};

use board_core::Failed;
use ras_base::NoMemory;
use thiserror::Error;

/// Why a journal wasn't switched.
#[derive(Clone, Copy, Debug, PartialEq, Eq, Error)]
pub enum SwitchRefused {
    /// The other file would be too long, or the journal has the last generation. No disk call was
    /// made.
    #[error("the journal file would be too long, or its generation is the last one")]
    Full,
    /// A disk call failed. Its count of faults rose.
    #[error("a disk call failed")]
    Disk,
    /// Memory ran out. No disk call was made.
    #[error("memory ran out")]
    NoMemory,
}

/// Why no journal is recovered or opened.
#[derive(Clone, Copy, Debug, PartialEq, Eq, Error)]
pub enum OpenRefused {
    /// A disk call failed. Its count of faults rose.
    #[error("a disk call failed")]
    Disk,
    /// A file is longer than 67,108,864 bytes.
    #[error("a journal file is too long")]
    TooLong,
    /// The file with this number, 0 or 1, is damaged at this offset.
    #[error("journal file {file} is damaged at byte {place}")]
    Damaged { file: u8, place: u64 },
    /// Memory ran out.
    #[error("memory ran out")]
    NoMemory,
}

impl From<Failed> for OpenRefused {
    ghost use Rattle.ras_recover.specs.declared.refused.OpenRefused.TheVariants.{Disk};

    ghost from_gives = { λ _ refused. refused ≡ Disk };

    fn from(_: Failed) -> Self {
        OpenRefused::Disk
    }
}

impl From<NoMemory> for OpenRefused {
    ghost use Rattle.ras_recover.specs.declared.refused.OpenRefused.TheVariants as Why;

    ghost from_gives = { λ _ refused. refused ≡ Why.NoMemory };

    fn from(_: NoMemory) -> Self {
        OpenRefused::NoMemory
    }
}
