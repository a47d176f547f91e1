//! Why a link isn't appended.

ghost use Rattle.std.specs.Prelude.{◌≡◌};

use board_core::Failed;
use thiserror::Error;

/// Why a link wasn't appended.
#[derive(Clone, Copy, Debug, PartialEq, Eq, Error)]
pub enum AppendRefused {
    /// The file would be too long. No disk call was made.
    #[error("the journal file would be too long")]
    Full,
    /// A disk call failed. Its count of faults rose.
    #[error("a disk call failed")]
    Disk,
}

impl From<Failed> for AppendRefused {
    ghost use Rattle.ras_journal.specs.declared.refused.AppendRefused.TheVariants.{Disk};

    ghost from_gives = { λ _ e. e ≡ Disk };

    fn from(_: Failed) -> Self {
        AppendRefused::Disk
    }
}
