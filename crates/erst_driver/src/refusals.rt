//! Why an operation fails.

ghost use Rattle.std.specs.Prelude.{◌≡◌};

use board_core::Failed;
use erst_interp::RunRefused;
use ras_base::NoMemory;
use thiserror::Error;

/// Why an operation fails.
#[derive(Clone, Copy, Debug, PartialEq, Eq, Error)]
pub enum DriverRefused {
    /// A call of the board failed.
    #[error("an access to a register or to the range failed")]
    Register,
    /// The device was busy at each of `MOST_CHECKS` checks.
    #[error("the device stayed busy")]
    Busy,
    /// The device ended the operation with this status, which isn't 0.
    #[error("the device answered a status of failure")]
    Status(u64),
    /// Memory ran out.
    #[error("memory ran out")]
    NoMemory,
}

impl From<Failed> for DriverRefused {
    ghost use Rattle.erst_driver.specs.declared.refusals.DriverRefused.TheVariants.{Register};

    ghost from_gives = { λ _ e. e ≡ Register };

    fn from(_: Failed) -> Self {
        DriverRefused::Register
    }
}

impl From<NoMemory> for DriverRefused {
    ghost use Rattle.erst_driver.specs.declared.refusals.DriverRefused.TheVariants as Why;

    ghost from_gives = { λ _ e. e ≡ Why.NoMemory };

    fn from(_: NoMemory) -> Self {
        DriverRefused::NoMemory
    }
}

// The list of an admitted table fails only if a call of the board failed.
impl From<RunRefused> for DriverRefused {
    ghost use Rattle.erst_driver.specs.declared.refusals.DriverRefused.TheVariants.{Register};

    ghost from_gives = { λ _ e. e ≡ Register };

    fn from(_: RunRefused) -> Self {
        DriverRefused::Register
    }
}
