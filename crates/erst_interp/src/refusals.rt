//! Why a table can't be read, and why a run ends without a result.

ghost use Rattle.std.specs.Prelude.{◌≡◌};
ghost use Rattle.erst_interp.specs.Refusals.{erst_number};

use board_core::Failed;
use ras_base::NoMemory;
use thiserror::Error;

/// Why an ERST can't be read: the first reason that applies, in this order.
#[derive(Clone, Copy, Debug, PartialEq, Eq, Error)]
pub enum ErstTableRefused {
    /// 1: there are fewer than 48 bytes.
    #[error("the ERST has fewer bytes than its fixed part")]
    Short,
    /// 2: the table doesn't begin with its signature, `ERST`.
    #[error("the ERST doesn't have its signature")]
    Signature,
    /// 3: the table's length is below 48, or above the number of bytes.
    #[error("the length of the ERST is below its fixed part, or above the number of bytes")]
    Length,
    /// 4: the bytes of the table don't sum to 0 modulo 256.
    #[error("the bytes of the ERST don't sum to 0")]
    Sum,
    /// 5: the size of the serialization header is neither 12 nor 48.
    #[error("the header of the ERST has a size that isn't known")]
    HeaderSize,
    /// 6: the entries that the table counts pass its length.
    #[error("the entries of the ERST pass its end")]
    Count,
    /// Memory ran out. This has no number, because it isn't a fault of the table.
    #[error("memory ran out")]
    NoMemory,
}

impl ErstTableRefused {
    /// Returns the number by which the refusal is printed, or `None` if memory ran out.
    pub fn number(self) -> Option<u8>
        ensures { result ≡ erst_number self }
    {
        match self {
            ErstTableRefused::Short => Some(1),
            ErstTableRefused::Signature => Some(2),
            ErstTableRefused::Length => Some(3),
            ErstTableRefused::Sum => Some(4),
            ErstTableRefused::HeaderSize => Some(5),
            ErstTableRefused::Count => Some(6),
            ErstTableRefused::NoMemory => None,
        }
    }
}

impl From<NoMemory> for ErstTableRefused {
    ghost use Rattle.erst_interp.specs.declared.refusals.ErstTableRefused.TheVariants.{NoMemory};

    ghost from_gives = { λ _ e. e ≡ NoMemory };

    fn from(_: NoMemory) -> Self {
        ErstTableRefused::NoMemory
    }
}

/// Why a run of an action's list ends without a result.
#[derive(Clone, Copy, Debug, PartialEq, Eq, Error)]
pub enum RunRefused {
    /// A call of the board failed.
    #[error("an access to a register or to the range failed")]
    Register,
    /// `MOST_TURNS` instructions were run, and the list continues.
    #[error("the list didn't end within its turns")]
    Fuel,
    /// The next entry has a number that no instruction has.
    #[error("an entry has an instruction that isn't known")]
    BadInstruction,
    /// The next entry uses a register that isn't usable.
    #[error("an entry uses a register that isn't there")]
    BadRegister,
    /// The next entry moves bytes that aren't all in the range.
    #[error("an entry moves bytes outside the range")]
    BadRange,
}

impl From<Failed> for RunRefused {
    ghost use Rattle.erst_interp.specs.declared.refusals.RunRefused.TheVariants.{Register};

    ghost from_gives = { λ _ e. e ≡ Register };

    fn from(_: Failed) -> Self {
        RunRefused::Register
    }
}
