//! How a call of the daemon ends.

ghost use Rattle.std.specs.Prelude.{◌≡◌};

use crate::Reason;
use ras_base::NoMemory;
use ras_script::LineRefused;

/// How a call ends.
#[derive(Clone, Copy, Debug, PartialEq, Eq)]
pub enum Exit {
    /// The call completed.
    Done,
    /// The arguments aren't a command.
    Usage,
    /// A line is rejected: its number, from 1, and why.
    BadLine { line: u64, reason: Reason },
    /// Reading the source failed.
    SourceFault,
    /// A disk call failed.
    DiskFault,
    /// A call of the record store's device failed.
    RegisterFault,
    /// Printing failed.
    PrintFault,
    /// A file is damaged: which file, and from which offset.
    Damaged { file: u8, place: u64 },
    /// The account or the journal has no room.
    Full,
    /// A line needs a table that drives the record store, and no admitted table was read before; or
    /// the line is itself a table that isn't admitted. With the line's number, from 1.
    ErstRefused { line: u64 },
    /// The record store's device was busy for too long.
    ErstBusy,
    /// The record store's device ended an operation with this status, which isn't 0.
    ErstStatus(u64),
    /// Memory ran out.
    NoMemory,
    /// The script is too long.
    TooLong,
}

impl From<NoMemory> for Exit {
    ghost use Rattle.ras_exit.specs.declared.exit.Exit.TheVariants as ExitFor;

    ghost from_gives = { λ _ exit. exit ≡ ExitFor.NoMemory };

    fn from(_: NoMemory) -> Self {
        Exit::NoMemory
    }
}

impl Exit {
    ghost use Rattle.ras_exit.specs.Endings.{is_answer, unread_exit};
    ghost use Rattle.ras_exit.specs.ExitStatus.{exit_number};

    /// Returns the process's exit status for this exit.
    pub fn status(&self) -> u8
        ensures { result ≡ exit_number self.now }
    {
        match self {
            Exit::Done => 0,
            Exit::Usage => 1,
            Exit::BadLine { .. } => 2,
            Exit::SourceFault => 3,
            Exit::DiskFault => 4,
            Exit::RegisterFault => 5,
            Exit::PrintFault => 6,
            Exit::Damaged { .. } => 7,
            Exit::Full => 8,
            Exit::ErstRefused { .. } => 9,
            Exit::ErstBusy => 10,
            Exit::ErstStatus(_) => 11,
            Exit::NoMemory => 12,
            Exit::TooLong => 13,
        }
    }

    /// Returns whether a call with this exit came to its end or to a refusal. Otherwise a fault cut
    /// it short, or memory ran out.
    pub fn is_answer(self) -> bool
        ensures { result ≡ is_answer self }
    {
        !matches!(
            self,
            Exit::SourceFault
                | Exit::DiskFault
                | Exit::RegisterFault
                | Exit::PrintFault
                | Exit::NoMemory
        )
    }

    /// Returns how a run ends if its line of this number can't be read.
    pub fn of_unread(line: u64, refused: LineRefused) -> Exit
        ensures { result ≡ unread_exit line refused }
    {
        match refused {
            LineRefused::NoMemory => Exit::NoMemory,
            refused => Exit::BadLine {
                line,
                reason: Reason::Line(refused),
            },
        }
    }
}
