//! What a line asks a run to do.

ghost use Rattle.std.specs.Prelude.{◌≡◌};

use crate::Made;
use mca_codes::Text;
use ras_base::NoMemory;
use ras_exit::Reason;
use thiserror::Error;

/// What a line asks a run to do.
#[derive(Drop)]
pub enum Event {
    /// Nothing: the line has no words, or is a comment. It isn't an event, and has no done line.
    Nothing,
    /// The line changed the machine description. Nothing more has to be done.
    Settled,
    /// Pieces to be counted: their new entries.
    Counted(Made),
    /// Put a record into the record store under an identifier.
    Put { id: u64, bytes: Text },
    /// Write a panic record into the record store, under an identifier, by the table that drives
    /// the store.
    Saved { id: u64, bytes: [u8; 456] },
    /// Count the records of the record store, as read at a time in seconds, by the table that
    /// drives the store.
    Polled { seconds: u64 },
    /// Recover the account from its files again.
    Reopened,
}

/// Why a line's event is rejected.
#[derive(Clone, Copy, Debug, Error, PartialEq, Eq)]
pub enum LineRefusal {
    /// The line's request is invalid, for this reason.
    #[error("{0}")]
    Bad(Reason),
    /// The line needs the record store, and no admitted table was read before; or it is itself a
    /// table that isn't admitted.
    #[error("no table that is admitted drives the record store")]
    NoTable,
}

/// Why a line gives no event.
#[derive(Clone, Copy, Debug, Error, PartialEq, Eq)]
pub enum EventRefused {
    /// The line is rejected.
    #[error("{0}")]
    Refused(LineRefusal),
    /// Memory ran out.
    #[error("memory ran out")]
    NoMemory,
}

impl From<Reason> for EventRefused {
    ghost use Rattle.ras_events.specs.declared.event.EventRefused.TheVariants as RefusedFor;
    ghost use Rattle.ras_events.specs.declared.event.LineRefusal.TheVariants as RefusalFor;

    ghost from_gives = { λ why refused. refused ≡ RefusedFor.Refused (RefusalFor.Bad why) };

    fn from(why: Reason) -> Self {
        EventRefused::Refused(LineRefusal::Bad(why))
    }
}

impl From<NoMemory> for EventRefused {
    ghost use Rattle.ras_events.specs.declared.event.EventRefused.TheVariants as RefusedFor;

    ghost from_gives = { λ _ refused. refused ≡ RefusedFor.NoMemory };

    fn from(_: NoMemory) -> Self {
        EventRefused::NoMemory
    }
}
