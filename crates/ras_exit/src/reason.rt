//! Why a line of a script is rejected.

ghost use Rattle.std.specs.Prelude.{◌≡◌};
ghost use Rattle.ras_exit.specs.Reasons.{panic_number, put_number, reason_number, reason_word};

use apei_sources::{BlockRefused, TableRefused};
use dimm_topology::TopologyRefused;
use erst_interp::ErstTableRefused;
use erst_store::PutRefused;
use ras_panic::PanicRefused;
use ras_script::LineRefused;
use thiserror::Error;

/// Why a line of a script is rejected: by the reader of lines, or because of what the line asks
/// for. Running out of memory isn't one of these reasons.
#[derive(Clone, Copy, Debug, Error, PartialEq, Eq)]
pub enum Reason {
    /// The line can't be read.
    #[error("the line can't be read: {0}")]
    Line(LineRefused),
    /// The line has more bytes than a line may have, so it wasn't read.
    #[error("the line has more than 40,000 bytes")]
    LongLine,
    /// The machine description rejects the line's row.
    #[error("the machine doesn't take the row: {0}")]
    Topology(TopologyRefused),
    /// The line's table of error sources can't be read.
    #[error("the table of error sources can't be read: {0}")]
    Hest(TableRefused),
    /// The line's table of boot errors can't be read.
    #[error("the table of boot errors can't be read: {0}")]
    Bert(TableRefused),
    /// The line's status block can't be read.
    #[error("the status block can't be read: {0}")]
    Block(BlockRefused),
    /// No table of error sources was read before, or it has no source with the line's identifier.
    #[error("no such error source is known")]
    Source,
    /// The line's error record serialization table can't be read.
    #[error("the error record serialization table can't be read: {0}")]
    Erst(ErstTableRefused),
    /// The record store refuses the line's record.
    #[error("the record store doesn't take the record: {0}")]
    Put(PutRefused),
    /// No panic record can be made of the line's report.
    #[error("the report makes no panic record: {0}")]
    Panic(PanicRefused),
}

impl Reason {
    /// Returns the word of the reason that is printed: which reader rejects the line.
    pub fn word(self) -> &'static [u8]
        ensures { result.now ≡ reason_word self }
    {
        match self {
            Reason::Line(_) | Reason::LongLine => b"line",
            Reason::Topology(_) => b"topology",
            Reason::Hest(_) => b"hest",
            Reason::Bert(_) => b"bert",
            Reason::Block(_) => b"block",
            Reason::Source => b"source",
            Reason::Erst(_) => b"erst",
            Reason::Put(_) => b"put",
            Reason::Panic(_) => b"panic",
        }
    }

    /// Returns the number of the refusal, or `None` if the reader gives no number.
    pub fn number(self) -> Option<u8>
        ensures { result ≡ reason_number self }
    {
        match self {
            Reason::Line(refused) => refused.number(),
            Reason::LongLine => Some(5),
            Reason::Topology(refused) => refused.number(),
            Reason::Hest(refused) | Reason::Bert(refused) => refused.number(),
            Reason::Block(refused) => Some(refused.number()),
            Reason::Source => None,
            Reason::Erst(refused) => refused.number(),
            Reason::Put(refused) => put_number(refused),
            Reason::Panic(refused) => Some(panic_number(refused)),
        }
    }
}

// Returns the number of a refusal by the record store. Running out of memory has no number.
fn put_number(refused: PutRefused) -> Option<u8>
    ensures { result ≡ put_number refused }
{
    match refused {
        PutRefused::ReservedId => Some(1),
        PutRefused::TooLong => Some(2),
        PutRefused::StoreFull => Some(3),
        PutRefused::NoMemory => None,
    }
}

// Returns the number of a refusal to make a panic record.
fn panic_number(refused: PanicRefused) -> u8
    ensures { result ≡ panic_number refused }
{
    match refused {
        PanicRefused::ReservedId => 1,
        PanicRefused::NotValid => 2,
    }
}
