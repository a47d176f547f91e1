//! Why a table or a block can't be read.

ghost use Rattle.std.specs.Prelude.{◌≡◌};
ghost use Rattle.apei_sources.specs.Refusals.{table_number, block_number};

use thiserror::Error;

/// Why a table can't be read: the first reason that applies, in this order. A HEST's sources are
/// walked one by one, and each is tried for 5, then 6, then 7.
#[derive(Clone, Copy, Debug, PartialEq, Eq, Error)]
pub enum TableRefused {
    /// 1: there are fewer bytes than the table's fixed part has, 40 for a HEST and 48 for a BERT.
    #[error("the table has fewer bytes than its fixed part")]
    Short,
    /// 2: the table doesn't begin with its signature, `HEST` or `BERT`.
    #[error("the table doesn't have its signature")]
    Signature,
    /// 3: the table's length is below its fixed part, or above the number of bytes.
    #[error("the length of the table is below its fixed part, or above the number of bytes")]
    Length,
    /// 4: the bytes of the table don't sum to 0 modulo 256.
    #[error("the bytes of the table don't sum to 0")]
    Sum,
    /// 5: a source has a type that isn't known.
    #[error("an error source has a type that isn't known")]
    SourceType,
    /// 6: a source passes the table's length, or fewer than 4 bytes of it are there.
    #[error("an error source passes the table's end")]
    SourceOut,
    /// 7: a source has the identifier of an earlier source.
    #[error("two error sources have one identifier")]
    RepeatedId,
    /// Memory ran out. This has no number, because it isn't a fault of the table.
    #[error("memory ran out")]
    NoMemory,
}

/// Why a status block can't be read: the first reason that applies, in this order. All entries are
/// tested for 2 before any is tested for 3.
#[derive(Clone, Copy, Debug, PartialEq, Eq, Error)]
pub enum BlockRefused {
    /// 1: there are fewer bytes than the block's header of 20, or than header and data if the
    /// block status isn't 0.
    #[error("the status block has fewer bytes than its header, or than its header and its data")]
    Short,
    /// 2: an entry's header or data passes the end of the block's data.
    #[error("an entry passes the end of the status block's data")]
    EntryOut,
    /// 3: an entry's data can't be read as a section of its type.
    #[error("an entry's section can't be read")]
    Section,
}

impl TableRefused {
    /// Returns the number by which the refusal is printed, or `None` if memory ran out.
    pub fn number(self) -> Option<u8>
        ensures { result ≡ table_number self }
    {
        match self {
            TableRefused::Short => Some(1),
            TableRefused::Signature => Some(2),
            TableRefused::Length => Some(3),
            TableRefused::Sum => Some(4),
            TableRefused::SourceType => Some(5),
            TableRefused::SourceOut => Some(6),
            TableRefused::RepeatedId => Some(7),
            TableRefused::NoMemory => None,
        }
    }
}

impl BlockRefused {
    /// Returns the number by which the refusal is printed.
    pub fn number(self) -> u8
        ensures { result ≡ block_number self }
    {
        match self {
            BlockRefused::Short => 1,
            BlockRefused::EntryOut => 2,
            BlockRefused::Section => 3,
        }
    }
}
