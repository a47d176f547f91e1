//! Why a record can't be read.

use thiserror::Error;

/// Why a record can't be read: the first reason that applies, in this order.
#[derive(Clone, Copy, Debug, PartialEq, Eq, Error)]
pub enum RecordRefused {
    /// There are fewer than the 128 bytes of a header.
    #[error("the record has fewer bytes than a header")]
    Short,
    /// The record doesn't begin with `CPER`, or the bytes from 6 to 9 aren't all FFh.
    #[error("the record doesn't have its signatures")]
    Signature,
    /// The record's length is below 128, or above the number of bytes.
    #[error("the length of the record is below its header's, or above the number of bytes")]
    Length,
    /// The section descriptors pass the record's length.
    #[error("the section descriptors pass the record's end")]
    DescriptorOut,
    /// Some section passes the record's length.
    #[error("a section passes the record's end")]
    SectionOut,
    /// Some section can't be read.
    #[error("a section of the record can't be read")]
    Section,
}

/// Why the bytes that a record store returned under an identifier can't be read.
#[derive(Clone, Copy, Debug, PartialEq, Eq, Error)]
pub enum Unreadable {
    /// The bytes don't begin with a record that can be read, for this reason.
    #[error("{0}")]
    NoRecord(RecordRefused),
    /// The bytes begin with a record that has another identifier.
    #[error("the record has another identifier")]
    OtherId,
}
