//! The position of a journal.

use board_core::FileNo;
use entry_format::Version;

/// The position of a journal in its two files.
#[derive(Clone, Copy, Debug, PartialEq, Eq)]
pub struct Standing {
    /// The current file.
    pub file: FileNo,
    /// The version of the current file's format.
    pub version: Version,
    /// The current file's generation, which is greater than the other file's.
    pub generation: u64,
    /// The offset of the closed gate that ends the chain.
    pub length: u64,
    /// How many links the chain has.
    pub links: u64,
    /// Whether the other file is longer than 1 byte and its byte 0 isn't an open gate.
    pub shut: bool,
}
