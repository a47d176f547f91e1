//! The numbers of the journal's format.

/// The most bytes of a journal file: 64 mebibytes.
pub const LONGEST_FILE: u64 = 67_108_864;

/// A chain with this many links isn't appended to: the journal is switched to the other file first.
pub const MOST_LINKS: u64 = 256;

/// The last generation of a journal.
pub const LAST_GENERATION: u64 = (1 << 63) - 1;

/// The byte of an open gate. Every other byte closes it.
pub const OPEN_GATE: u8 = 0xa5;

/// The byte written for a closed gate.
pub const CLOSED_GATE: u8 = 0;
