//! Journal files that were written down by hand, in pieces.
use super::joined;
use std::alloc::Global;
use std::test::Fail;

/// Pieces of a file.
pub type Pieces = &'static [&'static [u8]];

// An open front gate and the magic of version 2, and of version 1.
const FRONT: &[u8] = b"\xa5RASJRNL2";

const OLD_FRONT: &[u8] = b"\xa5RASJRNL1";

// Gates.
const OPEN: &[u8] = b"\xa5";

const CLOSED: &[u8] = b"\0";

// Generations.
const ONE: &[u8] = b"\x01\0\0\0\0\0\0\0";

const TWO: &[u8] = b"\x02\0\0\0\0\0\0\0";

// The empty account's checkpoint with its length, in version 2 and in version 1: the limits, no
// entries, the floor 0 (in version 2), and no names, modules or pages.
const NOTHING: &[u8] = b"\x48\0\0\0\0\0\0\0\x0a\0\0\0\0\0\0\0\x80\x51\x01\0\0\0\0\0\
    \x64\0\0\0\0\0\0\0\x80\x51\x01\0\0\0\0\0\
    \0\0\0\0\0\0\0\0\0\0\0\0\0\0\0\0\0\0\0\0\0\0\0\0\0\0\0\0\0\0\0\0\0\0\0\0\0\0\0\0";

const OLD_NOTHING: &[u8] = b"\x30\0\0\0\0\0\0\0\x0a\0\0\0\0\0\0\0\x80\x51\x01\0\0\0\0\0\
    \0\0\0\0\0\0\0\0\0\0\0\0\0\0\0\0\0\0\0\0\0\0\0\0\0\0\0\0\0\0\0\0";

// The link of the everyday error of the module DIMM_A1.
const LINK: &[u8] = b"\x37\0\0\0\x01\0\0\0\x01\x01\x01\0\0\0\0\0\0\0\0\0\x07\
    \xe8\x03\0\0\0\0\0\0\x64\0\0\0\0\0\0\0\x01\0\0\x07\x44\x49\x4d\x4d\x5f\x41\x31\x01\
    \x45\x23\x01\0\0\0\0\0\x01\0";

// The link of the limit of 5 errors in 60 seconds.
const LIMIT_LINK: &[u8] = b"\x15\0\0\0\x01\0\0\0\x02\x05\0\0\0\0\0\0\0\x3c\0\0\0\0\0\0\0";

/// Generation 1 with the everyday error.
pub const LABELLED: Pieces = &[FRONT, ONE, NOTHING, OPEN, LINK, CLOSED];

/// Generation 1 in version 1, without the error, and without a gate after it.
pub const OLD_LABELLED: Pieces = &[OLD_FRONT, ONE, OLD_NOTHING, OPEN, LINK, CLOSED];

pub const OLD_EMPTY: Pieces = &[OLD_FRONT, ONE, OLD_NOTHING, CLOSED];

pub const OLD_CUT: Pieces = &[OLD_FRONT, ONE, OLD_NOTHING];

/// The empty generation 2.
pub const SECOND: Pieces = &[FRONT, TWO, NOTHING, CLOSED];

/// A file that isn't valid: one open gate.
pub const GATE: Pieces = &[OPEN];

/// A file that was closed for the next generation, and is longer than that generation.
pub const SHUT: Pieces = &[
    CLOSED,
    b"RASJRNL2",
    ONE,
    NOTHING,
    OPEN,
    LINK,
    OPEN,
    LINK,
    OPEN,
    LINK,
    CLOSED,
];

/// Generation 1 with 256 links of a limit, which is therefore switched before the next link.
pub fn full_chain(alloc: Global) -> Result<Vec<u8>, Fail> {
    let mut bytes = joined(alloc, &[FRONT, ONE, NOTHING])?;
    for _ in 0..256 {
        bytes.extend_from_slice(OPEN)?;
        bytes.extend_from_slice(LIMIT_LINK)?;
    }
    bytes.extend_from_slice(CLOSED)?;
    Ok(bytes)
}
