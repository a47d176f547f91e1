//! Sample tables: the plain one, and the entries that the padded one has before it.
use super::rows::{ACTION, ALL, Row, VALUE};

/// The plain table: the entries of its eleven actions.
pub const PLAIN: [Row; 18] = [
    Row(0, 3, 0, 0, 0, ACTION, 0, ALL),
    Row(1, 3, 0, 0, 0, ACTION, 1, ALL),
    Row(2, 3, 0, 0, 0, ACTION, 2, ALL),
    Row(3, 3, 0, 0, 0, ACTION, 3, ALL),
    Row(4, 2, 0, 0, 0, VALUE, 0, ALL),
    Row(4, 3, 0, 0, 0, ACTION, 4, ALL),
    Row(5, 3, 0, 0, 0, VALUE, 0x9c, ALL),
    Row(5, 3, 0, 0, 0, ACTION, 5, ALL),
    Row(6, 3, 0, 0, 0, ACTION, 6, ALL),
    Row(6, 1, 0, 0, 0, VALUE, 1, ALL),
    Row(7, 3, 0, 0, 0, ACTION, 7, ALL),
    Row(7, 0, 0, 0, 0, VALUE, 0, ALL),
    Row(8, 3, 0, 0, 0, ACTION, 8, ALL),
    Row(8, 0, 0, 0, 0, VALUE, 0, ALL),
    Row(9, 2, 0, 0, 0, VALUE, 0, ALL),
    Row(9, 3, 0, 0, 0, ACTION, 9, ALL),
    Row(10, 3, 0, 0, 0, ACTION, 10, ALL),
    Row(10, 0, 0, 0, 0, VALUE, 0, ALL),
];

/// Entries that the padded table has before the others.
pub const PADDING: [Row; 3] = [
    Row(1, 4, 0, 0, 0, 0, 0, 0),
    Row(1, 12, 0, 0, 0, 0, 10, 0),
    Row(1, 5, 0, 0, 8, VALUE, 0, ALL),
];
