//! Tables of rows by key. Each key has a row, in the order in which the keys were added; after them
//! keys may be reserved, so that their rows can be added later without allocating memory.
#![tactic(auto)]

mod row_table;

pub use row_table::{KeyTest, RowRefused, RowTable};
