//! A report, as an account counts it.

use crate::{Items, Name};

/// A report, as an account counts it: its name, its time and its items.
#[derive(Debug, Drop)]
pub struct Fact {
    /// The report's name.
    pub name: Name,
    /// When the report was made, in seconds.
    pub seconds: u64,
    /// The errors that the report lists.
    pub items: Items,
}
