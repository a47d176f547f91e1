//! What several crates share: running out of memory, bits and little-endian numbers, the sum of a
//! table, numbers in printed text, and definitions that their contracts cite.
#![tactic(auto)]

ghost use Rattle.std.specs.Prelude.{◌≡◌};

mod acpi_table;
mod bit_fields;
mod exact;
pub mod little_endian;
mod text;

pub use acpi_table::has_sum;
pub use bit_fields::{bits, is_set};
pub use exact::ExactEq;
use std::alloc::{AllocError, AllocFailed};
pub use text::push_number;

/// Memory ran out: the only error for which no contract says when it is returned.
#[derive(Clone, Copy, Debug, PartialEq, Eq)]
pub struct NoMemory;

impl From<AllocError> for NoMemory {
    fn from(_: AllocError) -> Self {
        NoMemory
    }
}

impl<T: Drop> From<AllocFailed<T>> for NoMemory {
    fn from(_: AllocFailed<T>) -> Self {
        NoMemory
    }
}
