//! Polls of the record store over a driver: the records are listed and read, and the readable ones
//! are cleared.
//!
//! A public function with an empty body is a law: its clauses are the point.
#![tactic(auto)]

mod clearing;
mod laws;
mod looking;

pub use clearing::clear_all;
pub use laws::{
    clears_take_the_readable_records, device_calls_change_the_store_alone, looks_leave_the_store,
    savings_are_puts,
};
pub use looking::{Looked, look};
