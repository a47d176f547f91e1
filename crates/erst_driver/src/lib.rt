//! The driver of the error record device: it clears, reads, writes and lists the records of its
//! store, by the actions of an admitted table. It follows ACPI 6.5, section 18.5.2, "Operations".
//!
//! A public function with an empty body is a law: its clauses are the point.
#![tactic(auto)]

mod driver;
mod laws;
mod refusals;
mod step;

pub use driver::Driver;
pub use laws::{driver_limits, operations_on_the_store, told_by_is_of_the_device};
pub use refusals::DriverRefused;
pub use step::Step;
