//! The store of error records behind an error record serialization device, and the device itself.
//!
//! A store contains records of bytes under identifiers, and is read and written as one file. The
//! device has the state that its two registers and its address range show, and does the actions of
//! ACPI 6.5, section 18.5, "Error Serialization".
//!
//! A public function with an empty body is a law: its clauses are the point.
#![tactic(auto)]

pub mod actions;
mod device;
mod file;
mod laws;
mod reading;
mod store;

pub use actions::RANGE_LENGTH;
pub use device::{Command, CommandStatus, Dev};
pub use file::StoreFile;
pub use laws::{action_laws, device_laws, file_laws, numbers_in_digits, store_laws};
pub use reading::StoreRefused;
pub use store::{MOST_BYTES, MOST_RECORDS, PutRefused, Store};
