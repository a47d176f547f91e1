//! The daemon: runs commands. A run takes a script of hardware error reports over a journal that
//! survives a crash at any point.
//!
//! A public function with an empty body is a law: its clauses are the point.
#![tactic(auto)]

mod daemon;
mod ending;
mod help;
mod laws;
mod lines;
mod load;
mod reporting;
mod running;
mod word;

pub use daemon::{promise_laws, rasd};
pub use help::help_laws;
pub use laws::{feeding_laws, outside_laws, run_laws};
pub use listing_texts::Listing;
pub use load::loading_laws;
pub use ras_exit::{Exit, Reason};
pub use word::{RasWord, Task, task_of};
