//! What the program asks of its operating system, and what a crash of the machine leaves of it.
//!
//! A public function with an empty body is a law: its clauses are the point.
#![tactic(auto)]

mod board_file;
mod failed_calls;
mod faults;
mod kernel;
mod laws;
mod notes;
mod store_file;
mod system;

pub use board_file::{open_files, read_file};
pub use failed_calls::FailedCalls;
pub use faults::counted;
pub use kernel::{
    FileKind, FoundFile, Held, INLINE_LENGTH, Kernel, KernelInput, Note, Place, Refusal, Way,
};
pub use laws::system_laws;
pub use notes::Notes;
pub use store_file::replace_store;
pub use system::{FileName, Input, System};
