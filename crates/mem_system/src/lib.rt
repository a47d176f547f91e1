//! A system in memory: its calls fail where a test chooses, and it says what a crash leaves.
//!
//! A public function with an empty body is a law: its clauses are the point.
#![tactic(auto)]

pub mod allowed;
mod laws;
mod left_folder;
mod mem_files;
mod mem_system;

pub use laws::transcript_laws;
pub use left_folder::{LeftFolder, NamePick, StopPick, WriteLeft};
pub use mem_system::{Effect, MemKernel, MemSystem};
