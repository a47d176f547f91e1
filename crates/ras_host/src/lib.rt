//! A board over the working folder and standard output, and a source over standard input, for any
//! system and input.
//!
//! `journal` opens, reads and syncs the journal's files, `kept` has the device and writes its record
//! store to the store's file, and `file_board` writes the journal's files, prints, and counts the
//! calls that failed: all three are proved over every modelled system. `over_kernel` is such a system
//! over every modelled kernel: it decides which calls of the operating system are made, `names`
//! checks the files that the names refer to, and `long_files` has which of them a sync needn't ask
//! for their length. `over_input` is the input over the kernel's read. `real_kernel` and `real_input`
//! make the calls, whose effects no clause covers.
#![tactic(auto)]

mod faults;
mod file_board;
mod file_source;
mod found_files;
mod journal;
mod kept;
mod listed;
mod long_files;
mod names;
mod over_input;
mod over_kernel;
mod reading;
mod real_input;
mod real_kernel;
mod refused;
mod saved;
mod uses;

pub use faults::Refusals;
pub use file_board::FileBoard;
pub use file_source::FileSource;
pub use over_input::OverInput;
pub use over_kernel::OverKernel;
pub use real_input::{RealInput, StandardInput};
pub use real_kernel::{RealKernel, RealSystem};
pub use uses::{Alone, Found, OnlyReading, Use};
