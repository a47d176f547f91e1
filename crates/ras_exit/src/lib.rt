//! How a call of the daemon ends: its exits with their numbers and last lines, why a line of a
//! script is rejected, and how a text is printed.
#![tactic(auto)]

mod exit;
mod printing;
mod reason;
mod stop;

pub use exit::Exit;
pub use printing::print;
pub use reason::Reason;
pub use stop::{busy_line, stop_line, usage_line};
