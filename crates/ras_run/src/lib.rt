//! The run over the journal, line by line: prepares all that a line asks for, appends it to the
//! journal, counts it, and then prints.
#![tactic(auto)]

mod counting;
mod driving;
mod keeping;
mod laws;
mod ledger;
mod line;
mod opening;
mod polling;
mod printing;
mod putting;
mod refused;
mod run;

pub use keeping::keeping_laws;
pub use laws::{line_laws, place_laws};
pub use ledger::Ledger;
pub use line::take_line;
pub use opening::{open, print_standing};
pub use run::Run;
