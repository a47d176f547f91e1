//! Which memory module an error belongs to, by rows that describe how the machine is built.
//!
//! A topology is the list of its rows in the order in which they were added: the sockets of CPUs,
//! the modules behind the memory channels, ranges of physical addresses, and the places that
//! firmware names. The owner of an error is a function of that list, which `specs/` defines.
//!
//! A public function with an empty body is a law: its clauses are the point.
#![tactic(auto)]

mod label;
mod laws;
mod ranges;
mod row;
mod tables;
mod topology;

pub use label::{Label, LabelRefused, MOST_LABEL_BYTES};
pub use laws::{numbers, owners_have_labels};
pub use row::{Location, Row};
pub use topology::{MOST_ROWS, Topology, TopologyRefused};
