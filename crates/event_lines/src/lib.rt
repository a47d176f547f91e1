//! Converts the hardware errors among the kernel's trace events to lines of script: finds the events
//! in the lines of a trace, makes the block of each, and the filter that reads the lines of a kernel
//! log as well.
//!
//! A public function with an empty body is a law: its clauses are the point.
#![tactic(auto)]

mod aer;
mod dimm_told;
mod driver_event;
mod driver_laws;
mod filter;
mod flags;
mod laws;
mod memory_event;
mod memory_words;
mod pcie_bytes;
mod section_event;
mod traced;

pub use aer::{AerDevice, AerEvent, AerSeverity, TlpHeader};
pub use dimm_told::{label_told, traced_dimm};
pub use driver_laws::{
    driver_events_are_never_passed_over, driver_events_are_read, printed_dimms_are_told,
};
pub use filter::{ReportFilter, TRACE_SOURCE};
pub use laws::{
    events_are_never_passed_over, logs_are_filtered_as_before, made_memory_blocks_are_read_back,
    made_sections_are_read_back, other_controller_events_are_no_errors, printed_events_are_read,
};
pub use traced::is_extlog;
