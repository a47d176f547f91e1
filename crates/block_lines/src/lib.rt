//! Converts the errors that the firmware reported, as a kernel log has them, to lines of script:
//! reads the lines of a report, and makes the report's generic error status block and the table of
//! its source.
//!
//! A public function with an empty body is a law: its clauses are the point.
#![tactic(auto)]

mod blocks;
mod filter;
mod kernel_laws;
mod laws;
mod log_line;
mod memory;
mod report;
mod report_line;
mod reports;
mod sources;
mod text;
mod told_laws;

pub use blocks::{LONGEST_SECTION, push_error_block, push_section_block};
pub use filter::BlockFilter;
pub use kernel_laws::{printed_reports_are_read, printed_texts_are_read};
pub use laws::{made_blocks_are_read_back, made_lines_are_read_back};
pub use memory::{ErrorLocation, MemoryError};
pub use report_line::{location_of, severity_of};
pub use told_laws::{cut_reports_are_told, foreign_lines_are_told, lost_lines_take_no_error};
