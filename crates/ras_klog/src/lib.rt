//! The lines of a kernel log about machine checks, the reports that they make, and the filter of
//! lines that prints these reports. The form of the lines is this project's own, after what Linux
//! prints.
//!
//! A public function with an empty body is a law: its clauses are the point.
#![tactic(auto)]

mod filter;
mod laws;
mod line;
mod state;
mod texts;
mod words;

pub use filter::KlogFilter;
pub use laws::klog_is_told_by_groups;
pub use line::{KlogLine, klog_line, klog_line_after};
pub use state::{KlogOut, KlogState};
