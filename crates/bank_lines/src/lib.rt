//! Finds machine checks in the kernel's trace and log, line by line, and prints them as lines of
//! script.
#![tactic(auto)]

mod edac_line;
mod edac_report;
mod event;
mod filter;
mod found;
mod kernel_laws;
mod laws;
mod log_errors;
mod log_filter;
mod log_heads;
mod log_kernel_laws;
mod log_laws;
mod log_line;
mod log_state;
mod mark;
mod naming;
mod naming_laws;
mod output_laws;
mod parts;
mod saved;
mod stamp;
mod text;
mod trace;
mod trace_laws;

pub use event::{TraceEvent, event_in};
pub use filter::TraceFilter;
pub use found::Finding;
pub use kernel_laws::{heads_are_traced, names_make_no_event, printed_events_are_read};
pub use laws::printed_lines_are_read_back;
pub use log_errors::LogErrors;
pub use log_filter::LogFilter;
pub use log_heads::{cut, is_own, mark_place, without_spaces};
pub use log_kernel_laws::{printed_logs_are_read, twice_printed_errors_have_one_name};
pub use log_laws::logs_are_made_lines;
pub use log_line::{LAST_SECOND, MICROSECONDS, console_stamp, log_stamp_of, marked_stamp};
pub use naming::{AlikeCounts, CHECKS, MOST_ALIKE, MOST_KEYS, named_first};
pub use naming_laws::errors_have_one_name;
pub use output_laws::lines_laws;
pub use parts::{Parts, value_after};
pub use saved::{MOST_BYTES, print_record, push_record, records_are_read, saved_event};
pub use stamp::{MOST_SECONDS, stamp_of};
pub use text::push_found;
pub use trace::{behind_name, event_report, is_count, last_word, trace_found};
pub use trace_laws::traces_are_read_back;
