//! The lines that the daemon prints: for new and repeated entries, for orders, and at the end of an
//! event and of a run.
#![tactic(auto)]

mod detail;
mod ends;
mod log;
mod order;
mod pieces;
mod report;
mod section;
mod unreadable;
mod version;

pub use ends::{done_line, end_line, push_done};
pub use log::{push_known, push_repeat};
pub use order::{ORDER_LENGTH, push_orders, standing_lines};
pub use pieces::{CLASSES, class_word, label_word, push_label, push_name, push_page, state_word};
pub use report::{push_detail, push_entry, push_report};
pub use unreadable::push_unreadable;
pub use version::VERSION;
