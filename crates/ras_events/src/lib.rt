//! Events: what a line asks a run to do, with the machine description of the lines before it, and
//! all that an event prints, counts and appends, prepared before any of it is done.
//!
//! A public function with an empty body is a law: its clauses are the point.
#![tactic(auto)]

mod beside;
mod done_lines;
mod event;
mod laws;
mod made;
mod preparing;
mod printed;
mod repeat;
mod settings;
mod whole_lines;

pub use done_lines::{done_lines_count, done_lines_count_events};
pub use event::{Event, EventRefused, LineRefusal};
pub use laws::{event_laws, poll_laws, settings_laws, store_laws};
pub use made::{Made, Piece};
pub use preparing::{News, PrepareRefused, Prepared, count, prepare};
pub use printed::printed_lines_are_quiet;
pub use settings::Settings;
pub use whole_lines::{lines_follow_one_another, quiet_lines_follow_one_another};
