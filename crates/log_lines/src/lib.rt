//! The filters that read all that a source of the kernel has: its log, or its trace.
#![tactic(auto)]

mod borders;
mod comments;
mod dimm_laws;
mod dimms;
mod laws;
mod log_dimm;
mod log_feed;
mod log_with_dimms;
mod trace_feed;
mod trace_with_dimms;
mod waits;

pub use borders::{Borders, LEAST_MADE};
pub use comments::{MOST_LAST, MOST_SHOWN};
pub use dimm_laws::{
    dimms_change_no_error, nothing_waits_after_an_empty_line, ranges_are_few, ranges_are_told,
    without_slots_nothing_changes,
};
pub use dimms::{MOST_HELD, MOST_RANGES, MOST_SLOTS, ToldRange};
pub use laws::{
    blocks_bring_their_tables, events_are_never_left_unsaid, machine_checks_are_named_alike,
    only_what_a_trace_has_is_left_out, texts_are_short, texts_are_whole,
    texts_with_dimms_are_whole,
};
pub use log_feed::LogFeed;
pub use log_with_dimms::LogWithDimms;
pub use trace_feed::TraceFeed;
pub use trace_with_dimms::TraceWithDimms;
