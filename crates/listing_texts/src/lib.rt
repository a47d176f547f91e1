//! The listings of an account that a report prints: of its modules, its pages or its names, or
//! their sums as metrics.
//!
//! A public function with an empty body is a law: its clauses are the point.
#![tactic(auto)]

mod laws;
mod listing;
mod metrics;

pub use laws::metrics_laws;
pub use listing::{Listing, push_listing};
