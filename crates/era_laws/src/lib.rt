//! Laws over any number of runs on one journal and record store, one after another. Each run ended,
//! or a crash cut it short at any point, and each began with what the run before it left.
//!
//! A public function with an empty body is a law: its clauses are the point.
#![tactic(auto)]

mod laws;

pub use laws::{era_laws, run_eras, script_eras};
