//! A large script made up from a number, and the line that sums up its account.
//!
//! A public function with an empty body is a law: its clauses are the point.
#![tactic(auto)]

mod laws;
mod script;
mod summary;

pub use laws::{load_laws, numbers_in_digits};
pub use script::{MOST_LINES, load_script};
pub use summary::load_line;
