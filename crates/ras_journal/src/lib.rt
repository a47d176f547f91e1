//! The journal: what its two files contain, and appending to it so that a crash at any point leaves
//! the account without a link or with it.
//!
//! A public function with an empty body is a law: its clauses are the point.
#![tactic(auto)]

mod journal;
mod laws;
mod limits;
mod refused;
mod standing;

pub use journal::Journal;
pub use laws::{append_laws, file_laws, journal_laws, limit_laws};
pub use limits::{CLOSED_GATE, LAST_GENERATION, LONGEST_FILE, MOST_LINKS, OPEN_GATE};
pub use refused::AppendRefused;
pub use standing::Standing;
