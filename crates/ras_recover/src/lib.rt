//! Recovery: gets the account and the journal from two files, opens them, and switches the journal
//! to its other file so that a crash at any point leaves the account. Laws say what happens to a
//! journal over any calls and crashes.
//!
//! A public function with an empty body is a law: its clauses are the point.
#![tactic(auto)]

mod by_age;
mod fields;
mod file;
mod formatting;
mod laws;
mod life;
mod links;
mod opening;
mod pair;
mod place;
mod recovering;
mod refused;
mod switching;
mod walking;
mod window;

pub use laws::{life_laws, opening_laws, recovery_laws, switch_laws};
pub use life::{live_append, live_opening, live_switch};
pub use opening::open_journal;
pub use pair::Recovered;
pub use recovering::recover;
pub use refused::{OpenRefused, SwitchRefused};
pub use switching::switch_file;
