//! The account: each report is counted once, by its name, with what it says about memory modules
//! and pages.
//!
//! An account is a function of its history: the entries and the upgrade markers that it was given.
//! The definitions in `specs/` say which function, and the contracts of `Account` say that each
//! call obeys it.
//!
//! A public function with an empty body is a law: its clauses are the point.
#![tactic(auto)]

mod account;
mod in_force;
mod laws;
mod limits;
mod modules;
mod names;
mod orders;
mod rebuilding;
mod reserve;
mod spelled;

pub use account::Account;
pub use laws::{
    account_laws, kept_laws, known_laws, module_laws, numbers_in_digits, order_laws, reserve_laws,
    retire_laws,
};
pub use limits::{FIRST_LIMIT, FIRST_MODULE_LIMIT, MOST_ENTRIES, MOST_NAMES, MOST_TOTAL};
pub use modules::ModuleRow;
pub use orders::Orders;
pub use ras_facts::Entry;
pub use rebuilding::{PushRefused, Rebuilt};
pub use reserve::{ReserveRefused, Tally};
