//! Panic records: the report of a machine-check bank as a record that a crashing machine can leave
//! in its record store.
//!
//! A panic record's fact is the bank's own, so an error that is reported both by its bank and by a
//! panic record has one name.
//!
//! A public function with an empty body is a law: its clauses are the point.
#![tactic(auto)]

mod laws;
mod making;
mod places;
mod reading;
mod stored;

pub use laws::{
    panic_records_tell_their_length, reports_are_held, reports_are_read_back,
    stored_facts_are_named, stored_reports_are_short, stored_reports_tell_of_each_item,
};
pub use making::{PanicRefused, panic_record};
pub use reading::panic_of;
pub use stored::{fact_of_stored, report_of_stored};
