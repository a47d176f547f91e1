//! Reports: a fact, which is the name of the report, when it was made, and the errors that it lists,
//! and a detail for each of these errors.
//!
//! The definitions in `specs/` say what a bank, a record and a status block report, and what a
//! valid fact is.
//!
//! A public function with an empty body is a law: its clauses are the point.
#![tactic(auto)]

mod bank;
mod block;
mod details;
mod entry;
mod exact;
mod fact;
mod items;
mod laws;
mod name;
mod record;
mod section;

pub use bank::{BankReport, fact_of_bank, name_of_bank, report_of_bank};
pub use block::{fact_of_block, report_of_block};
pub use details::{Detail, Details, Report};
pub use entry::Entry;
pub use fact::Fact;
pub use items::{Item, Items, MOST_ITEMS, MOST_WEIGHT, PAGES};
pub use laws::{
    items_have_their_own_labels, labels_are_of_their_sections, numbers, reports_tell_of_each_item,
};
pub use name::Name;
pub use record::{fact_of_record, report_of_record};
pub use section::{section_item, severity_class};
