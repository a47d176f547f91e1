//! CPER records: the header, the section descriptors and their sections, as views of the bytes that
//! contain them. It follows the UEFI specification, appendix N, "Common Platform Error Record".
//!
//! A public function with an empty body is a law: its clauses are the point.
#![tactic(auto)]

mod laws;
mod records;
mod refusals;
mod stored;
mod walk;

pub use laws::{numbers_in_digits, only_own_bytes, records_are_laid_out, stored_records_are_read};
pub use records::{Record, read_record};
pub use refusals::{RecordRefused, Unreadable};
pub use stored::read_stored;
