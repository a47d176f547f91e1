//! Where firmware reports errors: the hardware error source table (HEST), the boot error record
//! table (BERT), and generic error status blocks, as views of the bytes that contain them. It
//! follows ACPI 6.5, section 18.3, "Error Source Discovery".
//!
//! A public function with an empty body is a law: its clauses are the point.
#![tactic(auto)]

mod bert_table;
mod blocks;
mod entries;
mod hest_table;
mod laws;
mod refusals;
mod sources;
mod tables;

pub use bert_table::{Bert, read_bert};
pub use blocks::{Block, read_block};
pub use hest_table::{Hest, read_hest};
pub use laws::{
    entries_fill_the_data, numbers_in_digits, only_own_bytes, sources_are_laid_end_to_end,
};
pub use refusals::{BlockRefused, TableRefused};
