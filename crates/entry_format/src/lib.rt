//! The entries of an account as the bytes of a file, and back.
//!
//! Each valid entry has one spelling, which `specs/Spelling.antt` defines. A spelling is read back
//! whatever follows it, and bytes that aren't a spelling are rejected.
//!
//! A public function with an empty body is a law: its clauses are the point.
#![tactic(auto)]

mod fields;
mod items;
mod laws;
mod list;
mod names;
mod reading;
mod refused;
mod sizes;
mod version;
mod writing;

pub use fields::{byte_at, u32_at, u64_at};
pub use items::{label_at, page_number_at};
pub use laws::format_laws;
pub use list::read_list;
pub use names::name_at;
pub use reading::limit_at;
pub use refused::EntryRefused;
pub use sizes::entry_len;
pub use version::Version;
pub use writing::{push_entry, push_label, push_limit, push_name, put_name};
