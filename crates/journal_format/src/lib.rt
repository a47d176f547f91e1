//! The journal's links and checkpoints as bytes, and back.
//!
//! A link has the entries that are stored or lost together, and a checkpoint is a whole account.
//! Each has one spelling, which `specs/` defines. A spelling is read back, and bytes that aren't
//! one are refused.
//!
//! A public function with an empty body is a law: its clauses are the point.
#![tactic(auto)]

mod comparing;
mod decoding;
mod encoding;
mod laws;
mod link;
mod links;
mod refused;
mod row_reading;
mod rows;
mod sizes;

pub use comparing::is_checkpoint_of;
pub use decoding::read_checkpoint;
pub use encoding::push_checkpoint;
pub use laws::{checkpoint_laws, link_laws, numbers_in_digits};
pub use link::{Link, MOST_LINK_ENTRIES, MOST_PAYLOAD};
pub use links::{encode_link, read_link};
pub use refused::{CheckpointRefused, LinkRefused};
pub use sizes::{CHECKPOINT_PLACE, checkpoint_len};
