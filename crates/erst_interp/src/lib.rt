//! The interpreter of error record serialization tables (ERST): tables, the machine that runs an
//! action's list of instructions over the two registers and the range of a board's device, and the
//! tables that are admitted. It follows ACPI 6.5, section 18.5, "Error Serialization".
//!
//! A public function with an empty body is a law: its clauses are the point.
#![tactic(auto)]

mod admission;
mod entries;
mod laws;
mod machine;
mod moving;
mod refusals;
mod run;
mod table;

pub use admission::admits;
pub use entries::{Instruction, InstructionEntry};
pub use laws::{admitted_lists_are_faithful, lists_are_of_the_entries, table_limits};
pub use refusals::{ErstTableRefused, RunRefused};
pub use run::MOST_TURNS;
pub use table::{Table, read_erst};
