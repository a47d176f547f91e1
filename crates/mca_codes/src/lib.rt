//! The MCA error code of a machine-check bank: what it says, its text, and whether the manual gives
//! it to a recoverable error. It follows the Intel SDM, volume 3, chapter "Machine-Check
//! Architecture", section "Interpreting the MCA Error Codes".
#![tactic(auto)]

mod codes;
mod marks;
mod texts;
mod words;

pub use codes::{Code, code_of};
pub use marks::{Mark, mark_of};
pub use texts::{Text, code_text, push_code_text};
