//! What a run has between two lines.

use crate::Ledger;
use ras_events::Settings;

/// What a run has between two lines: the machine description, the account with its journal, and a
/// buffer.
#[derive(Drop)]
pub struct Run {
    pub settings: Settings,
    pub ledger: Ledger,
    /// The text of a line that reports nothing new. The buffer is reused, so that such a line
    /// allocates nothing.
    pub text: Vec<u8>,
}
