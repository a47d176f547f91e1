//! Which of the states that a crash may leave is chosen.

/// Which of the states that a crash now may leave is chosen.
#[derive(Clone, Copy, Debug, PartialEq, Eq)]
pub enum Pick {
    /// Each file as it was last synced.
    Old,
    /// Each file as a read returns it.
    New,
    /// Each file with the length that a read returns, and every byte written since its last sync
    /// set to this byte.
    Fill(u8),
}
