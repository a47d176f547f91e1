//! Why a link isn't appended to the journal.

/// Why a link isn't appended to the journal.
#[derive(Clone, Copy, Debug, PartialEq, Eq)]
pub(crate) enum KeepRefused {
    /// The journal has no room for it in either file. No disk call was made.
    Full,
    /// A disk call failed.
    Disk,
    /// Memory ran out.
    NoMemory,
}
