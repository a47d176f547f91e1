//! The versions of the format.

/// A version of the format.
#[derive(Clone, Copy, Debug, PartialEq, Eq)]
pub enum Version {
    /// The first version, without limits of modules.
    One,
    /// The second version, with every entry.
    Two,
}
