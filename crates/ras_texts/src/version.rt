//! The version of the program.

/// The version of the program, as in the file VERSION at the top of the repository.
pub const VERSION: &[u8] = b"0.1.0";
