//! What a board does with the journal's files, and the folder that it found.
ghost use Rattle.std.specs.Prelude.{ℕ, None, Option};
ghost use Rattle.host_system.specs.FolderPast.{FolderPast};

use std::marker::Brand;

/// How a board uses the journal's files. It is in the board's type, because only the type survives
/// a command.
pub trait Use {
    ghost HOW: { ℕ };

    /// 1 for a run, and 0 for every other command.
    const HOW: u8;
}

/// A run reads and writes the files, as the only program that does. It makes a missing file.
pub struct Alone;

impl Use for Alone {
    ghost HOW = { 1 };

    const HOW: u8 = 1;
}

/// Every other command reads the files as they are at the first use, even while a run writes them.
/// A missing file counts as empty.
pub struct OnlyReading;

impl Use for OnlyReading {
    ghost HOW = { 0 };

    const HOW: u8 = 0;
}

/// The past of the folder when a board over it was new, for contracts alone: they compare the
/// folder with it. It is in the board's type too. A caller that passes `Brand` picks any past in
/// its proof; without a pick nothing is compared.
pub trait Found {
    ghost past: { Option FolderPast };
}

impl Found for Brand {
    ghost past = { None };
}
