//! The journal files that were found by their names.
ghost use Rattle.std.specs.Prelude.{◌≡◌, None};
ghost use Rattle.ras_host.specs.Steps.FoundFiles.{found_of, with_found};

use board_core::FileNo;
use host_system::{FileName, FoundFile};

/// What was found of each journal file, if anything.
#[derive(Drop)]
pub(crate) struct FoundFiles {
    pub(crate) zero: Option<FoundFile>,
    pub(crate) one: Option<FoundFile>,
}

impl FoundFiles {
    pub(crate) fn none() -> FoundFiles
        ensures zero { result.zero ≡ None }
        ensures one { result.one ≡ None }
    {
        FoundFiles {
            zero: None,
            one: None,
        }
    }

    /// Returns what was found of a name's file, `None` for a name that isn't a journal file's.
    pub(crate) fn of(&self, name: FileName) -> Option<FoundFile>
        ensures { result ≡ found_of name self.now }
    {
        match name {
            FileName::Journal(FileNo::Zero) => self.zero,
            FileName::Journal(FileNo::One) => self.one,
            FileName::Store | FileName::New => None,
        }
    }

    /// Records what was found of a journal file.
    pub(crate) fn keep(&mut self, name: FileName, found: Option<FoundFile>)
        ensures { self.new ≡ with_found name found self.old }
    {
        match name {
            FileName::Journal(FileNo::Zero) => self.zero = found,
            FileName::Journal(FileNo::One) => self.one = found,
            FileName::Store | FileName::New => (),
        }
    }
}
