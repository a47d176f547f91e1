//! The journal files that are known to be long, so that a sync needn't ask for their length.
ghost use Rattle.std.specs.Prelude.{◌≡◌, false};
ghost use Rattle.ras_host.specs.LongFiles.{known_long, with_known};

use board_core::FileNo;
use host_system::FileName;

/// For each journal file, whether it is known to be longer than `INLINE_LENGTH`.
#[derive(Drop)]
pub(crate) struct LongFiles {
    zero: bool,
    one: bool,
}

impl LongFiles {
    pub(crate) fn none() -> LongFiles
        ensures zero { result.zero ≡ false }
        ensures one { result.one ≡ false }
    {
        LongFiles {
            zero: false,
            one: false,
        }
    }

    pub(crate) fn knows(&self, name: FileName) -> bool
        ensures { result ≡ known_long name self.now }
    {
        match name {
            FileName::Journal(FileNo::Zero) => self.zero,
            FileName::Journal(FileNo::One) => self.one,
            FileName::Store | FileName::New => false,
        }
    }

    pub(crate) fn set(&mut self, name: FileName, is_long: bool)
        ensures { self.new ≡ with_known name is_long self.old }
    {
        match name {
            FileName::Journal(FileNo::Zero) => self.zero = is_long,
            FileName::Journal(FileNo::One) => self.one = is_long,
            FileName::Store | FileName::New => (),
        }
    }
}
