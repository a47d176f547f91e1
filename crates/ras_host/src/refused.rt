//! Refusals that no failed call of the kernel made, each for a reason that its clause names.
ghost use Rattle.std.specs.Prelude.{◌≡◌, ◌≢◌, ◌+◌, ◌<◌, Err, None};
ghost use Rattle.host_system.specs.declared.kernel.Refusal.TheVariants.{Exists};
ghost use Rattle.ras_host.specs.Steps.Reasons.{AreOneFile, IsOwnedBy, Moved};

use host_system::{FailedCalls, FileKind, FoundFile, Refusal};
use std::marker::Model;

/// How often a call was refused though no call of the kernel failed, for contracts alone.
#[derive(Drop)]
pub struct Refused {
    calls: FailedCalls,
}

impl Model for Refused {
    ghost use Rattle.std.specs.Prelude.{ℕ};

    ghost Value = { ℕ };

    ghost view = { λ r. r.calls };
}

impl Refused {
    pub(crate) fn none() -> Refused
        ensures { result ≡ 0 }
    {
        Refused {
            calls: FailedCalls::none(),
        }
    }

    // Two names refer to one file, or a name and the standard output.
    pub(crate) fn one_file(
        &mut self,
        _one: &Option<FoundFile>,
        _other: &Option<FoundFile>,
    ) -> Refusal
        requires { AreOneFile _one.now _other.now }
        ensures { self.new ≡ self.old + 1 }
    {
        self.raise()
    }

    // The file that is open isn't the one that its name refers to, or isn't a regular one.
    pub(crate) fn moved(&mut self, _found: &Option<FoundFile>, _open: &FoundFile) -> Refusal
        requires { Moved _found.now _open.now }
        ensures { self.new ≡ self.old + 1 }
    {
        self.raise()
    }

    // A name refers to something that isn't a regular file.
    pub(crate) fn not_regular(&mut self, _found: &FoundFile) -> Refusal
        requires { _found.now.kind ≢ FileKind.Regular }
        ensures { self.new ≡ self.old + 1 }
    {
        self.raise()
    }

    // A symlink belongs to neither root nor the process's user.
    pub(crate) fn foreign_link(
        &mut self,
        _link: &FoundFile,
        _process: &Option<FoundFile>,
    ) -> Refusal
        requires root { _link.now.user ≢ 0 }
        requires user { IsOwnedBy _link.now _process.now → ⊥ }
        ensures { self.new ≡ self.old + 1 }
    {
        self.raise()
    }

    // A file is shorter than the offset at which it is to be written.
    pub(crate) fn shortened(&mut self, _found: &FoundFile, _place: u64) -> Refusal
        requires { _found.now.length < _place }
        ensures { self.new ≡ self.old + 1 }
    {
        self.raise()
    }

    // No name refers to a file that is kept.
    pub(crate) fn without_a_name(&mut self, _open: &FoundFile) -> Refusal
        requires { _open.now.links ≡ 0 }
        ensures { self.new ≡ self.old + 1 }
    {
        self.raise()
    }

    // The name of the file that was locked is missing.
    pub(crate) fn gone(&mut self, _found: &Option<FoundFile>) -> Refusal
        requires { _found.now ≡ None }
        ensures { self.new ≡ self.old + 1 }
    {
        self.raise()
    }

    // A file has the name under which a new store's file is to be left.
    pub(crate) fn left_before(&mut self, _found: &Option<FoundFile>) -> Refusal
        requires { _found.now ≢ None }
        ensures { self.new ≡ self.old + 1 }
    {
        self.raise()
    }

    // Somebody else made a new store's file meanwhile.
    pub(crate) fn made_meanwhile(&mut self, _made: &Result<(), Refusal>) -> Refusal
        requires { _made.now ≡ Err Exists }
        ensures { self.new ≡ self.old + 1 }
    {
        self.raise()
    }

    fn raise(&mut self) -> Refusal
        ensures { self.new ≡ self.old + 1 }
    {
        self.calls.count_one();
        Refusal::Other
    }
}
