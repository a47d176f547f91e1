//! Counts the failed calls of a kernel, for clauses only.
ghost use Rattle.std.specs.Prelude.{◌≡◌, ◌+◌, Bool, IsErr};
ghost use Rattle.host_system.specs.Kernel.{failed_any, failed_make, failed_names, failed_read, failed_sync};

use crate::kernel::{Held, Refusal};
use crate::notes::Notes;
use std::marker::Model;

/// How many calls of a kernel have failed. Each method returns the call's result. Allocates
/// nothing: only contracts can read the count.
#[derive(Drop)]
pub struct FailedCalls {
    notes: Notes,
}

impl Model for FailedCalls {
    ghost use Rattle.std.specs.Prelude.{ℕ, length};

    ghost Value = { ℕ };

    ghost view = { λ f. length f.notes.calls };
}

impl FailedCalls {
    /// Returns the count 0.
    pub fn none() -> FailedCalls
        ensures { result ≡ 0 }
    {
        FailedCalls {
            notes: Notes::new(),
        }
    }

    /// Counts one more failed call.
    pub fn count_one(&mut self)
        ensures { self.new ≡ self.old + 1 }
    {
        self.notes.note(&[], &[]);
    }

    /// Counts a call if it failed.
    pub fn count<T>(&mut self, answer: Result<T, Refusal>) -> Result<T, Refusal>
        ensures same { result ≡ answer }
        ensures count { self.new ≡ self.old + failed_any answer }
    {
        if answer.is_err() {
            self.count_one();
        }
        answer
    }

    /// Counts making a file, unless it exists.
    pub fn count_make(&mut self, answer: Result<(), Refusal>) -> Result<(), Refusal>
        ensures same { result ≡ answer }
        ensures count { self.new ≡ self.old + failed_make answer }
    {
        match answer {
            Err(Refusal::Exists) => Err(Refusal::Exists),
            answer => self.count(answer),
        }
    }

    /// Counts a sync of a file, unless it is only read and can't be synced.
    pub fn count_sync(&mut self, held: Held, answer: Result<(), Refusal>) -> Result<(), Refusal>
        ensures same { result ≡ answer }
        ensures count { self.new ≡ self.old + failed_sync held answer }
    {
        match (held, answer) {
            (Held::Opened(_), Err(Refusal::Unsupported)) => Err(Refusal::Unsupported),
            (_, answer) => self.count(answer),
        }
    }

    /// Counts a sync of the folders, unless the process keeps no file and they can't be synced.
    pub fn count_names(&mut self, keeps: bool, answer: Result<(), Refusal>) -> Result<(), Refusal>
        ensures same { result ≡ answer }
        ensures count { self.new ≡ self.old + failed_names keeps answer }
    {
        match answer {
            Err(Refusal::Unsupported) if !keeps => Err(Refusal::Unsupported),
            Err(Refusal::NotPermitted) if !keeps => Err(Refusal::NotPermitted),
            answer => self.count(answer),
        }
    }

    /// Counts a read, unless a signal interrupted it.
    pub fn count_read<T>(&mut self, answer: Result<T, Refusal>) -> Result<T, Refusal>
        ensures same { result ≡ answer }
        ensures count { self.new ≡ self.old + failed_read answer }
    {
        match answer {
            Err(Refusal::Interrupted) => Err(Refusal::Interrupted),
            answer => self.count(answer),
        }
    }
}
