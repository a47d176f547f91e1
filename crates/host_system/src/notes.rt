//! A list that only clauses read.
ghost use Rattle.std.specs.Prelude.{◌≡◌, ℕ, List, [], ◌∷◌, ◌++◌};
ghost use Rattle.std.specs.Borrow.{ftrue};

use std::marker::{Model, PhantomData};

/// The notes of calls, each as numbers and bytes. Allocates nothing, because only contracts read
/// notes.
#[derive(Drop)]
pub struct Notes {
    marker: PhantomData<u8>,
    pub ghost calls: { List (List ℕ × List ℕ) },
}

impl Model for Notes {
    ghost also_owns = { λ _. ftrue };
}

impl Notes {
    /// Returns empty notes.
    pub fn new() -> Notes
        ensures { result.calls ≡ [] }
    {
        Notes {
            marker: PhantomData,
        }
    }

    /// Notes a call, as numbers and bytes.
    pub fn note(&mut self, _numbers: &[u64], _bytes: &[u8])
        ensures { self.new.calls ≡ self.old.calls ++ (_numbers.now, _bytes.now) ∷ [] }
    {}
}
