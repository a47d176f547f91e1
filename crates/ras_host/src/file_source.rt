//! An input as a source.
ghost use Rattle.std.specs.Prelude.{◌≡◌};

use board_core::{Failed, Source};
use host_system::Input;
use std::marker::Model;

/// A source of the bytes of an input. It is modelled if the input is, and its faults are the
/// input's.
#[derive(Drop)]
pub struct FileSource<I: Input + Drop> {
    input: I,
}

impl<I: Input + Drop> Model for FileSource<I> {
    ghost use Rattle.ras_host.specs.SourceState.{SourceState};

    ghost Value = { SourceState };

    ghost view = { λ s. record { left = I.left s.input; faults = I.faults s.input } };
}

impl<I: Input + Drop> FileSource<I> {
    /// Returns a source of the bytes that the input has left.
    pub fn new(input: I) -> FileSource<I>
        ensures left { result.left ≡ I.left input }
        ensures faults { result.faults ≡ I.faults input }
    {
        FileSource { input }
    }

    /// Returns the input that the source reads.
    pub fn into_input(self) -> I
        ensures left { I.left result ≡ self.left }
        ensures faults { I.faults result ≡ self.faults }
    {
        self.input
    }
}

impl<I: Input + Drop> Source for FileSource<I> {
    ghost left = { λ s. s.left };

    ghost faults = { λ s. s.faults };

    fn read(&mut self, buf: &mut [u8]) -> Result<usize, Failed> {
        self.input.read(buf)
    }
}
