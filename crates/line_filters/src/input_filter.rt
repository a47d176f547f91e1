//! A filter of the lines of an input of any length.

ghost use Rattle.std.specs.Prelude.{◌≡◌, ◌+◌, ◌<◌, ◌≤◌, ◌++◌, ℕ, [], length, OnOk};
ghost use Rattle.line_filters.specs.Feed.{Feed, IsShortInput, TookInput, input_in};
ghost use Rattle.line_filters.specs.declared.feeding.TheConstants.{MOST_AT_ONCE, MOST_INPUTS};

use ras_base::NoMemory;
use std::alloc::Global;

/// A line of an input of any length, or `Long` for a line that is too long.
#[derive(Clone, Copy)]
pub enum InputLine<'a> {
    /// A line of at most 40,000 bytes, without its line feed.
    Line(&'a [u8]),
    /// A line of more than 40,000 bytes, none of which is kept.
    Long,
}

/// A filter of inputs: a text for each, and a text at their end. It rejects no input.
pub trait InputFilter {
    /// What the filter prints for its next inputs.
    ghost makes: { Self → Feed };

    /// How many inputs the filter has taken.
    ghost taken: { Self → ℕ };

    /// Takes an input, and appends its text, which has at most `MOST_AT_ONCE` bytes. Requires a line
    /// of at most 40,000 bytes, and a filter that has taken fewer than `MOST_INPUTS` inputs.
    ///
    /// # Errors
    ///
    /// `NoMemory`: only if memory runs out.
    fn take(
        &mut self,
        alloc: Global,
        input: InputLine<'_>,
        text: &mut Vec<u8>,
    ) -> Result<(), NoMemory>
        requires short { IsShortInput (input_in input) }
        requires few { taken self.old < MOST_INPUTS }
        ensures takes { OnOk result (TookInput (input_in input.entry) (makes self.old)
            (makes self.new) text.old.items text.new.items) }
        ensures taken { OnOk result (taken self.new ≡ taken self.old + 1) };

    /// Appends the text that comes last, which has at most `MOST_AT_ONCE` bytes. `cut` says whether
    /// bytes come after the last line feed. Requires a filter that has taken fewer than
    /// `MOST_INPUTS` inputs.
    ///
    /// # Errors
    ///
    /// `NoMemory`: only if memory runs out.
    fn push_last(&self, alloc: Global, cut: bool, text: &mut Vec<u8>) -> Result<(), NoMemory>
        requires { taken self.now < MOST_INPUTS }
        ensures text { OnOk result
            (text.new.items ≡ text.old.items ++ (makes self.now).last [] cut) }
        ensures short { OnOk result (length ((makes self.now).last [] cut) ≤ MOST_AT_ONCE) };

    /// Without inputs there are no texts.
    ghost none: { (filter : Self) → (makes filter).texts [] ≡ [] };
}
