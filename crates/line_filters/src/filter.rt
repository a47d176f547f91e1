//! A filter of lines.

ghost use Rattle.std.specs.Prelude.{◌≡◌, ◌+◌, ◌≤◌, ℕ, [], ◌++◌, length, OnErr, OnOk};
ghost use Rattle.ras_script.specs.declared.reader.TheConstants.{LONGEST_LINE, LONGEST_SCRIPT};
ghost use Rattle.line_filters.specs.Filter.{Filter, TakesInto};

use ras_base::NoMemory;
use ras_script::LineRefused;
use std::alloc::Global;

/// A filter: a text for each line of a script, and a text at its end.
pub trait LineFilter {
    /// What the filter prints for its next lines.
    ghost makes: { Self → Filter };

    /// How many lines the filter has taken.
    ghost taken: { Self → ℕ };

    /// Takes a line, and appends its text.
    ///
    /// # Errors
    ///
    /// Why the line is rejected; nothing changes then. `NoMemory`: only if memory runs out.
    fn take(&mut self, alloc: Global, line: &[u8], text: &mut Vec<u8>) -> Result<(), LineRefused>
        requires short { length line.now ≤ LONGEST_LINE }
        requires few { taken self.old ≤ LONGEST_SCRIPT }
        ensures takes { TakesInto result line.now (makes self.old) (makes self.new) text.old.items
            text.new.items }
        ensures taken { OnOk result (taken self.new ≡ taken self.old + 1) }
        ensures kept { OnErr result (taken self.new ≡ taken self.old) };

    /// Appends the text that comes after all lines, whether or not a line was rejected.
    ///
    /// # Errors
    ///
    /// `NoMemory`: only if memory runs out.
    fn push_rest(&self, alloc: Global, text: &mut Vec<u8>) -> Result<(), NoMemory>
        requires { taken self.now ≤ LONGEST_SCRIPT + 1 }
        ensures { OnOk result (text.new.items ≡ text.old.items ++ (makes self.now).rest []) };

    /// Appends the text that comes last if no line was rejected.
    ///
    /// # Errors
    ///
    /// `NoMemory`: only if memory runs out.
    fn push_last(&self, alloc: Global, text: &mut Vec<u8>) -> Result<(), NoMemory>
        requires { taken self.now ≤ LONGEST_SCRIPT + 1 }
        ensures { OnOk result (text.new.items ≡ text.old.items ++ (makes self.now).last []) };

    /// Without lines there are no answers.
    ghost none: { (filter : Self) → (makes filter).answers [] ≡ [] };
}
