//! Reads the lines of a source, each with its number.

ghost use Rattle.std.specs.Prelude.{◌≡◌, ◌↔◌, Contains, IfOk, IfSome, IsTrue};
ghost use Rattle.ras_script.specs.Reader.{MovesLine, lines_to_come};
ghost use Rattle.line_filters.specs.Numbered.{Counts, EndsNext, GivesNumbered, no_lines};

use board_core::Source;
use ras_base::NoMemory;
use ras_exit::{Exit, Reason};
use ras_script::{LineReader, NextRefused};
use std::alloc::Global;
use std::marker::Model;

/// The lines of a source, from the first on, and how their list ends, which is how a call that
/// takes the lines ends.
#[derive(Drop)]
pub struct NumberedLines {
    reader: LineReader,
    number: u64,
}

impl Model for NumberedLines {
    ghost use Rattle.std.specs.Prelude.{◌≤◌};
    ghost use Rattle.ras_script.specs.Reader.{given_count};
    ghost use Rattle.line_filters.specs.Numbered.{Numbered};

    ghost Value = { Numbered };

    ghost view = { λ l. record { reader = l.reader; number = l.number } };

    ghost invariant = { λ l. l.number ≤ given_count l.reader };
}

impl NumberedLines {
    /// Returns the lines of a source, before the first. Allocates everything it needs: a line and a
    /// byte.
    ///
    /// # Errors
    ///
    /// `NoMemory`: only if memory runs out.
    pub fn new(alloc: Global) -> Result<NumberedLines, NoMemory>
        ensures { IfOk result (λ lines. lines ≡ no_lines) }
    {
        let reader = LineReader::new(alloc)?;
        Ok(NumberedLines { reader, number: 0 })
    }

    /// Returns the line that `next` read last, without its line feed.
    pub fn line(&self) -> &[u8]
        ensures { result.now ≡ self.now.reader.line }
    {
        self.reader.line()
    }

    /// Returns the number of the line that `next` read last, counted from 1.
    pub fn number(&self) -> u64
        ensures { result ≡ self.now.number }
    {
        self.number
    }

    /// Returns whether a whole line is in the buffer, so that `next` reads nothing from the source.
    pub fn has_line(&self) -> bool
        ensures { IsTrue result ↔ Contains self.now.reader.held 10 }
    {
        self.reader.has_line()
    }

    /// Goes to the next line, which `line` then returns, and returns whether there was one.
    /// Allocates nothing.
    ///
    /// # Errors
    ///
    /// How a call that takes the lines ends. `SourceFault`: only if the source failed. `BadLine`:
    /// the next line, whose number it has, is longer than 40,000 bytes. `TooLong`: the script has
    /// more than 67,108,864 bytes. After either of the last two, each further call returns the same
    /// error.
    pub fn next<S: Source>(&mut self, source: &mut S) -> Result<bool, Exit>
        ensures gives { IfSome (S.left source.old) (λ before. IfSome (S.left source.new) (λ left.
            GivesNumbered result (lines_to_come self.old.reader before) self.old.number
            self.new.reader left)) }
        ensures moves { MovesLine result self.old.reader self.new.reader
            (S.left source.old) (S.left source.new) }
        ensures counts { Counts result self.old self.new }
        ensures held_first { Contains self.old.reader.held 10 → source.new ≡ source.old }
        ensures ends { EndsNext result (S.faults source.old) (S.faults source.new) }
    {
        match self.reader.advance(source) {
            Ok(true) => {
                self.number += 1;
                Ok(true)
            }
            Ok(false) => Ok(false),
            Err(NextRefused::Source) => Err(Exit::SourceFault),
            Err(NextRefused::TooLong) => Err(Exit::TooLong),
            Err(NextRefused::LineTooLong) => Err(Exit::BadLine {
                line: self.number + 1,
                reason: Reason::LongLine,
            }),
        }
    }
}
