//! The lines of a script, from a source that returns its bytes in pieces.

ghost use Rattle.std.specs.Prelude.{◌≡◌, ◌+◌, ◌<◌, ◌≤◌, ◌↔◌, true, [], length, take, drop, IfOk, IfErr, IfSome, OnErr, OnOk, Ok, Err, IsTrue, MatchOption, Contains, ℕ, List, ◌-◌, ◌∷◌, ◌++◌};
ghost use Rattle.board_core.specs.Cause.{HasCause};
ghost use Rattle.ras_script.specs.Lines.{lines_within, with_line};
ghost use Rattle.ras_script.specs.LinesLaws.{AreLinesOf};
ghost use Rattle.ras_script.specs.Splitting.{lines_of};
ghost use Rattle.ras_script.specs.Reader.{Advances, GivesNext, MovesLine, Moves, HasSourceCause, IsLine, lines_to_come, given_count};
ghost use Rattle.ras_script.specs.Steps.ReaderSteps.{FeedAt, Finds, GivesLine, IsHeld};
ghost use Rattle.ras_script.specs.SplittingLaws.{Lacks};
ghost use Rattle.ras_script.specs.declared.reader.NextRefused.TheVariants as RefusedFor;

use crate::window::Window;
use board_core::{Failed, Source};
use ras_base::NoMemory;
use std::alloc::Global;
use std::marker::Model;
use thiserror::Error;

/// The most bytes that a script may have.
pub const LONGEST_SCRIPT: usize = 67_108_864;

/// The most bytes that a line may have, without its line feed.
pub const LONGEST_LINE: usize = 40_000;

/// Why a script has no next line.
#[derive(Clone, Copy, Debug, Error, PartialEq, Eq)]
pub enum NextRefused {
    /// The source failed.
    #[error("the source failed")]
    Source,
    /// The line has more than `LONGEST_LINE` bytes.
    #[error("the line has more than 40,000 bytes")]
    LineTooLong,
    /// The script has more than `LONGEST_SCRIPT` bytes, and this line has the first byte too many.
    #[error("the script has more than 67,108,864 bytes")]
    TooLong,
}

impl From<Failed> for NextRefused {
    ghost from_gives = { λ _ e. e ≡ RefusedFor.Source };

    fn from(_: Failed) -> Self {
        NextRefused::Source
    }
}

/// A line feed cuts the lines of a script: the lines of two texts with a line feed between them are
/// the lines of the first text, then the lines of the second. Within the limits, a line that a line
/// feed ends comes first, and then the lines of what follows, whose limit is lower by the bytes of
/// that line and its line feed.
pub fn line_feeds_cut_scripts()
    ensures cut { (front rest : List ℕ)
        → lines_of (front ++ 10 ∷ rest) ≡ lines_of (front ++ 10 ∷ []) ++ lines_of rest }
    ensures within { (most : ℕ) (line rest : List ℕ) → IsLine line → length line < most
        → lines_within most (line ++ 10 ∷ rest)
        ≡ with_line line (lines_within (most - (length line + 1)) rest) }
{}

/// The lines of a script within the limits, each with a line feed at its end, are the script again,
/// unless their list ends early: before a line that is too long, or before the line in which the
/// script becomes too long.
pub fn lines_within_limits_are_the_script()
    ensures { (most : ℕ) (text : List ℕ) → AreLinesOf most text (lines_within most text) }
{}

/// A reader of the lines of a script. It buffers at most a line and a byte.
#[derive(Drop)]
pub struct LineReader {
    window: Window,
    taken: usize,
}

impl Model for LineReader {
    ghost use Rattle.std.specs.Prelude.{ℕ, ◌+◌, ◌≤◌, length};
    ghost use Rattle.ras_script.specs.Reader.{Reader};

    ghost Value = { Reader };

    ghost use Rattle.ras_script.specs.Steps.Window.{line_in, held_in};
    ghost use Rattle.ras_script.specs.declared.reader.TheConstants.{LONGEST_SCRIPT};

    ghost view = { λ r. record { line = line_in r.window; held = held_in r.window; taken = r.taken } };

    ghost invariant = { λ r. (length (held_in r.window) ≤ r.taken)
        × (r.taken ≤ LONGEST_SCRIPT + 1)
        × (r.taken ≤ LONGEST_SCRIPT + length (held_in r.window)) };
}

impl LineReader {
    /// Returns a reader at the start of a script. It allocates everything it needs: a line and a
    /// byte.
    ///
    /// # Errors
    ///
    /// `NoMemory`: only if memory runs out.
    pub fn new(alloc: Global) -> Result<LineReader, NoMemory>
        ensures { IfOk result (λ reader. reader ≡ record { line = []; held = []; taken = 0 }) }
    {
        let window = Window::new(alloc)?;
        Ok(LineReader { window, taken: 0 })
    }

    /// Returns the line that `advance` read last, without its line feed.
    pub fn line(&self) -> &[u8]
        ensures { result.now ≡ self.now.line }
    {
        self.window.line()
    }

    /// Returns whether a whole line is in the buffer, so that `advance` reads nothing from the
    /// source.
    pub fn has_line(&self) -> bool
        ensures { IsTrue result ↔ Contains self.now.held 10 }
    {
        self.first_line_feed().is_some()
    }

    /// Goes to the next line, which `line` then returns, and returns whether there was one. It
    /// reads only while the buffer has no line feed, and allocates nothing. With each line the
    /// number of bytes returned grows, so a loop over the lines ends, whatever its source returns.
    ///
    /// # Errors
    ///
    /// `Source`: the source failed; no byte is lost. `LineTooLong`: the next line has more than
    /// `LONGEST_LINE` bytes. `TooLong`: one of its bytes, or its line feed, is past
    /// `LONGEST_SCRIPT`; no more than one byte past it is read. After either of these two, each
    /// further call returns the same error.
    pub fn advance<S: Source>(&mut self, source: &mut S) -> Result<bool, NextRefused>
        ensures lines { IfSome (S.left source.old) (λ before. IfSome (S.left source.new) (λ now.
            GivesNext result (lines_to_come self.old before) self.new now)) }
        ensures moves { MovesLine result self.old self.new (S.left source.old) (S.left source.new) }
        ensures advances { Advances (result ≡ Ok true) (result ≡ Err NextRefused.Source)
            self.old self.new }
        ensures held_first { Contains self.old.held 10 → source.new ≡ source.old }
        ensures cause { HasSourceCause result (S.faults source.old) (S.faults source.new) }
    {
        match self.find_line(source)? {
            Some(size) => self.give_line(size),
            None => Ok(self.give_rest()),
        }
    }

    // Reads until the buffer has a line feed, and returns its index, or `None` at the script's end.
    #[tactic(auto, using(crate::proofs::ReaderLemmas::lacks_not_contains))]
    fn find_line<S: Source>(&mut self, source: &mut S) -> Result<Option<usize>, NextRefused>
        ensures finds { Finds result self.new (S.left source.new) }
        ensures moves { Moves [] self.old self.new (S.left source.old) (S.left source.new) }
        ensures holds { IsHeld self.new }
        ensures held_first { Contains self.old.held 10 → source.new ≡ source.old }
        ensures cause { HasSourceCause result (S.faults source.old) (S.faults source.new) }
    {
        if let Some(place) = self.first_line_feed() {
            return Ok(Some(place));
        }
        self.read_to_line_feed(source)
    }

    // `find_line`, when the buffer has no line feed yet.
    fn read_to_line_feed<S: Source>(&mut self, source: &mut S) -> Result<Option<usize>, NextRefused>
        requires { Lacks 10 self.old.held }
        ensures finds { Finds result self.new (S.left source.new) }
        ensures moves { Moves [] self.old self.new (S.left source.old) (S.left source.new) }
        ensures holds { IsHeld self.new }
        ensures cause { HasSourceCause result (S.faults source.old) (S.faults source.new) }
    {
        loop {
            if self.held_len() > LONGEST_LINE {
                return Err(NextRefused::LineTooLong);
            }
            if self.taken_len() > LONGEST_SCRIPT {
                return Err(NextRefused::TooLong);
            }
            if self.read_more(source)? == 0 {
                return Ok(None);
            }
            if let Some(place) = self.first_line_feed() {
                return Ok(Some(place));
            }
        }
    }

    // Returns how many bytes were read from the source.
    fn taken_len(&self) -> usize
        ensures { result ≡ self.now.taken }
    {
        self.taken
    }

    // Returns how many bytes are in the buffer.
    fn held_len(&self) -> usize
        ensures value { result ≡ length self.now.held }
        ensures holds { IsHeld self.now }
    {
        self.window.held_len()
    }

    // Returns the index of the first line feed in the buffer.
    fn first_line_feed(&self) -> Option<usize>
        ensures finds { MatchOption result (Lacks 10 self.now.held)
            (λ place. FeedAt place self.now.held) }
        ensures holds { IsHeld self.now }
    {
        self.window.first_line_feed()
    }

    // Reads more bytes into the buffer, which has room for at least one.
    fn read_more<S: Source>(&mut self, source: &mut S) -> Result<usize, Failed>
        requires room { length self.old.held ≤ LONGEST_LINE }
        requires few { self.old.taken ≤ LONGEST_SCRIPT }
        ensures moves { Moves [] self.old self.new (S.left source.old) (S.left source.new) }
        ensures count { IfOk result (λ n. self.new.taken ≡ self.old.taken + n) }
        ensures end { IfOk result (λ n. n ≡ 0 → IfSome (S.left source.old) (λ left. left ≡ [])) }
        ensures failed { OnErr result (self.new.taken ≡ self.old.taken) }
        ensures holds { IsHeld self.new }
        ensures cause { HasCause (S.faults source.old) (S.faults source.new) result }
    {
        self.window.move_to_front();
        let room = LONGEST_LINE + 1 - self.window.held_len();
        let most = room.min(LONGEST_SCRIPT + 1 - self.taken);
        let count = self.window.read_from(source, most)?;
        self.taken += count;
        Ok(count)
    }

    // Returns the bytes before a line feed as a line, unless the line feed is past the longest
    // script.
    fn give_line(&mut self, size: usize) -> Result<bool, NextRefused>
        requires { FeedAt size self.old.held }
        ensures { GivesLine result size self.old self.new }
    {
        let given = self.taken - self.window.held_len();
        if given + size >= LONGEST_SCRIPT {
            return Err(NextRefused::TooLong);
        }
        self.window.give(size, 1);
        Ok(true)
    }

    // Returns all bytes in the buffer as the last line, if there are any.
    fn give_rest(&mut self) -> bool
        requires { self.old.taken ≤ LONGEST_SCRIPT }
        ensures some { IsTrue result ↔ (0 < length self.old.held) }
        ensures line { self.new.line ≡ self.old.held }
        ensures held { self.new.held ≡ [] }
        ensures taken { self.new.taken ≡ self.old.taken }
    {
        let held = self.window.held_len();
        self.window.give(held, 0);
        held > 0
    }
}
