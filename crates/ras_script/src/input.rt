//! The lines of an input of any length, from a source that returns its bytes in pieces.

ghost use Rattle.std.specs.Prelude.{◌≡◌, ◌↔◌, ◌+◌, ◌<◌, ◌≤◌, ℕ, List, [], ◌++◌, false, length, map, nat_lt, IfOk, IfSome, IsTrue, OnErr, MatchOption, Contains};
ghost use Rattle.std.specs.List.{AllByRecursion};
ghost use Rattle.board_core.specs.Cause.{HasCause};
ghost use Rattle.ras_script.specs.InputBuffer.{GivesInput, MovesInput, MovesPast, inputs_to_come, is_cut};
ghost use Rattle.ras_script.specs.Inputs.{Input, input_of, inputs_of};
ghost use Rattle.ras_script.specs.SplittingLaws.{Lacks, script_of};
ghost use Rattle.ras_script.specs.Steps.InputSteps.{DropsHeld, FindsEnd, GivesLineEnd};
ghost use Rattle.ras_script.specs.Steps.ReaderSteps.{FeedAt};

use crate::reader::LONGEST_LINE;
use crate::window::Window;
use board_core::{Failed, Source};
use ras_base::NoMemory;
use std::alloc::Global;
use std::marker::Model;

/// What a call of `InputReader::advance` found.
#[derive(Clone, Copy, Debug, PartialEq, Eq)]
pub enum InputStep {
    /// A line, which `line` then returns.
    Line,
    /// The end of a line of more than `LONGEST_LINE` bytes, all of which were dropped.
    Long,
    /// Bytes of a line of more than `LONGEST_LINE` bytes. They were dropped, and the line's end
    /// hasn't come yet.
    Dropping,
    /// The end of the source. It is `cut` if there are bytes after the last line feed. They aren't
    /// a line, and never become one.
    End { cut: bool },
}

// Where a line ends.
enum LineEnd {
    // At the line feed at this index of the buffer's bytes.
    Feed(usize),
    // Further on: the buffer is full.
    Full,
    // Nowhere: the source ended.
    Missing,
}

/// The inputs of a text are its lines that a line feed ends, each one `long` if it has more than
/// `LONGEST_LINE` bytes, and the text is cut if there are bytes after the last line feed. The
/// inputs of a text's beginning are the first inputs of the text, so a line that was cut is never
/// completed.
pub fn inputs_laws()
    ensures lines { (lines : List (List ℕ)) (rest : List ℕ)
        → AllByRecursion (Lacks 10) lines → Lacks 10 rest
        → inputs_of (script_of lines ++ rest)
        ≡ record { whole = map input_of lines; cut = nat_lt 0 (length rest) } }
    ensures begins { (text more : List ℕ) → (rest : List Input)
        × ((inputs_of (text ++ more)).whole ≡ (inputs_of text).whole ++ rest) }
{}

/// A reader of the lines of an input of any length. It buffers at most a line and a byte.
#[derive(Drop)]
pub struct InputReader {
    window: Window,
    dropping: bool,
}

impl Model for InputReader {
    ghost use Rattle.ras_script.specs.InputBuffer.{InputBuffer};
    ghost use Rattle.ras_script.specs.Steps.Window.{line_in, held_in};

    ghost Value = { InputBuffer };

    ghost view = { λ r. record { line = line_in r.window; held = held_in r.window; dropping = r.dropping } };
}

impl InputReader {
    /// Returns a reader at the start of an input. It allocates everything it needs: a line and a
    /// byte.
    ///
    /// # Errors
    ///
    /// `NoMemory`: only if memory runs out.
    pub fn new(alloc: Global) -> Result<InputReader, NoMemory>
        ensures { IfOk result
            (λ reader. reader ≡ record { line = []; held = []; dropping = false }) }
    {
        let window = Window::new(alloc)?;
        Ok(InputReader {
            window,
            dropping: false,
        })
    }

    /// Returns the line that `advance` read last, without its line feed.
    pub fn line(&self) -> &[u8]
        ensures { result.now ≡ self.now.line }
    {
        self.window.line()
    }

    /// Returns whether the buffer has a line feed, so that `advance` reads nothing from the source.
    pub fn has_line(&self) -> bool
        ensures { IsTrue result ↔ Contains self.now.held 10 }
    {
        self.first_line_feed().is_some()
    }

    /// Goes to the end of the next line, or to the end of the source, and returns what it came to.
    /// It reads only while the buffer has no line feed, and allocates nothing. Of a line that is
    /// too long it drops the bytes as often as the buffer is full, and returns `Dropping` each
    /// time, so a call ends whatever the source returns: it reads at most a line and a byte. A
    /// caller who goes on after `Dropping` as after a line comes to the line's end. After `End`
    /// nothing has changed, and each further call reads the source again.
    ///
    /// # Errors
    ///
    /// `Failed`: the source failed; no byte is lost.
    pub fn advance<S: Source>(&mut self, source: &mut S) -> Result<InputStep, Failed>
        ensures inputs { IfSome (S.left source.old) (λ before. IfSome (S.left source.new) (λ now.
            GivesInput result (inputs_to_come self.old before) self.new now)) }
        ensures moves { MovesInput result self.old self.new (S.left source.old)
            (S.left source.new) }
        ensures held_first { Contains self.old.held 10 → source.new ≡ source.old }
        ensures cause { HasCause (S.faults source.old) (S.faults source.new) result }
    {
        match self.find_end(source)? {
            LineEnd::Feed(size) => Ok(self.give_line(size)),
            LineEnd::Full => {
                self.drop_held();
                Ok(InputStep::Dropping)
            }
            LineEnd::Missing => Ok(InputStep::End { cut: self.is_cut() }),
        }
    }

    // Reads until the buffer has a line feed or is full, or the source ends.
    #[tactic(auto, using(crate::proofs::ReaderLemmas::lacks_not_contains))]
    fn find_end<S: Source>(&mut self, source: &mut S) -> Result<LineEnd, Failed>
        ensures finds { FindsEnd result self.new (S.left source.new) }
        ensures moves { MovesPast [] self.old self.new (S.left source.old) (S.left source.new) }
        ensures dropping { self.new.dropping ≡ self.old.dropping }
        ensures held_first { Contains self.old.held 10 → source.new ≡ source.old }
        ensures cause { HasCause (S.faults source.old) (S.faults source.new) result }
    {
        if let Some(place) = self.first_line_feed() {
            return Ok(LineEnd::Feed(place));
        }
        self.read_to_end(source)
    }

    // `find_end`, when the buffer has no line feed yet.
    fn read_to_end<S: Source>(&mut self, source: &mut S) -> Result<LineEnd, Failed>
        requires lacks { Lacks 10 self.old.held }
        requires few { length self.old.held ≤ LONGEST_LINE + 1 }
        ensures finds { FindsEnd result self.new (S.left source.new) }
        ensures moves { MovesPast [] self.old self.new (S.left source.old) (S.left source.new) }
        ensures dropping { self.new.dropping ≡ self.old.dropping }
        ensures cause { HasCause (S.faults source.old) (S.faults source.new) result }
    {
        loop {
            if self.held_len() > LONGEST_LINE {
                return Ok(LineEnd::Full);
            }
            if self.read_more(source)? == 0 {
                return Ok(LineEnd::Missing);
            }
            if let Some(place) = self.first_line_feed() {
                return Ok(LineEnd::Feed(place));
            }
        }
    }

    // Returns whether the buffer has bytes of a line without its line feed, or such bytes were
    // dropped.
    fn is_cut(&self) -> bool
        ensures { result ≡ is_cut self.now }
    {
        self.dropping || self.window.held_len() > 0
    }

    // Returns how many bytes are in the buffer.
    fn held_len(&self) -> usize
        ensures value { result ≡ length self.now.held }
        ensures few { result ≤ LONGEST_LINE + 1 }
    {
        self.window.held_len()
    }

    // Returns the index of the first line feed in the buffer.
    fn first_line_feed(&self) -> Option<usize>
        ensures finds { MatchOption result (Lacks 10 self.now.held)
            (λ place. FeedAt place self.now.held) }
        ensures few { length self.now.held ≤ LONGEST_LINE + 1 }
    {
        let _count = self.window.held_len();
        self.window.first_line_feed()
    }

    // Reads more bytes into the buffer, which has room for at least one.
    fn read_more<S: Source>(&mut self, source: &mut S) -> Result<usize, Failed>
        requires { length self.old.held ≤ LONGEST_LINE }
        ensures moves { MovesPast [] self.old self.new (S.left source.old) (S.left source.new) }
        ensures count { IfOk result
            (λ n. length self.new.held ≡ length self.old.held + n) }
        ensures unread { OnErr result (self.new.held ≡ self.old.held) }
        ensures end { IfOk result (λ n. n ≡ 0 → IfSome (S.left source.old) (λ left. left ≡ [])) }
        ensures dropping { self.new.dropping ≡ self.old.dropping }
        ensures cause { HasCause (S.faults source.old) (S.faults source.new) result }
    {
        self.window.move_to_front();
        let room = LONGEST_LINE + 1 - self.window.held_len();
        self.window.read_from(source, room)
    }

    // Takes the bytes before a line feed from the buffer, as a line or as the end of a line that is
    // too long.
    fn give_line(&mut self, size: usize) -> InputStep
        requires feed { FeedAt size self.old.held }
        ensures { GivesLineEnd result size self.old self.new }
    {
        self.window.give(size, 1);
        if self.dropping {
            self.dropping = false;
            InputStep::Long
        } else {
            InputStep::Line
        }
    }

    // Drops all bytes in the buffer, which belong to a line that is too long.
    fn drop_held(&mut self)
        ensures { DropsHeld self.old self.new }
    {
        let held = self.window.held_len();
        self.window.give(0, held);
        self.dropping = true;
    }
}
