//! Filters the lines of an input of any length, and prints their texts before the source is read
//! again.

ghost use Rattle.std.specs.Prelude.{◌≡◌, ◌↔◌, ◌+◌, ◌≤◌, ◌<◌, ℕ, List, [], true, length, Err, IfErr, IfSome, IsSomeAnd, IsTrue, OnErr, OnOk, Some};
ghost use Rattle.std.specs.List.{AllByRecursion};
ghost use Rattle.board_core.specs.Device.{LeavesDevice};
ghost use Rattle.board_core.specs.Told.{Told};
ghost use Rattle.ras_exit.specs.Causes.{BoardCause, Causes, SourceCause};
ghost use Rattle.ras_script.specs.declared.reader.TheConstants.{LONGEST_LINE};
ghost use Rattle.line_filters.specs.Feeds.{Feeds, IsFeedExit, StopsFeeding, TakesInput};
ghost use Rattle.line_filters.specs.Filters.{OfBoth};
ghost use Rattle.line_filters.specs.Pieces.{AreShort, pieces_of, texts_joined};
ghost use Rattle.line_filters.specs.Steps.Feeding.{FeedEndsBoth, IsFeedStop, LeavesEnd, TakesStep, is_fault, no_inputs};
ghost use Rattle.line_filters.specs.Steps.Filtering.{PrintsWaiting, Says};

use crate::{InputFilter, InputLine};
use board_core::{Board, Failed, Source};
use ras_base::NoMemory;
use ras_exit::{Exit, print};
use ras_script::{InputReader, InputStep};
use std::alloc::Global;

/// The most bytes that one call prints. Linux writes so many bytes into a pipe as a whole, whoever
/// else writes into the pipe (`PIPE_BUF` in limits.h).
pub const MOST_AT_ONCE: usize = 4_096;

/// The most steps of the reader in one call. Each step passes at least one byte, so no source gets
/// there: at a billion bytes a second it would take 584 years.
pub const MOST_INPUTS: u64 = u64::MAX;

/// A law: texts are gathered into pieces, and one call prints each piece. Together the pieces are
/// all texts, whole and in order; a piece has at most 4,096 bytes if no text is longer. This is
/// about the definition; `print_unless`, which prints everything here, requires such pieces.
pub fn pieces_laws()
    ensures all { (texts : List (List ℕ)) → texts_joined (pieces_of texts) ≡ texts_joined texts }
    ensures short { (texts : List (List ℕ)) → AreShort texts
        → AllByRecursion (λ (piece : List ℕ). length piece ≤ 4096) (pieces_of texts) }
{}

/// Filters the lines of `source` until the source ends, and returns how that ended. No line is
/// rejected. The texts of all lines that were read are printed before the next read, so none waits
/// during a read. Each call prints whole texts, of at most 4,096 bytes together.
///
/// Returns `NoMemory` if memory runs out, or after `MOST_INPUTS` steps, which no source reaches.
pub fn feed_lines<S: Source, B: Board, F: InputFilter>(
    alloc: Global,
    filter: &mut F,
    source: &mut S,
    board: &mut B,
) -> Exit
    requires { F.taken filter.old ≡ 0 }
    ensures feeds { OfBoth (Feeds (F.makes filter.old) result) (S.left source.old)
        (S.left source.new) (B.seen board.old).told (B.seen board.new).told }
    ensures takes { IfSome (S.left source.old)
        (λ input. IsSomeAnd (S.left source.new) (TakesInput result input)) }
    // This holds even if a crash before might have left something other than the model says.
    ensures stops { StopsFeeding (F.makes filter.old) (S.left source.old) (B.seen board.old).told
        (B.seen board.old).clock (B.seen board.new).clock }
    ensures exits { IsFeedExit result }
    ensures source { SourceCause result (S.faults source.old) (S.faults source.new) }
    ensures board { BoardCause result (B.seen board.old).faults (B.seen board.new).faults }
    ensures device { LeavesDevice (B.seen board.old).told (B.seen board.new).told
        (B.seen board.old).clock (B.seen board.new).clock }
{
    let mut inputs = match InputReader::new(alloc) {
        Ok(inputs) => inputs,
        Err(NoMemory) => return Exit::NoMemory,
    };
    match take_inputs(alloc, &mut inputs, filter, source, board) {
        Ok(cut) => end_inputs(alloc, cut, filter, board),
        Err(exit) => exit,
    }
}

// Takes the inputs in order, and prints the text of each. Returns whether the input is cut off.
fn take_inputs<S: Source, B: Board, F: InputFilter>(
    alloc: Global,
    inputs: &mut InputReader,
    filter: &mut F,
    source: &mut S,
    board: &mut B,
) -> Result<bool, Exit>
    requires begins { (inputs.old ≡ no_inputs) × (F.taken filter.old ≡ 0) }
    ensures ends { (script : List ℕ) (t : Told) → S.left source.old ≡ Some script
        → (B.seen board.old).told ≡ Some t → FeedEndsBoth (F.makes filter.old) script t
        (B.seen board.old).clock result (F.makes filter.new) [] (S.left source.new)
        (B.seen board.new).told (B.seen board.new).clock }
    ensures takes { LeavesEnd (S.left source.old) (S.left source.new) }
    ensures all { OnOk result (IfSome (S.left source.new) (λ left. left ≡ [])) }
    ensures few { OnOk result (F.taken filter.new < MOST_INPUTS) }
    ensures exits { IfErr result IsFeedStop }
    ensures causes { Causes SourceCause result (S.faults source.old) (S.faults source.new)
        × Causes BoardCause result (B.seen board.old).faults (B.seen board.new).faults }
    ensures device { LeavesDevice (B.seen board.old).told (B.seen board.new).told
        (B.seen board.old).clock (B.seen board.new).clock }
{
    let mut waiting = Vec::new(alloc);
    let ended = gather_inputs(alloc, inputs, filter, &mut waiting, source, board);
    if is_fault(&ended) {
        return ended;
    }
    match print_unless(false, &mut waiting, board) {
        Ok(()) => ended,
        Err(fault) => Err(fault),
    }
}

// Returns whether a call of the source or the board failed; then no other call follows.
fn is_fault(ended: &Result<bool, Exit>) -> bool
    ensures { result ≡ is_fault ended.now }
{
    matches!(ended, Err(Exit::SourceFault | Exit::PrintFault))
}

// Takes the inputs in order, and gathers their texts. Prints the gathered texts before they get too
// long for one call, and before the source is read. At the end some texts may be left to print.
fn gather_inputs<S: Source, B: Board, F: InputFilter>(
    alloc: Global,
    inputs: &mut InputReader,
    filter: &mut F,
    waiting: &mut Vec<u8>,
    source: &mut S,
    board: &mut B,
) -> Result<bool, Exit>
    requires begins { (inputs.old ≡ no_inputs) × (F.taken filter.old ≡ 0)
        × (waiting.old.items ≡ []) }
    ensures ends { (script : List ℕ) (t : Told) → S.left source.old ≡ Some script
        → (B.seen board.old).told ≡ Some t → FeedEndsBoth (F.makes filter.old) script t
        (B.seen board.old).clock result (F.makes filter.new) waiting.new.items
        (S.left source.new) (B.seen board.new).told (B.seen board.new).clock }
    ensures short { length waiting.new.items ≤ MOST_AT_ONCE }
    ensures takes { LeavesEnd (S.left source.old) (S.left source.new) }
    ensures all { OnOk result (IfSome (S.left source.new) (λ left. left ≡ [])) }
    ensures few { OnOk result (F.taken filter.new < MOST_INPUTS) }
    ensures exits { IfErr result IsFeedStop }
    ensures causes { Causes SourceCause result (S.faults source.old) (S.faults source.new)
        × Causes BoardCause result (B.seen board.old).faults (B.seen board.new).faults }
    ensures device { LeavesDevice (B.seen board.old).told (B.seen board.new).told
        (B.seen board.old).clock (B.seen board.new).clock }
{
    let mut text = Vec::new(alloc);
    for _number in 0..MOST_INPUTS {
        if let Err(fault) = print_unless(inputs.has_line(), waiting, board) {
            return Err(fault);
        }
        let Ok(step) = inputs.advance(source) else {
            return Err(Exit::SourceFault);
        };
        if let InputStep::End { cut } = step {
            return Ok(cut);
        }
        let Ok(()) = take_step(alloc, step, inputs, filter, &mut text) else {
            return Err(Exit::NoMemory);
        };
        if let Err(fault) = print_unless(fits(waiting, &text), waiting, board) {
            return Err(fault);
        }
        let Ok(()) = waiting.extend_from_slice(&text) else {
            return Err(Exit::NoMemory);
        };
    }
    Err(Exit::NoMemory)
}

// Makes the text of an input that was read. There is no text while bytes of a long line are
// dropped.
fn take_step<F: InputFilter>(
    alloc: Global,
    step: InputStep,
    inputs: &InputReader,
    filter: &mut F,
    text: &mut Vec<u8>,
) -> Result<(), NoMemory>
    requires short { step ≡ InputStep.Line → length inputs.now.line ≤ LONGEST_LINE }
    requires few { F.taken filter.old < MOST_INPUTS }
    ensures takes { OnOk result (TakesStep step inputs.now.line (F.makes filter.old)
        (F.makes filter.new) text.new.items) }
    ensures taken { OnOk result (F.taken filter.new ≤ F.taken filter.old + 1) }
{
    text.clear();
    match step {
        InputStep::Line => filter.take(alloc, InputLine::Line(inputs.line()), text),
        InputStep::Long => filter.take(alloc, InputLine::Long, text),
        InputStep::Dropping | InputStep::End { .. } => Ok(()),
    }
}

// Returns whether one call can print the gathered texts and the next one.
fn fits(waiting: &[u8], text: &[u8]) -> bool
    requires short { (length waiting.now ≤ MOST_AT_ONCE) × (length text.now ≤ MOST_AT_ONCE) }
    ensures { IsTrue result ↔ (length waiting.now + length text.now ≤ MOST_AT_ONCE) }
{
    waiting.len() + text.len() <= MOST_AT_ONCE
}

// Prints the gathered texts by one call, unless they may wait.
fn print_unless<B: Board>(may_wait: bool, waiting: &mut Vec<u8>, board: &mut B) -> Result<(), Exit>
    requires short { length waiting.old.items ≤ 4096 }
    ensures prints { PrintsWaiting B.seen result (may_wait ≡ true) waiting.old.items
        waiting.new.items board.old board.new }
    ensures faults { Causes BoardCause result (B.seen board.old).faults (B.seen board.new).faults }
    ensures size { length waiting.new.items ≤ length waiting.old.items }
    ensures exit { OnErr result (result ≡ Err Exit.PrintFault) }
    ensures device { LeavesDevice (B.seen board.old).told (B.seen board.new).told
        (B.seen board.old).clock (B.seen board.new).clock }
{
    if waiting.is_empty() || may_wait {
        return Ok(());
    }
    match print(waiting, board) {
        Ok(()) => {
            waiting.clear();
            Ok(())
        }
        Err(fault) => Err(fault),
    }
}

// Prints the last text.
fn end_inputs<B: Board, F: InputFilter>(alloc: Global, cut: bool, filter: &F, board: &mut B) -> Exit
    requires { F.taken filter.now < MOST_INPUTS }
    ensures says { Says B.seen Exit.Done result ((F.makes filter.now).last [] cut) board.old
        board.new }
    ensures exits { IsFeedExit result }
    ensures faults { BoardCause result (B.seen board.old).faults (B.seen board.new).faults }
    ensures device { LeavesDevice (B.seen board.old).told (B.seen board.new).told
        (B.seen board.old).clock (B.seen board.new).clock }
{
    let mut text = Vec::new(alloc);
    match filter.push_last(alloc, cut, &mut text) {
        Ok(()) => match print_unless(false, &mut text, board) {
            Ok(()) => Exit::Done,
            Err(fault) => fault,
        },
        Err(NoMemory) => Exit::NoMemory,
    }
}
