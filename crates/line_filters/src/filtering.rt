//! Filters the lines of a source, and prints their texts before the source is read again.

ghost use Rattle.std.specs.Prelude.{◌≡◌, ◌+◌, ◌≤◌, ◌++◌, ℕ, List, [], length, Contains, OnOk, Some, IfErr, IfSome, IsSomeAnd};
ghost use Rattle.board_core.specs.Told.{Told};
ghost use Rattle.ras_script.specs.declared.reader.TheConstants.{LONGEST_LINE, LONGEST_SCRIPT};
ghost use Rattle.ras_exit.specs.Causes.{BoardCause, Causes, SourceCause};
ghost use Rattle.board_core.specs.Device.{LeavesDevice};
ghost use Rattle.ras_exit.specs.Endings.{IsAnswer, IsCut};
ghost use Rattle.line_filters.specs.Filters.{Filters, IsFilterExit, OfBoth, StopsFiltering, TakesOf, closing_text, exit_of};
ghost use Rattle.line_filters.specs.Numbered.{no_lines};
ghost use Rattle.line_filters.specs.Steps.Filtering.{Ends, EndsBoth, GathersBoth, IsTakeExit, PrintsWaiting, TakesLine, has_failed};

use crate::{LineFilter, NumberedLines};
use board_core::{Board, Source};
use ras_base::NoMemory;
use ras_exit::{Exit, print, stop_line};
use std::alloc::Global;

/// Filters lines from `source` until one is rejected or the source ends, and returns how that
/// ended. The texts of all lines read so far are printed by one call before the next read, so none
/// waits during a read.
pub fn filter_lines<S: Source, B: Board, F: LineFilter>(
    alloc: Global,
    filter: &mut F,
    source: &mut S,
    board: &mut B,
) -> Exit
    requires { F.taken filter.old ≡ 0 }
    ensures filters { OfBoth (Filters (F.makes filter.old) result) (S.left source.old)
        (S.left source.new) (B.seen board.old).told (B.seen board.new).told }
    ensures takes { IfSome (S.left source.old)
        (λ script. IsSomeAnd (S.left source.new) (TakesOf result script)) }
    // This holds even if a crash before might have left something other than the model says.
    ensures stops { StopsFiltering (F.makes filter.old) (S.left source.old) (B.seen board.old).told
        (B.seen board.old).clock (B.seen board.new).clock }
    ensures exits { IsFilterExit result }
    ensures source { SourceCause result (S.faults source.old) (S.faults source.new) }
    ensures board { BoardCause result (B.seen board.old).faults (B.seen board.new).faults }
    ensures device { LeavesDevice (B.seen board.old).told (B.seen board.new).told
        (B.seen board.old).clock (B.seen board.new).clock }
{
    let mut lines = match NumberedLines::new(alloc) {
        Ok(lines) => lines,
        Err(NoMemory) => return Exit::NoMemory,
    };
    let mut text = Vec::new(alloc);
    let exit = take_lines(alloc, &mut lines, filter, &mut text, source, board);
    end_lines(alloc, exit, filter, &mut text, board)
}

// Takes the lines in order, and prints the text of each.
fn take_lines<S: Source, B: Board, F: LineFilter>(
    alloc: Global,
    lines: &mut NumberedLines,
    filter: &mut F,
    text: &mut Vec<u8>,
    source: &mut S,
    board: &mut B,
) -> Exit
    requires begins { (lines.old ≡ no_lines) × (F.taken filter.old ≡ 0) }
    ensures ends { (script : List ℕ) (t : Told) → S.left source.old ≡ Some script
        → (B.seen board.old).told ≡ Some t → EndsBoth (F.makes filter.old) script t
        (B.seen board.old).clock
        result (F.makes filter.new) lines.new.reader (S.left source.new)
        (B.seen board.new).told (B.seen board.new).clock }
    ensures takes { IfSome (S.left source.old)
        (λ script. IsSomeAnd (S.left source.new) (TakesOf result script)) }
    ensures few { (F.taken filter.new ≤ LONGEST_SCRIPT + 1) × IsFilterExit result }
    ensures causes { SourceCause result (S.faults source.old) (S.faults source.new)
        × BoardCause result (B.seen board.old).faults (B.seen board.new).faults }
    ensures device { LeavesDevice (B.seen board.old).told (B.seen board.new).told
        (B.seen board.old).clock (B.seen board.new).clock }
{
    let mut waiting = Vec::new(alloc);
    let ended = gather(alloc, lines, filter, text, &mut waiting, source, board);
    let exit = exit_of(ended);
    if has_failed(exit) {
        return exit;
    }
    match print(&waiting, board) {
        Ok(()) => exit,
        Err(fault) => fault,
    }
}

/// Returns how a call ends, given how its lines ended.
pub fn exit_of(ended: Result<(), Exit>) -> Exit
    ensures { result ≡ exit_of ended }
{
    match ended {
        Ok(()) => Exit::Done,
        Err(exit) => exit,
    }
}

// Returns whether a call of the source or the board failed; then no other call follows.
fn has_failed(exit: Exit) -> bool
    ensures { result ≡ has_failed exit }
{
    matches!(exit, Exit::SourceFault | Exit::PrintFault)
}

// Takes the lines in order, and gathers their texts. Prints the gathered texts before the source is
// read. At the end some texts may be left to print.
fn gather<S: Source, B: Board, F: LineFilter>(
    alloc: Global,
    lines: &mut NumberedLines,
    filter: &mut F,
    text: &mut Vec<u8>,
    waiting: &mut Vec<u8>,
    source: &mut S,
    board: &mut B,
) -> Result<(), Exit>
    requires begins { (lines.old ≡ no_lines) × (F.taken filter.old ≡ 0)
        × (waiting.old.items ≡ []) }
    ensures ends { (script : List ℕ) (t : Told) → S.left source.old ≡ Some script
        → (B.seen board.old).told ≡ Some t → GathersBoth (F.makes filter.old) script t
        (B.seen board.old).clock (exit_of result) (F.makes filter.new) waiting.new.items
        lines.new.reader (S.left source.new) (B.seen board.new).told (B.seen board.new).clock }
    ensures takes { IfSome (S.left source.old)
        (λ script. IsSomeAnd (S.left source.new) (TakesOf (exit_of result) script)) }
    ensures few { (F.taken filter.new ≤ LONGEST_SCRIPT + 1) × IsFilterExit (exit_of result) }
    ensures causes { Causes SourceCause result (S.faults source.old) (S.faults source.new)
        × Causes BoardCause result (B.seen board.old).faults (B.seen board.new).faults }
    ensures device { LeavesDevice (B.seen board.old).told (B.seen board.new).told
        (B.seen board.old).clock (B.seen board.new).clock }
{
    loop {
        print_waiting(lines, waiting, board)?;
        if !lines.next(source)? {
            return Ok(());
        }
        take_line(alloc, lines, filter, text, waiting)?;
    }
}

// Prints the gathered texts, unless the buffer has a whole line, which is taken before the source
// is read.
fn print_waiting<B: Board>(
    lines: &NumberedLines,
    waiting: &mut Vec<u8>,
    board: &mut B,
) -> Result<(), Exit>
    ensures prints { PrintsWaiting B.seen result
        (Contains lines.now.reader.held 10) waiting.old.items waiting.new.items
        board.old board.new }
    ensures faults { Causes BoardCause result (B.seen board.old).faults (B.seen board.new).faults }
    ensures device { LeavesDevice (B.seen board.old).told (B.seen board.new).told
        (B.seen board.old).clock (B.seen board.new).clock }
{
    if waiting.is_empty() || lines.has_line() {
        return Ok(());
    }
    print(waiting, board)?;
    waiting.clear();
    Ok(())
}

// Takes the line that was read, and appends its text to the gathered texts.
fn take_line<F: LineFilter>(
    alloc: Global,
    lines: &NumberedLines,
    filter: &mut F,
    text: &mut Vec<u8>,
    waiting: &mut Vec<u8>,
) -> Result<(), Exit>
    requires short { length lines.now.reader.line ≤ LONGEST_LINE }
    requires few { F.taken filter.old ≤ LONGEST_SCRIPT }
    ensures takes { TakesLine result lines.now.number lines.now.reader.line (F.makes filter.old)
        (F.makes filter.new) waiting.old.items waiting.new.items }
    ensures taken { OnOk result (F.taken filter.new ≡ F.taken filter.old + 1)
        × (F.taken filter.new ≤ F.taken filter.old + 1) }
    ensures exits { IfErr result IsTakeExit }
{
    text.clear();
    match filter.take(alloc, lines.line(), text) {
        Ok(()) if text.is_empty() => Ok(()),
        Ok(()) => match waiting.extend_from_slice(text) {
            Ok(()) => Ok(()),
            Err(_) => Err(Exit::NoMemory),
        },
        Err(refused) => Err(Exit::of_unread(lines.number(), refused)),
    }
}

// Prints the text after the lines' texts, unless a fault cut the call short or memory ran out.
fn end_lines<B: Board, F: LineFilter>(
    alloc: Global,
    exit: Exit,
    filter: &F,
    text: &mut Vec<u8>,
    board: &mut B,
) -> Exit
    requires taken { F.taken filter.now ≤ LONGEST_SCRIPT + 1 }
    requires exits { IsFilterExit exit }
    ensures ends { Ends B.seen exit result
        (closing_text (F.makes filter.now) [] exit) board.old board.new }
    ensures cut { IsCut exit → board.new ≡ board.old }
    ensures exits { IsFilterExit result }
    ensures faults { IsAnswer exit → BoardCause result (B.seen board.old).faults
        (B.seen board.new).faults }
    ensures device { LeavesDevice (B.seen board.old).told (B.seen board.new).told
        (B.seen board.old).clock (B.seen board.new).clock }
{
    if !exit.is_answer() {
        return exit;
    }
    text.clear();
    match push_closing(alloc, exit, filter, text) {
        Ok(()) => match print(text, board) {
            Ok(()) => exit,
            Err(fault) => fault,
        },
        Err(NoMemory) => Exit::NoMemory,
    }
}

// Appends the text after the lines, and then the last text or the `stop` line.
fn push_closing<F: LineFilter>(
    alloc: Global,
    exit: Exit,
    filter: &F,
    text: &mut Vec<u8>,
) -> Result<(), NoMemory>
    requires { F.taken filter.now ≤ LONGEST_SCRIPT + 1 }
    ensures { OnOk result
        (text.new.items ≡ text.old.items ++ closing_text (F.makes filter.now) [] exit) }
{
    filter.push_rest(alloc, text)?;
    match exit {
        Exit::Done => filter.push_last(alloc, text),
        _ => {
            text.extend_from_slice(&stop_line(alloc, exit)?)?;
            Ok(())
        }
    }
}
