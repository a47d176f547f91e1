//! Processes the lines of a script in order.

ghost use Rattle.std.specs.Prelude.{◌≡◌, ℕ, List, [], Some};
ghost use Rattle.board_core.specs.Told.{Told};
ghost use Rattle.line_filters.specs.Numbered.{no_lines};
ghost use Rattle.line_filters.specs.Filters.{exit_of};
ghost use Rattle.ras_run.specs.LineActs.{HoldsAt};
ghost use Rattle.ras_run.specs.Sites.{IsRunAt, Start, first_site};
ghost use Rattle.ras_run.specs.Taking.{IsReady};
ghost use Rattle.ras_daemon.specs.Ahead.{TakesBy};
ghost use Rattle.ras_daemon.specs.Steps.Doing.{ComesLines, EndsLines};

use board_core::{Board, Source};
use line_filters::NumberedLines;
use ras_exit::Exit;
use ras_run::{Run, take_line};
use std::alloc::Global;

/// Processes the lines of a source in order, up to its end or to the first rejected line. Requires
/// that no line was read yet, and a run whose journal is ready.
///
/// # Errors
///
/// Why the run ends before the source does: an exit of `NumberedLines::next` (line_filters) or of
/// `take_line` (ras_run).
pub fn take_lines<S: Source, B: Board>(
    alloc: Global,
    lines: &mut NumberedLines,
    run: &mut Run,
    source: &mut S,
    board: &mut B,
) -> Result<(), Exit>
    requires fresh { lines.old ≡ no_lines }
    requires ready { IsReady run.old.ledger (B.seen board.old) }

    ensures comes { (start : Start) (script : List ℕ) (t : Told) → IsRunAt (first_site start) run.old
        → S.left source.old ≡ Some script → (B.seen board.old).told ≡ Some t → HoldsAt (first_site start) t
        → ComesLines B.seen start script t result run.new
        (S.left source.new) board.old board.new }
    ensures takes { TakesBy (exit_of result) (S.left source.old) (S.left source.new) }
    ensures ends { EndsLines result (S.faults source.old) (S.faults source.new)
        (B.seen board.old).faults (B.seen board.new).faults }
{
    loop {
        if !lines.next(source)? {
            return Ok(());
        }
        take_line(alloc, lines.number(), lines.line(), run, board)?;
    }
}
