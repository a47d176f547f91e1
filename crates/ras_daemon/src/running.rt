//! A run: opens the journal and processes the script.

ghost use Rattle.std.specs.Prelude.{◌≡◌, ℕ, List, Some};
ghost use Rattle.board_core.specs.Told.{Told};
ghost use Rattle.ras_account.specs.Accounts.{IsAccount};
ghost use Rattle.line_filters.specs.Numbered.{no_lines};
ghost use Rattle.line_filters.specs.Filters.{exit_of};
ghost use Rattle.ras_run.specs.Sites.{Start};
ghost use Rattle.ras_run.specs.Taking.{IsReady};
ghost use Rattle.ras_daemon.specs.Ahead.{TakesBy};
ghost use Rattle.ras_daemon.specs.Commands.{IsRunExit};
ghost use Rattle.ras_daemon.specs.Steps.Doing.{Comes, ComesScript};
ghost use Rattle.ras_daemon.specs.Headline.{OverRun};
ghost use Rattle.ras_daemon.specs.Promises.{Caused, OverRefused, Refuses};
ghost use Rattle.ras_daemon.specs.Steps.Running.{IsStart};

use crate::Task;
use crate::ending::end_run;
use crate::lines::take_lines;
use board_core::{Board, Source};
use line_filters::{NumberedLines, exit_of};
use ras_account::Account;
use ras_base::NoMemory;
use ras_events::Settings;
use ras_exit::Exit;
use ras_run::{Ledger, Run, open, print_standing};
use std::alloc::Global;

/// Runs a script: opens the journal, prints the outstanding orders, processes the lines of
/// `source`, and prints the last line. Returns how the run ended.
pub fn run<S: Source, B: Board>(alloc: Global, source: &mut S, board: &mut B) -> Exit
    ensures comes { OverRun (λ start script told. Comes B.seen
        (source.new ≡ source.old) start script result told (S.left source.new) board.old board.new)
        (Some Task.Run) (S.left source.old) (B.seen board.old).told }
    ensures takes { TakesBy result (S.left source.old) (S.left source.new) }
    ensures refused { OverRefused
        (Refuses result (source.new ≡ source.old) (B.seen board.old).clock (B.seen board.new).clock)
        (Some Task.Run) (B.seen board.old).told (B.seen board.new).told }
    ensures causes { Caused result (S.faults source.old) (S.faults source.new)
        (B.seen board.old).faults (B.seen board.new).faults }
    ensures exits { IsRunExit result }
{
    let mut lines = match NumberedLines::new(alloc) {
        Ok(lines) => lines,
        Err(NoMemory) => return Exit::NoMemory,
    };
    match open(alloc, board) {
        Ok(ledger) => take_script(alloc, &mut lines, ledger, source, board),
        // There is no account, and the last line of a rejection says nothing about one.
        Err(exit) => end_run(alloc, exit, &Account::new(alloc), board),
    }
}

// Processes a script over a journal that was just opened: prints the outstanding orders, processes
// the lines, and prints the last line. It has one exit, because each exit of a function that owns a
// run has to drop the run, which costs many seconds of proof.
fn take_script<S: Source, B: Board>(
    alloc: Global,
    lines: &mut NumberedLines,
    ledger: Ledger,
    source: &mut S,
    board: &mut B,
) -> Exit
    requires fresh { lines.old ≡ no_lines }
    requires ledger { IsReady ledger (B.seen board.old)
        × IsAccount ledger.account.state }

    ensures comes { (start : Start) (script : List ℕ) (t : Told) → IsStart start ledger t
        → S.left source.old ≡ Some script → (B.seen board.old).told ≡ Some t
        → ComesScript B.seen (source.new ≡ source.old) start script t
        result (S.left source.new) board.old board.new }
    ensures takes { TakesBy result (S.left source.old) (S.left source.new) }
    ensures causes { Caused result (S.faults source.old) (S.faults source.new)
        (B.seen board.old).faults (B.seen board.new).faults }
    ensures exits { IsRunExit result }
{
    let mut run = Run {
        settings: Settings::new(alloc),
        ledger,
        text: Vec::new(alloc),
    };
    let ended = match print_standing(alloc, &run.ledger.account, board) {
        Ok(()) => take_lines(alloc, lines, &mut run, source, board),
        Err(exit) => Err(exit),
    };
    end_run(alloc, exit_of(ended), &run.ledger.account, board)
}
