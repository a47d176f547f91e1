//! Runs a made-up script on a board in memory.

ghost use Rattle.std.specs.Prelude.{◌≡◌, ◌≤◌, ◌-◌, ◌/◌, ℕ, length, IfOk};
ghost use Rattle.board_core.specs.Clock.{Adds};
ghost use Rattle.board_core.specs.Device.{LeavesDevice};
ghost use Rattle.board_core.specs.Told.{Relates};
ghost use Rattle.mca_status.specs.declared.classes.ItemClass.TheVariants.{Ce};
ghost use Rattle.ras_exit.specs.Causes.{BoardCause};
ghost use Rattle.ras_exit.specs.Telling.{PrintMoment};
ghost use Rattle.ras_load.specs.LoadScript.{load_script};
ghost use Rattle.ras_load.specs.Summary.{class_total};
ghost use Rattle.ras_load.specs.declared.script.TheConstants.{MOST_LINES};
ghost use Rattle.ras_daemon.specs.Commands.{IsLoadExit, OnlyTells};
ghost use Rattle.ras_daemon.specs.Loading.{load_account, load_output};
ghost use Rattle.ras_daemon.specs.RunStatus.{empty_start, run_exit};

use crate::ending::last_line;
use crate::running::run;
use board_core::{Board, MemBoard, MemSource};
use erst_store::Store;
use ras_base::NoMemory;
use ras_exit::Exit;
use ras_load::{load_line, load_script};
use ras_recover::recover;
use ras_script::LONGEST_LINE;
use std::alloc::Global;

/// Runs a made-up script of `n` reports over a journal in memory, and prints the line that sums up
/// its account. Returns how that ended. Reads no input, and only prints on `board`.
pub fn load<B: Board>(alloc: Global, n: u64, board: &mut B) -> Exit
    requires { n ≤ MOST_LINES }
    ensures loads { Relates (OnlyTells Exit.Done (load_output n) result)
        (B.seen board.old).told (B.seen board.new).told }
    ensures stops { Adds (PrintMoment (B.seen board.old).clock (load_output n))
        (B.seen board.old).clock
        (B.seen board.new).clock }
    ensures exits { IsLoadExit result }
    ensures board { BoardCause result (B.seen board.old).faults (B.seen board.new).faults }
    ensures device { LeavesDevice (B.seen board.old).told (B.seen board.new).told
        (B.seen board.old).clock (B.seen board.new).clock }
{
    match loaded_line(alloc, n) {
        Ok(line) => last_line(&line, Exit::Done, board),
        Err(NoMemory) => Exit::NoMemory,
    }
}

// Returns the line that sums up a run over the made-up script of `n` reports. The run has a board
// of its own, whose calls fail only if memory runs out.
fn loaded_line(alloc: Global, n: u64) -> Result<Vec<u8>, NoMemory>
    requires { n ≤ MOST_LINES }
    ensures { IfOk result (λ line. line.items ≡ load_output n) }
{
    let script = load_script(alloc, n)?;
    let mut source = MemSource::new(script, LONGEST_LINE + 1, Vec::new(alloc));
    let mut board = MemBoard::new(alloc, Store::new(alloc), 0)?;
    let Exit::Done = run(alloc, &mut source, &mut board) else {
        return Err(NoMemory);
    };
    match recover(alloc, &mut board) {
        Ok(recovered) => load_line(alloc, n, &recovered.account),
        Err(_) => Err(NoMemory),
    }
}

/// Laws on a run over a made-up script.
pub fn loading_laws()
    // No line is rejected, because the account and the journal have room for all reports. So a run
    // over empty files reaches its end.
    ensures taken { (n : ℕ) → n ≤ MOST_LINES
        → run_exit empty_start (load_script n) ≡ Exit.Done }

    // Each report counts as one corrected error, except every tenth, which repeats the report
    // before it.
    ensures names { (n : ℕ) → n ≤ MOST_LINES
        → length (load_account n).names ≡ n - n / 10 }
    ensures corrected { (n : ℕ) → n ≤ MOST_LINES
        → class_total Ce (load_account n).modules ≡ n - n / 10 }
{}
