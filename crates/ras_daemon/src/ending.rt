//! Prints the last line of a run.

ghost use Rattle.std.specs.Prelude.{◌≡◌, ◌⊎◌, IfOk};
ghost use Rattle.board_core.specs.Clock.{Adds};
ghost use Rattle.board_core.specs.Device.{LeavesDevice};
ghost use Rattle.ras_exit.specs.Endings.{IsAnswer};
ghost use Rattle.ras_exit.specs.Telling.{PrintMoment};
ghost use Rattle.ras_daemon.specs.Steps.Doing.{Ends, Says};
ghost use Rattle.ras_daemon.specs.RunOutput.{closing_line};

use board_core::Board;
use ras_account::Account;
use ras_base::NoMemory;
use ras_exit::{Exit, busy_line, print, stop_line};
use ras_texts::end_line;
use std::alloc::Global;

/// Returns the last line of a run: the end line of its account if the run is done, otherwise the
/// stop line of its exit.
///
/// # Errors
///
/// `NoMemory`: only if memory runs out.
pub fn closing_line(alloc: Global, exit: Exit, account: &Account) -> Result<Vec<u8>, NoMemory>
    ensures { IfOk result (λ line. line.items ≡ closing_line account.now.state exit) }
{
    match exit {
        Exit::Done => end_line(alloc, account),
        _ => stop_line(alloc, exit),
    }
}

/// Prints the last line of a run that ends with `exit`, and returns how the run ended. A run that
/// was cut short by a fault or lack of memory has no last line. The line for a device that was busy
/// for too long allocates nothing, because its record is in the store and the exit has to say so.
pub fn end_run<B: Board>(alloc: Global, exit: Exit, account: &Account, board: &mut B) -> Exit
    ensures ends { Ends B.seen exit result
        (closing_line account.now.state exit) board.old board.new }
    ensures stops { Adds (PrintMoment (B.seen board.old).clock
        (closing_line account.now.state exit))
        (B.seen board.old).clock (B.seen board.new).clock }
    ensures device { LeavesDevice (B.seen board.old).told (B.seen board.new).told
        (B.seen board.old).clock (B.seen board.new).clock }
{
    if !exit.is_answer() {
        return exit;
    }
    if let Exit::ErstBusy = exit {
        return last_line(busy_line(), exit, board);
    }
    match closing_line(alloc, exit, account) {
        Ok(line) => last_line(&line, exit, board),
        Err(NoMemory) => Exit::NoMemory,
    }
}

/// Prints the last line of a command that ends with `exit`, and returns how the command ended: with
/// `exit`, or with `PrintFault` if the print failed. Requires an exit with which no call failed and
/// memory didn't run out.
pub fn last_line<B: Board>(line: &[u8], exit: Exit, board: &mut B) -> Exit
    requires { IsAnswer exit }
    ensures says { Says B.seen exit result line.now
        board.old board.new }
    ensures exits { (result ≡ exit) ⊎ (result ≡ Exit.PrintFault) }
    ensures stops { Adds (PrintMoment (B.seen board.old).clock line.now) (B.seen board.old).clock
        (B.seen board.new).clock }
    ensures device { LeavesDevice (B.seen board.old).told (B.seen board.new).told
        (B.seen board.old).clock (B.seen board.new).clock }
{
    match print(line, board) {
        Ok(()) => exit,
        Err(fault) => fault,
    }
}
