//! Printing a text by one call of the board.

ghost use Rattle.std.specs.Prelude.{◌≡◌, Err, OnErr, OnOk};
ghost use Rattle.board_core.specs.Cause.{print_call};
ghost use Rattle.board_core.specs.Clock.{Leads, Passes};
ghost use Rattle.board_core.specs.Device.{LeavesDevice};
ghost use Rattle.board_core.specs.Doing.{Does, one_end};
ghost use Rattle.board_core.specs.Stop.{Appends, Begins, InOut};
ghost use Rattle.ras_exit.specs.Acts.{print_acts};

use crate::Exit;
use board_core::{Board, Failed};

/// Prints a text by one call of the board. Makes no call if the text is empty.
///
/// # Errors
///
/// `PrintFault`: only if printing failed; a beginning of the text was then printed.
pub fn print<B: Board>(text: &[u8], board: &mut B) -> Result<(), Exit>
    ensures does { Does B.seen (print_acts text.now)
        (one_end print_call result) board.old board.new }
    ensures exit { OnErr result (result ≡ Err Exit.PrintFault) }
    // The clauses that follow hold even if a crash before might have left something other than the
    // model says.
    ensures stops { Passes (InOut (Begins text.now)) (B.seen board.old).clock
        (B.seen board.new).clock }
    ensures printed { OnOk result
        (Leads (InOut (Appends text.now)) (B.seen board.old).clock (B.seen board.new).clock) }
    ensures device { LeavesDevice (B.seen board.old).told (B.seen board.new).told
        (B.seen board.old).clock (B.seen board.new).clock }
{
    if text.is_empty() {
        return Ok(());
    }
    match board.print(text) {
        Ok(()) => Ok(()),
        Err(Failed) => Err(Exit::PrintFault),
    }
}
