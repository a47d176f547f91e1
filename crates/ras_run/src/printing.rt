//! What an event prints.

ghost use Rattle.std.specs.Prelude.{◌≡◌, ◌++◌, Err, OnErr};
ghost use Rattle.board_core.specs.Cause.{print_call};
ghost use Rattle.board_core.specs.Doing.{Does, one_end};
ghost use Rattle.ras_exit.specs.Acts.{print_acts};

use board_core::Board;
use ras_exit::{Exit, print};

/// Prints an event's text by one call, unless it is empty, and then its done line.
///
/// # Errors
///
/// `PrintFault`: only if printing failed; then a beginning of both was printed.
pub(crate) fn print_event<B: Board>(text: &[u8], done: &[u8], board: &mut B) -> Result<(), Exit>
    ensures does { Does B.seen (print_acts text.now ++ print_acts done.now)
        (one_end print_call result) board.old board.new }
    ensures exit { OnErr result (result ≡ Err Exit.PrintFault) }
{
    print(text, board)?;
    print(done, board)
}
