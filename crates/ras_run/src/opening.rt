//! Opens the journal, at the start of a run and if a line asks for it again.

ghost use Rattle.std.specs.Prelude.{◌≡◌, IfErr, Some};
ghost use Rattle.board_core.specs.Clock.{Adds};
ghost use Rattle.board_core.specs.Doing.{Does};
ghost use Rattle.board_core.specs.Told.{Told};
ghost use Rattle.ras_recover.specs.Opening.{Opening, OpeningSynced};
ghost use Rattle.ras_recover.specs.OpeningActs.{DoesOpening};
ghost use Rattle.ras_recover.specs.Recovering.{RestsHere, SyncsBy};
ghost use Rattle.ras_texts.specs.Orders.{standing_lines};
ghost use Rattle.ras_exit.specs.Acts.{part_end, print_acts};
ghost use Rattle.ras_exit.specs.Endings.{OnAnswer};
ghost use Rattle.ras_run.specs.Taking.{EndsOpening, IsPrintExit, Opened, unopened_exit};

use crate::Ledger;
use board_core::Board;
use ras_account::Account;
use ras_exit::{Exit, print};
use ras_recover::{OpenRefused, open_journal};
use ras_texts::standing_lines;
use std::alloc::Global;

/// Opens the journal, and returns the account that its files contain.
///
/// # Errors
///
/// `TooLong`, `Damaged`: if and only if the files' bytes say so.
/// `DiskFault`: only if a disk call failed.
/// `NoMemory`: only if memory runs out.
pub fn open<B: Board>(alloc: Global, board: &mut B) -> Result<Ledger, Exit>
    ensures opens { Opened result (B.seen board.old).told (B.seen board.new) }
    ensures does { DoesOpening (λ exit. exit ≡ Exit.DiskFault) result
        (B.seen board.old).told (B.seen board.new).told }
    ensures stops { (t : Told) → (B.seen board.old).told ≡ Some t
        → Adds (Opening (B.seen board.old).clock t.here) (B.seen board.old).clock
        (B.seen board.new).clock }
    // Both files are synced first. From then on a crash leaves the board's files, store and text,
    // or gives the empty account if no file is valid.
    ensures syncs { (t : Told) → (B.seen board.old).told ≡ Some t
        → SyncsBy B.seen (OpeningSynced t.here) t result board.old board.new }
    // If the files are rejected, a crash then leaves exactly the board's files, store and text.
    ensures refused { IfErr result
        (λ exit. OnAnswer exit ((t : Told) → (B.seen board.old).told ≡ Some t
        → RestsHere t.here (B.seen board.new).told (B.seen board.new).clock)) }
    ensures ends { EndsOpening result (B.seen board.old).faults (B.seen board.new).faults }
{
    match open_journal(alloc, board) {
        Ok((account, journal)) => Ok(Ledger { account, journal }),
        Err(refused) => Err(unopened_exit(refused)),
    }
}

// Returns the exit for a journal that can't be opened.
fn unopened_exit(refused: OpenRefused) -> Exit
    ensures { result ≡ unopened_exit refused }
{
    match refused {
        OpenRefused::Disk => Exit::DiskFault,
        OpenRefused::TooLong => Exit::TooLong,
        OpenRefused::Damaged { file, place } => Exit::Damaged { file, place },
        OpenRefused::NoMemory => Exit::NoMemory,
    }
}

/// Prints the lines of an account's outstanding orders by one call, if there are any.
///
/// # Errors
///
/// `PrintFault`: only if printing failed.
/// `NoMemory`: only if memory runs out.
pub fn print_standing<B: Board>(alloc: Global, account: &Account, board: &mut B) -> Result<(), Exit>
    ensures does { Does B.seen
        (print_acts (standing_lines account.now.state)) (part_end result) board.old board.new }
    ensures exit { IfErr result IsPrintExit }
{
    match standing_lines(alloc, account) {
        Ok(lines) => print(&lines, board),
        Err(_) => Err(Exit::NoMemory),
    }
}
