//! Reports the account in the journal's files.

ghost use Rattle.std.specs.Prelude.{◌≡◌, ◌++◌, IfErr, IfOk, Ok, OnOk, Result, Some};
ghost use Rattle.board_core.specs.Clock.{Adds};
ghost use Rattle.board_core.specs.Told.{Relates, Told};
ghost use Rattle.ras_account.specs.Account.{State};
ghost use Rattle.ras_journal.specs.Recovered.{Refusal};
ghost use Rattle.ras_recover.specs.Recovering.{TellsHeld, open_failure};
ghost use Rattle.ras_exit.specs.Causes.{BoardCause};
ghost use Rattle.ras_exit.specs.StopLine.{stop_line};
ghost use Rattle.board_core.specs.Device.{LeavesDevice};
ghost use Rattle.ras_daemon.specs.Steps.Answering.{IsCutBy, IsReportAnswer, IsSaid, stop_mark, unrecovered, whole_listing};
ghost use Rattle.ras_daemon.specs.Reporting.{IsReportExit, ReportMoment, Reports, report_output};

use board_core::Board;
use listing_texts::{Listing, push_listing};
use ras_account::Account;
use ras_base::NoMemory;
use ras_exit::{Exit, print, stop_line};
use ras_recover::{OpenRefused, Recovered, recover};
use ras_texts::end_line;
use std::alloc::Global;

/// Prints a listing of the account in the journal's files, and its end line, if it has one, by one
/// call, and returns how the report ended. If a file is damaged or too long, prints the `stop` line
/// instead, as a comment for metrics. Writes nothing, and reads no script.
pub fn report<B: Board>(alloc: Global, listing: Listing, board: &mut B) -> Exit
    // The exit and the text follow from the files. Files and device are unchanged.
    ensures reports { Relates (Reports listing result) (B.seen board.old).told
        (B.seen board.new).told }
    // A crash leaves what a crash before the report may have left, or what the model said then,
    // with a beginning of the text printed.
    ensures stops { (t : Told) → (B.seen board.old).told ≡ Some t
        → Adds (ReportMoment (B.seen board.old).clock (report_output listing t.here) t.here)
        (B.seen board.old).clock (B.seen board.new).clock }
    ensures exits { IsReportExit result }
    ensures board { BoardCause result (B.seen board.old).faults (B.seen board.new).faults }
    ensures device { LeavesDevice (B.seen board.old).told (B.seen board.new).told
        (B.seen board.old).clock (B.seen board.new).clock }
{
    let (exit, text) = match answer(alloc, listing, recover(alloc, board)) {
        Ok(answer) => answer,
        Err(exit) => return exit,
    };
    match print(&text, board) {
        Ok(()) => exit,
        Err(fault) => fault,
    }
}

// Returns the exit and the text of a report, given what was found in the files, or the exit that
// cuts the report short.
fn answer(
    alloc: Global,
    listing: Listing,
    found: Result<Recovered, OpenRefused>,
) -> Result<(Exit, Vec<u8>), Exit>
    ensures said { (held : Result State Refusal) → TellsHeld (λ r. r.account.state) found held
        → IfOk result (λ answer. IsSaid listing held answer.0 answer.1.items) }
    ensures answers { IfOk result (λ answer. IsReportAnswer answer.0) }
    ensures whole { OnOk result (open_failure found ≡ Ok tt) }
    ensures cut { IfErr result (IsCutBy (open_failure found)) }
{
    match found {
        Ok(recovered) => {
            let text = account_text(alloc, listing, &recovered.account)?;
            Ok((Exit::Done, text))
        }
        Err(refused) => {
            let exit = unrecovered(refused)?;
            let text = stop_text(alloc, listing, exit)?;
            Ok((exit, text))
        }
    }
}

// Returns the lines of a listing of an account, and its end line, if it has one.
fn account_text(alloc: Global, listing: Listing, account: &Account) -> Result<Vec<u8>, NoMemory>
    ensures { IfOk result (λ text. text.items ≡ whole_listing listing account.now.state) }
{
    let mut text = Vec::new(alloc);
    push_listing(&mut text, listing, account)?;
    match listing {
        Listing::Counts | Listing::Pages | Listing::Names | Listing::Modules => {
            text.extend_from_slice(&end_line(alloc, account)?)?;
        }
        Listing::Metrics => {}
    }
    Ok(text)
}

// Returns the `stop` line of an exit, to be printed instead of a listing.
fn stop_text(alloc: Global, listing: Listing, exit: Exit) -> Result<Vec<u8>, NoMemory>
    ensures { IfOk result (λ text. text.items ≡ stop_mark listing ++ stop_line exit) }
{
    let mut text = Vec::from_slice(alloc, stop_word(listing))?;
    text.extend_from_slice(&stop_line(alloc, exit)?)?;
    Ok(text)
}

// Returns the text before a `stop` line that is printed instead of a listing.
fn stop_word(listing: Listing) -> &'static [u8]
    ensures { result.now ≡ stop_mark listing }
{
    match listing {
        Listing::Counts | Listing::Pages | Listing::Names | Listing::Modules => b"",
        Listing::Metrics => b"# ",
    }
}

// Returns how a report ends whose files couldn't be recovered: with a result, or cut short.
fn unrecovered(refused: OpenRefused) -> Result<Exit, Exit>
    ensures { result ≡ unrecovered refused }
{
    match refused {
        OpenRefused::Disk => Err(Exit::DiskFault),
        OpenRefused::TooLong => Ok(Exit::TooLong),
        OpenRefused::Damaged { file, place } => Ok(Exit::Damaged { file, place }),
        OpenRefused::NoMemory => Err(Exit::NoMemory),
    }
}
