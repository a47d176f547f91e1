//! Counts the pieces of a line's event.

ghost use Rattle.std.specs.Prelude.{◌≡◌, ◌++◌, IfOk, IfSome, OnOk};
ghost use Rattle.board_core.specs.Doing.{Does};
ghost use Rattle.ras_account.specs.Continued.{account_after_all};
ghost use Rattle.ras_events.specs.Preparing.{CanTake};
ghost use Rattle.ras_events.specs.Preparing.{news_entries, orders_along_entries};
ghost use Rattle.ras_events.specs.Sizes.{IsFit};
ghost use Rattle.ras_exit.specs.Acts.{part_end};
ghost use Rattle.ras_run.specs.LineActs.{news_acts, told_acts};
ghost use Rattle.ras_run.specs.Taking.{CanBeKept, CountsMade, CountsNews};
ghost use Rattle.ras_run.specs.Taking.{IsReady};
ghost use Rattle.ras_texts.specs.OrderRoom.{HasOrderRoom};
ghost use Rattle.ras_texts.specs.Orders.{order_lines};
ghost use Rattle.ras_texts.specs.Text.{done_line};

use crate::Ledger;
use crate::refused::KeepRefused;
use board_core::Board;
use ras_events::{Made, News, PrepareRefused, Prepared, count, prepare};
use ras_exit::{Exit, print};
use std::alloc::Global;

/// Runs a line's event up to its done line, and returns that line: allocates all memory, then
/// appends the new entries among the line's pieces to the journal, counts them, and prints the
/// event's text.
///
/// # Errors
///
/// `Full`: if and only if the account has no room for the new entries, or the journal none for
/// their link.
/// `DiskFault`, `PrintFault`: only if such a call failed.
/// `NoMemory`: only if memory runs out, and never after the new entries are appended.
pub(crate) fn tell_made<B: Board>(
    alloc: Global,
    number: u64,
    made: Made,
    ledger: &mut Ledger,
    board: &mut B,
) -> Result<Vec<u8>, Exit>
    requires fit { IsFit made }
    requires ready { IsReady ledger.old (B.seen board.old) }

    ensures counts { CountsMade made result ledger.old ledger.new }
    ensures does { Does B.seen
        (told_acts ledger.old.account.state ledger.old.journal.standing made)
        (part_end result) board.old board.new }
    ensures ready { OnOk result
        (IsReady ledger.new (B.seen board.new)) }
    ensures done { IfOk result (λ done. done.items ≡ done_line number) }
{
    let Prepared {
        news,
        mut text,
        done,
    } = match prepare(alloc, number, made, &mut ledger.account) {
        Ok(event) => event,
        Err(PrepareRefused::Full) => return Err(Exit::Full),
        Err(PrepareRefused::NoMemory) => return Err(Exit::NoMemory),
    };
    keep(alloc, news, &mut text, ledger, board)?;
    print(&text, board)?;
    Ok(done)
}

// Appends an event's new entries to the journal, counts them, and appends the lines of their orders
// to the event's text.
fn keep<B: Board>(
    alloc: Global,
    news: Option<News>,
    text: &mut Vec<u8>,
    ledger: &mut Ledger,
    board: &mut B,
) -> Result<(), Exit>
    requires ready { IsReady ledger.old (B.seen board.old) }
    requires can_take { IfSome news (CanTake ledger.old.account) }
    requires can_keep { IfSome news CanBeKept }
    requires room { IfSome news (λ news. HasOrderRoom news.orders.room text.old) }

    ensures counts { CountsNews (news_entries news) result ledger.old ledger.new }
    ensures does { Does B.seen
        (news_acts ledger.old.journal.standing ledger.old.account.state (news_entries news))
        (part_end result) board.old board.new }
    ensures text { OnOk result (text.new.items ≡ text.old.items
        ++ order_lines (account_after_all ledger.old.account.state (news_entries news)).modules
        (orders_along_entries ledger.old.account.state (news_entries news))) }
    ensures ready { OnOk result
        (IsReady ledger.new (B.seen board.new)) }
{
    let Some(news) = news else {
        return Ok(());
    };
    match ledger.keep(alloc, &news.link, board) {
        Ok(()) => {}
        Err(KeepRefused::Full) => return Err(Exit::Full),
        Err(KeepRefused::Disk) => return Err(Exit::DiskFault),
        Err(KeepRefused::NoMemory) => return Err(Exit::NoMemory),
    }
    count(news, text, &mut ledger.account);
    Ok(())
}
