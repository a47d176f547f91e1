//! The pieces of an event together: their lines, and which of their entries are new. The lines
//! depend on the account before the event.

ghost use Rattle.std.specs.Prelude.{◌≡◌, [], IfOk, OnOk};
ghost use Rattle.ras_account.specs.Numbers.{fresh_entries_in};
ghost use Rattle.ras_account.specs.Tallies.{IsTallyOf};
ghost use Rattle.ras_events.specs.Steps.Beside.{AreAlike, TellsEntry};
ghost use Rattle.ras_events.specs.Making.{entries_in};
ghost use Rattle.ras_events.specs.Preparing.{text_along};

use crate::{Made, Piece};
use ras_account::{Account, Tally};
use ras_base::NoMemory;
use ras_facts::{Detail, Entry};
use ras_texts::{push_entry, push_repeat, push_unreadable};
use std::alloc::Global;

// Memory for the lines of most events and of their orders, which is allocated at once.
const TEXT_LENGTH: usize = 384;

/// The lines of an event and its new entries, both in order.
#[derive(Drop)]
pub(crate) struct TextAndNews {
    pub(crate) text: Vec<u8>,
    pub(crate) news: Vec<Entry>,
}

/// Returns the lines of an event's pieces, in order, and its new entries, for which the account has
/// then reserved memory. The other entries are dropped.
///
/// # Errors
///
/// `NoMemory`: only if memory runs out.
pub(crate) fn text_and_news(
    alloc: Global,
    account: &mut Account,
    tally: &mut Tally,
    made: Made,
) -> Result<TextAndNews, NoMemory>
    requires alike { AreAlike (entries_in made) }
    requires none { IsTallyOf account.old tally.old [] }
    ensures state { account.new.state ≡ account.old.state }
    ensures tally { OnOk result (IsTallyOf account.new tally.new (entries_in made)) }
    ensures text { IfOk result (λ told. told.text.items ≡ text_along account.old.state made) }
    ensures news { IfOk result
        (λ told. told.news.items ≡ fresh_entries_in account.old.state (entries_in made)) }
{
    let mut text = Vec::with_capacity(alloc, TEXT_LENGTH)?;
    let pieces = made.into_pieces();
    let mut news = Vec::with_capacity(alloc, pieces.len())?;
    for piece in pieces {
        match piece {
            Piece::Counted { entry, details } => {
                let is_news = account.wait_if_fresh(tally, &entry)?;
                push_counted(
                    account,
                    is_news,
                    entry,
                    details.as_slice(),
                    &mut text,
                    &mut news,
                )?;
            }
            Piece::Unread { id, why } => push_unreadable(&mut text, id, why)?,
        }
    }
    Ok(TextAndNews { text, news })
}

// Appends the lines of an entry, after the lines of the earlier entries of its event: all its lines
// if the entry is new, otherwise only its `repeat` or `stale` line. A new entry is also appended to
// the new entries.
fn push_counted(
    account: &Account,
    is_news: bool,
    entry: Entry,
    details: &[Detail],
    text: &mut Vec<u8>,
    news: &mut Vec<Entry>,
) -> Result<(), NoMemory>
    ensures { OnOk result (TellsEntry is_news account.now.state details.now entry
        text.old.items text.new.items news.old.items news.new.items) }
{
    if !is_news {
        return push_repeat(text, account, &entry);
    }
    push_entry(text, details, account, &entry)?;
    news.push(entry)?;
    Ok(())
}
