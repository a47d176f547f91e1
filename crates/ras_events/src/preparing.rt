//! Prepares an event that counts entries: allocates everything, before anything is done.

ghost use Rattle.std.specs.Prelude.{◌≡◌, ◌+◌, ◌*◌, ◌≤◌, ◌++◌, length, All, Err, IfOk, IfSome, OnOk};
ghost use Rattle.std.specs.List.{sum_by};
ghost use Rattle.ras_facts.specs.Entries.{IsValidEntry, most_orders};
ghost use Rattle.ras_account.specs.Numbers.{HasNoRoomFor, HasRoomFor};
ghost use Rattle.ras_account.specs.Continued.{account_after_all};
ghost use Rattle.journal_format.specs.Links.{payload_bytes};
ghost use Rattle.ras_texts.specs.OrderRoom.{HasOrderRoom};
ghost use Rattle.ras_texts.specs.Orders.{order_lines};
ghost use Rattle.ras_events.specs.Steps.Beside.{CanTakeAll, IsLinked, IsNewsOf};
ghost use Rattle.ras_events.specs.Preparing.{CanTake, IsPrepared, IsReady, news_entries};
ghost use Rattle.ras_events.specs.Making.{entries_in};
ghost use Rattle.ras_events.specs.Preparing.{orders_along_entries};
ghost use Rattle.ras_events.specs.Sizes.{IsFit};

use crate::Made;
use crate::beside::{TextAndNews, text_and_news};
use journal_format::{Link, MOST_LINK_ENTRIES, MOST_PAYLOAD, encode_link};
use ras_account::{Account, Orders, ReserveRefused};
use ras_base::NoMemory;
use ras_facts::{Entry, MOST_ITEMS};
use ras_texts::{ORDER_LENGTH, done_line, push_orders};
use std::alloc::Global;
use thiserror::Error;

/// An event for which all memory is allocated: what it appends and counts, and what it prints.
#[derive(Drop)]
pub struct Prepared {
    /// The new entries of the event, if it has any.
    pub news: Option<News>,
    /// The event's lines except the lines of its orders, for which it has room.
    pub text: Vec<u8>,
    /// The event's done line.
    pub done: Vec<u8>,
}

/// The new entries of an event, at least one, with their link and room for their orders.
#[derive(Drop)]
pub struct News {
    pub entries: Vec<Entry>,
    pub link: Link,
    pub orders: Orders,
}

/// Why an event can't be prepared.
#[derive(Clone, Copy, Debug, Error, PartialEq, Eq)]
pub enum PrepareRefused {
    /// The account has no room for all new entries of the event.
    #[error("the account is full")]
    Full,
    /// Memory ran out.
    #[error("memory ran out")]
    NoMemory,
}

impl From<NoMemory> for PrepareRefused {
    ghost use Rattle.ras_events.specs.declared.preparing.PrepareRefused.TheVariants as RefusedFor;

    ghost from_gives = { λ _ refused. refused ≡ RefusedFor.NoMemory };

    fn from(_: NoMemory) -> Self {
        PrepareRefused::NoMemory
    }
}

/// Allocates everything that an event needs, and returns it: memory for its entries in the account,
/// the link of its new entries, and its texts, which end with the done line of its number. The
/// account doesn't change. Requires pieces that can be one link.
///
/// # Errors
///
/// `Full`: if the account has no room for all new entries, unless memory runs out; never otherwise.
/// `NoMemory`: only if memory runs out.
pub fn prepare(
    alloc: Global,
    number: u64,
    made: Made,
    account: &mut Account,
) -> Result<Prepared, PrepareRefused>
    requires fit { IsFit made }
    ensures prepared { IfOk result (IsPrepared account.old.state number made) }
    ensures ready { IfOk result (IsReady account.new) }
    ensures state { account.new.state ≡ account.old.state }
    ensures room { OnOk result (HasRoomFor account.old.state (entries_in made)) }
    ensures full { result ≡ Err PrepareRefused.Full
        → HasNoRoomFor account.old.state (entries_in made) }
{
    let mut tally = account.begin_tally();
    let told = text_and_news(alloc, account, &mut tally, made)?;
    match account.end_tally(&tally) {
        Ok(()) => Ok(link_told(alloc, number, told)?),
        Err(ReserveRefused::Full) => Err(PrepareRefused::Full),
        Err(ReserveRefused::NoMemory) => Err(PrepareRefused::NoMemory),
    }
}

// Allocates what an event needs besides its text and the room for its new entries in the account.
fn link_told(alloc: Global, number: u64, told: TextAndNews) -> Result<Prepared, NoMemory>
    requires few { length told.news.items ≤ MOST_LINK_ENTRIES }
    requires valid { All IsValidEntry told.news.items }
    requires payload { length (payload_bytes told.news.items) ≤ MOST_PAYLOAD }
    ensures { IfOk result (IsLinked number told) }
{
    let TextAndNews { mut text, news } = told;
    let orders = orders_len(&news);
    text.reserve(ORDER_LENGTH * orders)?;
    let news = link_news(alloc, news, orders)?;
    let done = done_line(alloc, number)?;
    Ok(Prepared { news, text, done })
}

// Returns the most orders that the entries of a link can give.
fn orders_len(entries: &[Entry]) -> usize
    requires few { length entries.now ≤ MOST_LINK_ENTRIES }
    requires valid { All IsValidEntry entries.now }
    ensures sum { result ≡ sum_by most_orders entries.now }
    ensures most { result ≤ 2 * MOST_ITEMS * MOST_LINK_ENTRIES }
{
    let mut total = 0;
    for entry in entries {
        total += entry.most_orders();
    }
    total
}

// Returns the new entries with their encoded link and room for `orders` orders, or `None` if there
// are no new entries.
fn link_news(alloc: Global, entries: Vec<Entry>, orders: usize) -> Result<Option<News>, NoMemory>
    requires few { length entries.items ≤ MOST_LINK_ENTRIES }
    requires valid { All IsValidEntry entries.items }
    requires payload { length (payload_bytes entries.items) ≤ MOST_PAYLOAD }
    ensures entries { IfOk result (λ news. news_entries news ≡ entries.items) }
    ensures news { IfOk result (λ news. IfSome news (IsNewsOf orders)) }
{
    if entries.is_empty() {
        return Ok(None);
    }
    let link = encode_link(alloc, &entries)?;
    let orders = Orders::new(alloc, orders)?;
    Ok(Some(News {
        entries,
        link,
        orders,
    }))
}

/// Counts the new entries of an event, and appends the lines of the orders that they give to its
/// text. Allocates nothing.
pub fn count(news: News, text: &mut Vec<u8>, account: &mut Account)
    requires can_take { CanTake account.old news }
    requires room { HasOrderRoom news.orders.room text.old }
    ensures state { account.new.state ≡ account_after_all account.old.state news.entries.items }
    ensures text { text.new.items ≡ text.old.items
        ++ order_lines account.new.state.modules
        (orders_along_entries account.old.state news.entries.items) }
{
    let News {
        entries,
        mut orders,
        ..
    } = news;
    take_all(entries, &mut orders, account);
    push_orders(text, &orders, account);
}

// Counts entries in turn, and appends the orders that they give.
fn take_all(entries: Vec<Entry>, orders: &mut Orders, account: &mut Account)
    requires { CanTakeAll account.old orders.old entries.items }
    ensures state { account.new.state ≡ account_after_all account.old.state entries.items }
    ensures orders { orders.new.orders
        ≡ orders.old.orders ++ orders_along_entries account.old.state entries.items }
    ensures room { orders.new.room + length orders.new.orders
        ≡ orders.old.room + length orders.old.orders }
{
    for entry in entries {
        account.take(entry, orders);
    }
}
