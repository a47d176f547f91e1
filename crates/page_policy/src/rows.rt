//! One page: its bucket and its state, and the orders that follow.

ghost use Rattle.std.specs.Prelude.{◌≡◌, ◌≤◌};
ghost use Rattle.page_policy.specs.Buckets.{IsLimit, most_count};
ghost use Rattle.page_policy.specs.Rows.{report, new_row, row_after, is_corrected, state_called_for, higher, order_between};

use crate::{Bucket, Limit};
use mca_status::ItemClass;

/// How far a page was taken offline. A page's state only rises, in the order of the variants.
#[derive(Clone, Copy, Debug, PartialEq, Eq)]
pub enum PageState {
    /// The page stays in use.
    Kept,
    /// Soft-offlined: its contents are moved away first, then the page is left unused.
    Soft,
    /// Hard-offlined: the page is taken away at once, with its contents.
    Hard,
}

/// An order to take a page offline, by the page's number, which is its address over 4,096, or to
/// replace a memory module.
#[derive(Clone, Copy, Debug, PartialEq, Eq)]
pub enum Order {
    /// Soft-offline the page: move its contents away first.
    Soft(u64),
    /// Hard-offline the page: take it away at once.
    Hard(u64),
    /// Replace the module whose row has this index.
    Module(usize),
}

/// A page's row: what its reports have led to.
#[derive(Clone, Copy, Debug, PartialEq, Eq)]
pub struct PageRow {
    /// The bucket of its corrected errors.
    pub bucket: Bucket,
    /// How far the page was taken offline.
    pub state: PageState,
}

impl PageRow {
    // Returns the row of a page that is first reported at this time.
    pub(crate) fn new(seconds: u64) -> PageRow
        ensures { result ≡ new_row seconds }
    {
        PageRow {
            bucket: Bucket {
                count: 0,
                stamp: seconds,
            },
            state: PageState::Kept,
        }
    }

    // Returns the row after a report of the page.
    pub(crate) fn after(self, class: ItemClass, seconds: u64, weight: u16, limit: Limit) -> PageRow
        requires limit { IsLimit limit }
        requires count { self.bucket.count ≤ most_count }
        ensures row { (page : _) → result ≡ row_after self (report page class seconds weight limit) }
        ensures count { result.bucket.count ≤ most_count }
    {
        let mut bucket = self.bucket;
        let trips = is_corrected(class) && bucket.step(limit, seconds, weight);
        PageRow {
            bucket,
            state: self.state.higher_of(calls_for(class, trips)),
        }
    }
}

impl PageState {
    // Returns the higher of two states.
    fn higher_of(self, other: PageState) -> PageState
        ensures { result ≡ higher self other }
    {
        match (self, other) {
            (PageState::Hard, _) | (_, PageState::Hard) => PageState::Hard,
            (PageState::Soft, _) | (_, PageState::Soft) => PageState::Soft,
            (PageState::Kept, PageState::Kept) => PageState::Kept,
        }
    }
}

/// Returns whether an item of this class reports corrected errors, which fill a bucket.
pub fn is_corrected(class: ItemClass) -> bool
    ensures { result ≡ is_corrected class }
{
    matches!(class, ItemClass::Ce | ItemClass::Corrected)
}

// Returns the state that an item calls for; `trips` is whether the bucket trips, which matters only
// for corrected items.
fn calls_for(class: ItemClass, trips: bool) -> PageState
    ensures { result ≡ state_called_for class trips }
{
    match class {
        ItemClass::Ce | ItemClass::Corrected if trips => PageState::Soft,
        ItemClass::Ucna => PageState::Soft,
        ItemClass::Srao
        | ItemClass::Srar
        | ItemClass::Uc
        | ItemClass::Recoverable
        | ItemClass::Fatal => PageState::Hard,
        ItemClass::Ce | ItemClass::Corrected | ItemClass::Odd | ItemClass::Informational => {
            PageState::Kept
        }
    }
}

// Returns the order when a page's state rises.
pub(crate) fn order_for(page: u64, before: PageState, after: PageState) -> Option<Order>
    ensures { result ≡ order_between page before after }
{
    match (before, after) {
        (PageState::Kept, PageState::Soft) => Some(Order::Soft(page)),
        (PageState::Kept | PageState::Soft, PageState::Hard) => Some(Order::Hard(page)),
        _ => None,
    }
}
