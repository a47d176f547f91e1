//! The pages, each with its row.

ghost use Rattle.std.specs.Prelude.{◌≡◌, ℕ, ◌↔◌, ◌≤◌, ◌<◌, ◌++◌, List, [], ◌∷◌, IsTrue, Some, Err, OnOk, OnErr, length, slice_get, nat_eq};
ghost use Rattle.row_tables.specs.Held.{is_held, is_ready, new_keys};
ghost use Rattle.row_tables.specs.declared.row_table.RowRefused.TheVariants.{Repeated};
ghost use Rattle.page_policy.specs.Buckets.{IsLimit, most_count};
ghost use Rattle.page_policy.specs.Rows.{report};
ghost use Rattle.page_policy.specs.Histories.{page_rows_of, order_at};
ghost use Rattle.page_policy.specs.Pages.{pages_after, page_entry, AreReservedFor};

use crate::rows::order_for;
use crate::{Bucket, Limit, Order, PageRow, PageState};
use mca_status::ItemClass;
use ras_base::NoMemory;
use row_tables::{RowRefused, RowTable};
use std::alloc::Global;
use std::marker::Model;

/// The pages that were reported, in the order in which they were first seen, each with its row.
///
/// Further pages can be reserved, so that their reports can be counted without allocating memory.
/// Only `reserve`, `give_up` and `account` concern reserved pages.
#[derive(Drop)]
pub struct Pages {
    table: RowTable<u64, PageRow>,
}

impl Model for Pages {
    ghost use Rattle.std.specs.Prelude.{ℕ};
    ghost use Rattle.row_tables.specs.Held.{Held};
    ghost use Rattle.page_policy.specs.declared.rows.PageRow.{PageRow};
    ghost use Rattle.page_policy.specs.Steps.AreSmall.{AreSmall};

    ghost Value = { Held ℕ PageRow };

    ghost view = { λ p. p.table };

    ghost invariant = { λ p. AreSmall p.table.rows };
}

impl Pages {
    /// Returns an empty table of pages.
    pub fn new(alloc: Global) -> Pages
        ensures rows { result.rows ≡ page_rows_of [] }
        ensures waiting { result.waiting ≡ [] }
    {
        Pages {
            table: RowTable::new(alloc),
        }
    }

    /// Reserves what reports of these pages need when they are counted in turn: the pages that have
    /// no row, in the order in which they first appear, each once. Earlier reservations are
    /// dropped. No row changes, and after `NoMemory` no page is reserved.
    pub fn reserve(&mut self, pages: &[u64]) -> Result<(), NoMemory>
        ensures rows { self.new.rows ≡ self.old.rows }
        ensures ok { OnOk result (self.new.waiting ≡ new_keys nat_eq self.old.rows pages.now) }
        ensures err { OnErr result (self.new.waiting ≡ []) }
    {
        self.table.reserve(pages, PageRow::new(0))
    }

    /// Removes all reserved pages.
    pub fn give_up(&mut self)
        ensures rows { self.new.rows ≡ self.old.rows }
        ensures waiting { self.new.waiting ≡ [] }
    {
        self.table.give_up();
    }

    /// Counts a report of a page: an item's class and weight, with the time of the report in
    /// seconds and the limit in force. Returns the order that follows, if any. Allocates nothing.
    ///
    /// Requires that the page has a row or is the first reserved page, and a limit in its ranges. A
    /// reserved page has a row afterwards, after the others: it starts Kept, with an empty bucket
    /// of that time. Ce and Corrected fill the page's bucket, and lead to Soft if it trips. Ucna
    /// leads to Soft; Srao, Srar, Uc, Recoverable and Fatal lead to Hard; Odd and Informational
    /// lead to nothing. A state only rises, and an order is returned if and only if it rose: a
    /// bucket that trips at a page that is Soft or Hard is emptied, and no order follows.
    /// [`crate::report_laws`] says what this makes of a history.
    pub fn account(
        &mut self,
        page: u64,
        class: ItemClass,
        seconds: u64,
        weight: u16,
        limit: Limit,
    ) -> Option<Order>
        requires ready { IsTrue (is_ready nat_eq self.old page) }
        requires limit { IsLimit limit }
        ensures pages { self.new ≡ pages_after self.old (report page class seconds weight limit) }
        ensures order { result ≡ order_at page self.old.rows self.new.rows }
        // If the pages of a list of reports are reserved, the reports can be counted in turn.
        ensures in_turn { (pages : List ℕ) → AreReservedFor self.old (page ∷ pages)
            → AreReservedFor self.new pages }
    {
        let (place, known) = self.table.find(&page);
        let before = known.unwrap_or(PageRow::new(seconds));
        let after = before.after(class, seconds, weight, limit);
        self.table.put(place, after);
        order_for(page, before.state, after.state)
    }

    /// Returns how many pages have a row.
    pub fn len(&self) -> usize
        ensures { result ≡ length self.now.rows }
    {
        self.table.len()
    }

    /// Returns whether no page has a row.
    pub fn is_empty(&self) -> bool
        ensures { IsTrue result ↔ (self.now.rows ≡ []) }
    {
        self.table.is_empty()
    }

    /// Returns the page at an index, from 0 in first-seen order, with its bucket and its state.
    pub fn row(&self, i: usize) -> (u64, Bucket, PageState)
        requires { i < length self.now.rows }
        ensures row { slice_get self.now.rows i ≡ Some (page_entry result.0 result.1 result.2) }
        ensures count { result.1.count ≤ most_count }
    {
        let row = self.table.row(i);
        (*self.table.key(i), row.bucket, row.state)
    }

    /// Appends the row of a page. Requires that no page is reserved, and a bucket of at most
    /// `MOST_COUNT` errors. After an error the table is unchanged.
    ///
    /// `Repeated`: if and only if the page has a row.
    pub fn push_row(
        &mut self,
        page: u64,
        bucket: Bucket,
        state: PageState,
    ) -> Result<(), RowRefused>
        requires waiting { self.old.waiting ≡ [] }
        requires count { bucket.count ≤ most_count }
        ensures ok { OnOk result
            (self.new.rows ≡ self.old.rows ++ page_entry page bucket state ∷ []) }
        ensures waiting { self.new.waiting ≡ [] }
        ensures err { OnErr result (self.new.rows ≡ self.old.rows) }
        ensures repeated { (result ≡ Err Repeated) ↔ IsTrue (is_held nat_eq self.old.rows page) }
    {
        self.table.push_row(page, PageRow { bucket, state })
    }
}
