//! The rows and the orders of a history, stated without following the calls.

ghost use Rattle.std.specs.Prelude.{◌≡◌, ◌↔◌, ◌+◌, ◌≤◌, ◌==◌, ℕ, nat_eq, if◌then◌else◌, IsTrue, List, [], ◌∷◌, ◌++◌, Some, None, Contains, length};
ghost use Rattle.std.specs.List.{IsDistinct};
ghost use Rattle.std.specs.Map.{keys_of};
ghost use Rattle.page_policy.specs.declared.buckets.Limit.{Limit};
ghost use Rattle.page_policy.specs.declared.buckets.Bucket.{Bucket};
ghost use Rattle.page_policy.specs.declared.rows.Order.{Order};
ghost use Rattle.page_policy.specs.Buckets.{IsLimit, aged_bucket, most_count};
ghost use Rattle.page_policy.specs.declared.rows.PageState.TheVariants.{Kept};
ghost use Rattle.page_policy.specs.Rows.{CallsForHard, PageReport};
ghost use Rattle.page_policy.specs.Histories.{page_rows_of, pages_named, orders_of, order_at, order_behind, order_in, rows_after};
ghost use Rattle.page_policy.specs.Histories.{state_in, state_under, AreOnceInOrder, AreSingle, NeverFalls, OthersStay};
ghost use Rattle.page_policy.specs.Pages.{AreReservedFor};
ghost use Rattle.page_policy.specs.declared.rows.PageRow.{PageRow};
ghost use Rattle.row_tables.specs.Held.{Held, is_ready};

use crate::{MOST_CAPACITY, MOST_PERIOD};

/// The laws of the rows and the orders of every history.
pub fn page_laws()
    // The pages that have a row are exactly those that a report names, and each has one.
    ensures named { (history : List PageReport) (page : ℕ)
        → Contains (keys_of (page_rows_of history)) page ↔ Contains (pages_named history) page }
    ensures once { (history : List PageReport)
        → IsDistinct nat_eq (keys_of (page_rows_of history)) }

    // A page is ordered offline at most once softly and at most once hard, and never softly after
    // hard.
    ensures orders { (history : List PageReport) (page : ℕ)
        → AreOnceInOrder page (orders_of history page) }

    // A page has the highest state that its orders ask for.
    ensures stands { (history : List PageReport) (page : ℕ)
        → state_in (page_rows_of history) page ≡ state_under (orders_of history page) }

    // Single corrected errors of a page within one period give an order if and only if their number
    // reaches the capacity.
    ensures capacity { (limit : Limit) (page : ℕ) (earlier : List PageReport) (last : PageReport)
        → IsLimit limit → AreSingle limit (earlier ++ last ∷ [])
        → order_behind page earlier last
        ≡ (if length earlier + 1 == limit.capacity then Some (Order.Soft page) else None) }

    // A bucket whose count isn't above the capacity is empty after a whole period.
    ensures empties { (limit : Limit) (now : ℕ) (bucket : Bucket) → IsLimit limit
        → bucket.count ≤ limit.capacity → bucket.stamp + limit.period ≤ now
        → (aged_bucket limit now bucket).count ≡ 0 }

    // If the pages of a list of reports are reserved, a report of the first page can be counted.
    ensures ready { (pages : Held ℕ PageRow) (first : ℕ) (more : List ℕ)
        → AreReservedFor pages (first ∷ more) → IsTrue (is_ready nat_eq pages first) }
{}

/// The laws of one more report.
pub fn report_laws()
    // The rows of a history become the rows of the history with this report, and the order is the
    // order that the history with this report gives.
    ensures history { (history : List PageReport) (r : PageReport)
        → rows_after (page_rows_of history) r ≡ page_rows_of (history ++ r ∷ []) }
    ensures order { (history : List PageReport) (r : PageReport)
        → order_at r.page (page_rows_of history) (page_rows_of (history ++ r ∷ []))
        ≡ order_in history r }

    // Soft is ordered only for a page that is Kept, and Hard only if the class calls for it,
    // whatever the bucket has.
    ensures soft { (rows : List (ℕ × PageRow)) (r : PageReport)
        → order_at r.page rows (rows_after rows r) ≡ Some (Order.Soft r.page)
        → state_in rows r.page ≡ Kept }
    ensures hard { (rows : List (ℕ × PageRow)) (r : PageReport)
        → order_at r.page rows (rows_after rows r) ≡ Some (Order.Hard r.page)
        → CallsForHard r.class }

    // No state falls, and no other page's row changes.
    ensures never_falls { (rows : List (ℕ × PageRow)) (r : PageReport)
        → NeverFalls rows (rows_after rows r) }
    ensures others { (rows : List (ℕ × PageRow)) (r : PageReport)
        → OthersStay r.page rows (rows_after rows r) }
{}

/// The numbers behind the names that the definitions use.
pub fn numbers_in_digits()
    ensures capacity { MOST_CAPACITY ≡ 1_000_000 }
    ensures period { MOST_PERIOD ≡ 10_000_000 }
    ensures count { most_count ≡ 999_999 }
{}
