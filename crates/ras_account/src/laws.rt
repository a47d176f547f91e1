//! What an account is, stated without its own definitions.

ghost use Rattle.std.specs.Prelude.{◌≡◌, ◌≤◌, ◌+◌, ◌==◌, ◌&&◌, ◌||◌, ◌^◌, not, ◌↔◌, ℕ, max, List, [], ◌∷◌, ◌++◌, if◌then◌else◌, IsTrue, All, Contains, Some, None, map, nat_eq, nat_le, length};
ghost use Rattle.std.specs.Bool.{IsFalse};
ghost use Rattle.std.specs.List.{IsDistinct};
ghost use Rattle.std.specs.Map.{keys_of, lookup};
ghost use Rattle.mca_status.specs.declared.classes.ItemClass.{ItemClass};
ghost use Rattle.dimm_topology.specs.Labels.{Bytes, same_label};
ghost use Rattle.page_policy.specs.declared.buckets.Bucket.{Bucket};
ghost use Rattle.page_policy.specs.declared.buckets.Limit.{Limit};
ghost use Rattle.page_policy.specs.Buckets.{IsLimit};
ghost use Rattle.page_policy.specs.declared.rows.Order.{Order};
ghost use Rattle.page_policy.specs.Histories.{AreOnceInOrder, orders_of};
ghost use Rattle.ras_facts.specs.declared.fact.Fact.{Fact};
ghost use Rattle.ras_facts.specs.declared.name.Name.{Name};
ghost use Rattle.ras_facts.specs.declared.entry.Entry.{Entry};
ghost use Rattle.ras_facts.specs.Names.{same_name};
ghost use Rattle.ras_facts.specs.Entries.{IsValidEntry};
ghost use Rattle.ras_account.specs.History.{History, empty, with_entry, with_mark, with_entries, with_retire, history_of, followed_by, IsUnmarked, names_in, floor_after, is_retired};
ghost use Rattle.ras_account.specs.Fresh.{is_among, is_fresh_behind, fresh_entries};
ghost use Rattle.ras_account.specs.Sightings.{Sighting, sightings, reports_of};
ghost use Rattle.ras_account.specs.Modules.{has_tripped, bucket_with, trips_at, AreSingleErrors, IsLate};
ghost use Rattle.ras_account.specs.Account.{State, account_of, module_errors, weight_in, is_seen, module_of, AreSame, ChangesNothing, IsKeptAfter};
ghost use Rattle.ras_account.specs.Continued.{knows, is_fresh_in, account_after, account_after_all, account_after_history, account_after_mark};
ghost use Rattle.ras_account.specs.Orders.{orders_at, orders_behind, orders};
ghost use Rattle.ras_account.specs.Asked.{orders_for_page, replace_order, replace_orders, replace_orders_at, trips_with, HasRow};
ghost use Rattle.ras_account.specs.Numbers.{are_past, IsWithin, StaysWithin, HasRoomFor, numbers_of, numbers_with};
ghost use Rattle.ras_account.specs.Rows.{account_from_rows};
ghost use Rattle.ras_account.specs.View.{View, WaitsFirst, IsReservedFor, then_waits, added_by};
ghost use Rattle.ras_account.specs.Accounts.{IsAccount};

use crate::{FIRST_LIMIT, FIRST_MODULE_LIMIT, MOST_ENTRIES, MOST_NAMES, MOST_TOTAL};

/// The laws of the account of a history.
pub fn account_laws()
    // The account of a history followed by an entry or an upgrade marker is the account of the
    // history, continued by it.
    ensures entry { (history : History) (entry : Entry)
        → account_of (with_entry history entry) ≡ account_after (account_of history) entry }
    ensures mark { (history : History)
        → account_of (with_mark history) ≡ account_after_mark (account_of history) }
    ensures entries { (history : History) (entries : List Entry)
        → account_of (with_entries history entries)
        ≡ account_after_all (account_of history) entries }
    ensures followed { (history more : History)
        → account_of (followed_by history more)
        ≡ account_after_history (account_of history) more }

    // Equal accounts stay equal, whatever follows.
    ensures equal { (one other more : History) → AreSame one other
        → AreSame (followed_by one more) (followed_by other more) }

    // An entry that isn't new changes nothing, and the account says which entries are new.
    ensures freshness { (history : History) (entry : Entry)
        → is_fresh_in (account_of history) entry ≡ is_fresh_behind history entry }
    ensures stale { (history : History) (entry : Entry)
        → IsFalse (is_fresh_behind history entry) → ChangesNothing history entry }
    ensures stale_orders { (history : History) (entry : Entry)
        → IsFalse (is_fresh_behind history entry) → orders_behind history entry ≡ [] }

    // The new entries alone give the same account.
    ensures refreshed { (history : History) → IsUnmarked history
        → AreSame (history_of (fresh_entries history)) history }
    ensures unmarked { (entries : List Entry) → IsUnmarked (history_of entries) }

    // An account has exactly the names of the history's facts whose boots aren't retired. It has
    // each name, each label and each page once.
    ensures held { (history : History) (name : Name)
        → Contains (account_of history).names name ↔ IsKeptAfter history name }
    ensures names_once { (history : History) → IsDistinct same_name (account_of history).names }
    ensures labels_once { (history : History)
        → IsDistinct same_label (keys_of (account_of history).modules) }
    ensures pages_once { (history : History)
        → IsDistinct nat_eq (keys_of (account_of history).pages) }

    // The row of a label has its module's sums and bucket, and the sums of all rows add up to the
    // total weight.
    ensures counts { (history : History) (label : Bytes)
        → lookup (same_label label) (account_of history).modules
        ≡ (if is_seen history label then Some (module_of history label) else None) }
    ensures total { (history : History)
        → weight_in (account_of history).modules ≡ (account_of history).total }
{}

/// The laws of the names that an account knows.
pub fn known_laws()
    // The account of a history knows the names of the history's facts, and all names of retired
    // boots.
    ensures known { (history : History) (name : Name)
        → knows (account_of history) name
        ≡ (is_among (names_in history) name || is_retired (floor_after history) name) }

    // A known name stays known, whatever follows.
    ensures known_after { (history more : History) (name : Name)
        → IsTrue (knows (account_of history) name)
        → IsTrue (knows (account_of (followed_by history more)) name) }
    ensures known_after_entries { (a : State) (entries : List Entry) (name : Name)
        → IsTrue (knows a name) → IsTrue (knows (account_after_all a entries) name) }

    // Each fact among entries is known after them, whether it was new or not.
    ensures counted { (a : State) (entries : List Entry) (fact : Fact)
        → Contains entries (Entry.Fact fact)
        → IsTrue (knows (account_after_all a entries) fact.name) }
{}

/// The laws of retired boots.
pub fn retire_laws()
    // The floor never falls, so a retired boot stays retired.
    ensures floor { (history more : History)
        → floor_after history ≤ floor_after (followed_by history more) }

    // A report of a retired boot never changes anything again, and orders nothing.
    ensures unchanged { (history more : History) (fact : Fact)
        → IsTrue (is_retired (floor_after history) fact.name)
        → ChangesNothing (followed_by history more) (Entry.Fact fact) }
    ensures unordered { (history more : History) (fact : Fact)
        → IsTrue (is_retired (floor_after history) fact.name)
        → orders_behind (followed_by history more) (Entry.Fact fact) ≡ [] }

    // A retire changes only the names, the floor and the number of entries: counts, modules and
    // pages stay.
    ensures keeps { (history : History) (boot : ℕ)
        → record (account_of (with_retire history boot)) {
          names = (account_of history).names;
          floor = (account_of history).floor;
          entries = (account_of history).entries;
        } ≡ account_of history }

    // Retiring twice drops the same names as retiring once at the greater number.
    ensures twice { (history : History) (one other : ℕ)
        → (account_of (with_retire (with_retire history one) other)).names
        ≡ (account_of (with_retire history (max one other))).names }
{}

/// The laws of the orders of a history.
pub fn order_laws()
    // The orders that an entry gives after a history are the orders that it gives when it continues
    // the account.
    ensures ordered { (history : History) (entry : Entry)
        → orders_behind history entry ≡ orders_at (account_of history) entry }

    // The orders of a history for one page depend only on the page's own reports: at most one soft
    // and one hard, and never a soft one after a hard one.
    ensures page { (history : History) (page : ℕ)
        → orders_for_page page (orders history)
        ≡ orders_of (reports_of (sightings history)) page }
    ensures page_once { (history : History) (page : ℕ)
        → AreOnceInOrder page (orders_for_page page (orders history)) }

    // Since the last upgrade marker a module's replacement was ordered once if its own corrected
    // errors made its bucket trip, and otherwise never, whatever other modules do.
    ensures module { (history : History) (label : Bytes) → HasRow history label
        → replace_orders history label
        ≡ (if has_tripped (module_errors history label)
        then replace_order history label ∷ [] else []) }

    // An entry orders a module's replacement if and only if, with the entry's items, the module's
    // own corrected errors make its bucket trip for the first time since the last upgrade marker.
    ensures module_at { (history : History) (entry : Entry) (label : Bytes)
        → HasRow (with_entry history entry) label
        → replace_orders_at history entry label
        ≡ (if trips_with history entry label
        then replace_order (with_entry history entry) label ∷ [] else []) }
{}

/// The laws of the buckets of modules.
pub fn module_laws()
    // Single corrected errors of a module within one period order its replacement once their number
    // reaches the capacity, and not before.
    ensures capacity { (history : History) (label : Bytes) (limit : Limit) → IsLimit limit
        → AreSingleErrors limit (module_errors history label)
        → has_tripped (module_errors history label)
        ≡ nat_le limit.capacity (length (module_errors history label)) }

    // A bucket whose count isn't above the capacity is empty after a whole period: from then on it
    // is like a bucket that begins at the next error.
    ensures empties { (bucket : Bucket) (s : Sighting) → IsLimit s.module_limit
        → bucket.count ≤ s.module_limit.capacity → IsLate bucket s
        → bucket_with (Some bucket) s ≡ bucket_with None s }
    ensures empties_trip { (bucket : Bucket) (s : Sighting) → IsLimit s.module_limit
        → bucket.count ≤ s.module_limit.capacity → IsLate bucket s
        → trips_at (Some bucket) s ≡ trips_at None s }
{}

/// The laws of every account, even of an account that isn't the account of a history.
pub fn kept_laws()
    // The empty account is a valid account. A valid entry or an upgrade marker keeps an account
    // valid, within the three bounds.
    ensures empty { IsAccount (account_of empty) }
    ensures entry { (a : State) (entry : Entry) → IsAccount a → IsValidEntry entry
        → IsWithin (account_after a entry) → IsAccount (account_after a entry) }
    ensures entries { (a : State) (entries : List Entry) → IsAccount a → All IsValidEntry entries
        → StaysWithin a entries → IsAccount (account_after_all a entries) }
    ensures mark { (a : State) → IsAccount a → IsAccount (account_after_mark a) }

    // An account can be rebuilt from its numbers and rows.
    ensures rows { (a : State) → IsAccount a → account_from_rows a ≡ a }
{}

/// The laws by which each entry of a list can be counted in turn once the list is reserved.
pub fn reserve_laws()
    // What a list adds is what its first entry adds, followed by what the other entries then add.
    ensures in_turn { (a : State) (entry : Entry) (entries : List Entry)
        → added_by a (entry ∷ entries)
        ≡ then_waits (added_by a (entry ∷ [])) (added_by (account_after a entry) entries) }

    // If what a list adds is reserved, what its first entry adds is reserved first.
    ensures first { (account : View) (entry : Entry) (entries : List Entry)
        → IsReservedFor account (entry ∷ entries)
        → WaitsFirst (added_by account.state (entry ∷ [])) account.waiting }

    // Numbers are either within an account's bounds or past them.
    ensures past { (a : State) (entries : List Entry)
        → IsFalse (are_past (numbers_with a entries)) ↔ HasRoomFor a entries }
    ensures now_past { (a : State) → IsFalse (are_past (numbers_of a)) ↔ IsWithin a }

    // If there is room for all that a list adds, the account stays within its bounds after each
    // entry of the list, and there is then room for what the remaining entries add.
    ensures stays { (a : State) (entries : List Entry)
        → HasRoomFor a entries → StaysWithin a entries }
    ensures front { (a : State) (front more : List Entry)
        → HasRoomFor a (front ++ more) → IsWithin (account_after_all a front) }
    ensures others { (a : State) (entry : Entry) (entries : List Entry)
        → HasRoomFor a (entry ∷ entries) → HasRoomFor (account_after a entry) entries }
{}

/// The numbers behind the names that the definitions use.
pub fn numbers_in_digits()
    ensures names { MOST_NAMES ≡ 200_000 }
    ensures entries { MOST_ENTRIES ≡ 2 ^ 62 }
    ensures total { MOST_TOTAL ≡ 2 ^ 62 }
    ensures limit { FIRST_LIMIT ≡ record { capacity = 10; period = 86_400 } }
    ensures module_limit { FIRST_MODULE_LIMIT ≡ record { capacity = 100; period = 86_400 } }
{}
