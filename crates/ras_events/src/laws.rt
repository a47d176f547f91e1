//! What an event does to the account of a history, stated without the event's own definitions.

ghost use Rattle.std.specs.Prelude.{◌≡◌, ◌<◌, ◌^◌, ℕ, List, [], ◌∷◌, ◌++◌, Ok, Some, IsTrue, IsFalse};
ghost use Rattle.std.specs.Option.{option_map_or};
ghost use Rattle.dimm_topology.specs.declared.row.Row.{Row};
ghost use Rattle.mca_status.specs.Registers.{valid};
ghost use Rattle.ras_facts.specs.Facts.{status_in};
ghost use Rattle.ras_facts.specs.declared.bank.BankReport.{BankReport};
ghost use Rattle.ras_panic.specs.Panics.{panic_bytes};
ghost use Rattle.ras_panic.specs.Reports.{FitsFields};
ghost use Rattle.ras_facts.specs.Reports.{bank_report};
ghost use Rattle.std.specs.List.{fold};
ghost use Rattle.std.specs.Result.{is_ok};
ghost use Rattle.cper_records.specs.Readable.{filled, read_under};
ghost use Rattle.erst_store.specs.Store.{Stored, bytes_under};
ghost use Rattle.ras_facts.specs.declared.entry.Entry.{Entry};
ghost use Rattle.ras_account.specs.Account.{State, account_of};
ghost use Rattle.ras_account.specs.Continued.{account_after_all};
ghost use Rattle.ras_account.specs.Fresh.{fresh_entries};
ghost use Rattle.ras_account.specs.History.{History, with_entries};
ghost use Rattle.ras_account.specs.Numbers.{fresh_entries_in};
ghost use Rattle.ras_texts.specs.Orders.{order_lines};
ghost use Rattle.ras_events.specs.Described.{NumberedLine, settings_read, settings_told};
ghost use Rattle.ras_events.specs.Events.{no_settings};
ghost use Rattle.ras_events.specs.declared.made.Piece.{Piece};
ghost use Rattle.ras_events.specs.Making.{entries_in, made_by_report, polled};
ghost use Rattle.ras_events.specs.Stores.{unreadable};
ghost use Rattle.ras_events.specs.Preparing.{event_text_in, orders_along_entries, text_along};
ghost use Rattle.ras_events.specs.Texts.{event_text, orders_of_entries, pieces_text};

/// The laws of events.
pub fn event_laws()
    // The new entries alone change the account as all entries do, and give the same orders.
    ensures news { (a : State) (entries : List Entry)
        → account_after_all a (fresh_entries_in a entries) ≡ account_after_all a entries }
    ensures news_orders { (a : State) (entries : List Entry)
        → orders_along_entries a (fresh_entries_in a entries) ≡ orders_along_entries a entries }

    // In the account of a history the new entries are the entries that are new at their places in
    // the history.
    ensures fresh { (history : History) (entries : List Entry)
        → fresh_entries (with_entries history entries)
        ≡ fresh_entries history ++ fresh_entries_in (account_of history) entries }

    // The account after entries, their lines and their orders are the account, lines and orders of
    // the history, with each entry at its place.
    ensures account { (history : History) (entries : List Entry)
        → account_after_all (account_of history) entries
        ≡ account_of (with_entries history entries) }
    ensures text { (history : History) (pieces : List Piece)
        → text_along (account_of history) pieces ≡ pieces_text history pieces }
    ensures orders { (history : History) (entries : List Entry)
        → orders_along_entries (account_of history) entries ≡ orders_of_entries history entries }

    // The prepared text of an event, followed by the lines of the orders that its new entries give
    // when they are counted, is the event's text. The text for a history is the text for the
    // history's account.
    ensures prepared { (a : State) (made : List Piece)
        → text_along a made
        ++ order_lines (account_after_all a (fresh_entries_in a (entries_in made))).modules
        (orders_along_entries a (fresh_entries_in a (entries_in made)))
        ≡ event_text_in a made }
    ensures event { (history : History) (made : List Piece)
        → event_text_in (account_of history) made ≡ event_text history made }
{}

/// The laws of the machine description: each line's part of it applies from the next line on, so
/// the settings after lines are what all of them give.
pub fn settings_laws()
    ensures told { (reads : List NumberedLine)
        → fold settings_read no_settings reads ≡ settings_told reads }
{}

/// The laws of the record store.
pub fn store_laws()
    // A poll leaves bytes that can't be read under their identifier.
    ensures unread { (id : ℕ) (bytes : List ℕ) (store : List Stored)
        → IsFalse (is_ok (read_under id (filled bytes)))
        → bytes_under id store ≡ Some bytes → bytes_under id (unreadable store) ≡ Some bytes }
{}

/// The laws of polls.
pub fn poll_laws()
    // The record of a panic gives the same piece as its machine-check report: an error that is
    // reported by both has one name, and the same lines.
    ensures panic { (rows : List Row) (seconds id : ℕ) (bank : BankReport) → id < 2 ^ 64
        → FitsFields bank → IsTrue (valid (status_in bank))
        → polled rows seconds (record { id = id; bytes = panic_bytes id bank } ∷ [])
        ≡ option_map_or made_by_report (bank_report bank rows) [] }
{}
