//! Events print no done line except their own.

ghost use Rattle.ras_account.specs.Account.{State, account_of};
ghost use Rattle.ras_account.specs.Accounts.{IsAccount};
ghost use Rattle.ras_account.specs.History.{History};
ghost use Rattle.ras_texts.specs.Orders.{standing_lines};
ghost use Rattle.ras_texts.specs.Text.{end_line};
ghost use Rattle.std.specs.Prelude.{List};
ghost use Rattle.ras_events.specs.declared.made.Piece.{Piece};
ghost use Rattle.ras_events.specs.Sizes.{IsFit};
ghost use Rattle.ras_events.specs.Texts.{event_text};
ghost use Rattle.ras_events.specs.QuietLines.{AreQuietLines};

/// The laws of printed texts.
pub fn printed_lines_are_quiet()
    // No line of an event's text is a done line, if its entries can be one link.
    ensures event { (history : History) (made : List Piece) → IsAccount (account_of history)
        → IsFit made → AreQuietLines (event_text history made) }

    // No line of an account's orders is a done line, and the last line of a whole run isn't either.
    ensures standing { (account : State) → IsAccount account
        → AreQuietLines (standing_lines account) }
    ensures end { (account : State) → AreQuietLines (end_line account) }
{}
