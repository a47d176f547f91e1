//! What appending a link leaves.
ghost use Rattle.std.specs.Prelude.{ℕ, List};
ghost use Rattle.board_core.specs.Doing.{Moment, calls_of};
ghost use Rattle.board_core.specs.Stop.{Left};
ghost use Rattle.board_core.specs.Told.{Told};
ghost use Rattle.ras_account.specs.Account.{State};
ghost use Rattle.ras_account.specs.Continued.{account_after_all};
ghost use Rattle.ras_facts.specs.declared.entry.Entry.{Entry};
ghost use Rattle.ras_journal.specs.Recovered.{HasFewLinks, IsAt};
ghost use Rattle.ras_journal.specs.declared.standing.Standing.{Standing};
ghost use Rattle.ras_run.specs.Keeping.{CanKeep, Keeping, after_keeping, keeping_acts, standing_kept};
ghost use Rattle.ras_run.specs.KeepingCalls.{IsKeeping};

/// The laws of the acts that append a link, if a switch that is due can be made and has room.
pub fn keeping_laws()
    // From whatever a crash meanwhile leaves, the account is recovered without the link or with it.
    // The printed text and the record store are unchanged.
    ensures moments { (standing : Standing) (account : State) (entries : List Entry)
        (link : List ℕ) (t : Told) (left : Left)
        → CanKeep standing account entries link t
        → Moment (keeping_acts standing account link) t left
        → Keeping account entries t.here left }

    // Afterwards the files contain the account with the link, at the next position.
    ensures done { (standing : Standing) (account : State) (entries : List Entry)
        (link : List ℕ) (t : Told)
        → CanKeep standing account entries link t
        → IsAt (standing_kept standing account link) (account_after_all account entries)
        (after_keeping standing account link t).here }

    // If no valid file had more than 256 links before, no valid file has more meanwhile or
    // afterwards.
    ensures few { (standing : Standing) (account : State) (entries : List Entry)
        (link : List ℕ) (t : Told) (left : Left)
        → CanKeep standing account entries link t → HasFewLinks t.here
        → Moment (keeping_acts standing account link) t left → HasFewLinks left }
    ensures few_done { (standing : Standing) (account : State) (entries : List Entry)
        (link : List ℕ) (t : Told)
        → CanKeep standing account entries link t → HasFewLinks t.here
        → HasFewLinks (after_keeping standing account link t).here }

    // The disk calls are at most one switch, and then the append: only WriteAt and Sync calls.
    ensures calls { (standing : Standing) (account : State) (link : List ℕ)
        → IsKeeping link (calls_of (keeping_acts standing account link)) }
{}
