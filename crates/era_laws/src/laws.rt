//! Laws over all runs on one journal and record store, whenever the machine crashed.

ghost use Rattle.std.specs.Prelude.{◌≡◌, ◌≤◌, ◌⊎◌, ◌++◌, ℕ, List, [], ◌∷◌, length, Some, All};
ghost use Rattle.std.specs.Prelude.{if◌then◌else◌};
ghost use Rattle.std.specs.List.{IsDistinct, flat_map};
ghost use Rattle.std.specs.Map.{lookup};
ghost use Rattle.board_core.specs.Clock.{LeftNow, Rests};
ghost use Rattle.board_core.specs.Stop.{Becomes, Left};
ghost use Rattle.board_core.specs.Told.{Told};
ghost use Rattle.erst_store.specs.Store.{Stored};
ghost use Rattle.dimm_topology.specs.Labels.{Bytes, same_label};
ghost use Rattle.page_policy.specs.Histories.{AreOnceInOrder, state_in, state_under};
ghost use Rattle.ras_facts.specs.Names.{same_name};
ghost use Rattle.ras_account.specs.Account.{State, account_of, module_errors, names_of};
ghost use Rattle.ras_account.specs.Asked.{HasRow, module_place, orders_for_module, orders_for_page};
ghost use Rattle.ras_account.specs.Asked.{replace_order};
ghost use Rattle.ras_account.specs.Continued.{account_after_all};
ghost use Rattle.ras_account.specs.Fresh.{fresh_entries};
ghost use Rattle.ras_account.specs.History.{History, with_entries};
ghost use Rattle.ras_account.specs.Modules.{Module, has_tripped};
ghost use Rattle.ras_account.specs.Orders.{orders, orders_since_mark};
ghost use Rattle.ras_journal.specs.Recovered.{Recovers};
ghost use Rattle.ras_recover.specs.Recovering.{SyncsFirst};
ghost use Rattle.ras_exit.specs.declared.exit.Exit.{Exit};
ghost use Rattle.ras_run.specs.Sites.{Start};
ghost use Rattle.ras_daemon.specs.Headline.{AtOpening, Settles, StopsRecover, reported};
ghost use Rattle.ras_daemon.specs.Machine.{account_upto, change_next, puts, store_changed};
ghost use Rattle.ras_daemon.specs.Machine.{store_upto};
ghost use Rattle.ras_daemon.specs.Promises.{RunStops};
ghost use Rattle.ras_daemon.specs.RunOf.{run_of};
ghost use Rattle.ras_daemon.specs.RunStatus.{start_of};
ghost use Rattle.ras_daemon.specs.Runs.{BeginsWith, CountTheSame, IsTakenWhole, ReportsFacts};
ghost use Rattle.ras_daemon.specs.Runs.{facts_of, logged, ordered};
ghost use Rattle.ras_daemon.specs.StoreDuring.{KeepsRecords, KnownBy};
ghost use Rattle.era_laws.specs.Eras.{AreEras, Counts, CountsEach, Era, IsEra, IsReadableIn};
ghost use Rattle.era_laws.specs.Eras.{IsReplayed, TakesScript, done_in, era_of, last_laid_in};
ghost use Rattle.era_laws.specs.Eras.{left_after, logged_in, logs_upto, ordered_in, orders_upto};
ghost use Rattle.era_laws.specs.Eras.{reported_in, reports_upto};
ghost use Rattle.era_laws.specs.Printed.{Print, PrintsEach, TakesSome, names_told, told_in};

use board_core::{Board, Source};

/// Laws over any number of runs on one machine. An era is a run up to its end, or up to a
/// crash of the machine at any point. Eras follow one another on one journal and record store: each
/// begins with what was left of the era before it. The laws look at runs from outside: whatever
/// their scripts say, runs are events that report, change the record store, and print. `run_eras`
/// shows that the promises of `rasd` make eras.
///
/// - `counts`, `accounts` and `histories` say what the files give after all eras: the first account
///   with the events that are done by what each era printed, and with at most one more event of
///   each.
/// - `logged` and `once` say that over all eras no name is logged twice, `printed` and
///   `printed_once` that no name is printed as new twice.
/// - `ordered`, `page` and `module` say that nothing is ordered twice. `page_stands` and
///   `module_stands` say that the account that is left has all that was ordered.
/// - `records` and `cut` say that each readable record that was last put or saved is in the store,
///   or the account knows its name.
/// - `replayed`, `same` and `together` say that a script without polls that is run again after each
///   crash, and may grow meanwhile, gives what it gives in one run. `polled` and `polled_whole` say
///   what holds of a script that polls.
pub fn era_laws()
    // Of each era the files count the events that are done by what it printed, or one more. They
    // give the first account with what these events report, in order.
    ensures counts { (here : Left) (eras : List Era) → AreEras here eras
        → (counts : List ℕ) × CountsEach eras counts }
    ensures accounts { (account : State) (here : Left) (eras : List Era) (counts : List ℕ)
        → Recovers account here → AreEras here eras → CountsEach eras counts
        → Recovers (account_after_all account (reported_in eras counts)) (left_after here eras) }
    ensures histories { (history : History) (here : Left) (eras : List Era) (counts : List ℕ)
        → Recovers (account_of history) here → AreEras here eras → CountsEach eras counts
        → Recovers (account_of (with_entries history (reported_in eras counts)))
        (left_after here eras) }

    // What is logged follows era by era, and over all eras no name is logged twice. Nor is a name
    // printed as new twice.
    ensures logged { (history : History) (here : Left) (eras : List Era) (counts : List ℕ)
        → Recovers (account_of history) here → AreEras here eras → CountsEach eras counts
        → fresh_entries (with_entries history (reported_in eras counts))
        ≡ fresh_entries history ++ logged_in eras counts }
    ensures once { (history : History) (here : Left) (eras : List Era) (counts : List ℕ)
        → Recovers (account_of history) here → AreEras here eras → CountsEach eras counts
        → IsDistinct same_name (names_of (fresh_entries history ++ logged_in eras counts)) }
    ensures printed_once { (history : History) (here : Left) (eras : List Era)
        → Recovers (account_of history) here → AreEras here eras → All TakesSome eras
        → (prints : List (List Print)) × PrintsEach eras prints
        × IsDistinct same_name (names_of (fresh_entries history) ++ names_told prints) }

    // Nothing is printed of an event before its report is counted. So the new reports among what
    // the eras printed are the logged reports, in order, up to where a crash cut them off.
    ensures printed { (here : Left) (eras : List Era) (counts : List ℕ)
        → AreEras here eras → CountsEach eras counts → All TakesSome eras
        → (prints : List (List Print)) × PrintsEach eras prints
        × (flat_map told_in prints ≡ facts_of (logged_in eras counts)) }

    // What is ordered follows era by era too. Over all eras a page is taken offline at most once
    // softly and at most once hard, and never softly after that. Since the last upgrade marker a
    // module is ordered to be replaced once if its own corrected errors have tripped its bucket,
    // and otherwise never.
    ensures ordered { (history : History) (here : Left) (eras : List Era) (counts : List ℕ)
        → Recovers (account_of history) here → AreEras here eras → CountsEach eras counts
        → orders (with_entries history (reported_in eras counts))
        ≡ orders history ++ ordered_in eras counts }
    ensures page { (history : History) (here : Left) (eras : List Era) (counts : List ℕ)
        (page : ℕ)
        → Recovers (account_of history) here → AreEras here eras → CountsEach eras counts
        → AreOnceInOrder page
        (orders_for_page page (orders history ++ ordered_in eras counts)) }
    ensures module { (history : History) (here : Left) (eras : List Era) (counts : List ℕ)
        (label : Bytes)
        → Recovers (account_of history) here → AreEras here eras → CountsEach eras counts
        → let after = with_entries history (reported_in eras counts) in HasRow after label
        → orders_for_module (module_place after label)
        (orders_since_mark history ++ ordered_in eras counts)
        ≡ (if has_tripped (module_errors after label)
        then replace_order after label ∷ [] else []) }

    // The account that is left has what is outstanding, which the next run prints when it starts: a
    // page in the highest state that its orders asked for, and a module to be replaced if its own
    // errors tripped its bucket.
    ensures page_stands { (history : History) (now : State) (here : Left) (eras : List Era)
        (counts : List ℕ) (page : ℕ)
        → Recovers (account_of history) here → AreEras here eras → CountsEach eras counts
        → Recovers now (left_after here eras)
        → state_in now.pages page
        ≡ state_under (orders_for_page page (orders history ++ ordered_in eras counts)) }
    ensures module_stands { (history : History) (now : State) (here : Left) (eras : List Era)
        (counts : List ℕ) (label : Bytes) (row : Module)
        → Recovers (account_of history) here → AreEras here eras → CountsEach eras counts
        → Recovers now (left_after here eras)
        → lookup (same_label label) now.modules ≡ Some row
        → row.replace
        ≡ has_tripped (module_errors (with_entries history (reported_in eras counts)) label) }

    // Each readable record that was last put or saved in any era is in the store that was left, or
    // the account that the files give knows its name.
    ensures records { (account now : State) (here : Left) (eras : List Era)
        → Recovers account here → AreEras here eras → Recovers now (left_after here eras)
        → KeepsRecords (last_laid_in here eras) (KnownBy now) (left_after here eras).store }

    // If a crash interrupted a put, it left what the put was to store, or what was stored before
    // it.
    ensures cut { (era : Era) (r : Stored) → IsEra era
        → change_next era.run (done_in era) ≡ puts r
        → let laid = store_upto era.run (done_in era) in
        Becomes (store_changed laid (puts r)) laid era.left.store }

    // If a script without polls, which may grow at its end, is run again from its first line after
    // each crash, the account in the end is the account of one uninterrupted run of the whole
    // script, except for the number of entries, because limits are set again. If the script reports
    // only facts, that number is the same too.
    ensures replayed { (history : History) (undisturbed : Start) (script : List ℕ) (here : Left)
        (eras : List Era) (last : Era) (now : State)
        → IsReplayed history undisturbed script here eras last → Recovers now last.left
        → let whole = run_of undisturbed script in
        CountTheSame now (account_upto whole (length whole.does)) }
    ensures same { (history : History) (undisturbed : Start) (script : List ℕ) (here : Left)
        (eras : List Era) (last : Era) (now : State)
        → IsReplayed history undisturbed script here eras last
        → ReportsFacts undisturbed script → Recovers now last.left
        → let whole = run_of undisturbed script in
        now ≡ account_upto whole (length whole.does) }

    // Together these eras log each report of the uninterrupted run once, in the same order.
    ensures together { (history : History) (undisturbed : Start) (script : List ℕ) (here : Left)
        (eras : List Era) (last : Era) (counts : List ℕ)
        → IsReplayed history undisturbed script here eras last
        → CountsEach (eras ++ last ∷ []) counts
        → let whole = run_of undisturbed script in
        facts_of (logged_in (eras ++ last ∷ []) counts)
        ≡ facts_of (logs_upto whole (length whole.does)) }

    // This doesn't hold for a script that polls, because a poll reports what is in the store at
    // that time. But if a later era runs the same script, the first events, which the files counted
    // before, log there only records that are readable in the store that was left. The same holds
    // of all its events, if no line of the script was rejected and all of its events were counted.
    ensures polled { (script : List ℕ) (here : Left) (era next : Era) (between : List Era)
        (n m : ℕ)
        → AreEras here (era ∷ (between ++ next ∷ []))
        → TakesScript script era → TakesScript script next
        → Counts era n → m ≤ n → m ≤ length era.run.does
        → All (IsReadableIn (left_after era.left between).store)
        (names_of (logs_upto next.run m)) }
    ensures polled_whole { (script : List ℕ) (here : Left) (era next : Era) (between : List Era)
        (n m : ℕ)
        → AreEras here (era ∷ (between ++ next ∷ []))
        → (takes : TakesScript script era) → TakesScript script next
        → Counts era n → IsTakenWhole takes.start script → length era.run.does ≤ n
        → All (IsReadableIn (left_after era.left between).store)
        (names_of (logs_upto next.run m)) }
{}

/// Laws on the promises of `rasd` for the run of a script: the run is an era, up to any crash and
/// up to its end, even if it began after a process was killed while the machine went on.
pub fn run_eras<S: Source, B: Board>()
    // If a crash now leaves exactly what the board's model says, as after the machine starts, then
    // a crash at a run's start leaves the account and the record store that the run starts with.
    ensures begins { (board : B) (account : State) (t : Told) → Recovers account t.here
        → Rests t (B.seen board).told (B.seen board).clock
        → StopsRecover (start_of account t) (B.seen board).clock }

    // Whatever a crash at any point of the run leaves is then the end of an era, by `rasd/stops`.
    // So is the state of the board's model when the run ends.
    ensures stopped { (exit : Exit) (first last : S) (old new : B)
        (account : State) (t : Told) (script : List ℕ) (left : Left)
        → Recovers account t.here → StopsRecover (start_of account t) (B.seen old).clock
        → RunStops B.seen exit (last ≡ first) (start_of account t) script t old new
        → (B.seen new).clock.may_leave_since (B.seen old).clock.now left
        → IsEra (era_of account t script left) }
    ensures ended { (exit : Exit) (first last : S) (old new : B)
        (account : State) (t now : Told) (script : List ℕ)
        → Recovers account t.here → StopsRecover (start_of account t) (B.seen old).clock
        → RunStops B.seen exit (last ≡ first) (start_of account t) script t old new
        → (B.seen new).told ≡ Some now → IsEra (era_of account t script now.here) }

    // After a process is killed the machine goes on, and writes may not be durable yet. A crash
    // during the next run leaves the end of an era of that run from the point at which both syncs
    // of its journal's opening have returned `Ok`, also if the journal is never open. A crash
    // before that leaves what a crash at the very start of this run might have left.
    ensures settled { (old new : B) (account : State) (t : Told) (script : List ℕ) (left : Left)
        → Recovers account t.here
        → (settles : Settles B.seen (start_of account t) script t old new)
        → (B.seen new).clock.may_leave_since (B.seen settles.syncs.synced).clock.now left
        → IsEra (era_of account t script left) }
    ensures never_open { (old new : B) (account : State) (t : Told) (script : List ℕ) (left : Left)
        → Recovers account t.here
        → (syncs : SyncsFirst B.seen (AtOpening (start_of account t) t.here.out) t old new)
        → (B.seen new).clock.may_leave_since (B.seen syncs.synced).clock.now left
        → IsEra (era_of account t script left) }
    ensures went_on { (exit : Exit) (first last : S) (old new : B)
        (account : State) (t : Told) (script : List ℕ) (left : Left)
        → Recovers account t.here
        → RunStops B.seen exit (last ≡ first) (start_of account t) script t old new
        → (B.seen new).clock.may_leave_since (B.seen old).clock.now left
        → LeftNow (B.seen old).clock left ⊎ IsEra (era_of account t script left) }
{}

/// The events of a script's run report, log and order what `run_laws` says of the script's lines.
pub fn script_eras()
    ensures reports { (start : Start) (script : List ℕ) (n : ℕ)
        → reports_upto (run_of start script) n ≡ reported start script n }
    ensures logs { (start : Start) (script : List ℕ) (n : ℕ)
        → logs_upto (run_of start script) n ≡ logged start script n }
    ensures orders { (history : History) (start : Start) (script : List ℕ) (n : ℕ)
        → BeginsWith history start
        → orders_upto (run_of start script) n ≡ ordered start script n }
{}
