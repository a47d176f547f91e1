//! Laws on runs on one journal, one run after another.

ghost use Rattle.std.specs.Prelude.{◌≡◌, ◌++◌, ℕ, List, [], ◌∷◌, Some, if◌then◌else◌};
ghost use Rattle.std.specs.List.{IsDistinct};
ghost use Rattle.std.specs.Map.{lookup};
ghost use Rattle.dimm_topology.specs.Labels.{Bytes, same_label};
ghost use Rattle.page_policy.specs.Histories.{AreOnceInOrder, state_in, state_under};
ghost use Rattle.ras_base.specs.Prefix.{IsPrefixOf};
ghost use Rattle.ras_facts.specs.Names.{same_name};
ghost use Rattle.ras_account.specs.Account.{account_of, module_errors, names_of};
ghost use Rattle.ras_account.specs.History.{History};
ghost use Rattle.ras_account.specs.Asked.{HasRow, module_place, orders_for_module, orders_for_page};
ghost use Rattle.ras_account.specs.Asked.{replace_order};
ghost use Rattle.ras_account.specs.Fresh.{fresh_entries};
ghost use Rattle.ras_account.specs.Modules.{Module, has_tripped};
ghost use Rattle.ras_account.specs.Orders.{orders, orders_since_mark};
ghost use Rattle.ras_events.specs.Described.{rows_told};
ghost use Rattle.ras_run.specs.Sites.{Start};
ghost use Rattle.ras_daemon.specs.Script.{events_of, reads_in};
ghost use Rattle.ras_script.specs.Lines.{script_lines};
ghost use Rattle.bank_lines.specs.Texts.{asks_in};
ghost use Rattle.ras_account.specs.Continued.{account_after_all};
ghost use Rattle.ras_facts.specs.declared.bank.BankReport.{BankReport};
ghost use Rattle.ras_daemon.specs.Feeding.{IsFed, asked_by, bank_entries};
ghost use Rattle.ras_daemon.specs.Headline.{account_with, laid_with};
ghost use Rattle.ras_daemon.specs.Machine.{account_upto, store_upto, text_of, text_upto};
ghost use Rattle.ras_daemon.specs.RunOf.{run_of};
ghost use Rattle.ras_daemon.specs.RunOutput.{lines_output, output_upto, run_output};
ghost use Rattle.ras_daemon.specs.RunStatus.{run_exit};
ghost use Rattle.ras_daemon.specs.Runs.{AreJoined, BeginsWith, CountTheSame, Follows};
ghost use Rattle.ras_daemon.specs.Runs.{IsTakenWhole, PollsNothing};
ghost use Rattle.ras_daemon.specs.Runs.{ReportsFacts, event_count, facts_of, history_after};
ghost use Rattle.ras_daemon.specs.Runs.{logged, ordered};

/// Laws on what runs on one journal print, log and order.
pub fn run_laws()
    // What a run prints and how it ends depend, besides its script, only on the account, the
    // journal's position and the record store at its start, and on how slow the store's device is.
    ensures output { (one other : Start) (script : List ℕ) → one.account ≡ other.account
        → one.standing ≡ other.standing → one.store ≡ other.store → one.slow ≡ other.slow
        → run_output one script ≡ run_output other script }
    ensures status { (one other : Start) (script : List ℕ) → one.account ≡ other.account
        → one.standing ≡ other.standing → one.store ≡ other.store → one.slow ≡ other.slow
        → run_exit one script ≡ run_exit other script }

    // A run that begins with the account of a history leaves the account of that history with the
    // reports of its first events.
    ensures accounts { (history : History) (start : Start) (script : List ℕ) (n : ℕ)
        → BeginsWith history start → account_with start script n
        ≡ account_of (history_after history start script n) }

    // What is printed once some events are done is a beginning of the output.
    ensures printed { (start : Start) (script : List ℕ) (n : ℕ)
        → IsPrefixOf (output_upto start script n) (run_output start script) }

    // What lines print doesn't depend on the lines after them.
    ensures lines { (start : Start) (lines more : List (List ℕ))
        → IsPrefixOf (lines_output start (reads_in lines))
        (lines_output start (reads_in (lines ++ more))) }

    // What a run logs follows what the earlier runs logged, and no name is logged twice.
    ensures logged { (history : History) (start : Start) (script : List ℕ) (n : ℕ)
        → BeginsWith history start → fresh_entries (history_after history start script n)
        ≡ fresh_entries history ++ logged start script n }
    ensures once { (history : History) (start : Start) (script : List ℕ) (n : ℕ)
        → BeginsWith history start → IsDistinct same_name
        (names_of (fresh_entries history ++ logged start script n)) }

    // So a script without polls, none of whose lines was rejected, logs no report when it is run
    // again.
    ensures again { (history : History) (start next : Start) (script : List ℕ) (n : ℕ)
        → PollsNothing script → BeginsWith history start → IsTakenWhole start script
        → Follows start script (event_count start script) next
        → names_of (logged next script n) ≡ [] }

    // A script that is run again after a crash at any of its events ends with the account of an
    // uninterrupted run, except for the number of entries, because limits are set again. If it
    // reports only facts, that number is the same too.
    ensures resumed { (history : History) (start next : Start) (script : List ℕ) (n : ℕ)
        → PollsNothing script → BeginsWith history start → IsTakenWhole start script
        → Follows start script n next → IsTakenWhole next script
        → CountTheSame (account_with next script (event_count next script))
        (account_with start script (event_count start script)) }
    ensures same { (history : History) (start next : Start) (script : List ℕ) (n : ℕ)
        → PollsNothing script → BeginsWith history start → IsTakenWhole start script
        → Follows start script n next → IsTakenWhole next script → ReportsFacts start script
        → account_with next script (event_count next script)
        ≡ account_with start script (event_count start script) }

    // Together such runs log each report of the uninterrupted run once, in the same order. A crash
    // can keep a report's lines from being printed only if it comes between appending the report's
    // link and printing. What the report ordered is then outstanding at the next start, by
    // `page_stands` and `module_stands`.
    ensures together { (history : History) (start next : Start) (script : List ℕ) (n : ℕ)
        → PollsNothing script → BeginsWith history start → IsTakenWhole start script
        → Follows start script n next → IsTakenWhole next script
        → facts_of (logged start script n ++ logged next script (event_count next script))
        ≡ facts_of (logged start script (event_count start script)) }

    // Two scripts without polls that are run one after the other leave the account of the script
    // that joins them, if both begin with the same machine description, which the joined script has
    // once.
    ensures joined { (start next : Start) (one other both : List ℕ) → AreJoined one other both
        → PollsNothing both
        → IsTakenWhole start one → Follows start one (event_count start one) next
        → IsTakenWhole next other → IsTakenWhole start both
        → account_with next other (event_count next other)
        ≡ account_with start both (event_count start both) }

    // The orders of a run follow the orders of the earlier runs. Together they take a page offline
    // at most once softly and at most once hard, and never softly after that.
    ensures ordered { (history : History) (start : Start) (script : List ℕ) (n : ℕ)
        → BeginsWith history start → orders (history_after history start script n)
        ≡ orders history ++ ordered start script n }
    ensures page { (history : History) (start : Start) (script : List ℕ) (n page : ℕ)
        → BeginsWith history start → AreOnceInOrder page
        (orders_for_page page (orders history ++ ordered start script n)) }

    // Since the last upgrade marker they ask once for a module to be replaced if the module's own
    // corrected errors have tripped its bucket, and otherwise never.
    ensures module { (history : History) (start : Start) (script : List ℕ) (n : ℕ)
        (label : Bytes) → BeginsWith history start
        → let after = history_after history start script n in HasRow after label
        → orders_for_module (module_place after label)
        (orders_since_mark history ++ ordered start script n)
        ≡ (if has_tripped (module_errors after label)
        then replace_order after label ∷ [] else []) }

    // The account has what is outstanding, which is printed when the next run starts: a page in the
    // highest state that its orders asked for, and a module to be replaced if its own errors
    // tripped its bucket.
    ensures page_stands { (history : History) (start : Start) (script : List ℕ) (n page : ℕ)
        → BeginsWith history start
        → state_in (account_with start script n).pages page
        ≡ state_under (orders_for_page page (orders history ++ ordered start script n)) }
    ensures module_stands { (history : History) (start : Start) (script : List ℕ) (n : ℕ)
        (label : Bytes) (row : Module) → BeginsWith history start
        → lookup (same_label label) (account_with start script n).modules ≡ Some row
        → row.replace ≡ has_tripped (module_errors (history_after history start script n) label) }
{}

/// Laws on a run seen from outside, as events.
pub fn outside_laws()
    // Once some events are done, the account, the record store and the text are what the first
    // events of the script give.
    ensures account { (start : Start) (script : List ℕ) (n : ℕ)
        → account_upto (run_of start script) n ≡ account_with start script n }
    ensures store { (start : Start) (script : List ℕ) (n : ℕ)
        → store_upto (run_of start script) n ≡ laid_with start script n }
    ensures text { (start : Start) (script : List ℕ) (n : ℕ)
        → text_upto (run_of start script) n ≡ output_upto start script n }

    // All that the run prints is the output of its script.
    ensures output { (start : Start) (script : List ℕ)
        → text_of (run_of start script) ≡ run_output start script }
{}

/// Laws on a run over lines such as `lines` prints, if no line is rejected.
pub fn feeding_laws()
    // The events of a script are what its lines ask for, in order, and nothing else.
    ensures events { (start : Start) (script : List ℕ) → IsTakenWhole start script
        → asked_by (events_of start script) ≡ asks_in (script_lines script).whole }

    // So if a script has the machine description and then lines that ask for reports of banks, the
    // run leaves the account at its start with these reports.
    ensures account { (start : Start) (rows : List (List ℕ)) (banks : List BankReport)
        (script : List ℕ) → IsFed start rows banks script → IsTakenWhole start script
        → account_with start script (event_count start script) ≡ account_after_all start.account
        (bank_entries (rows_told (reads_in rows)) banks) }
{}
