//! Laws: an error has one name, from whichever source it came.

ghost use Rattle.std.specs.Prelude.{◌≡◌, ◌<◌, ◌≤◌, ◌⊎◌, ◌^◌, ◌++◌, ℕ, List, map};
ghost use Rattle.std.specs.List.{AllByRecursion};
ghost use Rattle.ras_facts.specs.Facts.{bank_name};
ghost use Rattle.ras_facts.specs.declared.bank.BankReport.{BankReport};
ghost use Rattle.bank_lines.specs.Counts.{all_named, counted_with, named_report};
ghost use Rattle.bank_lines.specs.Naming.{AreDistinct, IsNamed, IsPolledIn, Mixes, count_of, key_of, keys_of};
ghost use Rattle.bank_lines.specs.Naming.{kinds_of, name_at, names_of, polled_counter};
ghost use Rattle.bank_lines.specs.declared.naming.TheConstants.{MOST_KEYS};

/// A printer gives no two errors one name. Which names it gives depends only on how often it
/// reports each key, so two printers together name as many errors of a key as the printer that
/// reported more of them. The body is empty: the clauses are the point.
pub fn errors_have_one_name()
    ensures distinct { (reports : List BankReport) → AreDistinct (names_of (keys_of reports)) }
    ensures given { (reports : List BankReport) (key k : ℕ) → k < count_of key (keys_of reports)
        → IsNamed key k (names_of (keys_of reports)) }
    ensures few { (reports : List BankReport) (key k : ℕ)
        → IsNamed key k (names_of (keys_of reports)) → k < count_of key (keys_of reports) }
    // If a log and a trace list a key equally often, they give its errors the same names.
    ensures alike { (log trace : List BankReport) (key k : ℕ)
        → count_of key (keys_of log) ≡ count_of key (keys_of trace)
        → IsNamed key k (names_of (keys_of log)) → IsNamed key k (names_of (keys_of trace)) }
    // If the trace lists a key at least as often as the log, the log gives no name that the trace
    // doesn't give: both together name as many errors as the longer list.
    ensures within { (log trace : List BankReport) (key k : ℕ)
        → count_of key (keys_of log) ≤ count_of key (keys_of trace)
        → IsNamed key k (names_of (keys_of log)) → IsNamed key k (names_of (keys_of trace)) }
    // A source that lacks its beginning gives no names that the whole source doesn't give.
    ensures later { (before after : List BankReport) (key k : ℕ)
        → IsNamed key k (names_of (keys_of after))
        → IsNamed key k (names_of (keys_of (before ++ after))) }
    // However the names of two sources are merged, as many errors of a key are named as the source
    // with more of them lists, and no more.
    ensures both { (log trace : List BankReport) (given : List (ℕ × ℕ)) (key k : ℕ)
        → Mixes (names_of (keys_of log)) (names_of (keys_of trace)) given
        → (k < count_of key (keys_of log)) ⊎ (k < count_of key (keys_of trace))
        → IsNamed key k given }
    ensures no_more { (log trace : List BankReport) (given : List (ℕ × ℕ)) (key k : ℕ)
        → Mixes (names_of (keys_of log)) (names_of (keys_of trace)) given
        → IsNamed key k given
        → (k < count_of key (keys_of log)) ⊎ (k < count_of key (keys_of trace)) }
    // Different seconds, checks or numbers give different counters.
    ensures counters { (second check k other differs n : ℕ) → second < 2 ^ 32 → other < 2 ^ 32
        → check < 1048576 → differs < 1048576 → k < 4096 → n < 4096
        → polled_counter second check k ≡ polled_counter other differs n
        → (second ≡ other) × (check ≡ differs) × (k ≡ n) }
    // A processor's counter below 10^18 isn't the counter of a polled error, if the clock shows a
    // time after September 2001.
    ensures apart { (second check k tsc : ℕ) → 1000000000 < second → tsc < 1000000000000000000
        → ¬ (polled_counter second check k ≡ tsc) }

    // The filters give these names: a printer's reports without a counter are named by their keys
    // and numbers, unless there are more keys than are counted.
    ensures named { (boot : ℕ) (reports : List BankReport)
        → AllByRecursion (IsPolledIn boot) reports → kinds_of (keys_of reports) ≤ MOST_KEYS
        → map bank_name (all_named reports) ≡ map (name_at boot) (names_of (keys_of reports)) }
    // A report with a counter keeps it, and changes no other report's name.
    ensures kept { (counts : List (ℕ × ℕ)) (report : BankReport) → ¬ (report.tsc ≡ 0)
        → (named_report counts report ≡ report) × (counted_with counts report ≡ counts) }
    // Different keys or numbers, of which 4,096 count, give different names.
    ensures names { (boot key k other n : ℕ) → k < 4096 → n < 4096
        → name_at boot (key, k) ≡ name_at boot (other, n) → (key ≡ other) × (k ≡ n) }
    // Errors with one key have the same CPU and bank.
    ensures keys { (one other : BankReport) → one.bank < 2 ^ 8 → other.bank < 2 ^ 8
        → key_of one ≡ key_of other → (one.cpu ≡ other.cpu) × (one.bank ≡ other.bank) }
{}
