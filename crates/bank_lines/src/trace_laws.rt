//! Laws on the lines of a trace.

ghost use Rattle.std.specs.Prelude.{◌≡◌, ℕ, ◌^◌, ◌<◌, ◌⊎◌, List, ◌∷◌, ◌++◌, false, length, map, Ok};
ghost use Rattle.std.specs.List.{AllByRecursion};
ghost use Rattle.ras_facts.specs.declared.bank.BankReport.{BankReport};
ghost use Rattle.ras_script.specs.Splitting.{lines_of};
ghost use Rattle.ras_script.specs.declared.line.ErrorReport.TheVariants.{Bank};
ghost use Rattle.ras_script.specs.declared.line.Line.TheVariants.{Report};
ghost use Rattle.bank_lines.specs.declared.found.Finding.TheVariants.{Nothing, Unread};
ghost use Rattle.bank_lines.specs.Filter.{trace_filter, trace_founds, traced_reports};
ghost use Rattle.bank_lines.specs.Counts.{all_named};
ghost use Rattle.bank_lines.specs.Finding.{IsFoundInRange, Numbered, reports_in};
ghost use Rattle.bank_lines.specs.Texts.{asks_in, found_text, printed};
ghost use Rattle.bank_lines.specs.Trace.{is_event_line, trace_found};

/// All findings in the lines of a trace fit their types, so they are read back: the printed lines
/// ask for exactly the whole reports of the trace, in order. The body is empty: the clauses are the
/// point.
pub fn traces_are_read_back()
    ensures range { (boot : ℕ) (lines : List (List ℕ)) → boot < 2 ^ 64 → length lines < 2 ^ 64
        → AllByRecursion IsFoundInRange (trace_founds boot lines) }

    // The filter prints the text of each finding, and rejects no line.
    ensures answers { (boot : ℕ) (lines : List (List ℕ)) → (trace_filter boot).answers lines
        ≡ map (λ (n : Numbered). Ok (found_text n.number n.found)) (trace_founds boot lines) }
    // A line whose event name isn't where tracers print it says nothing, or can't be read: the
    // reports are the same without it.
    ensures others { (boot : ℕ) (line : List ℕ) → is_event_line line ≡ false
        → (trace_found boot line ≡ Nothing) ⊎ (trace_found boot line ≡ Unread) }
    ensures alone { (boot : ℕ) (before after : List (List ℕ)) (line : List ℕ)
        → is_event_line line ≡ false
        → reports_in (trace_founds boot (before ++ line ∷ after))
        ≡ reports_in (trace_founds boot (before ++ after)) }
    // An error without a counter is named by its key, and by how many errors with this key the
    // trace had before.
    ensures named { (boot : ℕ) (lines : List (List ℕ)) → reports_in (trace_founds boot lines)
        ≡ all_named (traced_reports boot lines) }
    ensures asks { (boot : ℕ) (lines : List (List ℕ)) → boot < 2 ^ 64 → length lines < 2 ^ 64
        → asks_in (lines_of (printed (trace_founds boot lines)))
        ≡ map (λ (r : BankReport). Ok (Report (Bank r))) (reports_in (trace_founds boot lines)) }
{}
