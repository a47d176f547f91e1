//! Laws: what `lines` prints for its input.

ghost use Rattle.std.specs.Prelude.{◌≡◌, ℕ, ◌^◌, ◌<◌, List, ◌++◌, map, Ok};
ghost use Rattle.line_filters.specs.Filters.{filter_output};
ghost use Rattle.ras_exit.specs.ScriptEnd.{script_exit};
ghost use Rattle.ras_exit.specs.StopLine.{stop_line};
ghost use Rattle.ras_exit.specs.declared.exit.Exit.TheVariants.{Done};
ghost use Rattle.ras_facts.specs.declared.bank.BankReport.{BankReport};
ghost use Rattle.ras_script.specs.Lines.{script_lines};
ghost use Rattle.ras_script.specs.Splitting.{lines_of};
ghost use Rattle.ras_script.specs.declared.line.ErrorReport.TheVariants.{Bank};
ghost use Rattle.ras_script.specs.declared.line.Line.TheVariants.{Report};
ghost use Rattle.bank_lines.specs.Filter.{trace_filter, trace_founds};
ghost use Rattle.bank_lines.specs.Finding.{reports_in};
ghost use Rattle.bank_lines.specs.LogFilter.{log_filter, log_reports, log_script};
ghost use Rattle.bank_lines.specs.Texts.{asks_in, printed};

use crate::log_laws::logs_are_made_lines;
use crate::trace_laws::traces_are_read_back;

/// `lines` prints the text of the findings in a trace's lines, or in a log's groups, and then the
/// stop line, if a line or the input is too long. Without a stop line the text asks, as a script,
/// for exactly the reports. The clauses are the point of this function.
pub fn lines_laws()
    ensures trace { (boot : ℕ) (input : List ℕ) → filter_output (trace_filter boot) input
        ≡ printed (trace_founds boot (script_lines input).whole) ++ stop_line (script_exit input) }
    ensures log { (boot cap : ℕ) (input : List ℕ) → filter_output (log_filter boot cap) input
        ≡ log_script boot cap (script_lines input).whole ++ stop_line (script_exit input) }
    ensures whole_trace { (boot : ℕ) (input : List ℕ) → boot < 2 ^ 64 → script_exit input ≡ Done
        → asks_in (lines_of (filter_output (trace_filter boot) input))
        ≡ map (λ (r : BankReport). Ok (Report (Bank r)))
        (reports_in (trace_founds boot (script_lines input).whole)) }
    ensures whole_log { (boot cap : ℕ) (input : List ℕ) → boot < 2 ^ 64 → cap < 2 ^ 64
        → script_exit input ≡ Done
        → asks_in (lines_of (filter_output (log_filter boot cap) input))
        ≡ map (λ (r : BankReport). Ok (Report (Bank r)))
        (log_reports boot cap (script_lines input).whole) }
{
    traces_are_read_back();
    logs_are_made_lines();
}
