//! Laws: what is printed of a kernel log, and the reports in it.

ghost use Rattle.std.specs.Prelude.{◌≡◌, ◌<◌, ◌^◌, ◌⊎◌, ℕ, Bool, List, ◌∷◌, ◌++◌, false, length, map, Ok};
ghost use Rattle.ras_facts.specs.declared.bank.BankReport.{BankReport};
ghost use Rattle.ras_klog.specs.Groups.{told_of_groups};
ghost use Rattle.ras_script.specs.Splitting.{lines_of};
ghost use Rattle.ras_script.specs.declared.line.ErrorReport.TheVariants.{Bank};
ghost use Rattle.ras_script.specs.declared.line.Line.TheVariants.{Report};
ghost use Rattle.bank_lines.specs.Counts.{all_named};
ghost use Rattle.bank_lines.specs.LogFilter.{log_reports, log_script};
ghost use Rattle.bank_lines.specs.LogGroups.{groups_judged, klog_part, log_founds, log_groups, printed_by, told_in};
ghost use Rattle.bank_lines.specs.LogLines.{is_own_line, log_line_of};
ghost use Rattle.bank_lines.specs.Texts.{asks_in};
ghost use Rattle.bank_lines.specs.declared.log_line.LogLine.{LogLine};
ghost use Rattle.bank_lines.specs.declared.log_line.LogLine.TheVariants.{Nothing, Unread};
ghost use Rattle.bank_lines.specs.declared.log_line.MarkedLine.TheVariants.{Plain};

use crate::laws::printed_lines_are_read_back;

/// The text printed of a kernel log asks, as a script, for exactly the whole reports of Intel
/// processors whose banks hold errors, in order. The clauses are the point of this function.
pub fn logs_are_made_lines()
    // The groups are those that `klog` makes of the kernel's own lines of reports.
    ensures groups { (boot cap : ℕ) (lines : List LogLine)
        → map (told_in boot cap) (log_groups lines)
        ≡ told_of_groups boot cap (map klog_part lines) }
    ensures reports { (boot cap : ℕ) (lines : List (List ℕ)) → boot < 2 ^ 64 → cap < 2 ^ 64
        → length lines < 2 ^ 63
        → asks_in (lines_of (log_script boot cap lines))
        ≡ map (λ (r : BankReport). Ok (Report (Bank r))) (log_reports boot cap lines) }
    // A line that isn't the kernel's own says nothing, or can't be read: the reports are the same
    // without it.
    ensures others { (line : List ℕ) → is_own_line line ≡ false
        → (log_line_of line ≡ Plain Nothing) ⊎ (log_line_of line ≡ Plain Unread) }
    ensures alone { (boot cap : ℕ) (before after : List (List ℕ)) (line : List ℕ)
        → is_own_line line ≡ false
        → log_reports boot cap (before ++ line ∷ after) ≡ log_reports boot cap (before ++ after) }
    // An error without a counter is named by its key, and by how many errors with this key its
    // printer, EDAC or the kernel, printed before.
    ensures named { (boot cap : ℕ) (by_edac : Bool) (lines : List LogLine)
        → printed_by by_edac (log_groups lines) (log_founds boot cap lines)
        ≡ all_named (printed_by by_edac (log_groups lines)
        (groups_judged boot cap (log_groups lines))) }
{
    printed_lines_are_read_back();
}
