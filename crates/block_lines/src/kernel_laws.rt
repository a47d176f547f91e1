//! Laws: what the kernel prints of a firmware's report is read back.

ghost use Rattle.std.specs.Prelude.{◌≡◌, ◌^◌, ◌<◌, ◌≤◌, ℕ, List, [], ◌∷◌, length, map, true, Some};
ghost use Rattle.std.specs.List.{AllByRecursion};
ghost use Rattle.ras_script.specs.SplittingLaws.{Lacks};
ghost use Rattle.bank_lines.specs.LogHeads.{is_own};
ghost use Rattle.block_lines.specs.Kernel.{IsPrinted, PrintedError, error_of, errors_texts, event_text};
ghost use Rattle.block_lines.specs.Kernel.{printed_line, start_text};
ghost use Rattle.bank_lines.specs.LogLines.{log_stamp_of};
ghost use Rattle.block_lines.specs.Filter.{reporting_over};
ghost use Rattle.block_lines.specs.Printed.{AreHeaded, HasReport, printed_lines, severity_texts};
ghost use Rattle.block_lines.specs.Reports.{Reporting};
ghost use Rattle.block_lines.specs.Lines.{report_line_of};
ghost use Rattle.block_lines.specs.LogLines.{own_line_of};
ghost use Rattle.block_lines.specs.Reading.{errors_read, texts_read};
ghost use Rattle.block_lines.specs.declared.log_line.Marking.TheVariants.{Own};
ghost use Rattle.block_lines.specs.declared.report.OpenSection.TheVariants.{Absent};
ghost use Rattle.block_lines.specs.declared.report.TheConstants.{MOST_ERRORS};
ghost use Rattle.block_lines.specs.declared.report_line.ReportLine.TheVariants.{Start, Event};

/// A report is read as the kernel prints it. A line of the report, after a head that shows it as
/// the kernel's own, is read as the report's line with its text. The report's texts are read as its
/// source, its severity, and its errors with their severities, addresses, masks, locations and
/// types, in order.
pub fn printed_texts_are_read()
    ensures line { (head : List ℕ) (number : ℕ) (text : List ℕ) → is_own head ≡ true
        → Lacks 123 head → number < 2 ^ 64
        → own_line_of (printed_line head number text)
        ≡ Own (record { report = number; line = report_line_of text }) }
    ensures start { (source : ℕ) → source < 2 ^ 16
        → report_line_of (start_text source) ≡ Start source }
    ensures event { (severity : ℕ) → severity < 4
        → report_line_of (event_text severity) ≡ Event severity }
    ensures errors { (severity : ℕ) (errors : List PrintedError) → AllByRecursion IsPrinted errors
        → length errors ≤ MOST_ERRORS → errors_read
        (texts_read severity (record { ended = []; section = Absent }) (errors_texts 0 errors))
        ≡ map error_of errors }
{}

/// After the lines of a report, as the kernel prints them after heads that show them as its own, a
/// filter's open report has this source, the time stamp of the first line, this severity and these
/// errors, whatever the filter read before.
pub fn printed_reports_are_read()
    ensures report { (r : Reporting) (number source severity stamp : ℕ) (head : List ℕ)
        (heads : List (List ℕ)) (printed : List PrintedError)
        → number < 2 ^ 64 → source < 2 ^ 16 → severity < 4 → AllByRecursion IsPrinted printed
        → length printed ≤ MOST_ERRORS → log_stamp_of head ≡ Some stamp
        → AreHeaded number (head ∷ heads) (start_text source ∷ severity_texts severity printed)
        → HasReport (reporting_over r
        (printed_lines number (head ∷ heads) (start_text source ∷ severity_texts severity printed)))
        source stamp severity (map error_of printed) }
{}
