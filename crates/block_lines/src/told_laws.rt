//! Laws on lines and reports that become no block: each gets a comment.

ghost use Rattle.std.specs.Prelude.{◌≡◌, ◌<◌, ◌^◌, ◌∷◌, ◌++◌, [], ℕ, List, Option, Some, true, false};
ghost use Rattle.bank_lines.specs.LogHeads.{is_own, up_to};
ghost use Rattle.block_lines.specs.Kernel.{printed_line};
ghost use Rattle.block_lines.specs.LogLines.{has_mark, own_line_of};
ghost use Rattle.block_lines.specs.Reports.{Reporting, ended_at, ends_early, is_ended_by};
ghost use Rattle.block_lines.specs.Reports.{line_remark, reporting_after};
ghost use Rattle.block_lines.specs.Texts.{block_text, blocks_text_at, cut_report_line, remark_text};
ghost use Rattle.block_lines.specs.Texts.{rest_text, unread_report_line};
ghost use Rattle.block_lines.specs.declared.log_line.Marking.TheVariants.{Foreign, Own, Unmarked};
ghost use Rattle.block_lines.specs.declared.log_line.ReportLogLine.{ReportLogLine};
ghost use Rattle.block_lines.specs.declared.report.OpenReport.{OpenReport};
ghost use Rattle.block_lines.specs.declared.memory.MemoryError.{MemoryError};
ghost use Rattle.block_lines.specs.declared.report.OpenSection.TheVariants.{Begun, Memory};
ghost use Rattle.block_lines.specs.declared.report_line.ReportLine.TheVariants.{Error, MemoryType, OtherType};

/// A line gets a comment with its number if a report's number and prefix are anywhere in it, and
/// its head isn't the kernel's. The reports change as they would by a line without a report's
/// number that was printed at that time.
pub fn foreign_lines_are_told()
    ensures marked { (head : List ℕ) (number : ℕ) (text : List ℕ) → number < 2 ^ 64
        → has_mark (printed_line head number text) ≡ true }
    ensures foreign { (line : List ℕ) → has_mark line ≡ true → is_own (up_to 123 line) ≡ false
        → own_line_of line ≡ Foreign }
    ensures told { (r : Reporting) (number : ℕ) (stamp : Option ℕ)
        → blocks_text_at r number (record { stamp = stamp; marking = Foreign })
        ≡ blocks_text_at r number (record { stamp = stamp; marking = Unmarked })
        ++ (unread_report_line number ++ 10 ∷ []) }
    ensures reports { (r : Reporting) (stamp : Option ℕ)
        → reporting_after r (record { stamp = stamp; marking = Foreign })
        ≡ reporting_after r (record { stamp = stamp; marking = Unmarked }) }
{}

/// A report that is cut gets a comment with its source and its time stamp.
pub fn cut_reports_are_told()
    // If the report ends without a section, or before its last section has a type, the comment
    // comes at the line that ends the report, after the block of its other errors.
    ensures ended { (r : Reporting) (report : OpenReport) (number : ℕ) (line : ReportLogLine)
        → r.work ≡ Some report → ends_early report.section ≡ true
        → is_ended_by report line.stamp line.marking ≡ true
        → blocks_text_at r number line
        ≡ block_text r report ++ (cut_report_line report.source report.begun ++ 10 ∷ [])
        ++ remark_text number (line_remark (ended_at r line) line) }
    // If another section begins before the last one has a type, the comment comes at the line that
    // begins the new section.
    ensures section { (r : Reporting) (report : OpenReport) (number severity next : ℕ)
        (stamp : Option ℕ) → r.work ≡ Some report → report.section ≡ Begun severity
        → blocks_text_at r number (record {
          stamp = stamp;
          marking = Own (record { report = report.number; line = Error next });
        }) ≡ cut_report_line report.source report.begun ++ 10 ∷ [] }
    // If no line ends the report, the comment comes after all lines.
    ensures open { (r : Reporting) (report : OpenReport) → r.work ≡ Some report
        → rest_text r ≡ cut_report_line report.source report.begun ++ 10 ∷ [] }
{}

/// The first line of a section, ` Error`, may get lost. The line that says the section's type ends
/// the section before it all the same, so the error of that section stays.
pub fn lost_lines_take_no_error()
    ensures memory { (r : Reporting) (report : OpenReport) (error : MemoryError)
        (stamp : Option ℕ) → r.work ≡ Some report → report.section ≡ Memory error
        → (reporting_after r (record {
          stamp = stamp;
          marking = Own (record { report = report.number; line = MemoryType });
        })).errors ≡ r.errors ++ error ∷ [] }
    ensures other { (r : Reporting) (report : OpenReport) (error : MemoryError) (stamp : Option ℕ)
        → r.work ≡ Some report → report.section ≡ Memory error
        → (reporting_after r (record {
          stamp = stamp;
          marking = Own (record { report = report.number; line = OtherType });
        })).errors ≡ r.errors ++ error ∷ [] }
{}
