//! A law: the printed lines are read back.

ghost use Rattle.std.specs.Prelude.{◌≡◌, ◌≤◌, List, length, map};
ghost use Rattle.std.specs.List.{AllByRecursion};
ghost use Rattle.ras_facts.specs.declared.bank.BankReport.{BankReport};
ghost use Rattle.ras_script.specs.Line.{line_of};
ghost use Rattle.ras_script.specs.LineLaws.{IsBankInRange};
ghost use Rattle.ras_script.specs.Splitting.{lines_of};
ghost use Rattle.ras_script.specs.declared.line.ErrorReport.TheVariants.{Bank};
ghost use Rattle.ras_script.specs.declared.line.Line.TheVariants.{Report};
ghost use Rattle.ras_script.specs.declared.reader.TheConstants.{LONGEST_LINE};
ghost use Rattle.bank_lines.specs.Finding.{IsFoundInRange, Numbered, reports_in};
ghost use Rattle.bank_lines.specs.Texts.{asks_in, asks_of, asking_line, found_lines, printed, printed_lines};

/// The printed text is read back as a script: the line of a report asks for that report, and every
/// other line is a comment. So the lines printed for all findings ask for exactly the whole
/// reports, in order. The body is empty: the clauses are the point.
pub fn printed_lines_are_read_back()
    ensures bank { (report : BankReport) → IsBankInRange report
        → line_of (asking_line report) ≡ Ok (Report (Bank report)) }
    ensures lines { (founds : List Numbered) → AllByRecursion IsFoundInRange founds
        → lines_of (printed founds) ≡ printed_lines founds }
    ensures each { (numbered : Numbered) → IsFoundInRange numbered
        → asks_in (found_lines numbered) ≡ asks_of numbered }
    ensures asks { (founds : List Numbered) → AllByRecursion IsFoundInRange founds
        → asks_in (lines_of (printed founds))
        ≡ map (λ (r : BankReport). Ok (Report (Bank r))) (reports_in founds) }
    ensures short { (founds : List Numbered) → AllByRecursion IsFoundInRange founds
        → AllByRecursion (λ line. length line ≤ LONGEST_LINE) (lines_of (printed founds)) }
{}
