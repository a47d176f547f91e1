//! Repeated reports, for which only a line is printed.

ghost use Rattle.std.specs.Prelude.{◌≡◌, IfNone, IfSome, IsSome};
ghost use Rattle.ras_facts.specs.declared.bank.BankReport.{BankReport};
ghost use Rattle.ras_script.specs.declared.line.ErrorReport.TheVariants as ErrorReportFor;
ghost use Rattle.ras_script.specs.declared.line.Line.TheVariants as LineFor;
ghost use Rattle.ras_texts.specs.Text.{known_line};
ghost use Rattle.ras_events.specs.Repeats.{IsKnownBank, IsRepeat};

use crate::Settings;
use ras_account::Account;
use ras_facts::{BankReport, Name, name_of_bank};
use ras_script::{ErrorReport, Line};

impl Settings {
    /// Returns the name in the line that is printed for a machine-check report, if the name is
    /// already counted or of a retired boot. `None` for every other line, although that line too
    /// may report nothing new.
    ///
    /// Most reports of a failing module are repeats, so the caller checks this before the line's
    /// event is built. Allocates nothing.
    pub fn repeat_of(&self, line: &Line, account: &Account) -> Option<Name>
        ensures repeats { IfSome result (λ name. IsRepeat account.now.state self.now line.now
            (known_line account.now.state name)) }
        ensures known { IsKnownBank account.now.state self.now line.now → IsSome result }
    {
        let bank = bank_in(line)?;
        let name = name_of_bank(*bank)?;
        if !account.knows(&name) {
            return None;
        }
        // The topology's invariant gives the clause above that the report's fact is valid.
        self.topology.invariant();
        Some(name)
    }
}

// Returns the machine-check report of a line, if the line is one.
fn bank_in(line: &Line) -> Option<&BankReport>
    ensures bank { IfSome result (λ bank.
        line.now ≡ LineFor.Report (ErrorReportFor.Bank bank.now)) }
    ensures none { IfNone result ((bank : BankReport)
        → line.now ≡ LineFor.Report (ErrorReportFor.Bank bank) → ⊥) }
{
    match line {
        Line::Report(ErrorReport::Bank(bank)) => Some(bank),
        _ => None,
    }
}
