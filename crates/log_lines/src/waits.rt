//! Which machine checks wait for the name of a DIMM.

ghost use Rattle.std.specs.Prelude.{◌≡◌};
ghost use Rattle.log_lines.specs.Waits.{has_address, waits};

use bank_lines::Finding;
use ras_facts::BankReport;

// Returns whether a finding is a whole report with an address.
pub(crate) fn waits(found: &Finding) -> bool
    ensures { result ≡ waits found.now }
{
    match found {
        Finding::Whole(report) => has_address(report),
        _ => false,
    }
}

// Returns whether a report's status says that the address is valid.
fn has_address(report: &BankReport) -> bool
    ensures { result ≡ has_address report.now }
{
    report.status / (1 << 58) % 2 == 1
}
