//! What a log leaves to a trace that the same run gets.

ghost use Rattle.std.specs.Prelude.{◌≡◌, ◌++◌, OnOk};
ghost use Rattle.log_lines.specs.Borders.{check_said, has_made_counter, is_behind, leaves_check};

use crate::comments::push_about;
use bank_lines::{Finding, marked_stamp, push_found};
use ras_base::NoMemory;
use ras_facts::BankReport;

/// The least counter that isn't a processor's own: a counter made of a second since 2001 and of
/// registers is above it, and a processor of 3 GHz counts ten years up to it.
pub const LEAST_MADE: u64 = 1_000_000_000_000_000_000;

/// From when on a trace that the same run gets has what the log of a boot has too. Both are time
/// stamps, in microseconds since the boot. `None`: the trace never has it, or there is no trace.
#[derive(Clone, Copy, Debug, PartialEq, Eq)]
pub struct Borders {
    /// From when on the trace has machine checks.
    pub checks: Option<u64>,
    /// From when on the trace has the firmware's memory errors.
    pub reports: Option<u64>,
}

// Appends what is printed of what is found in a line of this number, beside a trace that has machine
// checks from this time stamp on.
pub(crate) fn push_check(
    said: &mut Vec<u8>,
    found: &Finding,
    border: Option<u64>,
    number: u64,
    line: &[u8],
) -> Result<(), NoMemory>
    ensures { OnOk result
        (said.new.items ≡ said.old.items ++ check_said border number line.now found.now) }
{
    if leaves_check(border, line, found) {
        push_about(said, b"# torn ", number)
    } else {
        push_found(said, found, number)
    }
}

// Returns whether a trace has a machine check under another name, and whole, that lost its address
// in the log.
fn leaves_check(border: Option<u64>, line: &[u8], found: &Finding) -> bool
    ensures leaves { result ≡ leaves_check border line.now found.now }
{
    match found {
        Finding::Torn(report) => {
            is_behind(border, marked_stamp(line)) && has_made_counter(report)
        }
        _ => false,
    }
}

// Returns whether a report's counter is made of its second and its registers.
fn has_made_counter(report: &BankReport) -> bool
    ensures made { result ≡ has_made_counter report.now }
{
    LEAST_MADE <= report.tsc
}

// Whether a time stamp stands at a border or behind it.
fn is_behind(border: Option<u64>, stamp: Option<u64>) -> bool
    ensures { result ≡ is_behind border stamp }
{
    match (border, stamp) {
        (Some(border), Some(stamp)) => border <= stamp,
        _ => false,
    }
}
