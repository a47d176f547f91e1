//! What a filter finds in its input.

ghost use Rattle.std.specs.Prelude.{◌≡◌, true};
ghost use Rattle.bank_lines.specs.Finding.{found_of, held, lacks_address, log_found_of};
ghost use Rattle.bank_lines.specs.Finding.{torn_or_whole, without_address};

use mca_status::Status;
use ras_facts::BankReport;

/// The bank of the machine checks that Linux makes up from the memory errors that the firmware
/// reports.
pub const FIRMWARE_BANK: u8 = 255;

// ADDRV of IA32_MCi_STATUS.
const ADDRESS_VALID: u64 = 1 << 58;

/// What a filter finds in its input.
#[derive(Clone, Copy, Debug, PartialEq, Eq)]
pub enum Finding {
    /// No machine check, or a report of a bank that holds no error.
    Nothing,
    /// A whole report of an Intel processor's bank, which holds an error (VAL is 1).
    Whole(BankReport),
    /// A whole report of a log that lacks the address that its status announces: here ADDRV is 0.
    Torn(BankReport),
    /// A whole report of an error without a counter, whose key is new and has no room to be
    /// counted: further errors with this key get the same name.
    Full(BankReport),
    /// A report that began and isn't whole.
    Partial { cpu: u16, bank: u8 },
    /// A report of another vendor's processor, by the kernel's number of the vendor: 0 is Intel.
    Foreign { vendor: u64, cpu: u16, bank: u8 },
    /// A report that Linux makes up from a memory error that the firmware reports.
    Firmware { cpu: u16 },
    /// A line that has the prefix or the event name of a machine check, and can't be read as one.
    Unread,
}

impl Finding {
    /// Returns the finding of a whole report of an Intel processor: nothing if its bank holds no
    /// error.
    pub fn of_report(report: BankReport) -> Finding
        ensures { result ≡ found_of report }
    {
        held(&report, Finding::Whole(report))
    }

    /// Returns the finding of a whole report of a log, which may lack its address.
    pub fn of_log_report(report: BankReport) -> Finding
        ensures { result ≡ log_found_of report }
    {
        held(&report, torn_or_whole(report))
    }
}

// Returns `found` if the report's bank holds an error, nothing if it holds none, and `Firmware` for
// an error that the firmware reported.
fn held(report: &BankReport, found: Finding) -> Finding
    ensures { result ≡ held report.now found }
{
    if !Status(report.status).is_valid() {
        return Finding::Nothing;
    }
    if report.bank == FIRMWARE_BANK {
        return Finding::Firmware { cpu: report.cpu };
    }
    found
}

// Returns the finding of a report, without the address that it lacks.
fn torn_or_whole(report: BankReport) -> Finding
    ensures { result ≡ torn_or_whole report }
{
    if lacks_address(&report) {
        Finding::Torn(without_address(report))
    } else {
        Finding::Whole(report)
    }
}

// Returns whether a report's status says that there is an address, and no address came.
fn lacks_address(report: &BankReport) -> bool
    ensures { result ≡ lacks_address report.now }
{
    Status(report.status).is_address_valid() && report.addr == 0
}

// Returns a report with ADDRV 0.
fn without_address(report: BankReport) -> BankReport
    requires { lacks_address report ≡ true }
    ensures { result ≡ without_address report }
{
    BankReport {
        status: report.status - ADDRESS_VALID,
        ..report
    }
}
