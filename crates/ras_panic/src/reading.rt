//! Reports in panic records.

ghost use Rattle.std.specs.Prelude.{◌≡◌, ◌≤◌, ◌==◌, length, drop};
ghost use Rattle.std.specs.List.{list_all};
ghost use Rattle.std.specs.Str.{bytes_eq};
ghost use Rattle.cper_sections.specs.Guids.{guid_of, x64_guid};
ghost use Rattle.ras_panic.specs.Panics.{report_type};
ghost use Rattle.ras_panic.specs.Reading.{report_in, is_report, is_panic, panic_report};

use crate::making::{REPORT_LENGTH, REPORT_TYPE, X64_TYPE, saved_bytes};
use cper_records::Record;
use cper_sections::guid_at;
use mca_status::Status;
use ras_base::little_endian::{u16_at, u64_at};
use ras_facts::BankReport;
use uuid::Uuid;

/// Returns the report in a panic record. Allocates nothing.
///
/// It is `Some` if and only if the record has two sections: first a report of 72 bytes whose last
/// five are 0 and whose VAL is 1, then an IA32/X64 section with the registers of that report and
/// nothing else. It is `None` for every other record.
#[tactic(auto, unfolding(crate::specs::Reading::is_panic))]
pub fn panic_of(rec: &Record<'_>) -> Option<BankReport>
    ensures { result ≡ panic_report rec.now }
{
    if rec.count() != 2 {
        return None;
    }
    let first = rec.section(0);
    let second = rec.section(1);
    if !is_report_type(first.guid) || !is_report(first.bytes) {
        return None;
    }
    let report = report_in(first.bytes);
    let is_saved = is_x64(second.guid) && second.bytes == saved_bytes(&report).as_slice();
    is_saved.then_some(report)
}

// Returns whether a section's type is the type of reports.
#[tactic(auto, unfolding(crate::specs::Panics::report_type))]
fn is_report_type(guid: Uuid) -> bool
    ensures { result ≡ bytes_eq guid (guid_of report_type) }
{
    guid == guid_at(&REPORT_TYPE)
}

// Returns whether a section's type is the type of IA32/X64 sections.
#[tactic(auto, unfolding(cper_sections::specs::Guids::x64_guid))]
fn is_x64(guid: Uuid) -> bool
    ensures { result ≡ bytes_eq guid x64_guid }
{
    guid == guid_at(&X64_TYPE)
}

// Returns whether a section is a report of an error.
#[tactic(auto, using(crate::proofs::ReadingLemmas::rest_of_report))]
fn is_report(bytes: &[u8]) -> bool
    ensures { result ≡ is_report bytes.now }
{
    if bytes.len() != REPORT_LENGTH {
        return false;
    }
    are_zeros(&bytes[67..]) && Status(report_in(bytes).status).is_valid()
}

// Returns whether all bytes are 0.
fn are_zeros(bytes: &[u8]) -> bool
    ensures { result ≡ list_all (λ byte. byte == 0) bytes.now }
{
    bytes.iter().all(|byte| *byte == 0)
}

// Returns the report in a section.
fn report_in(bytes: &[u8]) -> BankReport
    requires { REPORT_LENGTH ≤ length bytes.now }
    ensures { result ≡ report_in bytes.now }
{
    BankReport {
        boot: u64_at(bytes, 0),
        seconds: u64_at(bytes, 8),
        tsc: u64_at(bytes, 16),
        cap: u64_at(bytes, 24),
        mcg: u64_at(bytes, 32),
        status: u64_at(bytes, 40),
        addr: u64_at(bytes, 48),
        misc: u64_at(bytes, 56),
        cpu: u16_at(bytes, 64),
        bank: bytes[66],
    }
}
