//! All that the kernel's trace has, as lines of script.

ghost use Rattle.std.specs.Prelude.{◌≡◌, ◌+◌, ◌<◌, ◌≤◌, ◌++◌, codes, IfOk, OnOk};
ghost use Rattle.bank_lines.specs.LogHeads.{after, begins};
ghost use Rattle.bank_lines.specs.declared.log_line.TheConstants.{LAST_SECOND};
ghost use Rattle.line_filters.specs.declared.feeding.TheConstants.{MOST_INPUTS};
ghost use Rattle.ras_script.specs.Inputs.{line, long};
ghost use Rattle.log_lines.specs.TraceFeed.{finding_with_cap, gap_said, tells_lost, tells_missing};
ghost use Rattle.log_lines.specs.TraceFeed.{trace_after, trace_after_line, trace_feed, trace_feed_makes};
ghost use Rattle.log_lines.specs.TraceFeed.{trace_begun, trace_last, trace_said, trace_text, trace_waits};
ghost use Rattle.log_lines.specs.TraceFeed.{traced_after, traced_text, with_cap};

use crate::comments::{MOST_LAST, push_about, push_cut_off, push_fitted, push_limited};
use crate::waits::waits;
use bank_lines::{AlikeCounts, Finding, cut, push_found, trace_found, value_after};
use event_lines::{ReportFilter, is_extlog};
use ras_base::NoMemory;
use ras_facts::BankReport;
use std::alloc::Global;
use std::marker::Model;

/// Makes lines of script of all that the kernel's trace has, whatever its length.
///
/// A machine check becomes a line `bank`, and any other event of a hardware error a line `ghes`
/// right behind the table of its source. Whatever can't be read, what the kernel lost, lines and
/// texts that are too long, and bytes behind the last line feed become comments. A comment about a
/// line shows the beginning of the line. Nothing is refused.
#[derive(Drop)]
pub struct TraceFeed {
    boot: u64,
    cap: u64,
    drivers: bool,
    counts: AlikeCounts,
    reports: ReportFilter,
    taken: u64,
}

impl Model for TraceFeed {
    ghost use Rattle.log_lines.specs.TraceFeed.{TraceFeedState};

    ghost Value = { TraceFeedState };

    ghost view = { λ f. record {
      boot = f.boot;
      cap = f.cap;
      drivers = f.drivers;
      counts = f.counts;
      reports = f.reports.reports;
      taken = f.taken;
    } };
}

impl TraceFeed {
    /// Returns the filter before the first line of the trace of a boot. `boot` is the boot's number,
    /// `cap` the IA32_MCG_CAP of events that lack it, and `began` the second since 1970 at which the
    /// boot began. `drivers` says whether the memory errors of all EDAC drivers are read, and not
    /// only the firmware's. Requires `began` to be at most `LAST_SECOND`.
    pub fn new(alloc: Global, boot: u64, cap: u64, began: u64, drivers: bool) -> TraceFeed
        requires { began ≤ LAST_SECOND }
        ensures makes { trace_feed_makes result ≡ trace_feed boot cap began drivers }
        ensures begins { result ≡ trace_begun boot cap began drivers }
    {
        TraceFeed {
            boot,
            cap,
            drivers,
            counts: AlikeCounts::new(alloc),
            reports: ReportFilter::new(alloc, boot, began),
            taken: 0,
        }
    }

    // Takes a line, and appends what all readers say of it. Returns whether its machine check waits
    // for the name of a DIMM.
    fn push_said(
        &mut self,
        alloc: Global,
        line: &[u8],
        said: &mut Vec<u8>,
    ) -> Result<bool, NoMemory>
        requires { self.old.taken < MOST_INPUTS }
        ensures said { OnOk result
            (said.new.items ≡ said.old.items ++ trace_said self.old line.now) }
        ensures waits { IfOk result (λ waits. waits ≡ trace_waits self.old line.now) }
        ensures after { OnOk result (self.new ≡ trace_after_line self.old line.now) }
    {
        push_gap(said, line, self.taken + 1)?;
        let mut found = finding_with_cap(self.cap, trace_found(self.boot, line));
        self.counts.name(&mut found)?;
        push_found(said, &found, self.taken + 1)?;
        let waits = waits(&found);
        self.push_event(alloc, line, said)?;
        self.taken += 1;
        Ok(waits)
    }

    // Takes a line, and appends what is said of an event other than a machine check.
    fn push_event(&mut self, alloc: Global, line: &[u8], said: &mut Vec<u8>) -> Result<(), NoMemory>
        requires { self.old.taken < MOST_INPUTS }
        ensures said { OnOk result
            (said.new.items ≡ said.old.items ++ traced_text self.old line.now) }
        ensures after { OnOk result
            (self.new ≡ record self.old { reports = traced_after self.old line.now }) }
    {
        if is_extlog(line) {
            return push_about(said, b"# extlog ", self.taken + 1);
        }
        self.reports.begin_line(self.taken);
        self.reports.take_line(alloc, line, self.drivers, said)
    }

    // Takes a line, and appends its text. Returns whether its machine check waits for the name of a
    // DIMM.
    pub(crate) fn take_line(
        &mut self,
        alloc: Global,
        bytes: &[u8],
        text: &mut Vec<u8>,
    ) -> Result<bool, NoMemory>
        requires { self.old.taken < MOST_INPUTS }
        ensures text { OnOk result
            (text.new.items ≡ text.old.items ++ trace_text self.old (line bytes.now)) }
        ensures waits { IfOk result (λ waits. waits ≡ trace_waits self.old bytes.now) }
        ensures after { OnOk result (self.new ≡ trace_after self.old (line bytes.now)) }
    {
        let mut said = Vec::new(alloc);
        let waits = self.push_said(alloc, bytes, &mut said)?;
        push_fitted(alloc, text, &said, self.taken, bytes)?;
        Ok(waits)
    }

    // Takes what stands for a line that is too long, and appends its comment.
    pub(crate) fn take_long(&mut self, text: &mut Vec<u8>) -> Result<(), NoMemory>
        requires { self.old.taken < MOST_INPUTS }
        ensures text { OnOk result
            (text.new.items ≡ text.old.items ++ trace_text self.old long) }
        ensures after { OnOk result (self.new ≡ trace_after self.old long) }
    {
        self.taken += 1;
        push_about(text, b"# too long ", self.taken)
    }

    // Appends the text at the end.
    pub(crate) fn push_last(
        &self,
        alloc: Global,
        cut: bool,
        text: &mut Vec<u8>,
    ) -> Result<(), NoMemory>
        requires { self.now.taken < MOST_INPUTS }
        ensures { OnOk result (text.new.items ≡ text.old.items ++ trace_last self.now cut) }
    {
        let mut said = Vec::new(alloc);
        self.reports.push_open(&mut said)?;
        push_cut_off(&mut said, cut, self.taken + 1)?;
        push_limited(text, &said, MOST_LAST, self.taken + 1, &[])
    }

    // Returns whether the memory errors of all drivers are read.
    pub(crate) fn reads_drivers(&self) -> bool
        ensures { result ≡ self.now.drivers }
    {
        self.drivers
    }
}

// Appends a comment about a line of this number if it says that events are missing here.
fn push_gap(said: &mut Vec<u8>, line: &[u8], number: u64) -> Result<(), NoMemory>
    ensures { OnOk result (said.new.items ≡ said.old.items ++ gap_said number line.now) }
{
    if tells_lost(line) || tells_missing(line) {
        push_about(said, b"# gap ", number)
    } else {
        Ok(())
    }
}

// Whether a line stands for an event that is too long for the kernel, or for those after the script
// that keeps the trace was killed.
fn tells_missing(line: &[u8]) -> bool
    ensures { result ≡ tells_missing line.now }
{
    line.starts_with(b"[LINE TOO BIG]") || line.starts_with(b"# keep-trace was killed")
}

// Whether the kernel says in a line that it lost events.
fn tells_lost(line: &[u8]) -> bool
    ensures { result ≡ tells_lost line.now }
{
    match value_after(b"CPU:", line) {
        Some(rest) => is_lost(rest),
        None => false,
    }
}

// Whether `[LOST` follows a text's first space.
fn is_lost(text: &[u8]) -> bool
    ensures { result ≡ begins (after 32 text.now) (codes "[LOST") }
{
    let (_, rest) = cut(b' ', text);
    rest.starts_with(b"[LOST")
}

// What is found, with this IA32_MCG_CAP in a report that lacks it.
fn finding_with_cap(cap: u64, found: Finding) -> Finding
    ensures { result ≡ finding_with_cap cap found }
{
    match found {
        Finding::Whole(report) => Finding::Whole(with_cap(cap, report)),
        Finding::Torn(report) => Finding::Torn(with_cap(cap, report)),
        Finding::Full(report) => Finding::Full(with_cap(cap, report)),
        _ => found,
    }
}

// A report, with this IA32_MCG_CAP if it lacks it.
fn with_cap(cap: u64, report: BankReport) -> BankReport
    ensures { result ≡ with_cap cap report }
{
    if report.cap == 0 {
        BankReport { cap, ..report }
    } else {
        report
    }
}
