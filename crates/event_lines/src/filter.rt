//! The command `lines ghes` as a filter of lines.

ghost use Rattle.std.specs.Prelude.{◌≡◌, ◌<◌, ◌≤◌, ◌++◌, IfOk, OnErr, OnOk};
ghost use Rattle.std.specs.Option.{option_map};
ghost use Rattle.bank_lines.specs.declared.log_line.TheConstants.{LAST_SECOND};
ghost use Rattle.event_lines.specs.Driver.{any_event_of};
ghost use Rattle.event_lines.specs.Filter.{after_event, event_text, memory_event_text, report_filter};
ghost use Rattle.event_lines.specs.Filter.{after_by, event_text_by, reports_make, section_block_of};
ghost use Rattle.event_lines.specs.declared.traced.LineEvent.TheVariants.{Section};
ghost use Rattle.line_filters.specs.declared.feeding.TheConstants.{MOST_INPUTS};
ghost use Rattle.block_lines.specs.Reports.{no_reports, without_sources};
ghost use Rattle.block_lines.specs.Texts.{rest_text};

use crate::driver_event::any_event;
use crate::pcie_bytes::{PCIE_TYPE, push_pcie_section};
use crate::section_event::section_bytes;
use crate::traced::{FoundEvent, FoundMemory, FoundSection, LineEvent};
use apei_sources::read_block;
use block_lines::{BlockFilter, push_error_block, push_section_block};
use line_filters::LineFilter;
use ras_base::NoMemory;
use ras_script::LineRefused;
use std::alloc::Global;
use std::marker::Model;

/// The source of all blocks that are made of trace events. ACPI uses this number to say that there
/// is no source, so no source of the firmware has it.
pub const TRACE_SOURCE: u16 = 65_535;

/// Converts the lines of a kernel log and of a trace, in any order, to lines of script.
///
/// A line of a trace that has the event of a hardware error becomes a line `ghes` at once, after a
/// line `hest` if the last table lacks `TRACE_SOURCE`. If it can't be read, or has no time stamp, it
/// becomes a comment. Every other line is taken as a line of the log. No line is rejected.
#[derive(Drop)]
pub struct ReportFilter {
    log: BlockFilter,
}

impl Model for ReportFilter {
    ghost use Rattle.block_lines.specs.Filter.{BlockProgress};

    ghost Value = { BlockProgress };

    ghost view = { λ f. f.log };
}

impl ReportFilter {
    /// Returns the filter before the first line of the log and the trace of a boot. `boot` is the
    /// boot's number, and `began` the second since 1970 at which the boot began. Requires `began` to
    /// be at most `LAST_SECOND`.
    pub fn new(alloc: Global, boot: u64, began: u64) -> ReportFilter
        requires { began ≤ LAST_SECOND }
        ensures makes { reports_make result ≡ report_filter boot began }
        ensures begins { result ≡ record { reports = no_reports boot began; taken = 0 } }
        ensures taken { result.taken ≡ 0 }
    {
        ReportFilter {
            log: BlockFilter::new(alloc, boot, began),
        }
    }

    /// Forgets the last table, so that the next block brings a table of its own source, and goes on
    /// as after this many lines.
    pub fn begin_line(&mut self, taken: u64)
        ensures { self.new ≡ record { reports = without_sources self.old.reports; taken = taken } }
    {
        self.log.begin_line(taken);
    }

    /// Takes a line, and appends its text. `drivers` says whether every driver's event of a memory
    /// controller is a memory error, and not only the firmware's.
    ///
    /// # Errors
    ///
    /// `NoMemory`: only if memory runs out.
    pub fn take_line(
        &mut self,
        alloc: Global,
        line: &[u8],
        drivers: bool,
        text: &mut Vec<u8>,
    ) -> Result<(), NoMemory>
        requires { self.old.taken < MOST_INPUTS }
        ensures text { OnOk result (text.new.items
            ≡ text.old.items ++ event_text_by self.old line.now (any_event_of drivers line.now)) }
        ensures after { OnOk result
            (self.new ≡ after_by self.old line.now (any_event_of drivers line.now)) }
        ensures kept { OnErr result (self.new.taken ≡ self.old.taken) }
    {
        match any_event(line, drivers) {
            LineEvent::Absent => self.log.take_line(alloc, line, text),
            LineEvent::Unread => self.log.take_unread(text),
            LineEvent::Found(found) => self.take_event(alloc, found, text),
            LineEvent::Section(found) => self.take_section(alloc, found, line, text),
            LineEvent::Memory(found) => self.take_memory(alloc, found, text),
        }
    }

    // Takes a line with this event, and appends the line of the event's block.
    #[tactic(auto, using(crate::proofs::SectionLemmas::section_long))]
    fn take_event(
        &mut self,
        alloc: Global,
        found: FoundEvent,
        text: &mut Vec<u8>,
    ) -> Result<(), NoMemory>
        requires { self.old.taken < MOST_INPUTS }
        ensures text { OnOk result (text.new.items
            ≡ text.old.items ++ event_text self.old.reports found) }
        ensures after { OnOk result (self.new ≡ after_event self.old) }
        ensures kept { OnErr result (self.new.taken ≡ self.old.taken) }
    {
        let mut section = Vec::new(alloc);
        push_pcie_section(&mut section, found.event)?;
        let mut block = Vec::new(alloc);
        let severity = found.event.severity.number();
        push_section_block(&mut block, &PCIE_TYPE, severity, &section)?;
        self.log
            .take_block(alloc, TRACE_SOURCE, found.stamp, &block, text)
    }
}

impl ReportFilter {
    // Takes a line with this section's event, and appends the line of the section's block, or a
    // comment if the section can't be read.
    fn take_section(
        &mut self,
        alloc: Global,
        found: FoundSection,
        line: &[u8],
        text: &mut Vec<u8>,
    ) -> Result<(), NoMemory>
        requires { self.old.taken < MOST_INPUTS }
        ensures text { OnOk result (text.new.items
            ≡ text.old.items ++ event_text_by self.old line.now (Section found)) }
        ensures after { OnOk result (self.new ≡ after_by self.old line.now (Section found)) }
        ensures kept { OnErr result (self.new.taken ≡ self.old.taken) }
    {
        match section_block(alloc, found, line)? {
            Some(block) => self
                .log
                .take_block(alloc, TRACE_SOURCE, found.stamp, &block, text),
            None => self.log.take_unread(text),
        }
    }
}

impl ReportFilter {
    // Takes a line with this memory error, and appends the line of the error's block.
    fn take_memory(
        &mut self,
        alloc: Global,
        found: FoundMemory,
        text: &mut Vec<u8>,
    ) -> Result<(), NoMemory>
        requires { self.old.taken < MOST_INPUTS }
        ensures text { OnOk result (text.new.items
            ≡ text.old.items ++ memory_event_text self.old.reports found) }
        ensures after { OnOk result (self.new ≡ after_event self.old) }
        ensures kept { OnErr result (self.new.taken ≡ self.old.taken) }
    {
        let mut block = Vec::new(alloc);
        push_error_block(&mut block, found.error)?;
        self.log
            .take_block(alloc, TRACE_SOURCE, found.stamp, &block, text)
    }
}

// Returns the block of a section's event, if the section's bytes can be read, and a run can read
// the block: a run ends at a block whose section is invalid for its type.
fn section_block(
    alloc: Global,
    found: FoundSection,
    line: &[u8],
) -> Result<Option<Vec<u8>>, NoMemory>
    ensures { IfOk result (λ made. option_map (λ block. block.items) made
        ≡ section_block_of found line.now) }
{
    let Some(section) = section_bytes(alloc, found.head, line)? else {
        return Ok(None);
    };
    let mut block = Vec::new(alloc);
    push_section_block(&mut block, &found.head.kind, found.head.severity, &section)?;
    let is_read = read_block(&block).is_ok();
    Ok(if is_read { Some(block) } else { None })
}

impl ReportFilter {
    /// Appends the comment that the open report of the log, if there is one, may lack lines.
    ///
    /// # Errors
    ///
    /// `NoMemory`: only if memory runs out.
    pub fn push_open(&self, text: &mut Vec<u8>) -> Result<(), NoMemory>
        ensures { OnOk result (text.new.items ≡ text.old.items ++ rest_text self.now.reports) }
    {
        self.log.push_open(text)
    }
}

impl LineFilter for ReportFilter {
    ghost use Rattle.std.specs.Prelude.{refl};

    ghost makes = { λ f. reports_make f };

    ghost taken = { λ f. f.taken };

    ghost none = { λ _. refl };

    fn take(&mut self, alloc: Global, line: &[u8], text: &mut Vec<u8>) -> Result<(), LineRefused> {
        match self.take_line(alloc, line, false, text) {
            Ok(()) => Ok(()),
            Err(NoMemory) => Err(LineRefused::NoMemory),
        }
    }

    fn push_rest(&self, alloc: Global, text: &mut Vec<u8>) -> Result<(), NoMemory> {
        self.log.push_rest(alloc, text)
    }

    fn push_last(&self, alloc: Global, text: &mut Vec<u8>) -> Result<(), NoMemory> {
        self.log.push_last(alloc, text)
    }
}
