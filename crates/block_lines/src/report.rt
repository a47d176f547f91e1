//! A report while its lines are read.

ghost use Rattle.std.specs.Prelude.{◌≡◌, ◌+◌, length, nat_lt};
ghost use Rattle.block_lines.specs.Reports.{begun_remark, field_remark, ends_early, is_ended_by};
ghost use Rattle.block_lines.specs.Reports.{is_late, is_start, left_to_trace, remark_in, report_after, report_from};
ghost use Rattle.block_lines.specs.Reports.{section_after, section_errors, section_with, severity_after};
ghost use Rattle.block_lines.specs.Reports.{type_remark, typed_section, typed_severity};

use crate::log_line::Marking;
use crate::memory::{MemoryError, MemoryField};
use crate::report_line::ReportLine;

/// The most errors of a report that are stored, so that its line isn't longer than what a pipe
/// writes as a whole.
pub const MOST_ERRORS: usize = 12;

// The severity of errors by which the kernel crashes.
const FATAL: u32 = 1;

/// The most microseconds by which any other line may follow a line of the open report.
pub const LONGEST_PAUSE: u64 = 100_000;

/// How far the current section has been read.
#[derive(Clone, Copy, Debug, PartialEq, Eq)]
pub(crate) enum OpenSection {
    // No section began.
    Absent,
    // An error of this severity, whose section's type isn't known yet.
    Begun { severity: u32 },
    // A section about memory.
    Memory(MemoryError),
    // A section that no block gets.
    LeftOut,
}

/// A report that is being read: its number, its source, the time stamps of its first and its latest
/// line, its severity, and its last section.
#[derive(Clone, Copy, Debug, PartialEq, Eq)]
pub(crate) struct OpenReport {
    pub(crate) number: u64,
    pub(crate) source: u16,
    pub(crate) begun: u64,
    pub(crate) last: u64,
    pub(crate) severity: u32,
    pub(crate) section: OpenSection,
}

/// What is printed about a line.
#[derive(Clone, Copy, Debug, PartialEq, Eq)]
pub(crate) enum Remark {
    // Nothing.
    Nothing,
    // The line can't be read, or is in no report.
    Unread,
    // The line belongs to a section that no block gets.
    LeftOut,
    // The report with this source and this time stamp is cut.
    Partial { source: u16, begun: u64 },
}

impl OpenReport {
    // Returns a report that begins.
    pub(crate) fn new(number: u64, source: u16, stamp: u64) -> OpenReport
        ensures { result ≡ report_from number source stamp }
    {
        OpenReport {
            number,
            source,
            begun: stamp,
            last: stamp,
            severity: 3,
            section: OpenSection::Absent,
        }
    }

    // Returns the report after one of its lines, with this time stamp, if `count` of its errors
    // ended before.
    pub(crate) fn after(self, count: usize, stamp: Option<u64>, line: ReportLine) -> OpenReport
        ensures { result ≡ report_after count self stamp line }
    {
        OpenReport {
            last: stamp.unwrap_or(self.last),
            severity: severity_after(self.severity, line),
            section: self.section.after(count, self.severity, line),
            ..self
        }
    }

    // Returns whether a line with this time stamp, of a report or not, ends the report.
    pub(crate) fn is_ended_by(&self, stamp: Option<u64>, marking: Marking) -> bool
        ensures { result ≡ is_ended_by self.now stamp marking }
    {
        match marking {
            Marking::Own(own) => own.report != self.number || is_start(own.line),
            Marking::Unmarked | Marking::Foreign => self.is_late(stamp),
        }
    }

    // Returns whether another line comes too late to be among the report's lines.
    fn is_late(&self, stamp: Option<u64>) -> bool
        ensures { result ≡ is_late self.now stamp }
    {
        match stamp {
            None => false,
            Some(stamp) => LONGEST_PAUSE < stamp.saturating_sub(self.last),
        }
    }

    // Returns whether a trace that has the firmware's memory errors from this time stamp on has the
    // report too. A trace gets no report by which the kernel crashes.
    pub(crate) fn is_left_to_trace(&self, border: Option<u64>) -> bool
        ensures left { result ≡ left_to_trace border self.now }
    {
        match border {
            Some(border) => border <= self.begun && self.severity != FATAL,
            None => false,
        }
    }

    // Returns what is printed about a line of the report, if `count` of its errors ended before.
    pub(crate) fn remark(&self, count: usize, line: ReportLine) -> Remark
        ensures { result ≡ remark_in count self.now line }
    {
        match line {
            ReportLine::Error { .. } => begun_remark(self.source, self.begun, self.section),
            ReportLine::MemoryType => self.section.type_remark(count),
            ReportLine::OtherType => Remark::LeftOut,
            ReportLine::Field(None) => self.section.field_remark(),
            ReportLine::Unread => Remark::Unread,
            _ => Remark::Nothing,
        }
    }
}

// Returns what is printed about a line that begins a section after this one.
fn begun_remark(source: u16, begun: u64, section: OpenSection) -> Remark
    ensures { result ≡ begun_remark source begun section }
{
    match section {
        OpenSection::Begun { .. } => Remark::Partial { source, begun },
        _ => Remark::Nothing,
    }
}

// Returns the severity of a report after one of its lines.
fn severity_after(severity: u32, line: ReportLine) -> u32
    ensures { result ≡ severity_after severity line }
{
    match line {
        ReportLine::Event { severity } => severity,
        _ => severity,
    }
}

// Returns whether a line begins a report.
fn is_start(line: ReportLine) -> bool
    ensures { result ≡ is_start line }
{
    matches!(line, ReportLine::Start { .. })
}

impl OpenSection {
    // Returns the section after a line of its report, which has this severity, if `count` of the
    // report's errors ended before.
    fn after(self, count: usize, severity: u32, line: ReportLine) -> OpenSection
        ensures { result ≡ section_after count severity self line }
    {
        match line {
            ReportLine::Error { severity } => OpenSection::Begun { severity },
            ReportLine::MemoryType => self.typed(count, severity),
            ReportLine::OtherType => OpenSection::LeftOut,
            ReportLine::Field(Some(field)) => self.with(field),
            _ => self,
        }
    }

    // Returns the section about memory that begins after this one, or here if this one has no type
    // yet, in a report of this severity.
    fn typed(self, count: usize, severity: u32) -> OpenSection
        ensures { result ≡ typed_section count severity self }
    {
        if self.has_room(count) {
            OpenSection::Memory(MemoryError::blank(self.typed_severity(severity)))
        } else {
            OpenSection::LeftOut
        }
    }

    // Returns whether the report stores one more error after this section and `count` errors.
    fn has_room(&self, count: usize) -> bool
        ensures { result ≡ nat_lt (count + length (section_errors self.now)) MOST_ERRORS }
    {
        match *self {
            OpenSection::Memory(_) => count < MOST_ERRORS - 1,
            _ => count < MOST_ERRORS,
        }
    }

    // Returns the severity of the section whose type comes now, in a report of this severity.
    fn typed_severity(&self, severity: u32) -> u32
        ensures { result ≡ typed_severity severity self.now }
    {
        match *self {
            OpenSection::Begun { severity } => severity,
            _ => severity,
        }
    }

    // Returns the section with a field.
    fn with(self, field: MemoryField) -> OpenSection
        ensures { result ≡ section_with self field }
    {
        match self {
            OpenSection::Memory(error) => OpenSection::Memory(error.with(field)),
            _ => self,
        }
    }

    // Returns whether the section ends before its type is known, or no section began.
    pub(crate) fn ends_early(&self) -> bool
        ensures { result ≡ ends_early self.now }
    {
        matches!(*self, OpenSection::Absent | OpenSection::Begun { .. })
    }

    // Returns what is printed about a line that says that the section is about memory.
    fn type_remark(&self, count: usize) -> Remark
        ensures { result ≡ type_remark count self.now }
    {
        match *self {
            OpenSection::Begun { .. } if count < MOST_ERRORS => Remark::Nothing,
            OpenSection::Begun { .. } => Remark::LeftOut,
            _ => Remark::Unread,
        }
    }

    // Returns what is printed about a field that can't be read.
    fn field_remark(&self) -> Remark
        ensures { result ≡ field_remark self.now }
    {
        match *self {
            OpenSection::Memory(_) => Remark::Unread,
            _ => Remark::Nothing,
        }
    }
}
