//! The open report, its errors, and the sources seen so far.

ghost use Rattle.std.specs.Prelude.{◌≡◌, ◌+◌, ◌/◌, ◌≤◌, [], ◌∷◌, ◌++◌, length, Some, OnErr, OnOk};
ghost use Rattle.bank_lines.specs.declared.log_line.TheConstants.{LAST_SECOND, MICROSECONDS};
ghost use Rattle.block_lines.specs.Reports.{after_report, begun_at, begun_work, errors_after};
ghost use Rattle.block_lines.specs.Reports.{going_remark, gone_on, has_error, is_end, line_remark};
ghost use Rattle.block_lines.specs.Reports.{line_taken, no_reports, own_remark, own_taken};
ghost use Rattle.block_lines.specs.Reports.{reporting_after, start_remark, with_source};
ghost use Rattle.block_lines.specs.Reports.{without_sources};
ghost use Rattle.block_lines.specs.Texts.{block_text, blocks_text_beside, cut_report_line, cut_text};
ghost use Rattle.block_lines.specs.Texts.{end_text_beside, ghes_line, report_text_beside, rest_text};
ghost use Rattle.block_lines.specs.Texts.{source_block_text, table_text};

use crate::blocks::{ONE_ERROR_BYTES, push_block};
use crate::log_line::{Marking, ReportLogLine};
use crate::memory::MemoryError;
use crate::report::{OpenReport, OpenSection, Remark};
use crate::report_line::ReportLine;
use crate::sources::{MOST_SOURCES, keep_source, table_with};
use crate::text::{BlockName, push_ghes, push_partial, push_remark, push_table};
use bank_lines::MICROSECONDS;
use ras_base::NoMemory;
use std::alloc::Global;
use std::marker::Model;

// The reports in the log of a boot: the open report, its errors whose sections ended, and the
// sources of the table printed last. It stores at most 12 errors and 28 sources.
#[derive(Drop)]
pub(crate) struct Reports {
    boot: u64,
    began: u64,
    work: Option<OpenReport>,
    errors: Vec<MemoryError>,
    sources: Vec<u16>,
}

impl Model for Reports {
    ghost use Rattle.block_lines.specs.Reports.{Reporting, IsReporting};

    ghost Value = { Reporting };

    ghost view = { λ r. record {
      boot = r.boot;
      began = r.began;
      work = r.work;
      errors = r.errors.items;
      sources = r.sources.items;
    } };

    ghost invariant = { λ r. IsReporting (record {
      boot = r.boot;
      began = r.began;
      work = r.work;
      errors = r.errors.items;
      sources = r.sources.items;
    }) };
}

impl Reports {
    // Returns the state before the first line of the log of a boot that began at this second.
    pub(crate) fn new(alloc: Global, boot: u64, began: u64) -> Reports
        requires { began ≤ LAST_SECOND }
        ensures { result ≡ no_reports boot began }
    {
        Reports {
            boot,
            began,
            work: None,
            errors: Vec::new(alloc),
            sources: Vec::new(alloc),
        }
    }

    // Forgets the sources of the last table: the next block brings a table of its own.
    pub(crate) fn forget_sources(&mut self)
        ensures { self.new ≡ without_sources self.old }
    {
        self.sources.clear();
    }

    // Takes a line, and appends the text of the report that the line ends, and the text about the
    // line itself, beside a trace that has the firmware's memory errors from this time stamp on, or
    // never.
    pub(crate) fn take_line(
        &mut self,
        alloc: Global,
        line: &ReportLogLine,
        number: u64,
        border: Option<u64>,
        text: &mut Vec<u8>,
    ) -> Result<(), NoMemory>
        ensures text { OnOk result (text.new.items
            ≡ text.old.items ++ blocks_text_beside border self.old number line.now) }
        ensures state { OnOk result (self.new ≡ reporting_after self.old line.now) }
    {
        if self.is_end(line) {
            self.push_end(alloc, border, text)?;
            self.end()?;
        }
        let remark = self.remark(line);
        self.take(line)?;
        push_remark(text, remark, number)
    }

    // Takes a block of any source that no line of a report gives, and appends its line.
    pub(crate) fn take_block(
        &mut self,
        alloc: Global,
        source: u16,
        number: u64,
        block: &[u8],
        text: &mut Vec<u8>,
    ) -> Result<(), NoMemory>
        ensures text { OnOk result (text.new.items
            ≡ text.old.items ++ source_block_text self.old source number block.now) }
        ensures state { OnOk result (self.new ≡ with_source self.old source) }
    {
        self.push_source(alloc, source, text)?;
        push_ghes(alloc, text, self.block_name(source, number), block)?;
        keep_source(&mut self.sources, source)
    }

    // Returns whether a line ends the open report.
    fn is_end(&self, line: &ReportLogLine) -> bool
        ensures { result ≡ is_end self.now line.now }
    {
        match self.work {
            Some(report) => report.is_ended_by(line.stamp, line.marking),
            None => false,
        }
    }

    // Returns what is printed about a line that ends no report.
    fn remark(&self, line: &ReportLogLine) -> Remark
        ensures { result ≡ line_remark self.now line.now }
    {
        match line.marking {
            Marking::Own(own) => self.own_remark(line.stamp, own.line),
            Marking::Foreign => Remark::Unread,
            Marking::Unmarked => Remark::Nothing,
        }
    }

    // Returns what is printed about a line that the kernel itself printed.
    fn own_remark(&self, stamp: Option<u64>, line: ReportLine) -> Remark
        ensures { result ≡ own_remark self.now stamp line }
    {
        match line {
            ReportLine::Start { .. } => start_remark(stamp),
            _ => self.going_remark(line),
        }
    }

    // Returns what is printed about a line that begins no report.
    fn going_remark(&self, line: ReportLine) -> Remark
        ensures { result ≡ going_remark (length self.now.errors) self.now.work line }
    {
        match self.work {
            Some(report) => report.remark(self.errors.len(), line),
            None => Remark::Unread,
        }
    }

    // Takes a line that ends no report.
    fn take(&mut self, line: &ReportLogLine) -> Result<(), NoMemory>
        ensures { OnOk result (self.new ≡ line_taken self.old line.now) }
    {
        match line.marking {
            Marking::Own(own) => self.take_own(own.report, line.stamp, own.line),
            Marking::Unmarked | Marking::Foreign => Ok(()),
        }
    }

    // Takes a line that the kernel itself printed.
    fn take_own(
        &mut self,
        number: u64,
        stamp: Option<u64>,
        line: ReportLine,
    ) -> Result<(), NoMemory>
        ensures { OnOk result (self.new ≡ own_taken self.old number stamp line) }
    {
        match line {
            ReportLine::Start { source } => {
                self.begin(number, source, stamp);
                Ok(())
            }
            _ => self.go_on(stamp, line),
        }
    }

    // Begins a report, if its line has a time stamp.
    fn begin(&mut self, number: u64, source: u16, stamp: Option<u64>)
        ensures { self.new ≡ begun_at self.old number source stamp }
    {
        self.errors.clear();
        self.work = begun_work(number, source, stamp);
    }

    // Takes a line that begins no report.
    fn go_on(&mut self, stamp: Option<u64>, line: ReportLine) -> Result<(), NoMemory>
        ensures { OnOk result (self.new ≡ gone_on self.old self.old.work stamp line) }
    {
        let Some(report) = self.work else {
            return Ok(());
        };
        let after = report.after(self.errors.len(), stamp, line);
        push_ended(&mut self.errors, report.section, line)?;
        self.work = Some(after);
        Ok(())
    }

    // Ends the open report.
    fn end(&mut self) -> Result<(), NoMemory>
        ensures { OnOk result (self.new ≡ after_report self.old self.old.work) }
    {
        let Some(report) = self.work else {
            return Ok(());
        };
        if self.has_error(&report) {
            keep_source(&mut self.sources, report.source)?;
        }
        self.errors.clear();
        self.work = None;
        Ok(())
    }

    // Appends the comment that the open report, if there is one, may lack lines.
    pub(crate) fn push_rest(&self, text: &mut Vec<u8>) -> Result<(), NoMemory>
        ensures { OnOk result (text.new.items ≡ text.old.items ++ rest_text self.now) }
    {
        match self.work {
            Some(report) => push_cut(text, report),
            None => Ok(()),
        }
    }

    // Appends the text of the open report, which ends, beside a trace.
    fn push_end(
        &self,
        alloc: Global,
        border: Option<u64>,
        text: &mut Vec<u8>,
    ) -> Result<(), NoMemory>
        ensures { OnOk result (text.new.items
            ≡ text.old.items ++ end_text_beside border self.now) }
    {
        match self.work {
            Some(report) => self.push_report(alloc, border, &report, text),
            None => Ok(()),
        }
    }

    // Returns whether the open report has an error.
    fn has_error(&self, report: &OpenReport) -> bool
        ensures { result ≡ has_error self.now.errors report.now.section }
    {
        matches!(report.section, OpenSection::Memory(_)) || !self.errors.is_empty()
    }

    // Appends the text of the open report, beside a trace.
    fn push_report(
        &self,
        alloc: Global,
        border: Option<u64>,
        report: &OpenReport,
        text: &mut Vec<u8>,
    ) -> Result<(), NoMemory>
        requires { self.now.work ≡ Some report.now }
        ensures { OnOk result (text.new.items
            ≡ text.old.items ++ report_text_beside border self.now report.now) }
    {
        if report.is_left_to_trace(border) {
            return push_early_end(text, report);
        }
        self.push_errors(alloc, report, text)?;
        push_early_end(text, report)
    }

    // Appends the block of the open report, if it has errors, after its table if one is due.
    fn push_errors(
        &self,
        alloc: Global,
        report: &OpenReport,
        text: &mut Vec<u8>,
    ) -> Result<(), NoMemory>
        requires { self.now.work ≡ Some report.now }
        ensures { OnOk result (text.new.items ≡ text.old.items ++ block_text self.now report.now) }
    {
        if self.has_error(report) {
            self.push_source(alloc, report.source, text)?;
            self.push_block(alloc, report, text)?;
        }
        Ok(())
    }

    // Appends the line of a table, if the last table doesn't have this source.
    fn push_source(&self, alloc: Global, source: u16, text: &mut Vec<u8>) -> Result<(), NoMemory>
        ensures { OnOk result (text.new.items
            ≡ text.old.items ++ table_text self.now.sources source) }
    {
        if self.sources.contains(&source) {
            return Ok(());
        }
        let kept = if self.sources.len() < MOST_SOURCES {
            self.sources.as_slice()
        } else {
            &[]
        };
        let table = table_with(alloc, kept, source)?;
        push_table(alloc, text, &table)
    }

    // Appends the line of the open report's block.
    fn push_block(
        &self,
        alloc: Global,
        report: &OpenReport,
        text: &mut Vec<u8>,
    ) -> Result<(), NoMemory>
        requires { self.now.work ≡ Some report.now }
        ensures { OnOk result (text.new.items
            ≡ text.old.items ++ ghes_line self.now report.now ++ 10 ∷ []) }
    {
        let mut block = Vec::with_capacity(alloc, ONE_ERROR_BYTES)?;
        push_block(&mut block, report.severity, &self.errors, report.section)?;
        push_ghes(
            alloc,
            text,
            self.block_name(report.source, report.begun),
            &block,
        )
    }

    // Returns the name of a block, whose number is its time stamp, and its time.
    fn block_name(&self, source: u16, number: u64) -> BlockName
        ensures { result ≡ record {
          boot = self.now.boot;
          seconds = self.now.began + number / MICROSECONDS;
          source = source;
          number = number;
        } }
    {
        BlockName {
            boot: self.boot,
            seconds: self.began + number / MICROSECONDS,
            source,
            number,
        }
    }
}

// Appends the comment that a report is cut, if it ends before the type of its last section.
fn push_early_end(text: &mut Vec<u8>, report: &OpenReport) -> Result<(), NoMemory>
    ensures { OnOk result (text.new.items ≡ text.old.items ++ cut_text report.now) }
{
    if report.section.ends_early() {
        push_cut(text, *report)
    } else {
        Ok(())
    }
}

// Appends the comment of a report that is cut, and a line feed.
fn push_cut(text: &mut Vec<u8>, report: OpenReport) -> Result<(), NoMemory>
    ensures { OnOk result (text.new.items
        ≡ text.old.items ++ cut_report_line report.source report.begun ++ 10 ∷ []) }
{
    push_partial(text, report.source, report.begun)?;
    text.push(b'\n')?;
    Ok(())
}

// Returns what is printed about a line that begins a report.
fn start_remark(stamp: Option<u64>) -> Remark
    ensures { result ≡ start_remark stamp }
{
    match stamp {
        Some(_) => Remark::Nothing,
        None => Remark::Unread,
    }
}

// Returns a report that begins, if its line has a time stamp.
fn begun_work(number: u64, source: u16, stamp: Option<u64>) -> Option<OpenReport>
    ensures { result ≡ begun_work number source stamp }
{
    match stamp {
        Some(stamp) => Some(OpenReport::new(number, source, stamp)),
        None => None,
    }
}

// Appends the error of a section, if a line ends the section.
fn push_ended(
    errors: &mut Vec<MemoryError>,
    section: OpenSection,
    line: ReportLine,
) -> Result<(), NoMemory>
    ensures ok { OnOk result (errors.new.items ≡ errors_after errors.old.items section line) }
    ensures err { OnErr result (errors.new.items ≡ errors.old.items) }
{
    match (line, section) {
        (
            ReportLine::Error { .. } | ReportLine::MemoryType | ReportLine::OtherType,
            OpenSection::Memory(error),
        ) => {
            errors.push(error)?;
            Ok(())
        }
        _ => Ok(()),
    }
}
