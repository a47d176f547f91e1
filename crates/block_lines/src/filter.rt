//! The command `lines ghes` as a filter of lines.

ghost use Rattle.std.specs.Prelude.{◌≡◌, ◌<◌, ◌≤◌, ◌+◌, ◌++◌, ◌∷◌, [], OnErr, OnOk};
ghost use Rattle.bank_lines.specs.declared.log_line.TheConstants.{LAST_SECOND};
ghost use Rattle.block_lines.specs.Filter.{blocks_make, progress_after};
ghost use Rattle.block_lines.specs.LogLines.{report_log_line};
ghost use Rattle.block_lines.specs.Reports.{no_reports, reporting_after, with_source};
ghost use Rattle.block_lines.specs.Reports.{without_sources};
ghost use Rattle.block_lines.specs.Texts.{blocks_text_at, blocks_text_beside, rest_text};
ghost use Rattle.block_lines.specs.Texts.{source_block_text};
ghost use Rattle.block_lines.specs.Texts.{unread_report_line};
ghost use Rattle.line_filters.specs.declared.feeding.TheConstants.{MOST_INPUTS};

use crate::log_line::log_line;
use crate::report::Remark;
use crate::reports::Reports;
use crate::text::push_remark;
use line_filters::LineFilter;
use ras_base::NoMemory;
use ras_script::LineRefused;
use std::alloc::Global;
use std::marker::Model;

/// Converts the lines of a kernel log to lines of script: a line `ghes` for each firmware report
/// with memory errors, and a line `hest` before a source's first report.
///
/// A report is printed at the line that ends it: a line of another report, or any other line that
/// the kernel printed more than a tenth of a second later. If no line ends a report, the log may
/// lack some of its lines, so the report becomes a comment after all lines instead of a block.
/// Comments are also printed for sections about anything but memory, for every error of a report
/// after its twelfth, for a report that is cut, and for each line with a report's number and prefix
/// that is in no report, or that the kernel itself didn't print. Only its own lines count. No line is
/// rejected.
#[derive(Drop)]
pub struct BlockFilter {
    reports: Reports,
    taken: u64,
}

impl Model for BlockFilter {
    ghost use Rattle.block_lines.specs.Filter.{BlockProgress};

    ghost Value = { BlockProgress };

    ghost view = { λ f. record { reports = f.reports; taken = f.taken } };
}

impl BlockFilter {
    /// Returns the filter before the first line of a log. `boot` is the boot's number, and `began`
    /// the second since 1970 at which the boot began. Requires `began` to be at most `LAST_SECOND`.
    pub fn new(alloc: Global, boot: u64, began: u64) -> BlockFilter
        requires { began ≤ LAST_SECOND }
        ensures { result ≡ record { reports = no_reports boot began; taken = 0 } }
    {
        BlockFilter {
            reports: Reports::new(alloc, boot, began),
            taken: 0,
        }
    }

    /// Forgets the last table, so that the next block brings a table of its own source, and goes on
    /// as after this many lines.
    pub fn begin_line(&mut self, taken: u64)
        ensures { self.new ≡ record { reports = without_sources self.old.reports; taken = taken } }
    {
        self.reports.forget_sources();
        self.taken = taken;
    }

    /// Takes a line of the log, and appends its text.
    ///
    /// # Errors
    ///
    /// `NoMemory`: only if memory runs out.
    pub fn take_line(
        &mut self,
        alloc: Global,
        line: &[u8],
        text: &mut Vec<u8>,
    ) -> Result<(), NoMemory>
        requires { self.old.taken < MOST_INPUTS }
        ensures text { OnOk result (text.new.items ≡ text.old.items
            ++ blocks_text_at self.old.reports (self.old.taken + 1) (report_log_line line.now)) }
        ensures after { OnOk result (self.new ≡ record {
          reports = reporting_after self.old.reports (report_log_line line.now);
          taken = self.old.taken + 1;
        }) }
        ensures kept { OnErr result (self.new.taken ≡ self.old.taken) }
    {
        self.reports
            .take_line(alloc, &log_line(line), self.taken + 1, None, text)?;
        self.taken += 1;
        Ok(())
    }

    /// Takes a line of the log as `take_line` does, beside a trace that has the firmware's memory
    /// errors from the time stamp `border` on, in microseconds since the boot: for a report from
    /// then on that isn't fatal, neither its block nor a table is appended. After such a report the
    /// next block may lack its table unless `begin_line` comes first.
    ///
    /// # Errors
    ///
    /// `NoMemory`: only if memory runs out.
    pub fn take_line_beside(
        &mut self,
        alloc: Global,
        line: &[u8],
        border: Option<u64>,
        text: &mut Vec<u8>,
    ) -> Result<(), NoMemory>
        requires { self.old.taken < MOST_INPUTS }
        ensures text { OnOk result (text.new.items ≡ text.old.items ++ blocks_text_beside
            border self.old.reports (self.old.taken + 1) (report_log_line line.now)) }
        ensures state { OnOk result (self.new ≡ progress_after self.old line.now) }
    {
        self.reports
            .take_line(alloc, &log_line(line), self.taken + 1, border, text)?;
        self.taken += 1;
        Ok(())
    }

    /// Takes a line that isn't the log's and gives this block: appends the block's line, after a
    /// table if the last table lacks the source. The reports stay as they are. `number` is the
    /// line's time stamp in microseconds since the boot.
    ///
    /// # Errors
    ///
    /// `NoMemory`: only if memory runs out.
    pub fn take_block(
        &mut self,
        alloc: Global,
        source: u16,
        number: u64,
        block: &[u8],
        text: &mut Vec<u8>,
    ) -> Result<(), NoMemory>
        requires { self.old.taken < MOST_INPUTS }
        ensures text { OnOk result (text.new.items
            ≡ text.old.items ++ source_block_text self.old.reports source number block.now) }
        ensures after { OnOk result (self.new ≡ record {
          reports = with_source self.old.reports source;
          taken = self.old.taken + 1;
        }) }
        ensures kept { OnErr result (self.new.taken ≡ self.old.taken) }
    {
        self.reports.take_block(alloc, source, number, block, text)?;
        self.taken += 1;
        Ok(())
    }

    /// Takes a line that isn't the log's and can't be read: appends a comment with the line's
    /// number. The reports stay as they are.
    ///
    /// # Errors
    ///
    /// `NoMemory`: only if memory runs out.
    pub fn take_unread(&mut self, text: &mut Vec<u8>) -> Result<(), NoMemory>
        requires { self.old.taken < MOST_INPUTS }
        ensures text { OnOk result (text.new.items
            ≡ text.old.items ++ (unread_report_line (self.old.taken + 1) ++ 10 ∷ [])) }
        ensures after { OnOk result (self.new ≡ record self.old { taken = self.old.taken + 1 }) }
        ensures kept { OnErr result (self.new.taken ≡ self.old.taken) }
    {
        push_remark(text, Remark::Unread, self.taken + 1)?;
        self.taken += 1;
        Ok(())
    }
}

impl BlockFilter {
    /// Appends the comment that the open report, if there is one, may lack lines.
    ///
    /// # Errors
    ///
    /// `NoMemory`: only if memory runs out.
    pub fn push_open(&self, text: &mut Vec<u8>) -> Result<(), NoMemory>
        ensures { OnOk result (text.new.items ≡ text.old.items ++ rest_text self.now.reports) }
    {
        self.reports.push_rest(text)
    }
}

impl LineFilter for BlockFilter {
    ghost use Rattle.std.specs.Prelude.{refl};

    ghost makes = { λ f. blocks_make f };

    ghost taken = { λ f. f.taken };

    ghost none = { λ _. refl };

    fn take(&mut self, alloc: Global, line: &[u8], text: &mut Vec<u8>) -> Result<(), LineRefused> {
        match self.take_line(alloc, line, text) {
            Ok(()) => Ok(()),
            Err(NoMemory) => Err(LineRefused::NoMemory),
        }
    }

    fn push_rest(&self, _: Global, text: &mut Vec<u8>) -> Result<(), NoMemory> {
        self.push_open(text)
    }

    fn push_last(&self, _: Global, _: &mut Vec<u8>) -> Result<(), NoMemory> {
        Ok(())
    }
}
