//! All that a kernel log has, as lines of script.

ghost use Rattle.std.specs.Prelude.{◌≡◌, ◌+◌, ◌<◌, ◌≤◌, ◌++◌, IfOk, OnOk};
ghost use Rattle.bank_lines.specs.declared.log_line.TheConstants.{LAST_SECOND};
ghost use Rattle.line_filters.specs.declared.feeding.TheConstants.{MOST_INPUTS};
ghost use Rattle.ras_script.specs.Inputs.{line, long};
ghost use Rattle.log_lines.specs.LogFeed.{checks_said, log_after, log_after_line, log_feed, log_feed_makes};
ghost use Rattle.log_lines.specs.LogFeed.{log_last, log_said, log_start, log_text, log_waits, reports_after_line, reports_said};
ghost use Rattle.bank_lines.specs.LogAlong.{errors_after_line};

use crate::Borders;
use crate::borders::push_check;
use crate::comments::{MOST_LAST, push_about, push_cut_off, push_fitted, push_limited};
use crate::waits::waits;
use bank_lines::{LogErrors, push_found};
use block_lines::BlockFilter;
use ras_base::NoMemory;
use std::alloc::Global;
use std::marker::Model;

/// Makes lines of script of all that a kernel log has, whatever its length.
///
/// A machine check becomes a line `bank`, and a firmware's report with memory errors a line `ghes`
/// right behind the table of its source. Whatever can't be read or isn't whole, lines and texts
/// that are too long, and bytes behind the last line feed become comments. A comment about a line
/// shows the beginning of the line. Nothing is refused.
///
/// Two things are left to a trace that the same run gets, from the borders on: a machine check that
/// lost its address, of which the comment `# torn` is left, and a firmware's report that isn't fatal,
/// of which a comment is left if it is cut.
#[derive(Drop)]
pub struct LogFeed {
    errors: LogErrors,
    reports: BlockFilter,
    borders: Borders,
    taken: u64,
}

impl Model for LogFeed {
    ghost use Rattle.log_lines.specs.LogFeed.{LogFeedState};

    ghost Value = { LogFeedState };

    ghost view = { λ f. record {
      errors = f.errors;
      reports = f.reports.reports;
      borders = f.borders;
      taken = f.taken;
    } };
}

impl LogFeed {
    /// Returns the filter before the first line of the log of a boot. `boot` is the boot's number,
    /// `cap` the IA32_MCG_CAP of its processors, and `began` the second since 1970 at which the boot
    /// began. `borders` say from when on a trace that the same run gets has what the log has too.
    /// Requires `began` to be at most `LAST_SECOND`.
    pub fn new(alloc: Global, boot: u64, cap: u64, began: u64, borders: Borders) -> LogFeed
        requires { began ≤ LAST_SECOND }
        ensures makes { log_feed_makes result ≡ log_feed boot cap began borders }
        ensures begins { result ≡ log_start boot cap began borders }
    {
        LogFeed {
            errors: LogErrors::new(alloc, boot, cap),
            reports: BlockFilter::new(alloc, boot, began),
            borders,
            taken: 0,
        }
    }

    // Takes a line, and appends what is said of what both readers find in it. Returns whether its
    // machine check waits for the name of a DIMM.
    fn push_said(
        &mut self,
        alloc: Global,
        line: &[u8],
        said: &mut Vec<u8>,
    ) -> Result<bool, NoMemory>
        requires { self.old.taken < MOST_INPUTS }
        ensures said { OnOk result (said.new.items ≡ said.old.items ++ log_said self.old line.now) }
        ensures waits { IfOk result (λ waits. waits ≡ log_waits self.old line.now) }
        ensures after { OnOk result (self.new ≡ log_after_line self.old line.now) }
    {
        let waits = self.push_check_in(line, said)?;
        self.push_report_in(alloc, line, said)?;
        self.taken += 1;
        Ok(waits)
    }

    // Takes a line as one of machine checks, and appends what is said of what is found in it.
    // Returns whether it waits for the name of a DIMM.
    fn push_check_in(&mut self, line: &[u8], said: &mut Vec<u8>) -> Result<bool, NoMemory>
        requires { self.old.taken < MOST_INPUTS }
        ensures said { OnOk result (said.new.items ≡ said.old.items ++ checks_said self.old line.now) }
        ensures waits { IfOk result (λ waits. waits ≡ log_waits self.old line.now) }
        ensures after { OnOk result (self.new
            ≡ record self.old { errors = errors_after_line self.old.errors line.now }) }
    {
        let found = self.errors.take(line)?;
        push_check(said, &found, self.borders.checks, self.taken + 1, line)?;
        Ok(waits(&found))
    }

    // Takes a line as one of the firmware's reports, and appends what is said of them.
    fn push_report_in(
        &mut self,
        alloc: Global,
        line: &[u8],
        said: &mut Vec<u8>,
    ) -> Result<(), NoMemory>
        requires { self.old.taken < MOST_INPUTS }
        ensures said { OnOk result (said.new.items ≡ said.old.items ++ reports_said self.old line.now) }
        ensures after { OnOk result (self.new
            ≡ record self.old { reports = reports_after_line self.old.reports line.now }) }
    {
        self.reports.begin_line(self.taken);
        self.reports
            .take_line_beside(alloc, line, self.borders.reports, said)
    }

    // Takes a line, and appends its text. Returns whether its machine check waits for the name of a
    // DIMM.
    pub(crate) fn take_line(
        &mut self,
        alloc: Global,
        bytes: &[u8],
        text: &mut Vec<u8>,
    ) -> Result<bool, NoMemory>
        requires { self.old.taken < MOST_INPUTS }
        ensures text { OnOk result
            (text.new.items ≡ text.old.items ++ log_text self.old (line bytes.now)) }
        ensures waits { IfOk result (λ waits. waits ≡ log_waits self.old bytes.now) }
        ensures after { OnOk result (self.new ≡ log_after self.old (line bytes.now)) }
    {
        let mut said = Vec::new(alloc);
        let waits = self.push_said(alloc, bytes, &mut said)?;
        push_fitted(alloc, text, &said, self.taken, bytes)?;
        Ok(waits)
    }

    // Takes what stands for a line that is too long, and appends its comment.
    pub(crate) fn take_long(&mut self, text: &mut Vec<u8>) -> Result<(), NoMemory>
        requires { self.old.taken < MOST_INPUTS }
        ensures text { OnOk result
            (text.new.items ≡ text.old.items ++ log_text self.old long) }
        ensures after { OnOk result (self.new ≡ log_after self.old long) }
    {
        self.taken += 1;
        push_about(text, b"# too long ", self.taken)
    }

    // Appends the text at the end.
    pub(crate) fn push_last(
        &self,
        alloc: Global,
        cut: bool,
        text: &mut Vec<u8>,
    ) -> Result<(), NoMemory>
        requires { self.now.taken < MOST_INPUTS }
        ensures { OnOk result (text.new.items ≡ text.old.items ++ log_last self.now cut) }
    {
        let mut said = Vec::new(alloc);
        push_found(&mut said, &self.errors.end(), 0)?;
        self.reports.push_open(&mut said)?;
        push_cut_off(&mut said, cut, self.taken + 1)?;
        push_limited(text, &said, MOST_LAST, self.taken + 1, &[])
    }
}
