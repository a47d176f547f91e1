//! All that a kernel log has, with the DIMMs that it names.

ghost use Rattle.std.specs.Prelude.{◌≡◌, ◌+◌, ◌<◌, ◌≤◌, ◌++◌, OnOk};
ghost use Rattle.bank_lines.specs.declared.log_line.TheConstants.{LAST_SECOND};
ghost use Rattle.line_filters.specs.declared.feeding.TheConstants.{MOST_INPUTS};
ghost use Rattle.ras_script.specs.Inputs.{line, long};
ghost use Rattle.log_lines.specs.Dimms.{part_at, part_text};
ghost use Rattle.log_lines.specs.LogWithDimms.{log_dimms_after, log_dimms_begun, log_dimms_makes, log_saying};
ghost use Rattle.log_lines.specs.LogWithDimms.{log_with_dimms};

use crate::dimms::Dimms;
use crate::log_dimm::ToldInLog;
use crate::{Borders, LogFeed};
use line_filters::{InputFilter, InputLine};
use ras_base::NoMemory;
use std::alloc::Global;
use std::marker::Model;

/// Makes lines of script of all that a kernel log has, as `LogFeed` does, and says before an
/// error which DIMM it is of.
///
/// The head of the log may have lines `# slot <name> <label>`: the name of a module in the script,
/// and what the kernel calls the DIMM there. A machine check that has an address waits for the next
/// line. If a line tells an address and such a label, a line `range` comes first, with the name of
/// the module and the 64 bytes at the address. A run gives the error to this module then. Without
/// such a head, nothing waits.
#[derive(Drop)]
pub struct LogWithDimms {
    feed: LogFeed,
    told: ToldInLog,
    dimms: Dimms,
}

impl Model for LogWithDimms {
    ghost use Rattle.log_lines.specs.LogWithDimms.{LogDimmsState};

    ghost Value = { LogDimmsState };

    ghost view = { λ f. record { feed = f.feed; told = f.told; dimms = f.dimms } };
}

impl LogWithDimms {
    /// Returns the filter before the first line of the log of a boot, with the arguments of
    /// `LogFeed::new`. Requires `began` to be at most `LAST_SECOND`.
    pub fn new(alloc: Global, boot: u64, cap: u64, began: u64, borders: Borders) -> LogWithDimms
        requires { began ≤ LAST_SECOND }
        ensures makes { log_dimms_makes result ≡ log_with_dimms boot cap began borders }
        ensures begins { result ≡ log_dimms_begun boot cap began borders }
    {
        LogWithDimms {
            feed: LogFeed::new(alloc, boot, cap, began, borders),
            told: ToldInLog::new(),
            dimms: Dimms::new(alloc),
        }
    }

    // Takes a line, and appends its text.
    fn take_line(&mut self, alloc: Global, bytes: &[u8], text: &mut Vec<u8>) -> Result<(), NoMemory>
        requires { self.old.feed.taken < MOST_INPUTS }
        ensures text { OnOk result (text.new.items ≡ text.old.items
            ++ part_text (part_at self.old.dimms (log_saying self.old (line bytes.now)))) }
        ensures after { OnOk result (self.new ≡ log_dimms_after self.old (line bytes.now)) }
    {
        self.dimms.hear(alloc, bytes)?;
        let listening = self.dimms.listens();
        let told = self.told.take_if(listening, bytes);
        let mut said = Vec::new(alloc);
        let waits = self.feed.take_line(alloc, bytes, &mut said)?;
        self.dimms.pass(alloc, told, &said, waits, text)
    }

    // Takes what stands for a line that is too long, and appends its comment.
    fn take_long(&mut self, alloc: Global, text: &mut Vec<u8>) -> Result<(), NoMemory>
        requires { self.old.feed.taken < MOST_INPUTS }
        ensures text { OnOk result (text.new.items ≡ text.old.items
            ++ part_text (part_at self.old.dimms (log_saying self.old long))) }
        ensures after { OnOk result (self.new ≡ log_dimms_after self.old long) }
    {
        self.dimms.end_heading();
        let mut said = Vec::new(alloc);
        self.feed.take_long(&mut said)?;
        self.dimms.pass(alloc, None, &said, false, text)
    }
}

impl InputFilter for LogWithDimms {
    ghost use Rattle.std.specs.Prelude.{refl};

    ghost makes = { λ f. log_dimms_makes f };

    ghost taken = { λ f. f.feed.taken };

    ghost none = { λ _. refl };

    fn take(
        &mut self,
        alloc: Global,
        input: InputLine<'_>,
        text: &mut Vec<u8>,
    ) -> Result<(), NoMemory> {
        match input {
            InputLine::Line(line) => self.take_line(alloc, line, text),
            InputLine::Long => self.take_long(alloc, text),
        }
    }

    fn push_last(&self, alloc: Global, cut: bool, text: &mut Vec<u8>) -> Result<(), NoMemory> {
        let mut last = Vec::new(alloc);
        self.feed.push_last(alloc, cut, &mut last)?;
        self.dimms.push_last(alloc, &last, text)
    }
}
