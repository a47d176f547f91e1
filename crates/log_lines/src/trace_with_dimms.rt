//! All that the kernel's trace has, with the DIMMs that it names.

ghost use Rattle.std.specs.Prelude.{◌≡◌, ◌+◌, ◌<◌, ◌≤◌, ◌++◌, None, OnOk, if◌then◌else◌};
ghost use Rattle.std.specs.Option.{option_map};
ghost use Rattle.bank_lines.specs.declared.log_line.TheConstants.{LAST_SECOND};
ghost use Rattle.line_filters.specs.declared.feeding.TheConstants.{MOST_INPUTS};
ghost use Rattle.ras_script.specs.Inputs.{line, long};
ghost use Rattle.log_lines.specs.Dimms.{listens, part_at, part_text};
ghost use Rattle.log_lines.specs.TraceWithDimms.{trace_dimms_after, trace_dimms_begun, trace_dimms_makes, trace_saying};
ghost use Rattle.log_lines.specs.TraceWithDimms.{trace_told, trace_with_dimms};

use crate::TraceFeed;
use crate::dimms::Dimms;
use event_lines::traced_dimm;
use line_filters::{InputFilter, InputLine};
use ras_base::NoMemory;
use std::alloc::Global;
use std::marker::Model;

/// Makes lines of script of all that the kernel's trace has, as `TraceFeed` does, and says before an
/// error which DIMM it is of.
///
/// The head of the trace may have lines `# slot <name> <label>`: the name of a module in the script,
/// and what the kernel calls the DIMM there. A machine check that has an address waits for the next
/// line. If a line tells an address and such a label, a line `range` comes first, with the name of
/// the module and the 64 bytes at the address. A run gives the error to this module then. Without
/// such a head, nothing waits.
#[derive(Drop)]
pub struct TraceWithDimms {
    feed: TraceFeed,
    dimms: Dimms,
}

impl Model for TraceWithDimms {
    ghost use Rattle.log_lines.specs.TraceWithDimms.{TraceDimmsState};

    ghost Value = { TraceDimmsState };

    ghost view = { λ f. record { feed = f.feed; dimms = f.dimms } };
}

impl TraceWithDimms {
    /// Returns the filter before the first line of the trace of a boot, with the arguments of
    /// `TraceFeed::new`. Requires `began` to be at most `LAST_SECOND`.
    pub fn new(alloc: Global, boot: u64, cap: u64, began: u64, drivers: bool) -> TraceWithDimms
        requires { began ≤ LAST_SECOND }
        ensures makes { trace_dimms_makes result ≡ trace_with_dimms boot cap began drivers }
        ensures begins { result ≡ trace_dimms_begun boot cap began drivers }
    {
        TraceWithDimms {
            feed: TraceFeed::new(alloc, boot, cap, began, drivers),
            dimms: Dimms::new(alloc),
        }
    }

    // Takes a line, and appends its text.
    fn take_line(&mut self, alloc: Global, bytes: &[u8], text: &mut Vec<u8>) -> Result<(), NoMemory>
        requires { self.old.feed.taken < MOST_INPUTS }
        ensures text { OnOk result (text.new.items ≡ text.old.items
            ++ part_text (part_at self.old.dimms (trace_saying self.old.feed (line bytes.now)))) }
        ensures after { OnOk result (self.new ≡ trace_dimms_after self.old (line bytes.now)) }
    {
        self.dimms.hear(alloc, bytes)?;
        let told = self.told(bytes);
        let mut said = Vec::new(alloc);
        let waits = self.feed.take_line(alloc, bytes, &mut said)?;
        self.dimms.pass(alloc, told, &said, waits, text)
    }

    // Returns the address and the DIMM that a line tells, if somebody listens.
    fn told<'a>(&self, line: &'a [u8]) -> Option<(u64, &'a [u8])>
        ensures { option_map (λ told. (told.0, told.1.now)) result
            ≡ (if listens self.now.dimms then trace_told self.now.feed line.now else None) }
    {
        if self.dimms.listens() && !self.feed.reads_drivers() {
            traced_dimm(line)
        } else {
            None
        }
    }

    // Takes what stands for a line that is too long, and appends its comment.
    fn take_long(&mut self, alloc: Global, text: &mut Vec<u8>) -> Result<(), NoMemory>
        requires { self.old.feed.taken < MOST_INPUTS }
        ensures text { OnOk result (text.new.items ≡ text.old.items
            ++ part_text (part_at self.old.dimms (trace_saying self.old.feed long))) }
        ensures after { OnOk result (self.new ≡ trace_dimms_after self.old long) }
    {
        self.dimms.end_heading();
        let mut said = Vec::new(alloc);
        self.feed.take_long(&mut said)?;
        self.dimms.pass(alloc, None, &said, false, text)
    }
}

impl InputFilter for TraceWithDimms {
    ghost use Rattle.std.specs.Prelude.{refl};

    ghost makes = { λ f. trace_dimms_makes f };

    ghost taken = { λ f. f.feed.taken };

    ghost none = { λ _. refl };

    fn take(
        &mut self,
        alloc: Global,
        input: InputLine<'_>,
        text: &mut Vec<u8>,
    ) -> Result<(), NoMemory> {
        match input {
            InputLine::Line(line) => self.take_line(alloc, line, text),
            InputLine::Long => self.take_long(alloc, text),
        }
    }

    fn push_last(&self, alloc: Global, cut: bool, text: &mut Vec<u8>) -> Result<(), NoMemory> {
        let mut last = Vec::new(alloc);
        self.feed.push_last(alloc, cut, &mut last)?;
        self.dimms.push_last(alloc, &last, text)
    }
}
