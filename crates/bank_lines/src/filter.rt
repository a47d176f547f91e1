//! The command `lines trace` as a filter of lines.

ghost use Rattle.std.specs.Prelude.{◌≡◌};
ghost use Rattle.bank_lines.specs.Trace.{trace_found};
ghost use Rattle.bank_lines.specs.Filter.{filter_after, trace_filter};

use crate::naming::AlikeCounts;
use crate::text::push_found;
use crate::trace::trace_found;
use line_filters::LineFilter;
use ras_base::NoMemory;
use ras_script::LineRefused;
use std::alloc::Global;
use std::marker::Model;

/// Converts the text of the kernel's trace to lines of script.
///
/// Each line of the trace gives the line of its report, a comment, or nothing. A report without a
/// counter gets one, which distinguishes it from the reports with its key before it. No line is
/// rejected.
#[derive(Drop)]
pub struct TraceFilter {
    boot: u64,
    counts: AlikeCounts,
    taken: u64,
}

impl Model for TraceFilter {
    ghost use Rattle.bank_lines.specs.Filter.{Progress};

    ghost Value = { Progress };

    ghost view = { λ f. record { boot = f.boot; counts = f.counts; taken = f.taken } };
}

impl TraceFilter {
    /// Returns the filter before the first line of a trace of this boot.
    pub fn new(alloc: Global, boot: u64) -> TraceFilter
        ensures makes { filter_after result ≡ trace_filter boot }
        ensures taken { result.taken ≡ 0 }
    {
        TraceFilter {
            boot,
            counts: AlikeCounts::new(alloc),
            taken: 0,
        }
    }
}

impl LineFilter for TraceFilter {
    ghost use Rattle.std.specs.Prelude.{refl};

    ghost makes = { λ f. filter_after f };

    ghost taken = { λ f. f.taken };

    ghost none = { λ _. refl };

    fn take(&mut self, _: Global, line: &[u8], text: &mut Vec<u8>) -> Result<(), LineRefused> {
        let mut found = trace_found(self.boot, line);
        if let Err(NoMemory) = self.counts.name(&mut found) {
            return Err(LineRefused::NoMemory);
        }
        match push_found(text, &found, self.taken + 1) {
            Ok(()) => {
                self.taken += 1;
                Ok(())
            }
            Err(NoMemory) => Err(LineRefused::NoMemory),
        }
    }

    fn push_rest(&self, _: Global, _: &mut Vec<u8>) -> Result<(), NoMemory> {
        Ok(())
    }

    fn push_last(&self, _: Global, _: &mut Vec<u8>) -> Result<(), NoMemory> {
        Ok(())
    }
}
