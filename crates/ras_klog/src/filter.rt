//! The command `klog` as a filter of lines.

ghost use Rattle.std.specs.Prelude.{◌≡◌, ◌+◌, ◌<◌, ◌^◌};
ghost use Rattle.ras_klog.specs.Along.{counts_with, makes_of};
ghost use Rattle.ras_klog.specs.Klog.{klog_filter};

use crate::texts::{push_counts, push_out};
use crate::{KlogLine, KlogOut, KlogState, klog_line};
use line_filters::LineFilter;
use mca_status::Status;
use ras_base::NoMemory;
use ras_script::LineRefused;
use std::alloc::Global;
use std::marker::Model;

// How many reports were printed: by a log line, and as partial.
#[derive(Clone, Copy)]
struct Counts {
    reports: u64,
    partial: u64,
}

impl Counts {
    // Returns the counts with this output counted too: a complete report only if its bank has an
    // error.
    fn with(self, out: &KlogOut) -> Counts
        requires { self.reports + self.partial < 2 ^ 63 }
        ensures { result ≡ counts_with self out.now }
    {
        let Counts { reports, partial } = self;
        match out {
            KlogOut::Whole(bank) if Status(bank.status).is_valid() => Counts {
                reports: reports + 1,
                partial,
            },
            KlogOut::Partial { .. } => Counts {
                reports,
                partial: partial + 1,
            },
            _ => self,
        }
    }
}

/// A filter that prints the machine checks of a kernel log as log lines.
///
/// A complete report is printed at the line that completes it, by its log line, or not at all if
/// the bank has no error (VAL is 0). An incomplete report is printed as partial, at the line that
/// begins the next report or after all lines. No line is rejected.
#[derive(Drop)]
pub struct KlogFilter {
    state: KlogState,
    boot: u64,
    cap: u64,
    counts: Counts,
    taken: u64,
}

impl Model for KlogFilter {
    ghost use Rattle.std.specs.Prelude.{◌+◌, ◌≤◌};
    ghost use Rattle.ras_klog.specs.Along.{Progress};

    ghost Value = { Progress };

    ghost view = { λ f. record { boot = f.boot; cap = f.cap; stage = f.state; counts = f.counts; taken = f.taken } };

    ghost invariant = { λ f. f.counts.reports + f.counts.partial ≤ f.taken };
}

impl KlogFilter {
    /// Returns a filter before the first line of a log of this boot, of processors with this
    /// IA32_MCG_CAP.
    pub fn new(boot: u64, cap: u64) -> KlogFilter
        ensures makes { makes_of result ≡ klog_filter boot cap }
        ensures taken { result.taken ≡ 0 }
    {
        KlogFilter {
            state: KlogState::new(),
            boot,
            cap,
            counts: Counts {
                reports: 0,
                partial: 0,
            },
            taken: 0,
        }
    }
}

impl LineFilter for KlogFilter {
    ghost use Rattle.std.specs.Prelude.{refl};

    ghost makes = { λ f. makes_of f };

    ghost taken = { λ f. f.taken };

    ghost none = { λ _. refl };

    fn take(&mut self, alloc: Global, line: &[u8], text: &mut Vec<u8>) -> Result<(), LineRefused> {
        let told = match klog_line(line) {
            KlogLine::Other => {
                self.taken += 1;
                return Ok(());
            }
            told => told,
        };
        let out = self.state.step(told, self.boot, self.cap);
        if let KlogOut::Nothing = out {
            self.taken += 1;
            return Ok(());
        }
        match push_out(alloc, text, &out) {
            Ok(()) => {
                self.taken += 1;
                self.counts = self.counts.with(&out);
                Ok(())
            }
            Err(NoMemory) => Err(LineRefused::NoMemory),
        }
    }

    fn push_rest(&self, alloc: Global, text: &mut Vec<u8>) -> Result<(), NoMemory> {
        let mut state = self.state;
        push_out(alloc, text, &state.end())
    }

    fn push_last(&self, _: Global, text: &mut Vec<u8>) -> Result<(), NoMemory> {
        let mut state = self.state;
        let counts = self.counts.with(&state.end());
        push_counts(text, counts.reports, counts.partial)
    }
}
