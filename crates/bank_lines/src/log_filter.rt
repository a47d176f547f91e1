//! The command `lines klog` as a filter of lines.

ghost use Rattle.std.specs.Prelude.{◌≡◌};
ghost use Rattle.bank_lines.specs.LogAlong.{log_makes};
ghost use Rattle.bank_lines.specs.LogFilter.{log_filter};

use crate::edac_report::EdacReport;
use crate::log_line::log_line;
use crate::log_state::LogState;
use crate::text::push_found;
use line_filters::LineFilter;
use ras_base::NoMemory;
use ras_script::LineRefused;
use std::alloc::Global;
use std::marker::Model;

/// Converts the lines of a kernel log to lines of script: one for each machine check of an Intel
/// processor whose bank holds an error.
///
/// Comments are printed for a report that isn't whole, for a report of another vendor's processor,
/// and for each line that begins like a line of a report and is in none. A report is printed at the
/// line that completes it; one that isn't whole at the line that begins the next report, or after
/// all lines. Only the kernel's own lines count. A report without a counter gets one, which
/// distinguishes it from the earlier reports with its key by the same printer, EDAC or the kernel.
/// No line is rejected.
#[derive(Drop)]
pub struct LogFilter {
    edac: EdacReport,
    state: LogState,
    boot: u64,
    cap: u64,
    taken: u64,
}

impl Model for LogFilter {
    ghost use Rattle.bank_lines.specs.LogAlong.{LogProgress};

    ghost Value = { LogProgress };

    ghost view = { λ f. record { boot = f.boot; cap = f.cap; edac = f.edac; state = f.state; taken = f.taken } };
}

impl LogFilter {
    /// Returns the filter before the first line of a log of this boot, of processors with this
    /// IA32_MCG_CAP.
    pub fn new(alloc: Global, boot: u64, cap: u64) -> LogFilter
        ensures makes { log_makes result ≡ log_filter boot cap }
        ensures taken { result.taken ≡ 0 }
    {
        LogFilter {
            edac: EdacReport::new(),
            state: LogState::new(alloc),
            boot,
            cap,
            taken: 0,
        }
    }
}

impl LineFilter for LogFilter {
    ghost use Rattle.std.specs.Prelude.{refl};

    ghost makes = { λ f. log_makes f };

    ghost taken = { λ f. f.taken };

    ghost none = { λ _. refl };

    fn take(&mut self, _: Global, line: &[u8], text: &mut Vec<u8>) -> Result<(), LineRefused> {
        let told = self.edac.step(log_line(line));
        let found = match self.state.step(told, self.boot, self.cap) {
            Ok(found) => found,
            Err(NoMemory) => return Err(LineRefused::NoMemory),
        };
        match push_found(text, &found, self.taken + 1) {
            Ok(()) => {
                self.taken += 1;
                Ok(())
            }
            Err(NoMemory) => Err(LineRefused::NoMemory),
        }
    }

    fn push_rest(&self, _: Global, text: &mut Vec<u8>) -> Result<(), NoMemory> {
        push_found(text, &self.state.end(), 0)
    }

    fn push_last(&self, _: Global, _: &mut Vec<u8>) -> Result<(), NoMemory> {
        Ok(())
    }
}
