//! The machine checks of a kernel log, line by line.

ghost use Rattle.std.specs.Prelude.{◌≡◌, IfOk, OnOk};
ghost use Rattle.bank_lines.specs.LogAlong.{found_at_end, error_in, log_begun, errors_after_line};

use crate::Finding;
use crate::edac_report::EdacReport;
use crate::log_line::log_line;
use crate::log_state::LogState;
use ras_base::NoMemory;
use std::alloc::Global;

/// Finds the machine checks in the log of a boot, line by line.
#[derive(Drop)]
pub struct LogErrors {
    edac: EdacReport,
    state: LogState,
    boot: u64,
    cap: u64,
}

impl LogErrors {
    /// Returns what stands before the first line of a log of this boot and of processors with this
    /// IA32_MCG_CAP.
    pub fn new(alloc: Global, boot: u64, cap: u64) -> LogErrors
        ensures { result ≡ log_begun boot cap }
    {
        LogErrors {
            edac: EdacReport::new(),
            state: LogState::new(alloc),
            boot,
            cap,
        }
    }

    /// Takes a line, and returns what is found there.
    ///
    /// # Errors
    ///
    /// `NoMemory`: only if memory runs out.
    pub fn take(&mut self, line: &[u8]) -> Result<Finding, NoMemory>
        ensures found { IfOk result (λ found. found ≡ error_in self.old line.now) }
        ensures after { OnOk result (self.new ≡ errors_after_line self.old line.now) }
    {
        let told = self.edac.step(log_line(line));
        self.state.step(told, self.boot, self.cap)
    }

    /// Returns what is found at the log's end, where no report is whole.
    pub fn end(&self) -> Finding
        ensures { result ≡ found_at_end self.now.state }
    {
        self.state.end()
    }
}
