//! Finds the reports of a kernel log, line by line.

ghost use Rattle.std.specs.Prelude.{◌≡◌, IfOk, OnErr, OnOk};
ghost use Rattle.bank_lines.specs.LogAlong.{log_found_at, found_at_end, log_at_start, print_after};
ghost use Rattle.bank_lines.specs.LogAlong.{state_after};
ghost use Rattle.bank_lines.specs.LogGroups.{judged, named_by, no_names, printers_with};

use crate::Finding;
use crate::log_line::{LogLine, Print};
use crate::naming::AlikeCounts;
use ras_base::NoMemory;
use ras_klog::{KlogLine, KlogOut, KlogState};
use std::alloc::Global;

// The counts of each printer's errors without a counter: a kernel prints an error that EDAC printed
// a second time itself.
#[derive(Drop)]
pub(crate) struct Printers {
    kernel: AlikeCounts,
    edac: AlikeCounts,
}

// The current report, how its first line was printed, and the reports before it.
#[derive(Drop)]
pub(crate) struct LogState {
    work: KlogState,
    print: Print,
    printers: Printers,
}

impl Printers {
    // Returns the counts before a log's first report.
    fn new(alloc: Global) -> Printers
        ensures { result ≡ no_names }
    {
        Printers {
            kernel: AlikeCounts::new(alloc),
            edac: AlikeCounts::new(alloc),
        }
    }

    // Gives a report of this printer a counter, if it has none, and counts it.
    fn name(&mut self, print: Print, found: &mut Finding) -> Result<(), NoMemory>
        ensures found { OnOk result (found.new ≡ named_by self.old print found.old) }
        ensures counts { OnOk result (self.new ≡ printers_with self.old print found.old) }
        ensures kept { OnErr result (self.new ≡ self.old) }
    {
        if print.by_edac {
            self.edac.name(found)
        } else {
            self.kernel.name(found)
        }
    }
}

impl LogState {
    // Returns the state before a log's first line.
    pub(crate) fn new(alloc: Global) -> LogState
        ensures { result ≡ log_at_start }
    {
        LogState {
            work: KlogState::new(),
            print: Print { by_edac: false },
            printers: Printers::new(alloc),
        }
    }

    // Takes a line, of a log of this boot and of processors with this IA32_MCG_CAP, and returns the
    // finding at the line. Nothing changes if memory runs out.
    #[tactic(auto, using(crate::proofs::StepLemmas::no_place))]
    pub(crate) fn step(&mut self, line: LogLine, boot: u64, cap: u64) -> Result<Finding, NoMemory>
        ensures found { IfOk result (λ found. found ≡ log_found_at boot cap self.old line) }
        ensures state { OnOk result (self.new ≡ state_after boot cap self.old line) }
        ensures kept { OnErr result (self.new ≡ self.old) }
    {
        match line {
            LogLine::Nothing => Ok(Finding::Nothing),
            LogLine::Unread => Ok(Finding::Unread),
            LogLine::Part {
                line,
                print,
                vendor,
            } => {
                if !self.work.has_place(line) {
                    return Ok(Finding::Unread);
                }
                let mut work = self.work;
                let told = work.step(line, boot, cap);
                let mut found = judged(vendor, &told);
                self.printers.name(self.print, &mut found)?;
                self.work = work;
                self.print = print_after(self.print, line, print);
                Ok(found)
            }
        }
    }

    // Returns the finding at the log's end.
    pub(crate) fn end(&self) -> Finding
        ensures { result ≡ found_at_end self.now }
    {
        let mut work = self.work;
        judged(0, &work.end())
    }
}

// Returns how the current report was printed, after a line that was printed as `new` says.
fn print_after(print: Print, line: KlogLine, new: Print) -> Print
    ensures { result ≡ print_after print line new }
{
    match line {
        KlogLine::Start { .. } => new,
        _ => print,
    }
}

// Returns the finding of what `klog` finds, given the report's vendor. The report isn't named yet.
fn judged(vendor: u64, told: &KlogOut) -> Finding
    ensures { result ≡ judged vendor told.now }
{
    match *told {
        KlogOut::Nothing => Finding::Nothing,
        KlogOut::Partial { cpu, bank } => Finding::Partial { cpu, bank },
        KlogOut::Whole(report) if vendor == 0 => Finding::of_log_report(report),
        KlogOut::Whole(report) => Finding::Foreign {
            vendor,
            cpu: report.cpu,
            bank: report.bank,
        },
    }
}
