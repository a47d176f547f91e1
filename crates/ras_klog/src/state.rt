//! Finds the reports of a kernel log, line by line.

ghost use Rattle.std.specs.Prelude.{◌≡◌, ℕ, List};
ghost use Rattle.ras_klog.specs.declared.line.KlogLine.{KlogLine};
ghost use Rattle.ras_klog.specs.declared.line.KlogLine.TheVariants.{Tsc, Processor};
ghost use Rattle.ras_klog.specs.Groups.{told_of_groups, without_open};
ghost use Rattle.ras_klog.specs.Stages.{at_start, has_place, stage_after, out_at, out_at_end, outs_along, outs_to_end};

use crate::line::KlogLine;
use ras_facts::BankReport;
use std::marker::Model;

/// What has to be printed after a line, or at the end of a log.
#[derive(Clone, Copy, Debug, PartialEq, Eq)]
pub enum KlogOut {
    /// Nothing.
    Nothing,
    /// A complete report.
    Whole(BankReport),
    /// A report that began and can't be completed, of this bank.
    Partial { cpu: u16, bank: u8 },
}

// The values of the line that begins a report.
#[derive(Clone, Copy, Debug, PartialEq, Eq)]
struct Head {
    cpu: u16,
    mcg: u64,
    bank: u8,
    status: u64,
}

// How far the current report has come.
#[derive(Clone, Copy, Debug, PartialEq, Eq)]
enum Stage {
    // There is no current report: none came yet, or the last one is complete.
    Idle,
    // The report's first line came.
    Begun(Head),
    // The report's counter came too.
    Timed {
        head: Head,
        tsc: u64,
        addr: u64,
        misc: u64,
    },
}

/// The current report of a log, if it isn't complete. A log is a list of lines, which are taken one
/// after another.
#[derive(Clone, Copy, Debug)]
pub struct KlogState {
    stage: Stage,
}

impl Model for KlogState {
    ghost use Rattle.ras_klog.specs.declared.state.Stage.{Stage};

    ghost Value = { Stage };

    ghost view = { λ state. state.stage };

    ghost inverse = { λ stage. record { stage = stage } };
}

impl KlogState {
    /// Returns the state before a log's first line.
    ///
    /// Each `Start` of a log begins a group of lines. What `step` returns for the lines, and then
    /// `end`, are the reports of the groups, in order. A group's report consists of its `Start`,
    /// its first `Tsc` and the first `Processor` after that; without these it is incomplete.
    pub fn new() -> KlogState
        ensures start { result ≡ at_start }
        ensures groups { (boot cap : ℕ) (lines : List KlogLine)
            → outs_to_end boot cap result lines ≡ told_of_groups boot cap lines }

        // A report is returned as soon as it is complete, before the log goes on.
        ensures prompt { (boot cap : ℕ) (lines : List KlogLine)
            → outs_along boot cap result lines ≡ without_open (told_of_groups boot cap lines) }
    {
        KlogState { stage: Stage::Idle }
    }

    /// Takes a line of a log, of this boot and of processors with this IA32_MCG_CAP. Returns a
    /// complete report at its `Processor`, and an incomplete one at the next `Start`.
    pub fn step(&mut self, line: KlogLine, boot: u64, cap: u64) -> KlogOut
        ensures out { result ≡ out_at boot cap self.old line }
        ensures stage { self.new ≡ stage_after self.old line }
    {
        match line {
            KlogLine::Start {
                cpu,
                mcg,
                bank,
                status,
            } => {
                let out = unfinished(self.stage);
                self.stage = Stage::Begun(Head {
                    cpu,
                    mcg,
                    bank,
                    status,
                });
                out
            }
            KlogLine::Tsc { tsc, addr, misc } => {
                self.take_counter(tsc, addr, misc);
                KlogOut::Nothing
            }
            KlogLine::Processor { seconds } => self.complete(seconds, boot, cap),
            KlogLine::Other => KlogOut::Nothing,
        }
    }

    // Takes a counter and the registers after it, if the current report has none yet.
    fn take_counter(&mut self, tsc: u64, addr: u64, misc: u64)
        ensures { self.new ≡ stage_after self.old (Tsc tsc addr misc) }
    {
        if let Stage::Begun(head) = self.stage {
            self.stage = Stage::Timed {
                head,
                tsc,
                addr,
                misc,
            };
        }
    }

    // Returns the current report, completed by its time, if it has its counter.
    fn complete(&mut self, seconds: u64, boot: u64, cap: u64) -> KlogOut
        ensures out { result ≡ out_at boot cap self.old (Processor seconds) }
        ensures stage { self.new ≡ stage_after self.old (Processor seconds) }
    {
        let Stage::Timed {
            head,
            tsc,
            addr,
            misc,
        } = self.stage
        else {
            return KlogOut::Nothing;
        };
        self.stage = Stage::Idle;
        KlogOut::Whole(BankReport {
            boot,
            seconds,
            cpu: head.cpu,
            bank: head.bank,
            tsc,
            cap,
            mcg: head.mcg,
            status: head.status,
            addr,
            misc,
        })
    }

    /// Returns whether `step` would use a line: any `Start`, a `Tsc` for a report without one, and
    /// a `Processor` after that. Other lines are skipped.
    pub fn has_place(&self, line: KlogLine) -> bool
        ensures { result ≡ has_place self.now line }
    {
        matches!(
            (self.stage, line),
            (_, KlogLine::Start { .. })
                | (Stage::Begun(_), KlogLine::Tsc { .. })
                | (Stage::Timed { .. }, KlogLine::Processor { .. })
        )
    }

    /// Ends the log, and returns the current report as incomplete, if there is one.
    pub fn end(&mut self) -> KlogOut
        ensures out { result ≡ out_at_end self.old }
        ensures stage { self.new ≡ at_start }
    {
        let out = unfinished(self.stage);
        self.stage = Stage::Idle;
        out
    }
}

// Returns the output of a current report that can't be completed.
fn unfinished(stage: Stage) -> KlogOut
    ensures { result ≡ out_at_end stage }
{
    match stage {
        Stage::Idle => KlogOut::Nothing,
        Stage::Begun(head) | Stage::Timed { head, .. } => KlogOut::Partial {
            cpu: head.cpu,
            bank: head.bank,
        },
    }
}
