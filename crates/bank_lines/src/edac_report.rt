//! EDAC's reports, converted to the lines that the kernel itself prints of the same registers.

ghost use Rattle.std.specs.Prelude.{◌≡◌};
ghost use Rattle.bank_lines.specs.EdacReports.{edac_after, edac_next, edac_told, no_edac, plain_next, plain_told, printed_by_edac, marked_told};

use crate::edac_line::EdacLine;
use crate::log_line::{LogLine, MarkedLine, Print};
use ras_klog::KlogLine;

// How far EDAC's current report has come.
#[derive(Clone, Copy, Debug, PartialEq, Eq)]
pub(crate) enum EdacReport {
    // No report is open.
    Idle,
    // The report began.
    Begun,
    // Its counter came.
    Counted(u64),
    // Its counter and its address came.
    Placed { tsc: u64, addr: u64 },
    // All its registers came, as one line.
    Told,
}

impl EdacReport {
    // Returns the state before a log's first line.
    pub(crate) fn new() -> EdacReport
        ensures { result ≡ no_edac }
    {
        EdacReport::Idle
    }

    // Takes a line, and returns what it says.
    pub(crate) fn step(&mut self, line: MarkedLine) -> LogLine
        ensures told { result ≡ marked_told self.old line }
        ensures report { self.new ≡ edac_after self.old line }
    {
        match line {
            MarkedLine::Plain(line) => {
                let told = plain_told(*self, line);
                *self = plain_next(*self, line);
                told
            }
            MarkedLine::Edac(line) => {
                let told = edac_told(*self, line);
                *self = edac_next(*self, line);
                told
            }
        }
    }
}

// Returns what a line of the kernel's own text says: it never continues a report of EDAC's.
fn plain_told(report: EdacReport, line: LogLine) -> LogLine
    ensures { result ≡ plain_told report line }
{
    match (report, line) {
        (EdacReport::Idle, _)
        | (
            _,
            LogLine::Nothing
            | LogLine::Unread
            | LogLine::Part {
                line: KlogLine::Start { .. },
                ..
            },
        ) => line,
        _ => LogLine::Unread,
    }
}

// Returns EDAC's current report after a line of the kernel's own text.
fn plain_next(report: EdacReport, line: LogLine) -> EdacReport
    ensures { result ≡ plain_next report line }
{
    match line {
        LogLine::Part {
            line: KlogLine::Start { .. },
            ..
        } => EdacReport::Idle,
        _ => report,
    }
}

// Returns what a line of EDAC's says: the last of the registers' lines gives all three registers.
fn edac_told(report: EdacReport, line: EdacLine) -> LogLine
    ensures { result ≡ edac_told report line }
{
    match (report, line) {
        (
            _,
            EdacLine::Start {
                cpu,
                mcg,
                bank,
                status,
            },
        ) => part(
            KlogLine::Start {
                cpu,
                mcg,
                bank,
                status,
            },
            0,
        ),
        (EdacReport::Begun, EdacLine::Tsc(_)) | (EdacReport::Counted(_), EdacLine::Addr(_)) => {
            LogLine::Nothing
        }
        (EdacReport::Placed { tsc, addr }, EdacLine::Misc(misc)) => {
            part(KlogLine::Tsc { tsc, addr, misc }, 0)
        }
        (EdacReport::Told, EdacLine::Processor { vendor, seconds }) => {
            part(KlogLine::Processor { seconds }, vendor)
        }
        _ => LogLine::Unread,
    }
}

// Returns a line of a report that EDAC printed.
fn part(line: KlogLine, vendor: u64) -> LogLine
    ensures { result ≡ LogLine.Part line printed_by_edac vendor }
{
    LogLine::Part {
        line,
        print: Print { by_edac: true },
        vendor,
    }
}

// Returns EDAC's current report after a line of EDAC's.
fn edac_next(report: EdacReport, line: EdacLine) -> EdacReport
    ensures { result ≡ edac_next report line }
{
    match (report, line) {
        (_, EdacLine::Start { .. }) => EdacReport::Begun,
        (EdacReport::Begun, EdacLine::Tsc(tsc)) => EdacReport::Counted(tsc),
        (EdacReport::Counted(tsc), EdacLine::Addr(addr)) => EdacReport::Placed { tsc, addr },
        (EdacReport::Placed { .. }, EdacLine::Misc(_)) => EdacReport::Told,
        (EdacReport::Told, EdacLine::Processor { .. }) => EdacReport::Idle,
        (report, _) => report,
    }
}
