//! The arguments of the program.

ghost use Rattle.std.specs.Prelude.{◌≡◌, IfOk, IfSome};
ghost use Rattle.ras_daemon.specs.Task.{IsTask, klog_lines_of, klog_of, listing_of, load_of, task_of};
ghost use Rattle.ras_daemon.specs.Task.{border_of, borders_of, ghes_lines_of, log_feed_of, mce_line_of};
ghost use Rattle.ras_daemon.specs.Task.{trace_feed_of, trace_lines_of};

use bank_lines::LAST_SECOND;
use listing_texts::Listing;
use log_lines::Borders;
use ras_base::NoMemory;
use ras_load::MOST_LINES;
use ras_script::{decimal, hexadecimal};
use std::alloc::Global;
use std::marker::Model;

// Of a log without borders nothing is left to a trace.
const NO_BORDERS: Borders = Borders {
    checks: None,
    reports: None,
};

/// An argument, as bytes.
#[derive(Drop)]
pub struct RasWord {
    bytes: Vec<u8>,
}

impl Model for RasWord {
    ghost use Rattle.std.specs.Prelude.{List, ℕ};

    ghost Value = { List ℕ };

    ghost view = { λ w. w.bytes.items };
}

impl RasWord {
    /// Returns the argument with these bytes.
    ///
    /// # Errors
    ///
    /// `NoMemory`: only if memory runs out.
    pub fn new(alloc: Global, bytes: &[u8]) -> Result<RasWord, NoMemory>
        ensures { IfOk result (λ word. word ≡ bytes.now) }
    {
        Ok(RasWord {
            bytes: Vec::from_slice(alloc, bytes)?,
        })
    }

    /// Returns the argument's bytes.
    pub fn bytes(&self) -> &[u8]
        ensures { result.now ≡ self.now }
    {
        &self.bytes
    }
}

/// What the arguments ask for.
#[derive(Clone, Copy, Debug, PartialEq, Eq)]
pub enum Task {
    /// Run a script.
    Run,
    /// List what the journal's files contain.
    Report(Listing),
    /// Run a made-up script of this many reports, in memory, and sum up its account.
    Load(u64),
    /// Print the PCI Express sections of a script's records and blocks.
    Pcie,
    /// Print the machine checks of a kernel log.
    Klog {
        /// The number of the boot.
        boot: u64,
        /// The processors' IA32_MCG_CAP.
        cap: u64,
    },
    /// Convert all hardware errors of a kernel trace of any length to lines of script.
    TraceFeed {
        /// The number of the boot.
        boot: u64,
        /// The IA32_MCG_CAP of the events that lack it.
        cap: u64,
        /// The second since 1970 at which the boot began.
        began: u64,
        /// Whether the memory errors of all EDAC drivers are read, and not only the firmware's.
        drivers: bool,
    },
    /// Convert all hardware errors of a kernel log of any length to lines of script.
    LogFeed {
        /// The number of the boot.
        boot: u64,
        /// The processors' IA32_MCG_CAP.
        cap: u64,
        /// The second since 1970 at which the boot began.
        began: u64,
        /// From when on a trace that the same run gets has what the log has too.
        borders: Borders,
    },
    /// Convert the machine checks of a kernel trace to lines of script.
    TraceLines {
        /// The number of the boot.
        boot: u64,
    },
    /// Convert the machine checks of a kernel log to lines of script.
    KlogLines {
        /// The number of the boot.
        boot: u64,
        /// The processors' IA32_MCG_CAP.
        cap: u64,
    },
    /// Convert the memory errors that the firmware reported, as a kernel log has them, to lines of
    /// script.
    GhesLines {
        /// The number of the boot.
        boot: u64,
        /// The second since 1970 at which the boot began.
        began: u64,
    },
    /// Convert the record of a machine check that the kernel saved as it crashed to a line of
    /// script.
    MceLine {
        /// The number of the boot.
        boot: u64,
    },
    /// Print the commands and statuses.
    Help,
    /// Print the program's version.
    Version,
}

/// Returns what the arguments ask for, if they are a command:
///
/// - `run`
/// - `pcie`
/// - `report` with one of `counts`, `pages`, `names`, `modules` and `metrics`
/// - `load` with a number of reports from 1 to 50,000 in decimal digits
/// - `klog` with the number of the boot in decimal digits and IA32_MCG_CAP in hexadecimal ones, as
///   a script writes them
/// - `lines` with `trace` or `mce` and the number of the boot, or with `klog` and both of these
///   numbers
/// - `lines` with `ghes`, the number of the boot, and the second at which it began, up to
///   999,999,999,999
/// - `lines` with `log` or `trace` and all three of these numbers
/// - `lines` with `trace`, all three, and `edac`
/// - `lines` with `log`, all three, and two borders, each in microseconds of the boot up to 2^64-1,
///   or `-`
/// - `--help`, and `--version`
pub fn task_of(words: &[RasWord]) -> Option<Task>
    ensures task { result ≡ task_of words.now }
    ensures range { IfSome result IsTask }
{
    match words {
        [word] if word.bytes() == b"run".as_slice() => Some(Task::Run),
        [word] if word.bytes() == b"pcie".as_slice() => Some(Task::Pcie),
        [word] if word.bytes() == b"--help".as_slice() => Some(Task::Help),
        [word] if word.bytes() == b"--version".as_slice() => Some(Task::Version),
        [word, what] if word.bytes() == b"report".as_slice() => {
            listing_of(what.bytes()).map(Task::Report)
        }
        [word, count] if word.bytes() == b"load".as_slice() => load_of(count.bytes()),
        [word, boot, cap] if word.bytes() == b"klog".as_slice() => {
            klog_of(boot.bytes(), cap.bytes())
        }
        [word, form, boot]
            if word.bytes() == b"lines".as_slice() && form.bytes() == b"trace".as_slice() => {
            trace_lines_of(boot.bytes())
        }
        [word, form, boot]
            if word.bytes() == b"lines".as_slice() && form.bytes() == b"mce".as_slice() => {
            mce_line_of(boot.bytes())
        }
        [word, form, boot, cap]
            if word.bytes() == b"lines".as_slice() && form.bytes() == b"klog".as_slice() => {
            klog_lines_of(boot.bytes(), cap.bytes())
        }
        [word, form, boot, began]
            if word.bytes() == b"lines".as_slice() && form.bytes() == b"ghes".as_slice() => {
            ghes_lines_of(boot.bytes(), began.bytes())
        }
        [word, form, boot, cap, began]
            if word.bytes() == b"lines".as_slice() && form.bytes() == b"trace".as_slice() => {
            trace_feed_of(boot.bytes(), cap.bytes(), began.bytes(), false)
        }
        [word, form, boot, cap, began, more]
            if word.bytes() == b"lines".as_slice()
                && form.bytes() == b"trace".as_slice()
                && more.bytes() == b"edac".as_slice() => {
            trace_feed_of(boot.bytes(), cap.bytes(), began.bytes(), true)
        }
        [word, form, boot, cap, began]
            if word.bytes() == b"lines".as_slice() && form.bytes() == b"log".as_slice() => {
            log_feed_of(boot.bytes(), cap.bytes(), began.bytes(), NO_BORDERS)
        }
        [word, form, boot, cap, began, checks, reports]
            if word.bytes() == b"lines".as_slice() && form.bytes() == b"log".as_slice() => {
            let borders = borders_of(checks.bytes(), reports.bytes())?;
            log_feed_of(boot.bytes(), cap.bytes(), began.bytes(), borders)
        }
        _ => None,
    }
}

// Returns the task for a run over this number of made-up reports, at least 1 and at most
// `MOST_LINES`.
fn load_of(count: &[u8]) -> Option<Task>
    ensures task { result ≡ load_of count.now }
    ensures range { IfSome result IsTask }
{
    match decimal(count, MOST_LINES)? {
        0 => None,
        n => Some(Task::Load(n)),
    }
}

// Returns the task for the kernel log of this boot and this IA32_MCG_CAP.
fn klog_of(boot: &[u8], cap: &[u8]) -> Option<Task>
    ensures { result ≡ klog_of boot.now cap.now }
{
    Some(Task::Klog {
        boot: decimal(boot, u64::MAX)?,
        cap: hexadecimal(cap)?,
    })
}

// Returns the task for the trace of this boot.
fn trace_lines_of(boot: &[u8]) -> Option<Task>
    ensures { result ≡ trace_lines_of boot.now }
{
    Some(Task::TraceLines {
        boot: decimal(boot, u64::MAX)?,
    })
}

// Returns the task for the record that the kernel of this boot saved.
fn mce_line_of(boot: &[u8]) -> Option<Task>
    ensures { result ≡ mce_line_of boot.now }
{
    Some(Task::MceLine {
        boot: decimal(boot, u64::MAX)?,
    })
}

// Returns the task for the lines of the kernel log of this boot and this IA32_MCG_CAP.
fn klog_lines_of(boot: &[u8], cap: &[u8]) -> Option<Task>
    ensures { result ≡ klog_lines_of boot.now cap.now }
{
    Some(Task::KlogLines {
        boot: decimal(boot, u64::MAX)?,
        cap: hexadecimal(cap)?,
    })
}

// Returns the task for the firmware's reports of the boot that began at this second.
fn ghes_lines_of(boot: &[u8], began: &[u8]) -> Option<Task>
    ensures task { result ≡ ghes_lines_of boot.now began.now }
    ensures range { IfSome result IsTask }
{
    Some(Task::GhesLines {
        boot: decimal(boot, u64::MAX)?,
        began: decimal(began, LAST_SECOND)?,
    })
}

// Returns the task for all of the trace of this boot, which began at this second, with the events of
// all EDAC drivers or without.
fn trace_feed_of(boot: &[u8], cap: &[u8], began: &[u8], drivers: bool) -> Option<Task>
    ensures task { result ≡ trace_feed_of boot.now cap.now began.now drivers }
    ensures range { IfSome result IsTask }
{
    Some(Task::TraceFeed {
        boot: decimal(boot, u64::MAX)?,
        cap: hexadecimal(cap)?,
        began: decimal(began, LAST_SECOND)?,
        drivers,
    })
}

// Returns the task for all of the log of this boot, which began at this second, with these borders.
fn log_feed_of(boot: &[u8], cap: &[u8], began: &[u8], borders: Borders) -> Option<Task>
    ensures task { result ≡ log_feed_of boot.now cap.now began.now borders }
    ensures range { IfSome result IsTask }
{
    Some(Task::LogFeed {
        boot: decimal(boot, u64::MAX)?,
        cap: hexadecimal(cap)?,
        began: decimal(began, LAST_SECOND)?,
        borders,
    })
}

// Returns the borders for machine checks and for the firmware's reports.
fn borders_of(checks: &[u8], reports: &[u8]) -> Option<Borders>
    ensures { result ≡ borders_of checks.now reports.now }
{
    Some(Borders {
        checks: border_of(checks)?,
        reports: border_of(reports)?,
    })
}

// Returns the microseconds of a border, or none for `-`.
fn border_of(word: &[u8]) -> Option<Option<u64>>
    ensures { result ≡ border_of word.now }
{
    if word == b"-".as_slice() {
        Some(None)
    } else {
        Some(Some(decimal(word, u64::MAX)?))
    }
}

// Returns the listing with this name.
fn listing_of(word: &[u8]) -> Option<Listing>
    ensures { result ≡ listing_of word.now }
{
    if word == b"counts".as_slice() {
        Some(Listing::Counts)
    } else if word == b"pages".as_slice() {
        Some(Listing::Pages)
    } else if word == b"names".as_slice() {
        Some(Listing::Names)
    } else if word == b"modules".as_slice() {
        Some(Listing::Modules)
    } else if word == b"metrics".as_slice() {
        Some(Listing::Metrics)
    } else {
        None
    }
}
