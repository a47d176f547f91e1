//! Runs one command: the program's call.

ghost use Rattle.std.specs.Prelude.{◌≡◌, ◌≢◌, ◌⊎◌, ℕ, List, Option, Some, length};
ghost use Rattle.board_core.specs.Cause.{Faults};
ghost use Rattle.board_core.specs.Clock.{Always};
ghost use Rattle.board_core.specs.Told.{Told};
ghost use Rattle.ras_exit.specs.Endings.{OnAnswer};
ghost use Rattle.ras_journal.specs.Recovered.{HasFewLinks};
ghost use Rattle.ras_recover.specs.DiskCalls.{IsBeginning, Makes};
ghost use Rattle.ras_run.specs.Sites.{Start};
ghost use Rattle.ras_daemon.specs.Script.{events_of};
ghost use Rattle.ras_events.specs.DoneLines.{done_count};
ghost use Rattle.ras_daemon.specs.Ahead.{TakesBy, TakesInputBy, TakesRecordBy};
ghost use Rattle.ras_daemon.specs.Commands.{ByTask, MayEnd};
ghost use Rattle.ras_daemon.specs.Headline.{OverRun, laid_with};
ghost use Rattle.ras_daemon.specs.Promises.{Caused, IsQuiet, IsQuietBoard, OverRefused, Ran, Refuses};
ghost use Rattle.ras_daemon.specs.Promises.{RunStops, StillTell};
ghost use Rattle.ras_daemon.specs.RunActs.{AreRunCalls, ListsAccesses};
ghost use Rattle.ras_daemon.specs.RunOutput.{run_output};
ghost use Rattle.ras_daemon.specs.RunStatus.{run_exit};
ghost use Rattle.ras_daemon.specs.Runs.{event_count};
ghost use Rattle.ras_daemon.specs.Task.{ReadsBy, task_of};

use crate::ending::last_line;
use crate::help::{help_text, version_line};
use crate::load::load;
use crate::reporting::report;
use crate::running::run;
use crate::{RasWord, Task, task_of};
use bank_lines::{LogFilter, TraceFilter, print_record};
use board_core::{Board, Source};
use cper_pcie::PcieFilter;
use event_lines::ReportFilter;
use line_filters::{feed_lines, filter_lines};
use log_lines::{LogWithDimms, TraceWithDimms};
use ras_exit::{Exit, usage_line};
use ras_klog::KlogFilter;
use std::alloc::Global;

/// Runs the command given by `words`, reading its input from `source` and keeping the account on
/// `board`. Returns how the command ended.
pub fn rasd<S: Source, B: Board>(
    alloc: Global,
    words: &[RasWord],
    source: &mut S,
    board: &mut B,
) -> Exit
    // A run over files that give an account: how it ends, what it prints, which events are done,
    // which acts it does, in order, and how far it reads.
    ensures ran { OverRun (λ start script told.
        StillTell (Ran result (source.new ≡ source.old) start script told)
        (S.left source.new) (B.seen board.new).told)
        (task_of words.now) (S.left source.old) (B.seen board.old).told }

    // What a crash of the machine at any point of a run leaves.
    ensures stops { OverRun (λ start script told.
        RunStops B.seen result (source.new ≡ source.old) start script told
        board.old board.new)
        (task_of words.now) (S.left source.old) (B.seen board.old).told }

    // If a journal file is damaged or too long, a run reports it, and changes neither the files nor
    // anything else.
    ensures refused { OverRefused
        (Refuses result (source.new ≡ source.old) (B.seen board.old).clock (B.seen board.new).clock)
        (task_of words.now) (B.seen board.old).told (B.seen board.new).told }

    // What every other command prints, and unrecognized arguments too, given what the source and
    // the files contain.
    ensures commands { ByTask result (task_of words.now) (S.left source.old) (S.left source.new)
        (B.seen board.old).told (B.seen board.new).told (B.seen board.old).clock
        (B.seen board.new).clock }

    // A command that reads the source takes at most 67,108,865 bytes of it, and all of them if it
    // ends as done. A command that reads a source of any length takes all of it if it ends as done.
    // The command that reads a saved record takes at most 129 bytes, and all of them or 129 if it
    // ends as done. Every other command leaves the source alone.
    ensures reads { ReadsBy (task_of words.now)
        (TakesBy result (S.left source.old) (S.left source.new))
        (TakesInputBy result (S.left source.old) (S.left source.new))
        (TakesRecordBy result (S.left source.old) (S.left source.new))
        (source.new ≡ source.old) }

    // A command ends with a fault if and only if a call failed, and then no other call failed.
    ensures causes { Caused result (S.faults source.old) (S.faults source.new)
        (B.seen board.old).faults (B.seen board.new).faults }

    // Each command has its own exits. Unrecognized arguments end with the usage line. Printing it,
    // `--help` and `--version` allocate nothing.
    ensures exits { MayEnd (task_of words.now) result }
{
    match task_of(words) {
        Some(Task::Run) => run(alloc, source, board),
        Some(Task::Report(listing)) => report(alloc, listing, board),
        Some(Task::Load(n)) => load(alloc, n, board),
        Some(Task::Pcie) => {
            let mut filter = PcieFilter::new(alloc);
            filter_lines(alloc, &mut filter, source, board)
        }
        Some(Task::Klog { boot, cap }) => {
            let mut filter = KlogFilter::new(boot, cap);
            filter_lines(alloc, &mut filter, source, board)
        }
        Some(
            Task::TraceFeed {
                boot,
                cap,
                began,
                drivers,
            },
        ) => {
            let mut filter = TraceWithDimms::new(alloc, boot, cap, began, drivers);
            feed_lines(alloc, &mut filter, source, board)
        }
        Some(
            Task::LogFeed {
                boot,
                cap,
                began,
                borders,
            },
        ) => {
            let mut filter = LogWithDimms::new(alloc, boot, cap, began, borders);
            feed_lines(alloc, &mut filter, source, board)
        }
        Some(Task::TraceLines { boot }) => {
            let mut filter = TraceFilter::new(alloc, boot);
            filter_lines(alloc, &mut filter, source, board)
        }
        Some(Task::KlogLines { boot, cap }) => {
            let mut filter = LogFilter::new(alloc, boot, cap);
            filter_lines(alloc, &mut filter, source, board)
        }
        Some(Task::GhesLines { boot, began }) => {
            let mut filter = ReportFilter::new(alloc, boot, began);
            filter_lines(alloc, &mut filter, source, board)
        }
        Some(Task::MceLine { boot }) => print_record(alloc, boot, source, board),
        Some(Task::Help) => last_line(help_text(), Exit::Done, board),
        Some(Task::Version) => last_line(version_line(), Exit::Done, board),
        None => last_line(usage_line(), Exit::Usage, board),
    }
}

/// Laws: what else follows from the promises of `rasd` for a run.
pub fn promise_laws<S: Source, B: Board>()
    // If a run ends without a fault, its done lines number its events.
    ensures counted { (exit : Exit) (first last : S) (start : Start) (script left : List ℕ)
        (before now : Told) → Ran exit (last ≡ first) start script before left now
        → OnAnswer exit (done_count (run_output start script) ≡ length (events_of start script)) }

    // A run's disk calls are the disk calls of its acts, or the first few of them. If the run ends
    // without a fault, its accesses to the device are the accesses of its acts.
    ensures calls { (exit : Exit) (first last : S) (start : Start) (script left : List ℕ)
        (before now : Told) → Ran exit (last ≡ first) start script before left now
        → Makes (IsBeginning (AreRunCalls start script before)) before now }
    ensures accesses { (exit : Exit) (first last : S) (start : Start) (script left : List ℕ)
        (before now : Told) → Ran exit (last ≡ first) start script before left now
        → OnAnswer exit (ListsAccesses start script before now) }

    // Once a run is done, the record store is what its events left.
    ensures stored { (first last : S) (start : Start) (script left : List ℕ) (before now : Told)
        → Ran Exit.Done (last ≡ first) start script before left now
        → now.here.store ≡ laid_with start script (event_count start script) }

    // If no file that a crash at the start may leave has more than 256 links, neither has any file
    // that a crash at any point of the run may leave.
    ensures few { (exit : Exit) (first last : S) (start : Start) (script : List ℕ) (t : Told)
        (old new : B) → (B.seen old).told ≡ Some t
        → RunStops B.seen exit (last ≡ first) start script t old new
        → Always (B.seen old).clock (B.seen old).clock.now HasFewLinks
        → Always (B.seen new).clock (B.seen old).clock.now HasFewLinks }

    // If no count of faults rose and memory didn't run out, a run that rejects no line succeeds.
    ensures complete { (exit : Exit) (first last : S) (start : Start) (script left : List ℕ)
        (before now : Told) (count after : ℕ) (faults then : Faults)
        → Ran exit (last ≡ first) start script before left now
        → Caused exit count after faults then
        → IsQuiet count after → IsQuietBoard faults then → run_exit start script ≡ Exit.Done
        → (exit ≡ Exit.Done) ⊎ (exit ≡ Exit.NoMemory) }

    // A status of the record store's device is reported only if it isn't 0.
    ensures coded { (task : Option Task) (exit : Exit) (code : ℕ) → MayEnd task exit
        → exit ≡ Exit.ErstStatus code → code ≢ 0 }
{}
