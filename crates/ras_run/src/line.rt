//! Processes a line of a script.

ghost use Rattle.std.specs.Prelude.{◌≡◌, ◌≤◌, List, length, None, Ok, Some};
ghost use Rattle.std.specs.Prelude.{IfErr, MatchResult, OnOk};
ghost use Rattle.board_core.specs.Doing.{Does};
ghost use Rattle.board_core.specs.Told.{Told};
ghost use Rattle.ras_script.specs.Line.{line_of};
ghost use Rattle.ras_script.specs.LineLaws.{IsInRange};
ghost use Rattle.ras_script.specs.declared.reader.TheConstants.{LONGEST_LINE};
ghost use Rattle.ras_exit.specs.Acts.{part_end};
ghost use Rattle.ras_exit.specs.Causes.{BoardCause, Causes};
ghost use Rattle.ras_exit.specs.Endings.{IsStop};
ghost use Rattle.ras_events.specs.Sizes.{IsShortLine};
ghost use Rattle.ras_run.specs.LineActs.{DoesReopening, TakesLine, event_prints};
ghost use Rattle.ras_run.specs.Sites.{IsDrivable, site_of};
ghost use Rattle.ras_run.specs.Status.{refused_exit};
ghost use Rattle.ras_run.specs.Taking.{IsPrintExit, IsReady, LedgerStands, Reopens};
ghost use Rattle.ras_texts.specs.Text.{known_line};

use crate::counting::tell_made;
use crate::opening::open;
use crate::polling::poll_store;
use crate::printing::print_event;
use crate::putting::{put_record, save_record};
use crate::{Ledger, Run};
use board_core::Board;
use erst_driver::Driver;
use ras_account::Account;
use ras_events::{Event, EventRefused, LineRefusal, Settings};
use ras_exit::{Exit, print};
use ras_facts::Name;
use ras_script::{Line, read_line};
use ras_texts::{done_line, push_done, push_known, standing_lines};
use std::alloc::Global;

/// Processes the line of this number: it may describe the machine, report errors, put a record into
/// the record store or save one there, poll the store, or open the journal again. Prints the
/// event's text and its done line; empty lines and comments are no event, and print nothing.
///
/// # Errors
///
/// `BadLine`, `ErstRefused`: if and only if the line is rejected at its place.
/// `Full`: if and only if there is no room for what it reports; then nothing was appended.
/// `ErstBusy`, `ErstStatus`: if and only if the record store's device is too slow, or the store has
/// no room for the record of a panic.
/// `DiskFault`, `RegisterFault`, `PrintFault`: only if such a call failed.
/// `NoMemory`: only if memory runs out.
pub fn take_line<B: Board>(
    alloc: Global,
    number: u64,
    bytes: &[u8],
    run: &mut Run,
    board: &mut B,
) -> Result<(), Exit>
    requires short { length bytes.now ≤ LONGEST_LINE }
    requires ready { IsReady run.old.ledger (B.seen board.old) }

    ensures takes { (t : Told) → (B.seen board.old).told ≡ Some t
        → IsDrivable run.old.settings.driver
        → TakesLine B.seen (site_of run.old t, (number, line_of bytes.now)) t result
        run.new board.old board.new }
    ensures ready { OnOk result
        (IsReady run.new.ledger (B.seen board.new)) }
    ensures stop { IfErr result IsStop }
    ensures faults { Causes BoardCause result (B.seen board.old).faults (B.seen board.new).faults }
{
    match read_line(alloc, bytes) {
        // Returns here for comments, because most lines of a long script may be comments.
        Ok(Line::Nothing) => Ok(()),
        Ok(line) => take_read(alloc, number, line, run, board),
        Err(refused) => Err(Exit::of_unread(number, refused)),
    }
}

// Processes the line of this number, which was read, at the run's site.
fn take_read<B: Board>(
    alloc: Global,
    number: u64,
    line: Line,
    run: &mut Run,
    board: &mut B,
) -> Result<(), Exit>
    requires range { IsInRange line }
    requires short { IsShortLine line }
    requires ready { IsReady run.old.ledger (B.seen board.old) }

    ensures takes { (t : Told) → (B.seen board.old).told ≡ Some t
        → IsDrivable run.old.settings.driver
        → TakesLine B.seen (site_of run.old t, (number, Ok line)) t result run.new
        board.old board.new }
    ensures ready { OnOk result
        (IsReady run.new.ledger (B.seen board.new)) }
    ensures stop { IfErr result IsStop }
    ensures faults { Causes BoardCause result (B.seen board.old).faults (B.seen board.new).faults }
{
    if let Some(name) = run.settings.repeat_of(&line, &run.ledger.account) {
        return end_repeat(number, &name, &run.ledger.account, &mut run.text, board);
    }
    let event = match run.settings.take(alloc, line) {
        Ok(event) => event,
        Err(EventRefused::Refused(refusal)) => return Err(refused_exit(number, refusal)),
        Err(EventRefused::NoMemory) => return Err(Exit::NoMemory),
    };
    match event {
        Event::Nothing => Ok(()),
        Event::Settled => end_event(alloc, number, &[], board),
        Event::Counted(made) => {
            let done = tell_made(alloc, number, made, &mut run.ledger, board)?;
            print(&done, board)
        }
        Event::Put { id, bytes } => put_record(alloc, number, id, bytes.bytes(), board),
        Event::Saved { id, bytes } => {
            let driver = driver_of(&run.settings, number)?;
            save_record(alloc, number, id, &bytes, driver, board)
        }
        Event::Polled { seconds } => {
            let settings = &run.settings;
            let driver = driver_of(settings, number)?;
            poll_store(
                alloc,
                number,
                seconds,
                driver,
                &settings.topology,
                &mut run.ledger,
                board,
            )
        }
        Event::Reopened => reopen(alloc, number, &mut run.ledger, board),
    }
}

// Returns the driver of the record store for the line of this number.
fn driver_of(settings: &Settings, line: u64) -> Result<&Driver, Exit>
    ensures { MatchResult result (λ driver. settings.now.driver ≡ Some driver.now)
        (λ exit. (exit ≡ Exit.ErstRefused line) × (settings.now.driver ≡ None)) }
{
    match &settings.driver {
        Some(driver) => Ok(driver),
        None => Err(Exit::ErstRefused { line }),
    }
}

// Returns the exit for the line of this number, if its event is refused.
fn refused_exit(line: u64, refusal: LineRefusal) -> Exit
    ensures { result ≡ refused_exit line refusal }
{
    match refusal {
        LineRefusal::Bad(reason) => Exit::BadLine { line, reason },
        LineRefusal::NoTable => Exit::ErstRefused { line },
    }
}

// Prints the line of a name that the account knows, and the done line of the event, whose line has
// this number. The buffer has both before either is printed, and it keeps its room from repeat to
// repeat.
fn end_repeat<B: Board>(
    number: u64,
    name: &Name,
    account: &Account,
    text: &mut Vec<u8>,
    board: &mut B,
) -> Result<(), Exit>
    ensures does { Does B.seen
        (event_prints (known_line account.now.state name.now) number) (part_end result)
        board.old board.new }
    ensures exit { IfErr result IsPrintExit }
{
    text.clear();
    push_known(text, account, name)?;
    let length = text.len();
    push_done(text, number)?;
    let (line, done) = text.split_at(length);
    print_event(line, done, board)
}

// Prints an event that appends nothing: its text, which is empty if its line only describes the
// machine, and its done line, by the number of the line.
fn end_event<B: Board>(alloc: Global, number: u64, text: &[u8], board: &mut B) -> Result<(), Exit>
    ensures does { Does B.seen (event_prints text.now number)
        (part_end result) board.old board.new }
    ensures exit { IfErr result IsPrintExit }
{
    match done_line(alloc, number) {
        Ok(done) => print_event(text, &done, board),
        Err(_) => Err(Exit::NoMemory),
    }
}

// Opens the journal again, by the line of this number, and prints the outstanding orders.
fn reopen<B: Board>(
    alloc: Global,
    number: u64,
    ledger: &mut Ledger,
    board: &mut B,
) -> Result<(), Exit>
    requires stands { LedgerStands ledger.old (B.seen board.old) }
    ensures reopens { (t : Told) → (B.seen board.old).told ≡ Some t
        → Reopens result ledger.old ledger.new }
    ensures does { (t : Told) → (B.seen board.old).told ≡ Some t
        → DoesReopening B.seen ledger.old.account.state number t.here
        result board.old board.new }
    ensures ready { OnOk result
        (IsReady ledger.new (B.seen board.new)) }
    ensures stop { IfErr result IsStop }
    ensures faults { Causes BoardCause result (B.seen board.old).faults (B.seen board.new).faults }
{
    *ledger = open(alloc, board)?;
    let text = standing_lines(alloc, &ledger.account)?;
    let done = done_line(alloc, number)?;
    print_event(&text, &done, board)
}
