//! Prints the record from a source as a line of script.

ghost use Rattle.std.specs.Prelude.{◌≤◌, IfOk, IfSome, IsSomeAnd};
ghost use Rattle.board_core.specs.Cause.{HasCause};
ghost use Rattle.board_core.specs.Clock.{Adds};
ghost use Rattle.board_core.specs.Device.{LeavesDevice};
ghost use Rattle.board_core.specs.Told.{Relates};
ghost use Rattle.ras_exit.specs.Causes.{BoardCause, SourceCause};
ghost use Rattle.ras_exit.specs.Telling.{PrintMoment};
ghost use Rattle.bank_lines.specs.Saved.Printing.{IsRecordExit, PrintsText, StopsPrinting, TakesRecord};
ghost use Rattle.bank_lines.specs.Saved.Records.{record_output, record_text};
ghost use Rattle.bank_lines.specs.Steps.Reading.{IsPrintExit, ReadsFront};

use crate::saved::text::push_record;
use board_core::{Board, Failed, Source};
use ras_base::NoMemory;
use ras_exit::{Exit, print};
use std::alloc::Global;

/// The most bytes that are read from an input: one more than the longest record has.
pub const MOST_BYTES: usize = 129;

/// Prints the line of the record from a source, for an error in this boot, and returns how that
/// ended. Reads the source to its end, but at most one byte more than the longest record has.
pub fn print_record<S: Source, B: Board>(
    alloc: Global,
    boot: u64,
    source: &mut S,
    board: &mut B,
) -> Exit
    ensures prints { IfSome (S.left source.old) (λ input.
        Relates (PrintsText (record_output boot input) result)
        (B.seen board.old).told (B.seen board.new).told) }
    ensures takes { IfSome (S.left source.old)
        (λ input. IsSomeAnd (S.left source.new) (TakesRecord result input)) }
    // This holds even if a crash before might have left something other than the model says.
    ensures stops { StopsPrinting boot (S.left source.old) (B.seen board.old).clock
        (B.seen board.new).clock }
    ensures exits { IsRecordExit result }
    ensures source { SourceCause result (S.faults source.old) (S.faults source.new) }
    ensures board { BoardCause result (B.seen board.old).faults (B.seen board.new).faults }
    ensures device { LeavesDevice (B.seen board.old).told (B.seen board.new).told
        (B.seen board.old).clock (B.seen board.new).clock }
{
    let mut buffer = [0u8; MOST_BYTES];
    match read_front(source, &mut buffer) {
        Ok(count) => print_bytes(alloc, boot, &buffer[..count], board),
        Err(Failed) => Exit::SourceFault,
    }
}

// Reads into the front of a buffer until it is full or the source ends, and returns the number of
// bytes read.
fn read_front<S: Source>(source: &mut S, buffer: &mut [u8; MOST_BYTES]) -> Result<usize, Failed>
    ensures within { IfOk result (λ count. count ≤ MOST_BYTES) }
    ensures reads { ReadsFront result buffer.new (S.left source.old) (S.left source.new) }
    ensures cause { HasCause (S.faults source.old) (S.faults source.new) result }
{
    let mut count = 0;
    while count < buffer.len() {
        let read = source.read(&mut buffer[count..])?;
        if read == 0 {
            break;
        }
        count += read;
    }
    Ok(count)
}

// Prints the line of these bytes.
fn print_bytes<B: Board>(alloc: Global, boot: u64, bytes: &[u8], board: &mut B) -> Exit
    ensures prints { Relates (PrintsText (record_text boot bytes.now) result)
        (B.seen board.old).told (B.seen board.new).told }
    ensures stops { Adds (PrintMoment (B.seen board.old).clock (record_text boot bytes.now))
        (B.seen board.old).clock (B.seen board.new).clock }
    ensures exits { IsPrintExit result }
    ensures board { BoardCause result (B.seen board.old).faults (B.seen board.new).faults }
    ensures device { LeavesDevice (B.seen board.old).told (B.seen board.new).told
        (B.seen board.old).clock (B.seen board.new).clock }
{
    let mut text = Vec::new(alloc);
    if let Err(NoMemory) = push_record(&mut text, boot, bytes) {
        return Exit::NoMemory;
    }
    match print(&text, board) {
        Ok(()) => Exit::Done,
        Err(fault) => fault,
    }
}
