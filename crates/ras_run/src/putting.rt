//! A record that a line puts into the record store or saves there.

ghost use Rattle.std.specs.Prelude.{◌≡◌, ◌∷◌, [], None, Some, IfErr, IfSome, OnOk};
ghost use Rattle.board_core.specs.Doing.{device, put};
ghost use Rattle.board_core.specs.Told.{Told, device_of};
ghost use Rattle.erst_driver.specs.Operations.{write_calls};
ghost use Rattle.erst_interp.specs.Run.{acts_of};
ghost use Rattle.erst_store.specs.DeviceLaws.{IsDevice};
ghost use Rattle.erst_store.specs.Store.{refusal_of};
ghost use Rattle.ras_events.specs.Sizes.{CanBeSaved};
ghost use Rattle.ras_exit.specs.Acts.{print_acts};
ghost use Rattle.ras_exit.specs.Causes.{BoardCause, Causes};
ghost use Rattle.ras_exit.specs.Endings.{IsStop};
ghost use Rattle.ras_run.specs.declared.ledger.Ledger.{Ledger};
ghost use Rattle.ras_run.specs.LineActs.{DoesAsking};
ghost use Rattle.ras_run.specs.Status.{put_refusal, saving_refusal};
ghost use Rattle.ras_run.specs.Taking.{EndsUnless, IsReady};
ghost use Rattle.ras_texts.specs.Text.{done_line};

use crate::driving::driver_exit;
use board_core::{Board, BoardPut, put};
use erst_driver::Driver;
use erst_store::PutRefused;
use ras_exit::{Exit, Reason, print};
use ras_texts::done_line;
use std::alloc::Global;

/// Puts a record into the record store, by the line of this number, and prints the done line, whose
/// memory is allocated before the put.
///
/// # Errors
///
/// `BadLine`: if and only if the store refuses the record; then nothing was done.
/// `NoMemory`: only if memory runs out; then nothing was done.
/// `RegisterFault`: only if the put failed; then the record was put or wasn't.
/// `PrintFault`: only if printing failed, after the put.
pub(crate) fn put_record<B: Board>(
    alloc: Global,
    number: u64,
    id: u64,
    bytes: &[u8],
    board: &mut B,
) -> Result<(), Exit>
    ensures ends { IfSome (B.seen board.old).told
        (λ t. EndsUnless (put_refusal number (refusal_of id bytes.now t.here.store)) result) }
    ensures does { (t : Told) → (B.seen board.old).told ≡ Some t
        → DoesAsking B.seen (Unit {0})
        (refusal_of id bytes.now t.here.store ≡ None)
        (device (put id bytes.now) ∷ []) (print_acts (done_line number)) result
        board.old board.new }
    ensures ready { (ledger : Ledger) → IsReady ledger (B.seen board.old)
        → OnOk result (IsReady ledger (B.seen board.new)) }
    ensures stop { IfErr result IsStop }
    ensures faults { Causes BoardCause result (B.seen board.old).faults (B.seen board.new).faults }
{
    let done = done_line(alloc, number)?;
    match put(id, bytes, board) {
        Ok(()) => print(&done, board),
        Err(BoardPut::Refused(PutRefused::NoMemory)) => Err(Exit::NoMemory),
        Err(BoardPut::Refused(refused)) => Err(Exit::BadLine {
            line: number,
            reason: Reason::Put(refused),
        }),
        Err(BoardPut::Failed) => Err(Exit::RegisterFault),
    }
}

/// Saves the record of a panic in the record store, by the line of this number and the table that
/// drives the store, and prints the done line, whose memory is allocated before the first call.
///
/// # Errors
///
/// `ErstBusy`: if the device is too slow; the record is in the store anyway.
/// `ErstStatus(1)`: if the store is full and has no record under this identifier.
/// `NoMemory`: only if memory runs out, before the first call.
/// `RegisterFault`: only if a call of the device failed; then the record was put or wasn't.
/// `PrintFault`: only if printing failed, after the record was saved.
pub(crate) fn save_record<B: Board>(
    alloc: Global,
    number: u64,
    id: u64,
    bytes: &[u8; 456],
    driver: &Driver,
    board: &mut B,
) -> Result<(), Exit>
    requires { CanBeSaved id bytes.now }
    ensures ends { IfSome (B.seen board.old).told
        (λ t. EndsUnless (saving_refusal t.volatile.slow id t.here.store) result) }
    ensures does { (t : Told) → (B.seen board.old).told ≡ Some t
        → DoesAsking B.seen (IsDevice (device_of t))
        (saving_refusal t.volatile.slow id t.here.store ≡ None)
        (acts_of (write_calls driver.now bytes.now (device_of t)))
        (print_acts (done_line number)) result board.old board.new }
    ensures ready { (ledger : Ledger) → IsReady ledger (B.seen board.old)
        → OnOk result (IsReady ledger (B.seen board.new)) }
    ensures stop { IfErr result IsStop }
    ensures faults { Causes BoardCause result (B.seen board.old).faults (B.seen board.new).faults }
{
    let done = done_line(alloc, number)?;
    match driver.write(bytes, board) {
        Ok(()) => print(&done, board),
        Err(refused) => Err(driver_exit(refused)),
    }
}
