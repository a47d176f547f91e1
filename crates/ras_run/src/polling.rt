//! A poll of the record store.

ghost use Rattle.std.specs.Prelude.{◌≡◌, Some, IfErr, OnOk};
ghost use Rattle.board_core.specs.Told.{Told};
ghost use Rattle.erst_interp.specs.Admission.{IsAdmittedTable};
ghost use Rattle.ras_events.specs.Making.{polled};
ghost use Rattle.ras_exit.specs.Causes.{BoardCause, Causes};
ghost use Rattle.ras_exit.specs.Endings.{IsStop};
ghost use Rattle.ras_run.specs.declared.ledger.Ledger.{Ledger};
ghost use Rattle.ras_records.specs.Polls.{readable_ids};
ghost use Rattle.ras_run.specs.LineActs.{DoesPoll};
ghost use Rattle.ras_run.specs.Taking.{IsReady};

use crate::Ledger;
use crate::counting::tell_made;
use crate::driving::driver_exit;
use board_core::Board;
use dimm_topology::Topology;
use erst_driver::Driver;
use erst_store::RANGE_LENGTH;
use ras_exit::{Exit, print};
use ras_records::{Looked, clear_all, look};
use std::alloc::Global;

/// Polls the record store, by the line of this number and the table that drives the store: reads
/// each record; appends, counts and prints the records' reports at this time in seconds, as
/// `tell_made` does; clears the readable records; and prints the done line. All memory is allocated
/// before the new entries are appended.
///
/// # Errors
///
/// `ErstBusy`: if and only if the device is too slow and the store has a record.
/// `Full`: if and only if there is no room for what the records report. In both cases nothing was
/// appended, printed or cleared.
/// `NoMemory`: only if memory runs out, and never after the new entries are appended.
/// `DiskFault`, `RegisterFault`, `PrintFault`: only if such a call failed.
pub(crate) fn poll_store<B: Board>(
    alloc: Global,
    number: u64,
    seconds: u64,
    driver: &Driver,
    topology: &Topology,
    ledger: &mut Ledger,
    board: &mut B,
) -> Result<(), Exit>
    requires ready { IsReady ledger.old (B.seen board.old) }

    ensures polls { (t : Told) → (B.seen board.old).told ≡ Some t → IsAdmittedTable driver.now
        → DoesPoll B.seen driver.now t number
        (polled topology.now seconds t.here.store) (readable_ids t.here.store)
        result ledger.old ledger.new board.old board.new }
    ensures ready { OnOk result
        (IsReady ledger.new (B.seen board.new)) }
    ensures stop { IfErr result IsStop }
    ensures faults { Causes BoardCause result (B.seen board.old).faults (B.seen board.new).faults }
{
    let mut buffer = Vec::new(alloc);
    if buffer.resize(RANGE_LENGTH, 0).is_err() {
        return Err(Exit::NoMemory);
    }
    let found = look(alloc, seconds, driver, topology, &mut buffer, board);
    let Looked { made, readable } = match found {
        Ok(looked) => looked,
        Err(refused) => return Err(driver_exit(refused)),
    };
    let done = tell_made(alloc, number, made, ledger, board)?;
    match clear_all(driver, &readable, board) {
        Ok(()) => print(&done, board),
        Err(refused) => Err(driver_exit(refused)),
    }
}
