//! Clearing records.

ghost use Rattle.std.specs.Prelude.{◌≢◌, [], IfSome};
ghost use Rattle.board_core.specs.Doing.{Does, ended_by};
ghost use Rattle.board_core.specs.Told.{Relates, device_of};
ghost use Rattle.erst_store.specs.DeviceLaws.{IsDevice};
ghost use Rattle.erst_interp.specs.Run.{KeepsButDevice, acts_of};
ghost use Rattle.erst_driver.specs.Answers.{AnswersAs, EndsOperation, driver_end};
ghost use Rattle.erst_driver.specs.Operations.{clear_calls};
ghost use Rattle.ras_records.specs.Each.{each_answer, each_calls};

use board_core::Board;
use erst_driver::{Driver, DriverRefused};

/// Clears the records under these identifiers, in order. (ACPI 6.5, section 18.5.2.3, "Clearing".)
///
/// # Errors
///
/// The first clear that fails is the last. `Register`: if and only if a call of the board failed.
/// `Busy`: the device was busy at each of the most checks. `Status`: the store has no such record.
pub fn clear_all<B: Board>(driver: &Driver, ids: &[u64], board: &mut B) -> Result<(), DriverRefused>
    ensures does { IfSome (B.seen board.old).told (λ t. Does B.seen
        (acts_of (each_calls (clear_calls driver.now) ids.now t)) (ended_by driver_end result)
        board.old board.new) }
    ensures answers { IfSome (B.seen board.old).told
        (λ t. AnswersAs result (each_answer (clear_calls driver.now) ids.now t)) }
    ensures kept { Relates KeepsButDevice (B.seen board.old).told (B.seen board.new).told }
    ensures ends { EndsOperation result (B.seen board.old).faults (B.seen board.new).faults }
    ensures device { ids.now ≢ [] → IfSome (B.seen board.old).told (λ t. IsDevice (device_of t)) }
{
    for id in ids {
        driver.clear(*id, board)?;
    }
    Ok(())
}
