//! Listing and reading the store's records.

ghost use Rattle.std.specs.Prelude.{◌≡◌, ◌≤◌, ◌+◌, ℕ, [], ◌∷◌, ◌++◌, if◌then◌else◌, IfSome, OnOk, length};
ghost use Rattle.std.specs.Result.{is_ok};
ghost use Rattle.board_core.specs.Told.{Relates, device_of};
ghost use Rattle.cper_records.specs.Readable.{read_under};
ghost use Rattle.erst_store.specs.Actions.{range_length};
ghost use Rattle.erst_store.specs.DeviceLaws.{IsDevice};
ghost use Rattle.erst_store.specs.Store.{ids as ids_in, most_records};
ghost use Rattle.erst_interp.specs.Admission.{IsAdmittedTable};
ghost use Rattle.erst_interp.specs.Run.{KeepsButDevice};
ghost use Rattle.erst_driver.specs.Answers.{DoesListing, HasCauseIn, read_calls};
ghost use Rattle.ras_events.specs.Making.{piece_of};
ghost use Rattle.ras_records.specs.Each.{each_calls};
ghost use Rattle.ras_records.specs.Polls.{IsBounded, Looks, look_calls};
ghost use Rattle.ras_records.specs.Steps.Reading.{ReachesTo};

use board_core::Board;
use cper_records::read_stored;
use dimm_topology::Topology;
use erst_driver::{Driver, DriverRefused};
use ras_base::NoMemory;
use ras_events::Made;
use ras_panic::report_of_stored;
use std::alloc::Global;

/// What was found in the record store.
#[derive(Debug, Drop)]
pub struct Looked {
    /// A piece for each record, in the store's order: its report, or why it can't be read.
    pub made: Made,
    /// The identifiers of the readable records, in the store's order.
    pub readable: Vec<u64>,
}

impl Looked {
    // Returns an empty list.
    fn new(alloc: Global) -> Looked
        ensures made { result.made ≡ [] }
        ensures readable { result.readable.items ≡ [] }
    {
        Looked {
            made: Made::new(alloc),
            readable: Vec::new(alloc),
        }
    }

    // Appends the record in the buffer: its report, or why it can't be read.
    fn push(
        &mut self,
        alloc: Global,
        seconds: u64,
        topology: &Topology,
        id: u64,
        buffer: &[u8],
    ) -> Result<(), NoMemory>
        requires { length buffer.now ≤ range_length }
        ensures made { OnOk result (self.new.made
            ≡ self.old.made ++ piece_of topology.now seconds id (read_under id buffer.now) ∷ []) }
        ensures readable { OnOk result (self.new.readable.items ≡ self.old.readable.items
            ++ (if is_ok (read_under id buffer.now) then id ∷ [] else [])) }
        ensures reaches { (count : ℕ) → ReachesTo count self.old → OnOk result
            (ReachesTo (count + 1) self.new) }
    {
        match read_stored(id, buffer) {
            Ok(rec) => {
                let report = report_of_stored(alloc, seconds, &rec, topology)?;
                self.made.push_report(report)?;
                self.readable.push(id)?;
            }
            Err(why) => self.made.push_unread(id, why)?,
        }
        Ok(())
    }
}

/// Lists the records of the store and reads each, and returns what it found. (ACPI 6.5, section
/// 18.5.2.2, "Reading".)
///
/// # Errors
///
/// The first call that fails is the last. `Register`: if and only if a call of the board failed.
/// `Busy`: the device was busy at each of the most checks, which happens if and only if it is too
/// slow and the store has a record. `NoMemory`: only if memory runs out, after some of the calls.
/// `Status` is never returned, because the device has the records that it lists.
pub fn look<B: Board>(
    alloc: Global,
    seconds: u64,
    driver: &Driver,
    topology: &Topology,
    buffer: &mut [u8],
    board: &mut B,
) -> Result<Looked, DriverRefused>
    requires { length buffer.old ≡ range_length }
    ensures does { IfSome (B.seen board.old).told (λ t. DoesListing B.seen
        (look_calls driver.now t) result board.old board.new) }
    ensures looked { IsAdmittedTable driver.now → IfSome (B.seen board.old).told
        (λ t. Looks topology.now seconds result t) }
    ensures bounded { IsBounded result }
    ensures kept { Relates KeepsButDevice (B.seen board.old).told (B.seen board.new).told }
    ensures cause { HasCauseIn result (B.seen board.old).faults (B.seen board.new).faults }
    ensures device { IfSome (B.seen board.old).told (λ t. IsDevice (device_of t)) }
{
    let ids = driver.ids(alloc, board)?;
    read_all(alloc, seconds, driver, topology, &ids, buffer, board)
}

// Reads the records under these identifiers, one after another.
fn read_all<B: Board>(
    alloc: Global,
    seconds: u64,
    driver: &Driver,
    topology: &Topology,
    ids: &[u64],
    buffer: &mut [u8],
    board: &mut B,
) -> Result<Looked, DriverRefused>
    requires range { length buffer.old ≡ range_length }
    requires few { length ids.now ≤ most_records }
    ensures does { IfSome (B.seen board.old).told (λ t. DoesListing B.seen
        (each_calls (read_calls driver.now) ids.now t) result board.old board.new) }
    ensures looked { IsAdmittedTable driver.now → IfSome (B.seen board.old).told (λ t.
        IsDevice (device_of t) → ids.now ≡ ids_in t.here.store
        → Looks topology.now seconds result t) }
    ensures bounded { IsBounded result }
    ensures kept { Relates KeepsButDevice (B.seen board.old).told (B.seen board.new).told }
    ensures cause { HasCauseIn result (B.seen board.old).faults (B.seen board.new).faults }
{
    let mut looked = Looked::new(alloc);
    for id in ids {
        driver.read(*id, buffer, board)?;
        looked.push(alloc, seconds, topology, *id, buffer)?;
    }
    Ok(looked)
}
