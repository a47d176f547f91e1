//! The operations on the record store.

ghost use Rattle.std.specs.Prelude.{◌≡◌, ◌≤◌, length, IfSome, IfOk, OnOk};
ghost use Rattle.erst_store.specs.Actions.{range_length};
ghost use Rattle.ras_base.specs.LittleEndian.{number_at};
ghost use Rattle.erst_store.specs.Device.{header_length, length_place};
ghost use Rattle.erst_store.specs.Store.{ids, most_records};
ghost use Rattle.erst_interp.specs.Admission.{IsAdmittedTable};
ghost use Rattle.erst_driver.specs.Operations.{AreInside, actions_of, asks, clear_calls, list_calls, write_calls};
ghost use Rattle.erst_driver.specs.Answers.{Clears, HoldsRecord, IsAnswered, ListsRecords, Puts, RunsOperation, Stays, answer_of, answer_on_found, answer_on_put, answer_within, read_calls, written_id};
ghost use Rattle.erst_driver.specs.Steps.Operating.{Collects, HasDevice, ListsOut, Operates};

use crate::refusals::DriverRefused;
use crate::step::{Step, clear_steps, read_steps, write_steps};
use board_core::Board;
use erst_interp::Table;
use erst_store::MOST_RECORDS;
use erst_store::actions::{
    CHECK_BUSY_STATUS, END_OPERATION, GET_COMMAND_STATUS, GET_RECORD_IDENTIFIER,
};
use std::alloc::Global;
use std::marker::Model;

/// How often a busy device is checked in one operation.
pub const MOST_CHECKS: u32 = 1000;

// How many identifiers are listed until the end of a list is returned: one more than a store has
// records.
const MOST_LISTINGS: usize = MOST_RECORDS + 1;

// The identifier that is returned at the end of a list.
const NO_RECORD: u64 = u64::MAX;

/// A driver of the device of a board, which uses an admitted table.
#[derive(Drop)]
pub struct Driver {
    table: Table,
}

impl Model for Driver {
    ghost use Rattle.std.specs.Prelude.{List};
    ghost use Rattle.erst_interp.specs.declared.entries.InstructionEntry.{InstructionEntry};
    ghost use Rattle.erst_interp.specs.Admission.{IsAdmittedTable};

    ghost Value = { List (List InstructionEntry) };

    ghost view = { λ d. d.table };

    ghost invariant = { λ d. IsAdmittedTable d.table };
}

impl Driver {
    /// Returns the driver that uses this table, which has to be admitted.
    pub fn new(table: Table) -> Driver
        requires { IsAdmittedTable table }
        ensures { result ≡ table }
    {
        Driver { table }
    }

    /// Removes the record under an identifier from the store, and no other. (ACPI 6.5, section
    /// 18.5.2.3, "Clearing".)
    ///
    /// `Register`: only if a call of the board failed; that call was the last. `Busy`: the device
    /// was busy at `MOST_CHECKS` checks, the last of which is the last action; the record is
    /// removed anyway. `Status`: after the operation was ended, 4 if the store is empty, and 5 if
    /// it has no such record.
    ///
    /// If a crash before the call would leave the store in the model, a crash during it leaves what
    /// a crash before might have left, with the record or without it.
    /// [`crate::operations_on_the_store`] says what the calls themselves leave.
    pub fn clear<B: Board>(&self, id: u64, board: &mut B) -> Result<(), DriverRefused>
        ensures clears { RunsOperation B.seen
            (clear_calls self.now id) (answer_on_found id) (Clears id) result board.old board.new }
    {
        let steps = clear_steps(id);
        self.operate(&steps, board)
    }

    /// Reads the record under an identifier into a buffer of `RANGE_LENGTH` bytes, which then has
    /// the record and zeros after it. The range is read by one call after the operation was ended.
    /// (ACPI 6.5, section 18.5.2.2, "Reading".)
    ///
    /// `Register`: only if a call of the board failed; that call was the last. `Busy`: the device
    /// was busy at `MOST_CHECKS` checks, the last of which is the last action. `Status`: after the
    /// operation was ended, 4 if the store is empty, and 5 if it has no such record. If a crash
    /// before the call would leave the store in the model, a crash during it leaves what a crash
    /// before might have left.
    pub fn read<B: Board>(
        &self,
        id: u64,
        buf: &mut [u8],
        board: &mut B,
    ) -> Result<(), DriverRefused>
        requires { length buf.old ≡ range_length }
        ensures reads { RunsOperation B.seen
            (read_calls self.now id) (answer_on_found id) Stays result board.old board.new }
        ensures record_read { OnOk result (IfSome (B.seen board.old).told
            (λ t. HoldsRecord id t.here.store buf.new)) }
    {
        let steps = read_steps(id);
        self.operate(&steps, board)?;
        board.range_read(0, buf)?;
        Ok(())
    }

    /// Puts a record into the store, under the identifier in its header, and leaves all others.
    /// Requires that it has 128 to `RANGE_LENGTH` bytes, as many as its header says. (ACPI 6.5,
    /// section 18.5.2.1, "Writing".)
    ///
    /// `Register`: only if a call of the board failed; that call was the last. `Busy`: the device
    /// was busy at `MOST_CHECKS` checks, the last of which is the last action; the record is put
    /// anyway. `Status`: after the operation was ended, 1 if the identifier is 0 or all ones, or
    /// the store is full and has no record under it.
    ///
    /// If a crash before the call would leave the store in the model, a crash during it leaves what
    /// a crash before might have left, with the record put or not.
    /// [`crate::operations_on_the_store`] says what the calls themselves leave.
    pub fn write<B: Board>(&self, bytes: &[u8], board: &mut B) -> Result<(), DriverRefused>
        requires fits { (header_length ≤ length bytes.now)
            × (length bytes.now ≤ range_length) }
        requires whole { number_at length_place 4 bytes.now ≡ length bytes.now }
        ensures writes { RunsOperation B.seen
            (write_calls self.now bytes.now) (answer_on_put (written_id bytes.now)) (Puts bytes.now)
            result board.old board.new }
    {
        board.range_write(0, bytes)?;
        let steps = write_steps();
        self.operate(&steps, board)
    }

    /// Returns the identifiers of the records, in the store's order. They are first listed to the
    /// end of the list, wherever a listing was, and then from the first one on. (ACPI 6.5, section
    /// 18.5.2.2, "Reading".)
    ///
    /// `Register`: only if a call of the board failed; that call was the last. `NoMemory`: only if
    /// memory runs out, after some of the actions. No other error is returned. If a crash before
    /// the call would leave the store in the model, a crash during it leaves what a crash before
    /// might have left.
    pub fn ids<B: Board>(&self, alloc: Global, board: &mut B) -> Result<Vec<u64>, DriverRefused>
        ensures lists { ListsRecords B.seen (list_calls self.now) result
            board.old board.new }
        ensures ids { IfOk result (λ found. IfSome (B.seen board.old).told
            (λ t. found.items ≡ ids t.here.store)) }
        ensures few { IfOk result (λ found. length found.items ≤ most_records) }
    {
        self.list_to_end(board)?;
        self.collect(alloc, board)
    }

    // Lists identifiers until the end of the list is returned.
    fn list_to_end<B: Board>(&self, board: &mut B) -> Result<(), DriverRefused>
        ensures lists { ListsOut self.now result
            (B.seen board.old)
            (B.seen board.new) }
        ensures device { HasDevice self.now (B.seen board.old).told }
    {
        for _ in 0..MOST_LISTINGS {
            if self.table.run(GET_RECORD_IDENTIFIER as u8, 0, board)? == NO_RECORD {
                return Ok(());
            }
        }
        Ok(())
    }

    // Collects identifiers from the cursor on, until the end of the list is returned or there are
    // as many as a store can contain.
    fn collect<B: Board>(&self, alloc: Global, board: &mut B) -> Result<Vec<u64>, DriverRefused>
        ensures collects { Collects (λ v. v.items) self.now result
            (B.seen board.old)
            (B.seen board.new) }
    {
        let mut found = Vec::new(alloc);
        for _ in 0..MOST_RECORDS {
            let id = self.table.run(GET_RECORD_IDENTIFIER as u8, 0, board)?;
            if id == NO_RECORD {
                return Ok(found);
            }
            match found.push(id) {
                Ok(()) => {}
                Err(_) => return Err(DriverRefused::NoMemory),
            }
        }
        Ok(found)
    }

    // Runs the actions of an operation up to its execution, checks the device until it isn't busy,
    // reads its status, and ends the operation.
    fn operate<B: Board>(&self, steps: &[Step], board: &mut B) -> Result<(), DriverRefused>
        requires { AreInside steps.now }
        ensures operates { Operates self.now (actions_of steps.now) (answer_of steps.now) result
            (B.seen board.old)
            (B.seen board.new) }
        ensures refused { IsAnswered result }
        ensures device { HasDevice self.now (B.seen board.old).told }
    {
        for step in steps {
            self.table.run(step.action as u8, step.input, board)?;
        }
        self.wait(board)?;
        let status = self.table.run(GET_COMMAND_STATUS as u8, 0, board)?;
        self.table.run(END_OPERATION as u8, 0, board)?;
        if status == 0 {
            Ok(())
        } else {
            Err(DriverRefused::Status(status))
        }
    }

    // Checks the device until it isn't busy.
    fn wait<B: Board>(&self, board: &mut B) -> Result<(), DriverRefused>
        ensures waits { Operates self.now (λ d. asks d.busy) (λ d. answer_within d.busy) result
            (B.seen board.old)
            (B.seen board.new) }
        ensures refused { IsAnswered result }
        ensures device { HasDevice self.now (B.seen board.old).told }
    {
        for _ in 0..MOST_CHECKS {
            if self.table.run(CHECK_BUSY_STATUS as u8, 0, board)? == 0 {
                return Ok(());
            }
        }
        Err(DriverRefused::Busy)
    }
}
