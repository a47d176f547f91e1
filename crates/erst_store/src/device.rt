//! The error record serialization device.
ghost use Rattle.std.specs.Prelude.{◌≡◌, ◌≢◌, ◌+◌, ◌≤◌, ◌↔◌, [], length, take, drop, Some, IfOk, OnOk, OnErr, IsTrue, IsFalse};
ghost use Rattle.std.specs.Option.{option_map};
ghost use Rattle.erst_store.specs.declared.device.Command.TheVariants.{Write, Clear};
ghost use Rattle.erst_store.specs.Actions.{execute_operation, range_length};
ghost use Rattle.erst_store.specs.Store.{refusal_of, AnswersRefusal};
ghost use Rattle.erst_store.specs.Device.{new_device, act, after_check, after_listing, after_write_command, after_read, after_clear, after_command, busy_device, range_with_record, range_with, with_put, status_number};
ghost use Rattle.erst_store.specs.DeviceLaws.{IsDevice, MayChange};
ghost use Rattle.erst_store.specs.StoreFile.{store_bytes};
ghost use Rattle.erst_store.specs.Steps.DeviceView.{FindsRecord};

use crate::actions::{
    BEGIN_CLEAR_OPERATION, BEGIN_DUMMY_WRITE_OPERATION, BEGIN_READ_OPERATION,
    BEGIN_WRITE_OPERATION, CHECK_BUSY_STATUS, END_OPERATION, EXECUTE_OPERATION, GET_COMMAND_STATUS,
    GET_ERROR_LOG_ADDRESS_RANGE, GET_ERROR_LOG_ADDRESS_RANGE_ATTRIBUTES,
    GET_ERROR_LOG_ADDRESS_RANGE_LENGTH, GET_RECORD_COUNT, GET_RECORD_IDENTIFIER, RANGE_ADDRESS,
    RANGE_ATTRIBUTES, RANGE_LENGTH, SET_RECORD_IDENTIFIER, SET_RECORD_OFFSET,
};
use crate::file::StoreFile;
use crate::store::{PutRefused, Store};
use ras_base::NoMemory;
use ras_base::little_endian::{u32_at, u64_at};
use std::alloc::Global;
use std::marker::Model;

// The length of a record's header, and where in it the record's length and its identifier are (UEFI
// 2.10, N.2.1).
const HEADER_LENGTH: usize = 128;

const LENGTH_PLACE: usize = 20;

const ID_PLACE: usize = 96;

/// The identifier that is returned after the last record.
const NO_RECORD: u64 = u64::MAX;

/// A command that EXECUTE carries out.
#[derive(Clone, Copy, Debug, PartialEq, Eq)]
pub enum Command {
    /// Puts the record in the range into the store.
    Write,
    /// Copies a record into the range.
    Read,
    /// Removes a record.
    Clear,
    /// Does nothing, with success.
    Dummy,
}

/// How the last command ended (ACPI 6.5, 18.5.1.1).
#[derive(Clone, Copy, Debug, PartialEq, Eq)]
pub enum CommandStatus {
    /// 0: the command was carried out.
    Success,
    /// 1: the record doesn't fit into the range or the store, or it isn't a record.
    NotEnoughSpace,
    /// 4: the store is empty.
    StoreEmpty,
    /// 5: no record has the identifier, or no command was begun.
    NotFound,
}

impl CommandStatus {
    // Returns the number of a status (ACPI 6.5, 18.5.1.1).
    fn number(self) -> u64
        ensures { result ≡ status_number self }
    {
        match self {
            CommandStatus::Success => 0,
            CommandStatus::NotEnoughSpace => 1,
            CommandStatus::StoreEmpty => 4,
            CommandStatus::NotFound => 5,
        }
    }
}

/// The error record serialization device: a record store behind two registers, Action and Value,
/// and an address range of `RANGE_LENGTH` bytes.
#[derive(Drop)]
pub struct Dev {
    store: Store,
    action: u64,
    value: u64,
    command: Option<Command>,
    id: u64,
    offset: u64,
    status: CommandStatus,
    busy: u64,
    cursor: usize,
    range: Vec<u8>,
    slow: u64,
}

impl Model for Dev {
    ghost use Rattle.erst_store.specs.Device.{Device};
    ghost use Rattle.erst_store.specs.DeviceLaws.{IsDevice};

    ghost Value = { Device };

    ghost view = { λ d. record {
      store = d.store;
      action = d.action;
      value = d.value;
      command = d.command;
      id = d.id;
      offset = d.offset;
      status = d.status;
      busy = d.busy;
      cursor = d.cursor;
      range = d.range.items;
      slow = d.slow;
    } };

    ghost invariant = { λ d. IsDevice (record {
      store = d.store;
      action = d.action;
      value = d.value;
      command = d.command;
      id = d.id;
      offset = d.offset;
      status = d.status;
      busy = d.busy;
      cursor = d.cursor;
      range = d.range.items;
      slow = d.slow;
    }) };
}

impl Dev {
    /// Returns a device over this store, with no command begun, all numbers 0 and a range of zeros.
    /// It is busy for `slow` checks after each EXECUTE_OPERATION.
    pub fn new(alloc: Global, store: Store, slow: u64) -> Result<Dev, NoMemory>
        ensures { IfOk result (λ device. device ≡ new_device store slow) }
    {
        let mut range = Vec::new(alloc);
        range.resize(RANGE_LENGTH, 0)?;
        Ok(Dev {
            store,
            action: 0,
            value: 0,
            command: None,
            id: 0,
            offset: 0,
            status: CommandStatus::Success,
            busy: 0,
            cursor: 0,
            range,
            slow,
        })
    }

    /// Returns a device with the same registers and range, over an empty store.
    pub fn without_store(&self, alloc: Global) -> Result<Dev, NoMemory>
        ensures { IfOk result (λ device. device ≡ record self.now { store = [] }) }
    {
        Ok(Dev {
            store: Store::new(alloc),
            range: Vec::from_slice(alloc, &self.range)?,
            ..*self
        })
    }

    /// Writes a number to the Action register, which does the action of that number (ACPI 6.5,
    /// 18.5.1.1).
    ///
    /// `NoMemory`: only at EXECUTE_OPERATION under a write command; the device is then unchanged.
    pub fn write_action(&mut self, action: u64) -> Result<(), NoMemory>
        ensures ok { OnOk result (self.new ≡ act action self.old) }
        ensures err { OnErr result (self.new ≡ self.old) }
        ensures memory { OnErr result ((action ≡ execute_operation)
            × (self.old.command ≡ Some Write)) }
    {
        if action == EXECUTE_OPERATION {
            return self.execute();
        }
        self.act(action);
        Ok(())
    }

    /// Writes a number to the Value register.
    pub fn write_value(&mut self, value: u64)
        ensures { self.new ≡ record self.old { value = value } }
    {
        self.value = value;
    }

    /// Returns the number in the Value register.
    pub fn read_value(&self) -> u64
        ensures { result ≡ self.now.value }
    {
        self.value
    }

    /// Returns the number in the Action register, which is the one last written to it.
    pub fn read_action(&self) -> u64
        ensures { result ≡ self.now.action }
    {
        self.action
    }

    /// Returns whether this action may change the store: EXECUTE_OPERATION after a write or a clear
    /// was begun.
    pub fn may_change(&self, action: u64) -> bool
        ensures { IsTrue result ↔ MayChange action self.now }
    {
        action == EXECUTE_OPERATION && matches!(self.command, Some(Command::Write | Command::Clear))
    }

    /// Returns whether this action carries out a clear: EXECUTE_OPERATION after a clear was begun.
    pub fn clears(&self, action: u64) -> bool
        ensures { IsTrue result ↔ ((action ≡ execute_operation) × (self.now.command ≡ Some Clear)) }
    {
        action == EXECUTE_OPERATION && matches!(self.command, Some(Command::Clear))
    }

    /// Carries out a clear, as EXECUTE_OPERATION does, and removes the record from the bytes of the
    /// store's file too. Returns whether there was such a record. Requires that a clear was begun.
    pub fn clear(&mut self, file: &mut StoreFile) -> bool
        requires begun { self.old.command ≡ Some Clear }
        requires file { file.old ≡ store_bytes self.old.store }
        ensures device { self.new ≡ act execute_operation self.old }
        ensures file { file.new ≡ store_bytes self.new.store }
        ensures none { IsFalse result → file.new ≡ file.old }
        ensures kept { IsDevice self.new }
    {
        let removed = file.remove(&self.store, self.id);
        let status = self.clear_record();
        self.end_command(status);
        removed
    }

    /// Copies the bytes of the range from `place` on into `buf`, and fills all of it. The bytes
    /// have to be inside the range.
    pub fn range_read(&self, place: u32, buf: &mut [u8])
        requires { place + length buf.old ≤ range_length }
        ensures { buf.new ≡ take (length buf.old) (drop place self.now.range) }
    {
        let start = place as usize;
        buf.copy_from_slice(&self.range[start..start + buf.len()]);
    }

    /// Writes bytes into the range from `place` on. They have to fit inside it.
    #[tactic(auto, unfolding(crate::specs::Device::range_with))]
    pub fn range_write(&mut self, place: u32, bytes: &[u8])
        requires { place + length bytes.now ≤ range_length }
        ensures { self.new
            ≡ record self.old { range = range_with place bytes.now self.old.range } }
    {
        let start = place as usize;
        self.range[start..start + bytes.len()].copy_from_slice(bytes);
    }

    /// Returns the store behind the device.
    pub fn store(&self) -> &Store
        ensures same { result.now ≡ self.now.store }
        ensures kept { IsDevice self.now }
    {
        &self.store
    }

    /// Consumes the device, and returns the store behind it.
    pub fn into_store(self) -> Store
        ensures { result ≡ self.store }
    {
        self.store
    }

    /// Puts a record into the store, as `Store::put` does, and starts the listing of identifiers
    /// again from the first.
    ///
    /// After an error the device is unchanged.
    #[tactic(auto, unfolding(crate::specs::Device::with_put))]
    pub fn put(&mut self, id: u64, bytes: &[u8]) -> Result<(), PutRefused>
        ensures ok { OnOk result (self.new ≡ with_put id bytes.now self.old) }
        ensures err { OnErr result (self.new ≡ self.old) }
        ensures refused { AnswersRefusal result (refusal_of id bytes.now self.old.store) }
    {
        self.store.put(id, bytes)?;
        self.cursor = 0;
        Ok(())
    }

    // Does an action other than EXECUTE_OPERATION.
    #[tactic(auto, unfolding(crate::specs::Device::act))]
    fn act(&mut self, action: u64)
        requires { action ≢ execute_operation }
        ensures { self.new ≡ act action self.old }
    {
        self.action = action;
        match action {
            BEGIN_WRITE_OPERATION => self.command = Some(Command::Write),
            BEGIN_READ_OPERATION => self.command = Some(Command::Read),
            BEGIN_CLEAR_OPERATION => self.command = Some(Command::Clear),
            BEGIN_DUMMY_WRITE_OPERATION => self.command = Some(Command::Dummy),
            END_OPERATION => self.command = None,
            SET_RECORD_OFFSET => self.offset = self.value,
            SET_RECORD_IDENTIFIER => self.id = self.value,
            CHECK_BUSY_STATUS => self.check_busy(),
            GET_COMMAND_STATUS => self.value = self.status.number(),
            GET_RECORD_IDENTIFIER => self.list_id(),
            GET_RECORD_COUNT => self.value = self.store.len() as u64,
            GET_ERROR_LOG_ADDRESS_RANGE => self.value = RANGE_ADDRESS,
            GET_ERROR_LOG_ADDRESS_RANGE_LENGTH => self.value = RANGE_LENGTH as u64,
            GET_ERROR_LOG_ADDRESS_RANGE_ATTRIBUTES => self.value = RANGE_ATTRIBUTES,
            _ => {}
        }
    }

    // Sets Value to whether the device is busy, and uses up one busy answer.
    fn check_busy(&mut self)
        ensures { self.new ≡ after_check self.old }
    {
        if self.busy > 0 {
            self.value = 1;
            self.busy -= 1;
        } else {
            self.value = 0;
        }
    }

    // Returns the identifier at the cursor and moves on, or ends the list and starts it again.
    fn list_id(&mut self)
        ensures { self.new ≡ after_listing self.old }
    {
        if self.cursor < self.store.len() {
            self.value = self.store.id(self.cursor);
            self.cursor += 1;
        } else {
            self.value = NO_RECORD;
            self.cursor = 0;
        }
    }

    // Carries out the command.
    #[tactic(auto, unfolding(crate::specs::Device::act))]
    fn execute(&mut self) -> Result<(), NoMemory>
        ensures ok { OnOk result (self.new ≡ act execute_operation self.old) }
        ensures err { OnErr result (self.new ≡ self.old) }
        ensures memory { OnErr result (self.old.command ≡ Some Write) }
    {
        let command = self.command;
        let status = self.carry_out(command)?;
        self.end_command(status);
        Ok(())
    }

    // Records how a command ended, which makes the device busy.
    fn end_command(&mut self, status: CommandStatus)
        ensures { self.new ≡ record (busy_device (record self.old { status = status })) {
          action = execute_operation;
        } }
    {
        self.status = status;
        self.action = EXECUTE_OPERATION;
        self.value = 0;
        self.busy = self.slow;
    }

    // Carries out a command, and returns its status.
    fn carry_out(&mut self, command: Option<Command>) -> Result<CommandStatus, NoMemory>
        ensures ok { IfOk result (λ status.
            record self.new { status = status } ≡ after_command command self.old) }
        ensures err { OnErr result (self.new ≡ self.old) }
        ensures memory { OnErr result (command ≡ Some Write) }
    {
        match command {
            Some(Command::Write) => self.write_record(),
            Some(Command::Read) => Ok(self.read_record()),
            Some(Command::Clear) => Ok(self.clear_record()),
            Some(Command::Dummy) => Ok(CommandStatus::Success),
            None => Ok(CommandStatus::NotFound),
        }
    }

    // Puts the record in the range into the store.
    fn write_record(&mut self) -> Result<CommandStatus, NoMemory>
        ensures ok { IfOk result (λ status. record self.new { status = status } ≡ after_write_command self.old) }
        ensures err { OnErr result (self.new ≡ self.old) }
    {
        let Some((id, bytes)) = record_in(&self.range, self.offset) else {
            return Ok(CommandStatus::NotEnoughSpace);
        };
        match self.store.put(id, bytes) {
            Ok(()) => {
                self.cursor = 0;
                Ok(CommandStatus::Success)
            }
            Err(PutRefused::NoMemory) => Err(NoMemory),
            Err(_) => Ok(CommandStatus::NotEnoughSpace),
        }
    }

    // Copies the record under the identifier into the range, with zeros after it.
    fn read_record(&mut self) -> CommandStatus
        ensures { record self.new { status = result } ≡ after_read self.old }
    {
        if self.store.is_empty() {
            return CommandStatus::StoreEmpty;
        }
        let Some(bytes) = self.store.find(self.id) else {
            return CommandStatus::NotFound;
        };
        if self.offset > (RANGE_LENGTH - bytes.len()) as u64 {
            return CommandStatus::NotEnoughSpace;
        }
        fill_range(&mut self.range, self.offset as usize, bytes);
        CommandStatus::Success
    }

    // Removes the record under the identifier.
    fn clear_record(&mut self) -> CommandStatus
        ensures { record self.new { status = result } ≡ after_clear self.old }
    {
        if self.store.is_empty() {
            return CommandStatus::StoreEmpty;
        }
        if self.store.remove(self.id) {
            self.cursor = 0;
            CommandStatus::Success
        } else {
            CommandStatus::NotFound
        }
    }
}

// Copies bytes into the range from an offset on, and fills it with zeros after them.
fn fill_range(range: &mut [u8], start: usize, bytes: &[u8])
    requires range { length range.old ≡ range_length }
    requires room { start + length bytes.now ≤ range_length }
    ensures { range.new ≡ range_with_record range.old start bytes.now }
{
    let end = start + bytes.len();
    range[start..end].copy_from_slice(bytes);
    range[end..].fill(0);
}

// Returns the identifier and the bytes of the record in the range at an offset, if a whole record
// is there.
#[tactic(auto, using(crate::proofs::DeviceLemmas::out_far))]
fn record_in(range: &[u8], offset: u64) -> Option<(u64, &[u8])>
    requires { length range.now ≡ range_length }
    ensures { FindsRecord range.now offset (option_map (λ x. (x.0, x.1.now)) result) }
{
    if offset > (RANGE_LENGTH - HEADER_LENGTH) as u64 {
        return None;
    }
    let (_, rest) = range.split_at(offset as usize);
    let length = u32_at(rest, LENGTH_PLACE) as usize;
    if length < HEADER_LENGTH {
        return None;
    }
    if rest.len() < length {
        return None;
    }
    Some((u64_at(rest, ID_PLACE), &rest[..length]))
}
