//! The device of a board, over the record store of the working folder.
ghost use Rattle.std.specs.Prelude.{◌≡◌, ◌+◌, ◌≤◌, [], false, length, take, drop, Some, IsOk, IsTrue, OnOk, OnErr, IfOk, IfSome, IsErr};
ghost use Rattle.board_core.specs.Cause.{HasCause, put_failure};
ghost use Rattle.board_core.specs.Told.{AnswersPut, after_put, after_range_write, after_reg_write, register_in};
ghost use Rattle.erst_store.specs.declared.device.Command.TheVariants.{Clear};
ghost use Rattle.erst_store.specs.Actions.{execute_operation, range_length};
ghost use Rattle.erst_store.specs.Device.{Device, act, with_put};
ghost use Rattle.erst_store.specs.DeviceLaws.{IsDevice, MayChange};
ghost use Rattle.erst_store.specs.Store.{AnswersRefusal, refusal_of};
ghost use Rattle.erst_store.specs.StoreFile.{store_bytes};
ghost use Rattle.host_system.specs.View.{seen_now, IsFileOf};
ghost use Rattle.host_system.specs.FolderPast.{bytes_named};
ghost use Rattle.ras_host.specs.BoardState.{kept_for};
ghost use Rattle.ras_host.specs.Steps.Failures.{call_answer, put_answer, system_failure};
ghost use Rattle.ras_host.specs.Steps.KeptDevice.{Acts, Does, IfRefused, IsChange, IsHere, IsInStep, IsOff, IsSaved, IsThere, IsUsed, Keeps, Looks, Puts, Stays, StaysOff, StaysOrLoses, Turned, after_answer, device_in};

use crate::faults::{CallFailed, PutFailed};
use crate::saved::{RECORD_HEADING, Saved};
use board_core::{Failed, Reg};
use erst_store::{Dev, PutRefused, StoreFile, file_laws};
use host_system::{FileName, System, replace_store};
use std::alloc::Global;
use std::mem::replace;

/// The device of a board.
#[derive(Drop)]
pub enum Kept {
    /// The device wasn't used yet.
    Unread,
    /// The device, whose store is in its file.
    Here(Saved),
    /// A call changed the device, and the change may not have reached the store's file, which has
    /// the store from before the call or from after it. So the device isn't used again. `before`
    /// has an empty store.
    Lost { before: Dev, after: Dev },
    /// The device isn't used: the board is a report's, or the store's file couldn't be read.
    Unreadable,
}

/// A change of the device whose store may not be in its file yet: the device from before, over an
/// empty store, the device from after, and whether its store has other bytes than the file.
#[derive(Drop)]
struct Change {
    before: Dev,
    made: Saved,
    differs: bool,
}

impl Kept {
    /// Returns the device before its first use: a run's if `how` is 1. A report uses none.
    pub fn new(how: u8) -> Kept
        ensures { result ≡ kept_for how }
    {
        match how {
            1 => Kept::Unread,
            _ => Kept::Unreadable,
        }
    }

    // Takes the device out, reading it at its first use. The caller puts it back, or marks it as
    // lost.
    fn take<S: System>(&mut self, alloc: Global, system: &mut S) -> Result<Saved, CallFailed>
        requires { IfSome (S.told system.old) (IsInStep self.old) }
        ensures taken { IfOk result (λ saved. IfSome (S.told system.old)
            (λ p. saved.device ≡ device_in self.old p)) }
        ensures used { IfOk result (λ saved. IsUsed self.old saved.device) }
        ensures filed { IfOk result (λ saved. IfSome (S.told system.old)
            (λ p. IsFileOf saved.device.store (bytes_named FileName.Store p))) }
        ensures answers { IsThere self.old → IsOk result }
        ensures told { S.told system.new ≡ S.told system.old }
        ensures lost { OnErr result (IfSome (S.told system.old) (Keeps self.old self.new)) }
        ensures in_step { OnErr result (IfSome (S.told system.new) (IsInStep self.new)) }
        ensures off { IsOff self.old → IsErr result × IsOff self.new }
        ensures cause { HasCause (S.faults system.old) (S.faults system.new)
            (system_failure result) }
    {
        match replace(self, Kept::Unreadable) {
            Kept::Here(saved) => Ok(saved),
            Kept::Unread => Saved::read(alloc, system),
            lost => {
                *self = lost;
                Err(CallFailed::Refused)
            }
        }
    }

    /// Returns whether every change of the device reached the store's file.
    pub fn is_saved(&self) -> bool
        ensures saved { IsTrue result → IsSaved self.now }
        ensures lost { IsSaved self.now → IsTrue result }
    {
        !matches!(self, Kept::Lost { .. })
    }

    // Puts the device back.
    fn put_back(&mut self, saved: Saved)
        ensures here { self.new ≡ Kept.Here saved }
        ensures device { IsDevice saved.device }
    {
        let _store = saved.device.store();
        *self = Kept::Here(saved);
    }

    /// Reads a register.
    pub fn reg_read<S: System>(
        &mut self,
        alloc: Global,
        reg: Reg,
        system: &mut S,
    ) -> Result<u64, CallFailed>
        requires { IfSome (S.told system.old) (IsInStep self.old) }
        ensures value { IfOk result (λ n. IfSome (S.told system.old)
            (λ p. n ≡ register_in reg (device_in self.old p))) }
        ensures reads { IfOk result (λ n. (d : Device) → IsHere self.new d → n ≡ register_in reg d) }
        ensures looks { Looks self.old self.new result (S.told system.old) (S.told system.new) }
        ensures off { IsOff self.old → StaysOff self.old self.new (S.told system.old)
            (S.told system.new) }
        ensures cause { HasCause (S.faults system.old) (S.faults system.new)
            (system_failure result) }
    {
        let saved = self.take(alloc, system)?;
        let number = register_of(reg, &saved.device);
        self.put_back(saved);
        Ok(number)
    }

    /// Writes a number to a register. If that starts an action that changes the store, the store is
    /// written to its file.
    pub fn reg_write<S: System>(
        &mut self,
        alloc: Global,
        reg: Reg,
        value: u64,
        system: &mut S,
    ) -> Result<(), CallFailed>
        requires { IfSome (S.told system.old) (IsInStep self.old) }
        ensures turned { Turned (after_reg_write reg value) self.old self.new result
            (S.told system.old) (S.told system.new) }
        ensures does { OnOk result (Does (after_reg_write reg value) self.old self.new) }
        ensures off { IsOff self.old → StaysOff self.old self.new (S.told system.old)
            (S.told system.new) }
        ensures cause { HasCause (S.faults system.old) (S.faults system.new)
            (system_failure result) }
    {
        let saved = self.take(alloc, system)?;
        match reg {
            Reg::Action if saved.device.may_change(value) => {
                let change = self.act(alloc, saved, value)?;
                self.save(change, system).or(Err(CallFailed::System))
            }
            Reg::Action => self.act_alone(saved, value),
            Reg::Value => {
                self.write_value(saved, value);
                Ok(())
            }
        }
    }

    // Writes a number to the Value register.
    fn write_value(&mut self, mut saved: Saved, value: u64)
        ensures { Acts (after_reg_write Reg.Value value) saved.device self.new }
    {
        saved.device.write_value(value);
        self.put_back(saved);
    }

    // Does an action that doesn't change the store.
    fn act_alone(&mut self, mut saved: Saved, action: u64) -> Result<(), CallFailed>
        requires { ¬ MayChange action saved.device }
        ensures ok { OnOk result (Acts (after_reg_write Reg.Action action) saved.device self.new) }
        ensures err { OnErr result (Acts (λ d. d) saved.device self.new) }
        ensures cause { IsOk (system_failure result) }
    {
        let answer = saved.device.write_action(action);
        self.put_back(saved);
        answer.or(Err(CallFailed::Refused))
    }

    // Does an action that may change the store, whose bytes may not be in the file then.
    fn act(&mut self, alloc: Global, saved: Saved, action: u64) -> Result<Change, CallFailed>
        ensures ok { IfOk result (λ change. IsChange (act action) saved change) }
        ensures err { OnErr result (StaysOrLoses (act action) saved self.new) }
        ensures cause { IsOk (system_failure result) }
    {
        let Ok(before) = saved.device.without_store(alloc) else {
            self.put_back(saved);
            return Err(CallFailed::Refused);
        };
        if saved.device.clears(action) {
            return Ok(cleared(before, saved));
        }
        self.write(alloc, before, saved, action)
    }

    // Does an action that may write a record. Serializes the store then, and keeps the device as
    // lost if memory runs out for that.
    fn write(
        &mut self,
        alloc: Global,
        before: Dev,
        saved: Saved,
        action: u64,
    ) -> Result<Change, CallFailed>
        requires { before ≡ record saved.device { store = [] } }
        ensures ok { IfOk result (λ change. IsChange (act action) saved change) }
        ensures err { OnErr result (StaysOrLoses (act action) saved self.new) }
        ensures cause { IsOk (system_failure result) }
    {
        let Saved { mut device, file } = saved;
        let Ok(()) = device.write_action(action) else {
            self.put_back(Saved { device, file });
            return Err(CallFailed::Refused);
        };
        let Ok(bytes) = device.store().to_bytes(alloc) else {
            *self = Kept::Lost {
                before,
                after: device,
            };
            return Err(CallFailed::Refused);
        };
        Ok(change_to(before, device, bytes, &file))
    }

    // Keeps a changed device once the store's file has the bytes of its store. If that fails, the
    // device is lost, together with the device from before.
    fn save<S: System>(&mut self, change: Change, system: &mut S) -> Result<(), Failed>
        ensures turned { (step : Device → Device) (saved : Saved) → IsChange step saved change
            → IfSome (S.told system.old) (IsInStep (Kept.Here saved))
            → Turned step (Kept.Here saved) self.new result (S.told system.old)
            (S.told system.new) }
        ensures here { OnOk result (self.new ≡ Kept.Here change.made) }
        ensures cause { HasCause (S.faults system.old) (S.faults system.new) result }
    {
        file_laws();
        let Change {
            before,
            made,
            differs,
        } = change;
        if !differs {
            *self = Kept::Here(made);
            return Ok(());
        }
        if replace_store(made.file.as_slice(), system).is_err() {
            *self = Kept::Lost {
                before,
                after: made.device,
            };
            return Err(Failed);
        }
        *self = Kept::Here(made);
        Ok(())
    }

    /// Reads the bytes of the range from the offset `place` on into a buffer. Requires that the
    /// range has that many bytes there.
    pub fn range_read<S: System>(
        &mut self,
        alloc: Global,
        place: u32,
        buf: &mut [u8],
        system: &mut S,
    ) -> Result<(), CallFailed>
        requires within { place + length buf.old ≤ range_length }
        requires in_step { IfSome (S.told system.old) (IsInStep self.old) }
        ensures read { OnOk result (IfSome (S.told system.old)
            (λ p. buf.new ≡ take (length buf.old) (drop place (device_in self.old p).range))) }
        ensures copies { OnOk result ((d : Device) → IsHere self.new d
            → buf.new ≡ take (length buf.old) (drop place d.range)) }
        ensures looks { Looks self.old self.new result (S.told system.old) (S.told system.new) }
        ensures off { IsOff self.old → StaysOff self.old self.new (S.told system.old)
            (S.told system.new) }
        ensures cause { HasCause (S.faults system.old) (S.faults system.new)
            (system_failure result) }
    {
        let saved = self.take(alloc, system)?;
        saved.device.range_read(place, buf);
        self.put_back(saved);
        Ok(())
    }

    /// Writes bytes into the range from the offset `place` on. Requires that the range has that
    /// many bytes there.
    pub fn range_write<S: System>(
        &mut self,
        alloc: Global,
        place: u32,
        bytes: &[u8],
        system: &mut S,
    ) -> Result<(), CallFailed>
        requires within { place + length bytes.now ≤ range_length }
        requires in_step { IfSome (S.told system.old) (IsInStep self.old) }
        ensures turned { Turned (after_range_write place bytes.now) self.old self.new result
            (S.told system.old) (S.told system.new) }
        ensures does { OnOk result (Does (after_range_write place bytes.now) self.old self.new) }
        ensures answers { IsThere self.old → IsOk result }
        ensures told { S.told system.new ≡ S.told system.old }
        ensures off { IsOff self.old → StaysOff self.old self.new (S.told system.old)
            (S.told system.new) }
        ensures cause { HasCause (S.faults system.old) (S.faults system.new)
            (system_failure result) }
    {
        let mut saved = self.take(alloc, system)?;
        saved.device.range_write(place, bytes);
        self.put_back(saved);
        Ok(())
    }

    /// Puts a record into the store, and writes the store to its file. Allocates everything before
    /// it changes the device.
    pub fn put<S: System>(
        &mut self,
        alloc: Global,
        id: u64,
        bytes: &[u8],
        system: &mut S,
    ) -> Result<(), PutFailed>
        requires { IfSome (S.told system.old) (IsInStep self.old) }
        ensures turned { Turned (after_put id bytes.now) self.old self.new (put_answer result)
            (S.told system.old) (S.told system.new) }
        ensures puts { OnOk (put_failure (put_answer result))
            (Puts id bytes.now (put_answer result) self.old self.new) }
        ensures answers { IfSome (S.told system.old)
            (λ p. AnswersPut (put_answer result) (refusal_of id bytes.now (seen_now p).store)) }
        ensures refused { IfRefused (put_answer result) (Stays self.old self.new
            (S.told system.old) (S.told system.new)) }
        ensures off { IsOff self.old → StaysOff self.old self.new (S.told system.old)
            (S.told system.new) }
        ensures cause { HasCause (S.faults system.old) (S.faults system.new)
            (system_failure (call_answer result)) }
    {
        match self.take(alloc, system) {
            Ok(saved) => self.put_into(alloc, saved, id, bytes, system),
            Err(failed) => Err(PutFailed::Call(failed)),
        }
    }

    // Puts a record into the device that was taken out, and writes the store to its file.
    fn put_into<S: System>(
        &mut self,
        alloc: Global,
        saved: Saved,
        id: u64,
        bytes: &[u8],
        system: &mut S,
    ) -> Result<(), PutFailed>
        requires { IfSome (S.told system.old) (IsInStep (Kept.Here saved)) }
        ensures turned { Turned (after_put id bytes.now) (Kept.Here saved) self.new
            (put_answer result) (S.told system.old) (S.told system.new) }
        ensures answers { AnswersPut (put_answer result)
            (refusal_of id bytes.now saved.device.store) }
        ensures here { OnOk (put_failure (put_answer result))
            (IsHere self.new (after_answer id bytes.now (put_answer result) saved.device)) }
        ensures refused { IfRefused (put_answer result) (Stays (Kept.Here saved) self.new
            (S.told system.old) (S.told system.new)) }
        ensures cause { HasCause (S.faults system.old) (S.faults system.new)
            (system_failure (call_answer result)) }
    {
        let Saved { mut device, file } = saved;
        let (before, mut new) = match put_alone(alloc, id, bytes, &mut device) {
            Ok(made) => made,
            Err(refused) => {
                self.put_back(Saved { device, file });
                return Err(PutFailed::Store(refused));
            }
        };
        let Ok(()) = device.store().push_bytes(&mut new) else {
            *self = Kept::Lost {
                before,
                after: device,
            };
            return Err(PutFailed::Call(CallFailed::Refused));
        };
        let change = change_to(before, device, new, &file);
        self.save(change, system)
            .or(Err(PutFailed::Call(CallFailed::System)))
    }
}

// Completes a clear without allocating memory: the record is removed from the device and from the
// file's bytes.
fn cleared(before: Dev, saved: Saved) -> Change
    requires before { before ≡ record saved.device { store = [] } }
    requires begun { saved.device.command ≡ Some Clear }
    ensures { IsChange (act execute_operation) saved result }
{
    let Saved {
        mut device,
        mut file,
    } = saved;
    let differs = device.clear(&mut file);
    Change {
        before,
        made: Saved { device, file },
        differs,
    }
}

// Returns the change to a device that was read from these bytes of its store's file.
fn change_to(before: Dev, device: Dev, bytes: Vec<u8>, had: &StoreFile) -> Change
    requires { bytes.items ≡ store_bytes device.store }
    ensures devices { (result.before ≡ before) × (result.made.device ≡ device) }
    ensures same { result.differs ≡ false → result.made.file ≡ had.now }
{
    let differs = bytes.as_slice() != had.as_slice();
    Change {
        before,
        made: Saved {
            device,
            file: StoreFile::new(bytes),
        },
        differs,
    }
}

// Returns the number in a register of a device.
fn register_of(reg: Reg, device: &Dev) -> u64
    ensures { result ≡ register_in reg device.now }
{
    match reg {
        Reg::Action => device.read_action(),
        Reg::Value => device.read_value(),
    }
}

// Puts a record into a device. Returns the device from before over an empty store, and an empty
// vector with room for the bytes of the store's file.
fn put_alone(
    alloc: Global,
    id: u64,
    bytes: &[u8],
    device: &mut Dev,
) -> Result<(Dev, Vec<u8>), PutRefused>
    ensures ok { IfOk result (λ made. (device.new ≡ with_put id bytes.now device.old)
        × (made.0 ≡ record device.old { store = [] }) × (made.1.items ≡ [])) }
    ensures err { OnErr result (device.new ≡ device.old) }
    ensures refused { AnswersRefusal result (refusal_of id bytes.now device.old.store) }
{
    if let Some(refused) = device.store().refusal(id, bytes) {
        return Err(refused);
    }
    let before = device.without_store(alloc)?;
    let room = device.store().room(alloc, RECORD_HEADING + bytes.len())?;
    device.put(id, bytes)?;
    Ok((before, room))
}
