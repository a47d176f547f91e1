//! What was done to the files, the device and the output of a board in memory, and what they
//! contain now.
ghost use Rattle.std.specs.Prelude.{◌≡◌, ◌+◌, ◌≤◌, [], length, take, drop, IfOk, OnOk, OnErr};
ghost use Rattle.erst_store.specs.Actions.{range_length};
ghost use Rattle.erst_store.specs.DeviceLaws.{IsDevice};
ghost use Rattle.erst_store.specs.Store.{refusal_of, AnswersRefusal};
ghost use Rattle.board_core.specs.declared.board.DiskCall.TheVariants.{Sync};
ghost use Rattle.board_core.specs.Doing.{writes, prints, calls, device, reg_write, range_write, put};
ghost use Rattle.board_core.specs.MemBoard.{Past, new_past, new_told, with_act, past_after, disk_of, now_of};
ghost use Rattle.board_core.specs.Pick.{IsPicked};
ghost use Rattle.board_core.specs.Stop.{file_in, with_file_in};
ghost use Rattle.board_core.specs.Told.{device_of, register_in};

use crate::events::{print, write};
use crate::leaving::picked_bytes;
use crate::{FileNo, Pick, Reg};
use erst_store::{Dev, PutRefused, Store};
use ras_base::NoMemory;
use std::alloc::Global;
use std::marker::Model;

/// Two files, a device and an output in memory, with a record of all that was done to them.
///
/// A write is done in place, and its bytes are recorded as well. The first contents of a file are
/// copied at its first write. Of the record store only the first state is copied: later changes of
/// the device are recorded as the calls that made them.
#[derive(Drop)]
pub struct History {
    alloc: Global,
    zero: MemFile,
    one: MemFile,
    device: Dev,
    out: Vec<u8>,
    first_store: Store,
    slow: u64,
    events: Vec<MemChange>,
}

/// A file in memory: its bytes and, once something was written, its first bytes.
#[derive(Drop)]
pub struct MemFile {
    pub bytes: Vec<u8>,
    pub first: Option<Vec<u8>>,
}

/// A change of the board, as it is recorded.
#[derive(Drop)]
pub enum MemChange {
    /// Bytes were written at an offset of a file.
    Wrote(FileNo, u64, Vec<u8>),
    /// A file was synced.
    Synced(FileNo),
    /// A number was written to a register of the device.
    WroteRegister(Reg, u64),
    /// Bytes were written at an offset of the device's range.
    WroteRange(u32, Vec<u8>),
    /// A record was put into the store.
    Put(u64, Vec<u8>),
    /// A piece was printed.
    Printed(Vec<u8>),
}

impl Model for History {
    ghost use Rattle.board_core.specs.Steps.History.{acts_of, first_bytes, Has};
    ghost use Rattle.board_core.specs.Doing.{after_acts};
    ghost use Rattle.board_core.specs.MemBoard.{Past, new_told};

    ghost Value = { Past };

    ghost view = { λ h. record {
      first = new_told (first_bytes h.zero) (first_bytes h.one) h.first_store h.slow;
      acts = acts_of h.events.items;
    } };

    ghost invariant = { λ h. Has
        (after_acts (acts_of h.events.items)
        (new_told (first_bytes h.zero) (first_bytes h.one) h.first_store h.slow))
        h.zero.bytes.items h.one.bytes.items h.device h.out.items };
}

impl History {
    /// Returns files with these bytes and a new device over this store, with nothing printed.
    pub fn new(
        alloc: Global,
        file0: Vec<u8>,
        file1: Vec<u8>,
        store: Store,
        slow: u64,
    ) -> Result<History, NoMemory>
        ensures { IfOk result (λ history. history
            ≡ new_past (new_told file0.items file1.items store slow)) }
    {
        let first_store = store.copy(alloc)?;
        Ok(History {
            alloc,
            zero: MemFile {
                bytes: file0,
                first: None,
            },
            one: MemFile {
                bytes: file1,
                first: None,
            },
            device: Dev::new(alloc, store, slow)?,
            out: Vec::new(alloc),
            first_store,
            slow,
            events: Vec::new(alloc),
        })
    }

    /// Replaces a file's bytes, before anything else was done.
    pub fn set_file(&mut self, file: FileNo, bytes: Vec<u8>)
        requires { self.old.acts ≡ [] }
        ensures { self.new ≡ new_past (record self.old.first {
          here = with_file_in file bytes.items self.old.first.here;
        }) }
    {
        let set = MemFile { bytes, first: None };
        match file {
            FileNo::Zero => self.zero = set,
            FileNo::One => self.one = set,
        }
    }

    /// Returns a file's bytes.
    pub fn file(&self, file: FileNo) -> &[u8]
        ensures { result.now ≡ file_in file (now_of self.now).here }
    {
        match file {
            FileNo::Zero => &self.zero.bytes,
            FileNo::One => &self.one.bytes,
        }
    }

    /// Returns the bytes printed so far.
    pub fn out(&self) -> &[u8]
        ensures { result.now ≡ (now_of self.now).here.out }
    {
        &self.out
    }

    /// Returns the record store.
    pub fn store(&self) -> &Store
        ensures same { result.now ≡ (now_of self.now).here.store }
        ensures device { IsDevice (device_of (now_of self.now)) }
    {
        self.device.store()
    }

    /// Returns the number in a register of the device.
    pub fn register(&self, reg: Reg) -> u64
        ensures { result ≡ register_in reg (device_of (now_of self.now)) }
    {
        match reg {
            Reg::Action => self.device.read_action(),
            Reg::Value => self.device.read_value(),
        }
    }

    /// Copies bytes of the device's range from `place` on into a buffer, and fills all of it.
    pub fn range_read(&self, place: u32, buf: &mut [u8])
        requires { place + length buf.old ≤ range_length }
        ensures { buf.new
            ≡ take (length buf.old) (drop place (device_of (now_of self.now)).range) }
    {
        self.device.range_read(place, buf);
    }

    /// Writes bytes into a file at an offset, which is at most its length.
    pub fn write(&mut self, file: FileNo, place: u64, bytes: &[u8]) -> Result<(), NoMemory>
        requires { place ≤ length (file_in file (now_of self.old).here) }
        ensures ok { OnOk result (self.new ≡ with_act (writes file place bytes.now) self.old) }
        ensures err { OnErr result (self.new ≡ self.old) }
    {
        match file {
            FileNo::Zero => write(
                self.alloc,
                &mut self.zero,
                &mut self.events,
                file,
                place,
                bytes,
            ),
            FileNo::One => write(
                self.alloc,
                &mut self.one,
                &mut self.events,
                file,
                place,
                bytes,
            ),
        }
    }

    /// Records that a file was synced.
    pub fn sync(&mut self, file: FileNo) -> Result<(), NoMemory>
        ensures ok { OnOk result (self.new ≡ with_act (calls (Sync file)) self.old) }
        ensures err { OnErr result (self.new ≡ self.old) }
    {
        self.events.push(MemChange::Synced(file))?;
        Ok(())
    }

    /// Writes a number to a register of the device.
    pub fn write_register(&mut self, reg: Reg, value: u64) -> Result<(), NoMemory>
        ensures ok { OnOk result (self.new
            ≡ with_act (device (reg_write reg value)) self.old) }
        ensures err { OnErr result (self.new ≡ self.old) }
    {
        self.events.reserve(1)?;
        match reg {
            Reg::Action => self.device.write_action(value)?,
            Reg::Value => self.device.write_value(value),
        }
        self.events.push(MemChange::WroteRegister(reg, value))?;
        Ok(())
    }

    /// Writes bytes into the device's range from an offset on.
    pub fn range_write(&mut self, place: u32, bytes: &[u8]) -> Result<(), NoMemory>
        requires { place + length bytes.now ≤ range_length }
        ensures ok { OnOk result (self.new
            ≡ with_act (device (range_write place bytes.now)) self.old) }
        ensures err { OnErr result (self.new ≡ self.old) }
    {
        let kept = Vec::from_slice(self.alloc, bytes)?;
        self.events.push(MemChange::WroteRange(place, kept))?;
        self.device.range_write(place, bytes);
        Ok(())
    }

    /// Puts a record into the store and returns what the store returns, or `NoMemory` if the put
    /// can't be recorded.
    pub fn put(&mut self, id: u64, bytes: &[u8]) -> Result<Result<(), PutRefused>, NoMemory>
        ensures past { IfOk result (λ answer. self.new
            ≡ past_after answer (device (put id bytes.now)) self.old) }
        ensures answers { IfOk result (λ answer. AnswersRefusal answer
            (refusal_of id bytes.now (now_of self.old).here.store)) }
        ensures kept { OnErr result (self.new ≡ self.old) }
    {
        let kept = Vec::from_slice(self.alloc, bytes)?;
        self.events.reserve(1)?;
        match self.device.put(id, bytes) {
            Ok(()) => {
                self.events.push(MemChange::Put(id, kept))?;
                Ok(Ok(()))
            }
            Err(refused) => Ok(Err(refused)),
        }
    }

    /// Appends bytes to the output.
    pub fn print(&mut self, bytes: &[u8]) -> Result<(), NoMemory>
        ensures ok { OnOk result (self.new ≡ with_act (prints bytes.now) self.old) }
        ensures err { OnErr result (self.new ≡ self.old) }
    {
        print(self.alloc, &mut self.out, &mut self.events, bytes)
    }

    /// Returns both files in the state that `pick` names, the store, and how slow the device is.
    pub fn into_left(self, pick: Pick) -> Result<(Vec<u8>, Vec<u8>, Store, u64), NoMemory>
        ensures zero { IfOk result
            (λ left. IsPicked pick (disk_of self).zero (now_of self).here.file0 left.0.items) }
        ensures one { IfOk result
            (λ left. IsPicked pick (disk_of self).one (now_of self).here.file1 left.1.items) }
        ensures store { IfOk result (λ left. left.2 ≡ (now_of self).here.store) }
        ensures slow { IfOk result (λ left. left.3 ≡ self.first.volatile.slow) }
    {
        let History {
            zero,
            one,
            device,
            slow,
            events,
            ..
        } = self;
        let file0 = picked_bytes(zero, &events, FileNo::Zero, pick)?;
        let file1 = picked_bytes(one, &events, FileNo::One, pick)?;
        Ok((file0, file1, device.into_store(), slow))
    }
}
