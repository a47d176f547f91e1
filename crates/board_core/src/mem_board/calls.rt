//! The calls of a board in memory.
ghost use Rattle.std.specs.Prelude.{◌≡◌, ◌+◌, ◌≤◌, length, take, drop, Some, IfOk, OnOk};
ghost use Rattle.std.specs.Result.{result_unwrap_or};
ghost use Rattle.erst_store.specs.Actions.{range_length};
ghost use Rattle.erst_store.specs.DeviceLaws.{IsDevice};
ghost use Rattle.erst_store.specs.Store.{refusal_of};
ghost use Rattle.board_core.specs.declared.board.Access.TheVariants.{Read, Write, RangeRead, RangeWrite};
ghost use Rattle.board_core.specs.declared.board.DiskCall.TheVariants.{Size, ReadAt, WriteAt, Sync};
ghost use Rattle.board_core.specs.Cause.{device_call, disk_call, print_call, put_failure};
ghost use Rattle.board_core.specs.Steps.ChangeLemmas.{told_left, text_left};
ghost use Rattle.board_core.specs.Steps.MomentLemmas.{since_earlier};
ghost use Rattle.board_core.specs.Doing.{writes, prints, calls, device, reg_write, range_write, put};
ghost use Rattle.board_core.specs.MemBoard.{told_of, clock_of, settled_disk, steps_of_all, Performs, past_after, with_act};
ghost use Rattle.board_core.specs.MemBoard.{listing, listing_access};
ghost use Rattle.board_core.specs.Told.{file_of, device_of, register_in, ReadsBytes, AnswersPut};

use super::{Fault, MemBoard};
use crate::{Access, Board, BoardPut, DiskCall, Failed, FileNo, Reg};
use ras_base::NoMemory;

impl Board for MemBoard {
    ghost seen = { λ b. record {
      told = Some (told_of b);
      clock = clock_of b.past;
      faults = b.faults;
    } };

    ghost told_may_be_left = { λ b t is. told_left b t is };

    ghost text_is_left = { λ b t left is now. text_left b t left is now };

    ghost counts_earlier = { λ b s t left within may.
        since_earlier (settled_disk b.past.first.here)
        (steps_of_all b.past.acts b.past.first) s t left within may };

    fn size(&mut self, file: FileNo) -> Result<u64, Failed>
        ensures length { IfOk result (λ n. n ≡ length (file_of file (told_of self.old))) }
        ensures does { Performs disk_call (listing (Size file) self.old) self.old.past
            self.old self.new result }
    {
        self.begin_disk(DiskCall::Size(file))?;
        Ok(self.file(file).len() as u64)
    }

    fn read_at(&mut self, file: FileNo, place: u64, buf: &mut [u8]) -> Result<usize, Failed>
        ensures within { IfOk result (λ n. n ≤ length buf.old) }
        ensures read { IfOk result
            (λ n. ReadsBytes place n buf.new (file_of file (told_of self.old))) }
        ensures does { Performs disk_call (listing (ReadAt file place (length buf.old)) self.old)
            self.old.past self.old self.new result }
    {
        self.begin_disk(DiskCall::ReadAt(file, place, buf.len() as u64))?;
        Ok(copy_from(self.file(file), place as usize, buf))
    }

    fn write_at(&mut self, file: FileNo, place: u64, bytes: &[u8]) -> Result<(), Failed>
        requires { place ≤ length (file_of file (told_of self.old)) }
        ensures does { Performs disk_call (listing (WriteAt file place (length bytes.now)) self.old)
            (with_act (writes file place bytes.now) self.old.past) self.old self.new result }
    {
        self.begin_disk(DiskCall::WriteAt(file, place, bytes.len() as u64))?;
        let made = self.history.write(file, place, bytes);
        self.end(Fault::Disk, made)
    }

    fn sync(&mut self, file: FileNo) -> Result<(), Failed>
        ensures does { Performs disk_call (listing (Sync file) self.old)
            (with_act (calls (Sync file)) self.old.past) self.old self.new result }
    {
        self.begin_disk(DiskCall::Sync(file))?;
        let made = self.history.sync(file);
        self.end(Fault::Disk, made)
    }

    fn reg_read(&mut self, reg: Reg) -> Result<u64, Failed>
        ensures value { IfOk result (λ n. n ≡ register_in reg (device_of (told_of self.old))) }
        ensures device { IsDevice (device_of (told_of self.old)) }
        // A read that fails is listed with the number 0.
        ensures does { Performs device_call
            (listing_access (Read reg (result_unwrap_or result 0)) self.old)
            self.old.past self.old self.new result }
    {
        let value = if self.fails_next() {
            0
        } else {
            self.history.register(reg)
        };
        self.begin_device(Access::Read(reg, value))?;
        Ok(value)
    }

    fn reg_write(&mut self, reg: Reg, value: u64) -> Result<(), Failed>
        ensures device { IsDevice (device_of (told_of self.old)) }
        ensures does { Performs device_call (listing_access (Write reg value) self.old)
            (with_act (device (reg_write reg value)) self.old.past) self.old self.new result }
    {
        self.begin_device(Access::Write(reg, value))?;
        let made = self.history.write_register(reg, value);
        self.end(Fault::Device, made)
    }

    fn range_read(&mut self, place: u32, buf: &mut [u8]) -> Result<(), Failed>
        requires { place + length buf.old ≤ range_length }
        ensures read { OnOk result (buf.new
            ≡ take (length buf.old) (drop place (device_of (told_of self.old)).range)) }
        ensures device { IsDevice (device_of (told_of self.old)) }
        ensures does { Performs device_call
            (listing_access (RangeRead place (length buf.old)) self.old)
            self.old.past self.old self.new result }
    {
        self.begin_device(Access::RangeRead(place, buf.len() as u32))?;
        self.history.range_read(place, buf);
        Ok(())
    }

    fn range_write(&mut self, place: u32, bytes: &[u8]) -> Result<(), Failed>
        requires { place + length bytes.now ≤ range_length }
        ensures device { IsDevice (device_of (told_of self.old)) }
        ensures does { Performs device_call
            (listing_access (RangeWrite place (length bytes.now)) self.old)
            (with_act (device (range_write place bytes.now)) self.old.past)
            self.old self.new result }
    {
        self.begin_device(Access::RangeWrite(place, bytes.len() as u32))?;
        let made = self.history.range_write(place, bytes);
        self.end(Fault::Device, made)
    }

    fn put(&mut self, id: u64, bytes: &[u8]) -> Result<(), BoardPut>
        ensures answers { AnswersPut result
            (refusal_of id bytes.now (told_of self.old).here.store) }
        ensures device { IsDevice (device_of (told_of self.old)) }
        // A put that the store refuses changes nothing.
        ensures does { Performs device_call self.old
            (past_after result (device (put id bytes.now)) self.old.past)
            self.old self.new (put_failure result) }
    {
        let Ok(()) = self.begin(Fault::Device, true) else {
            return Err(BoardPut::Failed);
        };
        match self.history.put(id, bytes) {
            Ok(Ok(())) => Ok(()),
            Ok(Err(refused)) => Err(BoardPut::Refused(refused)),
            Err(NoMemory) => {
                let Failed = self.starve(Fault::Device);
                Err(BoardPut::Failed)
            }
        }
    }

    fn print(&mut self, bytes: &[u8]) -> Result<(), Failed>
        ensures does { Performs print_call self.old (with_act (prints bytes.now) self.old.past)
            self.old self.new result }
    {
        self.begin(Fault::Print, true)?;
        let made = self.history.print(bytes);
        self.end(Fault::Print, made)
    }
}

// Copies a file's bytes from an offset on into the front of a buffer, and returns how many.
fn copy_from(file: &[u8], place: usize, buf: &mut [u8]) -> usize
    ensures within { result ≤ length buf.old }
    ensures read { ReadsBytes place result buf.new file.now }
{
    let rest = &file[place.min(file.len())..];
    let count = rest.len().min(buf.len());
    buf[..count].copy_from_slice(&rest[..count]);
    count
}
