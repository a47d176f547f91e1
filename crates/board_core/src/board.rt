//! Two files, a record store behind a device, and an output. One crash of the machine hits all of
//! them.
ghost use Rattle.std.specs.Prelude.{◌≡◌, ℕ, ◌+◌, ◌≤◌, length, take, drop, Some, IfSome, IfOk, OnOk};
ghost use Rattle.erst_store.specs.Actions.{range_length};
ghost use Rattle.erst_store.specs.DeviceLaws.{IsDevice};
ghost use Rattle.erst_store.specs.Store.{refusal_of};
ghost use Rattle.board_core.specs.declared.board.DiskCall.TheVariants.{Size, ReadAt, Sync};
ghost use Rattle.board_core.specs.Clock.{LeftNow};
ghost use Rattle.board_core.specs.Doing.{Seen, ActMade, PutMade, writes, prints, calls, device};
ghost use Rattle.board_core.specs.Doing.{reg_read, reg_write, range_read, range_write};
ghost use Rattle.board_core.specs.Stop.{Left};
ghost use Rattle.board_core.specs.Told.{Told, file_of, ReadsBytes, device_of, register_in, AnswersPut};

use crate::Failed;
use erst_store::PutRefused;

/// Which of a board's two files.
#[derive(Clone, Copy, Debug, PartialEq, Eq)]
pub enum FileNo {
    Zero,
    One,
}

/// Which of the device's two registers.
#[derive(Clone, Copy, Debug, PartialEq, Eq)]
pub enum Reg {
    /// A number that is written here is an action, which the device then does.
    Action,
    /// The number that an action takes or returns.
    Value,
}

/// A disk call, as a board lists it: its file, and offset and length in bytes.
#[derive(Clone, Copy, Debug, PartialEq, Eq)]
pub enum DiskCall {
    Size(FileNo),
    ReadAt(FileNo, u64, u64),
    WriteAt(FileNo, u64, u64),
    Sync(FileNo),
}

/// An access to the device, as a board lists it: a register with the number read or written, or the
/// offset and the length of bytes of its range. A read that failed is listed with the number 0.
#[derive(Clone, Copy, Debug, PartialEq, Eq)]
pub enum Access {
    Read(Reg, u64),
    Write(Reg, u64),
    RangeRead(u32, u32),
    RangeWrite(u32, u32),
}

/// Why a put didn't store its record.
#[derive(Clone, Copy, Debug, PartialEq, Eq)]
pub enum BoardPut {
    /// The store refused the record, and nothing changed.
    Refused(PutRefused),
    /// The call failed. Its count of faults rose.
    Failed,
}

/// Two files, a device with its record store, and an output; one crash of the machine hits all of
/// them.
///
/// Each call is an act, and its clause `does` says how it changes the board's model, what a crash
/// leaves, and the counts of failed calls. A disk call affects only what a crash may leave of its
/// own file, a device call only the record store, and a print only the printed text. A call returns
/// `Failed` only if the count of its kind of fault rose, and no call raises a count of another
/// kind.
pub trait Board {
    /// The board's contents, if the board is modelled; the number of the present moment, and what a
    /// crash at any moment may leave, which says nothing of a board that isn't modelled; and how
    /// many calls have failed, by their kinds.
    ghost seen: { Self → Seen };

    /// Returns the file's length in bytes.
    ///
    /// `Failed`: only if the count of failed disk calls rose.
    fn size(&mut self, file: FileNo) -> Result<u64, Failed>
        ensures length { IfOk result (λ n. IfSome (seen self.old).told (λ t. n
            ≡ length (file_of file t))) }
        ensures does { ActMade (calls (Size file)) result (seen self.old) (seen self.new) };

    /// Reads the bytes from offset `place` on into the front of `buf` and returns how many: fewer
    /// than `buf` has room for only if the file ends there.
    fn read_at(&mut self, file: FileNo, place: u64, buf: &mut [u8]) -> Result<usize, Failed>
        ensures within { IfOk result (λ n. n ≤ length buf.old) }
        ensures read { IfOk result
            (λ n. IfSome (seen self.old).told (λ t. ReadsBytes place n buf.new (file_of file t))) }
        ensures does { ActMade (calls (ReadAt file place (length buf.old))) result (seen self.old)
            (seen self.new) };

    /// Writes `bytes` at offset `place`, which is at most the file's length. They replace what is
    /// there and may extend the file.
    ///
    /// After `Failed` any of the bytes may have been written. A crash during the call, or later but
    /// before the file's next sync, may leave any bytes in the written range, and any length
    /// between the old one and the new one.
    fn write_at(&mut self, file: FileNo, place: u64, bytes: &[u8]) -> Result<(), Failed>
        requires { IfSome (seen self.old).told (λ t. place ≤ length (file_of file t)) }
        ensures does { ActMade (writes file place bytes.now) result (seen self.old)
            (seen self.new) };

    /// Makes the file durable: until its next write, a crash leaves what a read returns. The same
    /// holds of the record store until a device call changes it. After `Failed` neither is known to
    /// be durable.
    fn sync(&mut self, file: FileNo) -> Result<(), Failed>
        ensures does { ActMade (calls (Sync file)) result (seen self.old) (seen self.new) };

    /// Returns the number in a register of the device.
    fn reg_read(&mut self, reg: Reg) -> Result<u64, Failed>
        ensures value { IfOk result (λ n. IfSome (seen self.old).told (λ t. n
            ≡ register_in reg (device_of t))) }
        ensures does { ActMade (device (reg_read reg)) result (seen self.old) (seen self.new) }
        ensures device { IfSome (seen self.old).told (λ t. IsDevice (device_of t)) };

    /// Writes a number to a register of the device. A number written to Action is an action, which
    /// the device then does.
    /// After `Failed` the device may or may not have done so. A crash during the call leaves the
    /// record store as before it or as after it. So does a crash after `Failed`, which need not
    /// leave the store that the model has.
    fn reg_write(&mut self, reg: Reg, value: u64) -> Result<(), Failed>
        ensures does { ActMade (device (reg_write reg value)) result (seen self.old)
            (seen self.new) }
        ensures device { IfSome (seen self.old).told (λ t. IsDevice (device_of t)) };

    /// Copies the bytes of the device's range from `place` on into `buf`, and fills all of it.
    fn range_read(&mut self, place: u32, buf: &mut [u8]) -> Result<(), Failed>
        requires { place + length buf.old ≤ range_length }
        ensures read { OnOk result (IfSome (seen self.old).told
            (λ t. buf.new ≡ take (length buf.old) (drop place (device_of t).range))) }
        ensures does { ActMade (device (range_read place (length buf.old))) result (seen self.old)
            (seen self.new) }
        ensures device { IfSome (seen self.old).told (λ t. IsDevice (device_of t)) };

    /// Writes bytes into the device's range from `place` on. After `Failed` they may or may not
    /// have been written.
    fn range_write(&mut self, place: u32, bytes: &[u8]) -> Result<(), Failed>
        requires { place + length bytes.now ≤ range_length }
        ensures does { ActMade (device (range_write place bytes.now)) result (seen self.old)
            (seen self.new) }
        ensures device { IfSome (seen self.old).told (λ t. IsDevice (device_of t)) };

    /// Puts a record into the store from outside, as `Store::put` of erst_store does, and sets the
    /// device's cursor to 0.
    ///
    /// `Refused`: the store refuses the record, with its own refusal, which may be `NoMemory`;
    /// nothing changes then, even if a crash comes during the call. After `Failed` the record may
    /// or may not have been put. A crash during a call that isn't refused, or after one that
    /// failed, leaves the store as before the call or as after it.
    fn put(&mut self, id: u64, bytes: &[u8]) -> Result<(), BoardPut>
        ensures answers { IfSome (seen self.old).told
            (λ t. AnswersPut result (refusal_of id bytes.now t.here.store)) }
        ensures does { PutMade id bytes.now result (seen self.old) (seen self.new) }
        ensures device { IfSome (seen self.old).told (λ t. IsDevice (device_of t)) };

    /// Appends `bytes` to the output. After `Failed` a beginning of them, maybe nothing, was
    /// appended. A crash during the call leaves such a beginning too.
    fn print(&mut self, bytes: &[u8]) -> Result<(), Failed>
        ensures does { ActMade (prints bytes.now) result (seen self.old) (seen self.new) };

    /// A crash now may leave what the model says.
    ghost told_may_be_left: { (board : Self) (t : Told) → (seen board).told ≡ Some t
        → LeftNow (seen board).clock t.here };

    /// Between calls a crash leaves the text that was printed, no less and no more.
    ghost text_is_left: { (board : Self) (t : Told) (left : Left) → (seen board).told ≡ Some t
        → LeftNow (seen board).clock left → left.out ≡ t.here.out };

    /// What a crash at or after some point may leave is also what a crash at or after any earlier
    /// point may leave.
    ghost counts_earlier: { (board : Self) (s t : ℕ) (left : Left) → s ≤ t
        → (seen board).clock.may_leave_since t left → (seen board).clock.may_leave_since s left };
}
