//! The board of all runs.

ghost use Rattle.std.specs.Prelude.{◌≡◌, None, IfOk, OnErr, IsErr};
ghost use Rattle.board_core.specs.Cause.{HasCause};
ghost use Rattle.board_core.specs.Clock.{untold};
ghost use Rattle.board_core.specs.Steps.ClockLemmas.{not_told};

use board_core::{Access, Board, BoardPut, DiskCall, Failed, FileNo, MemBoard, Pick, Reg};
use erst_store::Store;
use std::alloc::Global;
use std::test::Fail;

/// A board that isn't modelled, like a board over real files, so that the clauses of a run say
/// little about it.
///
/// It has one disk in memory, or two: then its disk is exchanged for the second at the second sync
/// of file 1, and that call and every later disk call go there. All is printed to the first, whose
/// device is the board's.
#[derive(Drop)]
pub struct TestBoard {
    disks: Disks,
    disk_faults: u64,
    device_faults: u64,
    print_faults: u64,
}

// The two disks, without the counts, which therefore don't change when a disk is used.
#[derive(Drop)]
struct Disks {
    first: MemBoard,
    second: MemBoard,
    is_to_be_exchanged: bool,
    syncs_of_one: u64,
    calls: u64,
}

impl TestBoard {
    /// Returns a board whose disk has these files.
    pub fn new(alloc: Global, zero: Vec<u8>, one: Vec<u8>) -> Result<TestBoard, Fail> {
        let first = disk_with(alloc, zero, one)?;
        Ok(over(first, disk_with(alloc, Vec::new(alloc), Vec::new(alloc))?))
    }

    /// Returns a board with an empty disk, whose device is busy this many times in each operation.
    pub fn slow(alloc: Global, slow: u64) -> Result<TestBoard, Fail> {
        let first = MemBoard::new(alloc, Store::new(alloc), slow)?;
        Ok(over(first, disk_with(alloc, Vec::new(alloc), Vec::new(alloc))?))
    }

    /// Returns a board whose disk is empty, and will be exchanged for one that has this file 0.
    pub fn exchanging(alloc: Global, zero: Vec<u8>) -> Result<TestBoard, Fail> {
        let first = disk_with(alloc, Vec::new(alloc), Vec::new(alloc))?;
        let mut board = over(first, disk_with(alloc, zero, Vec::new(alloc))?);
        board.disks.is_to_be_exchanged = true;
        Ok(board)
    }

    /// Makes the call of this number, from 1, fail, as long as memory is left.
    pub fn fail_at(&mut self, call: u64) {
        let _ = self.disks.first.fail_at(call);
    }

    /// Makes every call after this many fail.
    pub fn stop_after(&mut self, calls: u64) {
        self.disks.first.stop_after(calls);
    }

    /// Returns a board over what a crash now leaves of the first disk.
    pub fn left(self, alloc: Global, pick: Pick) -> Result<TestBoard, Fail> {
        let TestBoard { disks, .. } = self;
        let Disks { first, second, .. } = disks;
        Ok(over(first.left(alloc, pick)?, second))
    }

    /// Returns the printed text.
    pub fn out(&self) -> &[u8] {
        self.disks.first.out()
    }

    /// Returns how many calls were made, on either disk.
    pub fn calls(&self) -> u64 {
        self.disks.calls
    }

    /// Returns the calls on the first disk.
    pub fn disk_calls(&self) -> &[DiskCall] {
        self.disks.first.disk_calls()
    }

    /// Returns the accesses to the device.
    pub fn accesses(&self) -> &[Access] {
        self.disks.first.accesses()
    }

    /// Returns how many records are in the store.
    pub fn records(&self) -> usize {
        self.disks.first.store().len()
    }
}

fn over(first: MemBoard, second: MemBoard) -> TestBoard {
    TestBoard {
        disks: Disks {
            first,
            second,
            is_to_be_exchanged: false,
            syncs_of_one: 0,
            calls: 0,
        },
        disk_faults: 0,
        device_faults: 0,
        print_faults: 0,
    }
}

fn disk_with(alloc: Global, zero: Vec<u8>, one: Vec<u8>) -> Result<MemBoard, Fail> {
    let mut disk = MemBoard::new(alloc, Store::new(alloc), 0)?;
    disk.set_file(FileNo::Zero, zero);
    disk.set_file(FileNo::One, one);
    Ok(disk)
}

impl Disks {
    // Returns the present disk, for a call.
    fn disk(&mut self) -> &mut MemBoard {
        if self.is_to_be_exchanged && self.syncs_of_one > 1 {
            self.calls = self.calls.saturating_add(1);
            &mut self.second
        } else {
            self.first()
        }
    }

    // Returns the first disk, for a call.
    fn first(&mut self) -> &mut MemBoard {
        self.calls = self.calls.saturating_add(1);
        &mut self.first
    }

    fn sync(&mut self, file: FileNo) -> Result<(), Failed> {
        if let FileNo::One = file {
            self.syncs_of_one = self.syncs_of_one.saturating_add(1);
        }
        self.disk().sync(file)
    }
}

impl Board for TestBoard {
    ghost seen = { λ b. record {
      told = None;
      clock = untold;
      faults = record { disk = b.disk_faults; registers = b.device_faults; prints = b.print_faults };
    } };

    ghost told_may_be_left = { λ _ t told. not_told t told };

    ghost text_is_left = { λ _ t left told now. absurd now };

    ghost counts_earlier = { λ _ s t left within may. may };

    fn size(&mut self, file: FileNo) -> Result<u64, Failed> {
        count_failure(self.disks.disk().size(file), &mut self.disk_faults)
    }

    fn read_at(&mut self, file: FileNo, place: u64, buf: &mut [u8]) -> Result<usize, Failed> {
        let read = self.disks.disk().read_at(file, place, buf);
        count_failure(read, &mut self.disk_faults)
    }

    fn write_at(&mut self, file: FileNo, place: u64, bytes: &[u8]) -> Result<(), Failed> {
        let written = write_inside(self.disks.disk(), file, place, bytes);
        count_failure(written, &mut self.disk_faults)
    }

    fn sync(&mut self, file: FileNo) -> Result<(), Failed> {
        count_failure(self.disks.sync(file), &mut self.disk_faults)
    }

    fn reg_read(&mut self, reg: Reg) -> Result<u64, Failed> {
        count_failure(self.disks.first().reg_read(reg), &mut self.device_faults)
    }

    fn reg_write(&mut self, reg: Reg, value: u64) -> Result<(), Failed> {
        let written = self.disks.first().reg_write(reg, value);
        count_failure(written, &mut self.device_faults)
    }

    fn range_read(&mut self, place: u32, buf: &mut [u8]) -> Result<(), Failed> {
        let read = self.disks.first().range_read(place, buf);
        count_failure(read, &mut self.device_faults)
    }

    fn range_write(&mut self, place: u32, bytes: &[u8]) -> Result<(), Failed> {
        let written = self.disks.first().range_write(place, bytes);
        count_failure(written, &mut self.device_faults)
    }

    fn put(&mut self, id: u64, bytes: &[u8]) -> Result<(), BoardPut> {
        match self.disks.first().put(id, bytes) {
            Ok(()) => Ok(()),
            Err(BoardPut::Refused(why)) => Err(BoardPut::Refused(why)),
            Err(BoardPut::Failed) => {
                self.device_faults = self.device_faults.saturating_add(1);
                Err(BoardPut::Failed)
            }
        }
    }

    fn print(&mut self, bytes: &[u8]) -> Result<(), Failed> {
        count_failure(self.disks.first().print(bytes), &mut self.print_faults)
    }
}

// A write that begins past the file's end fails.
fn write_inside(
    board: &mut MemBoard,
    file: FileNo,
    place: u64,
    bytes: &[u8],
) -> Result<(), Failed> {
    if place > board.file(file).len() as u64 {
        return Err(Failed);
    }
    board.write_at(file, place, bytes)
}

// Returns the result of a call, and raises the count of its faults if it failed.
fn count_failure<T>(answer: Result<T, Failed>, faults: &mut u64) -> Result<T, Failed>
    ensures ok { IfOk answer (λ value. result ≡ Ok value) }
    ensures err { OnErr answer (IsErr result) }
    ensures cause { HasCause faults.old faults.new result }
{
    match answer {
        Ok(value) => Ok(value),
        Err(Failed) => {
            *faults = faults.saturating_add(1);
            Err(Failed)
        }
    }
}
