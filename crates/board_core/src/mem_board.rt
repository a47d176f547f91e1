//! A board in memory.
ghost use Rattle.std.specs.Prelude.{◌≡◌, ◌++◌, [], ◌∷◌, min, IfOk, OnOk, OnErr};
ghost use Rattle.erst_store.specs.DeviceLaws.{IsDevice};
ghost use Rattle.board_core.specs.Clock.{LeftNow};
ghost use Rattle.board_core.specs.MemBoard.{new_board, new_past, told_of, now_of, disk_of, clock_of};
ghost use Rattle.board_core.specs.Cause.{device_call, disk_call};
ghost use Rattle.board_core.specs.MemBoard.{fails_next, listing, listing_access, with_refusal, Faulted};
ghost use Rattle.board_core.specs.Steps.MemBoardCalls.{Begins, Counts, Ends, kind_in};
ghost use Rattle.board_core.specs.Pick.{IsPicked};
ghost use Rattle.board_core.specs.Stop.{with_file_in};
ghost use Rattle.board_core.specs.Told.{device_of, file_of};

mod calls;

use crate::history::History;
use crate::{Access, DiskCall, Failed, FileNo, Pick};
use erst_store::Store;
use ras_base::NoMemory;
use std::alloc::Global;
use std::marker::Model;

/// A board in memory, which is modelled in full and fails at chosen calls.
///
/// It records each change since it was new, so what a crash at any point may have left is known. A
/// failing call changes nothing but its counts and lists. If memory for a call runs out, the call
/// fails, and the count of its kind and `starved` rise.
#[derive(Drop)]
pub struct MemBoard {
    history: History,
    disk_calls: Vec<DiskCall>,
    accesses: Vec<Access>,
    fails: Vec<u64>,
    allowed: u64,
    made: u64,
    starved: u64,
    disk_faults: u64,
    register_faults: u64,
    print_faults: u64,
}

// The kind of fault of a call that fails.
#[derive(Clone, Copy)]
enum Fault {
    Disk,
    Device,
    Print,
}

impl Model for MemBoard {
    ghost use Rattle.std.specs.Prelude.{◌≡◌, []};
    ghost use Rattle.board_core.specs.MemBoard.{State};

    ghost Value = { State };

    ghost view = { λ b. record {
      past = b.history;
      disk_calls = b.disk_calls.items;
      accesses = b.accesses.items;
      fails = b.fails.items;
      allowed = b.allowed;
      made = b.made;
      starved = b.starved;
      faults = record { disk = b.disk_faults; registers = b.register_faults; prints = b.print_faults };
    } };

    ghost invariant = { λ b. b.made ≡ 0 → b.history.acts ≡ [] };
}

impl MemBoard {
    /// Returns a board with empty files, nothing printed and no faults, over a new device with this
    /// store. The device is busy for `slow` checks after each EXECUTE_OPERATION.
    pub fn new(alloc: Global, store: Store, slow: u64) -> Result<MemBoard, NoMemory>
        ensures { IfOk result (λ board. board ≡ new_board [] [] store slow) }
    {
        MemBoard::with_files(alloc, Vec::new(alloc), Vec::new(alloc), store, slow)
    }

    // Returns a new board with these files, synced.
    fn with_files(
        alloc: Global,
        file0: Vec<u8>,
        file1: Vec<u8>,
        store: Store,
        slow: u64,
    ) -> Result<MemBoard, NoMemory>
        ensures { IfOk result (λ board. board ≡ new_board file0.items file1.items store slow) }
    {
        Ok(MemBoard {
            history: History::new(alloc, file0, file1, store, slow)?,
            disk_calls: Vec::new(alloc),
            accesses: Vec::new(alloc),
            fails: Vec::new(alloc),
            allowed: u64::MAX,
            made: 0,
            starved: 0,
            disk_faults: 0,
            register_faults: 0,
            print_faults: 0,
        })
    }

    /// Replaces a file's bytes, synced, before any call of the trait was made.
    pub fn set_file(&mut self, file: FileNo, bytes: Vec<u8>)
        requires { self.old.made ≡ 0 }
        ensures { self.new ≡ record self.old {
          past = new_past (record self.old.past.first {
            here = with_file_in file bytes.items self.old.past.first.here;
          });
        } }
    {
        self.history.set_file(file, bytes);
    }

    /// Makes the call of this number fail. All calls of the trait are numbered, from 1.
    pub fn fail_at(&mut self, call: u64) -> Result<(), NoMemory>
        ensures ok { OnOk result (self.new
            ≡ record self.old { fails = self.old.fails ++ call ∷ [] }) }
        ensures err { OnErr result (self.new ≡ self.old) }
    {
        self.fails.push(call)?;
        Ok(())
    }

    /// Makes every call of the trait after the first `calls` fail.
    pub fn stop_after(&mut self, calls: u64)
        ensures { self.new ≡ record self.old { allowed = min self.old.allowed calls } }
    {
        self.allowed = self.allowed.min(calls);
    }

    /// Returns how many calls failed because memory ran out.
    pub fn starved(&self) -> u64
        ensures { result ≡ self.now.starved }
    {
        self.starved
    }

    /// Returns the bytes printed so far.
    pub fn out(&self) -> &[u8]
        ensures { result.now ≡ (told_of self.now).here.out }
    {
        self.history.out()
    }

    /// Returns a file's bytes.
    pub fn file(&self, file: FileNo) -> &[u8]
        ensures { result.now ≡ file_of file (told_of self.now) }
    {
        self.history.file(file)
    }

    /// Returns the record store behind the device.
    pub fn store(&self) -> &Store
        ensures { result.now ≡ (told_of self.now).here.store }
    {
        self.history.store()
    }

    /// Returns the disk calls made so far.
    pub fn disk_calls(&self) -> &[DiskCall]
        ensures { result.now ≡ self.now.disk_calls }
    {
        &self.disk_calls
    }

    /// Returns the accesses to the device made so far.
    pub fn accesses(&self) -> &[Access]
        ensures { result.now ≡ self.now.accesses }
    {
        &self.accesses
    }

    /// Returns a new board in one of the states that a crash now may leave, with nothing printed.
    /// Its device is new, with the store that the crash leaves, and as slow as this board's.
    ///
    /// After `NoMemory` this board is lost.
    pub fn left(self, alloc: Global, pick: Pick) -> Result<MemBoard, NoMemory>
        ensures fresh { IfOk result (λ board. board
            ≡ new_board (told_of board).here.file0 (told_of board).here.file1
            (told_of self).here.store self.past.first.volatile.slow) }
        ensures zero { IfOk result
            (λ board. IsPicked pick (disk_of self.past).zero (told_of self).here.file0
            (told_of board).here.file0) }
        ensures one { IfOk result
            (λ board. IsPicked pick (disk_of self.past).one (told_of self).here.file1
            (told_of board).here.file1) }
        ensures left { IfOk result (λ board. LeftNow (clock_of self.past)
            (record (told_of board).here { out = (told_of self).here.out })) }
    {
        let MemBoard { history, .. } = self;
        let (file0, file1, store, slow) = history.into_left(pick)?;
        MemBoard::with_files(alloc, file0, file1, store, slow)
    }

    // Returns whether the next call was chosen to fail.
    fn fails_next(&self) -> bool
        ensures { result ≡ fails_next self.now }
    {
        let next = self.made.saturating_add(1);
        self.fails.contains(&next) || self.allowed < next
    }

    // Counts and lists a disk call, which fails if it was chosen to fail, or if the list can't
    // grow.
    fn begin_disk(&mut self, call: DiskCall) -> Result<(), Failed>
        ensures { Begins disk_call (listing call self.old) self.old self.new result }
    {
        let is_listed = self.disk_calls.push(call).is_ok();
        self.begin(Fault::Disk, is_listed)
    }

    // Counts and lists a device call, which fails if it was chosen to fail, or if the list can't
    // grow.
    fn begin_device(&mut self, access: Access) -> Result<(), Failed>
        ensures does { Begins device_call (listing_access access self.old) self.old self.new
            result }
        ensures device { IsDevice (device_of (now_of self.old.past)) }
    {
        let is_listed = self.accesses.push(access).is_ok();
        self.begin(Fault::Device, is_listed)
    }

    // Counts a call, which fails if it was chosen to fail, or if it isn't listed.
    fn begin(&mut self, kind: Fault, is_listed: bool) -> Result<(), Failed>
        ensures does { Counts (kind_in kind) is_listed self.old self.new result }
        ensures device { IsDevice (device_of (now_of self.old.past)) }
    {
        let _device = self.history.store();
        let is_chosen = self.fails_next();
        self.made = self.made.saturating_add(1);
        if !is_listed {
            return Err(self.starve(kind));
        }
        if is_chosen {
            return Err(self.fault(kind));
        }
        Ok(())
    }

    // Ends a call that began successfully. It fails if memory for its change ran out.
    fn end(&mut self, kind: Fault, made: Result<(), NoMemory>) -> Result<(), Failed>
        ensures { Ends (kind_in kind) made self.old self.new result }
    {
        match made {
            Ok(()) => Ok(()),
            Err(NoMemory) => Err(self.starve(kind)),
        }
    }

    // Counts a call in which memory ran out.
    fn starve(&mut self, kind: Fault) -> Failed
        ensures { Faulted (kind_in kind) (with_refusal self.old) self.new }
    {
        self.starved = self.starved.saturating_add(1);
        self.fault(kind)
    }

    // Counts a fault of this kind.
    fn fault(&mut self, kind: Fault) -> Failed
        ensures { Faulted (kind_in kind) self.old self.new }
    {
        match kind {
            Fault::Disk => self.disk_faults = self.disk_faults.saturating_add(1),
            Fault::Device => self.register_faults = self.register_faults.saturating_add(1),
            Fault::Print => self.print_faults = self.print_faults.saturating_add(1),
        }
        Failed
    }
}
