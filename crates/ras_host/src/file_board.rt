//! The working folder's files and standard output as a board.
ghost use Rattle.std.specs.Prelude.{◌≡◌, [], IfSome, Some, OnOk};
ghost use Rattle.board_core.specs.Cause.{FailsAs, disk_call};
ghost use Rattle.board_core.specs.Clock.{Passes};
ghost use Rattle.board_core.specs.Stop.{Same};
ghost use Rattle.board_core.specs.Told.{Steps, with_call};
ghost use Rattle.host_system.specs.View.{MayBegin};
ghost use Rattle.ras_host.specs.Steps.Telling.{clock_of, seen_of, told_of};
ghost use Rattle.ras_host.specs.Blame.{AreCaused};
ghost use Rattle.ras_host.specs.FolderLeft.{FolderLeft};
ghost use Rattle.ras_host.specs.JournalFiles.{IsReady, files_for};
ghost use Rattle.ras_host.specs.BoardState.{kept_for};
ghost use Rattle.ras_host.specs.Steps.BoardLaws.{board_told_left, board_text_left, board_earlier_left};

use crate::faults::{CallFailed, Refusals, counted_by, counted_put};
use crate::journal::JournalFiles;
use crate::kept::Kept;
use crate::listed::{list_access, list_disk_call};
use crate::uses::{Found, Use};
use board_core::{Access, Board, BoardPut, DiskCall, Failed, FileNo, Reg};
use erst_store::file_laws;
use host_system::{FileName, Notes, System, counted};
use std::alloc::Global;
use std::marker::{Model, PhantomData};

/// A board over the files `rasd.0`, `rasd.1` and `rasd.store` of the working folder, and over
/// standard output. It is modelled if its system is. Each call that fails is counted, by its kind.
///
/// The record store is read when the device is first used, and is empty if its file is missing.
/// Each change of the store is written to its file before the call returns. A file that isn't a
/// store's isn't replaced. Only a run uses the device.
#[derive(Drop)]
pub struct FileBoard<S: System + Drop, U: Use, B: Found> {
    alloc: Global,
    system: S,
    files: JournalFiles,
    kept: Kept,
    disk_faults: u64,
    register_faults: u64,
    print_faults: u64,
    refusals: Refusals<S, U>,
    disk_calls: Notes,
    accesses: Notes,
    used: PhantomData<U>,
    found: PhantomData<B>,
}

impl<S: System + Drop, U: Use, B: Found> Model for FileBoard<S, U, B> {
    ghost use Rattle.std.specs.Prelude.{◌≡◌, IfSome, IsSomeAnd};
    ghost use Rattle.host_system.specs.StoreFile.{SparesNoStore};
    ghost use Rattle.ras_host.specs.Blame.{AreCaused};
    ghost use Rattle.ras_host.specs.BoardState.{BoardState};
    ghost use Rattle.ras_host.specs.JournalFiles.{AreHeld};
    ghost use Rattle.ras_host.specs.Steps.KeptDevice.{IsInStep, IsReading};
    ghost use Rattle.ras_host.specs.Steps.Settled.{IsSettledBy};

    ghost Value = { BoardState };

    ghost view = { λ b. record {
      past = S.told b.system;
      files = b.files;
      kept = b.kept;
      faults = record {
        disk = b.disk_faults;
        registers = b.register_faults;
        prints = b.print_faults;
      };
      count = S.faults b.system;
      refused = b.refusals;
      disk_calls = b.disk_calls.calls;
      accesses = b.accesses.calls;
    } };

    ghost invariant = { λ b. IfSome (S.told b.system) (AreHeld b.files)
        × IfSome (S.told b.system) (IsInStep b.kept)
        × IfSome (S.told b.system) (IsSettledBy b.files b.kept)
        × AreCaused U.HOW b.files b.kept (record {
          disk = b.disk_faults;
          registers = b.register_faults;
          prints = b.print_faults;
        }) (S.faults b.system) b.refusals
        × IfSome B.past (λ found. IsSomeAnd (S.told b.system) (SparesNoStore found))
        × (U.HOW ≡ 0 → IsReading b.kept B.past (S.told b.system)) };
}

impl<S: System + Drop, U: Use, B: Found> FileBoard<S, U, B> {
    /// Returns the board over a system, with no faults. Opens no file yet. Requires a system whose
    /// calls haven't failed; if the system is modelled, a board may begin over its folder
    /// (`MayBegin`).
    pub fn new(alloc: Global, system: S) -> FileBoard<S, U, B>
        requires begins { IfSome (S.told system) MayBegin }
        requires quiet { S.faults system ≡ 0 }
        requires found { IfSome B.past (λ past. S.told system ≡ Some past) }
        ensures past { result.past ≡ S.told system }
        ensures files { result.files ≡ files_for U.HOW }
        ensures faults { result.faults ≡ record { disk = 0; registers = 0; prints = 0 } }
        ensures kept { result.kept ≡ kept_for U.HOW }
        ensures unlisted { (result.disk_calls ≡ []) × (result.accesses ≡ []) }
    {
        file_laws();
        FileBoard {
            alloc,
            system,
            files: JournalFiles::new(U::HOW),
            kept: Kept::new(U::HOW),
            disk_faults: 0,
            register_faults: 0,
            print_faults: 0,
            refusals: Refusals::none(),
            disk_calls: Notes::new(),
            accesses: Notes::new(),
            used: PhantomData,
            found: PhantomData,
        }
    }

    /// Returns the board's system, and how many calls the board refused.
    pub fn into_parts(self) -> (S, Refusals<S, U>)
        ensures past { S.told result.0 ≡ self.past }
        ensures count { S.faults result.0 ≡ self.count }
        ensures refused { result.1 ≡ self.refused }
        ensures caused { AreCaused U.HOW self.files self.kept self.faults self.count self.refused }
        ensures leaves { FolderLeft U.HOW self.faults.disk B.past self.past }
    {
        (self.system, self.refusals)
    }
}

impl<S: System + Drop, U: Use, B: Found> FileBoard<S, U, B> {
    // Lists a disk call, and opens or reads the journal's files, unless that was done. Fails if
    // this file may not be used.
    fn begin(&mut self, file: FileNo, call: DiskCall) -> Result<(), Failed>
        ensures ready { OnOk result (IsReady file self.new.files) }
        ensures kept { self.new.kept ≡ self.old.kept }
        ensures told { Steps (with_call call) (told_of self.old) (told_of self.new) }
        ensures stops { Passes Same (clock_of self.old) (clock_of self.new) }
        ensures cause { FailsAs disk_call self.old.faults self.new.faults result }
    {
        list_disk_call(call, &mut self.disk_calls);
        let answer = self.files.ready(self.alloc, file, &mut self.system);
        counted_by(answer, &mut self.disk_faults, &mut self.refusals)
    }
}

impl<S: System + Drop, U: Use, B: Found> Board for FileBoard<S, U, B> {
    ghost seen = { λ b. seen_of b };

    ghost told_may_be_left = { λ b t told. board_told_left b t told };

    ghost text_is_left = { λ b t left told now. board_text_left b t left told now };

    ghost counts_earlier = { λ b s t left within may. board_earlier_left b s t left within may };

    fn size(&mut self, file: FileNo) -> Result<u64, Failed> {
        self.begin(file, DiskCall::Size(file))?;
        let answer = self.files.size(file, &mut self.system);
        counted(answer, &mut self.disk_faults)
    }

    fn read_at(&mut self, file: FileNo, place: u64, buf: &mut [u8]) -> Result<usize, Failed> {
        self.begin(file, DiskCall::ReadAt(file, place, buf.len() as u64))?;
        let answer = self.files.read_at(file, place, buf, &mut self.system);
        counted_by(answer, &mut self.disk_faults, &mut self.refusals)
    }

    fn write_at(&mut self, file: FileNo, place: u64, bytes: &[u8]) -> Result<(), Failed> {
        self.begin(file, DiskCall::WriteAt(file, place, bytes.len() as u64))?;
        if let JournalFiles::Seen(..) = self.files {
            let refused = Err(CallFailed::Refused);
            return counted_by(refused, &mut self.disk_faults, &mut self.refusals);
        }
        let answer = self.system.write_at(FileName::Journal(file), place, bytes);
        counted(answer, &mut self.disk_faults)
    }

    // After a change of the store that may not have reached its file, it isn't known which store
    // the disk has. A successful sync would promise that it is known.
    fn sync(&mut self, file: FileNo) -> Result<(), Failed> {
        if !self.kept.is_saved() {
            let refused = Err(CallFailed::Refused);
            return counted_by(refused, &mut self.disk_faults, &mut self.refusals);
        }
        self.begin(file, DiskCall::Sync(file))?;
        let answer = self.files.sync(file, &mut self.system);
        counted_by(answer, &mut self.disk_faults, &mut self.refusals)
    }

    fn reg_read(&mut self, reg: Reg) -> Result<u64, Failed> {
        let answer = self.kept.reg_read(self.alloc, reg, &mut self.system);
        list_access(Access::Read(reg, answer.unwrap_or(0)), &mut self.accesses);
        counted_by(answer, &mut self.register_faults, &mut self.refusals)
    }

    fn reg_write(&mut self, reg: Reg, value: u64) -> Result<(), Failed> {
        let answer = self
            .kept
            .reg_write(self.alloc, reg, value, &mut self.system);
        list_access(Access::Write(reg, value), &mut self.accesses);
        counted_by(answer, &mut self.register_faults, &mut self.refusals)
    }

    fn range_read(&mut self, place: u32, buf: &mut [u8]) -> Result<(), Failed> {
        let access = Access::RangeRead(place, buf.len() as u32);
        let answer = self
            .kept
            .range_read(self.alloc, place, buf, &mut self.system);
        list_access(access, &mut self.accesses);
        counted_by(answer, &mut self.register_faults, &mut self.refusals)
    }

    fn range_write(&mut self, place: u32, bytes: &[u8]) -> Result<(), Failed> {
        let answer = self
            .kept
            .range_write(self.alloc, place, bytes, &mut self.system);
        list_access(
            Access::RangeWrite(place, bytes.len() as u32),
            &mut self.accesses,
        );
        counted_by(answer, &mut self.register_faults, &mut self.refusals)
    }

    fn put(&mut self, id: u64, bytes: &[u8]) -> Result<(), BoardPut> {
        let answer = self.kept.put(self.alloc, id, bytes, &mut self.system);
        counted_put(answer, &mut self.register_faults, &mut self.refusals)
    }

    fn print(&mut self, bytes: &[u8]) -> Result<(), Failed> {
        counted(self.system.print(bytes), &mut self.print_faults)
    }
}
