//! The journal's files, `rasd.0` and `rasd.1`.
ghost use Rattle.std.specs.Prelude.{◌≡◌, ◌<◌, ◌≤◌, ◌⊎◌, length, IfSome, IfOk, OnOk, OnErr};
ghost use Rattle.board_core.specs.Cause.{HasCause};
ghost use Rattle.board_core.specs.Clock.{IsSynced};
ghost use Rattle.board_core.specs.Stop.{Same, file_in};
ghost use Rattle.board_core.specs.Told.{ReadsBytes};
ghost use Rattle.host_system.specs.BoardFile.{SeesSame};
ghost use Rattle.host_system.specs.View.{clock_over, seen_now};
ghost use Rattle.ras_host.specs.Blame.{AreBlamed, AreReports, AreUsed, FilesCause};
ghost use Rattle.ras_host.specs.JournalFiles.{AreHeld, IsOneSound, IsReady, Moves, files_for};
ghost use Rattle.ras_host.specs.Steps.Failures.{system_failure};

use crate::faults::CallFailed;
use crate::reading::{Pair, ReadFile, read_journal};
use board_core::{Failed, FileNo};
use host_system::{FileName, System, open_files, read_file};
use std::alloc::Global;

/// The journal's files, both of which are opened or read at the first use of either. A file whose
/// sync failed isn't used again: what was written to it before may be gone, even if a later sync
/// succeeds.
#[derive(Drop)]
pub enum JournalFiles {
    /// A run's files, which aren't open yet.
    Shut,
    /// A run's files. Each sound file is open and locked, its name is durable, and all its syncs
    /// succeeded. If opening failed, neither is sound.
    Open(Pair<bool>),
    /// A report's files, which aren't read yet.
    Unread,
    /// A report's files: what was read of both at one time, and for each whether its name is
    /// durable and all its syncs succeeded.
    Seen(Pair<ReadFile>, Pair<bool>),
}

impl JournalFiles {
    /// Returns both files before their first use: a run's files if `how` is 1, otherwise a
    /// report's.
    pub fn new(how: u8) -> JournalFiles
        ensures { result ≡ files_for how }
    {
        match how {
            1 => JournalFiles::Shut,
            _ => JournalFiles::Unread,
        }
    }

    /// Opens or reads both files, unless that was done, and returns `Ok` if this file may be used.
    ///
    /// # Errors
    ///
    /// `System`: a call of the system failed. `Refused`: in a run, only if one failed before.
    pub fn ready<S: System>(
        &mut self,
        alloc: Global,
        file: FileNo,
        system: &mut S,
    ) -> Result<(), CallFailed>
        requires held { IfSome (S.told system.old) (AreHeld self.old) }
        requires blamed { AreBlamed self.old (S.faults system.old) }
        ensures moves { Moves SeesSame Same self.old self.new (S.told system.old)
            (S.told system.new) }
        ensures held { IfSome (S.told system.new) (AreHeld self.new) }
        ensures ready { OnOk result (IsReady file self.new) }
        ensures blamed { AreBlamed self.new (S.faults system.new) }
        ensures cause { FilesCause self.old self.new (S.faults system.old) (S.faults system.new)
            result }
    {
        self.open(alloc, system)?;
        match self {
            JournalFiles::Open(sound) if !*sound.of(file) => Err(CallFailed::Refused),
            _ => Ok(()),
        }
    }

    /// Returns the length in bytes of a file that is ready.
    ///
    /// # Errors
    ///
    /// `Failed`: only if a call of the system failed, which is counted.
    pub fn size<S: System>(&self, file: FileNo, system: &mut S) -> Result<u64, Failed>
        requires held { IfSome (S.told system.old) (AreHeld self.now) }
        requires ready { IsReady file self.now }
        ensures length { IfOk result (λ n. IfSome (S.told system.old)
            (λ p. n ≡ length (file_in file (seen_now p)))) }
        ensures told { S.told system.new ≡ S.told system.old }
        ensures cause { HasCause (S.faults system.old) (S.faults system.new) result }
    {
        if let JournalFiles::Seen(files, _) = self {
            return Ok(files.of(file).length);
        }
        let found = system.find(FileName::Journal(file))?;
        Ok(found.unwrap_or(0))
    }

    /// Reads from the offset `place` of a file that is ready until the buffer is full or the file
    /// ends, and returns the number of bytes read.
    ///
    /// # Errors
    ///
    /// `System`: a call of the system failed. `Refused`: a report read only the first bytes of the
    /// file, which is too long, and these aren't all among them.
    pub fn read_at<S: System>(
        &self,
        file: FileNo,
        place: u64,
        buf: &mut [u8],
        system: &mut S,
    ) -> Result<usize, CallFailed>
        requires held { IfSome (S.told system.old) (AreHeld self.now) }
        requires ready { IsReady file self.now }
        ensures within { IfOk result (λ n. n ≤ length buf.old) }
        ensures read { IfOk result (λ n. IfSome (S.told system.old)
            (λ p. ReadsBytes place n buf.new (file_in file (seen_now p)))) }
        ensures told { S.told system.new ≡ S.told system.old }
        ensures counts { HasCause (S.faults system.old) (S.faults system.new)
            (system_failure result) }
        ensures cause { OnErr result (AreReports self.now ⊎ (0 < S.faults system.new)) }
    {
        match self {
            JournalFiles::Seen(files, _) => files.of(file).read_at(place, buf),
            _ => read_file(file, place, buf, system).or(Err(CallFailed::System)),
        }
    }

    /// Makes a file that is ready durable.
    ///
    /// # Errors
    ///
    /// `System`: a call of the system failed. `Refused`, in a report only: an earlier sync failed.
    /// The file isn't used again afterwards.
    pub fn sync<S: System>(&mut self, file: FileNo, system: &mut S) -> Result<(), CallFailed>
        requires held { IfSome (S.told system.old) (AreHeld self.old) }
        requires ready { IsReady file self.old }
        requires blamed { AreBlamed self.old (S.faults system.old) }
        ensures moves { Moves SeesSame Same self.old self.new (S.told system.old)
            (S.told system.new) }
        ensures held { IfSome (S.told system.new) (AreHeld self.new) }
        ensures synced { OnOk result (IfSome (S.told system.old)
            (λ p. IsSynced file (file_in file (seen_now p)) (clock_over (S.told system.new)))) }
        ensures sound { OnOk result (IsOneSound self.new) }
        ensures blamed { AreBlamed self.new (S.faults system.new) }
        ensures cause { FilesCause self.old self.new (S.faults system.old) (S.faults system.new)
            result }
    {
        match self {
            JournalFiles::Open(sound) => {
                let answer = system.sync(FileName::Journal(file));
                sound.set(file, answer.is_ok());
                answer.or(Err(CallFailed::System))
            }
            JournalFiles::Seen(_, sound) if *sound.of(file) => {
                let answer = system.sync_read(file);
                sound.set(file, answer.is_ok());
                answer.or(Err(CallFailed::System))
            }
            _ => Err(CallFailed::Refused),
        }
    }

    // Opens or reads both files, unless that was done.
    fn open<S: System>(&mut self, alloc: Global, system: &mut S) -> Result<(), CallFailed>
        requires held { IfSome (S.told system.old) (AreHeld self.old) }
        requires blamed { AreBlamed self.old (S.faults system.old) }
        ensures moves { Moves SeesSame Same self.old self.new (S.told system.old)
            (S.told system.new) }
        ensures held { IfSome (S.told system.new) (AreHeld self.new) }
        ensures used { OnOk result (AreUsed self.new) }
        ensures blamed { AreBlamed self.new (S.faults system.new) }
        ensures cause { FilesCause self.old self.new (S.faults system.old) (S.faults system.new)
            result }
    {
        match self {
            JournalFiles::Shut => {
                let answer = open_files(system);
                let is_sound = answer.is_ok();
                *self = JournalFiles::Open(both(is_sound));
                answer.or(Err(CallFailed::System))
            }
            JournalFiles::Unread => {
                let files = read_journal(alloc, system)?;
                let answer = system.sync_names();
                let is_sound = answer.is_ok();
                *self = JournalFiles::Seen(files, both(is_sound));
                answer.or(Err(CallFailed::System))
            }
            JournalFiles::Open(_) | JournalFiles::Seen(..) => Ok(()),
        }
    }
}

// Returns the same value for both files.
fn both(is_sound: bool) -> Pair<bool>
    ensures { result ≡ record { zero = is_sound; one = is_sound } }
{
    Pair {
        zero: is_sound,
        one: is_sound,
    }
}
