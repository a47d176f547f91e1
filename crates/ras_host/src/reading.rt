//! The journal's files as a report reads them: both at one time, possibly while a run writes them.
ghost use Rattle.std.specs.Prelude.{◌≡◌, ◌≤◌, ℕ, List, length, take, IfSome, IfOk, IsOk};
ghost use Rattle.board_core.specs.Cause.{HasCause};
ghost use Rattle.board_core.specs.Stop.{file_in};
ghost use Rattle.board_core.specs.Told.{ReadsBytes};
ghost use Rattle.host_system.specs.BoardFile.{AreOpenable, IsOpenable};
ghost use Rattle.host_system.specs.View.{seen_now};
ghost use Rattle.ras_host.specs.Steps.Failures.{system_failure};
ghost use Rattle.ras_host.specs.JournalFiles.{AreRead, IsRead, most_read, part_of, with_part};

use crate::faults::CallFailed;
use board_core::{Failed, FileNo};
use host_system::{FileName, System};
use std::alloc::Global;

// One byte more than the longest journal file has. A longer file isn't read whole, and the daemon
// reports it as too long.
const MOST_READ: u64 = 67_108_865;

// The length of a journal file's gate, magic, generation and number of checkpoint bytes, which no
// run changes as long as the file is valid.
const FRONT: u64 = 25;

// How often files are read again because a run changed the front of one meanwhile.
const MOST_READINGS: u32 = 1000;

/// A value for each of the journal's files.
#[derive(Drop)]
pub struct Pair<T: Drop> {
    pub zero: T,
    pub one: T,
}

impl<T: Drop> Pair<T> {
    /// Returns the value for a file.
    pub(crate) fn of(&self, file: FileNo) -> &T
        ensures { result.now ≡ part_of file self.now }
    {
        match file {
            FileNo::Zero => &self.zero,
            FileNo::One => &self.one,
        }
    }

    /// Sets the value for a file.
    pub(crate) fn set(&mut self, file: FileNo, value: T)
        ensures { self.new ≡ with_part file value self.old }
    {
        match file {
            FileNo::Zero => self.zero = value,
            FileNo::One => self.one = value,
        }
    }
}

/// What was read of a journal file.
#[derive(Drop)]
pub struct ReadFile {
    pub length: u64,
    /// All bytes of the file; of a file that is too long only the first ones.
    pub bytes: Vec<u8>,
}

impl ReadFile {
    /// Copies bytes from the offset `place` on into a buffer, until it is full or the file ends,
    /// and returns their number. Refuses if not all of these bytes were read.
    pub(crate) fn read_at(&self, place: u64, buf: &mut [u8]) -> Result<usize, CallFailed>
        ensures within { IfOk result (λ n. n ≤ length buf.old) }
        ensures read { IfOk result (λ n. (file : List ℕ) → IsRead self.now file
            → ReadsBytes place n buf.new file) }
        ensures cause { IsOk (system_failure result) }
    {
        let left = self.length.saturating_sub(place);
        let count = left.min(buf.len() as u64) as usize;
        if count == 0 {
            return Ok(0);
        }
        let Some(found) = self.bytes.get(place as usize..place as usize + count) else {
            return Err(CallFailed::Refused);
        };
        buf[..count].copy_from_slice(found);
        Ok(count)
    }
}

/// Returns what both journal files contain at one time, even if a run writes them meanwhile. A
/// missing file counts as empty.
///
/// A run writes after a file's closed gate, and opens that gate only once everything after it is
/// written. So a file that is read from its first byte to its last contains whole links up to a
/// closed gate, unless the run switched to this file meanwhile. A switch first closes the gate at
/// the file's front, and gives the file another generation: then both files are read again.
pub(crate) fn read_journal<S: System>(
    alloc: Global,
    system: &mut S,
) -> Result<Pair<ReadFile>, CallFailed>
    requires { IfSome (S.told system.old) AreOpenable }
    ensures read { IfOk result (λ files. IfSome (S.told system.old) (AreRead files)) }
    ensures told { S.told system.new ≡ S.told system.old }
    ensures cause { HasCause (S.faults system.old) (S.faults system.new) (system_failure result) }
{
    for _ in 0..MOST_READINGS {
        let zero = read_first(alloc, FileNo::Zero, MOST_READ, system)?;
        let one = read_first(alloc, FileNo::One, MOST_READ, system)?;
        if zero.starts_with(&read_first(alloc, FileNo::Zero, FRONT, system)?)
            && one.starts_with(&read_first(alloc, FileNo::One, FRONT, system)?)
        {
            let zero = with_length(FileNo::Zero, zero, system)?;
            let one = with_length(FileNo::One, one, system)?;
            return Ok(Pair { zero, one });
        }
    }
    Err(CallFailed::Refused)
}

// Returns the first bytes of a file, or no bytes if it is missing.
fn read_first<S: System>(
    alloc: Global,
    file: FileNo,
    most: u64,
    system: &mut S,
) -> Result<Vec<u8>, Failed>
    requires { IfSome (S.told system.old) (IsOpenable file) }
    ensures read { IfOk result (λ bytes. IfSome (S.told system.old)
        (λ p. bytes.items ≡ take most (file_in file (seen_now p)))) }
    ensures told { S.told system.new ≡ S.told system.old }
    ensures cause { HasCause (S.faults system.old) (S.faults system.new) result }
{
    let found = system.read(FileName::Journal(file), most)?;
    Ok(found.unwrap_or(Vec::new(alloc)))
}

// Returns the first bytes of a file with its length. The length is asked for only if the file may
// have more bytes.
fn with_length<S: System>(
    file: FileNo,
    bytes: Vec<u8>,
    system: &mut S,
) -> Result<ReadFile, CallFailed>
    requires { IfSome (S.told system.old)
        (λ p. bytes.items ≡ take most_read (file_in file (seen_now p))) }
    ensures read { IfOk result (λ read. IfSome (S.told system.old)
        (λ p. IsRead read (file_in file (seen_now p)))) }
    ensures told { S.told system.new ≡ S.told system.old }
    ensures cause { HasCause (S.faults system.old) (S.faults system.new) (system_failure result) }
{
    let length = bytes.len() as u64;
    if length < MOST_READ {
        return Ok(ReadFile { length, bytes });
    }
    let found = system.find(FileName::Journal(file))?;
    let length = found.ok_or(CallFailed::Refused)?;
    Ok(ReadFile { length, bytes })
}
