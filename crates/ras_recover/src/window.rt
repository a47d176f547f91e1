//! The piece of a journal file that is buffered while the file is read.
ghost use Rattle.std.specs.Prelude.{◌≡◌, ◌+◌, ◌-◌, ◌≤◌, [], length, drop, min, IfSome, IfErr, OnOk};
ghost use Rattle.board_core.specs.Told.{file_of};
ghost use Rattle.ras_journal.specs.declared.limits.TheConstants.{LONGEST_FILE};
ghost use Rattle.ras_recover.specs.Steps.Looking.{Looks, ReadsPart};
ghost use Rattle.ras_recover.specs.Steps.Windows.{Covers, end_of, IsNoDamage, read_end};

use crate::place::ReadRefused;
use board_core::{Board, FileNo};
use std::alloc::Global;

/// How many bytes are read at once, unless the file has fewer or more are needed.
const BLOCK: usize = 65_536;

/// One of the two files, with its size in bytes.
#[derive(Clone, Copy)]
pub(crate) struct SizedFile {
    pub(crate) no: FileNo,
    pub(crate) size: usize,
}

/// The bytes of a file that were read from an offset on.
#[derive(Drop)]
pub(crate) struct Window {
    pub(crate) start: usize,
    pub(crate) bytes: Vec<u8>,
}

impl Window {
    // Returns an empty buffer.
    pub(crate) fn new(alloc: Global) -> Self
        ensures start { result.start ≡ 0 }
        ensures bytes { result.bytes.items ≡ [] }
    {
        Window {
            start: 0,
            bytes: Vec::new(alloc),
        }
    }

    // Returns the buffered bytes from an offset on.
    pub(crate) fn rest(&self, place: usize) -> &[u8]
        requires from { self.now.start ≤ place }
        requires upto { place ≤ end_of self.now }
        ensures { result.now ≡ drop (place - self.now.start) self.now.bytes.items }
    {
        &self.bytes[place - self.start..]
    }

    // Reads `count` bytes from an offset on, replacing the buffered bytes.
    fn read<B: Board>(
        &mut self,
        file: SizedFile,
        place: usize,
        count: usize,
        board: &mut B,
    ) -> Result<(), ReadRefused>
        requires within { place + count ≤ file.size }
        requires short { file.size ≤ LONGEST_FILE }
        requires size { IfSome (B.seen board.old).told (λ t. file.size ≡ length (file_of file.no t)) }
        ensures covers { OnOk result (Covers file place (B.seen board.new).told self.new) }
        ensures within { OnOk result (end_of self.new ≤ place + count) }
        ensures all { OnOk result (IfSome (B.seen board.old).told
            (λ t. end_of self.new ≡ place + count)) }
        ensures unread { IfErr result IsNoDamage }
        ensures looks { Looks (read_end result) (λ t. ReadsPart file.no place (place + count))
            (B.seen board.old) (B.seen board.new) }
    {
        self.bytes.resize(count, 0)?;
        self.start = place;
        let read = board.read_at(file.no, place as u64, &mut self.bytes)?;
        self.bytes.truncate(read);
        Ok(())
    }

    // Buffers `count` bytes from an offset on, or up to the end of the file. Reads only what isn't
    // buffered yet.
    pub(crate) fn hold<B: Board>(
        &mut self,
        file: SizedFile,
        place: usize,
        count: usize,
        board: &mut B,
    ) -> Result<(), ReadRefused>
        requires covers { Covers file place (B.seen board.old).told self.old }
        ensures covers { OnOk result (Covers file place (B.seen board.new).told self.new) }
        ensures held { OnOk result (IfSome (B.seen board.old).told
            (λ t. min (place + count) file.size ≤ end_of self.new)) }
        ensures unread { IfErr result IsNoDamage }
        ensures looks { Looks (read_end result)
            (λ t. ReadsPart file.no (end_of self.old) (end_of self.new))
            (B.seen board.old) (B.seen board.new) }
    {
        let left = file.size - place;
        let wanted = count.min(left);
        if place + wanted <= self.start + self.bytes.len() {
            return Ok(());
        }
        self.read(file, place, wanted.max(BLOCK.min(left)), board)
    }
}
