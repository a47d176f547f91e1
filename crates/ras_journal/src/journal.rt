//! A journal, and appending to it.
ghost use Rattle.std.specs.Prelude.{◌≡◌, ◌+◌, ◌<◌, false, length, nat_lt, true, IfSome};
ghost use Rattle.board_core.specs.Doing.{Does};
ghost use Rattle.board_core.specs.Told.{file_of};
ghost use Rattle.entry_format.specs.declared.version.Version.TheVariants.{Two};
ghost use Rattle.ras_journal.specs.Appending.{IsFullBy, MovesOn, append_acts, append_end};
ghost use Rattle.ras_journal.specs.Appending.{length_with, needs_switch, standing_with};

use crate::{AppendRefused, LONGEST_FILE, MOST_LINKS, OPEN_GATE, Standing};
use board_core::{Board, write_through};
use entry_format::Version;
use journal_format::Link;
use std::marker::Model;

/// A journal: its position, and whether one of its calls has failed. A journal that has failed
/// isn't used again: its files have to be read from the start.
#[derive(Debug, Drop)]
pub struct Journal {
    standing: Standing,
    failed: bool,
}

impl Model for Journal {
    ghost use Rattle.ras_journal.specs.View.{JournalView};

    ghost Value = { JournalView };

    ghost view = { λ journal. record { standing = journal.standing; failed = journal.failed } };
}

impl Journal {
    /// Returns a journal at this position that hasn't failed.
    pub fn at(standing: Standing) -> Journal
        ensures { result ≡ record { standing = standing; failed = false } }
    {
        Journal {
            standing,
            failed: false,
        }
    }

    /// Returns the journal's position.
    pub fn standing(&self) -> Standing
        ensures { result ≡ self.now.standing }
    {
        self.standing
    }

    /// Returns whether a call of the journal has failed.
    pub fn has_failed(&self) -> bool
        ensures { result ≡ self.now.failed }
    {
        self.failed
    }

    /// Makes this a journal that has failed.
    pub fn fail(&mut self)
        ensures { self.new ≡ record self.old { failed = true } }
    {
        self.failed = true;
    }

    /// Returns whether the journal has to be switched to the other file before this link is
    /// appended: its chain has 256 or more links, its file would be longer than 67,108,864 bytes,
    /// or the file is of version 1.
    pub fn needs_switch(&self, link: &Link) -> bool
        ensures { result ≡ needs_switch self.now.standing link.now }
    {
        self.standing.links >= MOST_LINKS
            || self.standing.version == Version::One
            || is_too_long(self.standing.length, link.bytes_and_gate())
    }

    /// Appends a link at the closed gate, by four disk calls: write the link and the next closed
    /// gate, sync; open the gate, sync. Allocates nothing. Requires a journal of version 2 that
    /// hasn't failed and whose closed gate is inside its file.
    ///
    /// # Errors
    ///
    /// `Full`: if and only if the file would be longer than 67,108,864 bytes; nothing was called,
    /// and the journal is unchanged. `Disk`: only if a disk call failed; the journal has then
    /// failed. [`crate::append_laws`] says what a crash leaves of an append.
    pub fn append<B: Board>(&mut self, link: &Link, board: &mut B) -> Result<(), AppendRefused>
        requires usable { self.old.failed ≡ false }
        requires version { self.old.standing.version ≡ Two }
        requires gate { IfSome (B.seen board.old).told
            (λ t. self.old.standing.length < length (file_of self.old.standing.file t)) }

        ensures does { Does B.seen (append_acts self.old.standing link.now)
            (append_end result) board.old board.new }
        ensures journal { MovesOn result (standing_with self.old.standing link.now)
            self.old self.new }
        ensures full { IsFullBy result (length_with self.old.standing link.now) }
    {
        let Standing { file, length, .. } = self.standing;
        let written = link.bytes_and_gate();
        if is_too_long(length, written) {
            return Err(AppendRefused::Full);
        }
        self.failed = true;
        write_through(file, length + 1, written, board)?;
        write_through(file, length, &[OPEN_GATE], board)?;
        self.failed = false;
        self.standing.length = length + written.len() as u64;
        self.standing.links = self.standing.links.saturating_add(1);
        Ok(())
    }
}

// Returns whether writing these bytes after the gate would make the file too long.
fn is_too_long(gate: u64, bytes: &[u8]) -> bool
    ensures { result ≡ nat_lt LONGEST_FILE (gate + 1 + length bytes.now) }
{
    let count = bytes.len() as u64;
    count >= LONGEST_FILE || LONGEST_FILE - count - 1 < gate
}
