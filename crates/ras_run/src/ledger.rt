//! The account with its journal. New entries are in the journal before they are counted, and a
//! crash at any point leaves the account without them or with them.

ghost use Rattle.std.specs.Prelude.{◌≡◌, false};
ghost use Rattle.board_core.specs.Doing.{Does, IsMade};
ghost use Rattle.ras_run.specs.Keeping.{CanMake, IsFullBy, KeepsLedger, Stands, keep_end};
ghost use Rattle.ras_run.specs.Keeping.{keeping_acts, lacks_room, room_acts};
ghost use Rattle.ras_run.specs.Keeping.{standing_kept, standing_roomy};

use crate::refused::KeepRefused;
use board_core::Board;
use journal_format::Link;
use ras_account::Account;
use ras_journal::{AppendRefused, Journal};
use ras_recover::{SwitchRefused, switch_file};
use std::alloc::Global;

/// The account, and the journal that stores it.
#[derive(Drop)]
pub struct Ledger {
    pub account: Account,
    pub journal: Journal,
}

impl Ledger {
    /// Appends a link to the journal, after a switch to the other file if one is due. The account
    /// doesn't change yet: the caller counts the link's entries afterwards, which allocates
    /// nothing. Requires a journal that hasn't failed and that matches the files.
    ///
    /// From whatever a crash meanwhile leaves, the account is recovered without the link or with
    /// it, and the printed text and the record store are unchanged: [`crate::keeping_laws`].
    ///
    /// # Errors
    ///
    /// `Full`: if and only if a switch is due and has no room. `NoMemory`: only if memory for the
    /// switch runs out. In both cases no disk call was made. `Disk`: only if a disk call failed;
    /// the journal has then failed.
    pub(crate) fn keep<B: Board>(
        &mut self,
        alloc: Global,
        link: &Link,
        board: &mut B,
    ) -> Result<(), KeepRefused>
        requires usable { self.old.journal.failed ≡ false }
        requires stands { Stands self.old.journal.standing self.old.account.state
            (B.seen board.old).told (B.seen board.old).clock }

        ensures does { Does B.seen
            (keeping_acts self.old.journal.standing self.old.account.state link.now)
            (keep_end result) board.old board.new }
        ensures can { IsMade (keep_end result)
            → CanMake self.old.journal.standing self.old.account.state link.now }
        ensures ledger { KeepsLedger result
            (standing_kept self.old.journal.standing self.old.account.state link.now)
            self.old self.new }
        ensures full { IsFullBy result
            (lacks_room self.old.journal.standing self.old.account.state link.now) }
    {
        self.make_room(alloc, link, board)?;
        match self.journal.append(link, board) {
            Ok(()) => Ok(()),
            Err(AppendRefused::Disk) => Err(KeepRefused::Disk),
            Err(AppendRefused::Full) => Err(KeepRefused::Full),
        }
    }

    // Switches the journal to its other file, if this is due before the link.
    fn make_room<B: Board>(
        &mut self,
        alloc: Global,
        link: &Link,
        board: &mut B,
    ) -> Result<(), KeepRefused>
        requires usable { self.old.journal.failed ≡ false }
        requires stands { Stands self.old.journal.standing self.old.account.state
            (B.seen board.old).told (B.seen board.old).clock }
        ensures does { Does B.seen
            (room_acts self.old.journal.standing self.old.account.state link.now)
            (keep_end result) board.old board.new }
        ensures can { IsMade (keep_end result)
            → CanMake self.old.journal.standing self.old.account.state link.now }
        ensures ledger { KeepsLedger result
            (standing_roomy self.old.journal.standing self.old.account.state link.now)
            self.old self.new }
        ensures full { IsFullBy result
            (lacks_room self.old.journal.standing self.old.account.state link.now) }
    {
        if !self.journal.needs_switch(link) {
            return Ok(());
        }
        match switch_file(alloc, &self.account, &mut self.journal, link, board) {
            Ok(()) => Ok(()),
            Err(SwitchRefused::Full) => Err(KeepRefused::Full),
            Err(SwitchRefused::Disk) => Err(KeepRefused::Disk),
            Err(SwitchRefused::NoMemory) => Err(KeepRefused::NoMemory),
        }
    }
}
