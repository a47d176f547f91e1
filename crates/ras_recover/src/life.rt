//! The calls of a journal in the words of the laws over any list of calls: the clauses of each call
//! are what the laws assume of a call in progress, and of a call that returned `Ok`.

ghost use Rattle.std.specs.Prelude.{◌≡◌, ◌<◌, List, Option, Some, false, length, IfOk, IfSome, OnOk};
ghost use Rattle.board_core.specs.Told.{Told, file_of};
ghost use Rattle.entry_format.specs.declared.version.Version.TheVariants.{Two};
ghost use Rattle.ras_facts.specs.declared.entry.Entry.{Entry};
ghost use Rattle.ras_journal.specs.declared.standing.Standing.{Standing};
ghost use Rattle.ras_journal.specs.Recovered.{is_shut, other};
ghost use Rattle.ras_recover.specs.Life.{CanLinkHere, IsAnswered, IsHeld, OpensJournal, Works};
ghost use Rattle.ras_recover.specs.Life.{a_switch, an_append, an_opening, open_site};

use crate::{OpenRefused, SwitchRefused, open_journal, switch_file};
use board_core::Board;
use journal_format::Link;
use ras_account::Account;
use ras_journal::{AppendRefused, Journal};
use std::alloc::Global;

/// Appends a link, by [`Journal::append`]. Requires what that call requires.
///
/// # Errors
///
/// As [`Journal::append`].
pub fn live_append<B: Board>(
    journal: &mut Journal,
    link: &Link,
    board: &mut B,
) -> Result<(), AppendRefused>
    requires usable { journal.old.failed ≡ false }
    requires version { journal.old.standing.version ≡ Two }
    requires gate { IfSome (B.seen board.old).told
        (λ t. journal.old.standing.length < length (file_of journal.old.standing.file t)) }
    ensures works { (entries : List Entry) → CanLinkHere (B.seen board.old).told entries link.now
        → Works B.seen (an_append entries)
        (open_site board.old journal.old.standing) board.new }
    ensures answered { OnOk result ((entries : List Entry)
        → CanLinkHere (B.seen board.old).told entries link.now
        → IsAnswered B.seen (an_append entries)
        (open_site board.old journal.old.standing) (open_site board.new journal.new.standing)) }
{
    journal.append(link, board)
}

/// Switches a journal to its other file, by [`switch_file`]. Requires what that call requires, and
/// that the files give this account.
///
/// # Errors
///
/// As [`switch_file`].
pub fn live_switch<B: Board>(
    alloc: Global,
    account: &Account,
    journal: &mut Journal,
    link: &Link,
    board: &mut B,
) -> Result<(), SwitchRefused>
    requires usable { journal.old.failed ≡ false }
    requires shut { IfSome (B.seen board.old).told
        (λ t. journal.old.standing.shut ≡ is_shut (file_of (other journal.old.standing.file) t)) }
    requires held { IsHeld (B.seen board.old).told account.now.state }
    ensures works { Works B.seen a_switch
        (open_site board.old journal.old.standing) board.new }
    ensures answered { OnOk result (IsAnswered B.seen a_switch
        (open_site board.old journal.old.standing) (open_site board.new journal.new.standing)) }
{
    switch_file(alloc, account, journal, link, board)
}

/// Opens the journal, by [`open_journal`], whether one was open or not.
///
/// # Errors
///
/// As [`open_journal`].
pub fn live_opening<B: Board>(
    alloc: Global,
    board: &mut B,
) -> Result<(Account, Journal), OpenRefused>
    ensures works { (journal : Option Standing) (t : Told) → (B.seen board.old).told ≡ Some t
        → Works B.seen an_opening
        (record { board = board.old; journal = journal }) board.new }
    ensures answered { IfOk result (λ r. (journal : Option Standing) (t : Told)
        → (B.seen board.old).told ≡ Some t → OpensJournal B.seen r.0.state
        (record { board = board.old; journal = journal }) (open_site board.new r.1.standing)) }
{
    open_journal(alloc, board)
}
