//! What a crash leaves of a journal, after any calls.
ghost use Rattle.std.specs.Prelude.{◌≡◌, ℕ, List, None, Some, Ok};
ghost use Rattle.board_core.specs.declared.board.DiskCall.{DiskCall};
ghost use Rattle.board_core.specs.Clock.{Adds, Always, LeftNow};
ghost use Rattle.board_core.specs.Doing.{Moment};
ghost use Rattle.board_core.specs.Stop.{Left};
ghost use Rattle.board_core.specs.Told.{Told};
ghost use Rattle.ras_facts.specs.declared.entry.Entry.{Entry};
ghost use Rattle.ras_account.specs.Account.{State, account_of};
ghost use Rattle.ras_account.specs.Continued.{account_after_mark};
ghost use Rattle.ras_account.specs.History.{History};
ghost use Rattle.entry_format.specs.declared.version.Version.TheVariants.{One};
ghost use Rattle.ras_journal.specs.File.{FileFront, front_of};
ghost use Rattle.ras_journal.specs.Laws.{IsRead, IsShort};
ghost use Rattle.ras_journal.specs.Recovered.{HasFewLinks, IsAt, recovered};
ghost use Rattle.ras_recover.specs.Life.{JournalCall, Life, account_after_links, cut, Continues, RecoversBehind, with_links, Site, Works, OpensJournal, BeginsWith, Lives};
ghost use Rattle.ras_journal.specs.declared.standing.Standing.{Standing};
ghost use Rattle.ras_recover.specs.Opening.{FormatsFirst, Opening, opening_acts};
ghost use Rattle.ras_recover.specs.OpeningCalls.{IsRecoveryOf, MakesOpening, ReadsTo};
ghost use Rattle.ras_recover.specs.Recovering.{KeepsTold};
ghost use Rattle.ras_recover.specs.Switching.{CanSwitch, Switching, after_switch, switch_acts, switched};

use board_core::Board;

/// The laws of a switch's acts, if the journal can be switched.
pub fn switch_laws()
    // Whatever a crash leaves at any point of a switch gives the account.
    ensures moments { (standing : Standing) (account : State) (t : Told) (left : Left)
        → CanSwitch standing account → IsAt standing account t.here
        → Moment (switch_acts standing account) t left → Switching standing account t.here left }

    // After a switch the files give the account at the next position.
    ensures done { (standing : Standing) (account : State) (t : Told)
        → CanSwitch standing account → IsAt standing account t.here
        → IsAt (switched standing account) account (after_switch standing account t).here }
{}

/// The law of a whole recovery: it reads every byte of the journal's file up to the closed gate at
/// the journal's position.
pub fn recovery_laws()
    ensures reads { (standing : Standing) (account : State) (here : Left) (calls : List DiskCall)
        → IsAt standing account here → IsRecoveryOf here calls
        → ReadsTo standing.file standing.length calls }
{}

/// The laws of an opening: what its writes leave, and how many links the files of a journal have
/// while it is recovered and opened, and afterwards. No valid file has more than 256, if none had
/// at the start.
pub fn opening_laws<B: Board>()
    // An opening writes only if no file is valid. Whatever a crash leaves at any point of the
    // writes gives the empty account, and has few links.
    ensures moments { (t : Told) (left : Left)
        → Moment (opening_acts t.here) t left → FormatsFirst t.here left }

    // If every crash image at the start of an opening has few links, so has every crash image from
    // there on. The law holds for a recovery too.
    ensures few { (old new : B) (here : Left)
        → Always (B.seen old).clock (B.seen old).clock.now HasFewLinks
        → Adds (Opening (B.seen old).clock here) (B.seen old).clock (B.seen new).clock
        → Always (B.seen new).clock (B.seen old).clock.now HasFewLinks }
    ensures few_recovering { (old new : B)
        → Always (B.seen old).clock (B.seen old).clock.now HasFewLinks
        → KeepsTold (B.seen old).told (B.seen old).clock (B.seen new).told (B.seen new).clock
        → Always (B.seen new).clock (B.seen old).clock.now HasFewLinks }

    // If the files in the board's model have few links, they also have few links once the journal
    // is open.
    ensures few_done { (old new : Told) → HasFewLinks old.here → MakesOpening old new
        → HasFewLinks new.here }
{}

/// The laws of any appends, switches and openings of a journal, and any crashes of the machine
/// during them and between them: no link whose append returned `Ok` is lost, and no other link is
/// in the journal, except one whose append was interrupted.
///
/// A life begins with an account: on a machine that was started over files which give it, whether
/// no file is valid or one of either version; or with an open journal that has it, as after an
/// opening that returned it. [`crate::live_append`], [`crate::live_switch`] and
/// [`crate::live_opening`] show that the journal's functions are calls of such a life.
pub fn life_laws<B: Board>()
    // Whatever a crash leaves at any point of a call, the files give the account continued by the
    // links of all appends that returned `Ok` before. If the call is an append, its link counts or
    // doesn't. So the files are never damaged.
    ensures in_a_call { (account : State) (life : Life) (call : JournalCall)
        (first last : Site B) (board : B) (left : Left)
        → BeginsWith B.seen account first
        → Lives B.seen life first last
        → Works B.seen call last board
        → (B.seen board).clock.may_leave_since (B.seen last.board).clock.now left
        → RecoversBehind account (cut life call) left }
    ensures between_calls { (account : State) (life : Life) (first last : Site B) (left : Left)
        → BeginsWith B.seen account first
        → Lives B.seen life first last → LeftNow (B.seen last.board).clock left
        → RecoversBehind account life left }

    // An opening that returns `Ok` returns that account.
    ensures opened { (account now : State) (life : Life) (first last opened : Site B)
        → BeginsWith B.seen account first
        → Lives B.seen life first last
        → OpensJournal B.seen now last opened
        → Continues account life now }

    // The account of a history, continued by links, is the account of the history followed by the
    // entries of the links.
    ensures histories { (history : History) (links : List (List Entry))
        → account_after_links (account_of history) links
        ≡ account_of (with_links history links) }

    // A file of version 1 by itself gives its account with an upgrade marker after it. So a life
    // may begin there too. Because an append needs version 2, the journal is switched first.
    ensures first_version { (file0 file1 : List ℕ) (front : FileFront)
        → IsShort file0 → IsShort file1
        → IsRead None file0 front → front.version ≡ One
        → front_of (Some front.generation) file1 ≡ Ok None
        → recovered file0 file1 ≡ Ok (account_after_mark front.account) }
{}
