//! Switches the journal to its other file.
ghost use Rattle.std.specs.Prelude.{◌≡◌, ◌+◌, ◌<◌, ◌≤◌, ◌↔◌, false, min, length, IfOk, IfErr, IfSome, IsTrue, OnOk, None};
ghost use Rattle.board_core.specs.Doing.{Does, IsMade, gave_up};
ghost use Rattle.board_core.specs.Told.{file_of};
ghost use Rattle.entry_format.specs.declared.version.Version.TheVariants.{Two};
ghost use Rattle.journal_format.specs.Checkpoints.{checkpoint_bytes};
ghost use Rattle.ras_account.specs.Account.{State};
ghost use Rattle.ras_journal.specs.Recovered.{other, is_shut};
ghost use Rattle.ras_recover.specs.Switching.{CanSwitch, IsFullBy, MovesOver, has_no_room};
ghost use Rattle.ras_recover.specs.Switching.{next_bytes, switch_acts, switch_end, switch_refused_end, switched};

use crate::SwitchRefused;
use crate::formatting::{format_file, next_bytes};
use board_core::{Board, Failed, FileNo};
use entry_format::Version;
use journal_format::{CHECKPOINT_PLACE, Link, checkpoint_len};
use ras_account::Account;
use ras_journal::{Journal, LAST_GENERATION, LONGEST_FILE, Standing};
use std::alloc::Global;

// Returns the other of the two files.
fn other(file: FileNo) -> FileNo
    ensures { result ≡ other file }
{
    match file {
        FileNo::Zero => FileNo::One,
        FileNo::One => FileNo::Zero,
    }
}

// Returns the journal's position after a switch to the other file with a checkpoint of this length,
// or `None` if there is no room for the switch.
fn switched(standing: Standing, checkpoint: u64, link: &Link) -> Option<Standing>
    requires { standing.generation < LAST_GENERATION }
    ensures none { (account : State)
        → checkpoint ≡ min u64.MAX (length (checkpoint_bytes Two account))
        → (result ≡ None) ↔ IsTrue (has_no_room standing account link.now) }
    ensures is { IfSome result (λ next. (account : State)
        → checkpoint ≡ min u64.MAX (length (checkpoint_bytes Two account))
        → next ≡ switched standing account) }
    ensures fits { IfSome result (λ next. next.length + 2 ≤ LONGEST_FILE) }
{
    let place = CHECKPOINT_PLACE as u64;
    let link = link.bytes().len() as u64;
    if checkpoint > LONGEST_FILE
        || link > LONGEST_FILE
        || place + checkpoint + 1 + link + 1 > LONGEST_FILE
    {
        return None;
    }
    Some(Standing {
        file: other(standing.file),
        version: Version::Two,
        generation: standing.generation + 1,
        length: place + checkpoint,
        links: 0,
        shut: false,
    })
}

// Returns what a switch writes after the gate at the front of the other file, and the journal's
// position after the switch.
fn next_file(
    alloc: Global,
    standing: Standing,
    account: &Account,
    link: &Link,
) -> Result<(Vec<u8>, Standing), SwitchRefused>
    ensures bytes { IfOk result (λ r. r.0.items ≡ next_bytes standing account.now.state) }
    ensures next { IfOk result (λ r. r.1 ≡ switched standing account.now.state) }
    ensures can { OnOk result (CanSwitch standing account.now.state) }
    ensures full { IsFullBy result (has_no_room standing account.now.state link.now) }
    ensures refused { IfErr result (λ why. switch_refused_end why ≡ gave_up) }
{
    if standing.generation >= LAST_GENERATION {
        return Err(SwitchRefused::Full);
    }
    let Ok((bytes, count)) = next_bytes(alloc, standing.generation + 1, account) else {
        // Lack of room is reported rather than lack of memory. The length is only computed here,
        // because that visits each name.
        return match switched(standing, checkpoint_len(account), link) {
            Some(_) => Err(SwitchRefused::NoMemory),
            None => Err(SwitchRefused::Full),
        };
    };
    match switched(standing, count, link) {
        Some(next) => Ok((bytes, next)),
        None => Err(SwitchRefused::Full),
    }
}

/// Switches a journal to its other file by four or six disk calls: writes the next generation
/// there, in version 2, with the account as its checkpoint. Allocates everything before the first
/// call. Requires a journal that hasn't failed, and whose position says whether the other file is
/// shut.
///
/// Whatever a crash leaves at any point of the switch gives the account that the files contain, by
/// [`crate::switch_laws`].
///
/// # Errors
///
/// `Full`: if and only if the other file with this link would be longer than 67,108,864 bytes, or
/// the journal's generation is 2^63 - 1. No disk call was made, and the journal is as before.
/// `NoMemory`: only if memory runs out. No disk call was made, and the journal is as before.
/// `Disk`: only if a disk call failed. The journal has then failed.
pub fn switch_file<B: Board>(
    alloc: Global,
    account: &Account,
    journal: &mut Journal,
    link: &Link,
    board: &mut B,
) -> Result<(), SwitchRefused>
    requires usable { journal.old.failed ≡ false }
    requires shut { IfSome (B.seen board.old).told
        (λ t. journal.old.standing.shut ≡ is_shut (file_of (other journal.old.standing.file) t)) }
    ensures does { Does B.seen
        (switch_acts journal.old.standing account.now.state) (switch_end result)
        board.old board.new }
    ensures can { IsMade (switch_end result)
        → CanSwitch journal.old.standing account.now.state }
    ensures journal { MovesOver result (switched journal.old.standing account.now.state)
        journal.old journal.new }
    ensures full { IsFullBy result (has_no_room journal.old.standing account.now.state link.now) }
{
    let standing = journal.standing();
    let (bytes, next) = next_file(alloc, standing, account, link)?;
    if let Err(Failed) = format_file(next.file, standing.shut, &bytes, board) {
        journal.fail();
        return Err(SwitchRefused::Disk);
    }
    *journal = Journal::at(next);
    Ok(())
}
