//! Opens the journal.
ghost use Rattle.std.specs.Prelude.{◌≡◌, Result, false, IfSome, IfOk, IfErr};
ghost use Rattle.board_core.specs.Cause.{disk_call, FailsAs};
ghost use Rattle.board_core.specs.Clock.{Adds};
ghost use Rattle.board_core.specs.Doing.{Does, IsMade};
ghost use Rattle.board_core.specs.Told.{Told, file_of};
ghost use Rattle.board_core.specs.declared.board.FileNo.TheVariants.{Zero};
ghost use Rattle.entry_format.specs.declared.version.Version.TheVariants.{Two};
ghost use Rattle.journal_format.specs.Checkpoints.{IsCheckpoint, checkpoint_bytes};
ghost use Rattle.ras_account.specs.Account.{State};
ghost use Rattle.ras_account.specs.View.{nothing};
ghost use Rattle.ras_journal.specs.Recovered.{Refusal, recovered, is_shut};
ghost use Rattle.ras_recover.specs.Formatting.{behind_gate, formatting_acts};
ghost use Rattle.ras_recover.specs.Recovering.{RefusesHeld, RestsHere, SyncsBy, TellsHeld, open_end, open_failure};
ghost use Rattle.ras_recover.specs.Steps.Looking.{standing_begun};
ghost use Rattle.ras_recover.specs.Opening.{Opening, OpeningSynced, IsOpened, OnRefusal, standing_opened};
ghost use Rattle.ras_recover.specs.OpeningActs.{DoesOpening};

use crate::formatting::{format_file, next_bytes};
use crate::recovering::recover_files;
use crate::{OpenRefused, Recovered};
use board_core::{Board, FileNo};
use entry_format::Version;
use journal_format::CHECKPOINT_PLACE;
use ras_account::Account;
use ras_journal::{Journal, Standing};
use std::alloc::Global;

// Formats generation 1 in file 0, with this account as its checkpoint. `shut` says whether each
// file is shut.
fn format_first<B: Board>(
    alloc: Global,
    account: &Account,
    shut: (bool, bool),
    board: &mut B,
) -> Result<Journal, OpenRefused>
    requires { IfSome (B.seen board.old).told (λ t. shut.0 ≡ is_shut (file_of Zero t)) }
    ensures does { Does B.seen
        (formatting_acts Zero shut.0 (behind_gate 1 (checkpoint_bytes Two account.now.state)))
        (open_end result) board.old board.new }
    ensures can { IsMade (open_end result)
        → IsCheckpoint Two account.now.state (checkpoint_bytes Two account.now.state) }
    ensures journal { IfOk result (λ journal. journal ≡ record {
      standing = standing_begun account.now.state shut.1;
      failed = false;
    }) }
    ensures refuses { IfErr result (λ refused. (held : Result State Refusal) → RefusesHeld refused held) }
{
    let (bytes, count) = next_bytes(alloc, 1, account)?;
    format_file(FileNo::Zero, shut.0, &bytes, board)?;
    Ok(Journal::at(Standing {
        file: FileNo::Zero,
        version: Version::Two,
        generation: 1,
        length: (CHECKPOINT_PLACE as u64).saturating_add(count),
        links: 0,
        shut: shut.1,
    }))
}

/// Recovers the account as `recover` does, and returns it with its journal, which hasn't failed. If
/// neither file is valid, formats file 0 with generation 1. A journal of version 1 has to be
/// switched before a link is appended.
///
/// # Errors
///
/// As `recover`. `Disk` and `NoMemory` may also come from the formatting.
pub fn open_journal<B: Board>(
    alloc: Global,
    board: &mut B,
) -> Result<(Account, Journal), OpenRefused>
    // The account is what the files contain.
    ensures recovers { IfSome (B.seen board.old).told
        (λ t. TellsHeld (λ r. r.0.state) result (recovered t.here.file0 t.here.file1)) }
    ensures ready { IfOk result (λ r. (r.0.waiting ≡ nothing) × (r.1.failed ≡ false)) }
    ensures standing { IfOk result (λ r. IfSome (B.seen board.old).told
        (λ t. r.1.standing ≡ standing_opened t.here.file0 t.here.file1)) }

    // A crash leaves what a crash before may have left, or gives the empty account if no file is
    // valid. After `Ok` a crash leaves exactly what the board's model says, and the journal's
    // position is the position of the files.
    ensures stops { (t : Told) → (B.seen board.old).told ≡ Some t
        → Adds (Opening (B.seen board.old).clock t.here) (B.seen board.old).clock
        (B.seen board.new).clock }
    // Both files are synced first. From then on a crash leaves exactly what the board's model said
    // of the files, the store and the text, or gives the empty account if no file is valid.
    ensures syncs { (t : Told) → (B.seen board.old).told ≡ Some t
        → SyncsBy B.seen (OpeningSynced t.here) t result board.old board.new }
    ensures opened { IfOk result (λ r. (t : Told) → (B.seen board.old).told ≡ Some t
        → IsOpened r.1.standing r.0.state (B.seen board.new).told (B.seen board.new).clock) }
    // If the files are refused, a crash afterwards leaves exactly what the board's model said of
    // the files, the store and the text.
    ensures refused { IfErr result (λ why. OnRefusal why
        ((t : Told) → (B.seen board.old).told ≡ Some t
        → RestsHere t.here (B.seen board.new).told (B.seen board.new).clock)) }

    // What the opening does, as acts and as disk calls, whatever it returns.
    ensures does { DoesOpening (λ refused. refused ≡ OpenRefused.Disk) result
        (B.seen board.old).told (B.seen board.new).told }

    ensures cause { FailsAs disk_call (B.seen board.old).faults (B.seen board.new).faults
        (open_failure result) }
{
    let recovered = recover_files(alloc, board)?;
    let (Recovered { account, standing }, shut) = recovered;
    if let Some(standing) = standing {
        return Ok((account, Journal::at(standing)));
    }
    let journal = format_first(alloc, &account, shut, board)?;
    Ok((account, journal))
}
