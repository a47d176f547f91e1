//! Recovers the account and the journal from a board.
ghost use Rattle.std.specs.Prelude.{◌≡◌, ◌<◌, ◌≤◌, length, None, Some, Ok, Err, IfSome, IfOk, OnOk};
ghost use Rattle.board_core.specs.Cause.{disk_call, FailsAs};
ghost use Rattle.board_core.specs.Doing.{one_end};
ghost use Rattle.board_core.specs.Stop.{Same};
ghost use Rattle.board_core.specs.Told.{Told, Relates, file_of};
ghost use Rattle.ras_account.specs.View.{nothing};
ghost use Rattle.ras_journal.specs.declared.limits.TheConstants.{LONGEST_FILE};
ghost use Rattle.ras_journal.specs.Recovered.{too_long, is_shut, recovered, position_of};
ghost use Rattle.ras_recover.specs.DiskCalls.{Calls};
ghost use Rattle.ras_recover.specs.Steps.Looking.{AreSyncs, Looks};
ghost use Rattle.ras_recover.specs.OpeningCalls.{AfterRecovery, IsRecoveryOf, ReadsBoth};
ghost use Rattle.ras_recover.specs.Steps.Pair.{DoesRecovery};
ghost use Rattle.ras_recover.specs.Recovering.{TellsHeld, KeepsTold, RestsHere, SyncsBy, UnlessDisk, open_end, open_failure};

use crate::pair::{read_both, recovered_of};
use crate::{OpenRefused, Recovered};
use board_core::{Board, Failed, FileNo};
use ras_journal::LONGEST_FILE;
use std::alloc::Global;

// Syncs both files.
fn sync_both<B: Board>(board: &mut B) -> Result<(), Failed>
    ensures keeps { KeepsTold (B.seen board.old).told (B.seen board.old).clock
        (B.seen board.new).told (B.seen board.new).clock }
    ensures rests { OnOk result ((t : Told) → (B.seen board.old).told ≡ Some t
        → RestsHere t.here (B.seen board.new).told (B.seen board.new).clock) }
    ensures syncs { Relates (Calls (AreSyncs result)) (B.seen board.old).told (B.seen board.new).told }
    ensures cause { FailsAs disk_call (B.seen board.old).faults (B.seen board.new).faults result }
{
    board.sync(FileNo::Zero)?;
    board.sync(FileNo::One)?;
    Ok(())
}

// Returns the size of a file in bytes, or `None` if the file is too long.
fn short_size<B: Board>(file: FileNo, board: &mut B) -> Result<Option<usize>, Failed>
    ensures short { IfOk result (λ r. IfSome r (λ size. size ≤ LONGEST_FILE)) }
    ensures size { IfOk result (λ r. IfSome r (λ size. IfSome (B.seen board.old).told
        (λ t. size ≡ length (file_of file t)))) }
    ensures long { result ≡ Ok None → IfSome (B.seen board.old).told
        (λ t. LONGEST_FILE < length (file_of file t)) }
    ensures looks { Looks (one_end disk_call result) (λ t calls. Unit {0})
        (B.seen board.old) (B.seen board.new) }
{
    let size = board.size(file)?;
    if size > LONGEST_FILE {
        Ok(None)
    } else {
        Ok(Some(size as usize))
    }
}

// Returns the sizes of both files in bytes, or `None` if a file is too long.
fn short_sizes<B: Board>(board: &mut B) -> Result<Option<(usize, usize)>, Failed>
    ensures short { IfOk result (λ r. IfSome r (λ sizes. (sizes.0 ≤ LONGEST_FILE) × (sizes.1 ≤ LONGEST_FILE))) }
    ensures sizes { IfOk result (λ r. IfSome r (λ sizes. IfSome (B.seen board.old).told
        (λ t. (sizes.0 ≡ length t.here.file0) × (sizes.1 ≡ length t.here.file1)))) }
    ensures long { result ≡ Ok None → IfSome (B.seen board.old).told
        (λ t. recovered t.here.file0 t.here.file1 ≡ Err too_long) }
    ensures looks { Looks (one_end disk_call result) (λ t calls. Unit {0})
        (B.seen board.old) (B.seen board.new) }
{
    let Some(zero) = short_size(FileNo::Zero, board)? else {
        return Ok(None);
    };
    let Some(one) = short_size(FileNo::One, board)? else {
        return Ok(None);
    };
    Ok(Some((zero, one)))
}

// Returns what the files of a board contain, and whether each is shut.
fn recover_synced<B: Board>(
    alloc: Global,
    board: &mut B,
) -> Result<(Recovered, (bool, bool)), OpenRefused>
    ensures recovers { IfSome (B.seen board.old).told
        (λ t. TellsHeld (λ r. r.0.account.state) result (recovered t.here.file0 t.here.file1)) }
    ensures standing { IfOk result (λ r. IfSome (B.seen board.old).told
        (λ t. position_of t.here.file0 t.here.file1 ≡ r.0.standing)) }
    ensures shut { IfOk result (λ r. IfSome (B.seen board.old).told
        (λ t. (r.1.0 ≡ is_shut t.here.file0) × (r.1.1 ≡ is_shut t.here.file1))) }
    ensures waiting { IfOk result (λ r. r.0.account.waiting ≡ nothing) }
    ensures looks { Looks (open_end result) (λ t. ReadsBoth t.here)
        (B.seen board.old) (B.seen board.new) }
{
    let Some(sizes) = short_sizes(board)? else {
        return Err(OpenRefused::TooLong);
    };
    let both = read_both(alloc, sizes, board)?;
    let shut = both.shut;
    Ok((recovered_of(alloc, both), shut))
}

// Syncs both files, and returns what they contain and whether each is shut.
pub(crate) fn recover_files<B: Board>(
    alloc: Global,
    board: &mut B,
) -> Result<(Recovered, (bool, bool)), OpenRefused>
    ensures recovers { IfSome (B.seen board.old).told
        (λ t. TellsHeld (λ r. r.0.account.state) result (recovered t.here.file0 t.here.file1)) }
    ensures standing { IfOk result (λ r. IfSome (B.seen board.old).told
        (λ t. position_of t.here.file0 t.here.file1 ≡ r.0.standing)) }
    ensures shut { IfOk result (λ r. IfSome (B.seen board.old).told
        (λ t. (r.1.0 ≡ is_shut t.here.file0) × (r.1.1 ≡ is_shut t.here.file1))) }
    ensures waiting { IfOk result (λ r. r.0.account.waiting ≡ nothing) }
    ensures keeps { KeepsTold (B.seen board.old).told (B.seen board.old).clock
        (B.seen board.new).told (B.seen board.new).clock }
    ensures rests { UnlessDisk result ((t : Told) → (B.seen board.old).told ≡ Some t
        → RestsHere t.here (B.seen board.new).told (B.seen board.new).clock) }
    ensures syncs { (t : Told) → (B.seen board.old).told ≡ Some t
        → SyncsBy B.seen (Same t.here) t result board.old board.new }
    ensures does { DoesRecovery result (B.seen board.old).told (B.seen board.new).told }
    ensures cause { FailsAs disk_call (B.seen board.old).faults (B.seen board.new).faults (open_failure result) }
{
    sync_both(board)?;
    recover_synced(alloc, board)
}

/// Syncs both files, reads each piece by piece up to its closed gate, and returns the account and
/// the journal's position. Writes nothing.
///
/// # Errors
///
/// `Disk`: only if a disk call failed.
/// `TooLong`: only if a file is longer than 67,108,864 bytes.
/// `Damaged`: only if the files' bytes are damaged; has the file's number and the offset.
/// `NoMemory`: only if memory runs out.
///
/// Unless a disk call fails or memory runs out, the files' bytes decide what is returned.
pub fn recover<B: Board>(alloc: Global, board: &mut B) -> Result<Recovered, OpenRefused>
    // What is returned is what the files contain.
    ensures recovers { IfSome (B.seen board.old).told
        (λ t. TellsHeld (λ r. r.account.state) result (recovered t.here.file0 t.here.file1)) }
    ensures standing { IfOk result (λ r. IfSome (B.seen board.old).told
        (λ t. position_of t.here.file0 t.here.file1 ≡ r.standing)) }
    ensures waiting { IfOk result (λ r. r.account.waiting ≡ nothing) }

    // A crash leaves what a crash before may have left. After the call, unless a disk call failed,
    // a crash leaves exactly what the board's model says.
    ensures keeps { KeepsTold (B.seen board.old).told (B.seen board.old).clock
        (B.seen board.new).told (B.seen board.new).clock }
    ensures rests { UnlessDisk result ((t : Told) → (B.seen board.old).told ≡ Some t
        → RestsHere t.here (B.seen board.new).told (B.seen board.new).clock) }

    // Whatever is returned, the model says the same of files, text and device as before, and the
    // disk calls are the calls of a recovery or a beginning of them. After `Ok` all of them were
    // made, and everything that counts of the files was read.
    ensures told { Relates AfterRecovery (B.seen board.old).told (B.seen board.new).told }
    ensures reads { OnOk result (Relates (λ old. Calls (IsRecoveryOf old.here) old)
        (B.seen board.old).told (B.seen board.new).told) }

    ensures cause { FailsAs disk_call (B.seen board.old).faults (B.seen board.new).faults
        (open_failure result) }
{
    let (recovered, _) = recover_files(alloc, board)?;
    Ok(recovered)
}
