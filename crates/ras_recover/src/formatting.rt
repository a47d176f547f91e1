//! Writes a new generation of the journal over a file.
ghost use Rattle.std.specs.Prelude.{◌≡◌, ◌+◌, ◌≤◌, ◌++◌, length, take, drop, IfOk, IfSome};
ghost use Rattle.ras_base.specs.LittleEndian.{u64_bytes};
ghost use Rattle.board_core.specs.Cause.{disk_call};
ghost use Rattle.board_core.specs.Doing.{Does, one_end};
ghost use Rattle.board_core.specs.Told.{file_of};
ghost use Rattle.journal_format.specs.Checkpoints.{checkpoint_bytes, IsCheckpoint};
ghost use Rattle.entry_format.specs.declared.version.Version.TheVariants.{Two};
ghost use Rattle.ras_journal.specs.Recovered.{is_shut};
ghost use Rattle.ras_recover.specs.Formatting.{behind_gate, closing_acts, formatting_acts};

use board_core::{Board, Failed, FileNo, write_through};
use journal_format::push_checkpoint;
use ras_account::Account;
use ras_base::NoMemory;
use ras_base::little_endian::push_u64;
use ras_journal::{CLOSED_GATE, OPEN_GATE};
use std::alloc::Global;

/// The magic of a file of version 2.
const MAGIC: &[u8; 8] = b"RASJRNL2";

/// The number of bytes written beside the checkpoint: the magic, the generation, the number of the
/// checkpoint's bytes, and the closed gate.
const BYTES_BESIDE_CHECKPOINT: usize = 25;

/// In which steps the room for a checkpoint grows: 1 MiB.
const STEP: usize = 1_048_576;

/// The offset of the checkpoint's length in these bytes: after the magic and the generation.
const COUNT_PLACE: usize = 16;

// Returns how many bytes are surely enough for what is written: at most 20 for a name, 131 for the
// row of a module, 25 for the row of a page, 72 for the rest of a checkpoint. Computing the exact
// number would take a look at each name.
fn room_for(account: &Account) -> usize {
    let names = account.names_len().saturating_mul(20);
    let modules = account.modules_len().saturating_mul(131);
    let pages = account.pages().len().saturating_mul(25);
    let all = names
        .saturating_add(modules)
        .saturating_add(pages)
        .saturating_add(72 + BYTES_BESIDE_CHECKPOINT);
    // The allocator gives a large block back to the kernel, and gets it again page by page, unless
    // the next block has the same size. So the size grows in steps.
    (all / STEP).saturating_add(1).saturating_mul(STEP)
}

// Writes the checkpoint's length over the eight bytes at its offset.
#[tactic(auto, unfolding(ras_base::specs::LittleEndian::u64_bytes))]
fn put_count(bytes: &mut [u8], count: u64)
    requires { COUNT_PLACE + 8 ≤ length bytes.old }
    ensures { bytes.new
        ≡ take COUNT_PLACE bytes.old ++ (u64_bytes count ++ drop 8 (drop COUNT_PLACE bytes.old)) }
{
    bytes[COUNT_PLACE..COUNT_PLACE + 8].copy_from_slice(&count.to_le_bytes());
}

// Returns what is written after the gate at a file's front, with the checkpoint of this account,
// and the checkpoint's length. Allocates all of it at once.
pub(crate) fn next_bytes(
    alloc: Global,
    generation: u64,
    account: &Account,
) -> Result<(Vec<u8>, u64), NoMemory>
    ensures is { IfOk result (λ r. r.0.items ≡ behind_gate generation
        (checkpoint_bytes Two account.now.state)) }
    ensures count { IfOk result (λ r. r.1 ≡ length (checkpoint_bytes Two account.now.state)) }
    ensures account { IfOk result (λ _. IsCheckpoint Two account.now.state
        (checkpoint_bytes Two account.now.state)) }
{
    let mut bytes = Vec::with_capacity(alloc, room_for(account))?;
    bytes.extend_from_slice(MAGIC)?;
    push_u64(&mut bytes, generation)?;
    // The checkpoint's length is known once the checkpoint is there.
    push_u64(&mut bytes, 0)?;
    let front = bytes.len();
    push_checkpoint(&mut bytes, account)?;
    let count = (bytes.len() - front) as u64;
    put_count(&mut bytes, count);
    bytes.push(CLOSED_GATE)?;
    Ok((bytes, count))
}

// Closes the gate at the front of a file and syncs the file, unless the file is shut already.
fn close_gate<B: Board>(file: FileNo, shut: bool, board: &mut B) -> Result<(), Failed>
    ensures does { Does B.seen (closing_acts file shut)
        (one_end disk_call result) board.old board.new }
{
    if shut {
        return Ok(());
    }
    write_through(file, 0, &[CLOSED_GATE], board)
}

// Writes these bytes after the gate at the front of a file, with the gate closed until they are
// synced, and then opens the gate: four or six disk calls.
pub(crate) fn format_file<B: Board>(
    file: FileNo,
    shut: bool,
    bytes: &[u8],
    board: &mut B,
) -> Result<(), Failed>
    requires { IfSome (B.seen board.old).told (λ t. shut ≡ is_shut (file_of file t)) }
    ensures does { Does B.seen (formatting_acts file shut bytes.now)
        (one_end disk_call result) board.old board.new }
{
    close_gate(file, shut, board)?;
    write_through(file, 1, bytes, board)?;
    write_through(file, 0, &[OPEN_GATE], board)
}
