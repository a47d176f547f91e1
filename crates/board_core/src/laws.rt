//! What the clauses of a board say about several calls in a row.
ghost use Rattle.std.specs.Prelude.{◌≡◌, ℕ, ◌≤◌, ◌↔◌, List, [], ◌∷◌, ◌++◌, length};
ghost use Rattle.erst_store.specs.Store.{Stored};
ghost use Rattle.board_core.specs.declared.board.FileNo.{FileNo};
ghost use Rattle.board_core.specs.CallsMade.{AreMade, KeepsDisk, ranges_in};
ghost use Rattle.board_core.specs.Clock.{LeftNow, IsSynced};
ghost use Rattle.board_core.specs.DiskModel.{Disk, MayLeave, MayLeaveFile, MayLeaveSince, Call, rests, after_all, greatest_length};
ghost use Rattle.board_core.specs.Doing.{DeviceCall, after_device, device, prints};
ghost use Rattle.board_core.specs.MemBoard.{Past, with_act, clock_of, disk_of, now_of};
ghost use Rattle.board_core.specs.Stop.{Left, Becomes, file_in};
ghost use Rattle.board_core.specs.Told.{overlay};

use crate::Board;

/// Every board obeys the disk model, over any calls in a row.
pub fn disk_model<B: Board>()
    // Whatever calls are made after a sync of a file, a crash during them or after them leaves the
    // file as the disk model says, from the bytes as of that sync and the ranges written since.
    ensures file { (file : FileNo) (bytes : List ℕ) (calls : List Call) (first last : B)
        → IsSynced file bytes (B.seen first).clock → AreMade B.seen calls first last
        → (left : Left) → (B.seen last).clock.may_leave_since (B.seen first).clock.now left
        → MayLeaveFile (record { synced = bytes; written = ranges_in file calls })
        (file_in file left) }

    // Both files, the record store and the printed text together: a crash leaves what the disk
    // model says of one point in time.
    ensures together { (disk : Disk) (calls : List Call) (first last : B)
        → KeepsDisk disk (B.seen first).clock → AreMade B.seen calls first last
        → (left : Left) → (B.seen last).clock.may_leave_since (B.seen first).clock.now left
        → MayLeaveSince disk calls 0 left }
    ensures after { (disk : Disk) (calls : List Call) (first last : B)
        → KeepsDisk disk (B.seen first).clock
        → AreMade B.seen calls first last
        → KeepsDisk (after_all calls disk) (B.seen last).clock }
{}

/// What the definitions of the disk model mean.
pub fn disk_model_words()
    // A file that wasn't written since its last sync is left as it was at that sync.
    ensures unwritten { (bytes left : List ℕ)
        → MayLeaveFile (record { synced = bytes; written = [] }) left ↔
        (left ≡ bytes) }

    // The new length is the length of the file with the bytes written over it.
    ensures grows { (place : ℕ) (bytes old : List ℕ) → place ≤ length old
        → length (overlay place bytes old)
        ≡ greatest_length (length old) (record { place = place; count = length bytes } ∷ []) }

    // A board in memory leaves exactly what the disk model says. During a print it leaves each
    // beginning of the piece.
    ensures memory { (past : Past) (left : Left)
        → LeftNow (clock_of past) left ↔ MayLeave (disk_of past) rests
        left }
    ensures printing { (past : Past) (part missing : List ℕ)
        → (clock_of (with_act (prints (part ++ missing)) past)).may_leave_since
        (clock_of past).now (record (now_of past).here { out = (now_of past).here.out ++ part }) }

    // During a call of its device, a board in memory may leave the store as before the call, and
    // the store as after it.
    ensures acting { (past : Past) (call : DeviceCall) (store : List Stored)
        → Becomes (after_device call (now_of past)).here.store
        (now_of past).here.store store
        → (clock_of (with_act (device call) past)).may_leave_since (clock_of past).now
        (record (now_of past).here { store = store }) }
{}
