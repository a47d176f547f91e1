//! Calls of a board that do one act each: a write that is durable once it has succeeded, and a put.
ghost use Rattle.std.specs.Prelude.{◌≤◌, ◌∷◌, [], length, IfSome};
ghost use Rattle.erst_store.specs.DeviceLaws.{IsDevice};
ghost use Rattle.erst_store.specs.Store.{refusal_of};
ghost use Rattle.board_core.specs.Cause.{device_call, disk_call, put_failure};
ghost use Rattle.board_core.specs.Clock.{Adds, After};
ghost use Rattle.board_core.specs.Doing.{Does, one_end, put_acts, through};
ghost use Rattle.board_core.specs.Stop.{InFile};
ghost use Rattle.board_core.specs.Told.{AnswersPut, Torn, device_of, file_of};

use crate::{Board, BoardPut, Failed, FileNo};

/// Writes `bytes` at offset `place`, which is at most the file's length, and syncs the file.
///
/// If a crash before the call would have left exactly what the model says, so does a crash after it
/// succeeded, and the bytes are durable. A crash in between, or after `Failed`, leaves the file as
/// a torn write may, and everything else unchanged.
///
/// `Failed`: only if the write or the sync failed.
pub fn write_through<B: Board>(
    file: FileNo,
    place: u64,
    bytes: &[u8],
    board: &mut B,
) -> Result<(), Failed>
    requires { IfSome (B.seen board.old).told (λ told. place ≤ length (file_of file told)) }
    ensures does { Does B.seen (through file place bytes.now ∷ [])
        (one_end disk_call result) board.old board.new }
    // This holds even if a crash before the call might have left something other than the model
    // says.
    ensures stops { Adds (After (B.seen board.old).clock
        (InFile file (Torn place (length bytes.now))))
        (B.seen board.old).clock (B.seen board.new).clock }
{
    board.write_at(file, place, bytes)?;
    board.sync(file)
}

/// Puts a record into the store from outside, by one call of the board.
///
/// `Refused`: with the store's own refusal, which follows from the model, or with `NoMemory`;
/// nothing was done. `Failed`: the record may or may not have been put.
pub fn put<B: Board>(id: u64, bytes: &[u8], board: &mut B) -> Result<(), BoardPut>
    ensures does { Does B.seen (put_acts id bytes.now result)
        (one_end device_call (put_failure result)) board.old board.new }
    ensures answers { IfSome (B.seen board.old).told
        (λ t. AnswersPut result (refusal_of id bytes.now t.here.store)) }
    ensures device { IfSome (B.seen board.old).told (λ t. IsDevice (device_of t)) }
{
    board.put(id, bytes)
}
