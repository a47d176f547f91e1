//! The records of a record store.

ghost use Rattle.std.specs.Prelude.{◌≡◌};
ghost use Rattle.cper_records.specs.Readable.{read_under};

use crate::{Record, Unreadable, read_record};

/// Returns the record at the front of the bytes that a store returned under an identifier. Bytes
/// after the record are ignored.
///
/// `NoRecord`: if and only if `read_record` refuses the bytes, with its refusal. `OtherId`: if and
/// only if it doesn't and the record has another identifier.
pub fn read_stored(id: u64, buffer: &[u8]) -> Result<Record<'_>, Unreadable>
    ensures { result ≡ read_under id buffer.now }
{
    match read_record(buffer) {
        Ok(rec) if rec.id() == id => Ok(rec),
        Ok(_) => Err(Unreadable::OtherId),
        Err(why) => Err(Unreadable::NoRecord(why)),
    }
}
