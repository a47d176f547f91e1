//! The line of a record of the store that can't be read.

ghost use Rattle.std.specs.Prelude.{◌≡◌, ◌++◌, OnOk};
ghost use Rattle.ras_texts.specs.Unreadable.{unreadable_word, unreadable_line};

use crate::pieces::hexadecimal_digits;
use cper_records::{RecordRefused, Unreadable};
use ras_base::NoMemory;

/// Appends the line of a record of the store that can't be read: its identifier, and why.
///
/// # Errors
///
/// `NoMemory`: only if memory runs out.
pub fn push_unreadable(text: &mut Vec<u8>, id: u64, why: Unreadable) -> Result<(), NoMemory>
    ensures { OnOk result (text.new.items ≡ text.old.items ++ unreadable_line id why) }
{
    text.extend_from_slice(b"unreadable record=")?;
    text.extend_from_slice(&hexadecimal_digits(id))?;
    text.extend_from_slice(b" reason=")?;
    text.extend_from_slice(unreadable_word(why))?;
    text.extend_from_slice(b"\n")?;
    Ok(())
}

// Returns the word for the reason why a record can't be read.
fn unreadable_word(why: Unreadable) -> &'static [u8]
    ensures { result.now ≡ unreadable_word why }
{
    match why {
        Unreadable::NoRecord(RecordRefused::Short) => b"short",
        Unreadable::NoRecord(RecordRefused::Signature) => b"signature",
        Unreadable::NoRecord(RecordRefused::Length) => b"length",
        Unreadable::NoRecord(RecordRefused::DescriptorOut) => b"descriptor",
        Unreadable::NoRecord(RecordRefused::SectionOut) => b"section-out",
        Unreadable::NoRecord(RecordRefused::Section) => b"section",
        Unreadable::OtherId => b"identifier",
    }
}
