//! Numbers in printed text.

ghost use Rattle.std.specs.Prelude.{◌≡◌, ◌++◌, decimal, OnOk};

use crate::NoMemory;
use itoa::Buffer;

/// Appends a number in decimal.
///
/// # Errors
///
/// `NoMemory`: only if memory runs out.
#[tactic(auto, using(std::proofs::lemmas::Fmt::decimal_digit))]
pub fn push_number(text: &mut Vec<u8>, number: u64) -> Result<(), NoMemory>
    ensures { OnOk result (text.new.items ≡ text.old.items ++ decimal number) }
{
    // Most numbers that are printed have one digit, and these need no buffer.
    if number < 10 {
        text.push(b'0' + number as u8)?;
        return Ok(());
    }
    let mut buffer = Buffer::new();
    text.extend_from_slice(buffer.format(number).as_bytes())?;
    Ok(())
}
