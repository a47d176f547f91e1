//! The time stamp of a line of the kernel.

ghost use Rattle.std.specs.Prelude.{◌≡◌};
ghost use Rattle.bank_lines.specs.Stamp.{stamp_of};

use ras_script::decimal;

/// The most seconds of a stamp: with any microseconds they fit 64 bits.
pub const MOST_SECONDS: u64 = 18_446_744_073_708;

/// Returns the microseconds of a stamp, `<seconds>.<microseconds>:`, whose microseconds have six
/// digits.
pub fn stamp_of(word: &[u8]) -> Option<u64>
    ensures { result ≡ stamp_of word.now }
{
    if word.len() <= 8 {
        return None;
    }
    let point = word.len() - 8;
    if word[point] != b'.' || word[point + 7] != b':' {
        return None;
    }
    let seconds = decimal(&word[..point], MOST_SECONDS)?;
    let (micros, _) = word[point + 1..].split_at(6);
    let micros = decimal(micros, 999_999)?;
    Some(1_000_000 * seconds + micros)
}
