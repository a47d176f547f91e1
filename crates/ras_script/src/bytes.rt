//! Bytes as the words of a script write them.

ghost use Rattle.std.specs.Prelude.{◌≡◌, ◌↔◌, ◌%◌, ◌*◌, ◌<◌, ℕ, List, length, IfOk, IsSome, None, Some, if◌then◌else◌};
ghost use Rattle.std.specs.List.{AllPass};
ghost use Rattle.std.specs.Result.{result_ok};
ghost use Rattle.hex.specs.Hex.{decode_of, encode_lower, encode_upper, is_hex_digit};
ghost use Rattle.ras_script.specs.Bytes.{AreBytes, bytes_of};

use crate::number::value_of;
use mca_codes::Text;
use ras_base::NoMemory;
use std::alloc::Global;

/// Returns the bytes that a word writes, each with two hexadecimal digits of either case. It is
/// `None` if the word is empty, has an odd number of bytes, or has a byte that isn't such a digit.
///
/// `NoMemory`: only if memory runs out.
pub fn bytes_of(alloc: Global, word: &[u8]) -> Result<Option<Text>, NoMemory>
    ensures { IfOk result (λ bytes. bytes ≡ bytes_of word.now) }
{
    if word.is_empty() || word.len() % 2 != 0 {
        return Ok(None);
    }
    let mut bytes = vec![in alloc; 0u8; word.len() / 2]?;
    if decode_into(word, &mut bytes) {
        Ok(Some(Text::new(bytes)))
    } else {
        Ok(None)
    }
}

// Writes the byte of each two digits of a word, and returns whether all its bytes are digits. All
// bytes are tested together at the end, because most words have no others.
fn decode_into(word: &[u8], bytes: &mut [u8]) -> bool
    requires { length word.now ≡ 2 * length bytes.old }
    ensures { result_ok (decode_of word.now) ≡ (if result then Some bytes.new else None) }
{
    let mut together = 0;
    for place in 0..bytes.len() {
        let high = value_of(word[2 * place]);
        let low = value_of(word[2 * place + 1]);
        together |= high | low;
        bytes[place] = high.wrapping_mul(16).wrapping_add(low);
    }
    together < 16
}

/// A word for bytes has an even number of hexadecimal digits, at least 2. Bytes written in
/// hexadecimal, with small or with large letters, are read back.
pub fn written_bytes_are_read()
    ensures digits { (word : List ℕ) → IsSome (bytes_of word)
        ↔ ((0 < length word) × (length word % 2 ≡ 0) × AllPass is_hex_digit word) }
    ensures small { (bytes : List ℕ) → AreBytes bytes → bytes_of (encode_lower bytes) ≡ Some bytes }
    ensures large { (bytes : List ℕ) → AreBytes bytes → bytes_of (encode_upper bytes) ≡ Some bytes }
{}
