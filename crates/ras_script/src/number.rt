//! Numbers as the words of a script write them.

ghost use Rattle.std.specs.Prelude.{◌≡◌, ℕ, ◌^◌, ◌<◌, ◌≤◌, Bool, IfSome, SomeIff};
ghost use Rattle.std.specs.Char.{digit_value};
ghost use Rattle.std.specs.Fmt.{decimal, digits};
ghost use Rattle.ras_script.specs.Number.{numeral_value, decimal_of, hexadecimal_of};

/// The most digits of a decimal word.
pub const DECIMAL_DIGITS: usize = 20;

/// The most digits of a hexadecimal word.
pub const HEXADECIMAL_DIGITS: usize = 16;

// Any number of this many digits is below 2^64, in any radix up to 16.
const FITTING_DIGITS: usize = 16;

// The table's value for a byte that isn't a digit in any radix.
const NONE: u8 = 36;

// The value of each byte as a digit, of a radix up to 36.
static DIGIT_VALUES: [u8; 256] = [
    NONE, NONE, NONE, NONE, NONE, NONE, NONE, NONE, NONE, NONE, NONE, NONE, NONE, NONE, NONE, NONE,
    NONE, NONE, NONE, NONE, NONE, NONE, NONE, NONE, NONE, NONE, NONE, NONE, NONE, NONE, NONE, NONE,
    NONE, NONE, NONE, NONE, NONE, NONE, NONE, NONE, NONE, NONE, NONE, NONE, NONE, NONE, NONE, NONE,
    0, 1, 2, 3, 4, 5, 6, 7, 8, 9, NONE, NONE, NONE, NONE, NONE, NONE, NONE, 10, 11, 12, 13, 14, 15,
    16, 17, 18, 19, 20, 21, 22, 23, 24, 25, 26, 27, 28, 29, 30, 31, 32, 33, 34, 35, NONE, NONE,
    NONE, NONE, NONE, NONE, 10, 11, 12, 13, 14, 15, 16, 17, 18, 19, 20, 21, 22, 23, 24, 25, 26, 27,
    28, 29, 30, 31, 32, 33, 34, 35, NONE, NONE, NONE, NONE, NONE, NONE, NONE, NONE, NONE, NONE,
    NONE, NONE, NONE, NONE, NONE, NONE, NONE, NONE, NONE, NONE, NONE, NONE, NONE, NONE, NONE, NONE,
    NONE, NONE, NONE, NONE, NONE, NONE, NONE, NONE, NONE, NONE, NONE, NONE, NONE, NONE, NONE, NONE,
    NONE, NONE, NONE, NONE, NONE, NONE, NONE, NONE, NONE, NONE, NONE, NONE, NONE, NONE, NONE, NONE,
    NONE, NONE, NONE, NONE, NONE, NONE, NONE, NONE, NONE, NONE, NONE, NONE, NONE, NONE, NONE, NONE,
    NONE, NONE, NONE, NONE, NONE, NONE, NONE, NONE, NONE, NONE, NONE, NONE, NONE, NONE, NONE, NONE,
    NONE, NONE, NONE, NONE, NONE, NONE, NONE, NONE, NONE, NONE, NONE, NONE, NONE, NONE, NONE, NONE,
    NONE, NONE, NONE, NONE, NONE, NONE, NONE, NONE, NONE, NONE, NONE, NONE, NONE, NONE, NONE, NONE,
    NONE, NONE, NONE, NONE, NONE, NONE, NONE, NONE, NONE, NONE, NONE,
];

/// Returns the value of a decimal word of 1 to 20 digits. It is `None` for every other word, and
/// for a value above `most`.
pub fn decimal(word: &[u8], most: u64) -> Option<u64>
    ensures value { result ≡ decimal_of most word.now }
    ensures within { IfSome result (λ n. n ≤ most) }
{
    number(word, 10, DECIMAL_DIGITS, most)
}

/// Returns the value of a hexadecimal word of 1 to 16 digits of either case. It is `None` for every
/// other word.
pub fn hexadecimal(word: &[u8]) -> Option<u64>
    ensures { result ≡ hexadecimal_of word.now }
{
    number(word, 16, HEXADECIMAL_DIGITS, u64::MAX)
}

/// A number printed with `{}` is read back as a decimal word, and printed with `{:x}` or `{:X}` as
/// a hexadecimal word.
pub fn written_numbers_are_read()
    ensures in_decimal { (most n : ℕ) → n ≤ most → most < 2 ^ 64
        → decimal_of most (decimal n) ≡ Some n }
    ensures in_hexadecimal { (upper : Bool) (n : ℕ) → n < 2 ^ 64
        → hexadecimal_of (digits 16 upper n) ≡ Some n }
{}

// Returns the value of a word of 1 to `longest` digits, if it is at most `most`. Inlined so that
// the radix is known at each use, because most words of a script are numbers.
#[inline(always)]
fn number(word: &[u8], radix: u32, longest: usize, most: u64) -> Option<u64>
    requires some_radix { 10 ≤ radix }
    requires small_radix { radix ≤ 16 }
    ensures value { result ≡ numeral_value radix longest most word.now }
    ensures within { IfSome result (λ n. n ≤ most) }
{
    if word.is_empty() || word.len() > longest {
        return None;
    }
    let fits = word.len() <= FITTING_DIGITS;
    let mut value = 0u64;
    for byte in word {
        let digit = digit_of(*byte, radix)?;
        value = if fits {
            value * u64::from(radix) + digit
        } else {
            value.checked_mul(u64::from(radix))?.checked_add(digit)?
        };
    }
    if value <= most { Some(value) } else { None }
}

// Returns the value of a digit.
#[inline(always)]
fn digit_of(byte: u8, radix: u32) -> Option<u64>
    requires some_radix { 10 ≤ radix }
    requires small_radix { radix ≤ 16 }
    ensures { SomeIff result (digit_value byte < radix) (digit_value byte) }
{
    let digit = value_of(byte);
    if u32::from(digit) < radix {
        Some(u64::from(digit))
    } else {
        None
    }
}

// Returns the value of a byte as a digit, or `NONE` if it isn't a digit.
#[inline(always)]
pub(crate) fn value_of(byte: u8) -> u8
    ensures { result ≡ digit_value byte }
{
    DIGIT_VALUES[usize::from(byte)]
}
