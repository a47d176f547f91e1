//! Reads the kernel's words for a memory error: its type, its severity, and which bits of its
//! address are valid.

ghost use Rattle.std.specs.Prelude.{◌≡◌, ◌≤◌, ◌^◌, ◌⊎◌, IfSome};
ghost use Rattle.std.specs.Map.{lookup};
ghost use Rattle.std.specs.Str.{bytes_eq};
ghost use Rattle.event_lines.specs.Memory.{address_told, grain_mask, grain_of, kind_named, late_types, low_bit_mask};
ghost use Rattle.event_lines.specs.Memory.{low_bit_of, type_severity, whole_address_told};

use crate::flags::hexadecimal_to;
use ras_script::decimal;

// Returns the type of error by the kernel's name for it, if only one type has this name.
pub(crate) fn kind_named(name: &[u8]) -> Option<u8>
    ensures { result ≡ kind_named name.now }
{
    if name == b"no error".as_slice() {
        Some(1)
    } else if name == b"single-bit ECC".as_slice() {
        Some(2)
    } else if name == b"multi-bit ECC".as_slice() {
        Some(3)
    } else if name == b"single-symbol chipkill ECC".as_slice() {
        Some(4)
    } else if name == b"multi-symbol chipkill ECC".as_slice() {
        Some(5)
    } else if name == b"master abort".as_slice() {
        Some(6)
    } else if name == b"target abort".as_slice() {
        Some(7)
    } else if name == b"parity error".as_slice() {
        Some(8)
    } else {
        late_kind(name)
    }
}

// Returns the type of error by its name in the second half of the table.
fn late_kind(name: &[u8]) -> Option<u8>
    ensures { result ≡ lookup (bytes_eq name.now) late_types }
{
    if name == b"watchdog timeout".as_slice() {
        Some(9)
    } else if name == b"invalid address".as_slice() {
        Some(10)
    } else if name == b"mirror Broken".as_slice() {
        Some(11)
    } else if name == b"memory sparing".as_slice() {
        Some(12)
    } else if name == b"scrub corrected error".as_slice() {
        Some(13)
    } else if name == b"scrub uncorrected error".as_slice() {
        Some(14)
    } else if name == b"physical memory map-out event".as_slice() {
        Some(15)
    } else {
        None
    }
}

// Returns a severity's number in a block, by the kernel's name for the severity in the event of a
// memory controller.
pub(crate) fn type_severity(word: &[u8]) -> u32
    ensures { result ≡ type_severity word.now }
{
    if word == b"Corrected".as_slice() {
        2
    } else if word == b"Uncorrected".as_slice() {
        0
    } else if word == b"Fatal".as_slice() {
        1
    } else if word == b"Deferred".as_slice() {
        // An uncorrectable error whose data isn't consumed yet.
        0
    } else {
        3
    }
}

// Returns the grain of an address, a power of two, if it can be read.
pub(crate) fn grain_of(word: &[u8]) -> Option<u64>
    ensures value { result ≡ grain_of word.now }
    ensures within { IfSome result (λ grain. grain ≤ 2 ^ 31) }
{
    // The kernel prints an `int`.
    if word == b"-2147483648".as_slice() {
        return Some(1 << 31);
    }
    let grain = decimal(word, 1 << 30)?;
    if grain.is_power_of_two() {
        Some(grain)
    } else {
        None
    }
}

// Returns which bits of an address with this grain are valid, if that is known.
pub(crate) fn grain_mask(grain: u64) -> Option<u64>
    ensures { result ≡ grain_mask grain }
{
    if grain < 2 {
        None
    } else {
        Some(u64::MAX - grain + 1)
    }
}

// Returns the address of a memory controller's event, in which 0 means that there is no address.
pub(crate) fn address_told(address: u64) -> Option<u64>
    ensures { result ≡ address_told address }
{
    if address == 0 { None } else { Some(address) }
}

// Returns the lowest valid bit of an address, or 255 without a mask, if that can be read.
pub(crate) fn low_bit_of(word: &[u8]) -> Option<u64>
    ensures value { result ≡ low_bit_of word.now }
    ensures within { IfSome result (λ bit. (bit ≤ 64) ⊎ (bit ≡ 255)) }
{
    let bit = hexadecimal_to(u64::from(u8::MAX), word)?;
    if bit <= 64 || bit == 255 {
        Some(bit)
    } else {
        None
    }
}

// Returns which bits of an address with this lowest valid bit are valid, if that is known.
pub(crate) fn low_bit_mask(bit: u64) -> Option<u64>
    requires { (bit ≤ 64) ⊎ (bit ≡ 255) }
    ensures { result ≡ low_bit_mask bit }
{
    match bit {
        255 => None,
        64 => Some(0),
        _ => Some(u64::MAX - (1 << bit) + 1),
    }
}

// Returns the address of the extended log's event, in which all ones mean that there is no address.
pub(crate) fn whole_address_told(address: u64) -> Option<u64>
    ensures { result ≡ whole_address_told address }
{
    if address == u64::MAX {
        None
    } else {
        Some(address)
    }
}
