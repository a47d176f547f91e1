//! Reads the status of a PCI Express error, whose bits the kernel prints by name.

ghost use Rattle.std.specs.Prelude.{◌≡◌, ◌≤◌, ◌^◌, IfSome};
ghost use Rattle.std.specs.Map.{lookup};
ghost use Rattle.std.specs.Str.{bytes_eq};
ghost use Rattle.event_lines.specs.Flags.{correctable_flags, flag_added, flags_of, late_flags};
ghost use Rattle.event_lines.specs.Flags.{hexadecimal_to, status_of, uncorrectable_flags, word_of};

use crate::aer::AerSeverity;
use bank_lines::{Parts, value_after};
use ras_script::hexadecimal;

// Returns the status that flags give, if they can be read.
pub(crate) fn status_of(severity: AerSeverity, text: &[u8]) -> Option<u32>
    ensures { result ≡ status_of severity text.now }
{
    if text.is_empty() {
        return Some(0);
    }
    let mut status = 0;
    let mut flags = Parts::new(b'|', text);
    while let Some(flag) = flags.next() {
        status = flag_added(severity, status, flag)?;
    }
    Some(status)
}

// Returns a status with one more flag. Names come from the lowest bit up, so no flag comes twice.
fn flag_added(severity: AerSeverity, status: u32, flag: &[u8]) -> Option<u32>
    ensures { result ≡ flag_added (flags_of severity) status flag.now }
{
    match bit_of(severity, flag) {
        Some(bit) if status < bit => Some(status + bit),
        Some(_) => None,
        None => status.checked_add(word_of(flag)?),
    }
}

// Returns the bit of a name.
fn bit_of(severity: AerSeverity, name: &[u8]) -> Option<u32>
    ensures value { result ≡ lookup (bytes_eq name.now) (flags_of severity) }
    ensures within { IfSome result (λ bit. bit ≤ 2 ^ 25) }
{
    match severity {
        AerSeverity::Corrected => correctable_bit(name),
        AerSeverity::Fatal | AerSeverity::NonFatal => uncorrectable_bit(name),
    }
}

// Returns the bit of a correctable error by the kernel's name for it.
fn correctable_bit(name: &[u8]) -> Option<u32>
    ensures value { result ≡ lookup (bytes_eq name.now) correctable_flags }
    ensures within { IfSome result (λ bit. bit ≤ 2 ^ 25) }
{
    if name == b"Receiver Error".as_slice() {
        Some(1)
    } else if name == b"Bad TLP".as_slice() {
        Some(1 << 6)
    } else if name == b"Bad DLLP".as_slice() {
        Some(1 << 7)
    } else if name == b"RELAY_NUM Rollover".as_slice() {
        Some(1 << 8)
    } else if name == b"Replay Timer Timeout".as_slice() {
        Some(1 << 12)
    } else if name == b"Advisory Non-Fatal Error".as_slice() {
        Some(1 << 13)
    } else if name == b"Corrected Internal Error".as_slice() {
        Some(1 << 14)
    } else if name == b"Header Log Overflow".as_slice() {
        Some(1 << 15)
    } else {
        None
    }
}

// Returns the bit of an uncorrectable error by the kernel's name for it.
fn uncorrectable_bit(name: &[u8]) -> Option<u32>
    ensures value { result ≡ lookup (bytes_eq name.now) uncorrectable_flags }
    ensures within { IfSome result (λ bit. bit ≤ 2 ^ 25) }
{
    if name == b"Undefined".as_slice() {
        Some(1)
    } else if name == b"Data Link Protocol Error".as_slice() {
        Some(1 << 4)
    } else if name == b"Surprise Down Error".as_slice() {
        Some(1 << 5)
    } else if name == b"Poisoned TLP".as_slice() {
        Some(1 << 12)
    } else if name == b"Flow Control Protocol Error".as_slice() {
        Some(1 << 13)
    } else if name == b"Completion Timeout".as_slice() {
        Some(1 << 14)
    } else if name == b"Completer Abort".as_slice() {
        Some(1 << 15)
    } else if name == b"Unexpected Completion".as_slice() {
        Some(1 << 16)
    } else if name == b"Receiver Overflow".as_slice() {
        Some(1 << 17)
    } else {
        late_bit(name)
    }
}

// Returns the bit of an uncorrectable error whose bit is the 18th or a later one.
fn late_bit(name: &[u8]) -> Option<u32>
    ensures value { result ≡ lookup (bytes_eq name.now) late_flags }
    ensures within { IfSome result (λ bit. bit ≤ 2 ^ 25) }
{
    if name == b"Malformed TLP".as_slice() {
        Some(1 << 18)
    } else if name == b"ECRC Error".as_slice() {
        Some(1 << 19)
    } else if name == b"Unsupported Request Error".as_slice() {
        Some(1 << 20)
    } else if name == b"ACS Violation".as_slice() {
        Some(1 << 21)
    } else if name == b"Uncorrectable Internal Error".as_slice() {
        Some(1 << 22)
    } else if name == b"MC Blocked TLP".as_slice() {
        Some(1 << 23)
    } else if name == b"AtomicOp Egress Blocked".as_slice() {
        Some(1 << 24)
    } else if name == b"TLP Prefix Blocked Error".as_slice() {
        Some(1 << 25)
    } else {
        None
    }
}

// Returns the number of 32 bits in `0x<number>`, in hexadecimal.
pub(crate) fn word_of(text: &[u8]) -> Option<u32>
    ensures { result ≡ word_of text.now }
{
    let digits = value_after(b"0x", text)?;
    Some(hexadecimal_to(u64::from(u32::MAX), digits)? as u32)
}

// Returns the value of a hexadecimal word, if it is at most `most`.
pub(crate) fn hexadecimal_to(most: u64, word: &[u8]) -> Option<u64>
    ensures value { result ≡ hexadecimal_to most word.now }
    ensures within { IfSome result (λ value. value ≤ most) }
{
    let value = hexadecimal(word)?;
    if value <= most { Some(value) } else { None }
}
