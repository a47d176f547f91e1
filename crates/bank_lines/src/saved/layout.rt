//! Reads the bytes of a record.

ghost use Rattle.std.specs.Prelude.{◌≡◌};
ghost use Rattle.bank_lines.specs.Saved.Layout.{is_length, saved_event};

use crate::TraceEvent;
use ras_base::little_endian::{u32_at, u64_at};

/// Returns the event that the kernel saved as `struct mce` (arch/x86/include/uapi/asm/mce.h).
/// Returns `None` if no kernel's struct has this length (88, 104, 112, 120 or 128 bytes), or if the
/// CPU's number is above 65,535. Allocates nothing.
pub fn saved_event(bytes: &[u8]) -> Option<TraceEvent>
    ensures { result ≡ saved_event bytes.now }
{
    if !is_length(bytes.len()) {
        return None;
    }
    let cpu = u32_at(bytes, 68);
    if cpu > u32::from(u16::MAX) {
        return None;
    }
    Some(TraceEvent {
        vendor: u64::from(bytes[56]),
        cpu: cpu as u16,
        bank: bytes[65],
        seconds: u64_at(bytes, 48),
        tsc: u64_at(bytes, 40),
        cap: u64_at(bytes, 80),
        mcg: u64_at(bytes, 24),
        status: u64_at(bytes, 0),
        addr: u64_at(bytes, 16),
        misc: u64_at(bytes, 8),
    })
}

// Returns whether the struct of some kernel has this length.
fn is_length(length: usize) -> bool
    ensures { result ≡ is_length length }
{
    matches!(length, 88 | 104 | 112 | 120 | 128)
}
