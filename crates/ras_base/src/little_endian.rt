//! Numbers of 2, 4 and 8 bytes, the lowest byte first.

ghost use Rattle.std.specs.Prelude.{◌≡◌, ◌≤◌, ◌+◌, ◌++◌, length, OnOk, OnErr};
ghost use Rattle.ras_base.specs.LittleEndian.{u16_bytes, u32_bytes, u64_bytes, number_at};

use crate::NoMemory;

/// Returns the number in the two bytes from `place` on, which have to be there.
#[tactic(auto, unfolding(crate::specs::LittleEndian::number_at))]
pub fn u16_at(bytes: &[u8], place: usize) -> u16
    requires { place + 2 ≤ length bytes.now }
    ensures { result ≡ number_at place 2 bytes.now }
{
    u16::from_le_bytes([bytes[place], bytes[place + 1]])
}

/// Returns the number in the four bytes from `place` on, which have to be there.
#[tactic(auto, unfolding(crate::specs::LittleEndian::number_at))]
pub fn u32_at(bytes: &[u8], place: usize) -> u32
    requires { place + 4 ≤ length bytes.now }
    ensures { result ≡ number_at place 4 bytes.now }
{
    u32::from_le_bytes([
        bytes[place],
        bytes[place + 1],
        bytes[place + 2],
        bytes[place + 3],
    ])
}

/// Returns the number in the eight bytes from `place` on, which have to be there.
#[tactic(auto, unfolding(crate::specs::LittleEndian::number_at))]
pub fn u64_at(bytes: &[u8], place: usize) -> u64
    requires { place + 8 ≤ length bytes.now }
    ensures { result ≡ number_at place 8 bytes.now }
{
    u64::from_le_bytes([
        bytes[place],
        bytes[place + 1],
        bytes[place + 2],
        bytes[place + 3],
        bytes[place + 4],
        bytes[place + 5],
        bytes[place + 6],
        bytes[place + 7],
    ])
}

/// Appends a number as two bytes. If memory runs out, nothing is added.
#[tactic(auto, unfolding(crate::specs::LittleEndian::u16_bytes))]
pub fn push_u16(out: &mut Vec<u8>, number: u16) -> Result<(), NoMemory>
    ensures ok { OnOk result (out.new.items ≡ out.old.items ++ u16_bytes number) }
    ensures err { OnErr result (out.new.items ≡ out.old.items) }
{
    out.extend_from_slice(&number.to_le_bytes())?;
    Ok(())
}

/// Appends a number as four bytes. If memory runs out, nothing is added.
#[tactic(auto, unfolding(crate::specs::LittleEndian::u32_bytes))]
pub fn push_u32(out: &mut Vec<u8>, number: u32) -> Result<(), NoMemory>
    ensures ok { OnOk result (out.new.items ≡ out.old.items ++ u32_bytes number) }
    ensures err { OnErr result (out.new.items ≡ out.old.items) }
{
    out.extend_from_slice(&number.to_le_bytes())?;
    Ok(())
}

/// Appends a number as eight bytes. If memory runs out, nothing is added.
#[tactic(auto, unfolding(crate::specs::LittleEndian::u64_bytes))]
pub fn push_u64(out: &mut Vec<u8>, number: u64) -> Result<(), NoMemory>
    ensures ok { OnOk result (out.new.items ≡ out.old.items ++ u64_bytes number) }
    ensures err { OnErr result (out.new.items ≡ out.old.items) }
{
    out.extend_from_slice(&number.to_le_bytes())?;
    Ok(())
}
