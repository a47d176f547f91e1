//! The types of sections, which are GUIDs.

ghost use Rattle.std.specs.Prelude.{◌≡◌, ◌≤◌, length, drop};
ghost use Rattle.byteorder.specs.Endian.{big_number};
ghost use Rattle.uuid.specs.Parts.{swap_fields};
ghost use Rattle.std.specs.Str.{bytes_eq};
ghost use Rattle.ras_base.specs.LittleEndian.{number_at};
ghost use Rattle.cper_sections.specs.Guids.{guid_of, section_type_of, memory_guid, processor_guid, x64_guid};

use uuid::Uuid;

/// Returns the GUID that these bytes encode. Its first three fields, of four, two and two bytes,
/// are encoded with the lowest byte first, and the rest in order. (UEFI, appendix A, "GUID and Time
/// Formats".)
#[tactic(auto, unfolding(ras_base::specs::LittleEndian::number_at))]
pub fn guid_at(bytes: &[u8; 16]) -> Uuid
    ensures guid { result ≡ swap_fields bytes.now }

    // Each of the first three fields is the number of its bytes read from the low one on.
    ensures first { big_number 4 result ≡ number_at 0 4 bytes.now }
    ensures second { big_number 2 (drop 4 result) ≡ number_at 4 2 bytes.now }
    ensures third { big_number 2 (drop 6 result) ≡ number_at 6 2 bytes.now }
    ensures rest { drop 8 result ≡ drop 8 bytes.now }
{
    Uuid::from_bytes_le(*bytes)
}

// Returns the GUID at the front of bytes.
pub(crate) fn guid_in_front(bytes: &[u8]) -> Uuid
    requires { 16 ≤ length bytes.now }
    ensures { result ≡ guid_of bytes.now }
{
    let mut front = [0u8; 16];
    front.copy_from_slice(&bytes[..16]);
    guid_at(&front)
}

/// The kinds of sections that are read.
#[derive(Clone, Copy, Debug, PartialEq, Eq)]
pub enum SectionType {
    /// Platform memory.
    Memory,
    /// Processor generic.
    Processor,
    /// IA32/X64 processor.
    X64,
    /// Any other type.
    Unknown,
}

/// Returns the kind of section whose type is this GUID. (UEFI, appendix N, "Section Descriptor".)
#[tactic(auto, unfolding(crate::specs::Guids::section_type_of))]
pub fn section_type_of(guid: Uuid) -> SectionType
    ensures { result ≡ section_type_of guid }
{
    if is_memory(guid) {
        SectionType::Memory
    } else if is_processor(guid) {
        SectionType::Processor
    } else if is_x64(guid) {
        SectionType::X64
    } else {
        SectionType::Unknown
    }
}

// Returns whether a GUID is the type of memory sections.
#[tactic(auto, unfolding(crate::specs::Guids::memory_guid))]
fn is_memory(guid: Uuid) -> bool
    ensures { result ≡ bytes_eq guid memory_guid }
{
    *guid.as_bytes() == MEMORY
}

// Returns whether a GUID is the type of processor generic sections.
#[tactic(auto, unfolding(crate::specs::Guids::processor_guid))]
fn is_processor(guid: Uuid) -> bool
    ensures { result ≡ bytes_eq guid processor_guid }
{
    *guid.as_bytes() == PROCESSOR
}

// Returns whether a GUID is the type of IA32/X64 sections.
#[tactic(auto, unfolding(crate::specs::Guids::x64_guid))]
fn is_x64(guid: Uuid) -> bool
    ensures { result ≡ bytes_eq guid x64_guid }
{
    *guid.as_bytes() == X64
}

// a5bc1114-6f64-4ede-b863-3e83ed7c83b1
const MEMORY: [u8; 16] = [
    0xa5, 0xbc, 0x11, 0x14, 0x6f, 0x64, 0x4e, 0xde, 0xb8, 0x63, 0x3e, 0x83, 0xed, 0x7c, 0x83, 0xb1,
];

// 9876ccad-47b4-4bdb-b65e-16f193c4f3db
const PROCESSOR: [u8; 16] = [
    0x98, 0x76, 0xcc, 0xad, 0x47, 0xb4, 0x4b, 0xdb, 0xb6, 0x5e, 0x16, 0xf1, 0x93, 0xc4, 0xf3, 0xdb,
];

// dc3ea0b0-a144-4797-b95b-53fa242b6e1d
const X64: [u8; 16] = [
    0xdc, 0x3e, 0xa0, 0xb0, 0xa1, 0x44, 0x47, 0x97, 0xb9, 0x5b, 0x53, 0xfa, 0x24, 0x2b, 0x6e, 0x1d,
];
