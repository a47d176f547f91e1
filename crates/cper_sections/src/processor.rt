//! Processor generic sections.

ghost use Rattle.std.specs.Prelude.{◌≡◌, ◌≤◌, length};
ghost use Rattle.cper_sections.specs.Processor.{processor_of};

use ras_base::little_endian::u64_at;

/// The fields of a processor generic section, whatever its validation bits say.
#[derive(Clone, Copy, Debug, PartialEq, Eq)]
pub struct ProcSection {
    /// The type of processor.
    pub kind: u8,
    /// The instruction set.
    pub isa: u8,
    /// The type of error.
    pub error: u8,
    /// The operation.
    pub operation: u8,
    /// The flags.
    pub flags: u8,
    /// The level of the structure where the error is.
    pub level: u8,
    /// The version of the processor.
    pub version: u64,
    /// The identifier of the processor.
    pub id: u64,
    /// The target's address.
    pub target: u64,
    /// The identifier of the requestor.
    pub requestor: u64,
    /// The identifier of the responder.
    pub responder: u64,
    /// The instruction pointer.
    pub ip: u64,
}

/// The bytes of a processor generic section.
pub const LENGTH: usize = 192;

// Reads a processor generic section.
#[tactic(auto, unfolding(crate::specs::Processor::processor_of))]
pub(crate) fn processor_at(bytes: &[u8]) -> ProcSection
    requires { LENGTH ≤ length bytes.now }
    ensures { result ≡ processor_of bytes.now }
{
    ProcSection {
        kind: bytes[8],
        isa: bytes[9],
        error: bytes[10],
        operation: bytes[11],
        flags: bytes[12],
        level: bytes[13],
        version: u64_at(bytes, 16),
        id: u64_at(bytes, 152),
        target: u64_at(bytes, 160),
        requestor: u64_at(bytes, 168),
        responder: u64_at(bytes, 176),
        ip: u64_at(bytes, 184),
    }
}
