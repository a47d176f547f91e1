//! A section of any type.

ghost use Rattle.std.specs.Prelude.{◌≡◌, ◌≤◌, length, is_ok, IsOk, Ok};
ghost use Rattle.cper_sections.specs.Guids.{guid_of};
ghost use Rattle.cper_sections.specs.Sections.{section_of};

use crate::guids::{SectionType, guid_in_front, section_type_of};
use crate::memory::{MemSection, OLD_LENGTH, memory_at};
use crate::processor::{LENGTH, ProcSection, processor_at};
use crate::x64::{FIXED_LENGTH, X64Section, contexts_start, x64_at};
use thiserror::Error;
use uuid::Uuid;

/// The fields of a section, by its type.
#[derive(Clone, Copy, Debug, PartialEq, Eq)]
pub enum Section {
    /// A platform memory section.
    Memory(MemSection),
    /// A processor generic section.
    Processor(ProcSection),
    /// An IA32/X64 section.
    X64(X64Section),
    /// A section of another type, whose bytes aren't read.
    Unknown(Uuid),
}

/// Why a section can't be read.
#[derive(Clone, Copy, Debug, PartialEq, Eq, Error)]
pub enum SectionRefused {
    /// The section has fewer bytes than its type's fixed fields: 73 for a memory section, 192 for a
    /// processor section, 64 for an IA32/X64 section.
    #[error("the section has fewer bytes than the fixed fields of its type")]
    Short,
    /// The error structures of an IA32/X64 section, 64 bytes each, don't lie inside it.
    #[error("the error structures of the section pass its end")]
    TooManyStructures,
}

/// A section of a record, with the fields of its descriptor.
#[derive(Clone, Copy, Debug, PartialEq, Eq)]
pub struct Descriptor<'a> {
    /// The section's severity: 0 recoverable, 1 fatal, 2 corrected, 3 informational.
    pub severity: u32,
    /// The section's type.
    pub guid: Uuid,
    /// The section's bytes.
    pub bytes: &'a [u8],
    /// The fields of the section.
    pub section: Section,
}

/// Returns the section of this type in the bytes. A memory section may be longer than its 80 bytes,
/// and the old form with 73 to 79 bytes is read without the rank. (UEFI, appendix N, "Section
/// Descriptor" and the bodies of the sections.)
///
/// `Short`: the section has fewer bytes than its type's fixed fields. `TooManyStructures`: the
/// structures of an IA32/X64 section pass its end.
#[tactic(auto, unfolding(crate::specs::Sections::section_of))]
pub fn read_section(guid: Uuid, bytes: &[u8]) -> Result<Section, SectionRefused>
    ensures { result ≡ section_of guid bytes.now }
{
    match section_type_of(guid) {
        SectionType::Memory => {
            if bytes.len() < OLD_LENGTH {
                return Err(SectionRefused::Short);
            }
            Ok(Section::Memory(memory_at(bytes)))
        }
        SectionType::Processor => {
            if bytes.len() < LENGTH {
                return Err(SectionRefused::Short);
            }
            Ok(Section::Processor(processor_at(bytes)))
        }
        SectionType::X64 => {
            if bytes.len() < FIXED_LENGTH {
                return Err(SectionRefused::Short);
            }
            if bytes.len() < contexts_start(bytes) {
                return Err(SectionRefused::TooManyStructures);
            }
            Ok(Section::X64(x64_at(bytes)))
        }
        SectionType::Unknown => Ok(Section::Unknown(guid)),
    }
}

/// A section where its descriptor says it is, whether it can be read or not.
#[derive(Clone, Copy, Debug, PartialEq, Eq)]
pub struct RawSection<'a> {
    /// The section's severity, as its descriptor gives it.
    pub severity: u32,
    /// The section's type.
    pub guid: Uuid,
    /// The section's bytes.
    pub bytes: &'a [u8],
}

impl<'a> RawSection<'a> {
    /// Returns the section with these bytes, whose type is the GUID in the first 16 bytes of
    /// `guid`, which have to be there. (UEFI, appendix N, "Section Descriptor".)
    pub fn new(guid: &[u8], severity: u32, bytes: &'a [u8]) -> RawSection<'a>
        requires { 16 ≤ length guid.now }
        ensures guid { result.guid ≡ guid_of guid.now }
        ensures severity { result.severity ≡ severity }
        ensures bytes { result.bytes.now ≡ bytes.now }
    {
        RawSection {
            severity,
            guid: guid_in_front(guid),
            bytes,
        }
    }

    /// Returns whether the section can be read.
    pub fn is_readable(&self) -> bool
        ensures { result ≡ is_ok (section_of self.now.guid self.now.bytes.now) }
    {
        read_section(self.guid, self.bytes).is_ok()
    }

    /// Returns what the section says. Requires a section that can be read.
    pub fn read(&self) -> Descriptor<'a>
        requires { IsOk (section_of self.now.guid self.now.bytes.now) }
        ensures severity { result.severity ≡ self.now.severity }
        ensures guid { result.guid ≡ self.now.guid }
        ensures bytes { result.bytes.now ≡ self.now.bytes.now }
        ensures section { section_of self.now.guid self.now.bytes.now ≡ Ok result.section }
    {
        Descriptor {
            severity: self.severity,
            guid: self.guid,
            bytes: self.bytes,
            section: read_section(self.guid, self.bytes).unwrap(),
        }
    }
}
