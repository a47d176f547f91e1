//! Records, as views of the bytes that contain them.

ghost use Rattle.std.specs.Prelude.{◌≡◌, ◌≤◌, ◌<◌, length, IfOk, Ok};
ghost use Rattle.cper_sections.specs.Sections.{section_of};
ghost use Rattle.cper_records.specs.Header.{record_id, record_severity, record_length, section_count, has_signatures};
ghost use Rattle.cper_records.specs.Descriptors.{section_guid, section_severity, section_bytes};
ghost use Rattle.cper_records.specs.Laid.{HasHeader, HasSections};
ghost use Rattle.cper_records.specs.Records.{record_of, sections_of};

use crate::RecordRefused;
use crate::walk::{descriptor_at, is_some_out, is_some_refused, section_at};
use cper_sections::Descriptor;
use ras_base::little_endian::{u16_at, u32_at, u64_at};
use std::marker::Model;

/// A record that was read, as a view of the bytes that contain it: nothing is copied. A contract
/// sees the record's own bytes, as many as its length says.
#[derive(Drop)]
pub struct Record<'a> {
    bytes: &'a [u8],
}

impl<'a> Model for Record<'a> {
    ghost use Rattle.std.specs.Prelude.{ℕ, List};
    ghost use Rattle.cper_records.specs.Laid.{IsRecord};

    ghost Value = { List ℕ };

    ghost view = { λ a. a.bytes.now };

    ghost invariant = { λ a. IsRecord a.bytes.now };
}

/// The bytes of a record's header.
pub const HEADER_LENGTH: usize = 128;

/// Returns the record at the front of the bytes. (UEFI, appendix N, "Record Header".)
///
/// The error is the first that applies. `Short`: there are fewer than 128 bytes. `Signature`: one
/// of the two signatures is missing. `Length`: the record's length is below 128 or above the number
/// of bytes. `DescriptorOut`: the descriptors pass that length. `SectionOut`: some section passes
/// it. `Section`: `read_section` refuses some section.
#[tactic(auto, unfolding(crate::specs::Records::record_of))]
pub fn read_record(bytes: &[u8]) -> Result<Record<'_>, RecordRefused>
    ensures answer { result ≡ record_of bytes.now }

    // The record and its sections lie inside the bytes.
    ensures whole { IfOk result (λ own. record_length own ≡ length own) }
    ensures inside { IfOk result (λ own. length own ≤ length bytes.now) }
    ensures sections { IfOk result HasSections }
{
    if bytes.len() < HEADER_LENGTH {
        return Err(RecordRefused::Short);
    }
    if !has_signatures(bytes) {
        return Err(RecordRefused::Signature);
    }
    let length = u32_at(bytes, 20) as usize;
    if length < HEADER_LENGTH || bytes.len() < length {
        return Err(RecordRefused::Length);
    }
    sections_of(&bytes[..length])
}

// Returns whether the two signatures are at their offsets.
fn has_signatures(bytes: &[u8]) -> bool
    requires { 10 ≤ length bytes.now }
    ensures { result ≡ has_signatures bytes.now }
{
    bytes.starts_with(b"CPER") && bytes[6..].starts_with(&[0xff; 4])
}

// Returns the record in bytes that have the length of their header.
#[tactic(auto, using(crate::proofs::BelowLemmas::inside_each, crate::proofs::BelowLemmas::some_below_each), unfolding(crate::specs::Records::sections_of))]
fn sections_of(bytes: &[u8]) -> Result<Record<'_>, RecordRefused>
    requires { HasHeader bytes.now }
    ensures answer { result ≡ sections_of bytes.now }
    ensures own { IfOk result (λ own. own ≡ bytes.now) }
    ensures sections { IfOk result HasSections }
{
    let count = u16_at(bytes, 10);
    if bytes.len() < descriptor_at(count) {
        return Err(RecordRefused::DescriptorOut);
    }
    if is_some_out(bytes, count) {
        return Err(RecordRefused::SectionOut);
    }
    if is_some_refused(bytes, count) {
        return Err(RecordRefused::Section);
    }
    Ok(Record { bytes })
}

impl<'a> Record<'a> {
    /// Returns the record's identifier.
    pub fn id(&self) -> u64
        ensures { result ≡ record_id self.now }
    {
        u64_at(self.bytes, 96)
    }

    /// Returns the severity of the record: 0 recoverable, 1 fatal, 2 corrected, 3 informational.
    pub fn severity(&self) -> u32
        ensures { result ≡ record_severity self.now }
    {
        u32_at(self.bytes, 12)
    }

    /// Returns the record's length in bytes, header and sections.
    pub fn length(&self) -> u32
        ensures field { result ≡ record_length self.now }
        ensures whole { result ≡ length self.now }
    {
        u32_at(self.bytes, 20)
    }

    /// Returns the number of sections.
    pub fn count(&self) -> u16
        ensures { result ≡ section_count self.now }
    {
        u16_at(self.bytes, 10)
    }

    /// Returns a section by its number, from 0, which has to be below the count. (UEFI, appendix N,
    /// "Section Descriptor".)
    pub fn section(&self, i: u16) -> Descriptor<'a>
        requires { i < section_count self.now }
        ensures severity { result.severity ≡ section_severity self.now i }
        ensures guid { result.guid ≡ section_guid self.now i }
        ensures bytes { result.bytes.now ≡ section_bytes self.now i }
        ensures section { section_of result.guid result.bytes.now ≡ Ok result.section }
    {
        section_at(self.bytes, i).read()
    }
}
