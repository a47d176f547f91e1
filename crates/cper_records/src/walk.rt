//! The section descriptors of a record, and the sections that they describe.

ghost use Rattle.std.specs.Prelude.{◌≡◌, ◌≤◌, ◌<◌, ◌+◌, ℕ, length};
ghost use Rattle.cper_records.specs.Descriptors.{descriptor_at, section_end, section_guid, section_severity, section_bytes, is_out, is_section_refused, some_below};

use crate::records::HEADER_LENGTH;
use cper_sections::RawSection;
use ras_base::little_endian::u32_at;

/// The bytes of a section descriptor.
pub const DESCRIPTOR_LENGTH: usize = 72;

// Returns the offset of a descriptor.
pub(crate) fn descriptor_at(i: u16) -> usize
    ensures { result ≡ descriptor_at i }
{
    HEADER_LENGTH + DESCRIPTOR_LENGTH * i as usize
}

// Returns whether some section passes the record's end.
#[tactic(auto, using(crate::proofs::BelowLemmas::some_below_none, crate::proofs::BelowLemmas::some_below_next, crate::proofs::BelowLemmas::some_below_at))]
pub(crate) fn is_some_out(bytes: &[u8], count: u16) -> bool
    requires { descriptor_at count ≤ length bytes.now }
    ensures { result ≡ some_below count (is_out bytes.now) }
{
    for i in 0..count {
        if is_out(bytes, i) {
            return true;
        }
    }
    false
}

// Returns whether a section passes the record's end.
#[tactic(auto, unfolding(crate::specs::Descriptors::is_out))]
fn is_out(bytes: &[u8], i: u16) -> bool
    requires { descriptor_at i + DESCRIPTOR_LENGTH ≤ length bytes.now }
    ensures { result ≡ is_out bytes.now i }
{
    let place = descriptor_at(i);
    let offset = u32_at(bytes, place) as usize;
    let length = u32_at(bytes, place + 4) as usize;
    bytes.len() < offset + length
}

// Returns whether some section can't be read.
#[tactic(auto, using(crate::proofs::BelowLemmas::some_below_none, crate::proofs::BelowLemmas::some_below_next, crate::proofs::BelowLemmas::some_below_at))]
pub(crate) fn is_some_refused(bytes: &[u8], count: u16) -> bool
    requires descriptors { descriptor_at count ≤ length bytes.now }
    requires inside { (i : ℕ) → i < count → section_end bytes.now i ≤ length bytes.now }
    ensures { result ≡ some_below count (is_section_refused bytes.now) }
{
    for i in 0..count {
        if is_section_refused(bytes, i) {
            return true;
        }
    }
    false
}

// Returns whether a section can't be read.
#[tactic(auto, unfolding(crate::specs::Descriptors::is_section_refused), using(crate::proofs::BelowLemmas::not_is_ok))]
fn is_section_refused(bytes: &[u8], i: u16) -> bool
    requires descriptor { descriptor_at i + DESCRIPTOR_LENGTH ≤ length bytes.now }
    requires inside { section_end bytes.now i ≤ length bytes.now }
    ensures { result ≡ is_section_refused bytes.now i }
{
    !section_at(bytes, i).is_readable()
}

// Returns a section's bytes, with the fields of its descriptor.
pub(crate) fn section_at(bytes: &[u8], i: u16) -> RawSection<'_>
    requires descriptor { descriptor_at i + DESCRIPTOR_LENGTH ≤ length bytes.now }
    requires inside { section_end bytes.now i ≤ length bytes.now }
    ensures severity { result.severity ≡ section_severity bytes.now i }
    ensures guid { result.guid ≡ section_guid bytes.now i }
    ensures bytes { result.bytes.now ≡ section_bytes bytes.now i }
{
    let place = descriptor_at(i);
    let offset = u32_at(bytes, place) as usize;
    let length = u32_at(bytes, place + 4) as usize;
    let severity = u32_at(bytes, place + 48);
    RawSection::new(
        &bytes[place + 16..],
        severity,
        &bytes[offset..offset + length],
    )
}
