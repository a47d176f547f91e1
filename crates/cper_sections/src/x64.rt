//! IA32/X64 sections, and their contexts.

ghost use Rattle.std.specs.Prelude.{◌≡◌, ◌≤◌, ◌<◌, ◌+◌, ◌*◌, ◌↔◌, length, drop, IsNone, MatchOption, slice_get, false, true};
ghost use Rattle.std.specs.Option.{option_map};
ghost use Rattle.cper_sections.specs.X64.{x64_of, x64_validation, structures_of, stated_contexts, contexts_at, contexts_of, contexts_in, has_context, context_of, context_length, parts_of};

use ras_base::little_endian::{u16_at, u32_at, u64_at};
use ras_base::{bits, is_set};

/// The fields of an IA32/X64 section.
#[derive(Clone, Copy, Debug, PartialEq, Eq)]
pub struct X64Section {
    /// The local APIC's identifier, if its validation bit is set.
    pub apic: Option<u64>,
    /// The number of error structures, at most 63.
    pub structures: u8,
    /// The number of contexts that fit, at most 63.
    pub contexts: u8,
}

/// A context of an IA32/X64 section: a saved piece of the processor's state.
#[derive(Clone, Copy, Debug, PartialEq, Eq)]
pub struct Context<'a> {
    /// The type of the context, for example 1 for MSR registers.
    pub kind: u16,
    /// The address of the first MSR.
    pub msr: u32,
    /// The memory-mapped address.
    pub mapped: u64,
    /// The bytes of the registers, as the section has them.
    pub array: &'a [u8],
}

/// The bytes of an IA32/X64 section before its error structures.
pub const FIXED_LENGTH: usize = 64;

/// The bytes of an error structure.
pub const STRUCTURE_LENGTH: usize = 64;

/// The bytes of a context before its array.
pub const CONTEXT_HEADER_LENGTH: usize = 16;

// Returns the number of bytes before the contexts.
pub(crate) fn contexts_start(bytes: &[u8]) -> usize
    requires { FIXED_LENGTH ≤ length bytes.now }
    ensures place { result ≡ contexts_at bytes.now }
    ensures small { result ≤ 64 + 64 * 63 }
{
    FIXED_LENGTH + STRUCTURE_LENGTH * structure_count(u64_at(bytes, 0)) as usize
}

// Returns the count of error structures, by the validation bits.
fn structure_count(validation: u64) -> u8
    ensures value { result ≡ structures_of validation }
    ensures small { result < 64 }
{
    bits(2, 6, validation) as u8
}

// Returns the stated count of contexts, by the validation bits.
fn stated_count(validation: u64) -> u8
    ensures value { result ≡ stated_contexts validation }
    ensures small { result < 64 }
{
    bits(8, 6, validation) as u8
}

// Reads an IA32/X64 section whose structures lie inside it.
#[tactic(auto, unfolding(crate::specs::X64::x64_of))]
pub(crate) fn x64_at(bytes: &[u8]) -> X64Section
    requires fixed { FIXED_LENGTH ≤ length bytes.now }
    requires structures { contexts_at bytes.now ≤ length bytes.now }
    ensures { result ≡ x64_of bytes.now }
{
    let validation = u64_at(bytes, 0);
    X64Section {
        apic: is_set(0, validation).then_some(u64_at(bytes, 8)),
        structures: structure_count(validation),
        contexts: count_contexts(stated_count(validation), &bytes[contexts_start(bytes)..]),
    }
}

// Returns how many of the stated contexts fit.
#[tactic(auto, using(crate::proofs::ContextLemmas::first_get, crate::proofs::ContextLemmas::most_contexts, crate::proofs::ContextLemmas::contexts_in_end))]
fn count_contexts(stated: u8, bytes: &[u8]) -> u8
    ensures { result ≡ length (contexts_in stated bytes.now) }
{
    let mut rest = bytes;
    for count in 0..stated {
        match first_context(rest) {
            Some((_, after)) => rest = after,
            None => return count,
        }
    }
    stated
}

// Returns the context at the front, and the bytes after it.
#[tactic(auto, unfolding(crate::specs::X64::context_of))]
fn first_context(bytes: &[u8]) -> Option<(Context<'_>, &[u8])>
    ensures { MatchOption result (has_context bytes.now ≡ false)
        (λ found. (has_context bytes.now ≡ true) × (parts_of found.0 ≡ context_of bytes.now)
        × (found.1.now ≡ drop (context_length bytes.now) bytes.now)) }
{
    if bytes.len() < CONTEXT_HEADER_LENGTH {
        return None;
    }
    let length = CONTEXT_HEADER_LENGTH + u16_at(bytes, 2) as usize;
    if bytes.len() < length {
        return None;
    }
    let context = Context {
        kind: u16_at(bytes, 0),
        msr: u32_at(bytes, 4),
        mapped: u64_at(bytes, 8),
        array: &bytes[CONTEXT_HEADER_LENGTH..length],
    };
    Some((context, &bytes[length..]))
}

/// Returns a context by its number, from 0, from the bytes of an IA32/X64 section. It is `None` for
/// a number past the contexts that fit: these are the first ones, up to the stated count, and the
/// first that doesn't fit ends them. (UEFI, appendix N, "IA32/X64 Processor Context Information
/// Structure".)
#[tactic(auto, using(crate::proofs::ContextLemmas::first_get, crate::proofs::ContextLemmas::most_contexts, crate::proofs::ContextLemmas::contexts_in_end, crate::proofs::ContextLemmas::contexts_of_short))]
pub fn context_at(bytes: &[u8], i: u8) -> Option<Context<'_>>
    ensures context { option_map parts_of result ≡ slice_get (contexts_of bytes.now) i }
    ensures none { IsNone result ↔ (length (contexts_of bytes.now) ≤ i) }
{
    if bytes.len() < FIXED_LENGTH {
        return None;
    }
    let start = contexts_start(bytes);
    if bytes.len() < start {
        return None;
    }
    let stated = stated_count(u64_at(bytes, 0));
    nth_context(stated, &bytes[start..], i)
}

// Returns a context by its number, among at most `stated` contexts.
#[tactic(auto, using(crate::proofs::ContextLemmas::first_get, crate::proofs::ContextLemmas::most_contexts, crate::proofs::ContextLemmas::contexts_in_end))]
fn nth_context(stated: u8, bytes: &[u8], i: u8) -> Option<Context<'_>>
    ensures context { option_map parts_of result ≡ slice_get (contexts_in stated bytes.now) i }
    ensures none { IsNone result ↔ (length (contexts_in stated bytes.now) ≤ i) }
{
    if i >= stated {
        return None;
    }
    let mut rest = bytes;
    for passed in 0..i {
        match first_context(rest) {
            Some((_, after)) => rest = after,
            None => return None,
        }
    }
    match first_context(rest) {
        Some((context, _)) => Some(context),
        None => None,
    }
}
