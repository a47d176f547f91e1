//! The indices of a byte in a text, found by blocks of bytes.

ghost use Rattle.std.specs.Prelude.{◌≡◌, ◌≢◌, ℕ, ◌+◌, ◌-◌, ◌<◌, ◌≤◌, ◌==◌, length, IfSome};
ghost use Rattle.std.specs.Int.{bit_at};
ghost use Rattle.std.specs.List.{position};
ghost use Rattle.ras_script.specs.Steps.Places.{ArePlaces, StandsNowhere};
ghost use Rattle.ras_script.specs.declared.blocks.TheConstants.{BLOCK_BYTES};

use std::simd::prelude::*;

/// The bytes of a block, which are compared together.
pub(crate) const BLOCK_BYTES: usize = 16;

/// Returns the first index of a byte in a text, if it is there. A near index is found in few steps,
/// because words and parts of lines are short.
#[inline(always)]
pub fn position_of(byte: u8, text: &[u8]) -> Option<usize>
    ensures place { result ≡ position (λ b. b == byte) text.now }
    ensures within { IfSome result (λ place. place < length text.now) }
{
    let mut at = 0;
    while text.len() - at >= BLOCK_BYTES {
        let places = places_at(byte, text, at);
        if places != 0 {
            return Some(at + lowest(places));
        }
        at += BLOCK_BYTES;
    }
    position_in_rest(byte, text, at)
}

// Returns the first index of a byte in a text that doesn't have the byte before `from`, and that
// has less than a block from there on.
#[inline(always)]
fn position_in_rest(byte: u8, text: &[u8], from: usize) -> Option<usize>
    requires within { from ≤ length text.now }
    requires short { length text.now < from + BLOCK_BYTES }
    requires none { StandsNowhere byte text.now 0 from }
    ensures place { result ≡ position (λ b. b == byte) text.now }
    ensures within { IfSome result (λ place. place < length text.now) }
{
    if text.len() >= BLOCK_BYTES {
        return position_in_last(byte, text);
    }
    for place in from..text.len() {
        if text[place] == byte {
            return Some(place);
        }
    }
    None
}

// Returns the first index of a byte in a text that doesn't have the byte before its last block.
#[inline(always)]
fn position_in_last(byte: u8, text: &[u8]) -> Option<usize>
    requires room { BLOCK_BYTES ≤ length text.now }
    requires none { StandsNowhere byte text.now 0 (length text.now - BLOCK_BYTES) }
    ensures place { result ≡ position (λ b. b == byte) text.now }
    ensures within { IfSome result (λ place. place < length text.now) }
{
    let last = text.len() - BLOCK_BYTES;
    let places = places_at(byte, text, last);
    if places == 0 {
        return None;
    }
    Some(last + lowest(places))
}

/// Returns where a byte is in the block from `at` on, with a bit for each index.
#[inline(always)]
pub(crate) fn places_at(byte: u8, text: &[u8], at: usize) -> u64
    requires { at + BLOCK_BYTES ≤ length text.now }
    ensures { ArePlaces byte text.now at at result }
{
    let block = u8x16::from_slice(&text[at..]);
    block.simd_eq(u8x16::splat(byte)).to_bitmask()
}

/// Returns the index of the lowest bit that is set.
#[inline(always)]
pub(crate) fn lowest(bits: u64) -> usize
    requires { bits ≢ 0 }
    ensures set { bit_at bits result ≡ 1 }
    ensures below { (k : ℕ) → k < result → bit_at bits k ≡ 0 }
    ensures small { result < 64 }
{
    bits.trailing_zeros() as usize
}

/// Returns the bits without a bit that is set.
#[inline(always)]
pub(crate) fn without(bits: u64, bit: usize) -> u64
    requires small { bit < 64 }
    requires set { bit_at bits bit ≡ 1 }
    ensures cleared { bit_at result bit ≡ 0 }
    ensures kept { (k : ℕ) → k < 64 → k ≢ bit → bit_at result k ≡ bit_at bits k }
    ensures smaller { result < bits }
    ensures no_more { (k : ℕ) → bit_at result k ≡ 1 → bit_at bits k ≡ 1 }
{
    bits & !(1 << bit)
}
