//! The lines of a script, and the words of a line.

ghost use Rattle.std.specs.Prelude.{◌≡◌, ℕ, ◌+◌, ◌<◌, ◌≤◌, List, [], ◌∷◌, ◌++◌, length, map, take, drop};
ghost use Rattle.std.specs.List.{AllByRecursion, join_with_byte};
ghost use Rattle.ras_script.specs.Splitting.{AreHeldWords, lines_of, words_of};
ghost use Rattle.ras_script.specs.Steps.Places.{StandsNowhere};
ghost use Rattle.ras_script.specs.declared.blocks.TheConstants.{BLOCK_BYTES};
ghost use Rattle.ras_script.specs.SplittingLaws.{Lacks, IsWord, script_of, with_last_line_feed};

use crate::blocks::{BLOCK_BYTES, lowest, places_at, without};
use crate::kinds::MOST_WORDS;
use arrayvec::ArrayVec;

/// How many words of a line are stored: one more than a line of any kind has, so that a line of too
/// many words is recognized.
pub(crate) const HELD_WORDS: usize = MOST_WORDS + 1;

/// Returns the words of a line, which spaces separate, up to the first `HELD_WORDS`. Allocates
/// nothing, and reads the line no further than these words.
pub(crate) fn words(line: &[u8]) -> ArrayVec<&[u8], HELD_WORDS>
    ensures { AreHeldWords (map (λ word. word.now) result.items) line.now }
{
    let mut words = ArrayVec::new();
    let mut start = 0;
    let mut at = 0;
    while line.len() - at >= BLOCK_BYTES {
        start = hold_in_block(&mut words, line, start, at);
        if words.is_full() {
            return words;
        }
        at += BLOCK_BYTES;
    }
    hold_rest(&mut words, line, start, at);
    words
}

// Stores the words that end in the block from `at` on, of which the first begins at `first`, and
// returns where the next word begins.
#[inline(always)]
fn hold_in_block<'a>(
    words: &mut ArrayVec<&'a [u8], HELD_WORDS>,
    line: &'a [u8],
    first: usize,
    at: usize,
) -> usize
    requires ordered { first ≤ at }
    requires unbroken { StandsNowhere 32 line.now first at }
    requires room { at + BLOCK_BYTES ≤ length line.now }
    ensures ordered { result ≤ at + BLOCK_BYTES }
    ensures unbroken { StandsNowhere 32 line.now result (at + BLOCK_BYTES) }
    ensures held { take HELD_WORDS (map (λ word. word.now) words.new.items ++ words_of (drop result line.now))
        ≡ take HELD_WORDS (map (λ word. word.now) words.old.items ++ words_of (drop first line.now)) }
{
    let mut start = first;
    let mut spaces = places_at(b' ', line, at);
    while spaces != 0 {
        let bit = lowest(spaces);
        let place = at + bit;
        hold(words, &line[start..place]);
        start = place + 1;
        spaces = without(spaces, bit);
    }
    start
}

// Stores the words from `first` on, if all spaces after `first` are at `from` or later.
#[inline(always)]
fn hold_rest<'a>(
    words: &mut ArrayVec<&'a [u8], HELD_WORDS>,
    line: &'a [u8],
    first: usize,
    from: usize,
)
    requires ordered { first ≤ from }
    requires within { from ≤ length line.now }
    requires unbroken { StandsNowhere 32 line.now first from }
    ensures { map (λ word. word.now) words.new.items
        ≡ take HELD_WORDS (map (λ word. word.now) words.old.items ++ words_of (drop first line.now)) }
{
    let mut start = first;
    for place in from..line.len() {
        if line[place] == b' ' {
            hold(words, &line[start..place]);
            start = place + 1;
        }
    }
    hold(words, &line[start..]);
}

// Stores a text without a space as the next word, unless it is empty or there is no room left.
#[inline(always)]
fn hold<'a>(words: &mut ArrayVec<&'a [u8], HELD_WORDS>, text: &'a [u8])
    requires { Lacks 32 text.now }
    ensures { map (λ word. word.now) words.new.items
        ≡ take HELD_WORDS (map (λ word. word.now) words.old.items ++ words_of text.now) }
{
    if !words.is_full() && !text.is_empty() {
        words.push(text);
    }
}

/// The lines of a script, each with a line feed at its end, are the script, with a line feed added
/// if its last byte isn't a line feed. No line has a line feed, an empty script has no lines, and
/// each line has at least a byte of the script.
pub fn lines_are_the_script()
    ensures none { lines_of [] ≡ [] }
    ensures whole { (script : List ℕ) → script_of (lines_of script) ≡ with_last_line_feed script }
    ensures few { (script : List ℕ) → length (lines_of script) ≤ length script }
    ensures unbroken { (script : List ℕ) → AllByRecursion (Lacks 10) (lines_of script) }
{}

/// A text without a space is one word, unless it is empty. The words of two texts with a space
/// between them are the words of the first text, then the words of the second. No word is empty or
/// has a space, and words joined by single spaces are read back.
pub fn spaces_separate_words()
    ensures none { words_of [] ≡ [] }
    ensures single { (word : List ℕ) → IsWord word → words_of word ≡ word ∷ [] }
    ensures separated { (left right : List ℕ)
        → words_of (left ++ 32 ∷ right) ≡ words_of left ++ words_of right }
    ensures apart { (line : List ℕ) → AllByRecursion IsWord (words_of line) }
    ensures joined { (words : List (List ℕ)) → AllByRecursion IsWord words
        → words_of (join_with_byte 32 words) ≡ words }
{}
