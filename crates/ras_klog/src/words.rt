//! Returns the words of a text, one after another.

ghost use Rattle.std.specs.Prelude.{◌≡◌, ◌==◌, [], ◌∷◌, ◌++◌, drop, nat_eq, not, slice_index_or, true, false, MatchOption, if◌then◌else◌};
ghost use Rattle.std.specs.List.{list_all, starts_with};
ghost use Rattle.std.specs.Str.{bytes_eq};
ghost use Rattle.std.specs.Option.{option_map_or};
ghost use Rattle.ras_klog.specs.Reading.{parts_of, is_empty};
ghost use Rattle.ras_klog.specs.Steps.Words.{words_in};

use ras_script::position_of;

// The words of a text that are left: the texts between single spaces, including empty ones.
#[derive(Clone, Copy)]
pub(crate) struct Words<'a> {
    rest: Option<&'a [u8]>,
}

impl<'a> Words<'a> {
    // Returns all words of a text.
    pub(crate) fn new(text: &'a [u8]) -> Words<'a>
        ensures { words_in result ≡ parts_of text.now }
    {
        Words { rest: Some(text) }
    }

    // Returns the next word, or an empty one after the last.
    pub(crate) fn next(&mut self) -> &'a [u8]
        ensures word { result.now ≡ slice_index_or (words_in self.old) 0 [] }
        ensures rest { words_in self.new ≡ drop 1 (words_in self.old) }
    {
        let Some(text) = self.rest else {
            return &[];
        };
        let (word, rest) = cut(text);
        self.rest = rest;
        word
    }

    // Takes the next word if it is `name`, and returns whether it is. The name has no space, so no
    // space is searched for; the call is inlined, so that the name's bytes are compared one by one.
    #[inline(always)]
    #[tactic(auto, using(crate::proofs::LineLemmas::no_word, crate::proofs::LineLemmas::ended_word, crate::proofs::LineLemmas::spaced_word, crate::proofs::LineLemmas::longer_word, crate::proofs::LineLemmas::same_word))]
    pub(crate) fn takes(&mut self, name: &[u8]) -> bool
        requires { list_all (λ b. not (b == 32)) name.now ≡ true }
        ensures is { result ≡ bytes_eq (slice_index_or (words_in self.old) 0 []) name.now }
        ensures words { words_in self.new
            ≡ if result then drop 1 (words_in self.old) else words_in self.old }
    {
        let Some(text) = self.rest else {
            return name.is_empty();
        };
        let Some(behind) = after_name(name, text) else {
            return false;
        };
        if behind.is_empty() {
            self.rest = None;
            return true;
        }
        if behind[0] != b' ' {
            return false;
        }
        self.rest = Some(&behind[1..]);
        true
    }

    // Returns whether only spaces are left.
    #[tactic(auto, using(crate::proofs::LineLemmas::empty_parts))]
    pub(crate) fn are_empty(&self) -> bool
        ensures { result ≡ list_all is_empty (words_in self.now) }
    {
        match self.rest {
            Some(text) => are_spaces(text),
            None => true,
        }
    }
}

// Returns the text after a name, if the text begins with the name.
#[inline(always)]
#[tactic(auto, using(crate::proofs::LineLemmas::name_step, crate::proofs::LineLemmas::name_differs, crate::proofs::LineLemmas::name_whole))]
fn after_name<'a>(name: &[u8], text: &'a [u8]) -> Option<&'a [u8]>
    ensures { MatchOption result (starts_with nat_eq text.now name.now ≡ false)
        (λ rest. text.now ≡ name.now ++ rest.now) }
{
    if text.len() < name.len() {
        return None;
    }
    for place in 0..name.len() {
        if text[place] != name[place] {
            return None;
        }
    }
    Some(&text[name.len()..])
}

// Returns the first word of a text, and the text after its space.
#[tactic(auto, using(crate::proofs::LineLemmas::parts_cut, crate::proofs::LineLemmas::parts_whole))]
fn cut(text: &[u8]) -> (&[u8], Option<&[u8]>)
    ensures { parts_of text.now
        ≡ result.0.now ∷ option_map_or (λ rest. parts_of rest.now) result.1 [] }
{
    match position_of(b' ', text) {
        Some(end) => (&text[..end], Some(&text[end + 1..])),
        None => (text, None),
    }
}

// Returns whether a text consists only of spaces.
fn are_spaces(text: &[u8]) -> bool
    ensures { result ≡ list_all (λ b. b == 32) text.now }
{
    text.iter().all(|byte| *byte == b' ')
}
