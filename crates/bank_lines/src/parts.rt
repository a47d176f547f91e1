//! Returns the parts of a text, one after another.

ghost use Rattle.std.specs.Prelude.{◌≡◌, ◌<◌, [], ◌∷◌, length, IfSome, MatchOption, ◌==◌, ◌↔◌, IsTrue};
ghost use Rattle.std.specs.List.{position};
ghost use Rattle.std.specs.Option.{option_map, option_map_or};
ghost use Rattle.bank_lines.specs.Parts.{after_spaces, cut_at, value_after};
ghost use Rattle.bank_lines.specs.PartsLeft.{parts_in};

use ras_script::position_of;

/// The parts of a text that are left, including empty ones.
#[derive(Clone, Copy)]
pub struct Parts<'a> {
    separator: u8,
    rest: Option<&'a [u8]>,
}

impl<'a> Parts<'a> {
    /// Returns all parts of a text.
    pub fn new(separator: u8, text: &'a [u8]) -> Parts<'a>
        ensures { parts_in result ≡ cut_at separator text.now }
    {
        Parts {
            separator,
            rest: Some(text),
        }
    }

    /// Returns the next part, and takes it.
    pub fn next(&mut self) -> Option<&'a [u8]>
        ensures { MatchOption result ((parts_in self.old ≡ []) × (parts_in self.new ≡ []))
            (λ part. parts_in self.old ≡ part.now ∷ parts_in self.new) }
    {
        let text = self.rest?;
        let (part, rest) = cut(self.separator, text);
        self.rest = rest;
        Some(part)
    }

    // Returns whether all parts are taken.
    pub(crate) fn are_taken(&self) -> bool
        ensures { IsTrue result ↔ (parts_in self.now ≡ []) }
    {
        self.rest.is_none()
    }
}

// Returns the first part of a text, and the text after its separator.
#[tactic(auto, using(crate::proofs::PartsLemmas::parts_cut, crate::proofs::PartsLemmas::parts_whole))]
fn cut(separator: u8, text: &[u8]) -> (&[u8], Option<&[u8]>)
    ensures parts { cut_at separator text.now
        ≡ result.0.now ∷ option_map_or (λ rest. cut_at separator rest.now) result.1 [] }
    ensures shorter { IfSome result.1 (λ rest. length rest.now < length text.now) }
{
    match position_of(separator, text) {
        Some(end) => (&text[..end], Some(&text[end + 1..])),
        None => (text, None),
    }
}

// Returns the text after the spaces that it begins with.
pub(crate) fn after_spaces(text: &[u8]) -> &[u8]
    ensures { result.now ≡ after_spaces text.now }
{
    let mut rest = text;
    while let [b' ', more @ ..] = rest {
        rest = more;
    }
    rest
}

/// Returns the text after a name, if the text begins with the name. The first byte distinguishes
/// most names.
#[inline(always)]
#[tactic(auto, using(crate::proofs::PartsLemmas::other_name))]
pub fn value_after<'a>(name: &[u8], text: &'a [u8]) -> Option<&'a [u8]>
    ensures { option_map (λ value. value.now) result ≡ value_after name.now text.now }
{
    match (name, text) {
        ([first, ..], [other, ..]) if first != other => None,
        _ => text.strip_prefix(name),
    }
}
