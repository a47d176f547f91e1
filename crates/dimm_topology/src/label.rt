//! The name of a memory module.
ghost use Rattle.std.specs.Prelude.{◌≡◌, ◌↔◌, [], IfOk, Err, IsTrue, nat_eq};
ghost use Rattle.std.specs.Bool.{IsFalse};
ghost use Rattle.std.specs.List.{list_all};
ghost use Rattle.std.specs.Hash as fed;
ghost use Rattle.std.specs.Cmp.Lexicographic.{pointwise, nat_list_eq_equiv};
ghost use Rattle.std.specs.Cmp.{partial_equiv_from_equiv};
ghost use Rattle.std.specs.Cmp.Rules.{hashing};
ghost use Rattle.std.proofs.Common.{rules};
ghost use Rattle.dimm_topology.specs.Labels.{is_label, is_label_byte, is_label_or_none};
ghost use Rattle.dimm_topology.specs.Steps.LabelLemmas.{same_label-exact};

use ras_base::{ExactEq, NoMemory};
use std::alloc::Global;
use std::hash::{Hash, Hasher};
use std::marker::Model;

/// The most bytes that a label has.
pub const MOST_LABEL_BYTES: usize = 32;

/// The name of a memory module, as printed on the mainboard, or no name.
///
/// A label is 1 to 32 printable bytes without a space, and not the one byte `-`, which is printed
/// if there is no label. Contracts see the list of its bytes, empty for no label.
#[derive(Clone, Copy, Debug)]
pub struct Label {
    // The bytes, and zeros after them.
    room: [u8; MOST_LABEL_BYTES],
    len: usize,
}

impl Model for Label {
    ghost use Rattle.std.specs.Prelude.{ℕ, List, take, length};
    ghost use Rattle.dimm_topology.specs.Steps.LabelRoom.{IsRoom, room_of, room-back, length-back};

    ghost Value = { List ℕ };

    ghost view = { λ a. take a.len a.room };

    ghost invariant = { λ a. IsRoom a.room a.len };

    ghost inverse = { λ bytes. record { room = room_of bytes; len = length bytes } };

    ghost inverse_ok = { λ a is i. record { room = room-back a.room a.len is i; len = length-back a.room a.len is i } };
}

/// Why bytes aren't a label.
#[derive(Clone, Copy, Debug, PartialEq, Eq)]
pub enum LabelRefused {
    /// The bytes aren't a label.
    Bad,
    /// Memory ran out.
    NoMemory,
}

impl Label {
    /// Returns the label of these bytes.
    ///
    /// `Bad`: if and only if they aren't 1 to 32 bytes of 21h to 7Eh, or are the one byte `-`.
    pub fn new(_alloc: Global, bytes: &[u8]) -> Result<Label, LabelRefused>
        ensures ok { IfOk result (λ label. label ≡ bytes.now) }
        ensures bad { (result ≡ Err LabelRefused.Bad) ↔ IsFalse (is_label bytes.now) }
    {
        if !is_label(bytes) {
            return Err(LabelRefused::Bad);
        }
        Ok(Label::from_bytes(bytes))
    }

    /// Returns the empty label, which is printed as `-`. Allocates nothing.
    pub fn none() -> Label
        ensures { result ≡ [] }
    {
        Label {
            room: [0; MOST_LABEL_BYTES],
            len: 0,
        }
    }

    /// Returns the bytes of the label. `Label::none()` has no bytes.
    pub fn bytes(&self) -> &[u8]
        ensures bytes { result.now ≡ self.now }
        ensures label { IsTrue (is_label_or_none self.now) }
    {
        &self.room[..self.len]
    }

    /// Returns an equal label.
    ///
    /// `NoMemory`: only if memory runs out.
    pub fn copy(&self, _alloc: Global) -> Result<Label, NoMemory>
        ensures { IfOk result (λ copy. copy ≡ self.now) }
    {
        Ok(*self)
    }

    // Returns the label of bytes that are valid.
    fn from_bytes(bytes: &[u8]) -> Label
        requires { IsTrue (is_label bytes.now) }
        ensures { result ≡ bytes.now }
    {
        let mut room = [0; MOST_LABEL_BYTES];
        room[..bytes.len()].copy_from_slice(bytes);
        Label {
            room,
            len: bytes.len(),
        }
    }
}

// Returns whether bytes may be a label.
fn is_label(bytes: &[u8]) -> bool
    ensures { result ≡ is_label bytes.now }
{
    matches!(bytes.len(), 1..=MOST_LABEL_BYTES)
        && are_label_bytes(bytes)
        && bytes != b"-".as_slice()
}

// Returns whether each byte may be in a label.
fn are_label_bytes(bytes: &[u8]) -> bool
    ensures { result ≡ list_all is_label_byte bytes.now }
{
    bytes.iter().all(|byte| matches!(byte, 0x21..=0x7e))
}

impl PartialEq for Label {
    ghost eq = { pointwise nat_eq };

    ghost laws = { partial_equiv_from_equiv nat_list_eq_equiv };

    fn eq(&self, other: &Label) -> bool {
        self.bytes() == other.bytes()
    }
}

impl Eq for Label {
    ghost laws = { nat_list_eq_equiv };
}

impl ExactEq for Label {
    ghost exact = { same_label-exact };
}

impl Hash for Label {
    ghost hash_input = { fed.slice fed.u8 };

    ghost respects_eq = { Prim.search (hashing, rules) };

    fn hash<H: Hasher>(&self, state: &mut H) {
        self.bytes().hash(state);
    }
}
