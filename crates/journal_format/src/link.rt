//! A link.
ghost use Rattle.std.specs.Prelude.{◌≡◌, ◌++◌, [], ◌∷◌, IfOk};

use ras_base::NoMemory;
use std::marker::Model;

/// The most entries of a link.
pub const MOST_LINK_ENTRIES: usize = 2_000;

/// The most bytes of the payload of a link that is written.
pub const MOST_PAYLOAD: usize = 67_108_864;

/// The byte of a closed gate.
const CLOSED_GATE: u8 = 0;

/// The bytes of a link. A byte 00 is stored after them, so that the link and the closed gate after
/// it are one piece; contracts see only the bytes of the link.
#[derive(Drop)]
pub struct Link {
    bytes_and_gate: Vec<u8>,
}

impl Model for Link {
    ghost use Rattle.std.specs.Prelude.{◌≡◌, ℕ, ◌-◌, List, [], ◌∷◌, ◌++◌, length, take};

    ghost Value = { List ℕ };

    ghost view = { λ link. take (length link.bytes_and_gate.items - 1) link.bytes_and_gate.items };

    ghost invariant = { λ link. link.bytes_and_gate.items ≡ take (length link.bytes_and_gate.items - 1) link.bytes_and_gate.items ++ 0 ∷ [] };
}

impl Link {
    // Returns the link of these bytes. Allocates memory if they fill their vector.
    pub(crate) fn of_bytes(bytes: Vec<u8>) -> Result<Link, NoMemory>
        ensures { IfOk result (λ link. link ≡ bytes.items) }
    {
        let mut bytes_and_gate = bytes;
        bytes_and_gate.push(CLOSED_GATE)?;
        Ok(Link { bytes_and_gate })
    }

    /// Returns the bytes of the link.
    pub fn bytes(&self) -> &[u8]
        ensures { result.now ≡ self.now }
    {
        let length = self.bytes_and_gate.len() - 1;
        &self.bytes_and_gate[..length]
    }

    /// Returns the bytes of the link, and a closed gate after them.
    pub fn bytes_and_gate(&self) -> &[u8]
        ensures { result.now ≡ self.now ++ 0 ∷ [] }
    {
        &self.bytes_and_gate
    }
}
