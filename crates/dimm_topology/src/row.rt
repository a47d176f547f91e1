//! The rows of a topology.

ghost use Rattle.std.specs.Prelude.{◌≡◌, IsTrue, Option};
ghost use Rattle.std.specs.Option.{option_copied};
ghost use Rattle.dimm_topology.specs.Rows.{label_in, is_labelled};

use crate::Label;

/// Where an error is by a report, besides its address.
#[derive(Clone, Copy, Debug, PartialEq, Eq, Hash)]
pub enum Location {
    /// A memory channel, of a machine-check bank in a socket.
    Channel { socket: u8, bank: u8, channel: u8 },
    /// The node, the card and the module number by which firmware reports errors.
    Numbers { node: u16, card: u16, module: u16 },
}

/// A row of a topology, as contracts see it.
#[derive(Debug, Drop)]
pub enum Row {
    /// A CPU, and the socket in which it is.
    Cpu {
        cpu: u16,
        socket: u8,
    },
    /// A module, and the socket, the machine-check bank and the memory channel by which it is
    /// reported.
    Module {
        label: Label,
        socket: u8,
        bank: u8,
        channel: u8,
    },
    /// A module, and the first and the last physical address of a range that belongs to it.
    Range {
        label: Label,
        first: u64,
        last: u64,
    },
    /// A module, and the node, the card and the module number by which firmware reports it.
    Place {
        label: Label,
        node: u16,
        card: u16,
        module: u16,
    },
}

impl Row {
    // Returns the label of the row.
    pub(crate) fn label(&self) -> Option<&Label>
        ensures label { option_copied result ≡ label_in self.now }
        ensures labelled { IsTrue (is_labelled self.now) }
    {
        match self {
            Row::Cpu { .. } => None,
            Row::Module { label, .. } | Row::Range { label, .. } | Row::Place { label, .. } => {
                // By the contract of `bytes`, a label's bytes are valid or empty, which the clause
                // needs.
                let _ = label.bytes();
                Some(label)
            }
        }
    }
}
