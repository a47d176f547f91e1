//! Tables of what the rows of a topology say, by the keys that are looked up.

ghost use Rattle.std.specs.Prelude.{◌≡◌, Some, List, [], ◌∷◌, ◌++◌, cond, IsTrue, OnOk, OnErr};
ghost use Rattle.std.specs.Bool.{IsFalse};
ghost use Rattle.std.specs.HashMap.{get, IsUnchanged};
ghost use Rattle.dimm_topology.specs.Topology.{is_upright};
ghost use Rattle.dimm_topology.specs.contracts.row.LocationPartialEq.TheImpl.{eq-value as location_eq};
ghost use Rattle.dimm_topology.specs.Steps.Tables.{meets_one, joined, Tells};

use crate::Label;
use crate::ranges::{HeldRange, Ranges};
use crate::row::{Location, Row};
use ras_base::NoMemory;
use std::alloc::Global;
use std::collections::{HashMap, HashSet};

/// What the rows say, found without a search through them.
#[derive(Debug, Drop)]
pub(crate) struct Tables {
    /// The socket of each CPU.
    pub(crate) sockets: HashMap<u16, u8>,
    /// The labels of the module rows.
    pub(crate) modules: HashSet<Label>,
    /// The only label in the rows of a location, or none if they have different labels.
    pub(crate) owners: HashMap<Location, Option<Label>>,
    /// The ranges of addresses.
    pub(crate) ranges: Ranges,
}

impl Tables {
    /// Returns the tables of an empty list of rows.
    pub(crate) fn new(alloc: Global) -> Tables
        ensures { Tells [] result }
    {
        Tables {
            sockets: HashMap::new(alloc),
            modules: HashSet::new(alloc),
            owners: HashMap::new(alloc),
            ranges: Ranges::new(alloc),
        }
    }

    /// Returns whether a row is a range that has an address in common with a range in the tables.
    pub(crate) fn meets_one(&self, row: &Row) -> bool
        requires { IsTrue (is_upright row.now) }
        ensures { result ≡ meets_one self.now.ranges row.now }
    {
        match row {
            Row::Range { first, last, .. } => self.ranges.meeting(*first, *last).is_some(),
            Row::Cpu { .. } | Row::Module { .. } | Row::Place { .. } => false,
        }
    }

    /// Adds a row to the tables. After `NoMemory` each lookup returns what it returned before.
    pub(crate) fn take(&mut self, row: &Row) -> Result<(), NoMemory>
        requires upright { IsTrue (is_upright row.now) }
        requires apart { IsFalse (meets_one self.old.ranges row.now) }
        ensures ok { OnOk result ((rows : _) → Tells rows self.old
            → Tells (rows ++ row.now ∷ []) self.new) }
        ensures err { OnErr result ((rows : _) → Tells rows self.old → Tells rows self.new) }
    {
        match row {
            Row::Cpu { cpu, socket } => {
                self.sockets.insert(*cpu, *socket)?;
                Ok(())
            }
            Row::Module {
                label,
                socket,
                bank,
                channel,
            } => {
                let location = Location::Channel {
                    socket: *socket,
                    bank: *bank,
                    channel: *channel,
                };
                self.modules.reserve(1)?;
                note(&mut self.owners, location, *label)?;
                self.modules.insert(*label)?;
                Ok(())
            }
            Row::Range { label, first, last } => self.ranges.put(HeldRange {
                label: *label,
                first: *first,
                last: *last,
            }),
            Row::Place {
                label,
                node,
                card,
                module,
            } => {
                let location = Location::Numbers {
                    node: *node,
                    card: *card,
                    module: *module,
                };
                note(&mut self.owners, location, *label)
            }
        }
    }
}

// Records that a row of a location has this label.
fn note(
    owners: &mut HashMap<Location, Option<Label>>,
    location: Location,
    label: Label,
) -> Result<(), NoMemory>
    ensures ok { OnOk result ((at : _) → get location_eq.it owners.new at
        ≡ cond (location_eq.it location at)
        (Some (joined (get location_eq.it owners.old location) label))
        (get location_eq.it owners.old at)) }
    ensures err { OnErr result (IsUnchanged owners.old owners.new) }
{
    let owner = match owners.get(&location) {
        None => Some(label),
        Some(Some(held)) if *held == label => Some(*held),
        Some(_) => None,
    };
    owners.insert(location, owner)?;
    Ok(())
}
