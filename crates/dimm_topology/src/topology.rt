//! The rows of a machine, and which module owns an error by these rows.

ghost use Rattle.std.specs.Prelude.{◌≡◌, ◌≤◌, ◌<◌, ◌↔◌, ℕ, List, [], ◌∷◌, ◌++◌, length, Option, Some, IsTrue, IfSome, IsSome, OnOk, OnErr};
ghost use Rattle.std.specs.Bool.{IsFalse};
ghost use Rattle.std.specs.List.{list_any};
ghost use Rattle.std.specs.Option.{option_copied};
ghost use Rattle.dimm_topology.specs.declared.row.Row.{Row};
ghost use Rattle.dimm_topology.specs.Labels.{is_label_or_none};
ghost use Rattle.dimm_topology.specs.Rows.{names_module, overlap, is_module_label};
ghost use Rattle.dimm_topology.specs.Refusals.{row_refusal, topology_number, AnswersRow, SharesAddress};
ghost use Rattle.dimm_topology.specs.Owners.{owner_by_rows, owner_of_address, owner_at, socket_by_rows, channel_of, bank_location, section_location, ranges_over};
ghost use Rattle.dimm_topology.specs.Topology.{is_upright, IsTopology};

use crate::Label;
use crate::row::{Location, Row};
use crate::tables::Tables;
use cper_sections::MemSection;
use mca_codes::Code;
use ras_base::NoMemory;
use std::alloc::Global;
use std::marker::Model;
use thiserror::Error;

/// The most rows, of all kinds together, that a topology contains.
pub const MOST_ROWS: usize = 4_096;

/// How a machine is built, by rows in the order in which they were added.
///
/// Contracts see the list of the rows. No two ranges overlap, and each range and each place names a
/// label that a module row has.
#[derive(Debug, Drop)]
pub struct Topology {
    rows: Vec<Row>,

    // What the rows say.
    tables: Tables,
}

impl Model for Topology {
    ghost use Rattle.std.specs.Prelude.{List};
    ghost use Rattle.dimm_topology.specs.declared.row.Row.{Row};
    ghost use Rattle.dimm_topology.specs.Topology.{IsTopology};
    ghost use Rattle.dimm_topology.specs.Steps.Tables.{Tells};

    ghost Value = { List Row };

    ghost view = { λ a. a.rows.items };

    ghost invariant = { λ a. IsTopology a.rows.items × Tells a.rows.items a.tables };
}

/// Why a topology rejects a row: the first reason that applies.
#[derive(Clone, Copy, Debug, PartialEq, Eq, Error)]
pub enum TopologyRefused {
    /// 1: a range or a place has a label that no module row has.
    #[error("no memory module has the label")]
    Label,
    /// 2: a range has an address in common with an earlier range.
    #[error("the range has an address in common with another")]
    Overlap,
    /// 3: there are `MOST_ROWS` rows already.
    #[error("the topology has as many rows as it may hold")]
    Full,
    /// Memory ran out. This has no number, because it isn't a fault of the row.
    #[error("memory ran out")]
    NoMemory,
}

impl TopologyRefused {
    /// Returns the number by which the refusal is printed, or `None` if memory ran out.
    pub fn number(self) -> Option<u8>
        ensures { result ≡ topology_number self }
    {
        match self {
            TopologyRefused::Label => Some(1),
            TopologyRefused::Overlap => Some(2),
            TopologyRefused::Full => Some(3),
            TopologyRefused::NoMemory => None,
        }
    }
}

impl Topology {
    /// Returns a topology with no rows.
    pub fn new(alloc: Global) -> Topology
        ensures { result ≡ [] }
    {
        Topology {
            rows: Vec::new(alloc),
            tables: Tables::new(alloc),
        }
    }

    /// The properties of the rows of every topology. A law: the body is empty, the clause is the
    /// point.
    pub fn invariant(&self)
        ensures { IsTopology self.now }
    {
        let _ = &self.rows;
    }

    /// Adds a row that says in which socket a CPU is. The last row of a CPU applies.
    ///
    /// `Full`: if and only if there are `MOST_ROWS` rows already. After an error the rows are
    /// unchanged.
    pub fn add_cpu(&mut self, cpu: u16, socket: u8) -> Result<(), TopologyRefused>
        ensures answer { AnswersRow result (row_refusal self.old (Row.Cpu cpu socket)) }
        ensures ok { OnOk result (self.new ≡ self.old ++ Row.Cpu cpu socket ∷ []) }
        ensures err { OnErr result (self.new ≡ self.old) }

        // Addresses in a range keep their owners.
        ensures addresses { (address : ℕ)
            → owner_of_address self.new address ≡ owner_of_address self.old address }

        // The row applies from now on, whatever row the CPU had.
        ensures last { OnOk result (socket_by_rows self.new cpu ≡ Some socket) }
    {
        self.add(Row::Cpu { cpu, socket })
    }

    /// Adds a row that says: the machine-check bank of this number, in this socket, reports errors
    /// of this module with this memory channel. Several modules may share one channel.
    ///
    /// A module may be named by `Label::none()`, which is then a label like any other.
    ///
    /// `Full`: if and only if there are `MOST_ROWS` rows already. After an error the rows are
    /// unchanged.
    pub fn add_module(
        &mut self,
        label: Label,
        socket: u8,
        bank: u8,
        channel: u8,
    ) -> Result<(), TopologyRefused>
        ensures answer { AnswersRow result
            (row_refusal self.old (Row.Module label socket bank channel)) }
        ensures ok { OnOk result (self.new
            ≡ self.old ++ Row.Module label socket bank channel ∷ []) }
        ensures err { OnErr result (self.new ≡ self.old) }

        // Addresses in a range keep their owners.
        ensures addresses { (address : ℕ)
            → owner_of_address self.new address ≡ owner_of_address self.old address }
    {
        self.add(Row::Module {
            label,
            socket,
            bank,
            channel,
        })
    }

    /// Adds a row that gives a module the physical addresses from `first` to `last`, both included.
    /// Requires that `first` isn't above `last`.
    ///
    /// The error is the first that applies. `Label`: if and only if no module row has the label.
    /// `Overlap`: if and only if another range has an address in common. `Full`: if and only if
    /// there are `MOST_ROWS` rows already. After an error the rows are unchanged.
    pub fn add_range(&mut self, label: Label, first: u64, last: u64) -> Result<(), TopologyRefused>
        requires { first ≤ last }
        ensures answer { AnswersRow result (row_refusal self.old (Row.Range label first last)) }
        ensures ok { OnOk result (self.new ≡ self.old ++ Row.Range label first last ∷ []) }
        ensures err { OnErr result (self.new ≡ self.old) }

        // An address that is in a range keeps its owner.
        ensures addresses { (address : ℕ) → IsSome (owner_of_address self.old address)
            → owner_of_address self.new address ≡ owner_of_address self.old address }

        // A range overlaps another if and only if some address is in both.
        ensures shared { IsTrue (list_any (overlap (Row.Range label first last)) self.old)
            ↔ SharesAddress self.old first last }
    {
        self.add(Row::Range { label, first, last })
    }

    /// Adds a row that says by which node, card and module number firmware reports errors of a
    /// module.
    ///
    /// The error is the first that applies. `Label`: if and only if no module row has the label.
    /// `Full`: if and only if there are `MOST_ROWS` rows already. After an error the rows are
    /// unchanged.
    pub fn add_place(
        &mut self,
        label: Label,
        node: u16,
        card: u16,
        module: u16,
    ) -> Result<(), TopologyRefused>
        ensures answer { AnswersRow result
            (row_refusal self.old (Row.Place label node card «module»)) }
        ensures ok { OnOk result (self.new ≡ self.old ++ Row.Place label node card «module» ∷ []) }
        ensures err { OnErr result (self.new ≡ self.old) }

        // Addresses in a range keep their owners.
        ensures addresses { (address : ℕ)
            → owner_of_address self.new address ≡ owner_of_address self.old address }
    {
        self.add(Row::Place {
            label,
            node,
            card,
            module,
        })
    }

    /// Returns the label of the module that an error in a machine-check bank belongs to. It is the
    /// label of the range that contains the address; else the label that the module rows give for
    /// the CPU's socket, the bank and the memory channel of the code. It is `None` if these rows
    /// give no label, or different ones.
    pub fn owner_of_bank(
        &self,
        cpu: u16,
        bank: u8,
        code: Code,
        address: Option<u64>,
    ) -> Option<&Label>
        ensures owner { option_copied result
            ≡ owner_by_rows self.now address (bank_location self.now cpu bank code) }

        // Each address is in at most one range.
        ensures one_range { (held : ℕ) → length (ranges_over self.now held) ≤ 1 }

        // An owner is the label of a module row.
        ensures named { IfSome result (λ label. IsTrue (is_module_label self.now label.now)) }
        ensures valid { IfSome result (λ label. IsTrue (is_label_or_none label.now)) }
    {
        self.owner(address, self.bank_location(cpu, bank, code))
    }

    /// Returns the label of the module that an error of a memory section belongs to. It is the
    /// label of the range that contains the physical address; else, if the section has a node, a
    /// card and a module, the label that the place rows give for them. It is `None` if these rows
    /// give no label, or different ones. (UEFI, appendix N, "Memory Error Section".)
    pub fn owner_of_section(&self, section: &MemSection) -> Option<&Label>
        ensures owner { option_copied result
            ≡ owner_by_rows self.now section.now.physical (section_location section.now) }

        // An owner is the label of a module row.
        ensures named { IfSome result (λ label. IsTrue (is_module_label self.now label.now)) }
        ensures valid { IfSome result (λ label. IsTrue (is_label_or_none label.now)) }
    {
        self.owner(section.physical, location_of_section(section))
    }

    // Returns the owner of an error: the owner of its address, else the owner of its location.
    fn owner(&self, address: Option<u64>, location: Option<Location>) -> Option<&Label>
        ensures owner { option_copied result ≡ owner_by_rows self.now address location }
        ensures topology { IsTopology self.now }
    {
        // Reading the rows proves the properties of every topology, which the clause needs.
        let _ = &self.rows;
        match address.and_then(|address| self.owner_of_address(address)) {
            Some(label) => Some(label),
            None => location.and_then(|location| self.owner_at(location)),
        }
    }

    /// Adds a row of any kind. Requires that a range's first address isn't above its last.
    ///
    /// The error is the first that applies. `Label`: if and only if a range or a place names a
    /// label that no module row has. `Overlap`: if and only if a range has an address in common
    /// with another. `Full`: if and only if there are `MOST_ROWS` rows already. After an error the
    /// rows are unchanged.
    pub fn add(&mut self, row: Row) -> Result<(), TopologyRefused>
        requires { IsTrue (is_upright row) }
        ensures answer { AnswersRow result (row_refusal self.old row) }
        ensures ok { OnOk result (self.new ≡ self.old ++ row ∷ []) }
        ensures err { OnErr result (self.new ≡ self.old) }
        ensures topology { IsTopology self.old }
    {
        if !self.names_module(&row) {
            return Err(TopologyRefused::Label);
        }
        if self.has_overlap(&row) {
            return Err(TopologyRefused::Overlap);
        }
        if self.rows.len() >= MOST_ROWS {
            return Err(TopologyRefused::Full);
        }
        match self.hold(row) {
            Ok(()) => Ok(()),
            Err(NoMemory) => Err(TopologyRefused::NoMemory),
        }
    }

    // Appends a row that may come after the others.
    fn hold(&mut self, row: Row) -> Result<(), NoMemory>
        requires upright { IsTrue (is_upright row) }
        requires named { IsTrue (names_module self.old row) }
        requires apart { IsFalse (list_any (overlap row) self.old) }
        requires small { length self.old < 4096 }
        ensures ok { OnOk result (self.new ≡ self.old ++ row ∷ []) }
        ensures err { OnErr result (self.new ≡ self.old) }
    {
        // By the contract of `label`, the row's label is valid or empty.
        let _ = row.label();
        self.rows.reserve(1)?;
        self.tables.take(&row)?;
        self.rows.push(row)?;
        Ok(())
    }

    // Returns whether a row names a module that the rows have, as a range and a place must.
    fn names_module(&self, row: &Row) -> bool
        ensures { result ≡ names_module self.now row.now }
    {
        match row {
            Row::Range { label, .. } | Row::Place { label, .. } => self.is_module_label(label),
            Row::Cpu { .. } | Row::Module { .. } => true,
        }
    }

    // Returns whether some module row has a label.
    fn is_module_label(&self, label: &Label) -> bool
        ensures { result ≡ is_module_label self.now label.now }
    {
        self.tables.modules.contains(label)
    }

    // Returns whether a row is a range that has an address in common with an earlier range.
    fn has_overlap(&self, row: &Row) -> bool
        requires { IsTrue (is_upright row.now) }
        ensures { result ≡ list_any (overlap row.now) self.now }
    {
        self.tables.meets_one(row)
    }

    // Returns the label of the range that contains an address.
    fn owner_of_address(&self, address: u64) -> Option<&Label>
        ensures { option_copied result ≡ owner_of_address self.now address }
    {
        let range = self.tables.ranges.meeting(address, address)?;
        Some(&range.label)
    }

    // Returns the location of an error in a bank.
    fn bank_location(&self, cpu: u16, bank: u8, code: Code) -> Option<Location>
        ensures { result ≡ bank_location self.now cpu bank code }
    {
        let channel = channel_of(code)?;
        let socket = self.socket(cpu)?;
        Some(Location::Channel {
            socket,
            bank,
            channel,
        })
    }

    // Returns the socket of a CPU, by its last row.
    fn socket(&self, cpu: u16) -> Option<u8>
        ensures { result ≡ socket_by_rows self.now cpu }
    {
        self.tables.sockets.get(&cpu).copied()
    }

    // Returns the only label in the rows of a location.
    fn owner_at(&self, location: Location) -> Option<&Label>
        ensures { option_copied result ≡ owner_at self.now location }
    {
        self.tables.owners.get(&location)?.as_ref()
    }
}

// Returns the memory channel in an error code.
fn channel_of(code: Code) -> Option<u8>
    ensures { result ≡ channel_of code }
{
    match code {
        Code::Memory { channel, .. } if channel != 15 => Some(channel),
        _ => None,
    }
}

// Returns the location that a memory section names.
fn location_of_section(section: &MemSection) -> Option<Location>
    ensures { result ≡ section_location section.now }
{
    let node = section.node?;
    let card = section.card?;
    let module = section.module?;
    Some(Location::Numbers { node, card, module })
}
