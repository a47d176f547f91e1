//! The details of a report's items.
//!
//! A detail stores what was read rather than a text, so that a repeated report's text is never
//! built.

ghost use Rattle.std.specs.Prelude.{◌≡◌, ◌++◌, [], ◌∷◌, IfOk, OnOk, OnErr};
ghost use Rattle.ras_facts.specs.Reports.{detail_of};

use crate::{BankReport, Fact};
use cper_sections::{MemSection, ProcSection, Section, X64Section};
use ras_base::NoMemory;
use std::alloc::Global;
use std::marker::Model;
use uuid::Uuid;

/// What a log line prints about an item besides the item itself.
#[derive(Clone, Copy, Debug, PartialEq, Eq)]
pub enum Detail {
    /// The snapshot of the bank with the error.
    Bank(BankReport),
    /// A memory section.
    Memory(MemSection),
    /// A processor section.
    Processor(ProcSection),
    /// An IA32/X64 section.
    X64(X64Section),
    /// The type of another section.
    Other(Uuid),
}

// Returns the detail of a section's item.
pub(crate) fn detail_of(section: Section) -> Detail
    ensures { result ≡ detail_of section }
{
    match section {
        Section::Memory(memory) => Detail::Memory(memory),
        Section::Processor(processor) => Detail::Processor(processor),
        Section::X64(x64) => Detail::X64(x64),
        Section::Unknown(guid) => Detail::Other(guid),
    }
}

/// The details of a report's items, in order.
#[derive(Debug, Drop)]
pub struct Details {
    list: Vec<Detail>,
}

impl Model for Details {
    ghost use Rattle.std.specs.Prelude.{List};
    ghost use Rattle.ras_facts.specs.declared.details.Detail.{Detail};

    ghost Value = { List Detail };

    ghost view = { λ a. a.list.items };
}

impl Details {
    /// Returns an empty list.
    pub fn new(alloc: Global) -> Details
        ensures { result ≡ [] }
    {
        Details {
            list: Vec::new(alloc),
        }
    }

    /// Returns a list of one detail, without room for others.
    pub fn one(alloc: Global, detail: Detail) -> Result<Details, NoMemory>
        ensures { IfOk result (λ details. details ≡ detail ∷ []) }
    {
        let list = vec![in alloc; detail]?;
        Ok(Details { list })
    }

    /// Appends a detail. If memory runs out the list is unchanged.
    pub fn push(&mut self, detail: Detail) -> Result<(), NoMemory>
        ensures ok { OnOk result (self.new ≡ self.old ++ detail ∷ []) }
        ensures err { OnErr result (self.new ≡ self.old) }
    {
        self.list.push(detail)?;
        Ok(())
    }

    /// Returns the details in order.
    pub fn as_slice(&self) -> &[Detail]
        ensures { result.now ≡ self.now }
    {
        self.list.as_slice()
    }
}

/// A report: its fact, and a detail for each of the fact's items, in order.
#[derive(Debug, Drop)]
pub struct Report {
    /// The report, as an account counts it.
    pub fact: Fact,
    /// The details of the fact's items.
    pub details: Details,
}
