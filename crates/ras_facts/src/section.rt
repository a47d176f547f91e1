//! The item of a section that firmware reports.

ghost use Rattle.std.specs.Prelude.{◌≡◌, ◌<◌, ◌^◌, Ok, IfOk, IfSome, IsTrue};
ghost use Rattle.dimm_topology.specs.Labels.{is_label_or_none};
ghost use Rattle.ras_facts.specs.Reported.{severity_class, section_label, section_page, section_item};
ghost use Rattle.ras_facts.specs.Valid.{IsValidItem, IsPage};

use crate::Item;
use cper_sections::{Descriptor, Section};
use dimm_topology::{Label, Topology};
use mca_status::ItemClass;
use ras_base::NoMemory;
use std::alloc::Global;

// A page of memory has 2 ^ 12 bytes.
const PAGE_BITS: u32 = 12;

/// Returns the item of a section, which counts for one error. It has the class of the section's
/// severity and, for a memory section, the label by the topology and the page of its physical
/// address.
///
/// `NoMemory`: only if memory runs out.
pub fn section_item(
    alloc: Global,
    read: &Descriptor<'_>,
    topology: &Topology,
) -> Result<Item, NoMemory>
    ensures item { IfOk result
        (λ item. item ≡ section_item topology.now read.now.severity (Ok read.now.section)) }
    ensures valid { IfOk result IsValidItem }
{
    Ok(Item {
        class: severity_class(read.severity),
        label: section_label(alloc, read.section, topology)?,
        page: section_page(read.section),
        weight: 1,
    })
}

/// Returns the class of a section of this severity: 0 is recoverable, 1 fatal, 2 corrected and 3
/// informational. (UEFI, appendix N, "Section Descriptor".)
pub fn severity_class(severity: u32) -> ItemClass
    ensures { result ≡ severity_class severity }
{
    match severity {
        0 => ItemClass::Recoverable,
        1 => ItemClass::Fatal,
        2 => ItemClass::Corrected,
        3 => ItemClass::Informational,
        _ => ItemClass::Odd,
    }
}

// Returns the label of the module that owns the error of a section.
fn section_label(alloc: Global, section: Section, topology: &Topology) -> Result<Label, NoMemory>
    ensures label { IfOk result (λ label. label ≡ section_label topology.now (Ok section)) }
    ensures valid { IfOk result (λ label. IsTrue (is_label_or_none label)) }
{
    let Section::Memory(memory) = section else {
        return Ok(Label::none());
    };
    match topology.owner_of_section(&memory) {
        Some(owner) => owner.copy(alloc),
        None => Ok(Label::none()),
    }
}

// Returns the page of a memory section's physical address.
fn section_page(section: Section) -> Option<u64>
    ensures page { result ≡ section_page (Ok section) }
    ensures valid { IfSome result IsPage }
{
    match section {
        Section::Memory(memory) => memory.physical.map(|address| address >> PAGE_BITS),
        _ => None,
    }
}
