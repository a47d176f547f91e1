//! The report of a generic error status block, and its fact.

ghost use Rattle.std.specs.Prelude.{◌≡◌, ◌↔◌, ◌≤◌, length, Ok, None, IfOk, IfSome};
ghost use Rattle.ras_facts.specs.Reported.{block_fact};
ghost use Rattle.ras_facts.specs.Reports.{block_report};
ghost use Rattle.ras_facts.specs.Valid.{IsValidFact};

use crate::details::{Details, Report, detail_of};
use crate::items::MOST_ITEMS;
use crate::section::section_item;
use crate::{Fact, Items, Name};
use apei_sources::Block;
use dimm_topology::Topology;
use ras_base::NoMemory;
use std::alloc::Global;

/// Returns the report of a status block, read at this time and with this name: an item and a detail
/// for each entry in order, as `report_of_record` makes them of each section. It is `None` if and
/// only if the block status is 0, and then nothing is allocated. (ACPI 6.5, section 18.3.2.7.1,
/// "Generic Error Data".)
///
/// # Errors
///
/// `NoMemory`: only if memory runs out.
pub fn report_of_block(
    alloc: Global,
    name: Name,
    seconds: u64,
    block: &Block<'_>,
    topology: &Topology,
) -> Result<Option<Report>, NoMemory>
    ensures report { IfOk result
        (λ report. report ≡ block_report topology.now name seconds block.now) }
    ensures none { (result ≡ Ok None) ↔ (block.now.status ≡ 0) }

    // A block can have more entries than a valid fact has items.
    ensures valid { length block.now.entries ≤ MOST_ITEMS
        → IfOk result (λ report. IfSome report (λ told. IsValidFact told.fact)) }
{
    if block.status() == 0 {
        return Ok(None);
    }
    let (mut items, mut details) = (Items::new(alloc), Details::new(alloc));
    for i in 0..block.count() {
        let read = block.entry(i);
        items.push(section_item(alloc, &read, topology)?)?;
        details.push(detail_of(read.section))?;
    }
    let fact = Fact {
        name,
        seconds,
        items,
    };
    Ok(Some(Report { fact, details }))
}

/// Returns the fact of the report that `report_of_block` returns. It is `None` if and only if the
/// block status is 0, and then nothing is allocated.
///
/// # Errors
///
/// `NoMemory`: only if memory runs out.
pub fn fact_of_block(
    alloc: Global,
    name: Name,
    seconds: u64,
    block: &Block<'_>,
    topology: &Topology,
) -> Result<Option<Fact>, NoMemory>
    ensures fact { IfOk result (λ fact. fact ≡ block_fact topology.now name seconds block.now) }
    ensures none { (result ≡ Ok None) ↔ (block.now.status ≡ 0) }
    ensures valid { length block.now.entries ≤ MOST_ITEMS
        → IfOk result (λ fact. IfSome fact IsValidFact) }
{
    match report_of_block(alloc, name, seconds, block, topology)? {
        Some(report) => Ok(Some(report.fact)),
        None => Ok(None),
    }
}
