//! The report of a record of firmware, and its fact.

ghost use Rattle.std.specs.Prelude.{◌≡◌, IfOk};
ghost use Rattle.ras_facts.specs.Reported.{record_fact};
ghost use Rattle.ras_facts.specs.Reports.{record_report};
ghost use Rattle.ras_facts.specs.Valid.{IsValidFact};

use crate::details::{Details, Report, detail_of};
use crate::section::section_item;
use crate::{Fact, Items, Name};
use cper_records::Record;
use dimm_topology::Topology;
use ras_base::NoMemory;
use std::alloc::Global;

/// Returns the report of a record, read at this time. Its fact has an item for each section in
/// order, with the class of the section's own severity and, for a memory section, the label by the
/// topology and the page of its physical address. The section is the detail of the item. (UEFI,
/// appendix N, "Section Descriptor".)
///
/// # Errors
///
/// `NoMemory`: only if memory runs out.
pub fn report_of_record(
    alloc: Global,
    seconds: u64,
    rec: &Record<'_>,
    topology: &Topology,
) -> Result<Report, NoMemory>
    ensures report { IfOk result
        (λ report. report ≡ record_report topology.now seconds rec.now) }
    ensures valid { IfOk result (λ report. IsValidFact report.fact) }
{
    let (mut items, mut details) = (Items::new(alloc), Details::new(alloc));
    for i in 0..rec.count() {
        let read = rec.section(i);
        items.push(section_item(alloc, &read, topology)?)?;
        details.push(detail_of(read.section))?;
    }
    let name = Name::Record { id: rec.id() };
    let fact = Fact {
        name,
        seconds,
        items,
    };
    Ok(Report { fact, details })
}

/// Returns the fact of the report that `report_of_record` returns.
///
/// # Errors
///
/// `NoMemory`: only if memory runs out.
pub fn fact_of_record(
    alloc: Global,
    seconds: u64,
    rec: &Record<'_>,
    topology: &Topology,
) -> Result<Fact, NoMemory>
    ensures fact { IfOk result (λ fact. fact ≡ record_fact topology.now seconds rec.now) }
    ensures valid { IfOk result IsValidFact }
{
    let report = report_of_record(alloc, seconds, rec, topology)?;
    Ok(report.fact)
}
