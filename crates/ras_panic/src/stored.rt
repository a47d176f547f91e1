//! The reports of the records of a store, and their facts.

ghost use Rattle.std.specs.Prelude.{◌≡◌, IfOk};
ghost use Rattle.ras_facts.specs.Valid.{IsValidFact};
ghost use Rattle.ras_panic.specs.Reading.{stored_fact, stored_report};

use crate::reading::panic_of;
use cper_records::Record;
use dimm_topology::Topology;
use ras_base::NoMemory;
use ras_facts::{Fact, Report, report_of_bank, report_of_record};
use std::alloc::Global;

/// Returns the report of a record of the store, read at this time. For a panic record it is the
/// bank's own, with the seconds of its report; for every other record it is what `report_of_record`
/// returns.
///
/// # Errors
///
/// `NoMemory`: only if memory runs out.
pub fn report_of_stored(
    alloc: Global,
    seconds: u64,
    rec: &Record<'_>,
    topology: &Topology,
) -> Result<Report, NoMemory>
    ensures report { IfOk result
        (λ report. report ≡ stored_report topology.now seconds rec.now) }
    ensures valid { IfOk result (λ report. IsValidFact report.fact) }
{
    if let Some(bank) = panic_of(rec) {
        if let Some(report) = report_of_bank(alloc, &bank, topology)? {
            return Ok(report);
        }
    }
    report_of_record(alloc, seconds, rec, topology)
}

/// Returns the fact of the report that `report_of_stored` returns.
///
/// # Errors
///
/// `NoMemory`: only if memory runs out.
pub fn fact_of_stored(
    alloc: Global,
    seconds: u64,
    rec: &Record<'_>,
    topology: &Topology,
) -> Result<Fact, NoMemory>
    ensures fact { IfOk result (λ fact. fact ≡ stored_fact topology.now seconds rec.now) }
    ensures valid { IfOk result IsValidFact }
{
    let report = report_of_stored(alloc, seconds, rec, topology)?;
    Ok(report.fact)
}
