//! The filter of PCI Express sections.

ghost use Rattle.std.specs.Prelude.{◌≡◌, ◌+◌, ◌<◌, ◌≤◌, ◌^◌, ◌++◌, length, OnOk, refl};
ghost use Rattle.cper_pcie.specs.Filter.{pcie_filter};
ghost use Rattle.cper_pcie.specs.Along.{filter_from};
ghost use Rattle.ras_script.specs.declared.reader.TheConstants.{LONGEST_LINE};
ghost use Rattle.apei_sources.specs.Blocks.{block_of};
ghost use Rattle.cper_pcie.specs.Reports.{report_in_block, line_report, report_in_store};
ghost use Rattle.cper_pcie.specs.Along.{counted_after, text_with};
ghost use Rattle.ras_script.specs.LineLaws.{HasFewBytes};

use crate::counted::Counted;
use crate::reports::{STORED_LENGTH, Sections, fill};
use apei_sources::read_block;
use cper_records::read_stored;
use line_filters::LineFilter;
use ras_base::NoMemory;
use ras_facts::Name;
use ras_script::{ErrorReport, Line, LineRefused, read_line};
use std::alloc::Global;
use std::marker::Model;

/// Prints the PCI Express sections of the records and blocks of a script, and at its end the errors
/// of each function. Of the reports with one name, only the first with such sections counts.
///
/// The filter stores the names of the reports that count, a row for each function, and one buffer
/// of 16,384 bytes. Once memory ran out, no earlier line counts any more.
#[derive(Drop)]
pub struct PcieFilter {
    counted: Counted,
    buffer: Vec<u8>,
    taken: u64,
}

impl Model for PcieFilter {
    ghost use Rattle.cper_pcie.specs.Along.{Filtering, IsFiltering};

    ghost Value = { Filtering };

    ghost view = { λ f. record { counted = f.counted; taken = f.taken } };

    ghost invariant = { λ f. IsFiltering (record { counted = f.counted; taken = f.taken }) };
}

impl PcieFilter {
    /// Returns a filter before the first line of a script.
    pub fn new(alloc: Global) -> PcieFilter
        ensures makes { filter_from result.counted ≡ pcie_filter }
        ensures taken { result.taken ≡ 0 }
    {
        PcieFilter {
            counted: Counted::new(alloc),
            buffer: Vec::new(alloc),
            taken: 0,
        }
    }
}

impl LineFilter for PcieFilter {
    ghost use Rattle.cper_pcie.specs.Along.{filter_from};

    ghost makes = { λ filter. filter_from filter.counted };

    ghost taken = { λ filter. filter.taken };

    ghost none = { λ filter. refl };

    fn take(&mut self, alloc: Global, line: &[u8], text: &mut Vec<u8>) -> Result<(), LineRefused> {
        let asked = read_line(alloc, line)?;
        match take_line(&mut self.counted, &mut self.buffer, &asked, text) {
            Ok(()) => {
                self.taken += 1;
                Ok(())
            }
            Err(NoMemory) => {
                // The sections of this line, and of the lines before it, are dropped.
                self.counted = Counted::new(alloc);
                Err(LineRefused::NoMemory)
            }
        }
    }

    fn push_rest(&self, alloc: Global, text: &mut Vec<u8>) -> Result<(), NoMemory> {
        Ok(())
    }

    fn push_last(&self, alloc: Global, text: &mut Vec<u8>) -> Result<(), NoMemory> {
        self.counted.push_totals(text)
    }
}

// Takes the sections of a line, if the line is a report that counts, and appends their lines.
fn take_line(
    counted: &mut Counted,
    buffer: &mut Vec<u8>,
    line: &Line,
    text: &mut Vec<u8>,
) -> Result<(), NoMemory>
    requires few { counted.old.totals.sections < 2 ^ 57 }
    requires line { HasFewBytes LONGEST_LINE line.now }
    ensures counted { OnOk result (counted.new ≡ counted_after counted.old (line_report line.now)) }
    ensures text { OnOk result (text.new.items
        ≡ text.old.items ++ text_with counted.old.names (line_report line.now)) }
    ensures few { OnOk result
        (counted.new.totals.sections ≤ counted.old.totals.sections + 65536) }
{
    match line {
        Line::Put { id, bytes } => take_record(counted, buffer, *id, bytes.bytes(), text),
        Line::Report(
            ErrorReport::Block {
                boot,
                source,
                number,
                bytes,
                ..
            },
        ) => {
            let name = Name::Block {
                boot: *boot,
                source: *source,
                number: *number,
            };
            take_block(counted, &name, bytes.bytes(), text)
        }
        _ => Ok(()),
    }
}

// Takes the sections of a record that is to be stored.
fn take_record(
    counted: &mut Counted,
    buffer: &mut Vec<u8>,
    id: u64,
    bytes: &[u8],
    text: &mut Vec<u8>,
) -> Result<(), NoMemory>
    requires few { counted.old.totals.sections < 2 ^ 57 }
    ensures counted { OnOk result
        (counted.new ≡ counted_after counted.old (report_in_store id bytes.now)) }
    ensures text { OnOk result (text.new.items
        ≡ text.old.items ++ text_with counted.old.names (report_in_store id bytes.now)) }
    ensures few { OnOk result
        (counted.new.totals.sections ≤ counted.old.totals.sections + 65536) }
{
    if bytes.len() > STORED_LENGTH {
        return Ok(());
    }
    fill(buffer, bytes)?;
    match read_stored(id, buffer) {
        Ok(rec) => {
            // The count has 16 bits, so one record can't have too many sections.
            let _count = rec.count();
            counted.take(&Name::Record { id }, &Sections::Record(rec), text)
        }
        Err(_) => Ok(()),
    }
}

// Takes the sections of a block.
fn take_block(
    counted: &mut Counted,
    name: &Name,
    bytes: &[u8],
    text: &mut Vec<u8>,
) -> Result<(), NoMemory>
    requires few { counted.old.totals.sections < 2 ^ 57 }
    requires bytes { length bytes.now ≤ LONGEST_LINE }
    ensures counted { OnOk result (counted.new
        ≡ counted_after counted.old (report_in_block name.now (block_of bytes.now))) }
    ensures text { OnOk result (text.new.items ≡ text.old.items
        ++ text_with counted.old.names (report_in_block name.now (block_of bytes.now))) }
    ensures few { OnOk result
        (counted.new.totals.sections ≤ counted.old.totals.sections + 65536) }
{
    match read_block(bytes) {
        Ok(block) => counted.take(name, &Sections::Block(block), text),
        Err(_) => Ok(()),
    }
}
