//! Prints the lines for the reports of a kernel log.

ghost use Rattle.std.specs.Prelude.{◌≡◌, ◌++◌, decimal, OnOk};
ghost use Rattle.ras_klog.specs.Texts.{bank_text, klog_counts_line, out_text, partial_line};

use crate::KlogOut;
use dimm_topology::Topology;
use ras_base::{NoMemory, push_number};
use ras_facts::{BankReport, report_of_bank};
use ras_texts::push_report;
use std::alloc::Global;

// Appends the text of an output.
pub(crate) fn push_out(alloc: Global, text: &mut Vec<u8>, out: &KlogOut) -> Result<(), NoMemory>
    ensures { OnOk result (text.new.items ≡ text.old.items ++ out_text out.now) }
{
    match out {
        KlogOut::Nothing => Ok(()),
        KlogOut::Whole(bank) => push_bank(alloc, text, bank),
        KlogOut::Partial { cpu, bank } => push_partial(text, *cpu, *bank),
    }
}

// Appends the log line of a complete report, with an empty machine description; no line if the bank
// has no error.
fn push_bank(alloc: Global, text: &mut Vec<u8>, bank: &BankReport) -> Result<(), NoMemory>
    ensures { OnOk result (text.new.items ≡ text.old.items ++ bank_text bank.now) }
{
    match report_of_bank(alloc, bank, &Topology::new(alloc))? {
        Some(report) => push_report(text, &report.fact, report.details.as_slice()),
        None => Ok(()),
    }
}

// Appends the line of an incomplete report.
fn push_partial(text: &mut Vec<u8>, cpu: u16, bank: u8) -> Result<(), NoMemory>
    ensures { OnOk result (text.new.items ≡ text.old.items ++ partial_line cpu bank) }
{
    push_named(text, b"partial cpu=", u64::from(cpu))?;
    push_named(text, b" bank=", u64::from(bank))?;
    text.push(b'\n')?;
    Ok(())
}

// Appends the last line of a whole log.
pub(crate) fn push_counts(text: &mut Vec<u8>, reports: u64, partial: u64) -> Result<(), NoMemory>
    ensures { OnOk result (text.new.items ≡ text.old.items ++ klog_counts_line reports partial) }
{
    push_named(text, b"end reports=", reports)?;
    push_named(text, b" partial=", partial)?;
    text.push(b'\n')?;
    Ok(())
}

// Appends a number after its name.
fn push_named(text: &mut Vec<u8>, name: &[u8], number: u64) -> Result<(), NoMemory>
    ensures { OnOk result (text.new.items ≡ text.old.items ++ name.now ++ decimal number) }
{
    text.extend_from_slice(name)?;
    push_number(text, number)
}
