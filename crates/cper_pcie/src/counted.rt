//! Keeps the reports that count.

ghost use Rattle.std.specs.Prelude.{◌≡◌, ◌+◌, ◌<◌, ◌≤◌, ◌^◌, [], ◌∷◌, ◌++◌, length, OnOk};
ghost use Rattle.cper_pcie.specs.Along.{counted_with, fresh_sections};
ghost use Rattle.cper_pcie.specs.Steps.Filtering.{none_counted, sections_in};
ghost use Rattle.cper_pcie.specs.Along.{sections_lines, totals_after};
ghost use Rattle.cper_pcie.specs.Steps.Filtering.{taken_from};
ghost use Rattle.cper_pcie.specs.Texts.{read_sections, section_line, totals_text};

use crate::reports::Sections;
use crate::section::{is_pcie, read_pcie};
use crate::texts::push_section;
use crate::totals::Totals;
use ras_base::NoMemory;
use ras_facts::Name;
use row_tables::{RowRefused, RowTable};
use std::alloc::Global;
use std::marker::Model;

// The names of the reports that count, and the totals of their sections.
#[derive(Drop)]
pub(crate) struct Counted {
    names: RowTable<Name, ()>,
    totals: Totals,
}

impl Model for Counted {
    ghost use Rattle.std.specs.Prelude.{◌≡◌, []};
    ghost use Rattle.std.specs.Map.{keys_of};
    ghost use Rattle.cper_pcie.specs.Along.{Counted as Reports};

    ghost Value = { Reports };

    ghost view = { λ c. record { names = keys_of c.names.rows; totals = c.totals } };

    ghost invariant = { λ c. c.names.waiting ≡ [] };
}

impl Counted {
    // Returns an empty set of reports.
    pub(crate) fn new(alloc: Global) -> Counted
        ensures { result ≡ none_counted }
    {
        Counted {
            names: RowTable::new(alloc),
            totals: Totals::new(alloc),
        }
    }

    // Takes a report. If it has PCI Express sections and no report with its name counts yet, it
    // counts, and the lines of these sections are appended.
    pub(crate) fn take(
        &mut self,
        name: &Name,
        sections: &Sections<'_>,
        text: &mut Vec<u8>,
    ) -> Result<(), NoMemory>
        requires { self.old.totals.sections + length (sections_in sections.now) < 2 ^ 58 }
        ensures counted { OnOk result (self.new ≡ counted_with self.old
            (record { name = name.now; sections = sections_in sections.now })) }
        ensures text { OnOk result (text.new.items ≡ text.old.items
            ++ sections_lines (fresh_sections self.old.names
            (record { name = name.now; sections = sections_in sections.now }))) }
        ensures few { OnOk result (self.new.totals.sections
            ≤ self.old.totals.sections + length (sections_in sections.now)) }
    {
        if !sections.has_pcie() {
            return Ok(());
        }
        match self.names.push_row(*name, ()) {
            Ok(()) => take_sections(&mut self.totals, name, sections, text),
            Err(RowRefused::Repeated) => Ok(()),
            Err(RowRefused::NoMemory) => Err(NoMemory),
        }
    }

    // Appends the totals of the sections of all reports that count.
    pub(crate) fn push_totals(&self, text: &mut Vec<u8>) -> Result<(), NoMemory>
        ensures { OnOk result (text.new.items ≡ text.old.items ++ totals_text self.now.totals) }
    {
        self.totals.push(text)
    }
}

// Takes the PCI Express sections of a report that counts, and appends their lines.
fn take_sections(
    totals: &mut Totals,
    name: &Name,
    sections: &Sections<'_>,
    text: &mut Vec<u8>,
) -> Result<(), NoMemory>
    requires { totals.old.sections + length (sections_in sections.now) < 2 ^ 58 }
    ensures totals { OnOk result (totals.new ≡ totals_after totals.old
        (read_sections (taken_from name.now (sections_in sections.now)))) }
    ensures text { OnOk result (text.new.items ≡ text.old.items
        ++ sections_lines (taken_from name.now (sections_in sections.now))) }
    ensures few { OnOk result (totals.new.sections
        ≤ totals.old.sections + length (sections_in sections.now)) }
{
    for i in 0..sections.count() {
        let section = sections.get(i);
        if is_pcie(section.guid) {
            take_section(totals, name, section.severity, section.bytes, text)?;
        }
    }
    Ok(())
}

// Takes a PCI Express section, and appends its line.
fn take_section(
    totals: &mut Totals,
    name: &Name,
    severity: u32,
    bytes: &[u8],
    text: &mut Vec<u8>,
) -> Result<(), NoMemory>
    requires { totals.old.sections < 2 ^ 58 }
    ensures totals { OnOk result (totals.new ≡ totals_after totals.old
        (read_sections (record { name = name.now; severity = severity; bytes = bytes.now } ∷ []))) }
    ensures text { OnOk result (text.new.items ≡ text.old.items
        ++ section_line (record { name = name.now; severity = severity; bytes = bytes.now })) }
    ensures few { OnOk result (totals.new.sections ≤ totals.old.sections + 1) }
{
    let section = read_pcie(bytes);
    push_section(text, name, severity, &section)?;
    if let Ok(section) = section {
        totals.add(&section)?;
    }
    Ok(())
}
