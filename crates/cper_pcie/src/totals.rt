//! The totals of sections.

ghost use Rattle.std.specs.Prelude.{◌≡◌, ◌<◌, ◌^◌, ◌++◌, OnOk};
ghost use Rattle.cper_pcie.specs.Along.{totals_with};
ghost use Rattle.cper_pcie.specs.Steps.Filtering.{no_totals};
ghost use Rattle.cper_pcie.specs.Texts.{device_line, totals_text};

use crate::counts::PcieCounts;
use crate::section::PcieSection;
use crate::texts::{push_device, push_end};
use ras_base::NoMemory;
use std::alloc::Global;
use std::marker::Model;

// The errors of each function, and how many sections were added.
#[derive(Drop)]
pub(crate) struct Totals {
    counts: PcieCounts,
    sections: u64,
}

impl Model for Totals {
    ghost use Rattle.cper_pcie.specs.Steps.Filtering.{AreFew};
    ghost use Rattle.cper_pcie.specs.Totals.{Totals as Sums};

    ghost Value = { Sums };

    ghost view = { λ t. record { rows = t.counts; sections = t.sections } };

    // Each section has at most 32 errors of each kind, so no count reaches its greatest number.
    ghost invariant = { λ t. AreFew (record { rows = t.counts; sections = t.sections }) };
}

impl Totals {
    // Returns the totals of no sections.
    pub(crate) fn new(alloc: Global) -> Totals
        ensures { result ≡ no_totals }
    {
        Totals {
            counts: PcieCounts::new(alloc),
            sections: 0,
        }
    }

    // Adds a section.
    pub(crate) fn add(&mut self, section: &PcieSection) -> Result<(), NoMemory>
        requires { self.old.sections < 2 ^ 58 }
        ensures { OnOk result (self.new ≡ totals_with self.old section.now) }
    {
        self.counts.add(section)?;
        self.sections += 1;
        Ok(())
    }

    // Appends a line for each function, and a line with the numbers of sections and of functions.
    pub(crate) fn push(&self, text: &mut Vec<u8>) -> Result<(), NoMemory>
        ensures { OnOk result (text.new.items ≡ text.old.items ++ totals_text self.now) }
    {
        for i in 0..self.counts.len() {
            let (device, uncor, cor) = self.counts.row(i);
            push_device(text, device, uncor, cor)?;
        }
        push_end(text, self.sections, self.counts.len() as u64)
    }
}
