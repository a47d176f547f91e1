//! Counts how many errors each function had.

ghost use Rattle.std.specs.Prelude.{◌≡◌, ◌<◌, ◌++◌, List, [], ◌∷◌, OnOk, OnErr, length, slice_get, Some};
ghost use Rattle.std.specs.Hash as fed;
ghost use Rattle.std.specs.Cmp.{partial_equiv_from_equiv};
ghost use Rattle.cper_pcie.specs.declared.section.PcieSection.{PcieSection};
ghost use Rattle.cper_pcie.specs.contracts.section.PcieDeviceHash.TheImpl.{hash_input-value as device_input};
ghost use Rattle.cper_pcie.specs.Devices.{same_device};
ghost use Rattle.cper_pcie.specs.Steps.DeviceLemmas.{same_device-exact, same_device-laws, same_device-fed};
ghost use Rattle.cper_pcie.specs.Counts.{counts_of, pcie_counts_with, errors_with};

use crate::bits::error_count;
use crate::section::{PcieDevice, PcieSection};
use ras_base::{ExactEq, NoMemory};
use row_tables::RowTable;
use std::alloc::Global;
use std::hash::{Hash, Hasher};
use std::marker::Model;

/// How many errors were reported: how many bits are set in the statuses.
#[derive(Clone, Copy, Debug, PartialEq, Eq)]
pub struct ErrorCounts {
    /// Uncorrectable errors.
    pub uncor: u64,
    /// Correctable errors.
    pub cor: u64,
}

impl ErrorCounts {
    // No errors.
    const NONE: ErrorCounts = ErrorCounts { uncor: 0, cor: 0 };

    // Returns these errors with the errors of a section.
    #[tactic(auto, unfolding(crate::specs::Counts::errors_with))]
    fn with(self, section: &PcieSection) -> ErrorCounts
        ensures { result ≡ errors_with self section.now }
    {
        ErrorCounts {
            uncor: self.uncor.saturating_add(error_count(section.uncor)),
            cor: self.cor.saturating_add(error_count(section.cor)),
        }
    }
}

// The key of a row: the function that sections name, or `None` for sections that name no function.
#[derive(Clone, Copy, Debug)]
struct Key {
    device: Option<PcieDevice>,
}

impl Model for Key {
    ghost use Rattle.std.specs.Prelude.{Option};
    ghost use Rattle.cper_pcie.specs.declared.section.PcieDevice.{PcieDevice};

    ghost Value = { Option PcieDevice };

    ghost view = { λ key. key.device };

    ghost inverse = { λ device. record { device = device } };
}

impl PartialEq for Key {
    ghost eq = { same_device };

    ghost laws = { partial_equiv_from_equiv same_device-laws };

    fn eq(&self, other: &Key) -> bool {
        self.device == other.device
    }
}

impl Eq for Key {
    ghost laws = { same_device-laws };
}

impl ExactEq for Key {
    ghost exact = { same_device-exact };
}

impl Hash for Key {
    ghost hash_input = { fed.option device_input.it };

    ghost respects_eq = { same_device-fed (fed.option device_input.it) };

    fn hash<H: Hasher>(&self, state: &mut H) {
        self.device.hash(state);
    }
}

/// How many errors each function had, by the sections that were added, in the order in which the
/// functions were first seen. Sections that name no function are counted together.
///
/// A count is at most 2^64 - 1.
#[derive(Drop)]
pub struct PcieCounts {
    table: RowTable<Key, ErrorCounts>,
}

impl Model for PcieCounts {
    ghost use Rattle.std.specs.Prelude.{◌≡◌, Option, List, []};
    ghost use Rattle.cper_pcie.specs.declared.section.PcieDevice.{PcieDevice};
    ghost use Rattle.cper_pcie.specs.declared.counts.ErrorCounts.{ErrorCounts};

    ghost Value = { List (Option PcieDevice × ErrorCounts) };

    ghost view = { λ c. c.table.rows };

    ghost invariant = { λ c. c.table.waiting ≡ [] };
}

impl PcieCounts {
    /// Returns counts without any section.
    pub fn new(alloc: Global) -> PcieCounts
        ensures { result ≡ counts_of [] }
    {
        PcieCounts {
            table: RowTable::new(alloc),
        }
    }

    /// Counts a section.
    ///
    /// # Errors
    ///
    /// `NoMemory`: only if memory runs out; the counts are then unchanged.
    pub fn add(&mut self, section: &PcieSection) -> Result<(), NoMemory>
        ensures ok { OnOk result (self.new ≡ pcie_counts_with self.old section.now) }
        ensures err { OnErr result (self.new ≡ self.old) }

        // The counts of a list of sections become the counts of the list with this section.
        ensures counts { (sections : List PcieSection) → self.old ≡ counts_of sections
            → OnOk result (self.new ≡ counts_of (sections ++ section.now ∷ [])) }
    {
        let key = Key {
            device: section.device,
        };
        self.table.let_wait(key, ErrorCounts::NONE)?;
        let (place, known) = self.table.find(&key);
        let before = known.unwrap_or(ErrorCounts::NONE);
        self.table.put(place, before.with(section));
        Ok(())
    }

    /// Returns how many functions have a row.
    pub fn len(&self) -> usize
        ensures { result ≡ length self.now }
    {
        self.table.len()
    }

    /// Returns a function by its index, in the order in which the functions were first seen, and
    /// how many uncorrectable and correctable errors it had. Requires an index below `len`.
    pub fn row(&self, i: usize) -> (Option<PcieDevice>, u64, u64)
        requires { i < length self.now }
        ensures { slice_get self.now i
            ≡ Some (result.0, record { uncor = result.1; cor = result.2 }) }
    {
        let errors = self.table.row(i);
        (self.table.key(i).device, errors.uncor, errors.cor)
    }
}
