//! PCI Express sections of CPER records, the errors that they count for each device, and a filter
//! that prints them for a script. It follows the UEFI specification, appendix N, "PCI Express Error
//! Section".
//!
//! A public function with an empty body is a law: its clauses are the point.
#![tactic(auto)]

mod bits;
mod counted;
mod counts;
mod filter;
mod laws;
mod reports;
mod section;
mod texts;
mod totals;

pub use bits::{correctable_name, uncorrectable_name};
pub use counts::{ErrorCounts, PcieCounts};
pub use filter::PcieFilter;
pub use laws::numbers_in_digits;
pub use reports::STORED_LENGTH;
pub use section::{PCIE_LENGTH, PcieDevice, PcieRefused, PcieSection, is_pcie, read_pcie};
