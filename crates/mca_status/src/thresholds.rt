//! The threshold status of a bank's corrected errors.

ghost use Rattle.std.specs.Prelude.{◌≡◌, ◌↔◌};
ghost use Rattle.std.specs.Bool.{IsFalse};
ghost use Rattle.mca_status.specs.Thresholds.{is_threshold_told, threshold_of};

use crate::registers::{Cap, Status};

/// The threshold status of a bank.
#[derive(Clone, Copy, Debug, PartialEq, Eq)]
pub enum Threshold {
    /// The bank reports no threshold status.
    Untold,
    /// The hardware doesn't track the bank's corrected errors.
    NoTracking,
    /// The bank's corrected errors are below the threshold.
    Green,
    /// The bank's corrected errors are at the threshold or above it.
    Yellow,
    /// A value that the manual reserves.
    Reserved,
}

/// Returns the threshold status of a bank, bits 54:53 of IA32_MCi_STATUS. It is `Untold` if and
/// only if MCG_TES_P is 0 or UC is 1. (Intel SDM, volume 3, "IA32_MCi_STATUS MSRs".)
pub fn threshold_of(cap: Cap, status: Status) -> Threshold
    ensures threshold { result ≡ threshold_of cap status }
    ensures untold { (result ≡ Threshold.Untold) ↔ IsFalse (is_threshold_told cap status) }
{
    if !cap.tells_threshold() || status.is_uncorrected() {
        return Threshold::Untold;
    }
    match status.threshold_status() {
        0 => Threshold::NoTracking,
        1 => Threshold::Green,
        2 => Threshold::Yellow,
        _ => Threshold::Reserved,
    }
}
