//! How many errors a bank's report counts for.

ghost use Rattle.std.specs.Prelude.{◌≡◌, ◌<◌, ◌^◌, max, IsTrue};
ghost use Rattle.std.specs.Bool.{IsFalse};
ghost use Rattle.mca_status.specs.Registers.{corrected_count};
ghost use Rattle.mca_status.specs.Weight.{count_applies, weight_of};

use crate::registers::{Cap, Status};

/// Returns the weight of a bank's report: the corrected error count if MCG_CMCI_P is 1, UC is 0 and
/// the count isn't 0; else 1. (Intel SDM, volume 3, "IA32_MCi_STATUS MSRs".)
pub fn weight_of(cap: Cap, status: Status) -> u16
    ensures weight { result ≡ weight_of cap status }
    ensures positive { 0 < result }
    ensures within_field { result < 2 ^ 15 }
    ensures counted { IsTrue (count_applies cap status) → result ≡ max 1 (corrected_count status) }
    ensures single { IsFalse (count_applies cap status) → result ≡ 1 }
{
    if cap.counts_corrected() && !status.is_uncorrected() {
        status.corrected_count().max(1)
    } else {
        1
    }
}
