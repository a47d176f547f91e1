//! The address that a bank's report names, and its page.

ghost use Rattle.std.specs.Prelude.{◌≡◌, ◌↔◌, ◌<◌, ◌≤◌, ◌+◌, ◌%◌, ◌/◌, ◌^◌, IsTrue, IsSome, IfSome};
ghost use Rattle.mca_status.specs.Registers.{least_bit};
ghost use Rattle.mca_status.specs.Address.{rounded_address, has_usable_address, usable_address_of, usable_page_of};

use crate::registers::{Cap, Misc, Status};

// The address mode of a physical address.
const PHYSICAL: u8 = 2;

// A page of memory is 2 ^ 12 bytes.
const PAGE_BITS: u32 = 12;

/// Returns the physical address that a bank's report names, by IA32_MCG_CAP and the bank's
/// IA32_MCi_STATUS, IA32_MCi_ADDR and IA32_MCi_MISC, with all bits below the least valid one
/// cleared. It is `Some` if and only if MCG_SER_P, ADDRV and MISCV are 1, the address mode is 2
/// (physical) and the least valid bit is at most 12. (Intel SDM, volume 3, "IA32_MCi_ADDR MSRs" and
/// "IA32_MCi_MISC MSRs".)
pub fn usable_address(cap: Cap, status: Status, addr: u64, misc: Misc) -> Option<u64>
    ensures address { result ≡ usable_address_of cap status addr misc }
    ensures usable { IsSome result ↔ IsTrue (has_usable_address cap status misc) }
    ensures not_above { IfSome result (λ address. address ≤ addr) }
    ensures near { IfSome result (λ address. addr < address + 2 ^ least_bit misc) }
    ensures whole { IfSome result (λ address. address % 2 ^ least_bit misc ≡ 0) }
    ensures same_page { IfSome result (λ address. address / 4096 ≡ addr / 4096) }
{
    let held = cap.recovers_in_software() && status.is_address_valid() && status.is_misc_valid();
    let least_bit = misc.least_bit();
    if held && misc.address_mode() == PHYSICAL && least_bit <= PAGE_BITS {
        Some(round_down(addr, least_bit))
    } else {
        None
    }
}

// The address with all bits below the least valid one cleared.
fn round_down(address: u64, least_bit: u32) -> u64
    requires { least_bit < 64 }
    ensures rounded { result ≡ rounded_address address least_bit }
    ensures not_above { result ≤ address }
    ensures near { address < result + 2 ^ least_bit }
    ensures whole { result % 2 ^ least_bit ≡ 0 }
    ensures same_page { least_bit ≤ 12 → result / 4096 ≡ address / 4096 }
{
    address & (u64::MAX << least_bit)
}

/// Returns the number of the page of 4,096 bytes that contains the usable address. It is `None` if
/// and only if `usable_address` returns `None`.
pub fn usable_page(cap: Cap, status: Status, addr: u64, misc: Misc) -> Option<u64>
    ensures page { result ≡ usable_page_of cap status addr misc }
    ensures usable { IsSome result ↔ IsTrue (has_usable_address cap status misc) }

    // Rounding the address down never leaves its page.
    ensures of_address { IfSome result (λ page. page ≡ addr / 4096) }
{
    usable_address(cap, status, addr, misc).map(|address| address >> PAGE_BITS)
}
