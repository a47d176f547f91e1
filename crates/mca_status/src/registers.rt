//! The registers, each a number as read, and their single bits.

ghost use Rattle.std.specs.Prelude.{◌≡◌, ◌<◌, ◌^◌};

use ras_base::{bits, is_set};

/// IA32_MCi_STATUS of a bank, as read.
#[derive(Clone, Copy, Debug, PartialEq, Eq)]
pub struct Status(pub u64);

/// IA32_MCG_CAP, as read: what the processor's banks can do.
#[derive(Clone, Copy, Debug, PartialEq, Eq)]
pub struct Cap(pub u64);

/// IA32_MCi_MISC of a bank, as read.
#[derive(Clone, Copy, Debug, PartialEq, Eq)]
pub struct Misc(pub u64);

/// IA32_MCG_STATUS, as read: the processor's state at the machine check.
#[derive(Clone, Copy, Debug, PartialEq, Eq)]
pub struct GlobalStatus(pub u64);

impl Cap {
    ghost use Rattle.mca_status.specs.Registers.{counts_corrected, tells_threshold, recovers_in_software};

    /// Returns MCG_CMCI_P: whether the banks count corrected errors.
    pub fn counts_corrected(self) -> bool
        ensures { result ≡ counts_corrected self }
    {
        is_set(10, self.0)
    }

    /// Returns MCG_TES_P: whether the banks report a threshold status.
    pub fn tells_threshold(self) -> bool
        ensures { result ≡ tells_threshold self }
    {
        is_set(11, self.0)
    }

    /// Returns MCG_SER_P: whether the processor has software error recovery.
    pub fn recovers_in_software(self) -> bool
        ensures { result ≡ recovers_in_software self }
    {
        is_set(24, self.0)
    }
}

impl GlobalStatus {
    ghost use Rattle.mca_status.specs.Registers.{restart_valid, error_pointer_valid, in_progress};

    /// Returns RIPV: whether the interrupted program can be restarted.
    pub fn is_restart_valid(self) -> bool
        ensures { result ≡ restart_valid self }
    {
        is_set(0, self.0)
    }

    /// Returns EIPV: whether the instruction pointer belongs to the error.
    pub fn is_error_pointer_valid(self) -> bool
        ensures { result ≡ error_pointer_valid self }
    {
        is_set(1, self.0)
    }

    /// Returns MCIP: whether a machine check is in progress.
    pub fn is_in_progress(self) -> bool
        ensures { result ≡ in_progress self }
    {
        is_set(2, self.0)
    }
}

impl Status {
    ghost use Rattle.mca_status.specs.Registers.{valid, overflow, uncorrected, enabled, misc_valid, address_valid, context_corrupt, signaled, action_required, error_code, corrected_count, threshold_status};

    /// Returns VAL: whether the bank has an error.
    pub fn is_valid(self) -> bool
        ensures { result ≡ valid self }
    {
        is_set(63, self.0)
    }

    /// Returns OVER: whether an earlier error of the bank was lost.
    pub fn overflow(self) -> bool
        ensures { result ≡ overflow self }
    {
        is_set(62, self.0)
    }

    /// Returns UC: whether the hardware left the error uncorrected.
    pub fn is_uncorrected(self) -> bool
        ensures { result ≡ uncorrected self }
    {
        is_set(61, self.0)
    }

    /// Returns EN: whether the error was enabled in IA32_MCi_CTL.
    pub fn is_enabled(self) -> bool
        ensures { result ≡ enabled self }
    {
        is_set(60, self.0)
    }

    /// Returns MISCV: whether IA32_MCi_MISC says more about the error.
    pub fn is_misc_valid(self) -> bool
        ensures { result ≡ misc_valid self }
    {
        is_set(59, self.0)
    }

    /// Returns ADDRV: whether IA32_MCi_ADDR has an address.
    pub fn is_address_valid(self) -> bool
        ensures { result ≡ address_valid self }
    {
        is_set(58, self.0)
    }

    /// Returns PCC: whether the processor's context is corrupt.
    pub fn is_context_corrupt(self) -> bool
        ensures { result ≡ context_corrupt self }
    {
        is_set(57, self.0)
    }

    /// Returns S, if MCG_SER_P is 1: whether the error was signaled by a machine-check exception.
    pub fn is_signaled(self) -> bool
        ensures { result ≡ signaled self }
    {
        is_set(56, self.0)
    }

    /// Returns AR, if MCG_SER_P is 1: whether software has to act before the program goes on.
    pub fn is_action_required(self) -> bool
        ensures { result ≡ action_required self }
    {
        is_set(55, self.0)
    }

    /// Returns the MCA error code, bits 15:0.
    pub fn error_code(self) -> u16
        ensures code { result ≡ error_code self }
    {
        bits(0, 16, self.0) as u16
    }

    /// Returns the corrected error count, bits 52:38, whether or not the processor counts errors.
    pub fn corrected_count(self) -> u16
        ensures count { result ≡ corrected_count self }
        ensures within_field { result < 2 ^ 15 }
    {
        bits(38, 15, self.0) as u16
    }

    /// Returns the threshold status, bits 54:53, whether or not the banks report one.
    pub fn threshold_status(self) -> u8
        ensures value { result ≡ threshold_status self }
        ensures within_field { result < 4 }
    {
        bits(53, 2, self.0) as u8
    }
}

impl Misc {
    ghost use Rattle.mca_status.specs.Registers.{least_bit, address_mode};

    /// Returns the lowest bit of the address that is valid. Meaningful if MCG_SER_P is 1.
    pub fn least_bit(self) -> u32
        ensures bit { result ≡ least_bit self }
        ensures within_field { result < 64 }
    {
        bits(0, 6, self.0) as u32
    }

    /// Returns the address mode: 0 is a segment offset, 1 a linear address, 2 a physical one, 3 a
    /// memory address, 7 generic. Meaningful if MCG_SER_P is 1.
    pub fn address_mode(self) -> u8
        ensures mode { result ≡ address_mode self }
        ensures within_field { result < 8 }
    {
        bits(6, 3, self.0) as u8
    }
}
