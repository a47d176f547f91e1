//! The numbers of PCI Express sections.

ghost use Rattle.std.specs.Prelude.{◌≡◌};
ghost use Rattle.cper_pcie.specs.declared.reports.TheConstants.{STORED_LENGTH};
ghost use Rattle.cper_pcie.specs.declared.section.TheConstants.{PCIE_LENGTH};

/// The numbers that the definitions name have these digits: the length of a section, of UEFI 2.10,
/// appendix N.2.7, and the length of the store's longest record.
pub fn numbers_in_digits()
    ensures section { PCIE_LENGTH ≡ 208 }
    ensures stored { STORED_LENGTH ≡ 16384 }
{}
