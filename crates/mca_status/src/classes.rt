//! The class of a bank's error.

ghost use Rattle.std.specs.Prelude.{◌≡◌, ◌↔◌, ◌&&◌, not, IsTrue, IsSome, [], ◌∷◌};
ghost use Rattle.std.specs.Bool.{IsFalse};
ghost use Rattle.mca_status.specs.Registers.{valid, uncorrected, recovers_in_software};
ghost use Rattle.mca_status.specs.Classes.{class_of_rows, ClassIgnores};

use crate::registers::{Cap, Status};

/// The class of an error that a bank holds.
#[derive(Clone, Copy, Debug, PartialEq, Eq)]
pub enum Class {
    /// Corrected by the hardware.
    Ce,
    /// Uncorrected, no action required.
    Ucna,
    /// Software recoverable, action optional.
    Srao,
    /// Software recoverable, action required.
    Srar,
    /// Uncorrected, with no way to recover.
    Uc,
    /// Uncorrected, with a setting of S, AR and EN that has no class in the manual.
    Odd,
}

/// How many classes of items there are.
pub const CLASS_COUNT: usize = 10;

/// The class of an item of a report: a bank's class, or the severity of a firmware record.
#[derive(Clone, Copy, Debug, PartialEq, Eq)]
pub enum ItemClass {
    /// Of a bank: corrected by the hardware.
    Ce,
    /// Of a bank: uncorrected, no action required.
    Ucna,
    /// Of a bank: software recoverable, action optional.
    Srao,
    /// Of a bank: software recoverable, action required.
    Srar,
    /// Of a bank: uncorrected, with no way to recover.
    Uc,
    /// Of a bank: uncorrected, with a setting of S, AR and EN that has no class in the manual.
    Odd,
    /// Of a firmware record: severity corrected.
    Corrected,
    /// Of a firmware record: severity recoverable.
    Recoverable,
    /// Of a firmware record: severity fatal.
    Fatal,
    /// Of a firmware record: severity informational.
    Informational,
}

impl ItemClass {
    ghost use Rattle.mca_status.specs.Classes.{class_number};

    /// Returns the class's number among the ten, from 0.
    pub fn number(self) -> u8
        ensures { result ≡ class_number self }
    {
        match self {
            ItemClass::Ce => 0,
            ItemClass::Ucna => 1,
            ItemClass::Srao => 2,
            ItemClass::Srar => 3,
            ItemClass::Uc => 4,
            ItemClass::Odd => 5,
            ItemClass::Corrected => 6,
            ItemClass::Recoverable => 7,
            ItemClass::Fatal => 8,
            ItemClass::Informational => 9,
        }
    }
}

impl From<Class> for ItemClass {
    ghost use Rattle.mca_status.specs.Classes.{item_class_of};

    ghost from_gives = { λ class result. result ≡ item_class_of class };

    fn from(class: Class) -> Self {
        match class {
            Class::Ce => ItemClass::Ce,
            Class::Ucna => ItemClass::Ucna,
            Class::Srao => ItemClass::Srao,
            Class::Srar => ItemClass::Srar,
            Class::Uc => ItemClass::Uc,
            Class::Odd => ItemClass::Odd,
        }
    }
}

/// Returns the class of the error that a bank holds, by IA32_MCG_CAP and the bank's
/// IA32_MCi_STATUS; `None` if and only if VAL is 0. (Intel SDM, volume 3, "UCR Error
/// Classification".)
pub fn class_of(cap: Cap, status: Status) -> Option<Class>
    ensures rows { result ≡ class_of_rows cap status }
    ensures held { IsSome result ↔ IsTrue (valid status) }

    // An error is Ce if and only if the bank holds one that the hardware corrected.
    ensures corrected { (result ≡ Some Class.Ce)
        ↔ IsTrue (valid status && not (uncorrected status)) }

    // OVER, at bit 62, never changes the class.
    ensures overflow_ignored { ClassIgnores (62 ∷ []) cap status }

    // AR and S, at bits 55 and 56, don't matter if the processor has no software error recovery.
    ensures recovery_ignored { IsFalse (recovers_in_software cap)
        → ClassIgnores (55 ∷ 56 ∷ []) cap status }
{
    if status.is_valid() {
        Some(held_class(cap, status))
    } else {
        None
    }
}

// The class of the error that a bank holds.
fn held_class(cap: Cap, status: Status) -> Class
    requires { IsTrue (valid status) }
    ensures rows { class_of_rows cap status ≡ Some result }
    ensures corrected { (result ≡ Class.Ce) ↔ IsTrue (not (uncorrected status)) }
{
    if !status.is_uncorrected() {
        return Class::Ce;
    }
    if status.is_context_corrupt() || !cap.recovers_in_software() {
        return Class::Uc;
    }
    let signaled = status.is_signaled();
    let enabled = status.is_enabled();
    let action_required = status.is_action_required();
    match (signaled, enabled, action_required) {
        (false, _, false) => Class::Ucna,
        (false, _, true) | (true, false, _) => Class::Odd,
        (true, true, false) => Class::Srao,
        (true, true, true) => Class::Srar,
    }
}
