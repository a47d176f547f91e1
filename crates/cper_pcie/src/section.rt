//! A PCI Express section.

ghost use Rattle.std.specs.Prelude.{◌≡◌, ◌↔◌, ◌<◌, ◌≤◌, length, Err};
ghost use Rattle.std.specs.Str.{bytes_eq};
ghost use Rattle.cper_pcie.specs.Section.{pcie_guid, pcie_of, pcie_device_of};
ghost use Rattle.cper_pcie.specs.declared.section.PcieRefused.TheVariants.{Short};

use ras_base::is_set;
use ras_base::little_endian::{u16_at, u32_at, u64_at};
use thiserror::Error;
use uuid::Uuid;

/// The bytes of a PCI Express section.
pub const PCIE_LENGTH: usize = 208;

// d995e954-bbc1-430f-ad91-b44dcb3c6f35
const PCIE: [u8; 16] = [
    0xd9, 0x95, 0xe9, 0x54, 0xbb, 0xc1, 0x43, 0x0f, 0xad, 0x91, 0xb4, 0x4d, 0xcb, 0x3c, 0x6f, 0x35,
];

/// A PCI Express function: its address and its ids.
#[derive(Clone, Copy, Debug, PartialEq, Eq, Hash)]
pub struct PcieDevice {
    /// The segment.
    pub segment: u16,
    /// The bus.
    pub bus: u8,
    /// The number of the device on the bus.
    pub device: u8,
    /// The number of the function in the device.
    pub function: u8,
    /// The vendor's number.
    pub vendor: u16,
    /// The vendor's number for the device.
    pub id: u16,
}

/// What a PCI Express section says. Each field is there if and only if its validation bit is set.
#[derive(Clone, Copy, Debug, PartialEq, Eq)]
pub struct PcieSection {
    /// The function that had the errors.
    pub device: Option<PcieDevice>,
    /// The function's uncorrectable error status, a bit for each kind of error.
    pub uncor: Option<u32>,
    /// The function's correctable error status, a bit for each kind of error.
    pub cor: Option<u32>,
}

/// Why a PCI Express section can't be read.
#[derive(Clone, Copy, Debug, PartialEq, Eq, Error)]
pub enum PcieRefused {
    /// The section has fewer than 208 bytes.
    #[error("the section has fewer bytes than the fixed fields of its type")]
    Short,
}

/// Returns whether this GUID is the type of PCI Express sections. (UEFI, appendix N, "Section
/// Descriptor".)
#[tactic(auto, unfolding(crate::specs::Section::pcie_guid))]
pub fn is_pcie(guid: Uuid) -> bool
    ensures { result ≡ bytes_eq guid pcie_guid }
{
    *guid.as_bytes() == PCIE
}

/// Returns which function a PCI Express section names, and which errors it reports. Its other
/// fields and the bytes after the 208th are ignored. Allocates nothing. (UEFI, appendix N, "PCI
/// Express Error Section".)
///
/// # Errors
///
/// `Short`: if and only if there are fewer than 208 bytes.
#[tactic(auto, unfolding(crate::specs::Section::pcie_of))]
pub fn read_pcie(bytes: &[u8]) -> Result<PcieSection, PcieRefused>
    ensures section { result ≡ pcie_of bytes.now }
    ensures short { (result ≡ Err Short) ↔ (length bytes.now < PCIE_LENGTH) }
{
    if bytes.len() < PCIE_LENGTH {
        return Err(PcieRefused::Short);
    }
    let validation = u64_at(bytes, 0);
    let has_device = is_set(3, validation);
    let has_errors = is_set(7, validation);
    Ok(PcieSection {
        device: has_device.then_some(device_at(bytes)),
        uncor: has_errors.then_some(u32_at(bytes, 116)),
        cor: has_errors.then_some(u32_at(bytes, 128)),
    })
}

// Returns the function at its place in a section, whether its validation bit is set or not.
#[tactic(auto, unfolding(crate::specs::Section::pcie_device_of))]
fn device_at(bytes: &[u8]) -> PcieDevice
    requires { PCIE_LENGTH ≤ length bytes.now }
    ensures { result ≡ pcie_device_of bytes.now }
{
    PcieDevice {
        segment: u16_at(bytes, 33),
        bus: bytes[35],
        device: bytes[32],
        function: bytes[31],
        vendor: u16_at(bytes, 24),
        id: u16_at(bytes, 26),
    }
}
