//! Writes the PCI Express section of an event.

ghost use Rattle.std.specs.Prelude.{◌≡◌, ◌++◌, OnOk};
ghost use Rattle.event_lines.specs.PcieBytes.{aer_bytes, correctable_by, device_bytes, tlp_bytes};
ghost use Rattle.event_lines.specs.PcieBytes.{pcie_section_bytes, uncorrectable_by};

use crate::aer::{AerDevice, AerEvent, AerSeverity, TlpHeader};
use ras_base::NoMemory;
use ras_base::little_endian::{push_u16, push_u32, push_u64};

/// The type of PCI Express sections, as a block has it: d995e954-bbc1-430f-ad91-b44dcb3c6f35.
pub(crate) const PCIE_TYPE: [u8; 16] = [
    0x54, 0xe9, 0x95, 0xd9, 0xc1, 0xbb, 0x0f, 0x43, 0xad, 0x91, 0xb4, 0x4d, 0xcb, 0x3c, 0x6f, 0x35,
];

// Bit 3: the device is valid; bit 7: the errors are valid.
const DEVICE_AND_ERRORS: u64 = 1 << 3 | 1 << 7;

// Appends the PCI Express section of an event.
#[tactic(auto, unfolding(crate::specs::PcieBytes::pcie_section_bytes))]
pub(crate) fn push_pcie_section(bytes: &mut Vec<u8>, event: AerEvent) -> Result<(), NoMemory>
    ensures { OnOk result (bytes.new.items ≡ bytes.old.items ++ pcie_section_bytes event) }
{
    push_u64(bytes, DEVICE_AND_ERRORS)?;
    bytes.extend_from_slice(&[0u8; 16])?;
    push_device(bytes, event.device)?;
    bytes.extend_from_slice(&[0u8; 72])?;
    push_errors(bytes, event)
}

// Appends the 16 bytes of a function.
#[tactic(auto, unfolding(crate::specs::PcieBytes::device_bytes))]
fn push_device(bytes: &mut Vec<u8>, at: AerDevice) -> Result<(), NoMemory>
    ensures { OnOk result (bytes.new.items ≡ bytes.old.items ++ device_bytes at) }
{
    bytes.extend_from_slice(&[0u8; 7])?;
    bytes.extend_from_slice(&[at.function, at.device])?;
    push_u16(bytes, at.segment)?;
    bytes.push(at.bus)?;
    bytes.extend_from_slice(&[0u8; 4])?;
    Ok(())
}

// Appends the 96 bytes of the capability for advanced error reporting.
#[tactic(auto, unfolding(crate::specs::PcieBytes::aer_bytes))]
fn push_errors(bytes: &mut Vec<u8>, event: AerEvent) -> Result<(), NoMemory>
    ensures { OnOk result (bytes.new.items ≡ bytes.old.items ++ aer_bytes event) }
{
    bytes.extend_from_slice(&[0u8; 4])?;
    push_u32(bytes, uncorrectable_by(event.severity, event.status))?;
    bytes.extend_from_slice(&[0u8; 8])?;
    push_u32(bytes, correctable_by(event.severity, event.status))?;
    bytes.extend_from_slice(&[0u8; 8])?;
    push_header(bytes, event.header)?;
    bytes.extend_from_slice(&[0u8; 52])?;
    Ok(())
}

// Appends the 16 bytes of a packet's header.
#[tactic(auto, unfolding(crate::specs::PcieBytes::tlp_bytes))]
fn push_header(bytes: &mut Vec<u8>, header: TlpHeader) -> Result<(), NoMemory>
    ensures { OnOk result (bytes.new.items ≡ bytes.old.items ++ tlp_bytes header) }
{
    match header {
        TlpHeader::Missing => {
            bytes.extend_from_slice(&[0u8; 16])?;
            Ok(())
        }
        TlpHeader::Logged {
            first,
            second,
            third,
            fourth,
        } => {
            push_u32(bytes, first)?;
            push_u32(bytes, second)?;
            push_u32(bytes, third)?;
            push_u32(bytes, fourth)
        }
    }
}

// Returns the status of uncorrectable errors, from the status of an error of this severity.
fn uncorrectable_by(severity: AerSeverity, status: u32) -> u32
    ensures { result ≡ uncorrectable_by severity status }
{
    match severity {
        AerSeverity::Corrected => 0,
        AerSeverity::Fatal | AerSeverity::NonFatal => status,
    }
}

// Returns the status of correctable errors, from the status of an error of this severity.
fn correctable_by(severity: AerSeverity, status: u32) -> u32
    ensures { result ≡ correctable_by severity status }
{
    match severity {
        AerSeverity::Corrected => status,
        AerSeverity::Fatal | AerSeverity::NonFatal => 0,
    }
}
