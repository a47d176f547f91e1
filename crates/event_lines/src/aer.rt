//! Reads the text of the event `aer_event`, a PCI Express error that the kernel's driver for
//! advanced error reporting found.

ghost use Rattle.std.specs.Prelude.{◌≡◌};
ghost use Rattle.event_lines.specs.Aer.{aer_event_of, aer_device_of, errors_told, header_of, logged_header};
ghost use Rattle.event_lines.specs.Aer.{cper_severity, aer_told};

use crate::flags::{hexadecimal_to, status_of, word_of};
use bank_lines::{cut, value_after};
use ras_script::decimal;

/// A PCI Express function, by its address.
#[derive(Clone, Copy, Debug, PartialEq, Eq)]
pub struct AerDevice {
    /// The segment.
    pub segment: u16,
    /// The bus.
    pub bus: u8,
    /// The number of the device on the bus.
    pub device: u8,
    /// The number of the function in the device.
    pub function: u8,
}

/// How severe a PCI Express error is.
#[derive(Clone, Copy, Debug, PartialEq, Eq)]
pub enum AerSeverity {
    /// The hardware corrected the error.
    Corrected,
    /// The link can't be relied on any more.
    Fatal,
    /// The error wasn't corrected; the link works on.
    NonFatal,
}

/// The header of the packet in which an error was found.
#[derive(Clone, Copy, Debug, PartialEq, Eq)]
pub enum TlpHeader {
    /// The hardware logged no header.
    Missing,
    /// The header, as four words.
    Logged {
        first: u32,
        second: u32,
        third: u32,
        fourth: u32,
    },
}

/// The event of a PCI Express error. The status has a bit for each kind of error: of the
/// correctable errors if the error was corrected, otherwise of the uncorrectable errors.
#[derive(Clone, Copy, Debug, PartialEq, Eq)]
pub struct AerEvent {
    /// The function that reported the error.
    pub device: AerDevice,
    /// How severe the error is.
    pub severity: AerSeverity,
    /// The kinds of error.
    pub status: u32,
    /// The header of the packet.
    pub header: TlpHeader,
}

impl AerSeverity {
    // Returns the severity's number in a block.
    pub(crate) fn number(self) -> u32
        ensures { result ≡ cper_severity self }
    {
        match self {
            AerSeverity::NonFatal => 0,
            AerSeverity::Fatal => 1,
            AerSeverity::Corrected => 2,
        }
    }
}

// Returns what the event's text says, if it can be read:
// `<device> PCIe Bus Error: severity=<severity>, <flags>, TLP Header=<header>`.
pub(crate) fn aer_event(text: &[u8]) -> Option<AerEvent>
    ensures { result ≡ aer_event_of text.now }
{
    let (name, rest) = cut(b' ', text);
    let device = aer_device_of(name)?;
    let told = value_after(b"PCIe Bus Error: severity=", rest)?;
    errors_told(device, told)
}

// Returns the function of a name `<segment>:<bus>:<device>.<function>`.
fn aer_device_of(name: &[u8]) -> Option<AerDevice>
    ensures { result ≡ aer_device_of name.now }
{
    let (segment, rest) = cut(b':', name);
    let (bus, rest) = cut(b':', rest);
    let (device, function) = cut(b'.', rest);
    Some(AerDevice {
        segment: hexadecimal_to(u64::from(u16::MAX), segment)? as u16,
        bus: hexadecimal_to(u64::from(u8::MAX), bus)? as u8,
        device: hexadecimal_to(31, device)? as u8,
        function: decimal(function, 7)? as u8,
    })
}

// Returns the event of a function, from the severity on.
fn errors_told(device: AerDevice, text: &[u8]) -> Option<AerEvent>
    ensures { result ≡ errors_told device text.now }
{
    if let Some(told) = value_after(b"Corrected, ", text) {
        return aer_told(device, AerSeverity::Corrected, told);
    }
    if let Some(told) = value_after(b"Fatal, ", text) {
        return aer_told(device, AerSeverity::Fatal, told);
    }
    let told = value_after(b"Uncorrected, non-fatal, ", text)?;
    aer_told(device, AerSeverity::NonFatal, told)
}

// Returns the event of a function, from the flags on.
fn aer_told(device: AerDevice, severity: AerSeverity, text: &[u8]) -> Option<AerEvent>
    ensures { result ≡ aer_told device severity text.now }
{
    let (flags, rest) = cut(b',', text);
    Some(AerEvent {
        device,
        severity,
        status: status_of(severity, flags)?,
        header: header_of(value_after(b" TLP Header=", rest)?)?,
    })
}

// Returns the header of a packet, if it can be read.
fn header_of(text: &[u8]) -> Option<TlpHeader>
    ensures { result ≡ header_of text.now }
{
    if text == b"Not available".as_slice() {
        return Some(TlpHeader::Missing);
    }
    logged_header(value_after(b"{", text)?.strip_suffix(b"}")?)
}

// Returns the header that four words between commas give.
fn logged_header(text: &[u8]) -> Option<TlpHeader>
    ensures { result ≡ logged_header text.now }
{
    let (first, rest) = cut(b',', text);
    let (second, rest) = cut(b',', rest);
    let (third, fourth) = cut(b',', rest);
    Some(TlpHeader::Logged {
        first: word_of(first)?,
        second: word_of(second)?,
        third: word_of(third)?,
        fourth: word_of(fourth)?,
    })
}
