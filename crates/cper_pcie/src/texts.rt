//! Prints the lines for sections, and for their totals.

ghost use Rattle.std.specs.Prelude.{◌≡◌, ◌<◌, ◌++◌, OnOk};
ghost use Rattle.cper_pcie.specs.Texts.{bit_name, bits_text, device_line, pcie_end_line, few_digits};
ghost use Rattle.cper_pcie.specs.Texts.{four_digits, id_text, place_text, read_text};
ghost use Rattle.cper_pcie.specs.Texts.{status_text, told_device, two_digits};
ghost use Rattle.cper_pcie.specs.Steps.TextSteps.{end_text, line_of_section, bit_names_of, next_bit_text};

use crate::bits::{correctable_name, uncorrectable_name};
use crate::section::{PcieDevice, PcieRefused, PcieSection};
use ras_base::{NoMemory, is_set, push_number};
use ras_facts::{Name, severity_class};
use ras_texts::{class_word, push_name};

// One of the two statuses of a section.
#[derive(Clone, Copy, Debug, PartialEq, Eq)]
pub(crate) enum Kind {
    Uncorrectable,
    Correctable,
}

// Appends the line of a section of the report with this name.
pub(crate) fn push_section(
    text: &mut Vec<u8>,
    name: &Name,
    severity: u32,
    section: &Result<PcieSection, PcieRefused>,
) -> Result<(), NoMemory>
    ensures { OnOk result (text.new.items ≡ text.old.items
        ++ line_of_section name.now severity section.now) }
{
    text.extend_from_slice(b"pcie ")?;
    push_name(text, name)?;
    match section {
        Ok(section) => push_read(text, severity, section)?,
        Err(_) => text.extend_from_slice(b" short")?,
    }
    text.push(b'\n')?;
    Ok(())
}

// Appends what a section says that can be read.
#[tactic(auto, unfolding(crate::specs::Texts::read_text))]
fn push_read(text: &mut Vec<u8>, severity: u32, section: &PcieSection) -> Result<(), NoMemory>
    ensures { OnOk result (text.new.items ≡ text.old.items ++ read_text severity section.now) }
{
    text.extend_from_slice(b" device=")?;
    push_place(text, section.device)?;
    text.extend_from_slice(b" id=")?;
    push_id(text, section.device)?;
    text.extend_from_slice(b" severity=")?;
    text.extend_from_slice(class_word(severity_class(severity)))?;
    text.extend_from_slice(b" uncor=")?;
    push_status(text, Kind::Uncorrectable, section.uncor)?;
    text.extend_from_slice(b" cor=")?;
    push_status(text, Kind::Correctable, section.cor)
}

// Appends the line of a function's errors.
pub(crate) fn push_device(
    text: &mut Vec<u8>,
    device: Option<PcieDevice>,
    uncor: u64,
    cor: u64,
) -> Result<(), NoMemory>
    ensures { OnOk result (text.new.items
        ≡ text.old.items ++ device_line (device, record { uncor = uncor; cor = cor })) }
{
    text.extend_from_slice(b"device=")?;
    push_place(text, device)?;
    text.extend_from_slice(b" uncor=")?;
    push_number(text, uncor)?;
    text.extend_from_slice(b" cor=")?;
    push_number(text, cor)?;
    text.push(b'\n')?;
    Ok(())
}

// Appends the line with the numbers of sections and of functions.
pub(crate) fn push_end(text: &mut Vec<u8>, sections: u64, devices: u64) -> Result<(), NoMemory>
    ensures { OnOk result (text.new.items ≡ text.old.items ++ end_text sections devices) }
{
    text.extend_from_slice(b"end sections=")?;
    push_number(text, sections)?;
    text.extend_from_slice(b" devices=")?;
    push_number(text, devices)?;
    text.push(b'\n')?;
    Ok(())
}

// Appends the address of a function, if the section names one.
#[tactic(auto, unfolding(crate::specs::Texts::place_text))]
fn push_place(text: &mut Vec<u8>, device: Option<PcieDevice>) -> Result<(), NoMemory>
    ensures { OnOk result (text.new.items ≡ text.old.items ++ told_device place_text device) }
{
    let Some(device) = device else {
        text.extend_from_slice(b"-")?;
        return Ok(());
    };
    text.extend_from_slice(&four_digits(device.segment))?;
    text.push(b':')?;
    text.extend_from_slice(&two_digits(device.bus))?;
    text.push(b':')?;
    text.extend_from_slice(&two_digits(device.device))?;
    text.push(b'.')?;
    push_few_digits(text, device.function)
}

// Appends the ids of a function, if the section names one.
#[tactic(auto, unfolding(crate::specs::Texts::id_text))]
fn push_id(text: &mut Vec<u8>, device: Option<PcieDevice>) -> Result<(), NoMemory>
    ensures { OnOk result (text.new.items ≡ text.old.items ++ told_device id_text device) }
{
    let Some(device) = device else {
        text.extend_from_slice(b"-")?;
        return Ok(());
    };
    text.extend_from_slice(&four_digits(device.vendor))?;
    text.push(b':')?;
    text.extend_from_slice(&four_digits(device.id))?;
    Ok(())
}

// Returns a number in four hexadecimal digits.
fn four_digits(number: u16) -> [u8; 4]
    ensures { result ≡ four_digits number }
{
    let mut digits = [0u8; 4];
    let _ = hex::encode_to_slice(number.to_be_bytes(), &mut digits);
    digits
}

// Returns a number in two hexadecimal digits.
fn two_digits(number: u8) -> [u8; 2]
    ensures { result ≡ two_digits number }
{
    let mut digits = [0u8; 2];
    let _ = hex::encode_to_slice([number], &mut digits);
    digits
}

// Appends a number in hexadecimal digits, without zeros before it.
fn push_few_digits(text: &mut Vec<u8>, number: u8) -> Result<(), NoMemory>
    ensures { OnOk result (text.new.items ≡ text.old.items ++ few_digits number) }
{
    let digits = two_digits(number);
    if number < 16 {
        text.extend_from_slice(&digits[1..])?;
    } else {
        text.extend_from_slice(&digits)?;
    }
    Ok(())
}

// Appends the bits of a status, if there is a status.
fn push_status(text: &mut Vec<u8>, kind: Kind, status: Option<u32>) -> Result<(), NoMemory>
    ensures { OnOk result
        (text.new.items ≡ text.old.items ++ status_text (bit_names_of kind) status) }
{
    match status {
        Some(status) => push_bits(text, kind, status),
        None => Ok(text.extend_from_slice(b"-")?),
    }
}

// Appends the names of the bits that are set.
fn push_bits(text: &mut Vec<u8>, kind: Kind, status: u32) -> Result<(), NoMemory>
    ensures { OnOk result (text.new.items ≡ text.old.items ++ bits_text (bit_names_of kind) status) }
{
    let mut is_first = true;
    for bit in 0..32 {
        if is_set(bit, u64::from(status)) {
            push_next_bit(text, kind, bit, is_first)?;
            is_first = false;
        }
    }
    if is_first {
        text.extend_from_slice(b"-")?;
    }
    Ok(())
}

// Appends the name of a bit, after a comma unless it is the first.
fn push_next_bit(text: &mut Vec<u8>, kind: Kind, bit: u32, is_first: bool) -> Result<(), NoMemory>
    ensures { OnOk result (text.new.items
        ≡ text.old.items ++ next_bit_text is_first (bit_name (bit_names_of kind) bit)) }
{
    if !is_first {
        text.push(b',')?;
    }
    push_bit(text, kind, bit)
}

// Appends the name of a bit, or its number if it has no name.
fn push_bit(text: &mut Vec<u8>, kind: Kind, bit: u32) -> Result<(), NoMemory>
    ensures { OnOk result (text.new.items ≡ text.old.items ++ bit_name (bit_names_of kind) bit) }
{
    let name = match kind {
        Kind::Uncorrectable => uncorrectable_name(bit),
        Kind::Correctable => correctable_name(bit),
    };
    match name {
        Some(name) => text.extend_from_slice(name)?,
        None => {
            text.extend_from_slice(b"bit-")?;
            push_number(text, u64::from(bit))?;
        }
    }
    Ok(())
}
