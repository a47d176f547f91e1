//! Panic records of bank reports.

ghost use Rattle.std.specs.Prelude.{◌≡◌, ◌↔◌, IfOk, Err, IsTrue};
ghost use Rattle.std.specs.Bool.{IsFalse};
ghost use Rattle.mca_status.specs.Registers.{valid};
ghost use Rattle.ras_facts.specs.Facts.{status_in};
ghost use Rattle.ras_panic.specs.Panics.{is_reserved_identifier, header_bytes, descriptor_bytes, report_bytes, saved_bytes, panic_bytes};

use crate::places::put;
use mca_status::Status;
use ras_facts::BankReport;
use thiserror::Error;

/// The bytes of a panic record.
pub const PANIC_LENGTH: usize = 456;

/// The bytes of the section with the report.
pub const REPORT_LENGTH: usize = 72;

/// The bytes of the section with the registers.
pub const SAVED_LENGTH: usize = 112;

// 7a6d1f02-52c4-4d1e-9b0a-3c5e8f714d20, as in a descriptor: the type of reports.
pub(crate) const REPORT_TYPE: [u8; 16] = [
    0x02, 0x1f, 0x6d, 0x7a, 0xc4, 0x52, 0x1e, 0x4d, 0x9b, 0x0a, 0x3c, 0x5e, 0x8f, 0x71, 0x4d, 0x20,
];

// The type of IA32/X64 sections, as in a descriptor.
pub(crate) const X64_TYPE: [u8; 16] = [
    0xb0, 0xa0, 0x3e, 0xdc, 0x44, 0xa1, 0x97, 0x47, 0xb9, 0x5b, 0x53, 0xfa, 0x24, 0x2b, 0x6e, 0x1d,
];

/// Why no panic record can be made of a report: the first reason that applies, in this order.
#[derive(Clone, Copy, Debug, PartialEq, Eq, Error)]
pub enum PanicRefused {
    /// 1: the identifier is 0 or all ones, which no record may have.
    #[error("the identifier is one that no record may have")]
    ReservedId,
    /// 2: the bank has no error (VAL is 0).
    #[error("the bank holds no error")]
    NotValid,
}

/// Returns the panic record of a bank's report under an identifier: its header, two descriptors,
/// the report and the bank's registers. Allocates nothing.
///
/// `ReservedId`: if and only if the identifier is 0 or all ones. `NotValid`: if and only if it
/// isn't and VAL is 0.
#[tactic(auto, unfolding(crate::specs::Panics::panic_bytes, crate::specs::Panics::report_type, crate::specs::Panics::x64_type))]
pub fn panic_record(id: u64, bank: &BankReport) -> Result<[u8; PANIC_LENGTH], PanicRefused>
    ensures record { IfOk result (λ bytes. bytes ≡ panic_bytes id bank.now) }
    ensures reserved { (result ≡ Err PanicRefused.ReservedId) ↔ IsTrue (is_reserved_identifier id) }
    ensures not_valid { (result ≡ Err PanicRefused.NotValid)
        ↔ (IsFalse (is_reserved_identifier id) × IsFalse (valid (status_in bank.now))) }
{
    if id == 0 || id == u64::MAX {
        return Err(PanicRefused::ReservedId);
    }
    if !Status(bank.status).is_valid() {
        return Err(PanicRefused::NotValid);
    }
    let mut bytes = [0u8; PANIC_LENGTH];
    put(&mut bytes, 0, &header_bytes(id));
    put(&mut bytes, 128, &descriptor_bytes(272, 72, &REPORT_TYPE));
    put(&mut bytes, 200, &descriptor_bytes(344, 112, &X64_TYPE));
    put(&mut bytes, 272, &report_bytes(bank));
    put(&mut bytes, 344, &saved_bytes(bank));
    Ok(bytes)
}

// Returns the header of a panic record.
#[tactic(auto, unfolding(ras_base::specs::LittleEndian::u16_bytes, ras_base::specs::LittleEndian::u32_bytes, ras_base::specs::LittleEndian::u64_bytes))]
fn header_bytes(id: u64) -> [u8; 128]
    ensures { result ≡ header_bytes id }
{
    let mut bytes = [0u8; 128];
    put(&mut bytes, 0, b"CPER");
    put(&mut bytes, 4, &[0x00, 0x01, 0xff, 0xff, 0xff, 0xff]);
    put(&mut bytes, 10, &2u16.to_le_bytes());
    put(&mut bytes, 12, &1u32.to_le_bytes());
    put(&mut bytes, 20, &456u32.to_le_bytes());
    put(&mut bytes, 96, &id.to_le_bytes());
    bytes
}

// Returns the descriptor of a section.
#[tactic(auto, unfolding(ras_base::specs::LittleEndian::u32_bytes))]
fn descriptor_bytes(offset: u32, length: u32, guid: &[u8; 16]) -> [u8; 72]
    ensures { result ≡ descriptor_bytes offset length guid.now }
{
    let mut bytes = [0u8; 72];
    put(&mut bytes, 0, &offset.to_le_bytes());
    put(&mut bytes, 4, &length.to_le_bytes());
    put(&mut bytes, 16, guid);
    put(&mut bytes, 48, &1u32.to_le_bytes());
    bytes
}

// Returns the section with the report.
#[tactic(auto, unfolding(crate::specs::Panics::report_bytes, ras_base::specs::LittleEndian::u16_bytes, ras_base::specs::LittleEndian::u64_bytes))]
fn report_bytes(bank: &BankReport) -> [u8; REPORT_LENGTH]
    ensures { result ≡ report_bytes bank.now }
{
    let mut bytes = [0u8; REPORT_LENGTH];
    put(&mut bytes, 0, &bank.boot.to_le_bytes());
    put(&mut bytes, 8, &bank.seconds.to_le_bytes());
    put(&mut bytes, 16, &bank.tsc.to_le_bytes());
    put(&mut bytes, 24, &bank.cap.to_le_bytes());
    put(&mut bytes, 32, &bank.mcg.to_le_bytes());
    put(&mut bytes, 40, &bank.status.to_le_bytes());
    put(&mut bytes, 48, &bank.addr.to_le_bytes());
    put(&mut bytes, 56, &bank.misc.to_le_bytes());
    put(&mut bytes, 64, &bank.cpu.to_le_bytes());
    put(&mut bytes, 66, &[bank.bank]);
    bytes
}

// Returns the section with the bank's registers.
#[tactic(auto, unfolding(crate::specs::Panics::saved_bytes, ras_base::specs::LittleEndian::u16_bytes, ras_base::specs::LittleEndian::u32_bytes, ras_base::specs::LittleEndian::u64_bytes))]
pub(crate) fn saved_bytes(bank: &BankReport) -> [u8; SAVED_LENGTH]
    ensures { result ≡ saved_bytes bank.now }
{
    let mut bytes = [0u8; SAVED_LENGTH];
    put(&mut bytes, 0, &0x100u64.to_le_bytes());
    put(&mut bytes, 64, &1u16.to_le_bytes());
    put(&mut bytes, 66, &32u16.to_le_bytes());
    let msr = 0x400 + 4 * bank.bank as u32;
    put(&mut bytes, 68, &msr.to_le_bytes());
    put(&mut bytes, 88, &bank.status.to_le_bytes());
    put(&mut bytes, 96, &bank.addr.to_le_bytes());
    put(&mut bytes, 104, &bank.misc.to_le_bytes());
    bytes
}
