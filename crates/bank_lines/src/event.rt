//! Reads the text of a machine-check event in the kernel's trace.

ghost use Rattle.std.specs.Prelude.{◌≡◌, MatchOption};
ghost use Rattle.std.specs.Option.{option_map};
ghost use Rattle.bank_lines.specs.Parts.{cut_at};
ghost use Rattle.bank_lines.specs.TraceEvent.{event_in, whole_event, fields_after, no_fields, once, took};
ghost use Rattle.bank_lines.specs.TraceEvent.{bank_named, bank_told, cpu_told, global_told, registers_told};
ghost use Rattle.bank_lines.specs.TraceEvent.{addr_told, misc_told, tsc_told, processor_told, vendor_told};
ghost use Rattle.bank_lines.specs.TraceEvent.{global_of, processor_vendor, registers_of, seconds_told};

use crate::parts::{Parts, after_spaces, value_after};
use ras_script::{decimal, hexadecimal, position_of};

/// A machine-check event of the kernel's trace.
#[derive(Clone, Copy, Debug, PartialEq, Eq)]
pub struct TraceEvent {
    /// The kernel's number of the processor's vendor: 0 is Intel.
    pub vendor: u64,
    /// The processor's number.
    pub cpu: u16,
    /// The bank's number.
    pub bank: u8,
    /// When the bank was read, in seconds.
    pub seconds: u64,
    /// The processor's time-stamp counter, or 0 for an error that was found by polling.
    pub tsc: u64,
    /// IA32_MCG_CAP.
    pub cap: u64,
    /// IA32_MCG_STATUS.
    pub mcg: u64,
    /// IA32_MCi_STATUS.
    pub status: u64,
    /// IA32_MCi_ADDR.
    pub addr: u64,
    /// IA32_MCi_MISC.
    pub misc: u64,
}

// IA32_MCG_CAP and IA32_MCG_STATUS.
#[derive(Clone, Copy)]
struct Global {
    cap: u64,
    mcg: u64,
}

// A bank's number and its IA32_MCi_STATUS.
#[derive(Clone, Copy)]
struct Bank {
    number: u8,
    status: u64,
}

// IA32_MCi_ADDR and IA32_MCi_MISC.
#[derive(Clone, Copy)]
struct Registers {
    addr: u64,
    misc: u64,
}

// What the fields of an event have said so far.
#[derive(Clone, Copy)]
struct Fields {
    cpu: Option<u16>,
    global: Option<Global>,
    bank: Option<Bank>,
    addr: Option<u64>,
    misc: Option<u64>,
    tsc: Option<u64>,
    vendor: Option<u64>,
    seconds: Option<u64>,
}

/// Returns the event that a text gives. Allocates nothing.
///
/// The text is cut at each comma, and a field begins with its name, after any spaces. Returns
/// `None` if a field that is read is missing, comes twice, or holds no number in its range. The
/// text after the last comma is skipped: kernels print no field there that is read, and a text that
/// was cut off ends within it.
pub fn event_in(text: &[u8]) -> Option<TraceEvent>
    ensures { result ≡ event_in text.now }
{
    let mut fields = Fields::none();
    let mut parts = Parts::new(b',', text);
    while let Some(part) = parts.next() {
        if parts.are_taken() {
            break;
        }
        fields.take(part)?;
    }
    fields.event()
}

impl Fields {
    // Returns the fields before any is read.
    fn none() -> Fields
        ensures { result ≡ no_fields }
    {
        Fields {
            cpu: None,
            global: None,
            bank: None,
            addr: None,
            misc: None,
            tsc: None,
            vendor: None,
            seconds: None,
        }
    }

    // Returns the event, if no field is missing.
    fn event(&self) -> Option<TraceEvent>
        ensures { result ≡ whole_event self.now }
    {
        let global = self.global?;
        let bank = self.bank?;
        Some(TraceEvent {
            vendor: self.vendor?,
            cpu: self.cpu?,
            bank: bank.number,
            seconds: self.seconds?,
            tsc: self.tsc?,
            cap: global.cap,
            mcg: global.mcg,
            status: bank.status,
            addr: self.addr?,
            misc: self.misc?,
        })
    }

    // Takes a part of the text. Returns `None` if it is a field that came before or can't be read.
    fn take(&mut self, part: &[u8]) -> Option<()>
        ensures { option_map (λ _. self.new) result ≡ took self.old part.now }
    {
        let part = after_spaces(part);
        if let Some(value) = value_after(b"CPU: ", part) {
            return self.take_cpu(value);
        }
        if let Some(value) = value_after(b"MCGc/s: ", part) {
            return self.take_global(value);
        }
        if let Some(value) = value_after(b"ADDR/MISC/SYND: ", part) {
            return self.take_registers(value);
        }
        if let Some(value) = value_after(b"ADDR: ", part) {
            return self.take_addr(value);
        }
        if let Some(value) = value_after(b"MISC: ", part) {
            return self.take_misc(value);
        }
        if let Some(value) = value_after(b"TSC: ", part) {
            return self.take_tsc(value);
        }
        if let Some(value) = value_after(b"PROCESSOR: ", part) {
            return self.take_processor(value);
        }
        if let Some(value) = value_after(b"vendor: ", part) {
            return self.take_vendor(value);
        }
        if let Some(value) = value_after(b"TIME: ", part) {
            return self.take_seconds(value);
        }
        if let Some(value) = value_after(b"time: ", part) {
            return self.take_seconds(value);
        }
        self.take_bank(part)
    }

    // `CPU: <cpu>`
    fn take_cpu(&mut self, value: &[u8]) -> Option<()>
        ensures { option_map (λ _. self.new) result ≡ cpu_told self.old value.now }
    {
        let cpu = decimal(value, u64::from(u16::MAX))? as u16;
        let cpu = once(self.cpu, Some(cpu))?;
        self.cpu = Some(cpu);
        Some(())
    }

    // `MCGc/s: <cap>/<mcg>`
    fn take_global(&mut self, value: &[u8]) -> Option<()>
        ensures { option_map (λ _. self.new) result ≡ global_told self.old value.now }
    {
        let global = once(self.global, global_of(value))?;
        self.global = Some(global);
        Some(())
    }

    // `ADDR/MISC/SYND: <addr>/<misc>/<synd>`
    fn take_registers(&mut self, value: &[u8]) -> Option<()>
        ensures { option_map (λ _. self.new) result ≡ registers_told self.old value.now }
    {
        let registers = registers_of(value)?;
        let addr = once(self.addr, Some(registers.addr))?;
        let misc = once(self.misc, Some(registers.misc))?;
        self.addr = Some(addr);
        self.misc = Some(misc);
        Some(())
    }

    // `ADDR: <addr>`
    fn take_addr(&mut self, value: &[u8]) -> Option<()>
        ensures { option_map (λ _. self.new) result ≡ addr_told self.old value.now }
    {
        let addr = once(self.addr, hexadecimal(value))?;
        self.addr = Some(addr);
        Some(())
    }

    // `MISC: <misc>`
    fn take_misc(&mut self, value: &[u8]) -> Option<()>
        ensures { option_map (λ _. self.new) result ≡ misc_told self.old value.now }
    {
        let misc = once(self.misc, hexadecimal(value))?;
        self.misc = Some(misc);
        Some(())
    }

    // `TSC: <tsc>`
    fn take_tsc(&mut self, value: &[u8]) -> Option<()>
        ensures { option_map (λ _. self.new) result ≡ tsc_told self.old value.now }
    {
        let tsc = once(self.tsc, hexadecimal(value))?;
        self.tsc = Some(tsc);
        Some(())
    }

    // `PROCESSOR: <vendor>:<model>`
    fn take_processor(&mut self, value: &[u8]) -> Option<()>
        ensures { option_map (λ _. self.new) result ≡ processor_told self.old value.now }
    {
        let vendor = once(self.vendor, processor_vendor(value))?;
        self.vendor = Some(vendor);
        Some(())
    }

    // `vendor: <vendor>`
    fn take_vendor(&mut self, value: &[u8]) -> Option<()>
        ensures { option_map (λ _. self.new) result ≡ vendor_told self.old value.now }
    {
        let vendor = once(self.vendor, decimal(value, u64::MAX))?;
        self.vendor = Some(vendor);
        Some(())
    }

    // `TIME: <seconds>` or `time: <seconds>`
    fn take_seconds(&mut self, value: &[u8]) -> Option<()>
        ensures { option_map (λ _. self.new) result ≡ seconds_told self.old value.now }
    {
        let seconds = once(self.seconds, decimal(value, u64::MAX))?;
        self.seconds = Some(seconds);
        Some(())
    }

    // `MC<bank>: <status>`; any other part changes nothing.
    fn take_bank(&mut self, part: &[u8]) -> Option<()>
        ensures { option_map (λ _. self.new) result ≡ bank_told self.old part.now }
    {
        let Some((number, value)) = bank_named(part) else {
            return Some(());
        };
        let status = hexadecimal(value)?;
        let bank = once(self.bank, Some(Bank { number, status }))?;
        self.bank = Some(bank);
        Some(())
    }
}

// Returns the value that was read, if there was none before.
fn once<T: Copy>(told: Option<T>, read: Option<T>) -> Option<T>
    ensures { result ≡ once told read }
{
    match told {
        None => read,
        Some(_) => None,
    }
}

// `<cap>/<mcg>`
fn global_of(value: &[u8]) -> Option<Global>
    ensures { result ≡ global_of (cut_at 47 value.now) }
{
    let mut parts = Parts::new(b'/', value);
    let (Some(cap), Some(mcg), None) = (parts.next(), parts.next(), parts.next()) else {
        return None;
    };
    Some(Global {
        cap: hexadecimal(cap)?,
        mcg: hexadecimal(mcg)?,
    })
}

// `<addr>/<misc>/<synd>`
fn registers_of(value: &[u8]) -> Option<Registers>
    ensures { result ≡ registers_of (cut_at 47 value.now) }
{
    let mut parts = Parts::new(b'/', value);
    let (Some(addr), Some(misc)) = (parts.next(), parts.next()) else {
        return None;
    };
    let (Some(_), None) = (parts.next(), parts.next()) else {
        return None;
    };
    Some(Registers {
        addr: hexadecimal(addr)?,
        misc: hexadecimal(misc)?,
    })
}

// Returns the vendor in `<vendor>:<model>`.
fn processor_vendor(value: &[u8]) -> Option<u64>
    ensures { result ≡ processor_vendor (cut_at 58 value.now) }
{
    let mut parts = Parts::new(b':', value);
    let (Some(vendor), Some(_), None) = (parts.next(), parts.next(), parts.next()) else {
        return None;
    };
    decimal(vendor, u64::MAX)
}

// Returns the bank's number and the text of its status, if a part is `MC<bank>: <status>`.
fn bank_named(part: &[u8]) -> Option<(u8, &[u8])>
    ensures { MatchOption result (bank_named part.now ≡ None)
        (λ named. bank_named part.now ≡ Some (named.0, named.1.now)) }
{
    let named = value_after(b"MC", part)?;
    let colon = position_of(b':', named)?;
    let number = decimal(&named[..colon], u64::from(u8::MAX))? as u8;
    let value = value_after(b": ", &named[colon..])?;
    Some((number, value))
}
