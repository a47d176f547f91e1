//! What a word of a line means, and what several words mean together.

ghost use Rattle.std.specs.Prelude.{◌≡◌, ◌≤◌, map, IfOk};
ghost use Rattle.ras_script.specs.Fields.{hex_bytes_of, hex_u64_of, read_label, read_limit, read_number};
ghost use Rattle.ras_script.specs.Fields.{positive_of, read_report, u16_of, u64_of, u8_of};
ghost use Rattle.ras_script.specs.Line.{GivesLine};

use crate::LineRefused;
use crate::bytes::bytes_of;
use crate::number::{decimal, hexadecimal};
use dimm_topology::{Label, LabelRefused};
use mca_codes::Text;
use page_policy::{Limit, MOST_CAPACITY, MOST_PERIOD};
use ras_facts::BankReport;
use std::alloc::Global;

/// How many words give the snapshot of a bank.
pub const BANK_WORDS: usize = 10;

// Returns a word as a decimal number of at most `most`.
#[inline(always)]
pub(crate) fn read_number(word: &[u8], most: u64) -> Result<u64, LineRefused>
    ensures value { result ≡ read_number most word.now }
    ensures within { IfOk result (λ n. n ≤ most) }
{
    decimal(word, most).ok_or(LineRefused::Number)
}

// Returns a word as a decimal number of 64 bits.
#[inline(always)]
pub(crate) fn u64_of(word: &[u8]) -> Result<u64, LineRefused>
    ensures { result ≡ u64_of word.now }
{
    read_number(word, u64::MAX)
}

// Returns a word as a decimal number of 16 bits.
#[inline(always)]
pub(crate) fn u16_of(word: &[u8]) -> Result<u16, LineRefused>
    ensures { result ≡ u16_of word.now }
{
    Ok(read_number(word, u64::from(u16::MAX))? as u16)
}

// Returns a word as a decimal number of 8 bits.
#[inline(always)]
pub(crate) fn u8_of(word: &[u8]) -> Result<u8, LineRefused>
    ensures { result ≡ u8_of word.now }
{
    Ok(read_number(word, u64::from(u8::MAX))? as u8)
}

// Returns a word as a decimal number from 1 to `most`.
fn positive_of(word: &[u8], most: u64) -> Result<u64, LineRefused>
    ensures value { result ≡ positive_of most word.now }
    ensures within { IfOk result (λ n. (1 ≤ n) × (n ≤ most)) }
{
    let number = read_number(word, most)?;
    if number == 0 {
        return Err(LineRefused::Number);
    }
    Ok(number)
}

// Returns a word as a hexadecimal number.
#[inline(always)]
pub(crate) fn hex_u64_of(word: &[u8]) -> Result<u64, LineRefused>
    ensures { result ≡ hex_u64_of word.now }
{
    hexadecimal(word).ok_or(LineRefused::Number)
}

// Returns a word as a label.
pub(crate) fn read_label(alloc: Global, word: &[u8]) -> Result<Label, LineRefused>
    ensures { GivesLine result (read_label word.now) }
{
    match Label::new(alloc, word) {
        Ok(label) => Ok(label),
        Err(LabelRefused::Bad) => Err(LineRefused::Label),
        Err(LabelRefused::NoMemory) => Err(LineRefused::NoMemory),
    }
}

// Returns a word as bytes.
pub(crate) fn hex_bytes_of(alloc: Global, word: &[u8]) -> Result<Text, LineRefused>
    ensures { GivesLine result (hex_bytes_of word.now) }
{
    bytes_of(alloc, word)?.ok_or(LineRefused::Hex)
}

// Returns two words as a limit.
pub(crate) fn read_limit(words: &[&[u8]]) -> Result<Limit, LineRefused>
    ensures { result ≡ read_limit (map (λ word. word.now) words.now) }
{
    let [capacity, period] = words else {
        return Err(LineRefused::Words);
    };
    let capacity = positive_of(capacity, u64::from(MOST_CAPACITY))? as u32;
    let period = positive_of(period, u64::from(MOST_PERIOD))? as u32;
    Ok(Limit { capacity, period })
}

// Returns ten words as the snapshot of a bank.
#[tactic(auto, using(crate::proofs::ShapeLemmas::ten, crate::proofs::ShapeLemmas::too_few, crate::proofs::ShapeLemmas::too_many))]
pub(crate) fn read_report(words: &[&[u8]]) -> Result<BankReport, LineRefused>
    ensures { result ≡ read_report (map (λ word. word.now) words.now) }
{
    let [boot, seconds, cpu, bank, tsc, cap, mcg, status, addr, misc] = words else {
        return Err(LineRefused::Words);
    };
    Ok(BankReport {
        boot: u64_of(boot)?,
        seconds: u64_of(seconds)?,
        cpu: u16_of(cpu)?,
        bank: u8_of(bank)?,
        tsc: u64_of(tsc)?,
        cap: hex_u64_of(cap)?,
        mcg: hex_u64_of(mcg)?,
        status: hex_u64_of(status)?,
        addr: hex_u64_of(addr)?,
        misc: hex_u64_of(misc)?,
    })
}
