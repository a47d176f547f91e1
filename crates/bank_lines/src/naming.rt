//! The names of errors without a counter: Linux polls banks by a timer without reading the counter.

ghost use Rattle.std.specs.Prelude.{◌≡◌, ◌<◌, ◌^◌, [], IfOk, OnErr, OnOk};
ghost use Rattle.bank_lines.specs.Naming.{register_check, check_with, key_of, named_first, numbered, polled_counter, second_of};
ghost use Rattle.bank_lines.specs.Counts.{counted, counts_after, named_found, number_after, number_in};

use crate::Finding;
use indexmap::IndexMap;
use ras_base::NoMemory;
use ras_facts::BankReport;
use std::alloc::Global;
use std::marker::Model;

/// The most keys that are counted: an account stores as many errors.
pub const MOST_KEYS: usize = 200_000;

/// The greatest number of an error with a key. Further errors with this key get this number too, so
/// they are repeats.
pub const MOST_ALIKE: u64 = 4095;

/// The greatest prime below 2^20: checks of registers are below it.
pub const CHECKS: u128 = 1_048_573;

/// How many errors without a counter one printer reported so far, by their keys.
#[derive(Drop)]
pub struct AlikeCounts {
    table: IndexMap<u128, u64>,
}

impl Model for AlikeCounts {
    ghost use Rattle.std.specs.Prelude.{ℕ, List};

    ghost Value = { List (ℕ × ℕ) };

    ghost view = { λ c. c.table.entries };
}

impl AlikeCounts {
    /// Returns the counts before a printer's first report.
    pub fn new(alloc: Global) -> AlikeCounts
        ensures { result ≡ [] }
    {
        AlikeCounts {
            table: IndexMap::new(alloc),
        }
    }

    /// Makes a counter for an error that was found without one, and counts the error.
    ///
    /// # Errors
    ///
    /// `NoMemory`: only if memory runs out; then nothing is counted.
    pub fn name(&mut self, found: &mut Finding) -> Result<(), NoMemory>
        ensures found { OnOk result (found.new ≡ named_found self.old found.old) }
        ensures counts { OnOk result (self.new ≡ counts_after self.old found.old) }
        ensures kept { OnErr result (self.new ≡ self.old) }
    {
        match *found {
            Finding::Whole(report) if report.tsc == 0 => {
                *found = match self.count(key_of(&report))? {
                    Some(number) => Finding::Whole(numbered(number, report)),
                    None => Finding::Full(numbered(0, report)),
                };
            }
            Finding::Torn(report) if report.tsc == 0 => {
                let number = self.count(key_of(&report))?;
                *found = Finding::Torn(numbered(number.unwrap_or(0), report));
            }
            _ => {}
        }
        Ok(())
    }

    // Counts one more error of a key, and returns how many came before it. Returns `None`, and
    // counts nothing, if the key is new and there is no room for it.
    fn count(&mut self, key: u128) -> Result<Option<u64>, NoMemory>
        ensures number { IfOk result (λ number. number ≡ number_in self.old key) }
        ensures counts { OnOk result (self.new ≡ counted self.old key) }
        ensures kept { OnErr result (self.new ≡ self.old) }
    {
        let number = match self.table.get(&key) {
            Some(number) => *number,
            None if self.table.len() < MOST_KEYS => 0,
            None => return Ok(None),
        };
        self.table.insert(key, number_after(number))?;
        Ok(Some(number))
    }
}

// Returns the number of a key's next error, after an error with this number.
fn number_after(number: u64) -> u64
    ensures { result ≡ number_after number }
{
    if number < MOST_ALIKE {
        number + 1
    } else {
        number
    }
}

/// Returns a report with its key's first counter, if it has none.
pub fn named_first(report: BankReport) -> BankReport
    ensures { result ≡ named_first report }
{
    if report.tsc == 0 {
        numbered(0, report)
    } else {
        report
    }
}

// Returns a report with the counter of an error after `k` errors with its key.
fn numbered(number: u64, report: BankReport) -> BankReport
    ensures { result ≡ numbered number report }
{
    let number = if number < MOST_ALIKE {
        number
    } else {
        MOST_ALIKE
    };
    BankReport {
        tsc: polled_counter(second_of(&report), register_check(&report) as u64, number),
        ..report
    }
}

// Returns the counter of an error: its second, the check of its registers, and its number.
fn polled_counter(second: u64, check: u64, number: u64) -> u64
    requires second { second < 2 ^ 32 }
    requires check { check < 1048573 }
    requires number { number < 4096 }
    ensures { result ≡ polled_counter second check number }
{
    second * (1 << 32) + check * (1 << 12) + number
}

// Returns an error's key: CPU, bank, second and check. Errors with one key are alike.
fn key_of(report: &BankReport) -> u128
    ensures { result ≡ key_of report.now }
{
    let place = u128::from(report.cpu) * (1 << 8) + u128::from(report.bank);
    (place * (1 << 32) + u128::from(second_of(report))) * (1 << 20) + register_check(report)
}

// Returns the lowest 32 bits of a report's seconds.
fn second_of(report: &BankReport) -> u64
    ensures value { result ≡ second_of report.now }
    ensures within { result < 2 ^ 32 }
{
    report.seconds % (1 << 32)
}

// Returns the check of a report's status, address and other register.
#[tactic(auto, using(crate::proofs::NamingLemmas::check_by_words))]
fn register_check(report: &BankReport) -> u128
    ensures value { result ≡ register_check report.now }
    ensures within { result < 1048573 }
{
    let status = check_with(0, report.status);
    let addr = check_with(status, report.addr);
    check_with(addr, report.misc)
}

// Returns the check of registers with this check and of one more register.
fn check_with(check: u128, register: u64) -> u128
    requires { check < 1048573 }
    ensures value { result ≡ check_with check register }
    ensures within { result < 1048573 }
{
    (check * (1 << 64) + u128::from(register)) % CHECKS
}
