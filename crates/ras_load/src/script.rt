//! The script made up from a number.

ghost use Rattle.std.specs.Prelude.{◌≡◌, ◌++◌, ◌≤◌, map, IfOk, OnOk, string_bytes};
ghost use Rattle.ras_base.specs.Text.{line_with};
ghost use Rattle.ras_load.specs.LoadScript.{bank_lines, load_bank, load_script, next_number};
ghost use Rattle.ras_load.specs.declared.script.TheConstants.{MOST_LINES};
ghost use Rattle.ras_script.specs.LineLaws.{line_text};
ghost use Rattle.ras_script.specs.SplittingLaws.{script_of};
ghost use Rattle.ras_script.specs.declared.line.Line.TheVariants.{Report};
ghost use Rattle.ras_script.specs.declared.line.ErrorReport.TheVariants.{Bank};

use ras_base::NoMemory;
use ras_facts::BankReport;
use std::alloc::Global;

/// The most reports of a made-up script.
pub const MOST_LINES: u64 = 50_000;

// The lines of the machine.
const MACHINE: &str = "cpu 0 0
module M0 0 7 0
module M1 0 7 1
module M2 0 7 2
module M3 0 7 3
";

// The most bytes of the line of a report: memory for them is allocated at once.
const LINE_LENGTH: usize = 60;

/// Returns a made-up script: the lines of a machine description, and `n` reports of a machine-check
/// bank.
///
/// # Errors
///
/// `NoMemory`: only if memory runs out.
pub fn load_script(alloc: Global, n: u64) -> Result<Vec<u8>, NoMemory>
    requires { n ≤ MOST_LINES }
    ensures { IfOk result (λ script. script.items ≡ load_script n) }
{
    let mut script = String::with_capacity(alloc, MACHINE.len() + n as usize * LINE_LENGTH)?;
    script.push_str(MACHINE)?;
    push_banks(&mut script, n)?;
    Ok(script.into_bytes())
}

// Adds the lines of the first `n` reports.
fn push_banks(script: &mut String, n: u64) -> Result<(), NoMemory>
    requires { n ≤ MOST_LINES }
    ensures { OnOk result (string_bytes script.new
        ≡ string_bytes script.old ++ script_of (map line_text (bank_lines n))) }
{
    let mut number = 1u64;
    for done in 0..n {
        let i = done + 1;
        let before = number;
        number = next_number(number);
        if i % 10 == 0 {
            push_bank(script, &load_bank(i - 1, before))?;
        } else {
            push_bank(script, &load_bank(i, number))?;
        }
    }
    Ok(())
}

// Returns the number after another.
fn next_number(number: u64) -> u64
    ensures { result ≡ next_number number }
{
    number
        .wrapping_mul(6_364_136_223_846_793_005)
        .wrapping_add(1_442_695_040_888_963_407)
}

// Returns the report for an index, from 1, and a number of the generator.
fn load_bank(i: u64, number: u64) -> BankReport
    requires { i ≤ MOST_LINES }
    ensures { result ≡ load_bank i number }
{
    let chosen = number >> 33;
    BankReport {
        boot: 1,
        seconds: 1000 + i,
        cpu: 0,
        bank: 7,
        tsc: i,
        cap: 0x100_0c14,
        mcg: 0,
        status: 0x8c00_0040_0001_0090 + chosen / 1000 % 4,
        addr: (chosen % 1000 + 1) * 4096,
        misc: 0x86,
    }
}

// Adds the line of a report.
fn push_bank(script: &mut String, bank: &BankReport) -> Result<(), NoMemory>
    ensures { OnOk result (string_bytes script.new
        ≡ string_bytes script.old ++ line_with (line_text (Report (Bank bank.now)))) }
{
    let BankReport {
        boot,
        seconds,
        cpu,
        bank,
        tsc,
        cap,
        mcg,
        status,
        addr,
        misc,
    } = *bank;
    writeln!(
        script,
        "bank {boot} {seconds} {cpu} {bank} {tsc} {cap:x} {mcg:x} {status:x} {addr:x} {misc:x}"
    )?;
    Ok(())
}
