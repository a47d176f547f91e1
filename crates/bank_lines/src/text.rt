//! Prints the lines of what was found.

ghost use Rattle.std.specs.Prelude.{◌≡◌, ◌<◌, ◌≤◌, ◌∷◌, ◌++◌, drop, false, OnOk};
ghost use Rattle.std.specs.Fmt.{decimal, digit_glyph};
ghost use Rattle.ras_script.specs.LineLaws.{hexadecimal};
ghost use Rattle.bank_lines.specs.declared.text.TheConstants.{WORD_BYTES};
ghost use Rattle.bank_lines.specs.Texts.{asking_line, found_text, partial_comment, unread_line, vendor_line, firmware_line, full_line, torn_line};

use crate::Finding;
use ras_base::{NoMemory, push_number};
use ras_facts::BankReport;

// A space, and the most digits of a register.
const WORD_BYTES: usize = 17;

// The hexadecimal digits.
static DIGITS: [u8; 16] = [
    b'0', b'1', b'2', b'3', b'4', b'5', b'6', b'7', b'8', b'9', b'a', b'b', b'c', b'd', b'e', b'f',
];

/// Appends the text of what was found in the line with this number.
///
/// # Errors
///
/// `NoMemory`: only if memory runs out.
pub fn push_found(text: &mut Vec<u8>, found: &Finding, number: u64) -> Result<(), NoMemory>
    ensures { OnOk result (text.new.items ≡ text.old.items ++ found_text number found.now) }
{
    match found {
        Finding::Nothing => return Ok(()),
        Finding::Whole(report) => push_bank(text, report)?,
        Finding::Torn(report) => push_torn(text, report, number)?,
        Finding::Full(report) => push_full(text, report)?,
        Finding::Partial { cpu, bank } => push_partial(text, *cpu, *bank)?,
        Finding::Foreign { vendor, cpu, bank } => push_foreign(text, *vendor, *cpu, *bank)?,
        Finding::Firmware { cpu } => push_firmware(text, *cpu)?,
        Finding::Unread => push_named(text, b"# unread ", number)?,
    }
    text.push(b'\n')?;
    Ok(())
}

// Appends the line of a report.
fn push_bank(text: &mut Vec<u8>, report: &BankReport) -> Result<(), NoMemory>
    ensures { OnOk result (text.new.items ≡ text.old.items ++ asking_line report.now) }
{
    push_named(text, b"bank ", report.boot)?;
    push_named(text, b" ", report.seconds)?;
    push_named(text, b" ", u64::from(report.cpu))?;
    push_named(text, b" ", u64::from(report.bank))?;
    push_named(text, b" ", report.tsc)?;
    push_register(text, report.cap)?;
    push_register(text, report.mcg)?;
    push_register(text, report.status)?;
    push_register(text, report.addr)?;
    push_register(text, report.misc)
}

// Appends the comment that an address was torn off at the line with this number, and the report's
// line.
fn push_torn(text: &mut Vec<u8>, report: &BankReport, number: u64) -> Result<(), NoMemory>
    ensures { OnOk result
        (text.new.items ≡ text.old.items ++ torn_line number ++ 10 ∷ asking_line report.now) }
{
    push_named(text, b"# torn ", number)?;
    text.push(b'\n')?;
    push_bank(text, report)
}

// Appends the comment that a report's key has no room, and the report's line.
fn push_full(text: &mut Vec<u8>, report: &BankReport) -> Result<(), NoMemory>
    ensures { OnOk result
        (text.new.items ≡ text.old.items ++ full_line ++ 10 ∷ asking_line report.now) }
{
    text.extend_from_slice(b"# full\n")?;
    push_bank(text, report)
}

// Appends the comment of a report that isn't whole.
fn push_partial(text: &mut Vec<u8>, cpu: u16, bank: u8) -> Result<(), NoMemory>
    ensures { OnOk result (text.new.items ≡ text.old.items ++ partial_comment cpu bank) }
{
    push_named(text, b"# partial cpu=", u64::from(cpu))?;
    push_named(text, b" bank=", u64::from(bank))
}

// Appends the comment of another vendor's report.
fn push_foreign(text: &mut Vec<u8>, vendor: u64, cpu: u16, bank: u8) -> Result<(), NoMemory>
    ensures { OnOk result (text.new.items ≡ text.old.items ++ vendor_line vendor cpu bank) }
{
    push_named(text, b"# vendor=", vendor)?;
    push_named(text, b" cpu=", u64::from(cpu))?;
    push_named(text, b" bank=", u64::from(bank))
}

// Appends the comment of a report that Linux makes up from the firmware's reports.
fn push_firmware(text: &mut Vec<u8>, cpu: u16) -> Result<(), NoMemory>
    ensures { OnOk result (text.new.items ≡ text.old.items ++ firmware_line cpu) }
{
    push_named(text, b"# firmware cpu=", u64::from(cpu))?;
    text.extend_from_slice(b" bank=255")?;
    Ok(())
}

// Appends a number in decimal after a name.
fn push_named(text: &mut Vec<u8>, name: &[u8], number: u64) -> Result<(), NoMemory>
    ensures { OnOk result (text.new.items ≡ text.old.items ++ name.now ++ decimal number) }
{
    text.extend_from_slice(name)?;
    push_number(text, number)
}

// Appends a space and a register in hexadecimal.
fn push_register(text: &mut Vec<u8>, register: u64) -> Result<(), NoMemory>
    ensures { OnOk result (text.new.items ≡ text.old.items ++ 32 ∷ hexadecimal register) }
{
    let mut word = [0u8; WORD_BYTES];
    let start = write_word(register, &mut word);
    text.extend_from_slice(&word[start..])?;
    Ok(())
}

// Writes a space and the digits of a number to the end of a buffer, and returns where they begin.
fn write_word(number: u64, word: &mut [u8; WORD_BYTES]) -> usize
    ensures within { result ≤ WORD_BYTES }
    ensures word { drop result word.new ≡ 32 ∷ hexadecimal number }
{
    let mut place = WORD_BYTES;
    let mut rest = number;
    loop {
        place -= 1;
        word[place] = digit_of(rest % 16);
        rest /= 16;
        if rest == 0 {
            break;
        }
    }
    word[place - 1] = b' ';
    place - 1
}

// Returns the hexadecimal digit of a value.
#[inline(always)]
fn digit_of(value: u64) -> u8
    requires { value < 16 }
    ensures { result ≡ digit_glyph false value }
{
    DIGITS[value as usize]
}
