//! Reads names from bytes.
ghost use Rattle.std.specs.Prelude.{◌≡◌};
ghost use Rattle.entry_format.specs.Reading.{ReadsExactly, bank_name_at, record_name_at, block_name_at, boot_name_at, name_at};

use crate::EntryRefused;
use crate::fields::{byte_at, u16_at, u64_at};
use ras_facts::Name;

/// The kind of a bank's name.
pub(crate) const BANK: u8 = 1;
/// The kind of a record's name.
pub(crate) const RECORD: u8 = 2;
/// The kind of a block's name.
pub(crate) const BLOCK: u8 = 3;
/// The kind of a boot's name.
pub(crate) const BOOT: u8 = 4;

// The name of a bank's report, after its kind.
#[tactic(auto, unfolding(crate::specs::Reading::bank_name_at))]
fn bank_name_at(bytes: &[u8]) -> Result<(Name, &[u8]), EntryRefused>
    ensures { ReadsExactly (λ x. (x.0, x.1.now)) result (bank_name_at bytes.now) }
{
    let (boot, rest) = u64_at(bytes)?;
    let (cpu, rest) = u16_at(rest)?;
    let (bank, rest) = byte_at(rest)?;
    let (tsc, rest) = u64_at(rest)?;
    let name = Name::Bank {
        boot,
        cpu,
        bank,
        tsc,
    };
    Ok((name, rest))
}

// The name of a record, after its kind.
#[tactic(auto, unfolding(crate::specs::Reading::record_name_at))]
fn record_name_at(bytes: &[u8]) -> Result<(Name, &[u8]), EntryRefused>
    ensures { ReadsExactly (λ x. (x.0, x.1.now)) result (record_name_at bytes.now) }
{
    let (id, rest) = u64_at(bytes)?;
    Ok((Name::Record { id }, rest))
}

// The name of a block, after its kind.
#[tactic(auto, unfolding(crate::specs::Reading::block_name_at))]
fn block_name_at(bytes: &[u8]) -> Result<(Name, &[u8]), EntryRefused>
    ensures { ReadsExactly (λ x. (x.0, x.1.now)) result (block_name_at bytes.now) }
{
    let (boot, rest) = u64_at(bytes)?;
    let (source, rest) = u16_at(rest)?;
    let (number, rest) = u64_at(rest)?;
    let name = Name::Block {
        boot,
        source,
        number,
    };
    Ok((name, rest))
}

// The name of a boot's error region, after its kind.
#[tactic(auto, unfolding(crate::specs::Reading::boot_name_at))]
fn boot_name_at(bytes: &[u8]) -> Result<(Name, &[u8]), EntryRefused>
    ensures { ReadsExactly (λ x. (x.0, x.1.now)) result (boot_name_at bytes.now) }
{
    let (boot, rest) = u64_at(bytes)?;
    Ok((Name::Boot { boot }, rest))
}

/// Returns the name of a report at the front, and the bytes after it.
///
/// `Bad`: if and only if the bytes don't begin with a name. `NoMemory`: never.
#[tactic(auto, unfolding(crate::specs::Reading::name_at))]
pub fn name_at(bytes: &[u8]) -> Result<(Name, &[u8]), EntryRefused>
    ensures { ReadsExactly (λ x. (x.0, x.1.now)) result (name_at bytes.now) }
{
    let (kind, rest) = byte_at(bytes)?;
    match kind {
        BANK => bank_name_at(rest),
        RECORD => record_name_at(rest),
        BLOCK => block_name_at(rest),
        BOOT => boot_name_at(rest),
        _ => Err(EntryRefused::Bad),
    }
}
