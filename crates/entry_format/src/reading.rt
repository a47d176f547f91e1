//! Reads one entry from bytes.
ghost use Rattle.std.specs.Prelude.{◌≡◌};
ghost use Rattle.entry_format.specs.Reading.{ReadsUnlessMemory, ReadsExactly, fact_at, limit_at, module_limit_entry_at, entry_at};

use crate::fields::{byte_at, u64_at};
use crate::items::items_at;
use crate::names::name_at;
use crate::{EntryRefused, Version};
use page_policy::Limit;
use ras_facts::{Entry, Fact};
use std::alloc::Global;

/// The kind of an entry that is a fact.
pub(crate) const FACT: u8 = 1;
/// The kind of an entry that is a limit.
pub(crate) const LIMIT: u8 = 2;
/// The kind of an entry that retires boots.
pub(crate) const RETIRE: u8 = 3;
/// The kind of an entry that is a limit of modules.
pub(crate) const MODULE_LIMIT: u8 = 4;

// A fact, after its kind.
#[tactic(auto, unfolding(crate::specs::Reading::fact_at))]
fn fact_at(alloc: Global, bytes: &[u8]) -> Result<(Fact, &[u8]), EntryRefused>
    ensures { ReadsUnlessMemory (λ x. (x.0, x.1.now)) result (fact_at bytes.now) }
{
    let (name, rest) = name_at(bytes)?;
    let (seconds, rest) = u64_at(rest)?;
    let (items, rest) = items_at(alloc, rest)?;
    let fact = Fact {
        name,
        seconds,
        items,
    };
    Ok((fact, rest))
}

/// Returns a limit at the front, and the bytes after it.
///
/// `Bad`: if and only if the bytes don't begin with a limit in its ranges. `NoMemory`: never.
#[tactic(auto, unfolding(crate::specs::Reading::limit_at))]
pub fn limit_at(bytes: &[u8]) -> Result<(Limit, &[u8]), EntryRefused>
    ensures { ReadsExactly (λ x. (x.0, x.1.now)) result (limit_at bytes.now) }
{
    let (capacity, rest) = u64_at(bytes)?;
    let (period, rest) = u64_at(rest)?;
    match Limit::of(capacity, period) {
        Some(limit) => Ok((limit, rest)),
        None => Err(EntryRefused::Bad),
    }
}

// A limit of modules, which only version 2 has.
#[tactic(auto, unfolding(crate::specs::Reading::module_limit_entry_at))]
fn module_limit_entry_at(version: Version, bytes: &[u8]) -> Result<(Entry, &[u8]), EntryRefused>
    ensures { ReadsExactly (λ x. (x.0, x.1.now)) result (module_limit_entry_at version bytes.now) }
{
    match version {
        Version::One => Err(EntryRefused::Bad),
        Version::Two => {
            let (limit, rest) = limit_at(bytes)?;
            Ok((Entry::ModuleLimit(limit), rest))
        }
    }
}

// Returns an entry of this version, which begins with its kind.
#[tactic(auto, unfolding(crate::specs::Reading::entry_at, crate::specs::Reading::fact_entry_at, crate::specs::Reading::limit_entry_at, crate::specs::Reading::retire_entry_at))]
pub(crate) fn entry_at(
    alloc: Global,
    version: Version,
    bytes: &[u8],
) -> Result<(Entry, &[u8]), EntryRefused>
    ensures { ReadsUnlessMemory (λ x. (x.0, x.1.now)) result (entry_at version bytes.now) }
{
    let (kind, rest) = byte_at(bytes)?;
    match kind {
        FACT => {
            let (fact, rest) = fact_at(alloc, rest)?;
            Ok((Entry::Fact(fact), rest))
        }
        LIMIT => {
            let (limit, rest) = limit_at(rest)?;
            Ok((Entry::Limit(limit), rest))
        }
        RETIRE => {
            let (boot, rest) = u64_at(rest)?;
            Ok((Entry::Retire(boot), rest))
        }
        MODULE_LIMIT => module_limit_entry_at(version, rest),
        _ => Err(EntryRefused::Bad),
    }
}
