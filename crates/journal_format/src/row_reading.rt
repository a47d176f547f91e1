//! Reads the parts of a checkpoint from bytes, each at their start. `Bad` is returned if and only
//! if the bytes don't begin with the part; only the row of a module allocates memory, for its
//! label.
ghost use Rattle.std.specs.Prelude.{◌≡◌, ◌≤◌, IfOk};
ghost use Rattle.page_policy.specs.Buckets.{IsLimit, most_count};
ghost use Rattle.ras_facts.specs.Valid.{IsPage};
ghost use Rattle.ras_account.specs.Accounts.{IsModuleRow};
ghost use Rattle.entry_format.specs.Reading.{ReadsUnlessMemory, ReadsExactly, u64_at, many_at};
ghost use Rattle.ras_account.specs.Rows.{row_of};
ghost use Rattle.journal_format.specs.CheckpointReading.{replace_of, replace_at, bucket_at, replacement_at, module_at, page_state_of, page_state_at, page_row_at, entry_count_at, front_at, end_floor_at, floor_in};
ghost use Rattle.journal_format.specs.Steps.Fronts.{front_of};

use entry_format::{EntryRefused, Version, byte_at, label_at, limit_at, page_number_at, u64_at};
use mca_status::CLASS_COUNT;
use page_policy::{Bucket, Limit, MOST_CAPACITY, PageState};
use ras_account::{FIRST_MODULE_LIMIT, MOST_ENTRIES, ModuleRow};
use std::alloc::Global;

/// The numbers at the front of a checkpoint. Version 1 has the first limit for modules, and 0 as
/// the floor.
#[derive(Clone, Copy)]
pub(crate) struct CheckpointFront {
    pub(crate) limit: Limit,
    pub(crate) module_limit: Limit,
    pub(crate) entries: u64,
    pub(crate) floor: u64,
}

// Returns a bucket, and the bytes after it.
#[tactic(auto, unfolding(crate::specs::CheckpointReading::bucket_at))]
fn bucket_at(bytes: &[u8]) -> Result<(Bucket, &[u8]), EntryRefused>
    ensures { ReadsExactly (λ x. (x.0, x.1.now)) result (bucket_at bytes.now) }
{
    let (count, rest) = u64_at(bytes)?;
    let (stamp, rest) = u64_at(rest)?;
    if count >= u64::from(MOST_CAPACITY) {
        return Err(EntryRefused::Bad);
    }
    let bucket = Bucket {
        count: count as u32,
        stamp,
    };
    Ok((bucket, rest))
}

// Returns whether a module is to be replaced, and the bytes after that.
#[tactic(auto, unfolding(crate::specs::CheckpointReading::replace_at, crate::specs::CheckpointReading::replace_of))]
fn replace_at(bytes: &[u8]) -> Result<(bool, &[u8]), EntryRefused>
    ensures { ReadsExactly (λ x. (x.0, x.1.now)) result (replace_at bytes.now) }
{
    let (byte, rest) = byte_at(bytes)?;
    match byte {
        0 => Ok((false, rest)),
        1 => Ok((true, rest)),
        _ => Err(EntryRefused::Bad),
    }
}

// The replacement of a module: its bucket, and whether it is to be replaced.
#[tactic(auto, unfolding(crate::specs::CheckpointReading::replacement_at, crate::specs::CheckpointReading::some_replacement_at))]
fn replacement_at(
    version: Version,
    bytes: &[u8],
) -> Result<((Option<Bucket>, bool), &[u8]), EntryRefused>
    ensures { ReadsExactly (λ x. (x.0, x.1.now)) result (replacement_at version bytes.now) }
{
    if version == Version::One {
        return Ok(((None, false), bytes));
    }
    let (flag, rest) = byte_at(bytes)?;
    match flag {
        0 => Ok(((None, false), rest)),
        1 => {
            let (bucket, rest) = bucket_at(rest)?;
            let (replace, rest) = replace_at(rest)?;
            Ok(((Some(bucket), replace), rest))
        }
        _ => Err(EntryRefused::Bad),
    }
}

// The ten sums of a module.
fn sums_at(bytes: &[u8]) -> Result<([u64; CLASS_COUNT], &[u8]), EntryRefused>
    ensures { ReadsExactly (λ x. (x.0, x.1.now)) result (many_at u64_at CLASS_COUNT bytes.now) }
{
    let mut sums = [0; CLASS_COUNT];
    let mut rest = bytes;
    for i in 0..CLASS_COUNT {
        let (weight, after) = u64_at(rest)?;
        sums[i] = weight;
        rest = after;
    }
    Ok((sums, rest))
}

// Returns the row of a module, and the bytes after it.
#[tactic(auto, unfolding(crate::specs::CheckpointReading::module_at))]
fn read_module(
    alloc: Global,
    version: Version,
    bytes: &[u8],
) -> Result<(ModuleRow, &[u8]), EntryRefused>
    ensures { ReadsUnlessMemory (λ x. (row_of x.0, x.1.now)) result (module_at version bytes.now) }
{
    let (label, rest) = match label_at(alloc, bytes) {
        Ok(found) => found,
        Err(refused) => return Err(refused),
    };
    let (sums, rest) = sums_at(rest)?;
    let ((bucket, replace), rest) = replacement_at(version, rest)?;
    if label.bytes().is_empty() && bucket.is_some() {
        return Err(EntryRefused::Bad);
    }
    let row = ModuleRow {
        label,
        sums,
        bucket,
        replace,
    };
    Ok((row, rest))
}

/// Returns the row of a module, and the bytes after it.
pub(crate) fn module_at(
    alloc: Global,
    version: Version,
    bytes: &[u8],
) -> Result<(ModuleRow, &[u8]), EntryRefused>
    ensures read { ReadsUnlessMemory (λ x. (row_of x.0, x.1.now)) result (module_at version bytes.now) }
    ensures row { IfOk result (λ x. IsModuleRow (row_of x.0)) }
{
    read_module(alloc, version, bytes)
}

// Returns the state of a page, and the bytes after it.
#[tactic(auto, unfolding(crate::specs::CheckpointReading::page_state_at, crate::specs::CheckpointReading::page_state_of))]
fn page_state_at(bytes: &[u8]) -> Result<(PageState, &[u8]), EntryRefused>
    ensures { ReadsExactly (λ x. (x.0, x.1.now)) result (page_state_at bytes.now) }
{
    let (number, rest) = byte_at(bytes)?;
    match number {
        0 => Ok((PageState::Kept, rest)),
        1 => Ok((PageState::Soft, rest)),
        2 => Ok((PageState::Hard, rest)),
        _ => Err(EntryRefused::Bad),
    }
}

// Returns the row of a page, and the bytes after it.
#[tactic(auto, unfolding(crate::specs::CheckpointReading::page_row_at))]
fn read_page_row(bytes: &[u8]) -> Result<((u64, Bucket, PageState), &[u8]), EntryRefused>
    ensures { ReadsExactly (λ x. ((x.0.0, record { bucket = x.0.1; state = x.0.2 }), x.1.now)) result
        (page_row_at bytes.now) }
{
    let (page, rest) = page_number_at(bytes)?;
    let (bucket, rest) = bucket_at(rest)?;
    let (state, rest) = page_state_at(rest)?;
    Ok(((page, bucket, state), rest))
}

/// Returns the row of a page, its number, its bucket and its state, and the bytes after it.
pub(crate) fn page_row_at(bytes: &[u8]) -> Result<((u64, Bucket, PageState), &[u8]), EntryRefused>
    ensures read { ReadsExactly (λ x. ((x.0.0, record { bucket = x.0.1; state = x.0.2 }), x.1.now)) result
        (page_row_at bytes.now) }
    ensures page { IfOk result (λ x. IsPage x.0.0) }
    ensures count { IfOk result (λ x. x.0.1.count ≤ most_count) }
{
    read_page_row(bytes)
}

// The number of entries.
#[tactic(auto, unfolding(crate::specs::CheckpointReading::entry_count_at))]
fn entry_count_at(bytes: &[u8]) -> Result<(u64, &[u8]), EntryRefused>
    ensures { ReadsExactly (λ x. (x.0, x.1.now)) result (entry_count_at bytes.now) }
{
    let (entries, rest) = u64_at(bytes)?;
    if entries > MOST_ENTRIES {
        return Err(EntryRefused::Bad);
    }
    Ok((entries, rest))
}

// Returns the numbers at the front, and the bytes after them.
#[tactic(auto, unfolding(crate::specs::CheckpointReading::front_at))]
fn read_front(version: Version, bytes: &[u8]) -> Result<(CheckpointFront, &[u8]), EntryRefused>
    ensures { ReadsExactly (λ x. (front_of x.0, x.1.now)) result (front_at version bytes.now) }
{
    let (limit, rest) = limit_at(bytes)?;
    match version {
        Version::One => {
            let (entries, rest) = entry_count_at(rest)?;
            let front = CheckpointFront {
                limit,
                module_limit: FIRST_MODULE_LIMIT,
                entries,
                floor: 0,
            };
            Ok((front, rest))
        }
        Version::Two => {
            let (module_limit, rest) = limit_at(rest)?;
            let (entries, rest) = entry_count_at(rest)?;
            let (floor, rest) = u64_at(rest)?;
            let front = CheckpointFront {
                limit,
                module_limit,
                entries,
                floor,
            };
            Ok((front, rest))
        }
    }
}

/// Returns the numbers at the front of a checkpoint, and the bytes after them.
pub(crate) fn front_at(
    version: Version,
    bytes: &[u8],
) -> Result<(CheckpointFront, &[u8]), EntryRefused>
    ensures read { ReadsExactly (λ x. (front_of x.0, x.1.now)) result (front_at version bytes.now) }
    ensures limit { IfOk result (λ x. IsLimit x.0.limit) }
    ensures module_limit { IfOk result (λ x. IsLimit x.0.module_limit) }
    ensures entries { IfOk result (λ x. x.0.entries ≤ MOST_ENTRIES) }
{
    read_front(version, bytes)
}

/// Returns the floor of a checkpoint, given the bytes left after its rows and the floor that was at
/// its front.
#[tactic(auto, unfolding(crate::specs::CheckpointReading::floor_in, crate::specs::CheckpointReading::end_floor_at))]
pub(crate) fn floor_in(version: Version, floor: u64, bytes: &[u8]) -> Result<u64, EntryRefused>
    ensures { ReadsExactly (λ x. x) result (floor_in version floor bytes.now) }
{
    if bytes.is_empty() {
        return Ok(floor);
    }
    if version == Version::Two {
        return Err(EntryRefused::Bad);
    }
    let (floor, rest) = u64_at(bytes)?;
    if floor == 0 || !rest.is_empty() {
        return Err(EntryRefused::Bad);
    }
    Ok(floor)
}
