//! Appends the rows of a checkpoint as bytes.
ghost use Rattle.std.specs.Prelude.{◌≡◌, ◌≤◌, ◌++◌, length, OnOk};
ghost use Rattle.std.specs.List.{flat_map};
ghost use Rattle.ras_base.specs.LittleEndian.{u64_bytes};
ghost use Rattle.entry_format.specs.declared.version.Version.TheVariants.{Two};
ghost use Rattle.ras_account.specs.Rows.{row_of};
ghost use Rattle.journal_format.specs.Checkpoints.{state_number, bucket_bytes, replacement_bytes, module_bytes, page_row_bytes};

use entry_format::push_label;
use page_policy::{Bucket, PageState};
use ras_account::ModuleRow;
use ras_base::NoMemory;
use ras_base::little_endian::push_u64;

// The number of a page's state.
fn state_number(state: PageState) -> u8
    ensures { result ≡ state_number state }
{
    match state {
        PageState::Kept => 0,
        PageState::Soft => 1,
        PageState::Hard => 2,
    }
}

// Appends a bucket.
#[tactic(auto, unfolding(crate::specs::Checkpoints::bucket_bytes))]
fn push_bucket(bytes: &mut Vec<u8>, bucket: Bucket) -> Result<(), NoMemory>
    ensures { OnOk result (bytes.new.items ≡ bytes.old.items ++ bucket_bytes bucket) }
{
    push_u64(bytes, u64::from(bucket.count))?;
    push_u64(bytes, bucket.stamp)
}

// Appends a module's replacement: its bucket, and whether it is to be replaced.
#[tactic(auto, unfolding(crate::specs::Checkpoints::replacement_bytes))]
fn push_replacement(
    bytes: &mut Vec<u8>,
    bucket: Option<Bucket>,
    replace: bool,
) -> Result<(), NoMemory>
    ensures { OnOk result (bytes.new.items ≡ bytes.old.items ++ replacement_bytes bucket replace) }
{
    match bucket {
        None => {
            bytes.push(0)?;
            Ok(())
        }
        Some(bucket) => {
            bytes.push(1)?;
            push_bucket(bytes, bucket)?;
            bytes.push(u8::from(replace))?;
            Ok(())
        }
    }
}

// Appends sums in order.
fn push_sums(bytes: &mut Vec<u8>, sums: &[u64]) -> Result<(), NoMemory>
    ensures { OnOk result (bytes.new.items ≡ bytes.old.items ++ flat_map u64_bytes sums.now) }
{
    for weight in sums {
        push_u64(bytes, *weight)?;
    }
    Ok(())
}

/// Appends the row of a module.
#[tactic(auto, unfolding(crate::specs::Checkpoints::module_bytes))]
pub(crate) fn push_module(bytes: &mut Vec<u8>, row: &ModuleRow) -> Result<(), NoMemory>
    ensures { OnOk result (bytes.new.items ≡ bytes.old.items ++ module_bytes Two (row_of row.now)) }
{
    push_label(bytes, &row.label)?;
    push_sums(bytes, &row.sums)?;
    push_replacement(bytes, row.bucket, row.replace)
}

/// Appends the row of a page.
#[tactic(auto, unfolding(crate::specs::Checkpoints::page_row_bytes, crate::specs::Checkpoints::bucket_bytes, ras_base::specs::LittleEndian::u64_bytes))]
pub(crate) fn push_page_row(
    bytes: &mut Vec<u8>,
    page: u64,
    bucket: Bucket,
    state: PageState,
) -> Result<(), NoMemory>
    ensures { OnOk result (bytes.new.items
        ≡ bytes.old.items ++ page_row_bytes (page, record { bucket = bucket; state = state })) }
{
    let [p0, p1, p2, p3, p4, p5, p6, p7] = page.to_le_bytes();
    let [c0, c1, c2, c3, c4, c5, c6, c7] = u64::from(bucket.count).to_le_bytes();
    let [s0, s1, s2, s3, s4, s5, s6, s7] = bucket.stamp.to_le_bytes();
    let state = state_number(state);
    bytes.extend_from_slice(&[
        p0, p1, p2, p3, p4, p5, p6, p7, c0, c1, c2, c3, c4, c5, c6, c7, s0, s1, s2, s3, s4, s5, s6,
        s7, state,
    ])?;
    Ok(())
}
