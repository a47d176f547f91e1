//! How many bytes a checkpoint has, and where it is in a journal file.
ghost use Rattle.std.specs.Prelude.{◌≡◌, ◌≤◌, ◌*◌, Bool, length, min};
ghost use Rattle.std.specs.List.{flat_map};
ghost use Rattle.ras_base.specs.LittleEndian.{u64_bytes};
ghost use Rattle.entry_format.specs.declared.version.Version.TheVariants.{Two};
ghost use Rattle.ras_account.specs.Rows.{row_of};
ghost use Rattle.journal_format.specs.Checkpoints.{replacement_bytes, module_bytes, page_row_bytes, checkpoint_bytes};

use mca_status::CLASS_COUNT;
use page_policy::Bucket;
use ras_account::{Account, ModuleRow};

/// The offset of the checkpoint in a journal file: after the gate, the eight bytes that name the
/// format, the generation and the checkpoint's length.
pub const CHECKPOINT_PLACE: usize = 25;

/// How many bytes a checkpoint has besides its rows: two limits, the number of entries, the floor,
/// and three numbers of rows.
const BYTES_BESIDE_ROWS: u128 = 72;

/// How many bytes the row of a page has.
const PAGE_ROW_BYTES: u128 = 25;

// How many bytes a module's replacement has.
#[tactic(auto, using(crate::proofs::SizeLemmas::row_sizes), unfolding(crate::specs::Checkpoints::replacement_bytes, crate::specs::Checkpoints::bucket_bytes))]
fn replacement_len(bucket: Option<Bucket>) -> usize
    ensures length { (replace : Bool) → result ≡ length (replacement_bytes bucket replace) }
    ensures most { result ≤ 18 }
{
    match bucket {
        None => 1,
        Some(_) => 18,
    }
}

// How many bytes the sums of a module have.
#[tactic(auto, using(crate::proofs::SizeLemmas::row_sizes))]
fn sums_len(sums: &[u64]) -> usize
    requires { length sums.now ≤ CLASS_COUNT }
    ensures length { result ≡ length (flat_map u64_bytes sums.now) }
    ensures most { result ≤ 8 * CLASS_COUNT }
{
    8 * sums.len()
}

// How many bytes the row of a module has.
#[tactic(auto, using(crate::proofs::SizeLemmas::row_sizes), unfolding(crate::specs::Checkpoints::module_bytes, entry_format::specs::Spelling::label_bytes))]
fn module_len(row: &ModuleRow) -> usize
    ensures length { result ≡ length (module_bytes Two (row_of row.now)) }
    ensures most { result ≤ 131 }
{
    1 + row.label.bytes().len() + sums_len(&row.sums) + replacement_len(row.bucket)
}

// How many bytes the rows of modules have.
fn modules_len(account: &Account) -> u128
    ensures length { result ≡ length (flat_map (module_bytes Two) account.now.state.modules) }
    ensures most { result ≤ 131 * usize.MAX }
{
    let mut total = 0;
    for i in 0..account.modules_len() {
        total += module_len(account.module(i)) as u128;
    }
    total
}

/// Returns how many bytes the checkpoint of an account has in version 2, or the greatest number of
/// 64 bits if they are more.
#[tactic(auto, using(crate::proofs::SizeLemmas::checkpoint_size))]
pub fn checkpoint_len(account: &Account) -> u64
    ensures { result ≡ min u64.MAX (length (checkpoint_bytes Two account.now.state)) }
{
    let pages = PAGE_ROW_BYTES * account.pages().len() as u128;
    let names = account.spelled_names().len() as u128;
    let length = BYTES_BESIDE_ROWS + names + modules_len(account) + pages;
    length.min(u128::from(u64::MAX)) as u64
}
