//! Converts accounts to checkpoints.
ghost use Rattle.std.specs.Prelude.{◌≡◌, ◌<◌, ◌^◌, ◌++◌, length, OnOk};
ghost use Rattle.std.specs.List.{flat_map};
ghost use Rattle.entry_format.specs.declared.version.Version.TheVariants.{Two};
ghost use Rattle.entry_format.specs.Spelling.{name_bytes};
ghost use Rattle.ras_account.specs.Accounts.{IsAccount};
ghost use Rattle.journal_format.specs.Checkpoints.{list_bytes, module_bytes, page_row_bytes, front_bytes, checkpoint_bytes, IsCheckpoint};

use crate::rows::{push_module, push_page_row};
use entry_format::push_limit;
use ras_account::Account;
use ras_base::NoMemory;
use ras_base::little_endian::push_u64;

// Appends the numbers at the front.
#[tactic(auto, unfolding(crate::specs::Checkpoints::front_bytes))]
pub(crate) fn push_front(bytes: &mut Vec<u8>, account: &Account) -> Result<(), NoMemory>
    ensures { OnOk result (bytes.new.items ≡ bytes.old.items ++ front_bytes Two account.now.state) }
{
    push_limit(bytes, account.limit())?;
    push_limit(bytes, account.module_limit())?;
    push_u64(bytes, account.entries())?;
    push_u64(bytes, account.floor())
}

// Appends the names.
fn push_names(bytes: &mut Vec<u8>, account: &Account) -> Result<(), NoMemory>
    ensures { OnOk result (bytes.new.items
        ≡ bytes.old.items ++ list_bytes name_bytes account.now.state.names) }
{
    let count = account.names_len();
    push_u64(bytes, count as u64)?;
    bytes.extend_from_slice(account.spelled_names())?;
    Ok(())
}

// Appends the rows of modules.
pub(crate) fn push_modules(bytes: &mut Vec<u8>, account: &Account) -> Result<(), NoMemory>
    ensures { OnOk result (bytes.new.items
        ≡ bytes.old.items ++ list_bytes (module_bytes Two) account.now.state.modules) }
{
    let count = account.modules_len();
    push_u64(bytes, count as u64)?;
    for i in 0..count {
        push_module(bytes, account.module(i))?;
    }
    Ok(())
}

// Appends the rows of pages.
pub(crate) fn push_pages(bytes: &mut Vec<u8>, account: &Account) -> Result<(), NoMemory>
    ensures { OnOk result (bytes.new.items
        ≡ bytes.old.items ++ list_bytes page_row_bytes account.now.state.pages) }
{
    let pages = account.pages();
    let count = pages.len();
    push_u64(bytes, count as u64)?;
    for i in 0..count {
        let (page, bucket, state) = pages.row(i);
        push_page_row(bytes, page, bucket, state)?;
    }
    Ok(())
}

// Does nothing. By the contracts of its calls, `account` is a valid account and its numbers of rows
// fit their fields.
pub(crate) fn tell_account(account: &Account)
    ensures account { IsAccount account.now.state }
    ensures modules { length account.now.state.modules < 2 ^ 64 }
    ensures pages { length account.now.state.pages < 2 ^ 64 }
{
    let _ = account.entries();
    let _ = account.modules_len();
    let _ = account.pages().len();
}

/// Appends the checkpoint of an account in version 2, which has as many bytes as
/// [`crate::checkpoint_len`] returns. If memory runs out, some of its bytes may have been added.
#[tactic(auto, unfolding(crate::specs::Checkpoints::checkpoint_bytes, crate::specs::Checkpoints::end_bytes))]
pub fn push_checkpoint(bytes: &mut Vec<u8>, account: &Account) -> Result<(), NoMemory>
    ensures bytes { OnOk result (bytes.new.items
        ≡ bytes.old.items ++ checkpoint_bytes Two account.now.state) }
    ensures account { OnOk result (IsCheckpoint Two account.now.state
        (checkpoint_bytes Two account.now.state)) }
{
    tell_account(account);
    push_front(bytes, account)?;
    push_names(bytes, account)?;
    push_modules(bytes, account)?;
    push_pages(bytes, account)
}
