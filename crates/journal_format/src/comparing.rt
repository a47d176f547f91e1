//! Compares bytes with the checkpoint of a given account.
ghost use Rattle.std.specs.Prelude.{◌≡◌, ◌≢◌, ◌↔◌, ◌++◌, ℕ, List, IsTrue, IfOk, IfSome, None};
ghost use Rattle.std.specs.List.{flat_map};
ghost use Rattle.entry_format.specs.declared.version.Version.TheVariants.{Two};
ghost use Rattle.entry_format.specs.Spelling.{name_bytes};
ghost use Rattle.journal_format.specs.Checkpoints.{IsCheckpoint};

use crate::encoding::{push_front, push_modules, push_pages, tell_account};
use ras_account::Account;
use ras_base::NoMemory;
use ras_base::little_endian::push_u64;
use std::alloc::Global;

// Returns the bytes after a piece, or `None` if they don't begin with the piece.
fn after<'a>(piece: &[u8], bytes: &'a [u8]) -> Option<&'a [u8]>
    ensures some { IfSome result (λ rest. bytes.now ≡ piece.now ++ rest.now) }
    ensures none { result ≡ None → (rest : List ℕ) → bytes.now ≢ piece.now ++ rest }
{
    bytes.strip_prefix(piece)
}

// Returns the bytes after the names of an account, or `None` if they don't begin with them.
fn after_names<'a>(account: &Account, bytes: &'a [u8]) -> Option<&'a [u8]>
    ensures some { IfSome result (λ rest. bytes.now
        ≡ flat_map name_bytes account.now.state.names ++ rest.now) }
    ensures none { result ≡ None → (rest : List ℕ)
        → bytes.now ≢ flat_map name_bytes account.now.state.names ++ rest }
{
    after(account.spelled_names(), bytes)
}

/// Returns whether bytes are the checkpoint of this account in version 2. Builds no second account
/// from them.
///
/// `NoMemory`: only if memory runs out.
pub fn is_checkpoint_of(alloc: Global, account: &Account, bytes: &[u8]) -> Result<bool, NoMemory>
    ensures { IfOk result (λ same. IsTrue same ↔ IsCheckpoint Two account.now.state bytes.now) }
{
    tell_account(account);
    let mut front = Vec::new(alloc);
    push_front(&mut front, account)?;
    push_u64(&mut front, account.names_len() as u64)?;
    let Some(rest) = after(&front, bytes) else {
        return Ok(false);
    };
    let Some(rest) = after_names(account, rest) else {
        return Ok(false);
    };
    let mut rows = Vec::new(alloc);
    push_modules(&mut rows, account)?;
    push_pages(&mut rows, account)?;
    Ok(rest == rows.as_slice())
}
