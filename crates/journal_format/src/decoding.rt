//! Converts checkpoints to accounts.
ghost use Rattle.std.specs.Prelude.{◌≡◌, ◌≢◌, ◌≤◌, ◌∷◌, ◌++◌, ℕ, List, [], IfOk, OnOk, IsOkAnd, Ok, Err};
ghost use Rattle.dimm_topology.specs.Labels.{Bytes};
ghost use Rattle.page_policy.specs.declared.rows.PageRow.{PageRow};
ghost use Rattle.ras_facts.specs.declared.name.Name.{Name};
ghost use Rattle.page_policy.specs.Buckets.{IsLimit, most_count};
ghost use Rattle.ras_facts.specs.Valid.{IsPage};
ghost use Rattle.ras_account.specs.Accounts.{IsModuleRow};
ghost use Rattle.ras_account.specs.declared.limits.TheConstants.{MOST_ENTRIES};
ghost use Rattle.ras_account.specs.Modules.{Module};
ghost use Rattle.ras_account.specs.Account.{State};
ghost use Rattle.ras_account.specs.Rows.{row_of, with_name, with_module, with_page};
ghost use Rattle.ras_account.specs.View.{nothing};
ghost use Rattle.entry_format.specs.Reading.{name_at};
ghost use Rattle.journal_format.specs.Checkpoints.{IsCheckpoint};
ghost use Rattle.journal_format.specs.CheckpointReading.{list_at, module_at, page_row_at, checkpoint_in};
ghost use Rattle.journal_format.specs.Steps.Decoding.{AreNames, AreModules, ArePages, Holds, AreTaken, account_with, with_rows_of};

use crate::CheckpointRefused;
use crate::row_reading::{CheckpointFront, floor_in, front_at, module_at, page_row_at};
use entry_format::{EntryRefused, Version, name_at, u64_at};
use page_policy::{Bucket, PageState, RowRefused};
use ras_account::{Account, ModuleRow, PushRefused, Rebuilt};
use ras_base::NoMemory;
use ras_facts::Name;
use std::alloc::Global;

// The fewest bytes of a name: its kind and one number.
const LEAST_NAME: usize = 9;

// Reserves memory at once for the names at the front of the bytes. Their number comes from a file,
// so it may be anything: memory is reserved for no more names than the bytes can contain.
fn make_room(account: &mut Rebuilt, count: u64, bytes: &[u8]) -> Result<(), NoMemory>
    ensures { account.new ≡ account.old }
{
    let most = (bytes.len() / LEAST_NAME) as u64;
    account.make_room_for_names(count.min(most) as usize)
}

// Adds a name to an account that has no floor. `Bad` is returned if and only if the account has the
// name or the account is full.
fn put_name(account: &mut Rebuilt, name: Name) -> Result<(), EntryRefused>
    requires floor { account.old.floor ≡ 0 }
    ensures ok { OnOk result (account.new ≡ with_name account.old name) }
    ensures bad { result ≡ Err EntryRefused.Bad → (later : List Name)
        → ¬ AreNames (account.old.names ++ name ∷ later) }
{
    match account.push_name(name) {
        Ok(()) => Ok(()),
        Err(PushRefused::Repeated) => Err(EntryRefused::Bad),
        Err(PushRefused::Full) => Err(EntryRefused::Bad),
        Err(PushRefused::NoMemory) => Err(EntryRefused::NoMemory),
    }
}

// Adds the names at the front of the bytes to an account that has no names and no floor. Returns
// the bytes after them.
fn names_at<'a>(account: &mut Rebuilt, bytes: &'a [u8]) -> Result<&'a [u8], EntryRefused>
    requires none { account.old.names ≡ [] }
    requires floor { account.old.floor ≡ 0 }
    ensures read { IfOk result (λ rest. list_at name_at bytes.now
        ≡ Ok (account.new.names, rest.now)) }
    ensures state { OnOk result (account.new
        ≡ record account.old { names = account.new.names }) }
    ensures bad { result ≡ Err EntryRefused.Bad → (names : List Name) (rest : List ℕ)
        → list_at name_at bytes.now ≡ Ok (names, rest) → ¬ AreNames names }
{
    let (count, mut rest) = match u64_at(bytes) {
        Ok(found) => found,
        Err(refused) => return Err(refused),
    };
    make_room(account, count, rest)?;
    for _ in 0..count {
        let (name, after) = match name_at(rest) {
            Ok(found) => found,
            Err(refused) => return Err(refused),
        };
        match put_name(account, name) {
            Ok(()) => rest = after,
            Err(refused) => return Err(refused),
        }
    }
    Ok(rest)
}

// Adds a module's row to an account. `Bad` is returned if and only if its label has a row or the
// account is full.
fn put_module(account: &mut Rebuilt, row: ModuleRow) -> Result<(), EntryRefused>
    requires row { IsModuleRow (row_of row) }
    ensures ok { OnOk result (account.new ≡ with_module account.old (row_of row)) }
    ensures bad { result ≡ Err EntryRefused.Bad → (later : List (Bytes × Module))
        → ¬ AreModules (account.old.modules ++ row_of row ∷ later) }
{
    match account.push_module(row) {
        Ok(()) => Ok(()),
        Err(PushRefused::Repeated) => Err(EntryRefused::Bad),
        Err(PushRefused::Full) => Err(EntryRefused::Bad),
        Err(PushRefused::NoMemory) => Err(EntryRefused::NoMemory),
    }
}

// Adds the rows of modules at the front of the bytes to an account without rows of modules. Returns
// the bytes after them.
fn modules_at<'a>(
    alloc: Global,
    version: Version,
    account: &mut Rebuilt,
    bytes: &'a [u8],
) -> Result<&'a [u8], EntryRefused>
    requires { account.old.modules ≡ [] }
    ensures read { IfOk result (λ rest. list_at (module_at version) bytes.now
        ≡ Ok (account.new.modules, rest.now)) }
    ensures state { OnOk result (account.new
        ≡ record account.old { modules = account.new.modules; total = account.new.total }) }
    ensures bad { result ≡ Err EntryRefused.Bad → (rows : List (Bytes × Module)) (rest : List ℕ)
        → list_at (module_at version) bytes.now ≡ Ok (rows, rest) → ¬ AreModules rows }
{
    let (count, mut rest) = match u64_at(bytes) {
        Ok(found) => found,
        Err(refused) => return Err(refused),
    };
    for _ in 0..count {
        let (row, after) = match module_at(alloc, version, rest) {
            Ok(found) => found,
            Err(refused) => return Err(refused),
        };
        match put_module(account, row) {
            Ok(()) => rest = after,
            Err(refused) => return Err(refused),
        }
    }
    Ok(rest)
}

// Adds a page's row to an account. `Bad` is returned if and only if the page has a row.
fn put_page(
    account: &mut Rebuilt,
    page: u64,
    bucket: Bucket,
    state: PageState,
) -> Result<(), EntryRefused>
    requires page { IsPage page }
    requires count { bucket.count ≤ most_count }
    ensures ok { OnOk result (account.new
        ≡ with_page account.old (page, record { bucket = bucket; state = state })) }
    ensures bad { result ≡ Err EntryRefused.Bad → (later : List (ℕ × PageRow))
        → ¬ ArePages (account.old.pages
        ++ (page, record { bucket = bucket; state = state }) ∷ later) }
{
    match account.push_page(page, bucket, state) {
        Ok(()) => Ok(()),
        Err(RowRefused::Repeated) => Err(EntryRefused::Bad),
        Err(RowRefused::NoMemory) => Err(EntryRefused::NoMemory),
    }
}

// Adds the rows of pages at the front of the bytes to an account without rows of pages. Returns the
// bytes after them.
fn pages_at<'a>(account: &mut Rebuilt, bytes: &'a [u8]) -> Result<&'a [u8], EntryRefused>
    requires { account.old.pages ≡ [] }
    ensures read { IfOk result (λ rest. list_at page_row_at bytes.now
        ≡ Ok (account.new.pages, rest.now)) }
    ensures state { OnOk result (account.new
        ≡ record account.old { pages = account.new.pages }) }
    ensures bad { result ≡ Err EntryRefused.Bad → (rows : List (ℕ × PageRow)) (rest : List ℕ)
        → list_at page_row_at bytes.now ≡ Ok (rows, rest) → ¬ ArePages rows }
{
    let (count, mut rest) = match u64_at(bytes) {
        Ok(found) => found,
        Err(refused) => return Err(refused),
    };
    for _ in 0..count {
        let ((page, bucket, state), after) = match page_row_at(rest) {
            Ok(found) => found,
            Err(refused) => return Err(refused),
        };
        match put_page(account, page, bucket, state) {
            Ok(()) => rest = after,
            Err(refused) => return Err(refused),
        }
    }
    Ok(rest)
}

// Returns the account with these numbers at its front, filled from the bytes after them.
fn filled(
    alloc: Global,
    version: Version,
    front: CheckpointFront,
    bytes: &[u8],
) -> Result<Rebuilt, EntryRefused>
    requires limit { IsLimit front.limit }
    requires module_limit { IsLimit front.module_limit }
    requires entries { front.entries ≤ MOST_ENTRIES }
    ensures holds { IfOk result (λ account. Holds version front.floor bytes.now account) }
    ensures state { IfOk result (λ account. account
        ≡ with_rows_of (account_with front.limit front.module_limit front.entries) account) }
    ensures bad { result ≡ Err EntryRefused.Bad → (a : State)
        → Holds version front.floor bytes.now a → ¬ AreTaken a }
{
    let mut account = Rebuilt::new(alloc, front.limit, front.module_limit, front.entries);
    match fill(alloc, version, front.floor, &mut account, bytes) {
        Ok(()) => Ok(account),
        Err(refused) => Err(refused),
    }
}

// Reads the names, modules, pages and floor from the bytes after a checkpoint's front into an
// account without any of these. The account is borrowed, so that the caller drops it in one place,
// whatever is refused here.
fn fill(
    alloc: Global,
    version: Version,
    floor: u64,
    account: &mut Rebuilt,
    bytes: &[u8],
) -> Result<(), EntryRefused>
    requires names { account.old.names ≡ [] }
    requires modules { account.old.modules ≡ [] }
    requires pages { account.old.pages ≡ [] }
    requires floor { account.old.floor ≡ 0 }
    ensures holds { OnOk result (Holds version floor bytes.now account.new) }
    ensures state { OnOk result (account.new ≡ with_rows_of account.old account.new) }
    ensures bad { result ≡ Err EntryRefused.Bad → (a : State)
        → Holds version floor bytes.now a → ¬ AreTaken a }
{
    let rest = names_at(account, bytes)?;
    let rest = modules_at(alloc, version, account, rest)?;
    let rest = pages_at(account, rest)?;
    let floor = floor_in(version, floor, rest)?;
    if account.set_floor(floor) {
        Ok(())
    } else {
        Err(EntryRefused::Bad)
    }
}

// Returns the account whose checkpoint the bytes are.
fn account_at(alloc: Global, version: Version, bytes: &[u8]) -> Result<Account, EntryRefused>
    ensures waiting { IfOk result (λ account. account.waiting ≡ nothing) }
    ensures found { IfOk result (λ account. checkpoint_in version bytes.now ≡ Ok account.state) }
    ensures bad { result ≡ Err EntryRefused.Bad → (a : State)
        → checkpoint_in version bytes.now ≢ Ok a }
{
    let (front, rest) = front_at(version, bytes)?;
    match filled(alloc, version, front, rest) {
        Ok(account) => Ok(account.into_account()),
        Err(refused) => Err(refused),
    }
}

/// Returns the account whose checkpoint the bytes are, in the given version. No memory is reserved
/// in it. Each byte is read once.
///
/// `Bad`: if and only if the bytes aren't exactly a checkpoint of that version. `NoMemory`: only if
/// memory runs out.
pub fn read_checkpoint(
    alloc: Global,
    version: Version,
    bytes: &[u8],
) -> Result<Account, CheckpointRefused>
    // The returned account is the account whose checkpoint the bytes are.
    ensures found { IfOk result (λ account. IsCheckpoint version account.state bytes.now) }
    ensures waiting { IfOk result (λ account. account.waiting ≡ nothing) }

    // Rejected bytes aren't a checkpoint, and a checkpoint is read, unless memory runs out.
    ensures bad { result ≡ Err CheckpointRefused.Bad → (a : State)
        → ¬ IsCheckpoint version a bytes.now }
    ensures account { (a : State) → IsCheckpoint version a bytes.now
        → result ≢ Err CheckpointRefused.NoMemory → IsOkAnd result (λ account. account.state ≡ a) }
{
    match account_at(alloc, version, bytes) {
        Ok(account) => Ok(account),
        Err(EntryRefused::Bad) => Err(CheckpointRefused::Bad),
        Err(EntryRefused::NoMemory) => Err(CheckpointRefused::NoMemory),
    }
}
