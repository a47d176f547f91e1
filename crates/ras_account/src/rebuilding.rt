//! Rebuilds an account from its numbers and rows, which are read one after the other.
ghost use Rattle.std.specs.Prelude.{◌≡◌, ◌↔◌, ◌+◌, ◌<◌, ◌≤◌, ◌^◌, ◌++◌, [], ◌∷◌, None, Err, IsTrue, IfSome, IfNone, OnOk, OnErr, not, sum, length};
ghost use Rattle.std.specs.Bool.{IsFalse, OnTrue, OnFalse};
ghost use Rattle.mca_status.specs.declared.classes.TheConstants.{CLASS_COUNT};
ghost use Rattle.dimm_topology.specs.Labels.{is_label_or_none};
ghost use Rattle.row_tables.specs.declared.row_table.RowRefused.TheVariants.{Repeated as RowRepeated};
ghost use Rattle.page_policy.specs.Pages.{page_entry};
ghost use Rattle.ras_account.specs.declared.rebuilding.PushRefused.TheVariants.{Repeated, Full};
ghost use Rattle.page_policy.specs.Buckets.{IsLimit, most_count};
ghost use Rattle.ras_facts.specs.Valid.{IsPage, IsValidName};
ghost use Rattle.ras_account.specs.History.{is_retired};
ghost use Rattle.ras_account.specs.Fresh.{is_among};
ghost use Rattle.ras_account.specs.Rows.{has_retired, has_module, has_page, with_name, with_module, with_page};
ghost use Rattle.ras_account.specs.View.{nothing};
ghost use Rattle.ras_account.specs.Rows.{row_of};
ghost use Rattle.ras_account.specs.Account.{account_of, weight_in};
ghost use Rattle.ras_account.specs.Accounts.{IsAccount};
ghost use Rattle.ras_account.specs.History.{empty};

use crate::{Account, MOST_ENTRIES, MOST_NAMES, MOST_TOTAL, ModuleRow};
use mca_status::CLASS_COUNT;
use page_policy::{Bucket, Limit, PageState};
use ras_base::NoMemory;
use ras_facts::Name;
use row_tables::RowRefused;
use std::alloc::Global;
use std::marker::Model;
use thiserror::Error;

/// Why a name or a module's row can't be added.
#[derive(Clone, Copy, Debug, PartialEq, Eq, Drop, Error)]
pub enum PushRefused {
    /// The name or the label is there already.
    #[error("the account holds this already")]
    Repeated,
    /// The account would pass `MOST_NAMES` or `MOST_TOTAL`.
    #[error("the account is full")]
    Full,
    /// Memory ran out.
    #[error("memory ran out")]
    NoMemory,
}

impl From<RowRefused> for PushRefused {
    ghost use Rattle.ras_account.specs.Steps.Refusals.{push_refused};

    ghost from_gives = { λ refused e. e ≡ push_refused refused };

    fn from(refused: RowRefused) -> Self {
        match refused {
            RowRefused::Repeated => PushRefused::Repeated,
            RowRefused::NoMemory => PushRefused::NoMemory,
        }
    }
}

/// An account that is rebuilt from its rows. Nothing is reserved in it.
#[derive(Drop)]
pub struct Rebuilt {
    account: Account,
}

impl Model for Rebuilt {
    ghost use Rattle.std.specs.Prelude.{◌≡◌};
    ghost use Rattle.ras_account.specs.Account.{State};
    ghost use Rattle.ras_account.specs.View.{nothing};

    ghost Value = { State };

    ghost view = { λ r. r.account.state };

    ghost invariant = { λ r. r.account.waiting ≡ nothing };
}

impl Rebuilt {
    /// Returns an account with these limits in force for pages and modules, this number of entries,
    /// and no floor, names or rows yet. Requires at most `MOST_ENTRIES` entries.
    pub fn new(alloc: Global, limit: Limit, module_limit: Limit, entries: u64) -> Rebuilt
        requires limit { IsLimit limit }
        requires module_limit { IsLimit module_limit }
        requires entries { entries ≤ MOST_ENTRIES }
        ensures { result ≡ record (account_of empty) {
          limit = limit;
          module_limit = module_limit;
          entries = entries;
        } }
    {
        let mut account = Account::new(alloc);
        account.in_force.limit = limit;
        account.in_force.module_limit = module_limit;
        account.entries = entries;
        Rebuilt { account }
    }

    /// Sets the floor, and returns true, unless some name in the account is of a boot below it. It
    /// then returns false and changes nothing.
    pub fn set_floor(&mut self, floor: u64) -> bool
        ensures exact { result ≡ not (has_retired floor self.old.names) }
        ensures set { OnTrue result (self.new ≡ record self.old { floor = floor }) }
        ensures kept { OnFalse result (self.new ≡ self.old) }
    {
        if self.account.names.any_retired(floor) {
            return false;
        }
        self.account.in_force.floor = floor;
        true
    }

    /// Reserves memory for this many more names at once, but for no more than `MOST_NAMES`. The
    /// account doesn't change.
    pub fn make_room_for_names(&mut self, additional: usize) -> Result<(), NoMemory>
        ensures { self.new ≡ self.old }
    {
        self.account.names.make_room(additional.min(MOST_NAMES))
    }

    /// Appends a name. Requires that its boot isn't retired. After an error the account is
    /// unchanged.
    ///
    /// `Repeated`: if and only if the name is there already. `Full`: if it isn't there and there
    /// are
    /// `MOST_NAMES` names, unless memory runs out; never otherwise.
    pub fn push_name(&mut self, name: Name) -> Result<(), PushRefused>
        requires { IsFalse (is_retired self.old.floor name) }
        ensures ok { OnOk result (self.new ≡ with_name self.old name) }
        ensures err { OnErr result (self.new ≡ self.old) }
        ensures repeated { (result ≡ Err Repeated) ↔ IsTrue (is_among self.old.names name) }
        ensures full { result ≡ Err Full → length self.old.names ≡ MOST_NAMES }
        ensures within { OnOk result (length self.old.names < MOST_NAMES) }
    {
        tell_valid_name(&name);
        if self.account.names.len() < MOST_NAMES {
            self.account.names.push(name)?;
            return Ok(());
        }
        if self.account.names.holds(&name) {
            Err(PushRefused::Repeated)
        } else {
            Err(PushRefused::Full)
        }
    }

    /// Appends the row of a module, and adds its ten sums to the total weight. Requires a bucket of
    /// at most 999,999 errors, no bucket in a row without a label, and nothing to replace in a row
    /// without a bucket. After an error the account is unchanged.
    ///
    /// `Repeated`: if and only if the label has a row. `Full`: if it hasn't and the total weight
    /// would exceed `MOST_TOTAL`, unless memory runs out; never otherwise.
    pub fn push_module(&mut self, row: ModuleRow) -> Result<(), PushRefused>
        requires count { IfSome row.bucket (λ bucket. bucket.count ≤ most_count) }
        requires replace { row.bucket ≡ None → IsFalse row.replace }
        requires unlabeled { row.label ≡ [] → row.bucket ≡ None }
        ensures ok { OnOk result (self.new ≡ with_module self.old (row_of row)) }
        ensures err { OnErr result (self.new ≡ self.old) }
        ensures repeated { (result ≡ Err Repeated) ↔ IsTrue (has_module self.old row.label) }
        ensures full { result ≡ Err Full → MOST_TOTAL < weight_in self.old.modules + sum row.sums }
        ensures within { OnOk result (self.old.total + sum row.sums ≤ MOST_TOTAL) }
    {
        tell_valid_row(&row);
        if let Some(total) = weight_with(self.account.total, &row.sums) {
            self.account.modules.push(row)?;
            self.account.total = total;
            return Ok(());
        }
        if self.account.modules.holds(&row.label) {
            Err(PushRefused::Repeated)
        } else {
            Err(PushRefused::Full)
        }
    }

    /// Appends the row of a page. Requires a page below 2^52 and a bucket of at most 999,999
    /// errors. After an error the account is unchanged.
    ///
    /// `Repeated`: if and only if the page has a row.
    pub fn push_page(
        &mut self,
        page: u64,
        bucket: Bucket,
        state: PageState,
    ) -> Result<(), RowRefused>
        requires page { IsPage page }
        requires count { bucket.count ≤ most_count }
        ensures ok { OnOk result
            (self.new ≡ with_page self.old (page_entry page bucket state)) }
        ensures err { OnErr result (self.new ≡ self.old) }
        ensures repeated { (result ≡ Err RowRepeated) ↔ IsTrue (has_page self.old page) }
    {
        tell_valid_bucket(bucket);
        self.account.pages.push_row(page, bucket, state)
    }

    /// Returns the rebuilt account. Nothing is reserved in it.
    pub fn into_account(self) -> Account
        ensures state { result.state ≡ self }
        ensures waiting { result.waiting ≡ nothing }
        ensures account { IsAccount self }
    {
        let _ = self.account.entries();
        self.account
    }
}

// The types of a name's fields prove that each number fits its field.
fn tell_valid_name(name: &Name)
    ensures { IsValidName name.now }
{
    match name {
        Name::Bank {
            boot,
            cpu,
            bank,
            tsc,
        } => tell_ranges(*boot, *cpu, *bank, *tsc),
        Name::Block {
            boot,
            source,
            number,
        } => tell_ranges(*boot, *source, 0, *number),
        Name::Record { id } => tell_ranges(*id, 0, 0, 0),
        Name::Boot { boot } => tell_ranges(*boot, 0, 0, 0),
    }
}

// The types of these numbers prove that each fits its field.
fn tell_ranges(boot: u64, cpu: u16, bank: u8, tsc: u64)
    ensures boot { boot < 2 ^ 64 }
    ensures cpu { cpu < 2 ^ 16 }
    ensures bank { bank < 2 ^ 8 }
    ensures tsc { tsc < 2 ^ 64 }
{
    let _ = (boot, cpu, bank, tsc);
}

// The type of a bucket's time proves that it fits its field.
fn tell_valid_bucket(bucket: Bucket)
    ensures { bucket.stamp < 2 ^ 64 }
{
    let _ = bucket.stamp;
}

// The types of a row's label, sums and time prove that they fit their fields.
fn tell_valid_row(row: &ModuleRow)
    ensures label { IsTrue (is_label_or_none row.now.label) }
    ensures ten { length row.now.sums ≡ CLASS_COUNT }
    ensures stamp { IfSome row.now.bucket (λ bucket. bucket.stamp < 2 ^ 64) }
{
    let _ = row.label.bytes();
    let _ = row.sums.len();
    if let Some(bucket) = row.bucket {
        tell_valid_bucket(bucket);
    }
}

// The total weight with ten more sums, or `None` if it exceeds `MOST_TOTAL`.
fn weight_with(total: u64, sums: &[u64; CLASS_COUNT]) -> Option<u64>
    requires { total ≤ MOST_TOTAL }
    ensures some { IfSome result (λ more. more ≡ total + sum sums.now) }
    ensures within { IfSome result (λ more. more ≤ MOST_TOTAL) }
    ensures none { IfNone result (MOST_TOTAL < total + sum sums.now) }
{
    let mut more = total;
    for weight in sums {
        if *weight > MOST_TOTAL - more {
            return None;
        }
        more += *weight;
    }
    Some(more)
}
