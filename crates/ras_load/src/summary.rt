//! The line that sums up an account.

ghost use Rattle.std.specs.Prelude.{◌≡◌, ◌==◌, IfOk};
ghost use Rattle.mca_status.specs.declared.classes.ItemClass.TheVariants.{Ce};
ghost use Rattle.page_policy.specs.Rows.{height};
ghost use Rattle.ras_account.specs.Accounts.{IsAccount};
ghost use Rattle.ras_load.specs.Summary.{class_total, load_line, pages_in};

use mca_status::ItemClass;
use page_policy::{PageState, Pages};
use ras_account::Account;
use ras_base::{NoMemory, push_number};
use std::alloc::Global;

/// Returns the line that sums up the account of `n` lines: how many names it has, the sum of the
/// weights of its items of class CE, and how many of its pages are to be soft-offlined and
/// hard-offlined.
///
/// # Errors
///
/// `NoMemory`: only if memory runs out.
pub fn load_line(alloc: Global, n: u64, account: &Account) -> Result<Vec<u8>, NoMemory>
    ensures { IfOk result (λ line. line.items ≡ load_line n account.now.state) }
{
    let mut line = Vec::from_slice(alloc, b"load n=")?;
    push_number(&mut line, n)?;
    line.extend_from_slice(b" names=")?;
    push_number(&mut line, account.names_len() as u64)?;
    line.extend_from_slice(b" CE=")?;
    push_number(&mut line, corrected_total(account))?;
    line.extend_from_slice(b" soft=")?;
    push_number(&mut line, pages_in(PageState::Soft, account.pages()))?;
    line.extend_from_slice(b" hard=")?;
    push_number(&mut line, pages_in(PageState::Hard, account.pages()))?;
    line.push(b'\n')?;
    Ok(line)
}

// Returns the weights of all items of class CE, together.
fn corrected_total(account: &Account) -> u64
    requires { IsAccount account.now.state }
    ensures { result ≡ class_total Ce account.now.state.modules }
{
    let mut total = 0u64;
    for i in 0..account.modules_len() {
        total += account.module(i).sums[usize::from(ItemClass::Ce.number())];
    }
    total
}

// Returns how many pages are in a state.
fn pages_in(state: PageState, pages: &Pages) -> u64
    ensures { result ≡ pages_in state pages.now.rows }
{
    let mut count = 0u64;
    for i in 0..pages.len() {
        let (_, _, of_page) = pages.row(i);
        if is_in(state, of_page) {
            count += 1;
        }
    }
    count
}

// Returns whether two states are the same.
fn is_in(state: PageState, of_page: PageState) -> bool
    ensures { result ≡ (height of_page == height state) }
{
    of_page == state
}
