//! The line that ends an event, and the line that ends a whole run.

ghost use Rattle.std.specs.Prelude.{◌≡◌, ◌++◌, IfOk, OnOk};
ghost use Rattle.ras_texts.specs.Text.{done_line, end_line};

use ras_account::Account;
use ras_base::{NoMemory, push_number};
use std::alloc::Global;

// The most bytes of a done line: memory for them is allocated at once.
const DONE_LENGTH: usize = 26;

/// Returns the done line of an event, by the number of its line.
///
/// # Errors
///
/// `NoMemory`: only if memory runs out.
pub fn done_line(alloc: Global, number: u64) -> Result<Vec<u8>, NoMemory>
    ensures { IfOk result (λ text. text.items ≡ done_line number) }
{
    let mut text = Vec::with_capacity(alloc, DONE_LENGTH)?;
    push_done(&mut text, number)?;
    Ok(text)
}

/// Appends the done line of an event, by the number of its line. Allocates nothing if the text has
/// room for it.
///
/// # Errors
///
/// `NoMemory`: only if memory runs out.
pub fn push_done(text: &mut Vec<u8>, number: u64) -> Result<(), NoMemory>
    ensures { OnOk result (text.new.items ≡ text.old.items ++ done_line number) }
{
    text.extend_from_slice(b"done ")?;
    push_number(text, number)?;
    text.push(b'\n')?;
    Ok(())
}

/// Returns the line that ends a whole run: how many entries and how many names the account has.
///
/// # Errors
///
/// `NoMemory`: only if memory runs out.
pub fn end_line(alloc: Global, account: &Account) -> Result<Vec<u8>, NoMemory>
    ensures { IfOk result (λ text. text.items ≡ end_line account.now.state) }
{
    let mut text = Vec::from_slice(alloc, b"end entries=")?;
    push_number(&mut text, account.entries())?;
    text.extend_from_slice(b" names=")?;
    push_number(&mut text, account.names_len() as u64)?;
    text.extend_from_slice(b"\n")?;
    Ok(text)
}
