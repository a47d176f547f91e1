//! The lines of entries that aren't reports, and the line of an entry that isn't new.

ghost use Rattle.std.specs.Prelude.{◌≡◌, ◌++◌, count_by, OnOk};
ghost use Rattle.ras_base.specs.Text.{line_with};
ghost use Rattle.ras_account.specs.History.{is_retired};
ghost use Rattle.ras_texts.specs.Text.{known_line, limit_text, repeat_line, retire_line};

use crate::pieces::push_name;
use page_policy::Limit;
use ras_account::Account;
use ras_base::{NoMemory, push_number};
use ras_facts::{Entry, Name};

// The most bytes of the line of a repeat, which has a bank's name with the greatest numbers. Memory
// for them is allocated at once, because most lines of a failing module are repeats.
const REPEAT_LENGTH: usize = 65;

/// Appends the line of an entry that isn't new in an account: a fact whose name is counted, or
/// whose boot is retired. Other entries have no such line.
///
/// # Errors
///
/// `NoMemory`: only if memory runs out.
pub fn push_repeat(text: &mut Vec<u8>, account: &Account, entry: &Entry) -> Result<(), NoMemory>
    ensures { OnOk result
        (text.new.items ≡ text.old.items ++ repeat_line account.now.state entry.now) }
{
    if let Entry::Fact(fact) = entry {
        text.reserve(REPEAT_LENGTH)?;
        push_known(text, account, &fact.name)?;
    }
    Ok(())
}

/// Appends the line of a name that an account knows: `stale` if its boot is retired, else `repeat`.
/// Allocates nothing if the text has room for it.
///
/// # Errors
///
/// `NoMemory`: only if memory runs out.
pub fn push_known(text: &mut Vec<u8>, account: &Account, name: &Name) -> Result<(), NoMemory>
    ensures { OnOk result
        (text.new.items ≡ text.old.items ++ known_line account.now.state name.now) }
{
    let is_stale = name.is_retired(account.floor());
    text.extend_from_slice(if is_stale { b"stale " } else { b"repeat " })?;
    push_name(text, name)?;
    text.push(b'\n')?;
    Ok(())
}

// Returns how many names of boots below this one an account has.
fn retired_names(account: &Account, boot: u64) -> u64
    ensures { result ≡ count_by (is_retired boot) account.now.state.names }
{
    let mut count = 0;
    for i in 0..account.names_len() {
        if account.name(i).is_retired(boot) {
            count += 1;
        }
    }
    count
}

/// Appends the line of a new limit, which begins with this word.
pub(crate) fn push_limit(text: &mut Vec<u8>, word: &[u8], limit: Limit) -> Result<(), NoMemory>
    ensures { OnOk result
        (text.new.items ≡ text.old.items ++ line_with (word.now ++ limit_text limit)) }
{
    text.extend_from_slice(word)?;
    text.extend_from_slice(b"capacity=")?;
    push_number(text, u64::from(limit.capacity))?;
    text.extend_from_slice(b" period=")?;
    push_number(text, u64::from(limit.period))?;
    text.extend_from_slice(b"\n")?;
    Ok(())
}

/// Appends the line of a retire that is new in an account, with how many names it drops.
pub(crate) fn push_retire(text: &mut Vec<u8>, account: &Account, boot: u64) -> Result<(), NoMemory>
    ensures { OnOk result (text.new.items ≡ text.old.items
        ++ retire_line boot (count_by (is_retired boot) account.now.state.names)) }
{
    text.extend_from_slice(b"retire boot=")?;
    push_number(text, boot)?;
    text.extend_from_slice(b" names=")?;
    push_number(text, retired_names(account, boot))?;
    text.extend_from_slice(b"\n")?;
    Ok(())
}
