//! The lines of a new entry: for a report one line for each item, with the item's detail.

ghost use Rattle.std.specs.Prelude.{◌≡◌, ◌++◌, OnOk};
ghost use Rattle.std.specs.List.{flat_map, zip};
ghost use Rattle.ras_texts.specs.Reports.{detail_text, empty_line, entry_lines, report_lines, told_line};
ghost use Rattle.ras_texts.specs.Text.{item_head};

use crate::detail::push_bank;
use crate::log::{push_limit, push_retire};
use crate::pieces::{class_word, push_label, push_name, push_page};
use crate::section::{push_memory, push_other, push_processor, push_x64};
use ras_account::Account;
use ras_base::{NoMemory, push_number};
use ras_facts::{Detail, Entry, Fact, Item};

/// Appends the lines of an entry that is new in an account. `details` are the details of its items,
/// one for each; only a fact has items.
///
/// # Errors
///
/// `NoMemory`: only if memory runs out.
pub fn push_entry(
    text: &mut Vec<u8>,
    details: &[Detail],
    account: &Account,
    entry: &Entry,
) -> Result<(), NoMemory>
    ensures { OnOk result (text.new.items
        ≡ text.old.items ++ entry_lines details.now account.now.state entry.now) }
{
    match entry {
        Entry::Fact(fact) => push_report(text, fact, details),
        Entry::Limit(limit) => push_limit(text, b"limit ", *limit),
        Entry::Retire(boot) => push_retire(text, account, *boot),
        Entry::ModuleLimit(limit) => push_limit(text, b"module-limit ", *limit),
    }
}

/// Appends the lines of a new report: one for each item with its detail, or one line that it lists
/// nothing. `details` are the details of its items, one for each.
///
/// # Errors
///
/// `NoMemory`: only if memory runs out.
pub fn push_report(text: &mut Vec<u8>, fact: &Fact, details: &[Detail]) -> Result<(), NoMemory>
    ensures { OnOk result (text.new.items ≡ text.old.items ++ report_lines fact.now details.now) }
{
    if fact.items.as_slice().is_empty() {
        push_empty(text, fact)
    } else {
        push_items(text, fact, details)
    }
}

/// Appends the detail of an item.
///
/// # Errors
///
/// `NoMemory`: only if memory runs out.
pub fn push_detail(text: &mut Vec<u8>, detail: &Detail) -> Result<(), NoMemory>
    ensures { OnOk result (text.new.items ≡ text.old.items ++ detail_text detail.now) }
{
    match detail {
        Detail::Bank(bank) => push_bank(text, bank),
        Detail::Memory(memory) => push_memory(text, memory),
        Detail::Processor(processor) => push_processor(text, processor),
        Detail::X64(x64) => push_x64(text, x64),
        Detail::Other(guid) => push_other(text, *guid),
    }
}

// Appends the line of a report that lists nothing.
#[tactic(auto, unfolding(crate::specs::Reports::empty_line))]
fn push_empty(text: &mut Vec<u8>, fact: &Fact) -> Result<(), NoMemory>
    ensures { OnOk result (text.new.items ≡ text.old.items ++ empty_line fact.now) }
{
    text.extend_from_slice(b"log ")?;
    push_name(text, &fact.name)?;
    text.extend_from_slice(b" t=")?;
    push_number(text, fact.seconds)?;
    text.extend_from_slice(b" empty\n")?;
    Ok(())
}

// Appends the line of each item with its detail.
fn push_items(text: &mut Vec<u8>, fact: &Fact, details: &[Detail]) -> Result<(), NoMemory>
    ensures { OnOk result (text.new.items
        ≡ text.old.items ++ flat_map (told_line fact.now) (zip fact.now.items details.now)) }
{
    let items = fact.items.as_slice();
    for i in 0..items.len().min(details.len()) {
        push_item(text, fact, &items[i], &details[i])?;
    }
    Ok(())
}

// Appends the line of an item with its detail.
#[tactic(auto, unfolding(crate::specs::Text::item_line))]
fn push_item(text: &mut Vec<u8>, fact: &Fact, item: &Item, detail: &Detail) -> Result<(), NoMemory>
    ensures { OnOk result
        (text.new.items ≡ text.old.items ++ told_line fact.now (item.now, detail.now)) }
{
    push_head(text, fact, item)?;
    text.extend_from_slice(b" label=")?;
    push_label(text, &item.label)?;
    text.extend_from_slice(b" page=")?;
    push_page(text, item.page)?;
    text.push(b' ')?;
    push_detail(text, detail)?;
    text.push(b'\n')?;
    Ok(())
}

// Appends the name, the time, the class and the weight of an item.
#[tactic(auto, unfolding(crate::specs::Text::item_head))]
fn push_head(text: &mut Vec<u8>, fact: &Fact, item: &Item) -> Result<(), NoMemory>
    ensures { OnOk result (text.new.items ≡ text.old.items ++ item_head fact.now item.now) }
{
    text.extend_from_slice(b"log ")?;
    push_name(text, &fact.name)?;
    text.extend_from_slice(b" t=")?;
    push_number(text, fact.seconds)?;
    text.extend_from_slice(b" class=")?;
    text.extend_from_slice(class_word(item.class))?;
    text.extend_from_slice(b" weight=")?;
    push_number(text, u64::from(item.weight))
}
