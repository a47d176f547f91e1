//! Appends entries as bytes.
ghost use Rattle.std.specs.Prelude.{◌≡◌, ◌++◌, ◌+◌, ◌≤◌, length, take, OnOk};
ghost use Rattle.std.specs.List.{flat_map};
ghost use Rattle.ras_facts.specs.Entries.{items_in};
ghost use Rattle.entry_format.specs.Spelling.{name_bytes, label_bytes, page_bytes, item_bytes, fact_bytes, limit_bytes, entry_bytes};

use crate::names::{BANK, BLOCK, BOOT, RECORD};
use crate::reading::{FACT, LIMIT, MODULE_LIMIT, RETIRE};
use dimm_topology::Label;
use page_policy::Limit;
use ras_base::NoMemory;
use ras_base::little_endian::{push_u16, push_u64};
use ras_facts::{Entry, Fact, Item, MOST_ITEMS, Name};

/// Appends the spelling of the name of a report. If memory runs out, some of its bytes may have
/// been added.
#[tactic(auto, unfolding(crate::specs::Spelling::name_bytes))]
pub fn push_name(bytes: &mut Vec<u8>, name: &Name) -> Result<(), NoMemory>
    ensures { OnOk result (bytes.new.items ≡ bytes.old.items ++ name_bytes name.now) }
{
    match name {
        Name::Bank {
            boot,
            cpu,
            bank,
            tsc,
        } => {
            let [b0, b1, b2, b3, b4, b5, b6, b7] = boot.to_le_bytes();
            let [c0, c1] = cpu.to_le_bytes();
            let [t0, t1, t2, t3, t4, t5, t6, t7] = tsc.to_le_bytes();
            let spelled = [
                BANK, b0, b1, b2, b3, b4, b5, b6, b7, c0, c1, *bank, t0, t1, t2, t3, t4, t5, t6, t7,
            ];
            bytes.extend_from_slice(&spelled)?;
            Ok(())
        }
        Name::Record { id } => {
            bytes.push(RECORD)?;
            push_u64(bytes, *id)
        }
        Name::Block {
            boot,
            source,
            number,
        } => {
            bytes.push(BLOCK)?;
            push_u64(bytes, *boot)?;
            push_u16(bytes, *source)?;
            push_u64(bytes, *number)
        }
        Name::Boot { boot } => {
            bytes.push(BOOT)?;
            push_u64(bytes, *boot)
        }
    }
}

/// Writes the spelling of the name of a report over the bytes from `place` on, and returns the
/// index after it.
#[inline(always)]
#[tactic(auto, unfolding(crate::specs::Spelling::name_bytes))]
pub fn put_name(room: &mut [u8], place: usize, name: &Name) -> usize
    requires { place + 20 ≤ length room.old }
    ensures spelled { take result room.new ≡ take place room.old ++ name_bytes name.now }
    ensures length { length room.new ≡ length room.old }
    ensures most { result ≤ place + 20 }
{
    match name {
        Name::Bank {
            boot,
            cpu,
            bank,
            tsc,
        } => {
            let [b0, b1, b2, b3, b4, b5, b6, b7] = boot.to_le_bytes();
            let [c0, c1] = cpu.to_le_bytes();
            let [t0, t1, t2, t3, t4, t5, t6, t7] = tsc.to_le_bytes();
            let spelled = [
                BANK, b0, b1, b2, b3, b4, b5, b6, b7, c0, c1, *bank, t0, t1, t2, t3, t4, t5, t6, t7,
            ];
            room[place..place + 20].copy_from_slice(&spelled);
            place + 20
        }
        Name::Record { id } => {
            let [i0, i1, i2, i3, i4, i5, i6, i7] = id.to_le_bytes();
            room[place..place + 9].copy_from_slice(&[RECORD, i0, i1, i2, i3, i4, i5, i6, i7]);
            place + 9
        }
        Name::Block {
            boot,
            source,
            number,
        } => {
            let [b0, b1, b2, b3, b4, b5, b6, b7] = boot.to_le_bytes();
            let [s0, s1] = source.to_le_bytes();
            let [n0, n1, n2, n3, n4, n5, n6, n7] = number.to_le_bytes();
            let spelled = [
                BLOCK, b0, b1, b2, b3, b4, b5, b6, b7, s0, s1, n0, n1, n2, n3, n4, n5, n6, n7,
            ];
            room[place..place + 19].copy_from_slice(&spelled);
            place + 19
        }
        Name::Boot { boot } => {
            let [b0, b1, b2, b3, b4, b5, b6, b7] = boot.to_le_bytes();
            room[place..place + 9].copy_from_slice(&[BOOT, b0, b1, b2, b3, b4, b5, b6, b7]);
            place + 9
        }
    }
}

/// Appends a label after the number of its bytes. If memory runs out, some of its bytes may have
/// been added.
#[tactic(auto, unfolding(crate::specs::Spelling::label_bytes))]
pub fn push_label(bytes: &mut Vec<u8>, label: &Label) -> Result<(), NoMemory>
    ensures { OnOk result (bytes.new.items ≡ bytes.old.items ++ label_bytes label.now) }
{
    let text = label.bytes();
    bytes.push(text.len() as u8)?;
    bytes.extend_from_slice(text)?;
    Ok(())
}

// Appends a page.
#[tactic(auto, unfolding(crate::specs::Spelling::page_bytes))]
fn push_page(bytes: &mut Vec<u8>, page: Option<u64>) -> Result<(), NoMemory>
    ensures { OnOk result (bytes.new.items ≡ bytes.old.items ++ page_bytes page) }
{
    match page {
        None => {
            bytes.push(0)?;
            Ok(())
        }
        Some(page) => {
            bytes.push(1)?;
            push_u64(bytes, page)
        }
    }
}

// Appends an item.
#[tactic(auto, unfolding(crate::specs::Spelling::item_bytes))]
fn push_item(bytes: &mut Vec<u8>, item: &Item) -> Result<(), NoMemory>
    ensures { OnOk result (bytes.new.items ≡ bytes.old.items ++ item_bytes item.now) }
{
    bytes.push(item.class.number())?;
    push_label(bytes, &item.label)?;
    push_page(bytes, item.page)?;
    push_u16(bytes, item.weight)
}

// Appends items in order.
fn push_items(bytes: &mut Vec<u8>, items: &[Item]) -> Result<(), NoMemory>
    ensures { OnOk result (bytes.new.items ≡ bytes.old.items ++ flat_map item_bytes items.now) }
{
    for item in items {
        push_item(bytes, item)?;
    }
    Ok(())
}

// Appends a fact.
#[tactic(auto, unfolding(crate::specs::Spelling::fact_bytes))]
fn push_fact(bytes: &mut Vec<u8>, fact: &Fact) -> Result<(), NoMemory>
    requires { length fact.now.items ≤ MOST_ITEMS }
    ensures { OnOk result (bytes.new.items ≡ bytes.old.items ++ fact_bytes fact.now) }
{
    let items = fact.items.as_slice();
    push_name(bytes, &fact.name)?;
    push_u64(bytes, fact.seconds)?;
    push_u16(bytes, items.len() as u16)?;
    push_items(bytes, items)
}

/// Appends the spelling of a limit. If memory runs out, some of its bytes may have been added.
#[tactic(auto, unfolding(crate::specs::Spelling::limit_bytes))]
pub fn push_limit(bytes: &mut Vec<u8>, limit: Limit) -> Result<(), NoMemory>
    ensures { OnOk result (bytes.new.items ≡ bytes.old.items ++ limit_bytes limit) }
{
    push_u64(bytes, u64::from(limit.capacity))?;
    push_u64(bytes, u64::from(limit.period))
}

/// Appends the spelling of an entry. Requires at most 65,535 items, the most that a spelling can
/// count. If memory runs out, some of its bytes may have been added.
#[tactic(auto, unfolding(crate::specs::Spelling::entry_bytes))]
pub fn push_entry(bytes: &mut Vec<u8>, entry: &Entry) -> Result<(), NoMemory>
    requires { length (items_in entry.now) ≤ MOST_ITEMS }
    ensures { OnOk result (bytes.new.items ≡ bytes.old.items ++ entry_bytes entry.now) }
{
    match entry {
        Entry::Fact(fact) => {
            bytes.push(FACT)?;
            push_fact(bytes, fact)
        }
        Entry::Limit(limit) => {
            bytes.push(LIMIT)?;
            push_limit(bytes, *limit)
        }
        Entry::Retire(boot) => {
            bytes.push(RETIRE)?;
            push_u64(bytes, *boot)
        }
        Entry::ModuleLimit(limit) => {
            bytes.push(MODULE_LIMIT)?;
            push_limit(bytes, *limit)
        }
    }
}
