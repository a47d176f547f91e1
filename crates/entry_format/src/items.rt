//! Reads items from bytes.
ghost use Rattle.std.specs.Prelude.{◌≡◌};
ghost use Rattle.dimm_topology.specs.Labels.{is_label_or_none};
ghost use Rattle.entry_format.specs.Reading.{ReadsUnlessMemory, ReadsExactly, some_or_bad, if_passes, class_of, class_at, label_at, page_number_at, page_at, weight_at, item_at, many_at, items_at};

use crate::EntryRefused;
use crate::fields::{byte_at, bytes_at, u16_at, u64_at};
use dimm_topology::{Label, LabelRefused};
use mca_status::ItemClass;
use ras_facts::{Item, Items, MOST_WEIGHT, PAGES};
use std::alloc::Global;

// The class of a number.
#[tactic(auto, unfolding(crate::specs::Reading::class_of))]
fn class_of(number: u8) -> Option<ItemClass>
    ensures { result ≡ class_of number }
{
    match number {
        0 => Some(ItemClass::Ce),
        1 => Some(ItemClass::Ucna),
        2 => Some(ItemClass::Srao),
        3 => Some(ItemClass::Srar),
        4 => Some(ItemClass::Uc),
        5 => Some(ItemClass::Odd),
        6 => Some(ItemClass::Corrected),
        7 => Some(ItemClass::Recoverable),
        8 => Some(ItemClass::Fatal),
        9 => Some(ItemClass::Informational),
        _ => None,
    }
}

// Returns a class, read as its number, and the bytes after it.
#[tactic(auto, unfolding(crate::specs::Reading::class_at))]
fn class_at(bytes: &[u8]) -> Result<(ItemClass, &[u8]), EntryRefused>
    ensures { ReadsExactly (λ x. (x.0, x.1.now)) result (class_at bytes.now) }
{
    let (number, rest) = byte_at(bytes)?;
    match class_of(number) {
        Some(class) => Ok((class, rest)),
        None => Err(EntryRefused::Bad),
    }
}

// Returns the label of these bytes; no bytes are the empty label.
fn label_of(alloc: Global, text: &[u8]) -> Result<Label, EntryRefused>
    ensures { ReadsUnlessMemory (λ label. label) result (some_or_bad (if_passes is_label_or_none text.now)) }
{
    if text.is_empty() {
        return Ok(Label::none());
    }
    match Label::new(alloc, text) {
        Ok(label) => Ok(label),
        Err(LabelRefused::Bad) => Err(EntryRefused::Bad),
        Err(LabelRefused::NoMemory) => Err(EntryRefused::NoMemory),
    }
}

/// Returns the label at the front, which may be empty, and the bytes after it. The number of its
/// bytes comes before it.
///
/// `Bad`: if and only if the bytes don't begin with a label. `NoMemory`: only if memory runs out.
#[tactic(auto, unfolding(crate::specs::Reading::label_at))]
pub fn label_at(alloc: Global, bytes: &[u8]) -> Result<(Label, &[u8]), EntryRefused>
    ensures { ReadsUnlessMemory (λ x. (x.0, x.1.now)) result (label_at bytes.now) }
{
    let (length, rest) = byte_at(bytes)?;
    let (text, rest) = bytes_at(usize::from(length), rest)?;
    let label = label_of(alloc, text)?;
    Ok((label, rest))
}

/// Returns the number of a page at the front, and the bytes after it.
///
/// `Bad`: if and only if the bytes don't begin with a page number. `NoMemory`: never.
#[tactic(auto, unfolding(crate::specs::Reading::page_number_at))]
pub fn page_number_at(bytes: &[u8]) -> Result<(u64, &[u8]), EntryRefused>
    ensures { ReadsExactly (λ x. (x.0, x.1.now)) result (page_number_at bytes.now) }
{
    let (page, rest) = u64_at(bytes)?;
    if page < PAGES {
        Ok((page, rest))
    } else {
        Err(EntryRefused::Bad)
    }
}

// Returns a page, or no page, after the flag that says which.
#[tactic(auto, unfolding(crate::specs::Reading::page_at, crate::specs::Reading::some_page_at))]
fn page_at(bytes: &[u8]) -> Result<(Option<u64>, &[u8]), EntryRefused>
    ensures { ReadsExactly (λ x. (x.0, x.1.now)) result (page_at bytes.now) }
{
    let (flag, rest) = byte_at(bytes)?;
    match flag {
        0 => Ok((None, rest)),
        1 => {
            let (page, rest) = page_number_at(rest)?;
            Ok((Some(page), rest))
        }
        _ => Err(EntryRefused::Bad),
    }
}

// Returns a weight of 1 to 32,767.
#[tactic(auto, unfolding(crate::specs::Reading::weight_at))]
fn weight_at(bytes: &[u8]) -> Result<(u16, &[u8]), EntryRefused>
    ensures { ReadsExactly (λ x. (x.0, x.1.now)) result (weight_at bytes.now) }
{
    let (weight, rest) = u16_at(bytes)?;
    if 1 <= weight && weight <= MOST_WEIGHT {
        Ok((weight, rest))
    } else {
        Err(EntryRefused::Bad)
    }
}

// Returns an item: class, label, page and weight.
#[tactic(auto, unfolding(crate::specs::Reading::item_at))]
fn item_at(alloc: Global, bytes: &[u8]) -> Result<(Item, &[u8]), EntryRefused>
    ensures { ReadsUnlessMemory (λ x. (x.0, x.1.now)) result (item_at bytes.now) }
{
    let (class, rest) = class_at(bytes)?;
    let (label, rest) = match label_at(alloc, rest) {
        Ok(found) => found,
        Err(refused) => return Err(refused),
    };
    let (page, rest) = page_at(rest)?;
    let (weight, rest) = weight_at(rest)?;
    let item = Item {
        class,
        label,
        page,
        weight,
    };
    Ok((item, rest))
}

// Returns this many items.
fn many_items_at(alloc: Global, count: u16, bytes: &[u8]) -> Result<(Items, &[u8]), EntryRefused>
    ensures { ReadsUnlessMemory (λ x. (x.0, x.1.now)) result (many_at item_at count bytes.now) }
{
    let mut items = Items::new(alloc);
    let mut rest = bytes;
    for _ in 0..count {
        let (item, after) = match item_at(alloc, rest) {
            Ok(found) => found,
            Err(refused) => return Err(refused),
        };
        items.push(item)?;
        rest = after;
    }
    Ok((items, rest))
}

// Returns items after their number.
#[tactic(auto, unfolding(crate::specs::Reading::items_at))]
pub(crate) fn items_at(alloc: Global, bytes: &[u8]) -> Result<(Items, &[u8]), EntryRefused>
    ensures { ReadsUnlessMemory (λ x. (x.0, x.1.now)) result (items_at bytes.now) }
{
    let (count, rest) = u16_at(bytes)?;
    many_items_at(alloc, count, rest)
}
