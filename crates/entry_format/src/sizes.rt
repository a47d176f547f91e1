//! How many bytes names and entries have.
ghost use Rattle.std.specs.Prelude.{◌≡◌, ◌≤◌, ◌<◌, ◌*◌, ◌+◌, ◌^◌, length};
ghost use Rattle.std.specs.List.{flat_map};
ghost use Rattle.ras_facts.specs.Entries.{items_in};
ghost use Rattle.entry_format.specs.Spelling.{name_bytes, page_bytes, item_bytes, fact_bytes, limit_bytes, entry_bytes};

use ras_facts::{Entry, Fact, Item, MOST_ITEMS, Name};

// How many bytes the spelling of a name has.
#[tactic(auto, using(crate::proofs::SizeLemmas::name_sizes), unfolding(crate::specs::Spelling::name_bytes))]
fn name_len(name: &Name) -> usize
    ensures length { result ≡ length (name_bytes name.now) }
    ensures most { result ≤ 20 }
{
    match name {
        Name::Bank { .. } => 20,
        Name::Record { .. } => 9,
        Name::Block { .. } => 19,
        Name::Boot { .. } => 9,
    }
}

// How many bytes the spelling of a page has.
#[tactic(auto, using(crate::proofs::SizeLemmas::name_sizes), unfolding(crate::specs::Spelling::page_bytes))]
fn page_len(page: Option<u64>) -> usize
    ensures length { result ≡ length (page_bytes page) }
    ensures most { result ≤ 9 }
{
    match page {
        None => 1,
        Some(_) => 9,
    }
}

// How many bytes the spelling of an item has.
#[tactic(auto, using(crate::proofs::SizeLemmas::name_sizes), unfolding(crate::specs::Spelling::item_bytes, crate::specs::Spelling::label_bytes))]
fn item_len(item: &Item) -> usize
    ensures length { result ≡ length (item_bytes item.now) }
    ensures most { result ≤ 45 }
{
    4 + item.label.bytes().len() + page_len(item.page)
}

// How many bytes the spellings of items have, one after the other.
fn items_len(items: &[Item]) -> usize
    requires { length items.now ≤ MOST_ITEMS }
    ensures length { result ≡ length (flat_map item_bytes items.now) }
    ensures most { result ≤ 45 * length items.now }
{
    let mut total = 0;
    for item in items {
        total += item_len(item);
    }
    total
}

// How many bytes the spelling of a fact has.
#[tactic(auto, using(crate::proofs::SizeLemmas::name_sizes), unfolding(crate::specs::Spelling::fact_bytes))]
fn fact_len(fact: &Fact) -> usize
    requires { length fact.now.items ≤ MOST_ITEMS }
    ensures length { result ≡ length (fact_bytes fact.now) }
    ensures most { result ≤ 30 + 45 * MOST_ITEMS }
{
    name_len(&fact.name) + 10 + items_len(fact.items.as_slice())
}

/// Returns how many bytes the spelling of an entry has. Requires at most 65,535 items.
#[tactic(auto, using(crate::proofs::SizeLemmas::name_sizes), unfolding(crate::specs::Spelling::entry_bytes, crate::specs::Spelling::limit_bytes))]
pub fn entry_len(entry: &Entry) -> usize
    requires { length (items_in entry.now) ≤ MOST_ITEMS }
    ensures length { result ≡ length (entry_bytes entry.now) }
    ensures most { result < 2 ^ 22 }
{
    match entry {
        Entry::Fact(fact) => 1 + fact_len(fact),
        Entry::Limit(_) | Entry::ModuleLimit(_) => 17,
        Entry::Retire(_) => 9,
    }
}
