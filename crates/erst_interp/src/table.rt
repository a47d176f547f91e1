//! The error record serialization table.

ghost use Rattle.std.specs.Prelude.{◌≡◌, ◌<◌, ◌≤◌, ◌*◌, ℕ, List, length, map, IfOk, OnOk, Err};
ghost use Rattle.erst_interp.specs.declared.refusals.ErstTableRefused.{ErstTableRefused};
ghost use Rattle.erst_interp.specs.Refusals.{IsAnswer};
ghost use Rattle.erst_interp.specs.Steps.Lists.{AreEmpty, ReadsTable, HoldsEntries, with_entry};
ghost use Rattle.erst_interp.specs.Table.{list_of, lists_of, instructions_at, erst_table, erst_of};

use crate::entries::{ENTRY_LENGTH, InstructionEntry, entry_at};
use crate::refusals::ErstTableRefused;
use ras_base::little_endian::u32_at;
use ras_base::{NoMemory, has_sum};
use std::alloc::Global;
use std::marker::Model;

/// The bytes of an ERST before its entries.
pub const ERST_FIXED_LENGTH: usize = 48;

// The two sizes that firmware gives a serialization header: its own bytes, or these and the table's
// header.
const HEADER_SIZES: [u32; 2] = [12, 48];

// How many actions an entry can name.
const ACTIONS: usize = 256;

/// A table: for each action the list of its entries, in the order of the table.
#[derive(Drop)]
pub struct Table {
    lists: Vec<Vec<InstructionEntry>>,
}

impl Model for Table {
    ghost use Rattle.std.specs.Prelude.{◌≡◌, List, length, map};
    ghost use Rattle.erst_interp.specs.declared.entries.InstructionEntry.{InstructionEntry};

    ghost Value = { List (List InstructionEntry) };

    ghost view = { λ t. map (λ v. v.items) t.lists.items };

    ghost invariant = { λ t. length t.lists.items ≡ 256 };
}

/// Returns the ERST at the front of the bytes. Bytes after the table's length are ignored. (ACPI
/// 6.5, section 18.5.1, "Serialization Action Table".)
///
/// The error is the first that applies. `Short`: there are fewer than 48 bytes. `Signature`: they
/// don't begin with `ERST`. `Length`: the table's length is below 48 or above the number of bytes.
/// `Sum`: the table's bytes don't sum to 0 modulo 256. `HeaderSize`: the size of its header is
/// neither 12 nor 48. `Count`: the entries that it counts pass its length. `NoMemory`: only if
/// memory runs out, and never if the table is refused.
pub fn read_erst(alloc: Global, bytes: &[u8]) -> Result<Table, ErstTableRefused>
    ensures answer { IsAnswer result (erst_of bytes.now) }
    ensures front { (why : ErstTableRefused) → erst_table bytes.now ≡ Err why
        → result ≡ Err why }
{
    let table = table_at(bytes)?;
    let lists = lists_at(alloc, u32_at(table, 44), &table[ERST_FIXED_LENGTH..])?;
    Ok(Table { lists })
}

impl Table {
    // Returns the list of an action.
    pub(crate) fn list(&self, action: u8) -> &[InstructionEntry]
        ensures { result.now ≡ list_of action self.now }
    {
        &self.lists[action as usize]
    }
}

// Returns the table at the front of bytes.
#[tactic(auto, unfolding(crate::specs::Table::erst_table))]
fn table_at(bytes: &[u8]) -> Result<&[u8], ErstTableRefused>
    ensures answer { ReadsTable (λ table. table.now) result (erst_table bytes.now) }
    ensures fixed { IfOk result (λ table. HoldsEntries table.now) }
{
    if bytes.len() < ERST_FIXED_LENGTH {
        return Err(ErstTableRefused::Short);
    }
    if !bytes.starts_with(b"ERST") {
        return Err(ErstTableRefused::Signature);
    }
    let length = u32_at(bytes, 4) as usize;
    if length < ERST_FIXED_LENGTH || bytes.len() < length {
        return Err(ErstTableRefused::Length);
    }
    let table = &bytes[..length];
    if !has_sum(table) {
        return Err(ErstTableRefused::Sum);
    }
    if !HEADER_SIZES.contains(&u32_at(table, 36)) {
        return Err(ErstTableRefused::HeaderSize);
    }
    if length < ERST_FIXED_LENGTH + ENTRY_LENGTH * u32_at(table, 44) as usize {
        return Err(ErstTableRefused::Count);
    }
    Ok(table)
}

// Returns an empty list for each action.
fn empty_lists(alloc: Global) -> Result<Vec<Vec<InstructionEntry>>, NoMemory>
    ensures { IfOk result (λ lists. AreEmpty (map (λ v. v.items) lists.items)) }
{
    let mut lists = Vec::new(alloc);
    for _ in 0..ACTIONS {
        lists.push(Vec::new(alloc))?;
    }
    Ok(lists)
}

// Appends an entry to the list of its action.
fn add(lists: &mut Vec<Vec<InstructionEntry>>, entry: InstructionEntry) -> Result<(), NoMemory>
    requires { length lists.old.items ≡ ACTIONS }
    ensures added { OnOk result (map (λ v. v.items) lists.new.items
        ≡ with_entry entry (map (λ v. v.items) lists.old.items)) }
    ensures within { entry.action < 256 }
{
    lists[entry.action as usize].push(entry)?;
    Ok(())
}

// Returns the lists of the first `count` entries of the bytes.
fn lists_at(alloc: Global, count: u32, bytes: &[u8]) -> Result<Vec<Vec<InstructionEntry>>, NoMemory>
    requires { ENTRY_LENGTH * count ≤ length bytes.now }
    ensures { IfOk result (λ lists.
        map (λ v. v.items) lists.items ≡ lists_of (instructions_at count bytes.now)) }
{
    let mut lists = empty_lists(alloc)?;
    let mut rest = bytes;
    for done in 0..count {
        add(&mut lists, entry_at(rest))?;
        rest = &rest[ENTRY_LENGTH..];
    }
    Ok(lists)
}
