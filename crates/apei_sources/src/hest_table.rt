//! The hardware error source table.

ghost use Rattle.std.specs.Prelude.{◌≡◌, ◌≤◌, ◌↔◌, ℕ, [], length, nat_eq, IfOk, IsNone, Some, Err, Contains};
ghost use Rattle.std.specs.List.{IsDistinct};
ghost use Rattle.std.specs.Map.{keys_of};
ghost use Rattle.apei_sources.specs.declared.refusals.TableRefused.{TableRefused};
ghost use Rattle.apei_sources.specs.Refusals.{AnswersTable};
ghost use Rattle.apei_sources.specs.Steps.Answering.{Gives};
ghost use Rattle.apei_sources.specs.Sources.{source_of};
ghost use Rattle.apei_sources.specs.Hest.{type_with_id, followed, sources_in, hest_table, hest_of};

use crate::TableRefused;
use crate::sources::{SOURCE_HEAD_LENGTH, size_at};
use crate::tables::table_at;
use indexmap::IndexMap;
use ras_base::little_endian::{u16_at, u32_at};
use std::alloc::Global;
use std::marker::Model;

/// The bytes of a HEST before its sources.
pub const HEST_FIXED_LENGTH: usize = 40;

/// The error sources of a machine, as firmware lists them. A contract sees their identifiers and
/// types, in the order of the table. No two sources have one identifier.
#[derive(Drop)]
pub struct Hest {
    sources: IndexMap<u16, u16>,
}

impl Model for Hest {
    ghost use Rattle.std.specs.Prelude.{nat_eq};
    ghost use Rattle.std.specs.List.{IsDistinct};
    ghost use Rattle.std.specs.Map.{keys_of};
    ghost use Rattle.apei_sources.specs.Hest.{Sources};

    ghost Value = { Sources };

    ghost view = { λ a. a.sources.entries };

    ghost invariant = { λ a. IsDistinct nat_eq (keys_of a.sources.entries) };
}

/// Returns the error sources of the HEST at the front of the bytes. Bytes after the table's length
/// are ignored. (ACPI 6.5, section 18.3.2, "ACPI Error Source".)
///
/// The error is the first that applies. `Short`: there are fewer than 40 bytes. `Signature`: they
/// don't begin with `HEST`. `Length`: the table's length is below 40 or above the number of bytes.
/// `Sum`: the table's bytes don't sum to 0 modulo 256. Then, source by source, `SourceType`: the
/// type isn't known; `SourceOut`: the source passes the table's length, or fewer than 4 bytes of it
/// are there; `RepeatedId`: a source before it has its identifier. `NoMemory`: only if memory runs
/// out, and never if the table is refused before its sources are read.
pub fn read_hest(alloc: Global, bytes: &[u8]) -> Result<Hest, TableRefused>
    ensures answer { AnswersTable result (hest_of bytes.now) }
    ensures front { (why : TableRefused) → hest_table bytes.now ≡ Err why → result ≡ Err why }
{
    let table = table_at(bytes, b"HEST", HEST_FIXED_LENGTH)?;
    let sources = sources_at(alloc, u32_at(table, 36), &table[HEST_FIXED_LENGTH..])?;
    Ok(Hest { sources })
}

// Returns the `count` sources at the front of bytes.
fn sources_at(alloc: Global, count: u32, bytes: &[u8]) -> Result<IndexMap<u16, u16>, TableRefused>
    ensures answer { Gives (λ sources. sources.entries) result (sources_in count [] bytes.now) }
    ensures once { IfOk result (λ sources. IsDistinct nat_eq (keys_of sources.entries)) }
{
    let mut sources = IndexMap::new(alloc);
    let mut rest = bytes;
    for done in 0..count {
        let size = size_at(rest)?;
        add_source(&mut sources, rest)?;
        rest = &rest[size..];
    }
    Ok(sources)
}

// Appends the source at the front of bytes, unless one of the others has its identifier.
fn add_source(sources: &mut IndexMap<u16, u16>, bytes: &[u8]) -> Result<(), TableRefused>
    requires head { SOURCE_HEAD_LENGTH ≤ length bytes.now }
    requires once { IsDistinct nat_eq (keys_of sources.old.entries) }
    ensures answer { Gives (λ _. sources.new.entries) result (followed sources.old.entries (source_of bytes.now)) }
    ensures once { IsDistinct nat_eq (keys_of sources.new.entries) }
{
    let kind = u16_at(bytes, 0);
    let id = u16_at(bytes, 2);
    match sources.insert(id, kind) {
        Ok(None) => Ok(()),
        Ok(Some(_)) => Err(TableRefused::RepeatedId),
        Err(_) => Err(TableRefused::NoMemory),
    }
}

impl Hest {
    /// Returns the type of the source with this identifier, or `None` if and only if no source has
    /// it.
    pub fn source(&self, id: u16) -> Option<u16>
        ensures answer { result ≡ type_with_id id self.now }
        ensures one { (kind : ℕ) → (result ≡ Some kind) ↔ Contains self.now (id, kind) }
        ensures none { IsNone result ↔ (Contains (keys_of self.now) id → ⊥) }
    {
        self.sources.get(&id).copied()
    }
}
