//! The laws of tables and blocks, for every list of bytes.

ghost use Rattle.std.specs.Prelude.{◌≡◌, ◌≤◌, ◌↔◌, ◌+◌, ℕ, List, length, take, Some, None, Ok, Err};
ghost use Rattle.apei_sources.specs.declared.entries.TheConstants.{ENTRY_HEADER_LENGTH, LONG_ENTRY_HEADER_LENGTH, TIMESTAMP_REVISION};
ghost use Rattle.apei_sources.specs.declared.sources.TheConstants.{BANK_LENGTH, SOURCE_HEAD_LENGTH};
ghost use Rattle.apei_sources.specs.declared.blocks.TheConstants.{BLOCK_HEADER_LENGTH};
ghost use Rattle.apei_sources.specs.declared.hest_table.TheConstants.{HEST_FIXED_LENGTH};
ghost use Rattle.apei_sources.specs.declared.bert_table.TheConstants.{BERT_FIXED_LENGTH};
ghost use Rattle.apei_sources.specs.declared.refusals.TableRefused.{TableRefused};
ghost use Rattle.ras_base.specs.AcpiTable.{table_length};
ghost use Rattle.apei_sources.specs.Hest.{Sources, hest_table, hest_of};
ghost use Rattle.apei_sources.specs.Bert.{bert_of};
ghost use Rattle.apei_sources.specs.Entries.{entries_of};
ghost use Rattle.apei_sources.specs.Blocks.{block_status, data_length, block_of};
ghost use Rattle.apei_sources.specs.Laid.{HoldsSources, BreaksOff, AreEntries};

/// The sources of a HEST follow its fixed part without gaps. A HEST can be read if and only if it
/// has as many spans as it counts sources, each as long as its type and its banks say, no two with
/// one identifier; it is then read as these. It is refused for a source, for some reason, if and
/// only if there are fewer such spans than it counts and the bytes after them begin with no source,
/// for that reason.
pub fn sources_are_laid_end_to_end()
    ensures read { (bytes table : List ℕ) (sources : Sources) → hest_table bytes ≡ Ok table
        → (hest_of bytes ≡ Ok sources) ↔ HoldsSources table sources }
    ensures refused { (bytes table : List ℕ) (why : TableRefused) → hest_table bytes ≡ Ok table
        → (hest_of bytes ≡ Err why) ↔ BreaksOff table why }
{}

/// The entries of a block fill its data. They are the only way to cut the data into entries, each
/// as long as its header and its data; `EntryOut` is returned if and only if there is no such way.
pub fn entries_fill_the_data()
    ensures cut { (bytes : List ℕ) (entries : List (List ℕ))
        → (entries_of bytes ≡ Some entries) ↔ AreEntries bytes entries }
    ensures out { (bytes : List ℕ)
        → (entries_of bytes ≡ None) ↔ ((entries : List (List ℕ)) → AreEntries bytes entries → ⊥) }
{}

/// What is read of a table depends only on the bytes within its length. What is read of a block
/// depends only on its header and its data, and for status 0 only on the status. Other bytes change
/// nothing.
pub fn only_own_bytes()
    ensures hest { (bytes others : List ℕ) → HEST_FIXED_LENGTH ≤ table_length bytes
        → table_length bytes ≤ length bytes
        → take (table_length bytes) others ≡ take (table_length bytes) bytes
        → hest_of others ≡ hest_of bytes }
    ensures bert { (bytes others : List ℕ) → BERT_FIXED_LENGTH ≤ table_length bytes
        → table_length bytes ≤ length bytes
        → take (table_length bytes) others ≡ take (table_length bytes) bytes
        → bert_of others ≡ bert_of bytes }
    ensures block { (bytes others : List ℕ) → BLOCK_HEADER_LENGTH + data_length bytes ≤ length bytes
        → take (BLOCK_HEADER_LENGTH + data_length bytes) others
        ≡ take (BLOCK_HEADER_LENGTH + data_length bytes) bytes
        → block_of others ≡ block_of bytes }
    ensures silent { (bytes others : List ℕ) → BLOCK_HEADER_LENGTH ≤ length bytes
        → BLOCK_HEADER_LENGTH ≤ length others
        → block_status bytes ≡ 0 → block_status others ≡ 0 → block_of others ≡ block_of bytes }
{}

/// The numbers behind the names that the definitions use are those of ACPI 6.5, sections 18.3.1 and
/// 18.3.2.
pub fn numbers_in_digits()
    ensures block { BLOCK_HEADER_LENGTH ≡ 20 }
    ensures entry { ENTRY_HEADER_LENGTH ≡ 64 }
    ensures long_entry { LONG_ENTRY_HEADER_LENGTH ≡ 72 }
    ensures timestamp { TIMESTAMP_REVISION ≡ 3 }
    ensures hest { HEST_FIXED_LENGTH ≡ 40 }
    ensures bank { BANK_LENGTH ≡ 28 }
    ensures source { SOURCE_HEAD_LENGTH ≡ 4 }
    ensures bert { BERT_FIXED_LENGTH ≡ 48 }
{}
