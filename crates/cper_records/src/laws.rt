//! The laws of records, for every list of bytes.

ghost use Rattle.std.specs.Prelude.{◌≡◌, ◌≤◌, ◌↔◌, ℕ, List, length, take, Ok, Err};
ghost use Rattle.ras_base.specs.Prefix.{IsPrefixOf};
ghost use Rattle.cper_records.specs.declared.records.TheConstants.{HEADER_LENGTH};
ghost use Rattle.cper_records.specs.declared.refusals.RecordRefused.{RecordRefused};
ghost use Rattle.cper_records.specs.declared.walk.TheConstants.{DESCRIPTOR_LENGTH};
ghost use Rattle.cper_records.specs.Header.{record_id, record_length};
ghost use Rattle.cper_records.specs.Laid.{IsRecord, IsNoRecord};
ghost use Rattle.cper_records.specs.Readable.{filled, read_under};
ghost use Rattle.cper_records.specs.Records.{record_of};

/// A record can be read if and only if it is signed, its length, its descriptors and its sections
/// lie inside the bytes, and each section can be read. The record is then the first bytes, as many
/// as its length says. Each refusal is returned if and only if it is the first that applies.
pub fn records_are_laid_out()
    ensures read { (bytes own : List ℕ)
        → (record_of bytes ≡ Ok own) ↔ (IsPrefixOf own bytes × IsRecord own) }
    ensures refused { (bytes : List ℕ) (why : RecordRefused)
        → (record_of bytes ≡ Err why) ↔ IsNoRecord bytes why }
{}

/// For a record whose length lies inside the bytes, what is returned depends only on the bytes
/// within that length. Bytes after them change nothing.
pub fn only_own_bytes()
    ensures { (bytes : List ℕ) → HEADER_LENGTH ≤ record_length bytes
        → record_length bytes ≤ length bytes
        → record_of (take (record_length bytes) bytes) ≡ record_of bytes }
{}

/// The bytes under an identifier can be read if and only if they begin with a record of that
/// identifier. A record that is read from its own bytes is read as well if zeros follow them.
pub fn stored_records_are_read()
    ensures read { (id : ℕ) (buffer own : List ℕ)
        → (read_under id buffer ≡ Ok own)
        ↔ (IsPrefixOf own buffer × IsRecord own × (record_id own ≡ id)) }
    ensures filled { (bytes own : List ℕ) → record_of bytes ≡ Ok own
        → record_of (filled bytes) ≡ Ok own }
{}

/// The numbers behind the names that the definitions use.
pub fn numbers_in_digits()
    ensures header { HEADER_LENGTH ≡ 128 }
    ensures descriptor { DESCRIPTOR_LENGTH ≡ 72 }
{}
