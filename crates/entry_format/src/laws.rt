//! The laws of the format itself.
ghost use Rattle.std.specs.Prelude.{◌≡◌, ◌≤◌, ◌+◌, ◌*◌, ◌++◌, ℕ, List, All, length};
ghost use Rattle.ras_facts.specs.Entries.{IsValidEntry};
ghost use Rattle.entry_format.specs.Spelling.{entry_bytes, entries_bytes};

use page_policy::Limit;
use ras_facts::{Entry, Fact};

/// No entry is a beginning of another, and bytes are at most one list of entries. The entry of a
/// fact has at most 31 bytes, and 45 more for each item; the entry of a limit has 17.
pub fn format_laws()
    ensures none_begins_another { (d e : Entry) (x y : List ℕ) → IsValidEntry d → IsValidEntry e
        → entry_bytes d ++ x ≡ entry_bytes e ++ y → (d ≡ e) × (x ≡ y) }
    ensures one_reading { (ds es : List Entry) → All IsValidEntry ds → All IsValidEntry es
        → entries_bytes ds ≡ entries_bytes es → ds ≡ es }
    ensures most { (f : Fact) → IsValidEntry (Entry.Fact f)
        → length (entry_bytes (Entry.Fact f)) ≤ 31 + 45 * length f.items }
    ensures limit_size { (limit : Limit) → length (entry_bytes (Entry.Limit limit)) ≡ 17 }
{}
