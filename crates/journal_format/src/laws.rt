//! The laws of the format itself.
ghost use Rattle.std.specs.Prelude.{◌≡◌, ◌↔◌, ◌≤◌, ◌<◌, ◌^◌, ◌++◌, ℕ, List, Some, All, IsTrue, length};
ghost use Rattle.std.specs.Bool.{IsFalse};
ghost use Rattle.ras_base.specs.LittleEndian.{AreBytes};
ghost use Rattle.ras_base.specs.Prefix.{IsPrefixOf};
ghost use Rattle.ras_facts.specs.Entries.{IsValidEntry};
ghost use Rattle.ras_account.specs.Account.{State};
ghost use Rattle.ras_account.specs.Accounts.{IsAccount};
ghost use Rattle.journal_format.specs.Links.{payload_bytes, link_bytes, IsPayload, CanLink, link_length, ends_early, payload_in};
ghost use Rattle.journal_format.specs.PayloadReading.{payload_of};
ghost use Rattle.journal_format.specs.Checkpoints.{checkpoint_bytes, HasNoBuckets, IsCheckpoint};
ghost use Rattle.journal_format.specs.CheckpointReading.{checkpoint_of};
ghost use Rattle.journal_format.specs.Versions.{InBothVersions};

use crate::{CHECKPOINT_PLACE, MOST_LINK_ENTRIES, MOST_PAYLOAD};
use entry_format::Version;
use ras_facts::Entry;

/// The laws of links.
pub fn link_laws()
    // The entries read from a payload are the entries whose payload the bytes are.
    ensures payload { (version : Version) (entries : List Entry) (bytes : List ℕ) → AreBytes bytes
        → (payload_of version bytes ≡ Some entries) ↔ IsPayload version entries bytes }
    ensures payload_read { (version : Version) (entries : List Entry) (bytes : List ℕ)
        → IsPayload version entries bytes
        → payload_of version bytes ≡ Some entries }

    // Whatever follows a link, its length and its payload are read.
    ensures whole { (version : Version) (entries : List Entry) (rest : List ℕ)
        → CanLink version entries → IsFalse (ends_early (link_bytes entries ++ rest)) }
    ensures length { (version : Version) (entries : List Entry) (rest : List ℕ)
        → CanLink version entries
        → link_length (link_bytes entries ++ rest) ≡ length (link_bytes entries) }
    ensures inside { (version : Version) (entries : List Entry) (rest : List ℕ)
        → CanLink version entries
        → payload_in (link_bytes entries ++ rest) ≡ payload_bytes entries }

    // Every shorter beginning of a link ends early, and no link is a beginning of another.
    ensures cut { (version : Version) (entries : List Entry) (front : List ℕ)
        → CanLink version entries → IsPrefixOf front (link_bytes entries)
        → length front < length (link_bytes entries) → IsTrue (ends_early front) }
    ensures none_begins_another { (version : Version) (ds es : List Entry) (x y : List ℕ)
        → CanLink version ds → CanLink version es
        → link_bytes ds ++ x ≡ link_bytes es ++ y → (ds ≡ es) × (x ≡ y) }

    // Entries that are converted to a link can be a link.
    ensures made { (entries : List Entry) → 1 ≤ length entries → length entries ≤ MOST_LINK_ENTRIES
        → All IsValidEntry entries
        → length (payload_bytes entries) ≤ MOST_PAYLOAD → CanLink Version.Two entries }
{}

/// The laws of checkpoints.
pub fn checkpoint_laws()
    // The account read from bytes is the account whose checkpoint they are.
    ensures account { (version : Version) (a : State) (bytes : List ℕ) → AreBytes bytes
        → (checkpoint_of version bytes ≡ Some a) ↔ IsCheckpoint version a bytes }
    ensures account_read { (version : Version) (a : State) (bytes : List ℕ)
        → IsCheckpoint version a bytes → checkpoint_of version bytes ≡ Some a }

    // Bytes are the checkpoint of at most one account, and every account has a checkpoint in
    // version 2.
    ensures one_reading { (version : Version) (a b : State) (bytes : List ℕ)
        → IsCheckpoint version a bytes → IsCheckpoint version b bytes → a ≡ b }
    ensures spelled { (a : State) → IsAccount a → length a.modules < 2 ^ 64
        → length a.pages < 2 ^ 64 → IsCheckpoint Version.Two a (checkpoint_bytes Version.Two a) }

    // Version 1 is version 2 without the limit for modules and the buckets of modules.
    ensures versions { (a : State) → HasNoBuckets a
        → InBothVersions (checkpoint_bytes Version.One a) (checkpoint_bytes Version.Two a) a }
{}

/// The numbers behind the names that the definitions use.
pub fn numbers_in_digits()
    ensures entries { MOST_LINK_ENTRIES ≡ 2_000 }
    ensures payload { MOST_PAYLOAD ≡ 67_108_864 }
    ensures checkpoint { CHECKPOINT_PLACE ≡ 25 }
{}
