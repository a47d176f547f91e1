//! Reads one journal file.
ghost use Rattle.std.specs.Prelude.{◌≡◌, ℕ, ◌+◌, ◌-◌, ◌^◌, ◌≤◌, min, true, length, None, Ok, IfSome, IfOk};
ghost use Rattle.entry_format.specs.declared.version.Version.{Version};
ghost use Rattle.ras_journal.specs.Fields.{field, number_of, version_of};
ghost use Rattle.ras_journal.specs.File.{has_open_gate, first_front};
ghost use Rattle.ras_journal.specs.Recovered.{is_shut};
ghost use Rattle.ras_recover.specs.Steps.Reading.{AnswersFront, front_at};

use crate::fields::{checkpoint_at, checkpoint_count_at, generation_at, version_at};
use crate::place::{Place, ReadRefused};
use journal_format::CHECKPOINT_PLACE;
use ras_account::Account;
use ras_journal::OPEN_GATE;
use std::alloc::Global;

// Returns whether a file is valid: its gate at the front is open.
pub(crate) fn has_open_gate(file: &[u8]) -> bool
    ensures { result ≡ has_open_gate file.now }
{
    file.len() > 1 && file[0] == OPEN_GATE
}

// Returns whether a file is longer than 1 byte and has no open gate at its front.
pub(crate) fn is_shut(file: &[u8]) -> bool
    ensures { result ≡ is_shut file.now }
{
    file.len() > 1 && file[0] != OPEN_GATE
}

// Returns the offset of the chain's first gate, and the account of the checkpoint. `account` may be
// the account with which the other file ended.
#[tactic(auto, unfolding(ras_journal::specs::File::first_front))]
pub(crate) fn first_place(
    alloc: Global,
    taken: Option<u64>,
    before: Option<Account>,
    file: &[u8],
) -> Result<(Place, Account), ReadRefused>
    ensures read { AnswersFront (λ r. front_at r.0 r.1.state) result (first_front taken file.now) }
    ensures links { IfOk result (λ r. r.0.links ≡ 0) }
    ensures within { IfOk result (λ r. r.0.gate ≤ length file.now) }
{
    let version = version_at(file)?;
    let generation = generation_at(taken, file)?;
    let count = checkpoint_count_at(file)?;
    let account = checkpoint_at(alloc, version, before, count, file)?;
    let place = Place {
        version,
        generation,
        gate: CHECKPOINT_PLACE + count as usize,
        links: 0,
    };
    Ok((place, account))
}

// Returns how many bytes a file has up to the end of its checkpoint, if the file is valid and its
// front is complete.
pub(crate) fn front_len(file: &[u8]) -> Option<usize>
    ensures some { IfSome result (λ n. (count : ℕ)
        → field (number_of 8) 17 8 file.now ≡ Ok count → n ≡ min (2 ^ 64 - 1) (25 + count)) }
    ensures least { IfSome result (λ n. 25 ≤ n) }
    ensures none { result ≡ None → (count : ℕ) (version : Version)
        → has_open_gate file.now ≡ true → field version_of 1 8 file.now ≡ Ok version
        → field (number_of 8) 17 8 file.now ≡ Ok count → ⊥ }
{
    if !has_open_gate(file) {
        return None;
    }
    match version_at(file) {
        Ok(_) => match checkpoint_count_at(file) {
            Ok(count) => Some(CHECKPOINT_PLACE.saturating_add(count as usize)),
            Err(_) => None,
        },
        Err(_) => None,
    }
}
