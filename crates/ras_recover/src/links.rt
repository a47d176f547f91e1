//! Reads the links of a journal file.
ghost use Rattle.std.specs.Prelude.{◌≡◌, ◌+◌, ◌^◌, ◌≤◌, ◌<◌, ℕ, true, length, None, Some, Ok, Err, IfSome, IfOk, OnOk, IsTrue};
ghost use Rattle.std.specs.Option.{option_map};
ghost use Rattle.std.specs.List.{All};
ghost use Rattle.ras_facts.specs.Entries.{IsValidEntry};
ghost use Rattle.ras_account.specs.Continued.{account_after, account_after_all};
ghost use Rattle.ras_account.specs.Numbers.{IsWithin};
ghost use Rattle.journal_format.specs.PayloadReading.{payload_of};
ghost use Rattle.ras_journal.specs.Fields.{field, number_of, is_open_of, stays_within};
ghost use Rattle.ras_journal.specs.File.{front_behind_link, next_front};
ghost use Rattle.ras_recover.specs.Steps.Reading.{AnswersFront, front_at};

use crate::fields::{is_open_at, part, payload_count_at};
use crate::place::{Place, ReadRefused};
use entry_format::Version;
use journal_format::{LinkRefused, read_link};
use ras_account::{Account, Orders, ReserveRefused};
use ras_base::NoMemory;
use ras_facts::Entry;
use std::alloc::Global;
use std::slice;

// Counts an entry if it is new. The orders that it gives are dropped.
fn count_entry(alloc: Global, account: &mut Account, entry: Entry) -> Result<(), ReserveRefused>
    requires { IsValidEntry entry }
    ensures state { OnOk result (account.new.state ≡ account_after account.old.state entry) }
    ensures full { result ≡ Err ReserveRefused.Full → IsWithin (account_after account.old.state entry) → ⊥ }
    ensures within { OnOk result (IsWithin (account_after account.old.state entry)) }
{
    // With this the clauses can say that the account is within its limits.
    let _ = account.entries();
    account.reserve(slice::from_ref(&entry))?;
    let mut orders = Orders::new(alloc, entry.most_orders())?;
    account.take(entry, &mut orders);
    Ok(())
}

// Counts entries in order, and returns whether the account stays within its limits after each.
fn count_entries(
    alloc: Global,
    account: &mut Account,
    entries: Vec<Entry>,
) -> Result<bool, NoMemory>
    requires valid { All IsValidEntry entries.items }
    ensures stays { IfOk result (λ stays. stays ≡ stays_within account.old.state entries.items) }
    ensures state { IfOk result (λ stays. IsTrue stays
        → account.new.state ≡ account_after_all account.old.state entries.items) }
{
    for entry in entries {
        match count_entry(alloc, account, entry) {
            Ok(()) => {}
            Err(ReserveRefused::Full) => return Ok(false),
            Err(ReserveRefused::NoMemory) => return Err(NoMemory),
        }
    }
    Ok(true)
}

// Returns the entries in the payload of `count` bytes after an open gate.
fn payload_at(
    alloc: Global,
    version: Version,
    gate: usize,
    count: u64,
    file: &[u8],
) -> Result<Vec<Entry>, ReadRefused>
    requires count { field (number_of 4) (gate + 1) 4 file.now ≡ Ok count }
    requires length { gate + 5 ≤ length file.now }
    ensures read { AnswersFront (λ entries. entries.items) result
        (field (payload_of version) (gate + 5) count file.now) }
    ensures valid { IfOk result (λ entries. All IsValidEntry entries.items) }
    ensures within { OnOk result (gate + 5 + count ≤ length file.now) }
{
    let Some(_) = part(gate + 5, count, file) else {
        return Err(ReadRefused::Damaged(gate + 5));
    };
    match read_link(alloc, version, &file[gate + 1..]) {
        Ok((entries, _)) => Ok(entries),
        Err(LinkRefused::Cut) => Err(ReadRefused::Damaged(gate + 5)),
        Err(LinkRefused::Bad) => Err(ReadRefused::Damaged(gate + 5)),
        Err(LinkRefused::NoMemory) => Err(ReadRefused::NoMemory),
    }
}

// Counts the entries of the link after the open gate at an offset, and returns the position at the
// next gate.
fn link_at(
    alloc: Global,
    place: Place,
    account: &mut Account,
    file: &[u8],
) -> Result<Place, ReadRefused>
    requires gate { place.gate + 1 ≤ length file.now }
    requires links { place.links + 1 < 2 ^ 64 }
    ensures read { AnswersFront (λ next. front_at next account.new.state) result
        (front_behind_link (front_at place account.old.state) file.now) }
    ensures links { IfOk result (λ next. next.links ≡ place.links + 1) }
    ensures within { IfOk result (λ next. next.gate ≤ length file.now) }
{
    let count = payload_count_at(place.gate + 1, file)?;
    let entries = payload_at(alloc, place.version, place.gate, count, file)?;
    if !count_entries(alloc, account, entries)? {
        return Err(ReadRefused::Damaged(place.gate + 5));
    }
    Ok(Place {
        gate: place.gate + 5 + count as usize,
        links: place.links + 1,
        ..place
    })
}

// Returns the position at the next gate, with the entries before it counted, if the gate at the
// present position is open; `None` if it is closed.
#[tactic(auto, unfolding(ras_journal::specs::File::next_front))]
pub(crate) fn next_place(
    alloc: Global,
    place: Place,
    account: &mut Account,
    file: &[u8],
) -> Result<Option<Place>, ReadRefused>
    requires links { place.links + 1 < 2 ^ 64 }
    ensures read { AnswersFront (λ next. option_map (λ p. front_at p account.new.state) next) result
        (next_front (front_at place account.old.state) file.now) }
    ensures kept { result ≡ Ok None → account.new.state ≡ account.old.state }
    ensures links { IfOk result (λ next. IfSome next (λ p. p.links ≡ place.links + 1)) }
    ensures within { IfOk result (λ next. IfSome next (λ p. p.gate ≤ length file.now)) }
    ensures closed { result ≡ Ok None → place.gate < length file.now }
{
    if !is_open_at(place.gate, file)? {
        return Ok(None);
    }
    let next = link_at(alloc, place, account, file)?;
    Ok(Some(next))
}

// Returns how many bytes the gate at the front has together with the link after it, if the gate is
// open and the link's length is there.
pub(crate) fn link_len(bytes: &[u8]) -> Option<usize>
    ensures some { IfSome result (λ n. (count : ℕ)
        → field (number_of 4) 1 4 bytes.now ≡ Ok count → n ≡ 5 + count) }
    ensures least { IfSome result (λ n. 5 ≤ n) }
    ensures none { result ≡ None → (count : ℕ) → field is_open_of 0 1 bytes.now ≡ Ok true
        → field (number_of 4) 1 4 bytes.now ≡ Ok count → ⊥ }
{
    match is_open_at(0, bytes) {
        Ok(true) => match payload_count_at(1, bytes) {
            Ok(count) => Some(5 + count as usize),
            Err(_) => None,
        },
        Ok(false) => None,
        Err(_) => None,
    }
}
