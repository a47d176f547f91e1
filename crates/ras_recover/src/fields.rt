//! Reads the fields of a journal file.
ghost use Rattle.std.specs.Prelude.{◌≡◌, ◌+◌, ◌^◌, ◌<◌, ◌≤◌, length, None, Some, IfSome, IfOk, OnOk};
ghost use Rattle.journal_format.specs.Checkpoints.{IsCheckpoint};
ghost use Rattle.journal_format.specs.CheckpointReading.{checkpoint_of};
ghost use Rattle.ras_journal.specs.Fields.{part, field, version_of, generation_of, number_of, is_open_of};
ghost use Rattle.ras_recover.specs.Steps.Reading.{AnswersField, AnswersFront};

use crate::place::ReadRefused;
use entry_format::Version;
use journal_format::{CheckpointRefused, is_checkpoint_of, read_checkpoint};
use ras_account::Account;
use ras_base::NoMemory;
use ras_base::little_endian::{u32_at, u64_at};
use ras_journal::{LAST_GENERATION, OPEN_GATE};
use std::alloc::Global;

// Returns `count` bytes of a file from an offset on, if the file has that many there.
#[tactic(auto, unfolding(ras_journal::specs::Fields::part))]
pub(crate) fn part<'a>(place: usize, count: u64, file: &'a [u8]) -> Option<&'a [u8]>
    ensures some { IfSome result (λ bytes. part place count file.now ≡ Some bytes.now) }
    ensures length { IfSome result (λ bytes. length bytes.now ≡ count) }
    ensures within { IfSome result (λ bytes. place + count ≤ length file.now) }
    ensures none { result ≡ None → part place count file.now ≡ None }
{
    if place <= file.len() && count <= (file.len() - place) as u64 {
        Some(&file[place..place + count as usize])
    } else {
        None
    }
}

// Returns the version that a magic names.
fn version_of(bytes: &[u8]) -> Option<Version>
    ensures { result ≡ version_of bytes.now }
{
    if bytes == b"RASJRNL1".as_slice() {
        Some(Version::One)
    } else if bytes == b"RASJRNL2".as_slice() {
        Some(Version::Two)
    } else {
        None
    }
}

// Returns the version by the magic at its offset.
#[tactic(auto, unfolding(ras_journal::specs::Fields::field))]
pub(crate) fn version_at(file: &[u8]) -> Result<Version, ReadRefused>
    ensures { AnswersField result (field version_of 1 8 file.now) }
{
    let Some(bytes) = part(1, 8, file) else {
        return Err(ReadRefused::Damaged(1));
    };
    version_of(bytes).ok_or(ReadRefused::Damaged(1))
}

// Returns the generation, if the number is one and the other file doesn't have it.
#[tactic(auto, unfolding(ras_journal::specs::Fields::field))]
pub(crate) fn generation_at(taken: Option<u64>, file: &[u8]) -> Result<u64, ReadRefused>
    ensures { AnswersField result (field (generation_of taken) 9 8 file.now) }
{
    let Some(bytes) = part(9, 8, file) else {
        return Err(ReadRefused::Damaged(9));
    };
    let generation = u64_at(bytes, 0);
    if 1 <= generation && generation <= LAST_GENERATION && taken != Some(generation) {
        Ok(generation)
    } else {
        Err(ReadRefused::Damaged(9))
    }
}

// Returns the number of the checkpoint's bytes.
#[tactic(auto, unfolding(ras_journal::specs::Fields::field))]
pub(crate) fn checkpoint_count_at(file: &[u8]) -> Result<u64, ReadRefused>
    ensures { AnswersField result (field (number_of 8) 17 8 file.now) }
{
    match part(17, 8, file) {
        Some(bytes) => Ok(u64_at(bytes, 0)),
        None => Err(ReadRefused::Damaged(17)),
    }
}

// Returns whether the gate at an offset is open.
#[tactic(auto, unfolding(ras_journal::specs::Fields::field))]
pub(crate) fn is_open_at(gate: usize, file: &[u8]) -> Result<bool, ReadRefused>
    ensures read { AnswersField result (field is_open_of gate 1 file.now) }
    ensures within { OnOk result (gate + 1 ≤ length file.now) }
{
    match part(gate, 1, file) {
        Some(bytes) => Ok(bytes[0] == OPEN_GATE),
        None => Err(ReadRefused::Damaged(gate)),
    }
}

// Returns the number of the payload's bytes at an offset.
#[tactic(auto, unfolding(ras_journal::specs::Fields::field))]
pub(crate) fn payload_count_at(place: usize, file: &[u8]) -> Result<u64, ReadRefused>
    ensures read { AnswersField result (field (number_of 4) place 4 file.now) }
    ensures small { IfOk result (λ count. count < 2 ^ 32) }
    ensures within { OnOk result (place + 4 ≤ length file.now) }
{
    match part(place, 4, file) {
        Some(bytes) => Ok(u64::from(u32_at(bytes, 0))),
        None => Err(ReadRefused::Damaged(place)),
    }
}

// Returns the account that was given, if the bytes are its checkpoint.
fn account_there(
    alloc: Global,
    version: Version,
    before: Option<Account>,
    bytes: &[u8],
) -> Result<Option<Account>, NoMemory>
    ensures { IfOk result (λ found. IfSome found
        (λ account. IsCheckpoint version account.state bytes.now)) }
{
    let Some(account) = before else {
        return Ok(None);
    };
    match version {
        Version::One => Ok(None),
        Version::Two => {
            if is_checkpoint_of(alloc, &account, bytes)? {
                Ok(Some(account))
            } else {
                Ok(None)
            }
        }
    }
}

// Returns the account of a checkpoint of `count` bytes. If it is the account with which the other
// file ended, as after a switch, that account is continued and no second one is made.
pub(crate) fn checkpoint_at(
    alloc: Global,
    version: Version,
    before: Option<Account>,
    count: u64,
    file: &[u8],
) -> Result<Account, ReadRefused>
    ensures read { AnswersFront (λ account. account.state) result (field (checkpoint_of version) 25 count file.now) }
    ensures within { OnOk result (25 + count ≤ length file.now) }
{
    let Some(bytes) = part(25, count, file) else {
        return Err(ReadRefused::Damaged(25));
    };
    if let Some(account) = account_there(alloc, version, before, bytes)? {
        return Ok(account);
    }
    match read_checkpoint(alloc, version, bytes) {
        Ok(account) => Ok(account),
        Err(CheckpointRefused::Bad) => Err(ReadRefused::Damaged(25)),
        Err(CheckpointRefused::NoMemory) => Err(ReadRefused::NoMemory),
    }
}
