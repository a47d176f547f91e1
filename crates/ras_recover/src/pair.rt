//! Reads the two files of a journal.
ghost use Rattle.std.specs.Prelude.{◌≡◌, ℕ, ◌≤◌, List, length, Ok, IfSome, IfOk};
ghost use Rattle.std.specs.Option.{option_map};
ghost use Rattle.board_core.specs.Told.{file_of};
ghost use Rattle.ras_account.specs.View.{nothing};
ghost use Rattle.ras_journal.specs.declared.limits.TheConstants.{LONGEST_FILE};
ghost use Rattle.ras_journal.specs.File.{front_of, account_by};
ghost use Rattle.ras_journal.specs.Recovered.{in_file, greater, generation_in, is_shut, journal_of, recovered, standing_of, position_of};
ghost use Rattle.ras_account.specs.Account.{State};
ghost use Rattle.ras_recover.specs.Steps.Reading.{front_at};
ghost use Rattle.ras_recover.specs.OpeningCalls.{ReadsStanding, ReadsBoth};
ghost use Rattle.ras_recover.specs.Recovering.{TellsHeld, open_end};
ghost use Rattle.ras_recover.specs.Steps.Looking.{Looks};
ghost use Rattle.ras_recover.specs.Steps.Pair.{AreRead};

use crate::OpenRefused;
use crate::by_age::read_by_age;
use crate::place::{Place, ReadRefused};
use crate::walking::{FileRead, read_file};
use crate::window::SizedFile;
use board_core::{Board, FileNo};
use entry_format::Version;
use ras_account::Account;
use ras_journal::Standing;
use std::alloc::Global;

/// What was recovered of a journal.
#[derive(Drop)]
pub struct Recovered {
    /// The account. Nothing waits in it.
    pub account: Account,
    /// The journal's position, or `None` if neither file is valid.
    pub standing: Option<Standing>,
}

/// What was read of both files: whether each is shut, and the current file.
#[derive(Drop)]
pub(crate) struct BothRead {
    pub(crate) shut: (bool, bool),
    pub(crate) journal: Option<(FileNo, Place, Account)>,
}

// Returns what is read of one of a board's files.
fn read_one<B: Board>(
    alloc: Global,
    taken: Option<u64>,
    file: SizedFile,
    board: &mut B,
) -> Result<FileRead, OpenRefused>
    requires short { file.size ≤ LONGEST_FILE }
    requires size { IfSome (B.seen board.old).told (λ t. file.size ≡ length (file_of file.no t)) }
    ensures read { IfSome (B.seen board.old).told
        (λ t. TellsHeld (λ r. option_map (λ p. front_at p.0 p.1.state) r.front) result
        (in_file file.no (front_of taken (file_of file.no t)))) }
    ensures shut { IfOk result (λ r. IfSome (B.seen board.old).told
        (λ t. r.shut ≡ is_shut (file_of file.no t))) }
    ensures looks { Looks (open_end result) (λ t. ReadsStanding file.no (file_of file.no t))
        (B.seen board.old) (B.seen board.new) }
{
    let file_number = match file.no {
        FileNo::Zero => 0,
        FileNo::One => 1,
    };
    match read_file(alloc, taken, None, file, board) {
        Ok(read) => Ok(read),
        Err(ReadRefused::Disk) => Err(OpenRefused::Disk),
        Err(ReadRefused::Damaged(at)) => Err(OpenRefused::Damaged {
            file: file_number,
            place: at as u64,
        }),
        Err(ReadRefused::NoMemory) => Err(OpenRefused::NoMemory),
    }
}

// Returns the file of the greater generation among the valid files.
fn greater(
    zero: Option<(Place, Account)>,
    one: Option<(Place, Account)>,
) -> Option<(FileNo, Place, Account)>
    ensures { option_map (λ j. record { file = j.0; front = front_at j.1 j.2.state }) result
        ≡ greater (option_map (λ p. front_at p.0 p.1.state) zero) (option_map (λ p. front_at p.0 p.1.state) one) }
{
    match (zero, one) {
        (None, None) => None,
        (Some((place, account)), None) => Some((FileNo::Zero, place, account)),
        (None, Some((place, account))) => Some((FileNo::One, place, account)),
        (Some((zero, first)), Some((one, second))) => {
            if zero.generation < one.generation {
                Some((FileNo::One, one, second))
            } else {
                Some((FileNo::Zero, zero, first))
            }
        }
    }
}

// Returns the generation of a file, if the file is valid.
fn generation_in(front: &Option<(Place, Account)>) -> Option<u64>
    ensures { result ≡ generation_in (option_map (λ p. front_at p.0 p.1.state) front.now) }
{
    match front {
        Some((place, _)) => Some(place.generation),
        None => None,
    }
}

// Returns which of the two files is current, and what it contains. Reads the older file first if
// both are valid and undamaged; otherwise file 0 first, so that its damage is reported first.
pub(crate) fn read_both<B: Board>(
    alloc: Global,
    sizes: (usize, usize),
    board: &mut B,
) -> Result<BothRead, OpenRefused>
    requires short { (sizes.0 ≤ LONGEST_FILE) × (sizes.1 ≤ LONGEST_FILE) }
    requires sizes { IfSome (B.seen board.old).told
        (λ t. (sizes.0 ≡ length t.here.file0) × (sizes.1 ≡ length t.here.file1)) }
    ensures read { IfSome (B.seen board.old).told
        (λ t. TellsHeld (λ r. option_map (λ j. record { file = j.0; front = front_at j.1 j.2.state })
        r.journal) result (journal_of t.here.file0 t.here.file1)) }
    ensures shut { IfOk result (λ r. IfSome (B.seen board.old).told
        (λ t. (r.shut.0 ≡ is_shut t.here.file0) × (r.shut.1 ≡ is_shut t.here.file1))) }
    ensures looks { Looks (open_end result) (λ t. ReadsBoth t.here)
        (B.seen board.old) (B.seen board.new) }
{
    let zero = SizedFile {
        no: FileNo::Zero,
        size: sizes.0,
    };
    let one = SizedFile {
        no: FileNo::One,
        size: sizes.1,
    };
    let found = match read_by_age(alloc, zero, one, board) {
        Ok(found) => found,
        Err(ReadRefused::Damaged(_)) => None,
        Err(ReadRefused::Disk) => return Err(OpenRefused::Disk),
        Err(ReadRefused::NoMemory) => return Err(OpenRefused::NoMemory),
    };
    if let Some(both) = found {
        return Ok(both);
    }
    let first = read_one(alloc, None, zero, board)?;
    let second = read_one(alloc, generation_in(&first.front), one, board)?;
    Ok(BothRead {
        shut: (first.shut, second.shut),
        journal: greater(first.front, second.front),
    })
}

// Returns the position of a journal that is read up to this place of the file.
fn standing_at(file: FileNo, place: Place, shut: (bool, bool)) -> Standing
    ensures { (account : State) (file0 file1 : List ℕ) → shut.0 ≡ is_shut file0
        → shut.1 ≡ is_shut file1 → result
        ≡ standing_of file0 file1 (record { file = file; front = front_at place account }) }
{
    let other_is_shut = match file {
        FileNo::Zero => shut.1,
        FileNo::One => shut.0,
    };
    Standing {
        file,
        version: place.version,
        generation: place.generation,
        length: place.gate as u64,
        links: place.links,
        shut: other_is_shut,
    }
}

// Returns the account that a journal continues with after one of this version: an account of
// version 1 gets an upgrade marker. Waiting entries are dropped.
fn taken_over(version: Version, account: Account) -> Account
    ensures state { result.state ≡ account_by version account.state }
    ensures waiting { result.waiting ≡ nothing }
{
    let mut account = account;
    account.give_up();
    match version {
        Version::One => account.mark(),
        Version::Two => {}
    }
    account
}

// Returns what both files contain, from what was read of them.
pub(crate) fn recovered_of(alloc: Global, both: BothRead) -> Recovered
    ensures recovers { (file0 file1 : List ℕ) → AreRead both file0 file1
        → recovered file0 file1 ≡ Ok result.account.state }
    ensures standing { (file0 file1 : List ℕ) → AreRead both file0 file1
        → position_of file0 file1 ≡ result.standing }
    ensures waiting { result.account.waiting ≡ nothing }
{
    let BothRead { shut, journal } = both;
    match journal {
        Some((file, place, account)) => Recovered {
            account: taken_over(place.version, account),
            standing: Some(standing_at(file, place, shut)),
        },
        None => Recovered {
            account: Account::new(alloc),
            standing: None,
        },
    }
}
