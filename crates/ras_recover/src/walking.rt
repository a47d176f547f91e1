//! Reads one journal file of a board, piece by piece.
ghost use Rattle.std.specs.Prelude.{◌≡◌, ◌+◌, ◌-◌, ◌<◌, ◌≤◌, ◌^◌, length, drop, None, Some, Ok, IfSome, IfOk, IfErr, OnOk};
ghost use Rattle.std.specs.Option.{option_map};
ghost use Rattle.board_core.specs.Told.{file_of};
ghost use Rattle.ras_journal.specs.declared.limits.TheConstants.{LONGEST_FILE};
ghost use Rattle.ras_journal.specs.File.{next_front, whole_front, front_of};
ghost use Rattle.ras_journal.specs.Recovered.{is_shut};
ghost use Rattle.ras_recover.specs.Steps.Looking.{Looks, ReadsPart};
ghost use Rattle.ras_recover.specs.OpeningCalls.{ReadsStanding};
ghost use Rattle.ras_recover.specs.Steps.Reading.{front_at};
ghost use Rattle.ras_recover.specs.Steps.Windows.{Covers, end_of, IsAnswer, IsNoDamage, read_end, LinkHeld, FrontHeld, IsBegun, IsBroken};

use crate::file::{first_place, front_len, has_open_gate, is_shut};
use crate::links::{link_len, next_place};
use crate::place::{Place, ReadRefused};
use crate::window::{SizedFile, Window};
use board_core::Board;
use journal_format::CHECKPOINT_PLACE;
use ras_account::Account;
use std::alloc::Global;

/// The number of bytes of a gate and of the number after it, which counts its payload's bytes.
const GATE_AND_COUNT: usize = 5;

/// What was read of a journal file.
#[derive(Drop)]
pub(crate) struct FileRead {
    /// Whether the file is longer than 1 byte and has no open gate at its front.
    pub(crate) shut: bool,
    /// The closed gate that ends the chain, and the account there, or `None` if the file isn't
    /// valid.
    pub(crate) front: Option<(Place, Account)>,
}

// Buffers the link after the gate at the present position, if that gate is open and the file has
// the link.
fn hold_link<B: Board>(
    file: SizedFile,
    gate: usize,
    window: &mut Window,
    board: &mut B,
) -> Result<(), ReadRefused>
    requires covers { Covers file gate (B.seen board.old).told window.old }
    ensures covers { OnOk result (Covers file gate (B.seen board.new).told window.new) }
    ensures held { OnOk result (IfSome (B.seen board.old).told
        (λ t. LinkHeld (end_of window.new - gate) (drop gate (file_of file.no t)))) }
    ensures unread { IfErr result IsNoDamage }
    ensures looks { Looks (read_end result)
        (λ t. ReadsPart file.no (end_of window.old) (end_of window.new))
        (B.seen board.old) (B.seen board.new) }
{
    window.hold(file, gate, GATE_AND_COUNT, board)?;
    let Some(count) = link_len(window.rest(gate)) else {
        return Ok(());
    };
    if count > file.size - gate {
        return Ok(());
    }
    window.hold(file, gate, count, board)
}

// Returns the position at the next gate, with the entries before it counted, if the gate at the
// present position is open; `None` if it is closed.
fn next_in<B: Board>(
    alloc: Global,
    file: SizedFile,
    place: Place,
    account: &mut Account,
    window: &mut Window,
    board: &mut B,
) -> Result<Option<Place>, ReadRefused>
    requires links { place.links + 1 < 2 ^ 64 }
    requires covers { Covers file place.gate (B.seen board.old).told window.old }
    ensures read { IfSome (B.seen board.old).told
        (λ t. IsAnswer (λ next. option_map (λ p. front_at p account.new.state) next) result
        (next_front (front_at place account.old.state) (file_of file.no t))) }
    ensures closed { result ≡ Ok None
        → (account.new.state ≡ account.old.state) × (place.gate < end_of window.new) }
    ensures next { IfOk result (λ next. IfSome next (λ p. (p.links ≡ place.links + 1)
        × Covers file p.gate (B.seen board.new).told window.new)) }
    ensures looks { Looks (read_end result)
        (λ t. ReadsPart file.no (end_of window.old) (end_of window.new))
        (B.seen board.old) (B.seen board.new) }
{
    hold_link(file, place.gate, window, board)?;
    let here = Place { gate: 0, ..place };
    match next_place(alloc, here, account, window.rest(place.gate)) {
        Ok(Some(next)) => Ok(Some(Place {
            gate: place.gate + next.gate,
            ..next
        })),
        Ok(None) => Ok(None),
        Err(ReadRefused::Damaged(at)) => {
            Err(ReadRefused::Damaged(place.gate.saturating_add(at)))
        }
        Err(refused) => Err(refused),
    }
}

// Returns the position at the closed gate that ends the chain, with all entries before it counted.
fn last_in<B: Board>(
    alloc: Global,
    file: SizedFile,
    first: Place,
    account: &mut Account,
    window: &mut Window,
    board: &mut B,
) -> Result<Place, ReadRefused>
    requires links { first.links ≡ 0 }
    requires covers { Covers file first.gate (B.seen board.old).told window.old }
    ensures read { IfSome (B.seen board.old).told
        (λ t. IsAnswer (λ place. front_at place account.new.state) result
        (whole_front (length (file_of file.no t)) (front_at first account.old.state)
        (file_of file.no t))) }
    ensures closed { IfOk result (λ place. place.gate < end_of window.new) }
    ensures looks { Looks (read_end result)
        (λ t. ReadsPart file.no (end_of window.old) (end_of window.new))
        (B.seen board.old) (B.seen board.new) }
{
    let mut place = first;
    for _ in 0..file.size {
        match next_in(alloc, file, place, account, window, board)? {
            Some(next) => place = next,
            None => return Ok(place),
        }
    }
    Err(ReadRefused::Damaged(place.gate))
}

// Buffers the checkpoint, if the file is valid and has it.
fn hold_front<B: Board>(
    file: SizedFile,
    window: &mut Window,
    board: &mut B,
) -> Result<(), ReadRefused>
    requires covers { Covers file 0 (B.seen board.old).told window.old }
    ensures covers { OnOk result (Covers file 0 (B.seen board.new).told window.new) }
    ensures held { OnOk result (IfSome (B.seen board.old).told
        (λ t. FrontHeld (end_of window.new) (file_of file.no t))) }
    ensures unread { IfErr result IsNoDamage }
    ensures looks { Looks (read_end result)
        (λ t. ReadsPart file.no (end_of window.old) (end_of window.new))
        (B.seen board.old) (B.seen board.new) }
{
    window.hold(file, 0, CHECKPOINT_PLACE, board)?;
    let Some(count) = front_len(window.rest(0)) else {
        return Ok(());
    };
    if count > file.size {
        return Ok(());
    }
    window.hold(file, 0, count, board)
}

// Returns the position at the chain's first gate, and the account of the checkpoint. `account` may
// be the account with which the other file ended.
fn first_in<B: Board>(
    alloc: Global,
    taken: Option<u64>,
    before: Option<Account>,
    file: SizedFile,
    window: &mut Window,
    board: &mut B,
) -> Result<FileRead, ReadRefused>
    requires covers { Covers file 0 (B.seen board.old).told window.old }
    ensures begun { IfOk result (λ r. IfSome (B.seen board.old).told
        (λ t. IsBegun taken (file_of file.no t)
        (option_map (λ p. front_at p.0 p.1.state) r.front))) }
    ensures broken { IfErr result (λ refused. IfSome (B.seen board.old).told
        (λ t. IsBroken taken (file_of file.no t) refused)) }
    ensures shut { IfOk result (λ r. IfSome (B.seen board.old).told
        (λ t. r.shut ≡ is_shut (file_of file.no t))) }
    ensures front { IfOk result (λ r. IfSome r.front (λ p. (p.0.links ≡ 0)
        × Covers file p.0.gate (B.seen board.new).told window.new)) }
    ensures looks { Looks (read_end result)
        (λ t. ReadsPart file.no (end_of window.old) (end_of window.new))
        (B.seen board.old) (B.seen board.new) }
{
    hold_front(file, window, board)?;
    let front = window.rest(0);
    if !has_open_gate(front) {
        return Ok(FileRead {
            shut: is_shut(front),
            front: None,
        });
    }
    let first = first_place(alloc, taken, before, front)?;
    Ok(FileRead {
        shut: false,
        front: Some(first),
    })
}

// Returns the position at the closed gate that ends the chain of a file, and the account there, if
// the file is valid. The caller passes the generation of the other file and the account with which
// that file ended, if it has them.
pub(crate) fn read_file<B: Board>(
    alloc: Global,
    taken: Option<u64>,
    before: Option<Account>,
    file: SizedFile,
    board: &mut B,
) -> Result<FileRead, ReadRefused>
    requires short { file.size ≤ LONGEST_FILE }
    requires size { IfSome (B.seen board.old).told (λ t. file.size ≡ length (file_of file.no t)) }
    ensures read { IfSome (B.seen board.old).told
        (λ t. IsAnswer (λ r. option_map (λ p. front_at p.0 p.1.state) r.front) result
        (front_of taken (file_of file.no t))) }
    ensures shut { IfOk result (λ r. IfSome (B.seen board.old).told
        (λ t. r.shut ≡ is_shut (file_of file.no t))) }
    ensures looks { Looks (read_end result) (λ t. ReadsStanding file.no (file_of file.no t))
        (B.seen board.old) (B.seen board.new) }
{
    let mut window = Window::new(alloc);
    let FileRead { shut, front } = first_in(alloc, taken, before, file, &mut window, board)?;
    let Some((first, mut account)) = front else {
        return Ok(FileRead { shut, front: None });
    };
    let place = last_in(alloc, file, first, &mut account, &mut window, board)?;
    Ok(FileRead {
        shut,
        front: Some((place, account)),
    })
}
