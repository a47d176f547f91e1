//! Reads both files of a journal, the older one first.
//!
//! A switch writes the account with which one file ends as the checkpoint of the other. So the
//! older file is read first and its account is continued in the newer one, without making a second
//! account. Which file is older is only guessed from their fronts; the result depends only on what
//! was read of both.
ghost use Rattle.std.specs.Prelude.{◌≡◌, ◌≤◌, length, IfSome, IfOk};
ghost use Rattle.board_core.specs.Told.{file_of};
ghost use Rattle.ras_journal.specs.declared.limits.TheConstants.{LONGEST_FILE};
ghost use Rattle.ras_recover.specs.OpeningCalls.{ReadsBoth};
ghost use Rattle.ras_recover.specs.Steps.Looking.{Looks};
ghost use Rattle.ras_recover.specs.Steps.Pair.{AreBoth, AreRead, IfFound};
ghost use Rattle.ras_recover.specs.Steps.Windows.{read_end};

use crate::fields::generation_at;
use crate::file::has_open_gate;
use crate::pair::BothRead;
use crate::place::ReadRefused;
use crate::walking::{FileRead, read_file};
use crate::window::{SizedFile, Window};
use board_core::{Board, FileNo};
use journal_format::CHECKPOINT_PLACE;
use std::alloc::Global;

// Returns the generation at the front of a file, if the file is valid and has one there.
fn generation_told<B: Board>(
    alloc: Global,
    file: SizedFile,
    board: &mut B,
) -> Result<Option<u64>, ReadRefused>
    requires short { file.size ≤ LONGEST_FILE }
    requires size { IfSome (B.seen board.old).told (λ t. file.size ≡ length (file_of file.no t)) }
    ensures looks { Looks (read_end result) (λ t calls. Unit {0})
        (B.seen board.old) (B.seen board.new) }
{
    let mut window = Window::new(alloc);
    window.hold(file, 0, CHECKPOINT_PLACE, board)?;
    let front = window.rest(0);
    if !has_open_gate(front) {
        return Ok(None);
    }
    Ok(generation_at(None, front).ok())
}

// Returns the older file and the newer one, if both have a generation and these differ.
fn ordered(
    zero: (SizedFile, Option<u64>),
    one: (SizedFile, Option<u64>),
) -> Option<(SizedFile, SizedFile)>
    ensures { IfSome result (λ r. AreBoth zero.0 one.0 r.0 r.1) }
{
    let (Some(first), Some(second)) = (zero.1, one.1) else {
        return None;
    };
    if second < first {
        Some((one.0, zero.0))
    } else if first < second {
        Some((zero.0, one.0))
    } else {
        None
    }
}

// Returns the older file and the newer one by the fronts of both, if both files are valid.
fn by_age<B: Board>(
    alloc: Global,
    zero: SizedFile,
    one: SizedFile,
    board: &mut B,
) -> Result<Option<(SizedFile, SizedFile)>, ReadRefused>
    requires short { (zero.size ≤ LONGEST_FILE) × (one.size ≤ LONGEST_FILE) }
    requires sizes { IfSome (B.seen board.old).told
        (λ t. (zero.size ≡ length (file_of zero.no t)) × (one.size ≡ length (file_of one.no t))) }
    ensures files { IfOk result (λ r. IfSome r (λ files. AreBoth zero one files.0 files.1)) }
    ensures looks { Looks (read_end result) (λ t calls. Unit {0})
        (B.seen board.old) (B.seen board.new) }
{
    let first = generation_told(alloc, zero, board)?;
    let second = generation_told(alloc, one, board)?;
    Ok(ordered((zero, first), (one, second)))
}

// Returns what is read of both files, the older one first. Returns `None` or `Damaged` if they have
// to be read one by one, because one of them isn't valid or is damaged.
pub(crate) fn read_by_age<B: Board>(
    alloc: Global,
    zero: SizedFile,
    one: SizedFile,
    board: &mut B,
) -> Result<Option<BothRead>, ReadRefused>
    requires numbers { (zero.no ≡ FileNo.Zero) × (one.no ≡ FileNo.One) }
    requires short { (zero.size ≤ LONGEST_FILE) × (one.size ≤ LONGEST_FILE) }
    requires sizes { IfSome (B.seen board.old).told
        (λ t. (zero.size ≡ length (file_of zero.no t)) × (one.size ≡ length (file_of one.no t))) }
    ensures read { IfOk result (λ found. IfSome found (λ both. IfSome (B.seen board.old).told
        (λ t. AreRead both t.here.file0 t.here.file1))) }
    ensures looks { Looks (read_end result) (λ t calls. IfFound result (ReadsBoth t.here calls))
        (B.seen board.old) (B.seen board.new) }
{
    let Some((older, newer)) = by_age(alloc, zero, one, board)? else {
        return Ok(None);
    };
    let FileRead { front: first, .. } = read_file(alloc, None, None, older, board)?;
    let Some((last, account)) = first else {
        return Ok(None);
    };
    let FileRead { front: second, .. } = read_file(alloc, None, Some(account), newer, board)?;
    let Some((place, account)) = second else {
        return Ok(None);
    };
    if place.generation <= last.generation {
        return Ok(None);
    }
    Ok(Some(BothRead {
        shut: (false, false),
        journal: Some((newer.no, place, account)),
    }))
}
