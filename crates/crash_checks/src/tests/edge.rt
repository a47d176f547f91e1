//! The program's own board, over a system in memory: a crash of the machine before each call of the
//! system in a run, or after a failed call, what the crash leaves by choices of names and of
//! writes, and a run that continues from it.

ghost use Rattle.ras_base.specs.LittleEndian.{AreBytes};

use super::journals::full_chain;
use super::records::{ENTRIES, ERST, PANIC, POLL, PUT_5, RECORD};
use super::{ANOTHER, EVERYDAY, MODULE, joined};
use board_core::MemSource;
use host_system::system_laws;
use mem_system::{Effect, LeftFolder, MemKernel, MemSystem, NamePick, StopPick, WriteLeft};
use ras_daemon::{Exit, RasWord, rasd};
use ras_host::{Alone, FileBoard, OnlyReading, OverKernel, Use};
use std::alloc::Global;
use std::marker::Brand;
use std::test::Fail;

// More calls of the system than each run here makes.
const MOST_CALLS: u64 = 1000;

// Which names are as they were before the last change of each: no name, all, or one.
const OLD_NAMES: [[bool; 4]; 6] = [
    [false, false, false, false],
    [true, true, true, true],
    [true, false, false, false],
    [false, true, false, false],
    [false, false, true, false],
    [false, false, false, true],
];

// What a crash leaves of the writes that aren't synced.
const WRITES: [WriteLeft; 3] = [WriteLeft::Old, WriteLeft::New, WriteLeft::Fill(0xa5)];

fn pick_of(is_old: [bool; 4], rest: WriteLeft) -> StopPick<'static> {
    let name = |is_old| NamePick {
        back: usize::from(is_old),
        writes: &[],
        rest,
    };
    StopPick {
        zero: name(is_old[0]),
        one: name(is_old[1]),
        store: name(is_old[2]),
        fresh: name(is_old[3]),
    }
}

// Returns the folder now.
fn now(system: &MemSystem) -> Result<LeftFolder, Fail> {
    Ok(system.left(&pick_of(OLD_NAMES[0], WriteLeft::New))?)
}

// The bytes of a slice are below 256, which a board requires of the store's file.
fn are_bytes(_bytes: &[u8])
    ensures { AreBytes _bytes.now }
{}

// What happens in a run: nothing, a crash before the call of the system of this number, or a
// failure of this call after this effect.
#[derive(Clone, Copy)]
enum Trouble {
    Nothing,
    Stop(u64),
    Failure(u64, Effect),
}

// A call of the daemon over a folder, with this trouble.
fn call_over<U: Use>(
    alloc: Global,
    words: &[RasWord],
    script: Vec<u8>,
    start: &LeftFolder,
    trouble: Trouble,
) -> Result<(Exit, MemSystem), Fail> {
    if let Some(bytes) = &start.store {
        are_bytes(bytes);
    }
    let mut system = MemSystem::over(alloc, start)?;
    system_laws();
    match trouble {
        Trouble::Nothing => {}
        Trouble::Stop(call) => system.stop_before(call),
        Trouble::Failure(call, effect) => system.fail_at(call, effect)?,
    }
    let mut source = MemSource::new(script, 7, Vec::new(alloc));
    let mut board: FileBoard<MemSystem, U, Brand> = FileBoard::new(alloc, system);
    let exit = rasd(alloc, words, &mut source, &mut board);
    Ok((exit, board.into_parts().0))
}

// A run over a folder.
fn run_over(
    alloc: Global,
    script: &[&[u8]],
    start: &LeftFolder,
    trouble: Trouble,
) -> Result<(Exit, MemSystem), Fail> {
    let words = vec![in alloc; RasWord::new(alloc, b"run")?]?;
    call_over::<Alone>(alloc, &words, joined(alloc, script)?, start, trouble)
}

// Returns the names of the account in a folder.
fn names_in(alloc: Global, start: &LeftFolder) -> Result<Vec<u8>, Fail> {
    let words = vec![in alloc;
        RasWord::new(alloc, b"report")?,
        RasWord::new(alloc, b"names")?,
    ]?;
    let nothing = Trouble::Nothing;
    let (_, system) = call_over::<OnlyReading>(alloc, &words, Vec::new(alloc), start, nothing)?;
    Ok(now(&system)?.out)
}

// Whether a run over what a crash left is done, and its account has these names.
fn is_whole(
    alloc: Global,
    script: &[&[u8]],
    left: &LeftFolder,
    names: &[u8],
) -> Result<bool, Fail> {
    let (exit, system) = run_over(alloc, script, left, Trouble::Nothing)?;
    Ok(exit == Exit::Done && names_in(alloc, &now(&system)?)?.as_slice() == names)
}

// Returns what a crash leaves of a run with this trouble; `None` if the run made no such call.
fn left_of(
    system: &MemSystem,
    exit: Exit,
    trouble: Trouble,
    pick: &StopPick,
) -> Result<Option<LeftFolder>, Fail> {
    match trouble {
        Trouble::Stop(_) => Ok(system.left_before(pick)?),
        Trouble::Failure(..) if exit == Exit::Done => Ok(None),
        _ => Ok(Some(system.left(pick)?)),
    }
}

// Lets a crash come before each call of a run, or lets the call fail after this effect, and returns
// how many calls there were, if the account was whole over all that a crash leaves then.
fn calls_that_lose_nothing(
    alloc: Global,
    script: &[&[u8]],
    start: &LeftFolder,
    effect: Option<Effect>,
) -> Result<Option<u64>, Fail> {
    let (_, undisturbed) = run_over(alloc, script, start, Trouble::Nothing)?;
    let names = names_in(alloc, &now(&undisturbed)?)?;
    for call in 1..MOST_CALLS {
        let trouble = match effect {
            Some(effect) => Trouble::Failure(call, effect),
            None => Trouble::Stop(call),
        };
        let (exit, system) = run_over(alloc, script, start, trouble)?;
        for is_old in OLD_NAMES {
            for rest in WRITES {
                let pick = pick_of(is_old, rest);
                let Some(left) = left_of(&system, exit, trouble, &pick)? else {
                    return Ok(Some(call - 1));
                };
                if !is_whole(alloc, script, &left, &names)? {
                    return Ok(None);
                }
            }
        }
    }
    Ok(None)
}

// The first event switches to the other journal file.
#[test]
fn nothing_is_lost_over_a_switch(rt: HostRuntime) -> Result<(), Fail> {
    let alloc = rt.alloc();
    let mut start = LeftFolder::empty(alloc);
    start.zero = Some(full_chain(alloc)?);
    let script: &[&[u8]] = &[MODULE, EVERYDAY, ANOTHER];
    let calls = calls_that_lose_nothing(alloc, script, &start, None)?;
    assert!(rt; matches!(calls, Some(calls) if calls > 20));
    Ok(())
}

// The program's own calls over a kernel in memory: its checks of the names pass, and a run is done.
#[test]
fn run_over_a_kernel_is_done(rt: HostRuntime) -> Result<(), Fail> {
    let alloc = rt.alloc();
    let start = LeftFolder::empty(alloc);
    if let Some(bytes) = &start.store {
        are_bytes(bytes);
    }
    let mem_system = MemSystem::over(alloc, &start)?;
    system_laws();
    let system = OverKernel::over(MemKernel::over(mem_system));
    let script = joined(
        alloc,
        &[ERST, ENTRIES, PUT_5, RECORD, PANIC, POLL, EVERYDAY],
    )?;
    let mut source = MemSource::new(script, 7, Vec::new(alloc));
    let mut board: FileBoard<OverKernel<MemKernel>, Alone, Brand> = FileBoard::new(alloc, system);
    let words = vec![in alloc; RasWord::new(alloc, b"run")?]?;
    let exit = rasd(alloc, &words, &mut source, &mut board);
    assert!(rt; exit == Exit::Done);
    Ok(())
}

#[test]
fn nothing_is_lost_over_polls(rt: HostRuntime) -> Result<(), Fail> {
    let alloc = rt.alloc();
    let script: &[&[u8]] = &[ERST, ENTRIES, PUT_5, RECORD, PANIC, POLL, EVERYDAY];
    let start = LeftFolder::empty(alloc);
    for effect in [None, Some(Effect::Nothing), Some(Effect::All)] {
        let calls = calls_that_lose_nothing(alloc, script, &start, effect)?;
        assert!(rt; matches!(calls, Some(calls) if calls > 40));
    }
    Ok(())
}
