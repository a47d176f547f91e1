//! The list of a board's calls, which only contracts read.
ghost use Rattle.std.specs.Prelude.{◌≡◌, ◌∷◌, ◌++◌, []};
ghost use Rattle.ras_host.specs.Steps.Listed.{access_noted, accesses_noted, disk_call_noted, disk_calls_noted, file_numbered, register_numbered};

use board_core::{Access, DiskCall, FileNo, Reg};
use host_system::Notes;

fn number_of(file: FileNo) -> u64
    ensures { file_numbered result ≡ file }
{
    match file {
        FileNo::Zero => 0,
        FileNo::One => 1,
    }
}

fn number_of_register(reg: Reg) -> u64
    ensures { register_numbered result ≡ reg }
{
    match reg {
        Reg::Action => 0,
        Reg::Value => 1,
    }
}

// Returns a disk call as numbers.
fn disk_call_in_numbers(call: DiskCall) -> [u64; 4]
    ensures { disk_call_noted result ≡ call }
{
    match call {
        DiskCall::Size(file) => [0, number_of(file), 0, 0],
        DiskCall::ReadAt(file, place, length) => [1, number_of(file), place, length],
        DiskCall::WriteAt(file, place, length) => [2, number_of(file), place, length],
        DiskCall::Sync(file) => [3, number_of(file), 0, 0],
    }
}

// Returns an access to the device as numbers.
fn access_in_numbers(access: Access) -> [u64; 3]
    ensures { access_noted result ≡ access }
{
    match access {
        Access::Read(reg, value) => [0, number_of_register(reg), value],
        Access::Write(reg, value) => [1, number_of_register(reg), value],
        Access::RangeRead(place, length) => [2, u64::from(place), u64::from(length)],
        Access::RangeWrite(place, length) => [3, u64::from(place), u64::from(length)],
    }
}

/// Appends a disk call to the list of calls.
pub fn list_disk_call(call: DiskCall, calls: &mut Notes)
    ensures { disk_calls_noted calls.new.calls
        ≡ disk_calls_noted calls.old.calls ++ call ∷ [] }
{
    calls.note(&disk_call_in_numbers(call), &[]);
}

/// Appends an access to the device to the list of accesses.
pub fn list_access(access: Access, accesses: &mut Notes)
    ensures { accesses_noted accesses.new.calls
        ≡ accesses_noted accesses.old.calls ++ access ∷ [] }
{
    accesses.note(&access_in_numbers(access), &[]);
}
