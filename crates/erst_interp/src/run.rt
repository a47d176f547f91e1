//! Runs of an action's list.

ghost use Rattle.std.specs.Prelude.{◌<◌, ◌+◌, ◌^◌, ◌⊎◌, IfSome, IsTrue};
ghost use Rattle.board_core.specs.Told.{device_of};
ghost use Rattle.erst_store.specs.DeviceLaws.{IsDevice};
ghost use Rattle.erst_interp.specs.Admission.{IsAdmitted};
ghost use Rattle.erst_interp.specs.Faithful.{RunsAction};
ghost use Rattle.erst_interp.specs.Machine.{turn};
ghost use Rattle.erst_interp.specs.Run.{RunsList};
ghost use Rattle.erst_interp.specs.Steps.Parts.{GoesOn, is_straight};
ghost use Rattle.erst_interp.specs.Steps.Running.{IsUnused, Turns};
ghost use Rattle.erst_interp.specs.Table.{list_of};

use crate::entries::InstructionEntry;
use crate::machine::{Use, Variables, Work};
use crate::moving::move_bytes;
use crate::refusals::RunRefused;
use crate::table::Table;
use board_core::Board;

/// The most instructions that a run makes.
pub const MOST_TURNS: u32 = 4096;

impl Table {
    /// Runs the list of an action over the device of a board, starting from an input, and returns
    /// the value at its end. Allocates nothing. (ACPI 6.5, section 18.5.1.2, "Serialization
    /// Instructions".)
    ///
    /// `Fuel`: `MOST_TURNS` instructions were run and there is a next entry. `BadInstruction`: the
    /// next entry's instruction isn't known. `BadRegister`: it uses a register that isn't usable.
    /// `BadRange`: it moves bytes that aren't all in the range. `Register`: only if a call of the
    /// board failed; that call was the last, and the calls before it are the first of those that
    /// the list makes. What was done before an error isn't undone.
    ///
    /// The list of an admitted table does its action, and returns no error but `Register`.
    pub fn run<B: Board>(&self, action: u8, input: u64, board: &mut B) -> Result<u64, RunRefused>
        ensures runs { RunsList (list_of action self.now) input result
            (B.seen board.old)
            (B.seen board.new) }
        ensures admitted { IsAdmitted action (list_of action self.now)
            → RunsAction action input result
            (B.seen board.old)
            (B.seen board.new) }
    {
        let list = self.list(action);
        let mut variables = Variables::new(input);
        for _ in 0..MOST_TURNS {
            let Some(entry) = list.get(variables.index as usize) else {
                return Ok(variables.value);
            };
            variables = turn(entry, variables, board)?;
        }
        match list.get(variables.index as usize) {
            Some(_) => Err(RunRefused::Fuel),
            None => Ok(variables.value),
        }
    }
}

// Runs one turn with an entry, from these variables on.
fn turn<B: Board>(
    entry: &InstructionEntry,
    variables: Variables,
    board: &mut B,
) -> Result<Variables, RunRefused>
    requires { variables.index + 2 < 2 ^ 64 }
    ensures turns { Turns (λ s. turn entry.now s) variables result
        (B.seen board.old)
        (B.seen board.new) }
    ensures straight { IsTrue (is_straight entry.now) → GoesOn variables result }
    ensures device { IsUnused entry.now result (B.seen board.old).told (B.seen board.new).told
        ⊎ IfSome (B.seen board.old).told (λ t. IsDevice (device_of t)) }
{
    let how = match entry.instruction.work() {
        Work::Unknown => return Err(RunRefused::BadInstruction),
        Work::Computes => return Ok(variables.computed(entry.instruction, entry)),
        Work::Uses(how) => how,
    };
    let Some(reg) = entry.register else {
        return Err(RunRefused::BadRegister);
    };
    let number = match how {
        Use::Reads => {
            let number = entry.field_of(board.reg_read(reg)?);
            return Ok(variables.taken(entry.instruction, entry, number));
        }
        Use::Moves => {
            let offset = entry.field_of(board.reg_read(reg)?);
            return move_bytes(offset, variables, board);
        }
        Use::Changes => entry.changed(entry.instruction, entry.field_of(board.reg_read(reg)?)),
        Use::Writes => variables.given(entry.instruction, entry),
    };
    let whole = if entry.preserves {
        entry.with_field(number, board.reg_read(reg)?)
    } else {
        entry.alone(number)
    };
    board.reg_write(reg, whole)?;
    Ok(variables.next())
}
