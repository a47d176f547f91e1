//! The instruction that moves bytes of the range.

ghost use Rattle.std.specs.Prelude.{◌+◌, ◌<◌, ◌^◌};
ghost use Rattle.erst_interp.specs.Machine.{moved};
ghost use Rattle.erst_interp.specs.Steps.Running.{IsPlace, Turns};

use crate::machine::Variables;
use crate::refusals::RunRefused;
use board_core::Board;
use erst_store::RANGE_LENGTH;
use erst_store::actions::RANGE_ADDRESS;

// Returns the offset in the range of `count` bytes from an address on, if all of them are inside.
fn place_of(base: u64, offset: u64, count: u64) -> Option<u32>
    ensures { IsPlace (base + offset) count result }
{
    let place = base.checked_add(offset)?.checked_sub(RANGE_ADDRESS)?;
    let end = place.checked_add(count)?;
    if end > RANGE_LENGTH as u64 {
        return None;
    }
    Some(place as u32)
}

// Does MOVE_DATA with this offset: moves var2 bytes from the source base to the destination base,
// as if all were read before any is written.
pub(crate) fn move_bytes<B: Board>(
    offset: u64,
    variables: Variables,
    board: &mut B,
) -> Result<Variables, RunRefused>
    requires { variables.index + 2 < 2 ^ 64 }
    ensures { Turns (λ s. moved offset s) variables result
        (B.seen board.old)
        (B.seen board.new) }
{
    let count = variables.var2;
    let Some(from) = place_of(variables.src, offset, count) else {
        return Err(RunRefused::BadRange);
    };
    let Some(to) = place_of(variables.dst, offset, count) else {
        return Err(RunRefused::BadRange);
    };
    let mut buffer = [0u8; RANGE_LENGTH];
    let bytes = &mut buffer[..count as usize];
    board.range_read(from, bytes)?;
    board.range_write(to, bytes)?;
    Ok(variables.next())
}
