//! Counts the calls that failed.
ghost use Rattle.std.specs.Prelude.{◌≡◌, Ok, IfOk, OnErr, IsErr};
ghost use Rattle.board_core.specs.Cause.{HasCause};

use board_core::Failed;

/// Returns the result, with any error as `Failed`, and raises the count if the result is an error.
/// A count stays at 2^64 - 1.
pub fn counted<T, E: Drop>(answer: Result<T, E>, faults: &mut u64) -> Result<T, Failed>
    ensures ok { IfOk answer (λ value. result ≡ Ok value) }
    ensures err { OnErr answer (IsErr result) }
    ensures cause { HasCause faults.old faults.new result }
    ensures counts { HasCause faults.old faults.new answer }
{
    match answer {
        Ok(value) => Ok(value),
        Err(_) => {
            *faults = faults.saturating_add(1);
            Err(Failed)
        }
    }
}
