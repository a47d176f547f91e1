//! Puts runs of bytes at offsets.

ghost use Rattle.std.specs.Prelude.{◌≡◌, ◌≤◌, ◌+◌, length};
ghost use Rattle.ras_panic.specs.Runs.{with_run};

// Puts a run at an offset.
#[tactic(auto, unfolding(crate::specs::Runs::with_run))]
pub(crate) fn put(bytes: &mut [u8], place: usize, run: &[u8])
    requires { place + length run.now ≤ length bytes.old }
    ensures run { bytes.new ≡ with_run place run.now bytes.old }
{
    bytes[place..place + run.len()].copy_from_slice(run);
}
