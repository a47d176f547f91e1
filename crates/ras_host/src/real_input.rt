//! The standard input of the process. No clause covers its bytes.
ghost use Rattle.std.specs.Prelude.{◌≡◌, None};

use crate::over_input::OverInput;
use crate::real_kernel::refusal;
use host_system::{FailedCalls, KernelInput, Refusal};
use std::io::Read;

/// The call on the standard input of the process, which isn't modelled.
#[derive(Drop)]
pub struct StandardInput {
    rt: HostRuntime,
    failed: FailedCalls,
}

/// The standard input of the process.
pub type RealInput = OverInput<StandardInput>;

impl OverInput<StandardInput> {
    /// Returns the process's standard input, from its present position on.
    pub fn new(rt: HostRuntime) -> RealInput
        ensures process { result.input.rt ≡ rt }
        ensures quiet { (result.input.failed ≡ 0) × (result.given_up ≡ 0) }
    {
        OverInput::over(StandardInput {
            rt,
            failed: FailedCalls::none(),
        })
    }
}

impl KernelInput for StandardInput {
    ghost left = { λ _. None };

    ghost fails = { λ s. s.failed };

    fn read(&mut self, buf: &mut [u8]) -> Result<usize, Refusal> {
        let answer = self.rt.stdin().read(buf).map_err(refusal);
        self.failed.count_read(answer)
    }
}
