//! The input over the kernel's call on standard input.
ghost use Rattle.std.specs.Prelude.{◌≡◌, ◌+◌, ◌<◌, ◌≤◌, length, IfOk, OnErr};
ghost use Rattle.board_core.specs.Takes.{Takes};
ghost use Rattle.host_system.specs.Kernel.{failed_any};
ghost use Rattle.ras_host.specs.Steps.OverCounts.{counted_up_to};

use board_core::Failed;
use host_system::{FailedCalls, Input, KernelInput, Refusal};

/// The input over the kernel's call. It is modelled if the call is. Its faults are the reads that
/// failed, and the reads that signals interrupted 2^64 - 1 times.
#[derive(Drop)]
pub struct OverInput<I: KernelInput + Drop> {
    input: I,
    given_up: FailedCalls,
}

impl<I: KernelInput + Drop> OverInput<I> {
    /// Returns an input over the kernel's call, with no faults.
    pub fn over(input: I) -> OverInput<I>
        ensures input { result.input ≡ input }
        ensures quiet { result.given_up ≡ 0 }
    {
        OverInput {
            input,
            given_up: FailedCalls::none(),
        }
    }
}

impl<I: KernelInput + Drop> Input for OverInput<I> {
    ghost left = { λ s. I.left s.input };

    ghost faults = { λ s. counted_up_to (I.fails s.input + s.given_up) };

    fn read(&mut self, buf: &mut [u8]) -> Result<usize, Failed> {
        read_next(&mut self.input, &mut self.given_up, buf).or(Err(Failed))
    }
}

// Reads again if a signal interrupted the read.
fn read_next<I: KernelInput>(
    input: &mut I,
    given_up: &mut FailedCalls,
    buf: &mut [u8],
) -> Result<usize, Refusal>
    requires { 0 < length buf.old }
    ensures within { IfOk result (λ n. n ≤ length buf.old) }
    ensures taken { IfOk result (λ n. Takes n buf.new (I.left input.old) (I.left input.new)) }
    ensures failed { OnErr result (I.left input.new ≡ I.left input.old) }
    ensures cause { I.fails input.new + given_up.new
        ≡ I.fails input.old + given_up.old + failed_any result }
{
    for _ in 0..u64::MAX {
        match input.read(buf) {
            Err(Refusal::Interrupted) => {}
            answer => return answer,
        }
    }
    given_up.count_one();
    Err(Refusal::Interrupted)
}
