//! The line that a refused run ends with.

ghost use Rattle.std.specs.Prelude.{◌≡◌, ◌++◌, IfOk, OnOk};
ghost use Rattle.ras_exit.specs.Reasons.{reason_text};
ghost use Rattle.ras_exit.specs.StopLine.{stop_line};

use crate::{Exit, Reason};
use ras_base::{NoMemory, push_number};
use std::alloc::Global;

/// Returns the `stop` line that a refused run ends with. It is empty for an exit that isn't a
/// refusal.
///
/// # Errors
///
/// `NoMemory`: only if memory runs out.
pub fn stop_line(alloc: Global, exit: Exit) -> Result<Vec<u8>, NoMemory>
    ensures { IfOk result (λ text. text.items ≡ stop_line exit) }
{
    let mut text = Vec::new(alloc);
    match exit {
        Exit::Usage => text.extend_from_slice(usage_line())?,
        Exit::BadLine { line, reason } => {
            text.extend_from_slice(b"stop 2 line=")?;
            push_number(&mut text, line)?;
            text.extend_from_slice(b" reason=")?;
            push_reason(&mut text, reason)?;
            text.extend_from_slice(b"\n")?;
        }
        Exit::Damaged { file, place } => {
            text.extend_from_slice(b"stop 7 file=")?;
            push_number(&mut text, u64::from(file))?;
            text.extend_from_slice(b" place=")?;
            push_number(&mut text, place)?;
            text.extend_from_slice(b"\n")?;
        }
        Exit::Full => text.extend_from_slice(b"stop 8 full\n")?,
        Exit::ErstRefused { line } => {
            text.extend_from_slice(b"stop 9 line=")?;
            push_number(&mut text, line)?;
            text.extend_from_slice(b"\n")?;
        }
        Exit::ErstBusy => text.extend_from_slice(busy_line())?,
        Exit::ErstStatus(code) => {
            text.extend_from_slice(b"stop 11 code=")?;
            push_number(&mut text, code)?;
            text.extend_from_slice(b"\n")?;
        }
        Exit::TooLong => text.extend_from_slice(b"stop 13 too-long\n")?,
        Exit::Done
        | Exit::SourceFault
        | Exit::DiskFault
        | Exit::RegisterFault
        | Exit::PrintFault
        | Exit::NoMemory => {}
    }
    Ok(text)
}

/// Returns the line that a call ends with if its arguments aren't a command. Allocates nothing.
pub fn usage_line() -> &'static [u8]
    ensures { result.now ≡ stop_line Exit.Usage }
{
    b"stop 1 usage\n"
}

/// Returns the line that a run ends with if its device was busy for too long. Allocates nothing.
pub fn busy_line() -> &'static [u8]
    ensures { result.now ≡ stop_line Exit.ErstBusy }
{
    b"stop 10 busy\n"
}

// Appends the reason why a line is rejected.
fn push_reason(text: &mut Vec<u8>, reason: Reason) -> Result<(), NoMemory>
    ensures { OnOk result (text.new.items ≡ text.old.items ++ reason_text reason) }
{
    text.extend_from_slice(reason.word())?;
    if let Some(number) = reason.number() {
        text.extend_from_slice(b".")?;
        push_number(text, u64::from(number))?;
    }
    Ok(())
}
