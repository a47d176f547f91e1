//! The status that the process ends with.
ghost use Rattle.std.specs.Prelude.{◌≡◌};
ghost use Rattle.std.specs.Process.{exit_status};
ghost use Rattle.ras_exit.specs.ExitStatus.{exit_number};

use ras_daemon::Exit;
use std::process::ExitCode;

/// Returns the process's status for this exit: the exit's number.
pub(crate) fn process_status(exit: &Exit) -> ExitCode
    ensures { exit_status result ≡ exit_number exit.now }
{
    ExitCode::from(exit.status())
}
