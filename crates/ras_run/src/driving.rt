//! How a run ends at an operation of the record store's driver.

ghost use Rattle.std.specs.Prelude.{◌≡◌};
ghost use Rattle.ras_run.specs.Status.{driver_exit};

use erst_driver::DriverRefused;
use ras_exit::Exit;

/// Returns the exit for an operation that the driver refuses.
pub(crate) fn driver_exit(refused: DriverRefused) -> Exit
    ensures { result ≡ driver_exit refused }
{
    match refused {
        DriverRefused::Register => Exit::RegisterFault,
        DriverRefused::Busy => Exit::ErstBusy,
        DriverRefused::Status(code) => Exit::ErstStatus(code),
        DriverRefused::NoMemory => Exit::NoMemory,
    }
}
