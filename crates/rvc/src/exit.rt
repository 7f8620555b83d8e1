//! The exit status of the program.

ghost use Rattle.std.specs.Prelude.{◌≡◌};
ghost use Rattle.std.specs.Process.{exit_status};
ghost use Rattle.rvc.specs.ExitStatus.{status_number};

use rvc_top::Status;
use std::process::ExitCode;

/// The exit code of a run that ended so: the number that the status has.
pub fn exit_code(status: Status) -> ExitCode
    ensures { exit_status result ≡ status_number status }
{
    ExitCode::from(status as u8)
}
