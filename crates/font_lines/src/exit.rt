//! The exit status and the message.

ghost use Rattle.std.specs.{Prelude.◌≡◌, Process.exit_status};
ghost use Rattle.font_lines.specs.Serve.{message_of, status_of};

use crate::serve::ServeFault;
use std::process::ExitCode;

/// Returns the exit status, and the text for standard error.
pub fn exit(served: Result<(), ServeFault>) -> (ExitCode, &'static str)
    ensures status { exit_status result.0 ≡ status_of served }
    ensures message { result.1.now ≡ message_of served }
{
    match served {
        Ok(()) => (ExitCode::SUCCESS, ""),
        Err(ServeFault::Memory) => (ExitCode::FAILURE, "fontval: memory\n"),
        Err(ServeFault::Read) => (ExitCode::FAILURE, "fontval: read\n"),
        Err(ServeFault::Write) => (ExitCode::FAILURE, "fontval: write\n"),
    }
}
