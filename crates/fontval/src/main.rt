//! `fontval` reads lines of commands from standard input to its end, and writes an answer to each
//! on standard output. It takes no arguments: one is refused, with status 2. `font_lines` has the
//! commands.
#![tactic(auto)]

pub use font_lines::device::{Failed, FromRead, FromWrite, Sink, Source};
use font_lines::exit::exit;
pub use font_lines::serve::{ServeFault, serve};
use std::env::{Env, FillError};
use std::io;
use std::process::ExitCode;

#[cfg(test)]
mod tests;

const ARGUMENT: &str = "fontval: takes no arguments. It reads lines from standard input, such as \
    `int24 fe1dc0`, and prints an answer to each: see docs/FONTVAL.md in its repository\n";

// No clause can say what the standard streams read and wrote. If standard error fails, its text is
// lost, and the status stays.
fn main(rt: HostRuntime) -> ExitCode {
    if !matches!(rt.arg(1, &mut []), Err(FillError::NotPresent)) {
        let _ = eprint!(rt; "{ARGUMENT}");
        return ExitCode::from(2);
    }
    let mut source = FromRead::new(rt.stdin());
    let mut sink = FromWrite::new(io::writer(&rt));
    let (status, message) = exit(serve(rt.alloc(), &mut source, &mut sink));
    let _ = eprint!(rt; "{message}");
    status
}
