//! Reads one line of hexadecimal, decodes it as a SEQUENCE by CANONICAL-PER UNALIGNED, and prints the
//! components that have a value and the octets encoded again.
#![tactic(auto)]

mod notation;
mod runner;
mod sample;

use runner::first;
use std::io;
use std::process::ExitCode;

/// Status 0 where the line was decoded, 1 where it was refused, 3 where reading, writing or memory
/// failed, which is told in one line on standard error.
fn main(rt: HostRuntime) -> ExitCode {
    match first(rt.alloc(), &mut rt.reader(), &mut io::writer(&rt)) {
        Ok(true) => ExitCode::from(0),
        Ok(false) => ExitCode::from(1),
        Err(fault) => {
            let _ = rt.eprintln(fault);
            ExitCode::from(3)
        }
    }
}
