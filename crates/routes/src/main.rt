//! Reads edge lines from standard input and answers a command about them.
#![tactic(auto)]

mod keyed;

use crate::keyed::Keys;
use pf_routes::routes::{Command, Noted, RouteError, command, run_with_hasher};
use std::io::{ErrorKind, Write};
use std::process::ExitCode;
use std::{env, io};

const USAGE: &str = "usage: routes COMMAND ..";

/// The command that the words after the program's name spell, or `None` for a usage error, as where
/// one of them is not UTF-8.
fn asked(rt: &HostRuntime) -> Result<Option<Command>, RouteError> {
    match env::args(rt) {
        Ok(args) => {
            let mut words = Vec::new(rt.alloc());
            for word in args.skip(1) {
                words.push(word)?;
            }
            Ok(command(words))
        }
        Err(fault) if fault.kind() == ErrorKind::OutOfMemory => Err(RouteError::OutOfMemory),
        Err(_) => Ok(None),
    }
}

/// Answers the command over the standard streams.
fn answer(rt: &HostRuntime, command: &Command) -> Result<(), RouteError> {
    // The text may come from a stranger, who is not to foresee which names collide.
    let keys = Keys::new(rt).map_err(|_| RouteError::ReadFailed)?;
    let mut input = Noted::new(rt.reader());
    let mut output = Noted::new(io::writer(rt));
    run_with_hasher(rt.alloc(), command, &mut input, &mut output, keys)?;
    output.flush().map_err(|_| RouteError::WriteFailed)
}

fn main(rt: HostRuntime) -> ExitCode {
    let outcome = match asked(&rt) {
        Ok(Some(command)) => answer(&rt, &command),
        Ok(None) => {
            // The status tells it where standard error cannot.
            let _ = rt.eprintln(USAGE);
            return ExitCode::from(2);
        }
        Err(fault) => Err(fault),
    };
    match outcome {
        Ok(()) => ExitCode::SUCCESS,
        Err(fault) => {
            let _ = rt.eprintln(fault);
            ExitCode::FAILURE
        }
    }
}
