//! `pf_bench JOB SIZE REPEATS` makes the input of a job, calls the library so often on it, and prints
//! the line `JOB SIZE CHECK`. CHECK is worked out from the last result.
#![tactic(auto)]

ghost use Rattle.std.specs.Prelude.{◌<◌};

mod checks;
mod draw;
mod error;
mod inputs;
mod jobs;
mod repeats;

use crate::error::BenchError;
use crate::jobs::Job;
use crate::repeats::Repeats;
use std::io::ErrorKind;
use std::process::ExitCode;
use std::{env, io};

/// What a command line asks for.
#[derive(Drop)]
struct Request<'a> {
    job: &'a str,
    size: usize,
    repeats: Repeats,
    ghost from_one: { 0 < size },
}

/// The request that the words after the program's name spell.
fn requested(words: &[String]) -> Result<Request<'_>, BenchError> {
    let [job, size, repeats] = words else {
        return Err(BenchError::Usage);
    };
    match (
        size.as_str().parse::<usize>(),
        repeats.as_str().parse::<u64>(),
    ) {
        (Ok(size), Ok(repeats)) if size > 0 => Ok(Request {
            job: job.as_str(),
            size,
            repeats: Repeats(repeats),
        }),
        _ => Err(BenchError::Usage),
    }
}

/// The words after the program's name. A word that is not UTF-8 is a usage error.
fn words(rt: &HostRuntime) -> Result<Vec<String>, BenchError> {
    match env::args(rt) {
        Ok(args) => {
            let mut words = Vec::new(rt.alloc());
            for word in args.skip(1) {
                words.push(word)?;
            }
            Ok(words)
        }
        Err(fault) if fault.kind() == ErrorKind::OutOfMemory => Err(BenchError::OutOfMemory),
        Err(_) => Err(BenchError::Usage),
    }
}

/// Runs the job that is asked for, and prints its line. No answer is printed as -1.
fn perform(rt: &HostRuntime, words: &[String]) -> Result<(), BenchError> {
    let request = requested(words)?;
    let (name, size) = (request.job, request.size);
    let Some(job) = Job::named(name) else {
        return Err(BenchError::UnknownJob);
    };
    let printed = match job.run(rt.alloc(), size, &request.repeats)? {
        Some(check) => println!(rt; "{name} {size} {check}"),
        None => println!(rt; "{name} {size} -1"),
    };
    printed.map_err(|_| BenchError::WriteFailed)
}

/// Performs what the command line asks for.
fn answer(rt: &HostRuntime) -> Result<(), BenchError> {
    let words = words(rt)?;
    perform(rt, &words)
}

fn main(rt: HostRuntime) -> ExitCode {
    match answer(&rt) {
        Ok(()) => ExitCode::SUCCESS,
        Err(fault) => {
            // The status tells it where standard error cannot.
            let _ = rt.eprintln(&fault);
            ExitCode::from(fault.status())
        }
    }
}
