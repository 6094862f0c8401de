//! Splits a file into shards of data and of parity, and joins it from any as many as there are shards of data.
#![tactic(auto)]

mod arguments;
mod commands;
mod faults;
mod finding;
mod lock;
mod output_files;
mod progress;
mod repair;
mod rivals;
mod stamp;

use crate::arguments::{Task, Words, plain_word};
use crate::commands::{join_file, split_file};
use crate::repair::{repair_file, tell_file, verify_file};
use anyhow::{Context, Result, anyhow};
use clap::error::ErrorKind;
use std::alloc::AllocError;
use std::env;
use std::fs::File;
use std::io::IsTerminal;
use std::process::ExitCode;

fn main(rt: HostRuntime) -> ExitCode {
    // A file that is opened while a standard stream is closed would take its number, and be written what is printed.
    let _streams = (
        File::open(&rt, "/dev/null"),
        File::open(&rt, "/dev/null"),
        File::open(&rt, "/dev/null"),
    );
    run(&rt).unwrap_or_else(|error| failed(&rt, &error, 1))
}

// Tells of an error.
fn failed(rt: &HostRuntime, error: &anyhow::Error, status: u8) -> ExitCode {
    let _ = eprintln!(rt; "shards: {error:#}");
    ExitCode::from(status)
}

// The words of the command line, as `clap` is given them.
fn words_of(rt: &HostRuntime) -> Result<Vec<String>> {
    let mut words = Vec::new(rt.alloc());
    for word in env::args(rt).context("cannot read the command line")? {
        words.push(plain_word(rt.alloc(), word)?)?;
    }
    Ok(words)
}

// Does what the words of the command line say. Where they cannot be read the status is 2, as where they are wrong: 1 says of `verify` that
// enough shards are left.
fn run(rt: &HostRuntime) -> Result<ExitCode> {
    let words = match words_of(rt) {
        Ok(words) => words,
        Err(error) => return Ok(failed(rt, &error, 2)),
    };
    let mut said = match Words::of(rt.alloc(), words.as_slice()) {
        Ok(said) => said,
        Err(error) => return tell(rt, &error),
    };
    // Progress is told on a terminal alone.
    said.is_quiet = said.is_quiet || !rt.stderr().is_terminal();
    let file = said.file;
    match said.task {
        Task::Split => split_file(rt, &said, file)?,
        Task::Join => join_file(rt, &said, file)?,
        Task::Verify => {
            return Ok(verify_file(rt, &said, file).unwrap_or_else(|error| failed(rt, &error, 2)));
        }
        Task::Repair => repair_file(rt, &said, file)?,
        Task::Info => tell_file(rt, &said, file)?,
    }
    Ok(ExitCode::SUCCESS)
}

// Prints the help or the version that the words ask for, or what is wrong with them.
fn tell(rt: &HostRuntime, error: &clap::Error) -> Result<ExitCode> {
    if error.kind() == ErrorKind::OutOfMemory {
        return Ok(failed(rt, &anyhow!(AllocError), 2));
    }
    if error.use_stderr() {
        let _ = error.print(rt);
        return Ok(ExitCode::from(2));
    }
    error.print(rt)?;
    Ok(ExitCode::SUCCESS)
}
