//! Prints a universal hash of standard input: `tag ghash KEY` or `tag polyval KEY`.
//!
//! The key is 32 hexadecimal digits: a word of the command line, the content of a file or of a variable. Standard input is hashed as
//! blocks of 16 bytes, the last one filled up with zeros, and the hash is printed as 32 hexadecimal digits. The exit status is 0, 1 after
//! an error, which standard error then names, or 2 where the words are wrong.
#![tactic(auto)]

mod input;
mod key;
mod stream;

use crate::input::Input;
use crate::key::{Source, read_key};
use crate::stream::hash;
use anyhow::{Context, Result};
use std::env;
use std::process::ExitCode;

const USAGE: &str = "usage: tag ghash|polyval KEY < MESSAGE
       tag ghash|polyval --key-file FILE < MESSAGE
       tag ghash|polyval --key-variable NAME < MESSAGE
       tag --help | --version

Prints GHASH (NIST SP 800-38D) or POLYVAL (RFC 8452) of standard input, zeros added to whole blocks of 16 bytes, as 32 hexadecimal
digits. The key is 32 hexadecimal digits: KEY, which other users of the machine can see, the content of FILE, but for spaces and line
feeds behind it, or the value of the variable NAME. A hash is no tag: GCM and GCM-SIV encrypt it.
The exit status is 0, 1 after an error, which standard error names, or 2 where the words are wrong.

Example: echo 66e94bd4ef8a2c3b884cfa59ca342b2e > key; tag ghash --key-file key < message";

/// Which hash to print.
#[derive(Clone, Copy, Drop)]
pub enum Choice {
    /// GHASH of NIST SP 800-38D.
    Ghash,
    /// POLYVAL of RFC 8452.
    Polyval,
}

fn main(rt: HostRuntime) -> ExitCode {
    run(&rt).unwrap_or_else(|error| {
        let _ = eprintln!(rt; "tag: {error:#}");
        ExitCode::FAILURE
    })
}

// Does what the words of the command line say.
fn run(rt: &HostRuntime) -> Result<ExitCode> {
    let mut args = env::args(rt).context("reading the command line")?;
    let _program = args.next();
    let (first, second, third, more) = (args.next(), args.next(), args.next(), args.next());
    if more.is_some() {
        return misused(rt, "too many words");
    }
    let Some(name) = first else {
        return misused(rt, "no hash is named");
    };
    if second.is_none() && name.as_str() == "--help" {
        println!(rt; "{USAGE}").context("writing the help")?;
        return Ok(ExitCode::SUCCESS);
    }
    if second.is_none() && name.as_str() == "--version" {
        println!(rt; "tag 0.1.0").context("writing the version")?;
        return Ok(ExitCode::SUCCESS);
    }
    let Some(choice) = choice_named(name.as_str()) else {
        return misused(rt, "the first word is ghash or polyval");
    };
    let (Some(word), behind) = (second, third) else {
        return misused(rt, "no key is given");
    };
    let Some(source) = source_of(word.as_str(), behind.as_ref().map(|it| it.as_str())) else {
        return misused(rt, "the key is KEY, --key-file FILE or --key-variable NAME");
    };
    let key = read_key(rt, source)?;
    let mut input = Input::new(rt.stdin());
    let hash = hash(choice, &key, &mut input).context("reading standard input")?;
    let text = hex::encode(rt.alloc(), hash.as_slice()).context("writing the hash")?;
    println!(rt; "{text}").context("writing the hash")?;
    Ok(ExitCode::SUCCESS)
}

// The hash of that name.
fn choice_named(name: &str) -> Option<Choice> {
    match name {
        "ghash" => Some(Choice::Ghash),
        "polyval" => Some(Choice::Polyval),
        _ => None,
    }
}

// Where one word or two say that the key is.
fn source_of<'a>(word: &'a str, behind: Option<&'a str>) -> Option<Source<'a>> {
    match (word, behind) {
        ("--key-file", Some(file)) => Some(Source::File(file)),
        ("--key-variable", Some(name)) => Some(Source::Variable(name)),
        ("--key-file", None) => None,
        ("--key-variable", None) => None,
        (digits, None) => Some(Source::Word(digits)),
        _ => None,
    }
}

// Says what is wrong with the words.
fn misused(rt: &HostRuntime, why: &str) -> Result<ExitCode> {
    let _ = eprintln!(rt; "tag: {why}; tag --help says more");
    Ok(ExitCode::from(2))
}
