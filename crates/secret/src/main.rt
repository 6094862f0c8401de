//! Splits a secret into shares, and combines them: `secret split --shares 5 --needed 3 < key` and `secret combine < shares`.
//!
//! It is run on shares as they stand in the file stdin, whose secret it has to write.
#![tactic(auto)]

mod bytes;
mod fault;
mod lines;
mod sets;
mod sharing;
mod words;

use crate::bytes::{read_all, wipe};
use crate::sets::{Choice, Drawn};
use crate::sharing::{combine_text, split_text};
use crate::words::{Task, task_of};
use anyhow::{Context, Result, bail};
use std::env;
use std::io::{IsTerminal, Write};
use std::process::ExitCode;

const VERSION: &str = "secret 0.1.0";

const USAGE: &str = "usage: secret split --shares N --needed K [--field FIELD] < SECRET
       secret combine < SHARES
       secret --help | --version

Splits a secret into N shares, lines of text, any K of which give it back, and fewer say nothing of it (A. Shamir, How to share a
secret, 1979). N is at most 255, K at least 2. A secret has from 1 to 65,536 bytes: of more, encrypt them and share the key. FIELD is
aes, the field of AES, where none is named, or gfshare, that of libgfshare.

A share is a line: share-1-, and then two hexadecimal digits for each byte: 1b for aes or 1d for gfshare, K, the index of the share, 8
bytes that were drawn for all shares of the secret, the share, as long as the secret, and the first 8 of the SHA-256 of all these. So a
share that is mistyped is told by its line before anything is combined. Lines may come in any order, and empty lines among them. Of
M shares up to (M - K) / 2 may be wrong although their sums fit: standard error names their indexes, and the others give the secret. The
sums have no key: whoever makes a false share makes its sum too, and more false shares than that may give a false secret. Where they do
not, it is said that a share is wrong, and not which.

The secret is read from standard input, and is written to standard output as it was; words of a command line can be seen by others.
Neither is read from a terminal, which would show it. The other bytes are drawn by the system; where it gives none, nothing is split.
The buffers of the secret, of the drawn bytes and of what was read are overwritten with zeros before they are given back. Copies in
registers, on the stack, in lines and where a list has grown are not, and a compiler may leave out writes that nobody reads.

The exit status is 0, where wrong shares are named too, 1 after an error, which standard error names, or 2 where the words are wrong.

Example: secret split --shares 5 --needed 3 < key > shares; head -n 3 shares | secret combine > again";

fn main(rt: HostRuntime) -> ExitCode {
    run(&rt).unwrap_or_else(|error| {
        let _ = eprintln!(rt; "secret: {error:#}");
        ExitCode::FAILURE
    })
}

// Does what the words of the command line say.
fn run(rt: &HostRuntime) -> Result<ExitCode> {
    let mut words = Vec::new(rt.alloc());
    for word in env::args(rt).context("reading the command line")? {
        words.push(word)?;
    }
    match task_of(words.as_slice()) {
        Some(Task::Help) => println!(rt; "{USAGE}").context("writing the help")?,
        Some(Task::Version) => println!(rt; "{VERSION}").context("writing the version")?,
        Some(Task::Split(choice)) => split(rt, &choice)?,
        Some(Task::Combine) => combine(rt)?,
        None => {
            let _ = eprintln!(rt; "secret: the words are wrong; secret --help says more");
            return Ok(ExitCode::from(2));
        }
    }
    Ok(ExitCode::SUCCESS)
}

// Prints the shares of the secret that is read.
fn split(rt: &HostRuntime, choice: &Choice) -> Result<()> {
    if rt.stdin().is_terminal() {
        bail!("a terminal would show the secret: give it by a file or a pipe")
    }
    let mut secret = read_all(rt, bytes::SECRET_LIMIT).context("reading the secret")?;
    let drawn = Drawn::of(rt, choice, secret.len()).context("drawing bytes");
    let mut drawn = match drawn {
        Ok(drawn) => drawn,
        Err(error) => {
            wipe(&mut secret);
            return Err(error);
        }
    };
    let said = split_text(rt.alloc(), choice, secret.as_slice(), &drawn);
    wipe(&mut secret);
    drawn.wipe();
    let text = said?;
    rt.stdout()
        .write_all(text.as_str().as_bytes())
        .context("writing the shares")?;
    Ok(())
}

// Writes the secret of the shares that are read.
fn combine(rt: &HostRuntime) -> Result<()> {
    if rt.stdin().is_terminal() {
        bail!("a terminal would show the shares: give them by a file or a pipe")
    }
    let mut text = read_all(rt, bytes::TEXT_LIMIT).context("reading the shares")?;
    let said = combine_text(rt.alloc(), text.as_slice());
    wipe(&mut text);
    let mut combined = said?;
    for index in combined.wrong.iter() {
        let _ = eprintln!(rt; "secret: the share with the index {index} is wrong, and is left out");
    }
    let written = rt.stdout().write_all(combined.secret.as_slice());
    wipe(&mut combined.secret);
    written.context("writing the secret")?;
    Ok(())
}
