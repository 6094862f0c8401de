// The key, from a word, a file or a variable.
use anyhow::{Result, bail};
use hex::FromHex;
use std::{env, fs};

/// Where the key is.
#[derive(Clone, Copy, Drop)]
pub(crate) enum Source<'a> {
    /// A word of the command line.
    Word(&'a str),
    /// The file of that name.
    File(&'a str),
    /// The variable of that name.
    Variable(&'a str),
}

/// The key. An error names the file or the variable.
pub(crate) fn read_key(rt: &HostRuntime, source: Source) -> Result<[u8; 16]> {
    match source {
        Source::Word(digits) => match key_of(digits.as_bytes()) {
            Some(key) => Ok(key),
            None => bail!("the key on the command line is not 32 hexadecimal digits"),
        },
        Source::File(file) => key_of_file(rt, file),
        Source::Variable(name) => {
            let Ok(value) = env::var(rt, name) else {
                bail!("the variable {name} of the key is not set, or is no text")
            };
            match key_of(value.as_bytes()) {
                Some(key) => Ok(key),
                None => bail!("the variable {name} of the key does not have 32 hexadecimal digits"),
            }
        }
    }
}

// The key in a file, behind which spaces and line feeds may stand.
fn key_of_file(rt: &HostRuntime, file: &str) -> Result<[u8; 16]> {
    let Ok(content) = fs::read_to_string(rt, file) else {
        bail!("the file {file} of the key cannot be read, or is no text")
    };
    match key_of_text(content.as_str()) {
        Some(key) => Ok(key),
        None => bail!("the file {file} of the key does not have 32 hexadecimal digits"),
    }
}

// The key that has these digits, behind which spaces and line feeds may stand.
fn key_of_text(text: &str) -> Option<[u8; 16]> {
    key_of(text.trim_end().as_bytes())
}

// The key that has these digits.
fn key_of(digits: &[u8]) -> Option<[u8; 16]> {
    <[u8; 16] as FromHex>::from_hex(digits).ok()
}
