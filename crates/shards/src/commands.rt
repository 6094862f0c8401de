// Splitting and joining.
use crate::arguments::Words;
use crate::faults::{require_enough, too_few};
use crate::finding::{Found, length_of, mode_of, require_regular, require_shards};
use crate::lock::Lock;
use crate::output_files::{NewFiles, NewShards};
use crate::progress::{Progress, clear};
use anyhow::{Context, Result, bail};
use sha2::{Digest, Sha256};
use shard_files::{JoinError, Layout, Origin, default_code, limit_of, write_content, write_shards};
use std::fs::File;
use std::io;
use std::io::{Read, Write};
use std::path::Path;

/// How many bytes are read at once to compute an identity.
const CHUNK: usize = 1 << 20;

/// Writes the shards of a file: FILE.0, FILE.1, .., beside it or in a folder. The file is read twice: its identity, which each head and
/// each piece is bound to, has to be known before the first is written.
pub(crate) fn split_file(rt: &HostRuntime, words: &Words<'_>, file: &str) -> Result<()> {
    require_regular(rt, file)?;
    let base = base_of(rt, file, words.folder)?;
    let lock = Lock::of(rt, base.as_str())?;
    let work = split_locked(rt, words, file, base);
    lock.release();
    work
}

// `split_file`, with the lock held.
fn split_locked(rt: &HostRuntime, words: &Words<'_>, file: &str, base: String) -> Result<()> {
    let (data, parity) = (words.data_shards, words.parity_shards);
    let files = NewFiles::new(rt, mode_of(rt, file)?, words.is_forced);
    // Where the first shard stands in the way, that is told before a long file is read.
    files.require_free(format!(in rt.alloc(); "{base}.0")?.as_str())?;
    let (length, identity) = identify(rt, file, words.is_quiet)?;
    let code = words
        .code
        .unwrap_or(default_code(data as usize, parity as usize));
    let origin = Origin::of_file(code, data, parity, length, identity);
    let layout = match Layout::of(origin) {
        Some(layout) => layout,
        None => bail!("cannot split {file}: {}", limit_of(code)),
    };
    let (total, size) = (layout.total(), layout.file_length());
    let progress = Progress::new(words.is_quiet, size.saturating_mul(total as u64));
    let mut new = NewShards::new(rt, files, base, vec![in rt.alloc(); None; total]?, progress)?;
    for index in 0..total {
        new.require_free(index)?;
    }
    let work = split_to(rt, file, layout, &mut new);
    clear(rt, words.is_quiet);
    new.end(work)?;
    let _ = println!(rt;
        "{total} shards of {size} bytes, of which any {data} restore {length} bytes"
    );
    Ok(())
}

// Writes the shards of a file beside their places.
fn split_to(rt: &HostRuntime, file: &str, layout: Layout, new: &mut NewShards<'_>) -> Result<()> {
    let mut reader = File::open(rt, file).context(format_args!("cannot read {file}"))?;
    let written = write_shards(rt.alloc(), layout, &mut reader, new);
    if let Err(error) = written {
        match new.fault() {
            Some(fault) => return Err(fault),
            None => bail!("cannot split {file}: {error}"),
        }
    }
    new.finish()
}

// How many bytes a file has, and their SHA-256.
fn identify(rt: &HostRuntime, file: &str, is_quiet: bool) -> Result<(u64, [u8; 32])> {
    let mut progress = Progress::new(is_quiet, length_of(rt, file)?);
    let mut reader = File::open(rt, file).context(format_args!("cannot read {file}"))?;
    let mut chunk = vec![in rt.alloc(); 0u8; CHUNK]?;
    let mut hasher = Sha256::new();
    let mut length = 0u64;
    for _ in 0..u64::MAX {
        let count = reader
            .read(chunk.as_mut_slice())
            .context(format_args!("cannot read {file}"))?;
        if count == 0 {
            break;
        }
        hasher.update(&chunk.as_slice()[..count]);
        progress.add(rt, file, "read", count);
        length = length.saturating_add(count as u64);
    }
    Ok((length, hasher.finalize()))
}

/// Writes a file from its shards, as far as they are whole: to its place, or to standard output.
pub(crate) fn join_file(rt: &HostRuntime, words: &Words<'_>, file: &str) -> Result<()> {
    if file == "-" {
        let found = require_shards(rt, words, file)?;
        return join_to(rt, &found, &mut io::writer(rt));
    }
    require_free(rt, words, file)?;
    let lock = Lock::of(rt, file)?;
    let work = join_locked(rt, words, file);
    lock.release();
    work
}

// `join_file` to a file, with the lock held.
fn join_locked(rt: &HostRuntime, words: &Words<'_>, file: &str) -> Result<()> {
    let found = require_shards(rt, words, file)?;
    let mut new = NewFiles::new(rt, found.mode(rt)?, words.is_forced);
    let work = write_joined(rt, &mut new, &found, file);
    new.end(work)?;
    let (layout, count) = (found.seen.layout, found.seen.count);
    let (total, length, size) = (layout.total(), layout.origin.length, layout.origin.size);
    let _ = println!(rt;
        "{length} bytes from {count} of {total} shards, {size} bytes of each in a stripe"
    );
    Ok(())
}

// Fails where a file is at that place, and is not to be overwritten.
fn require_free(rt: &HostRuntime, words: &Words<'_>, file: &str) -> Result<()> {
    NewFiles::new(rt, 0o600, words.is_forced).require_free(file)
}

// Writes a file beside its place.
fn write_joined(
    rt: &HostRuntime,
    new: &mut NewFiles<'_>,
    found: &Found<'_>,
    file: &str,
) -> Result<()> {
    require_enough(found)?;
    let mut out = new.begin(format!(in rt.alloc(); "{file}")?, None)?;
    join_to(rt, found, &mut out)?;
    Progress::new(found.is_quiet, 1).start(rt, file, "synced");
    let finished = new.finish(&out, file);
    clear(rt, found.is_quiet);
    finished
}

// Writes the bytes of a file.
fn join_to<W: Write>(rt: &HostRuntime, found: &Found<'_>, writer: &mut W) -> Result<()> {
    require_enough(found)?;
    let (file, layout) = (found.file, found.seen.layout);
    let mut source = found.source(rt, found.is_quiet);
    let written = write_content(rt.alloc(), &mut source, layout, writer);
    clear(rt, found.is_quiet);
    match written {
        Ok(()) => Ok(()),
        Err(JoinError::TooFew) => {
            source.require_memory()?;
            too_few(found)
        }
        Err(error) => bail!("cannot restore {file}: {error}"),
    }
}

// The names of the shards of a file without their numbers: beside it, or in a folder.
fn base_of(rt: &HostRuntime, file: &str, folder: Option<&str>) -> Result<String> {
    let name = Path::new(file).file_name().unwrap_or(file);
    Ok(match folder {
        Some(folder) => format!(in rt.alloc(); "{folder}/{name}")?,
        None => format!(in rt.alloc(); "{file}")?,
    })
}
