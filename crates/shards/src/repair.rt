// Looking at shards, and writing those again that are missing or damaged.
use crate::arguments::Words;
use crate::faults::{Faults, require_enough, too_few};
use crate::finding::{
    Found, find_shards, name_of, paths_of, require_shards, scan_of, seen_at, tell,
};
use crate::lock::Lock;
use crate::output_files::{NewFiles, NewShards};
use crate::progress::{Progress, clear};
use crate::stamp::Stamp;
use anyhow::{Result, bail};
use sha2::{Digest, Sha256};
use shard_files::{Finding, MATRIX, Scan, Seen, gather, repair_shards};
use std::fs;
use std::process::ExitCode;

/// Says of each shard whether it is whole, and in which stripes it is not. The status is 1 where shards are missing or damaged and enough
/// are left, 2 where too few are, or where they are not those of the file, and 3 where the files are no one set of shards.
pub(crate) fn verify_file(rt: &HostRuntime, words: &Words<'_>, file: &str) -> Result<ExitCode> {
    match find_shards(rt, words, file)? {
        Ok(found) => verify_found(rt, &found),
        Err(why) => {
            let _ = eprintln!(rt; "shards: {why}");
            Ok(ExitCode::from(3))
        }
    }
}

// `verify_file`, once its shards are found.
fn verify_found(rt: &HostRuntime, found: &Found<'_>) -> Result<ExitCode> {
    let faults = faults_of(rt, found)?;
    let (file, layout) = (found.file, found.seen.layout);
    let (total, enough) = (layout.total(), layout.origin.data_shards);
    tell_runs(rt, &faults, total, layout.stripe_count())?;
    if faults.count() == 0 && !faults.is_false {
        println!(rt; "all {total} shards are whole")?;
        return Ok(ExitCode::SUCCESS);
    }
    if let Some(stripe) = faults.too_few {
        let _ = eprintln!(rt;
            "shards: {file}: too few shards are whole in stripe {stripe}, and {enough} are enough"
        );
        return Ok(ExitCode::from(2));
    }
    if faults.is_false {
        let _ = eprintln!(rt;
            "shards: {file}: the parity is not that of the data, or the data are not those of the file"
        );
        return Ok(ExitCode::from(2));
    }
    let _ = eprintln!(rt; "shards: {file}: shards are missing or damaged, and enough are left");
    Ok(ExitCode::FAILURE)
}

// What is wrong with the shards of a file.
fn faults_of(rt: &HostRuntime, found: &Found<'_>) -> Result<Faults> {
    let layout = found.seen.layout;
    let mut faults = Faults::new(rt.alloc(), layout)?;
    faults.add_long(found.lengths(rt)?.as_slice());
    if layout.stripe_count() == 0 {
        faults.add_heads(found)?;
        return Ok(faults);
    }
    let mut source = found.source(rt, found.is_quiet);
    let mut hasher = Sha256::new();
    for stripe in 0..layout.stripe_count() {
        let mut group = gather(rt.alloc(), &mut source, layout, stripe)?;
        source.require_memory()?;
        faults.add(stripe, &group)?;
        if group.count() == layout.total() && !group.has_parity(rt.alloc())? {
            faults.add_false();
        }
        if faults.too_few.is_none() {
            group.restore(rt.alloc())?;
            hasher.update(group.content(layout.stripe_length(stripe)));
        }
    }
    clear(rt, found.is_quiet);
    if faults.too_few.is_none() && !layout.origin.names(hasher) {
        faults.add_false();
    }
    Ok(faults)
}

// Tells of each shard in which stripes it is damaged, or that it is in none whole, and whether it has bytes behind its end.
fn tell_runs(rt: &HostRuntime, faults: &Faults, total: usize, stripes: u64) -> Result<()> {
    for index in 0..total {
        if !faults.is_lost(index) {
            continue;
        }
        for run in faults.runs.as_slice() {
            let (first, last) = (run.first, run.last);
            if run.index != index {
                continue;
            }
            if first == 0 && last.saturating_add(1) >= stripes {
                println!(rt; "shard {index} is missing or damaged")?;
            } else if first == last {
                println!(rt; "shard {index} is damaged in stripe {first}")?;
            } else {
                println!(rt; "shard {index} is damaged in stripes {first} to {last}")?;
            }
        }
        if faults.is_long(index) {
            println!(rt; "shard {index} has bytes behind its end")?;
        }
    }
    Ok(())
}

/// Writes the shards again that are missing or damaged: to FILE.0, FILE.1, .., as they were split.
pub(crate) fn repair_file(rt: &HostRuntime, words: &Words<'_>, file: &str) -> Result<()> {
    let lock = Lock::of(rt, file)?;
    let work = repair_locked(rt, words, file);
    lock.release();
    work
}

// `repair_file`, with the lock held.
fn repair_locked(rt: &HostRuntime, words: &Words<'_>, file: &str) -> Result<()> {
    let found = require_shards(rt, words, file)?;
    require_enough(&found)?;
    let faults = faults_of(rt, &found)?;
    if faults.too_few.is_some() {
        return too_few(&found);
    }
    if faults.is_false {
        bail!("{file}: the parity is not that of the data, or the data are not those of the file")
    }
    write_lost(rt, words, &found, &faults)
}

// Writes shards of a file.
fn write_lost(
    rt: &HostRuntime,
    words: &Words<'_>,
    found: &Found<'_>,
    faults: &Faults,
) -> Result<()> {
    let (file, count, layout) = (found.file, faults.count(), faults.layout);
    let old = old_of(rt, words, found, faults)?;
    let files = NewFiles::new(rt, found.mode(rt)?, words.is_forced);
    let base = format!(in rt.alloc(); "{file}")?;
    let size = layout.file_length().saturating_mul(count as u64);
    let progress = Progress::new(found.is_quiet, size);
    let mut new = NewShards::new(rt, files, base, old, progress)?;
    let work = repair_to(rt, found, faults, &mut new);
    clear(rt, found.is_quiet);
    new.end(work)?;
    let total = layout.total();
    let _ = println!(rt; "{count} of {total} shards are written again");
    Ok(())
}

// Writes shards of a file beside their places. What is written tells how far it is.
fn repair_to(
    rt: &HostRuntime,
    found: &Found<'_>,
    faults: &Faults,
    new: &mut NewShards<'_>,
) -> Result<()> {
    let mut source = found.source(rt, true);
    let repaired = repair_shards(rt.alloc(), &mut source, faults.layout, faults.lost(), new);
    if let Err(error) = repaired {
        match new.fault() {
            Some(fault) => return Err(fault),
            None => bail!("cannot repair the shards of {}: {error}", found.file),
        }
    }
    new.finish()
}

// What each shard that is written again is to replace, if anything. Whatever there is is replaced where that is asked for.
fn old_of(
    rt: &HostRuntime,
    words: &Words<'_>,
    found: &Found<'_>,
    faults: &Faults,
) -> Result<Vec<Option<Stamp>>> {
    let mut old = Vec::new(rt.alloc());
    for index in 0..faults.layout.total() {
        let replaced = if faults.is_lost(index) && !words.is_forced {
            damaged_at(rt, found, index)?
        } else {
            None
        };
        old.push(replaced)?;
    }
    Ok(old)
}

// What stood at the place of a shard that is written again when it was looked at, if anything. It fails where there is what may not be
// overwritten: a whole shard of another number or of another file, or a file that was not looked at.
fn damaged_at(rt: &HostRuntime, found: &Found<'_>, index: usize) -> Result<Option<Stamp>> {
    let target = format!(in rt.alloc(); "{}.{index}", found.file)?;
    if fs::symlink_metadata(rt, target.as_str()).is_err() {
        return Ok(None);
    }
    for place in 0..found.paths.len() {
        if found.paths[place].as_str() == target.as_str() {
            match found.scan.findings.as_slice().get(place) {
                Some(Finding::Damaged) => return Ok(found.stamp(place)),
                Some(Finding::Unread) => {
                    bail!("{target} cannot be read, which is no damage; --force overwrites it")
                }
                Some(Finding::Shard(of, number)) if *of == found.chosen && *number == index => {
                    return Ok(found.stamp(place));
                }
                _ => {}
            }
        }
    }
    bail!(
        "{target} is there already, and is not a damaged shard of this number; --force overwrites it"
    )
}

/// Says what shards say of themselves: the files that they are of, and the number of each. The first name may be that of a shard too.
pub(crate) fn tell_file(rt: &HostRuntime, words: &Words<'_>, file: &str) -> Result<()> {
    let mut paths = paths_of(rt, words, file)?;
    if seen_at(rt, file)?.is_some() {
        paths.push(format!(in rt.alloc(); "{file}")?)?;
    }
    let scan = scan_of(rt, paths.as_slice())?;
    tell_no_shards(rt, paths.as_slice(), &scan)?;
    let mut is_told = false;
    for number in 0..scan.seen.len() {
        let seen = scan.seen[number];
        let name = name_of(rt, &seen)?;
        let is_wanted = match words.identity {
            Some(begin) => name.as_str().starts_with(begin),
            None => true,
        };
        if is_wanted {
            is_told = true;
            tell_seen(rt, name.as_str(), &seen)?;
            tell_places(rt, paths.as_slice(), scan.findings.as_slice(), number)?;
        }
    }
    if !is_told {
        bail!("{file}: no shards")
    }
    Ok(())
}

// Tells why files are no shards.
fn tell_no_shards(rt: &HostRuntime, paths: &[String], scan: &Scan) -> Result<()> {
    for place in 0..paths.len() {
        match scan.findings.as_slice().get(place) {
            Some(Finding::Shard(_, _)) | None => {}
            Some(finding) => tell(rt, paths[place].as_str(), *finding, scan)?,
        }
    }
    Ok(())
}

// Tells what the heads of the shards of a file say.
fn tell_seen(rt: &HostRuntime, name: &str, seen: &Seen) -> Result<()> {
    let origin = seen.layout.origin;
    let (data, parity) = (origin.data_shards, origin.parity_shards);
    let code = if origin.code == MATRIX {
        "matrix"
    } else {
        "transform"
    };
    println!(rt; "file {name}")?;
    println!(rt;
        "  {} bytes, format 3, code {} ({code}): {data} shards of data and {parity} of parity",
        origin.length, origin.code
    )?;
    println!(rt;
        "  {} stripes, {} bytes of each shard in a stripe",
        seen.layout.stripe_count(),
        origin.size
    )?;
    println!(rt; "  heads of {} shards were seen", seen.count)?;
    Ok(())
}

// Tells the numbers of the shards of a file that were seen.
fn tell_places(
    rt: &HostRuntime,
    paths: &[String],
    findings: &[Finding],
    number: usize,
) -> Result<()> {
    for place in 0..paths.len() {
        if let Some(Finding::Shard(of, index)) = findings.get(place) {
            if *of == number {
                println!(rt; "  {}: shard {index}", paths[place].as_str())?;
            }
        }
    }
    Ok(())
}
