// Sets of shards that name one file, as it is split twice, or as a head is made anew that says that one shard is enough: which to take.
use crate::finding::OldFiles;
use crate::progress::{Progress, clear};
use anyhow::{Result, bail};
use shard_files::{JoinError, Layout, Scan, write_content};
use std::io;

/// Of the sets that name the same file as the chosen one, each of which has enough shards by their heads, the first from which that file can
/// be restored, and the chosen one where it can from none. Only where there are several the shards are read for that.
pub(crate) fn whole_set(
    rt: &HostRuntime,
    file: &str,
    paths: &[String],
    scan: &Scan,
    chosen: usize,
    is_quiet: bool,
) -> Result<usize> {
    let layouts = layouts_of(rt, scan, chosen)?;
    if layouts.len() < 2 {
        return Ok(chosen);
    }
    for (place, layout) in layouts.as_slice() {
        let progress = Progress::new(is_quiet, layout.file_length());
        let source = OldFiles::new(rt, file, paths, progress);
        let is_whole = restores(rt, source, *layout)?;
        clear(rt, is_quiet);
        if is_whole {
            return Ok(*place);
        }
    }
    Ok(chosen)
}

// The places and the layouts of these sets.
fn layouts_of(rt: &HostRuntime, scan: &Scan, chosen: usize) -> Result<Vec<(usize, Layout)>> {
    let mut layouts = Vec::new(rt.alloc());
    if let Some(own) = scan.seen.as_slice().get(chosen) {
        for place in 0..scan.seen.len() {
            let seen = &scan.seen[place];
            if seen.has_enough() && seen.layout.origin.identity == own.layout.origin.identity {
                layouts.push((place, seen.layout))?;
            }
        }
    }
    Ok(layouts)
}

// Whether the file can be restored from shards of this layout.
fn restores(rt: &HostRuntime, source: OldFiles<'_>, layout: Layout) -> Result<bool> {
    let mut source = source;
    match write_content(rt.alloc(), &mut source, layout, &mut io::sink()) {
        Ok(()) => Ok(true),
        Err(JoinError::Memory) => bail!("out of memory"),
        Err(_) => {
            source.require_memory()?;
            Ok(false)
        }
    }
}
