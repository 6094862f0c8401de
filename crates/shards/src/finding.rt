// The files of shards: which are looked at, which file they are of, and why others are not taken.
use crate::arguments::Words;
use crate::progress::{Progress, note};
use crate::rivals::whole_set;
use crate::stamp::Stamp;
use anyhow::{Result, bail};
use shard_files::{Choice, Finding, HEAD, MOST_SHARDS, Scan, Seen, ShardSource};
use std::fs::File;
use std::io::{ErrorKind, Read, Seek, SeekFrom};
use std::os::unix::fs::PermissionsExt;
use std::{fs, io};

/// Files that are read in turn, of which one is open at a time.
#[derive(Drop)]
pub(crate) struct OldFiles<'a> {
    rt: &'a HostRuntime,
    file: &'a str,
    paths: &'a [String],
    open: Option<File>,
    /// The place of the file that is open.
    place: usize,
    /// Whether memory was refused as a file was opened, which then reads as if it could not be read.
    is_starved: bool,
    progress: Progress,
}

impl<'a> OldFiles<'a> {
    /// The files at these paths.
    pub(crate) fn new(
        rt: &'a HostRuntime,
        file: &'a str,
        paths: &'a [String],
        progress: Progress,
    ) -> OldFiles<'a> {
        OldFiles {
            rt,
            file,
            paths,
            open: None,
            place: paths.len(),
            is_starved: false,
            progress,
        }
    }

    /// Fails where memory was refused as a file was opened: what was read then says nothing of the shards.
    pub(crate) fn require_memory(&self) -> Result<()> {
        if self.is_starved {
            bail!("out of memory")
        }
        Ok(())
    }

    // Opens one of the files, where it is not open.
    fn turn_to(&mut self, place: usize) {
        if self.place != place && place < self.paths.len() {
            self.place = place;
            match opened(self.rt, self.paths[place].as_str()) {
                Ok(open) => self.open = open,
                Err(_) => {
                    self.open = None;
                    self.is_starved = true;
                }
            }
        }
    }
}

// What the system's files hold is not told.
impl ShardSource for OldFiles<'_> {
    ghost holds = { λ source files. ⊥ };

    fn count(&self) -> usize {
        self.paths.len()
    }

    fn read_at(&mut self, place: usize, start: u64, bytes: &mut [u8]) -> bool {
        if place >= self.paths.len() {
            return false;
        }
        self.turn_to(place);
        let count = bytes.len();
        let is_read = match &mut self.open {
            Some(file) => {
                file.seek(SeekFrom::Start(start)).is_ok() && file.read_exact(bytes).is_ok()
            }
            None => false,
        };
        if is_read {
            self.progress.add(self.rt, self.file, "read", count);
        }
        is_read
    }
}

/// The files that were looked at, and the file that is to be restored from shards among them.
#[derive(Drop)]
pub(crate) struct Found<'a> {
    pub(crate) file: &'a str,
    pub(crate) is_quiet: bool,
    pub(crate) paths: Vec<String>,
    /// What stood at each path before it was looked at.
    stamps: Vec<Option<Stamp>>,
    /// The place of the first of its shards.
    first: usize,
    /// Which of the files that were seen it is.
    pub(crate) chosen: usize,
    pub(crate) seen: Seen,
    pub(crate) scan: Scan,
}

impl Found<'_> {
    /// The files that were looked at, to be read.
    pub(crate) fn source<'b>(&'b self, rt: &'b HostRuntime, is_quiet: bool) -> OldFiles<'b> {
        let length = self.seen.layout.file_length();
        let all = length.saturating_mul(self.seen.count as u64);
        let progress = Progress::new(is_quiet, all);
        OldFiles::new(rt, self.file, self.paths.as_slice(), progress)
    }

    /// What stood at a path before it was looked at.
    pub(crate) fn stamp(&self, place: usize) -> Option<Stamp> {
        match self.stamps.as_slice().get(place) {
            Some(stamp) => *stamp,
            None => None,
        }
    }

    /// Of each shard how many bytes the shortest file has that has it, or 0 where none has.
    pub(crate) fn lengths(&self, rt: &HostRuntime) -> Result<Vec<u64>> {
        let mut lengths = vec![in rt.alloc(); 0u64; self.seen.layout.total()]?;
        for place in 0..self.paths.len() {
            if let Some(index) = self.index_at(place) {
                let length = length_of(rt, self.paths[place].as_str())?;
                if index < lengths.len() && (lengths[index] == 0 || length < lengths[index]) {
                    lengths[index] = length;
                }
            }
        }
        Ok(lengths)
    }

    // The number of the shard at a path, where it is one of these.
    fn index_at(&self, place: usize) -> Option<usize> {
        match self.scan.findings.as_slice().get(place) {
            Some(Finding::Shard(of, index)) if *of == self.chosen => Some(*index),
            _ => None,
        }
    }

    /// The mode of the first of its shards.
    pub(crate) fn mode(&self, rt: &HostRuntime) -> Result<u32> {
        match self.paths.as_slice().get(self.first) {
            Some(path) => mode_of(rt, path.as_str()),
            None => Ok(0o600),
        }
    }
}

/// The mode of a file.
pub(crate) fn mode_of(rt: &HostRuntime, path: &str) -> Result<u32> {
    match fs::metadata(rt, path) {
        Ok(about) => Ok(about.permissions().mode()),
        Err(error) => bail!("cannot read {path}: {error}"),
    }
}

/// How many bytes a file has, or 0 where that cannot be told. It fails where memory is refused.
pub(crate) fn length_of(rt: &HostRuntime, path: &str) -> Result<u64> {
    match unless_starved(fs::metadata(rt, path))? {
        Some(about) => Ok(about.len()),
        None => Ok(0),
    }
}

// What the system gave, or nothing where it gave an error. It fails where memory is refused, which says nothing of a file.
fn unless_starved<T>(given: io::Result<T>) -> Result<Option<T>> {
    match given {
        Ok(value) => Ok(Some(value)),
        Err(error) if error.kind() == ErrorKind::OutOfMemory => bail!("out of memory"),
        Err(_error) => Ok(None),
    }
}

/// Looks at the files that are named behind the file, or at FILE.0, FILE.1, .. where none is, and chooses the file of which there are
/// enough shards. It tells of each file that is not taken. The inner error says why there is no one set of shards; the outer one is a fault of
/// the system or in the words.
pub(crate) fn find_shards<'a>(
    rt: &HostRuntime,
    words: &Words<'_>,
    file: &'a str,
) -> Result<Result<Found<'a>, String>> {
    let paths = paths_of(rt, words, file)?;
    let stamps = stamps_of(rt, paths.as_slice())?;
    let scan = scan_of(rt, paths.as_slice())?;
    let chosen = match choice_of(rt, words, &scan)? {
        Choice::Only(first) => whole_set(rt, file, paths.as_slice(), &scan, first, words.is_quiet)?,
        Choice::TooFew(most) => most,
        Choice::Nothing => scan.seen.len(),
        Choice::Several => return Ok(Err(several(rt, file, &scan)?)),
    };
    let first = tell_others(rt, paths.as_slice(), chosen, &scan)?;
    require_no_shard(rt, file, scan.seen.as_slice().get(chosen))?;
    if chosen >= scan.seen.len() {
        return Ok(Err(format!(in rt.alloc(); "{file}: no shards")?));
    }
    Ok(Ok(Found {
        file,
        is_quiet: words.is_quiet,
        paths,
        stamps,
        first,
        chosen,
        seen: scan.seen[chosen],
        scan,
    }))
}

/// `find_shards`, failing where there is no one set of shards.
pub(crate) fn require_shards<'a>(
    rt: &HostRuntime,
    words: &Words<'_>,
    file: &'a str,
) -> Result<Found<'a>> {
    match find_shards(rt, words, file)? {
        Ok(found) => Ok(found),
        Err(why) => bail!("{why}"),
    }
}

// What stands at each path.
fn stamps_of(rt: &HostRuntime, paths: &[String]) -> Result<Vec<Option<Stamp>>> {
    let mut stamps = Vec::new(rt.alloc());
    for path in paths {
        stamps.push(Stamp::at(rt, path.as_str()))?;
    }
    Ok(stamps)
}

/// What the files at these paths are, by the bytes that they begin with.
pub(crate) fn scan_of(rt: &HostRuntime, paths: &[String]) -> Result<Scan> {
    let mut scan = Scan::new(rt.alloc());
    for path in paths {
        look_at(rt, path.as_str(), &mut scan)?;
    }
    Ok(scan)
}

// Adds what a file is.
fn look_at(rt: &HostRuntime, path: &str, scan: &mut Scan) -> Result<()> {
    match begin_of(rt, path)? {
        Some(bytes) => scan.add(Some(bytes.as_slice()))?,
        None => scan.add(None)?,
    }
    Ok(())
}

/// What the head of a file says, where it is a shard.
pub(crate) fn seen_at(rt: &HostRuntime, path: &str) -> Result<Option<Seen>> {
    let mut scan = Scan::new(rt.alloc());
    look_at(rt, path, &mut scan)?;
    Ok(scan.seen.first().copied())
}

// Fails where the first name is that of a shard of the file that is chosen, or of any where none is.
fn require_no_shard(rt: &HostRuntime, file: &str, chosen: Option<&Seen>) -> Result<()> {
    if let Some(own) = seen_at(rt, file)? {
        let is_of = match chosen {
            Some(seen) => own.layout.origin.identity == seen.layout.origin.identity,
            None => true,
        };
        if is_of {
            bail!("{file} is itself a shard; the first name is that of the file that was split")
        }
    }
    Ok(())
}

/// Fails where what is to be read is no regular file: a pipe could keep the program waiting, and a folder has no bytes.
pub(crate) fn require_regular(rt: &HostRuntime, path: &str) -> Result<()> {
    match fs::metadata(rt, path) {
        Ok(about) if about.is_file() => Ok(()),
        Ok(_about) => bail!("cannot read {path}: it is no regular file"),
        Err(error) => bail!("cannot read {path}: {error}"),
    }
}

// Opens a regular file to be read, where it can be. It fails where memory is refused.
fn opened(rt: &HostRuntime, path: &str) -> Result<Option<File>> {
    match unless_starved(fs::metadata(rt, path))? {
        Some(about) if about.is_file() => unless_starved(File::open(rt, path)),
        _ => Ok(None),
    }
}

// As many bytes as a head has, or as a file has, from its beginning, where it can be read. It fails where memory is refused.
fn begin_of(rt: &HostRuntime, path: &str) -> Result<Option<Vec<u8>>> {
    let file = match opened(rt, path)? {
        Some(file) => file,
        None => return Ok(None),
    };
    let mut bytes = Vec::new(rt.alloc());
    let mut begin = file.take(HEAD as u64);
    match unless_starved(begin.read_to_end(&mut bytes))? {
        Some(_count) => Ok(Some(bytes)),
        None => Ok(None),
    }
}

// Tells of each file that is no shard of the chosen one, and finds the place of the first that is.
fn tell_others(rt: &HostRuntime, paths: &[String], chosen: usize, scan: &Scan) -> Result<usize> {
    let mut first = paths.len();
    for place in 0..paths.len() {
        match scan.findings.as_slice().get(place) {
            Some(Finding::Shard(of, _)) if *of == chosen => first = first.min(place),
            Some(finding) => tell(rt, paths[place].as_str(), *finding, scan)?,
            None => {}
        }
    }
    Ok(first)
}

/// The names of the files that may be shards.
pub(crate) fn paths_of(rt: &HostRuntime, words: &Words<'_>, file: &str) -> Result<Vec<String>> {
    let mut paths = Vec::new(rt.alloc());
    for shard in words.shards.as_slice() {
        paths.push(format!(in rt.alloc(); "{shard}")?)?;
    }
    if paths.is_empty() {
        add_numbered(rt, file, &mut paths)?;
    }
    Ok(paths)
}

// Adds the names FILE.0, FILE.1, .. that are there. It fails where memory is refused, and where none is, as far as the system tells, and it
// does not tell it of one: in a folder that may not be searched there may be shards.
fn add_numbered(rt: &HostRuntime, file: &str, paths: &mut Vec<String>) -> Result<()> {
    let mut fault = None;
    for index in 0..MOST_SHARDS {
        let path = format!(in rt.alloc(); "{file}.{index}")?;
        match is_there(rt, path.as_str()) {
            Ok(true) => paths.push(path)?,
            Ok(false) => {}
            Err(error) if error.kind() == ErrorKind::OutOfMemory => bail!("out of memory"),
            Err(error) => fault = Some(error),
        }
    }
    match fault {
        Some(error) if paths.is_empty() => bail!("cannot look for shards of {file}: {error}"),
        _ => Ok(()),
    }
}

// Whether a file is there, where the system tells. None has a name that is too long, or lies in what is no folder.
fn is_there(rt: &HostRuntime, path: &str) -> io::Result<bool> {
    match fs::metadata(rt, path) {
        Ok(_about) => Ok(true),
        Err(error) => match error.kind() {
            ErrorKind::NotFound | ErrorKind::InvalidFilename | ErrorKind::NotADirectory => {
                Ok(false)
            }
            _ => Err(error),
        },
    }
}

// The file that is to be restored, among those whose identity begins as the words say.
fn choice_of(rt: &HostRuntime, words: &Words<'_>, scan: &Scan) -> Result<Choice> {
    let mut wanted = Vec::new(rt.alloc());
    for seen in scan.seen.as_slice() {
        let name = name_of(rt, seen)?;
        wanted.push(match words.identity {
            Some(begin) => name.as_str().starts_with(begin),
            None => true,
        })?;
    }
    Ok(scan.choice(wanted.as_slice()))
}

// Tells of which files there are enough shards, and says that there are several.
fn several(rt: &HostRuntime, file: &str, scan: &Scan) -> Result<String> {
    for seen in scan.seen.as_slice() {
        if seen.has_enough() {
            let name = name_of(rt, seen)?;
            note(rt, file, name.as_str());
        }
    }
    Ok(format!(in rt.alloc();
        "{file}: there are enough shards of more than one file; --identity says which"
    )?)
}

/// Tells why a file is not taken.
pub(crate) fn tell(rt: &HostRuntime, path: &str, finding: Finding, scan: &Scan) -> Result<()> {
    match finding {
        Finding::Unread => note(rt, path, "it cannot be read"),
        Finding::Damaged => note(rt, path, "it is no shard, or was damaged"),
        Finding::OldFormat(version) => {
            let why = format!(in rt.alloc();
                "it is a shard of format {version}, written by an older shards"
            )?;
            note(rt, path, why.as_str());
        }
        Finding::OtherCode(code) => {
            let why = format!(in rt.alloc();
                "it is a shard by code {code}, which this shards does not know"
            )?;
            note(rt, path, why.as_str());
        }
        Finding::Shard(of, _) => {
            if let Some(seen) = scan.seen.as_slice().get(of) {
                let name = name_of(rt, seen)?;
                let why = format!(in rt.alloc(); "it is a shard of another file: {name}")?;
                note(rt, path, why.as_str());
            }
        }
    }
    Ok(())
}

/// The identity of a file, as 64 hexadecimal digits.
pub(crate) fn name_of(rt: &HostRuntime, seen: &Seen) -> Result<String> {
    let mut name = String::new(rt.alloc());
    for byte in &seen.layout.origin.identity {
        let digits = format!(in rt.alloc(); "{byte:02x}")?;
        name.push_str(digits.as_str())?;
    }
    Ok(name)
}
