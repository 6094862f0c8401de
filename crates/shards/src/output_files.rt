// Files that are written beside their places, and put there when all of them are whole: under a name that ends in `.part`, synced, with
// the mode that is asked for, and then linked or, where a file may be replaced, renamed.
use crate::lock::is_at;
use crate::progress::Progress;
use crate::stamp::Stamp;
use anyhow::{Context, Result, bail};
use shard_files::ShardFiles;
use std::fs::{File, Metadata, OpenOptions, Permissions};
use std::io::{ErrorKind, Write};
use std::os::unix::fs::{OpenOptionsExt, PermissionsExt};
use std::path::Path;
use std::{fs, io};

/// New files of a name that this run has locked. What is there already is not overwritten, unless that is asked for.
#[derive(Drop)]
pub(crate) struct NewFiles<'a> {
    rt: &'a HostRuntime,
    mode: u32,
    /// Whether any file that stands at a place, or has the name under which one is written at first, is replaced.
    is_forced: bool,
    parts: Vec<Part>,
    placed: usize,
}

/// A file that is written beside its place.
#[derive(Drop)]
struct Part {
    /// Its place.
    target: String,
    /// What it was when it was made.
    made: Metadata,
    /// What it is to replace.
    old: Option<Stamp>,
}

impl<'a> NewFiles<'a> {
    /// No file yet. Each is to have this mode.
    pub(crate) fn new(rt: &'a HostRuntime, mode: u32, is_forced: bool) -> NewFiles<'a> {
        NewFiles {
            rt,
            mode: mode & 0o777,
            is_forced,
            parts: Vec::new(rt.alloc()),
            placed: 0,
        }
    }

    /// How many files were begun.
    pub(crate) fn count(&self) -> usize {
        self.parts.len()
    }

    /// Fails where something is at that place that is not to be overwritten: a file, unless that is asked for, or else what is neither a file
    /// nor a link.
    pub(crate) fn require_free(&self, target: &str) -> Result<()> {
        require_free(self.rt, target, self.is_forced)
    }

    /// Opens a new file beside its place, where nothing may be but what it is to replace. Only its owner may read it as yet.
    pub(crate) fn begin(&mut self, target: String, old: Option<Stamp>) -> Result<File> {
        require_free(self.rt, target.as_str(), self.is_forced || old.is_some())?;
        let part = part_of(self.rt, target.as_str())?;
        require_free(self.rt, part.as_str(), self.is_forced)?;
        self.parts.reserve(1)?;
        if self.is_forced {
            let _ = fs::remove_file(self.rt, part.as_str());
        }
        let mut options = OpenOptions::new();
        options.write(true).create_new(true).mode(0o600);
        let file = options
            .open(self.rt, part.as_str())
            .context(format_args!("cannot write {part}"))?;
        let made = file
            .metadata()
            .context(format_args!("cannot write {part}"))?;
        self.parts.push(Part { target, made, old })?;
        Ok(file)
    }

    /// Gives a file its mode, and waits until it is on the disk.
    pub(crate) fn finish(&self, file: &File, target: &str) -> Result<()> {
        file.set_permissions(Permissions::from_mode(self.mode))
            .context(format_args!("cannot set the mode of {target}.part"))?;
        file.sync_all()
            .context(format_args!("cannot write {target}.part"))
    }

    /// Puts all files at their places.
    pub(crate) fn place(&mut self) -> Result<()> {
        for i in 0..self.parts.len() {
            self.place_one(&self.parts[i])?;
            self.placed = i + 1;
        }
        if let Some(first) = self.parts.first() {
            sync_folder(self.rt, first.target.as_str());
        }
        Ok(())
    }

    // Puts a file at its place, where it is the one that was made. What is there is replaced if it is what was to be replaced, or any file is.
    fn place_one(&self, own: &Part) -> Result<()> {
        let target = own.target.as_str();
        let part = part_of(self.rt, target)?;
        if !is_at(self.rt, part.as_str(), &own.made) {
            bail!("another program changed {part}")
        }
        let is_old = match own.old {
            Some(old) => old.is_at(self.rt, target),
            None => false,
        };
        if self.is_forced || is_old {
            return renamed(self.rt, part.as_str(), target);
        }
        linked(self.rt, part.as_str(), target)
    }

    /// Removes what was begun: the files beside their places, and those at their places that replaced nothing.
    pub(crate) fn remove(&mut self) {
        for i in 0..self.parts.len() {
            let own = &self.parts[i];
            if i >= self.placed {
                if let Ok(part) = part_of(self.rt, own.target.as_str()) {
                    remove_own(self.rt, part.as_str(), &own.made);
                }
            } else if !self.is_forced && own.old.is_none() {
                remove_own(self.rt, own.target.as_str(), &own.made);
            }
        }
    }

    /// Puts the files at their places, or removes what was begun where the work failed or they cannot be put there.
    pub(crate) fn end(&mut self, work: Result<()>) -> Result<()> {
        let ended = match work {
            Ok(()) => self.place(),
            Err(error) => Err(error),
        };
        if ended.is_err() {
            self.remove();
        }
        ended
    }
}

/// The new files of the shards of a file, of which one is open at a time.
#[derive(Drop)]
pub(crate) struct NewShards<'a> {
    rt: &'a HostRuntime,
    files: NewFiles<'a>,
    /// The names of the shards without their numbers.
    base: String,
    /// Of each shard what its file is to replace.
    old: Vec<Option<Stamp>>,
    open: Option<File>,
    /// The number of the shard whose file is open, or was written last.
    index: usize,
    is_begun: Vec<bool>,
    /// Why the last call failed.
    fault: Option<anyhow::Error>,
    progress: Progress,
}

impl<'a> NewShards<'a> {
    /// No file yet of shards, of each of which it is known what its file is to replace.
    pub(crate) fn new(
        rt: &'a HostRuntime,
        files: NewFiles<'a>,
        base: String,
        old: Vec<Option<Stamp>>,
        progress: Progress,
    ) -> Result<NewShards<'a>> {
        let is_begun = vec![in rt.alloc(); false; old.len()]?;
        Ok(NewShards {
            rt,
            files,
            base,
            old,
            open: None,
            index: 0,
            is_begun,
            fault: None,
            progress,
        })
    }

    // The name of a shard.
    fn target(&self, index: usize) -> Result<String> {
        Ok(format!(in self.rt.alloc(); "{}.{index}", self.base)?)
    }

    /// Why the last call failed, where it did.
    pub(crate) fn fault(&mut self) -> Option<anyhow::Error> {
        self.fault.take()
    }

    /// Fails where a file is at the place of a shard, and is not to be overwritten.
    pub(crate) fn require_free(&self, index: usize) -> Result<()> {
        let target = self.target(index)?;
        self.files.require_free(target.as_str())
    }

    // Opens the file of a shard at its end, or begins it.
    fn turn_to(&mut self, index: usize) -> Result<()> {
        if self.index == index && self.open.is_some() {
            return Ok(());
        }
        self.index = index;
        let target = self.target(index)?;
        if index < self.is_begun.len() && !self.is_begun[index] {
            self.is_begun[index] = true;
            let old = match self.old.as_slice().get(index) {
                Some(old) => *old,
                None => None,
            };
            self.open = Some(self.files.begin(target, old)?);
        } else {
            let mut options = OpenOptions::new();
            options.append(true);
            let part = part_of(self.rt, target.as_str())?;
            self.open = Some(options.open(self.rt, part.as_str())?);
        }
        Ok(())
    }

    // Adds bytes at the end of the file of a shard.
    fn add(&mut self, index: usize, bytes: &[u8]) -> Result<()> {
        self.turn_to(index)?;
        if let Some(file) = &mut self.open {
            file.write_all(bytes)
                .context(format_args!("cannot write {}.{index}.part", self.base))?;
        }
        self.progress
            .add(self.rt, self.base.as_str(), "wrote", bytes.len());
        Ok(())
    }

    /// Gives each file its mode, and waits until it is on the disk.
    pub(crate) fn finish(&mut self) -> Result<()> {
        self.progress.start(self.rt, self.base.as_str(), "synced");
        let share = self.progress.share(self.files.count());
        for index in 0..self.is_begun.len() {
            if index < self.is_begun.len() && self.is_begun[index] {
                self.finish_one(index)?;
                self.progress
                    .add(self.rt, self.base.as_str(), "synced", share);
            }
        }
        Ok(())
    }

    // Gives the file of a shard its mode, and waits until it is on the disk.
    fn finish_one(&mut self, index: usize) -> Result<()> {
        let target = self.target(index)?;
        self.turn_to(index)?;
        if let Some(file) = &self.open {
            self.files.finish(file, target.as_str())?;
        }
        Ok(())
    }

    /// Puts the files at their places, or removes what was begun where the work failed or they cannot be put there.
    pub(crate) fn end(&mut self, work: Result<()>) -> Result<()> {
        self.files.end(work)
    }
}

// What the system's files hold is not told.
impl ShardFiles for NewShards<'_> {
    ghost holds = { λ files held. ⊥ };

    fn append(&mut self, index: usize, bytes: &[u8]) -> io::Result<()> {
        match self.add(index, bytes) {
            Ok(()) => Ok(()),
            Err(error) => {
                self.fault = Some(error);
                Err(io::Error::from(io::ErrorKind::Other))
            }
        }
    }
}

// Fails where something is at that place that may not be replaced.
fn require_free(rt: &HostRuntime, path: &str, replaces: bool) -> Result<()> {
    match fs::symlink_metadata(rt, path) {
        Ok(about) => {
            if !replaces {
                bail!("{path} is there already; --force overwrites it")
            }
            if !about.is_file() && !about.is_symlink() {
                bail!("{path} is no file that can be replaced")
            }
            Ok(())
        }
        Err(_error) => Ok(()),
    }
}

// Removes a file where it is the one that was made.
fn remove_own(rt: &HostRuntime, path: &str, made: &Metadata) {
    if is_at(rt, path, made) {
        let _ = fs::remove_file(rt, path);
    }
}

// Puts a file at a place, in the place of what is there.
fn renamed(rt: &HostRuntime, part: &str, target: &str) -> Result<()> {
    fs::rename(rt, part, target).context(format_args!("cannot write {target}"))
}

// Puts a file at a place where nothing is. Where the system has no links, one that comes there just then is replaced.
fn linked(rt: &HostRuntime, part: &str, target: &str) -> Result<()> {
    match fs::hard_link(rt, part, target) {
        Ok(()) => {
            let _ = fs::remove_file(rt, part);
            Ok(())
        }
        Err(error) if error.kind() == ErrorKind::AlreadyExists => {
            bail!("{target} is there already; --force overwrites it")
        }
        Err(_error) => {
            require_free(rt, target, false)?;
            renamed(rt, part, target)
        }
    }
}

// The name under which a file is written at first.
fn part_of(rt: &HostRuntime, target: &str) -> Result<String> {
    Ok(format!(in rt.alloc(); "{target}.part")?)
}

// Waits until the names in the folder of a file are on the disk, where the system does that for folders.
fn sync_folder(rt: &HostRuntime, file: &str) {
    let folder = match Path::new(file).parent() {
        Some(folder) if !folder.as_str().is_empty() => folder.as_str(),
        _ => ".",
    };
    if let Ok(folder) = File::open(rt, folder) {
        let _ = folder.sync_all();
    }
}
