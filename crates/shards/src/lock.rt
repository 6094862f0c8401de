// The right to write files of one name, which one run has at a time: an empty file beside them, which it keeps open and locked. The system
// gives the lock back where a run is killed, and the next run takes the file that was left.
use anyhow::{Context, Result, bail};
use std::fs;
use std::fs::{File, Metadata, OpenOptions, TryLockError};
use std::os::unix::fs::{MetadataExt, OpenOptionsExt};

/// How often the file is opened anew where another run removed it in between.
const TRIES: usize = 100;

/// The right to write FILE, or FILE.0, FILE.1, ..
#[derive(Drop)]
pub(crate) struct Lock<'a> {
    rt: &'a HostRuntime,
    path: String,
    /// It is locked until it is closed.
    file: File,
}

impl<'a> Lock<'a> {
    /// Takes the right to write the files of a name. It fails where another run has it, or where the file that it locks has bytes, and so is
    /// none of its own.
    pub(crate) fn of(rt: &'a HostRuntime, base: &str) -> Result<Lock<'a>> {
        let path = format!(in rt.alloc(); "{base}.lock")?;
        for _ in 0..TRIES {
            let file = opened(rt, path.as_str())?;
            match file.try_lock() {
                Ok(()) => {}
                Err(TryLockError::WouldBlock) => bail!("another shards writes {base}"),
                Err(TryLockError::Error(error)) => bail!("cannot lock {path}: {error}"),
            }
            let own = file.metadata().context(format_args!("cannot read {path}"))?;
            if own.len() > 0 {
                bail!("{path} is there already, and is no lock of shards")
            }
            if is_at(rt, path.as_str(), &own) {
                return Ok(Lock { rt, path, file });
            }
        }
        bail!("cannot lock {path}")
    }

    /// Gives the right back: the file is removed while it is locked.
    pub(crate) fn release(self) {
        let _ = fs::remove_file(self.rt, self.path.as_str());
        let _ = self.file.unlock();
    }
}

// Opens the file that is to be locked, which may have to be made.
fn opened(rt: &HostRuntime, path: &str) -> Result<File> {
    let mut options = OpenOptions::new();
    options.write(true).create(true).mode(0o600);
    options
        .open(rt, path)
        .context(format_args!("cannot write {path}"))
}

/// Whether the file that is open stands at that path.
pub(crate) fn is_at(rt: &HostRuntime, path: &str, own: &Metadata) -> bool {
    match fs::symlink_metadata(rt, path) {
        Ok(about) => about.dev() == own.dev() && about.ino() == own.ino(),
        Err(_error) => false,
    }
}
