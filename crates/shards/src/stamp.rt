// What stands at a path at a moment, by which it is known again.
use std::fs;
use std::os::unix::fs::MetadataExt;

/// Which file, folder or link it is, how long, and when it was last written.
#[derive(Clone, Copy, PartialEq, Eq)]
pub(crate) struct Stamp {
    device: u64,
    number: u64,
    length: u64,
    seconds: i64,
    nanoseconds: i64,
}

impl Stamp {
    /// What stands at a path, if the system tells that something does. A link is not followed.
    pub(crate) fn at(rt: &HostRuntime, path: &str) -> Option<Stamp> {
        match fs::symlink_metadata(rt, path) {
            Ok(about) => Some(Stamp {
                device: about.dev(),
                number: about.ino(),
                length: about.len(),
                seconds: about.mtime(),
                nanoseconds: about.mtime_nsec(),
            }),
            Err(_error) => None,
        }
    }

    /// Whether it still stands there, and was not written since.
    pub(crate) fn is_at(&self, rt: &HostRuntime, path: &str) -> bool {
        match Stamp::at(rt, path) {
            Some(now) => now == *self,
            None => false,
        }
    }
}
