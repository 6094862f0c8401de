// What is told of work that takes long, on a terminal, and of shards that are not taken. It goes to standard error; where that cannot be
// written, the work goes on.
use std::time::Instant;

/// How many bytes are done of all, since when, and after how many seconds it was told last.
#[derive(Drop)]
pub(crate) struct Progress {
    is_quiet: bool,
    total: u64,
    done: u64,
    begun: Option<Instant>,
    told: u128,
}

impl Progress {
    /// Of so many bytes none is done.
    pub(crate) fn new(is_quiet: bool, total: u64) -> Progress {
        Progress {
            is_quiet,
            total,
            done: 0,
            begun: None,
            told: 0,
        }
    }

    /// Begins anew with what is done next to the same bytes, and tells so at once.
    pub(crate) fn start(&mut self, rt: &HostRuntime, file: &str, what: &str) {
        self.done = 0;
        self.told = 0;
        self.begun = None;
        if !self.is_quiet {
            self.begun = Instant::now(rt).ok();
            let _ = eprint!(rt; "{file}: {what} 0 %\x1b[K\r");
        }
    }

    /// How many of the bytes each of so many equal parts has.
    pub(crate) fn share(&self, parts: usize) -> usize {
        (self.total / (parts as u64).max(1)) as usize
    }

    /// Counts so many bytes more, and tells of them once a second.
    pub(crate) fn add(&mut self, rt: &HostRuntime, file: &str, what: &str, bytes: usize) {
        self.done = self.done.saturating_add(bytes as u64);
        if self.is_quiet {
            return;
        }
        match self.begun {
            Some(begun) => {
                if let Ok(passed) = begun.elapsed(rt) {
                    self.tell(rt, file, what, passed.as_millis());
                }
            }
            None => self.begun = Instant::now(rt).ok(),
        }
    }

    // Tells what is done after so many milliseconds, where another second is full: how much of all, how fast, and how long the rest takes
    // at that speed. What is told next overwrites it.
    fn tell(&mut self, rt: &HostRuntime, file: &str, what: &str, passed: u128) {
        let seconds = passed / 1000;
        if seconds > self.told {
            self.told = seconds;
            let (done, total) = (u128::from(self.done), u128::from(self.total));
            let percent = (done.saturating_mul(100) / total.max(1)).min(100);
            let speed = done / passed.max(1) / 1000;
            let rest = total.saturating_sub(done).saturating_mul(passed);
            let left = rest / done.max(1) / 1000;
            let _ = eprint!(rt; "{file}: {what} {percent} %, {speed} MB/s, {left} s left\x1b[K\r");
        }
    }
}

/// Clears the line on which progress was told, where it is told.
pub(crate) fn clear(rt: &HostRuntime, is_quiet: bool) {
    if !is_quiet {
        let _ = eprint!(rt; "\x1b[K");
    }
}

/// Tells why a file is not taken as a shard.
pub(crate) fn note(rt: &HostRuntime, path: &str, why: &str) {
    let _ = eprintln!(rt; "{path}: {why}");
}
