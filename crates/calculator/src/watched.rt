//! A reader or a writer that remembers whether it failed.
ghost use Rattle.std.specs.Prelude.{◌≡◌, ◌+◌, ◌-◌, ◌^◌, ◌<◌, ◌≤◌, true, false, length, IfOk, OnOk, OnErr};
ghost use Rattle.std.specs.Io.{ReadsAtMost, WritesAtMost};
ghost use Rattle.std.specs.Io.KnownBytes.{Keeps, ReadConsumes, WriteAppends};

use std::io;
use std::io::{ErrorKind, Read, Write};

/// A reader or a writer whose failure is remembered.
///
/// It passes each call on. A call fails only if the inner one returns an error, if a write of at
/// least one byte takes none, or after `u64::MAX` reads; an interruption is an error like any
/// other.
#[derive(Drop)]
pub struct Watched<T> {
    inner: T,
    has_failed: bool,
    reads_left: u64,
}

impl<T> Watched<T> {
    ghost use Rattle.calculator.specs.Watched.{watched_inner, has_failed, reads_left};

    /// Watches `inner`, which has not failed yet.
    pub fn new(inner: T) -> Watched<T>
        ensures inner { watched_inner result ≡ inner }
        ensures failed { has_failed result ≡ false }
        ensures reads { reads_left result ≡ 2 ^ 64 - 1 }
    {
        Watched {
            inner,
            has_failed: false,
            reads_left: u64::MAX,
        }
    }

    /// Whether a call has failed.
    pub fn failed(&self) -> bool
        ensures { result ≡ has_failed self.now }
    {
        self.has_failed
    }

    /// The reader or writer that was watched.
    pub fn into_inner(self) -> T
        ensures { result ≡ watched_inner self }
    {
        let Watched {
            inner,
            has_failed: _,
            reads_left: _,
        } = self;
        inner
    }

    fn fail(&mut self, error: io::Error) -> io::Error
        ensures inner { watched_inner self.new ≡ watched_inner self.old }
        ensures failed { has_failed self.new ≡ true }
        ensures reads { reads_left self.new ≡ reads_left self.old }
    {
        self.has_failed = true;
        error
    }
}

impl<T: Read> Read for Watched<T> {
    ghost use Rattle.calculator.specs.Watched.{watched_inner, has_failed, reads_left};

    ghost remaining = { λ w. T.remaining (watched_inner w) };

    fn read(&mut self, buf: &mut [u8]) -> io::Result<usize>
        ensures bound { ReadsAtMost result buf.new }
        ensures bytes { ReadConsumes (T.remaining (watched_inner self.old))
            (T.remaining (watched_inner self.new)) result buf.new }
        // A read that gives bytes, or the end, spends one of those that are left.
        ensures passed { OnOk result (has_failed self.new ≡ has_failed self.old) }
        ensures spent { OnOk result (reads_left self.new + 1 ≡ reads_left self.old) }
        ensures failed { OnErr result (has_failed self.new ≡ true) }
        ensures unspent { OnErr result (reads_left self.new ≡ reads_left self.old) }
    {
        if self.reads_left == 0 {
            return Err(self.fail(ErrorKind::Other.into()));
        }
        match self.inner.read(buf) {
            Ok(count) => {
                self.reads_left -= 1;
                Ok(count)
            }
            Err(error) => Err(self.fail(error)),
        }
    }
}

impl<T: Write> Write for Watched<T> {
    ghost use Rattle.calculator.specs.Watched.{watched_inner, has_failed, reads_left};

    ghost contents = { λ w. T.contents (watched_inner w) };

    fn write(&mut self, buf: &[u8]) -> io::Result<usize>
        ensures bound { WritesAtMost result buf.now }
        ensures bytes { WriteAppends (T.contents (watched_inner self.old))
            (T.contents (watched_inner self.new)) result buf.now }
        ensures some { IfOk result (λ count. 0 < length buf.now → 0 < count) }
        ensures passed { OnOk result (has_failed self.new ≡ has_failed self.old) }
        ensures failed { OnErr result (has_failed self.new ≡ true) }
        ensures reads { reads_left self.new ≡ reads_left self.old }
    {
        match self.inner.write(buf) {
            Ok(0) if !buf.is_empty() => Err(self.fail(ErrorKind::WriteZero.into())),
            Ok(count) => Ok(count),
            Err(error) => Err(self.fail(error)),
        }
    }

    fn flush(&mut self) -> io::Result<()>
        ensures bytes { Keeps (T.contents (watched_inner self.old)) (T.contents (watched_inner self.new)) }
        ensures passed { OnOk result (has_failed self.new ≡ has_failed self.old) }
        ensures failed { OnErr result (has_failed self.new ≡ true) }
        ensures reads { reads_left self.new ≡ reads_left self.old }
    {
        match self.inner.flush() {
            Ok(()) => Ok(()),
            Err(error) => Err(self.fail(error)),
        }
    }
}
