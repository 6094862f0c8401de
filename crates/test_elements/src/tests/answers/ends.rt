// Doubles: readers and writers that give and take little, and fail.
ghost use Rattle.std.specs.Prelude.{◌≡◌, IsErr};
ghost use Rattle.calculator.specs.Watched.{reads_left};

use calculator::{RunError, Watched, run};
use std::alloc::{Allocator, Global};
use std::io;
use std::io::{ErrorKind, Read, Write};

/// Gives at most `step` bytes a call. At their end it gives the end, or is interrupted.
#[derive(Drop)]
pub(crate) struct Source<'a> {
    rest: &'a [u8],
    step: usize,
    fails: bool,
    failures: usize,
}

impl<'a> Source<'a> {
    pub(crate) fn new(bytes: &'a [u8], step: usize) -> Self {
        Source {
            rest: bytes,
            step,
            fails: false,
            failures: 0,
        }
    }

    pub(crate) fn failing(bytes: &'a [u8], step: usize) -> Self {
        Source {
            rest: bytes,
            step,
            fails: true,
            failures: 0,
        }
    }
}

impl Read for Source<'_> {
    fn read(&mut self, buf: &mut [u8]) -> io::Result<usize> {
        if self.fails && self.rest.is_empty() {
            self.failures = self.failures.saturating_add(1);
            return Err(ErrorKind::Interrupted.into());
        }
        let count = self.step.min(self.rest.len()).min(buf.len());
        buf[..count].copy_from_slice(&self.rest[..count]);
        self.rest = &self.rest[count..];
        Ok(count)
    }
}

/// Takes at most `step` bytes a call, until it has `room` bytes. Then it is interrupted, or takes none.
#[derive(Drop)]
pub(crate) struct Sink {
    bytes: Vec<u8>,
    step: usize,
    room: usize,
    takes_none: bool,
    refusals: usize,
    flush_fails: bool,
    flushes: usize,
}

impl Sink {
    pub(crate) fn new(alloc: Global, step: usize) -> Self {
        Sink {
            bytes: Vec::new(alloc),
            step,
            room: usize::MAX,
            takes_none: false,
            refusals: 0,
            flush_fails: false,
            flushes: 0,
        }
    }

    pub(crate) fn with_room(alloc: Global, room: usize, takes_none: bool) -> Self {
        Sink {
            bytes: Vec::new(alloc),
            step: usize::MAX,
            room,
            takes_none,
            refusals: 0,
            flush_fails: false,
            flushes: 0,
        }
    }

    pub(crate) fn without_flush(alloc: Global) -> Self {
        Sink {
            bytes: Vec::new(alloc),
            step: usize::MAX,
            room: usize::MAX,
            takes_none: false,
            refusals: 0,
            flush_fails: true,
            flushes: 0,
        }
    }
}

impl Write for Sink {
    fn write(&mut self, buf: &[u8]) -> io::Result<usize> {
        let room = self.room.saturating_sub(self.bytes.len());
        let count = self.step.min(room).min(buf.len());
        if count == 0 && !buf.is_empty() {
            self.refusals = self.refusals.saturating_add(1);
            if !self.takes_none {
                return Err(ErrorKind::Interrupted.into());
            }
        }
        self.bytes.extend_from_slice(&buf[..count])?;
        Ok(count)
    }

    fn flush(&mut self) -> io::Result<()> {
        self.flushes = self.flushes.saturating_add(1);
        if self.flush_fails {
            Err(ErrorKind::Interrupted.into())
        } else {
            Ok(())
        }
    }
}

/// What a run answered, and what its reader and writer were after it.
#[derive(Drop)]
pub(crate) struct Outcome {
    pub(crate) result: Result<(), RunError>,
    pub(crate) written: Vec<u8>,
    pub(crate) unread: usize,
    pub(crate) failures: usize,
    pub(crate) refusals: usize,
    pub(crate) flushes: usize,
    pub(crate) reader_failed: bool,
    pub(crate) writer_failed: bool,
}

impl Outcome {
    /// Whether the run answered all, and wrote `want`.
    pub(crate) fn is_ok(&self, want: &[u8]) -> bool {
        self.result.is_ok()
            && self.written.as_slice() == want
            && !self.reader_failed
            && !self.writer_failed
    }

    /// Whether the run ended with the reader's failure, which was not tried again, after a beginning of `want`.
    pub(crate) fn is_unread(&self, want: &[u8]) -> bool {
        self.result == Err(RunError::Read)
            && want.starts_with(self.written.as_slice())
            && self.reader_failed
            && !self.writer_failed
            && self.failures == 1
    }

    /// Whether the run ended with the writer's failure, after a beginning of `want`.
    pub(crate) fn is_unwritten(&self, want: &[u8]) -> bool {
        self.result == Err(RunError::Write)
            && want.starts_with(self.written.as_slice())
            && !self.reader_failed
            && self.writer_failed
    }

    /// Whether the run ended for want of memory, after a beginning of `want`.
    pub(crate) fn is_refused(&self, want: &[u8]) -> bool {
        self.result == Err(RunError::Memory)
            && want.starts_with(self.written.as_slice())
            && !self.reader_failed
            && !self.writer_failed
    }
}

pub(crate) fn run_over<A: Allocator>(alloc: A, source: Source<'_>, sink: Sink) -> Outcome {
    let mut reader = Watched::new(source);
    let mut writer = Watched::new(sink);
    let result = run(alloc, &mut reader, &mut writer);
    let (reader_failed, writer_failed) = (reader.failed(), writer.failed());
    let source = reader.into_inner();
    let sink = writer.into_inner();
    Outcome {
        result,
        written: sink.bytes,
        unread: source.rest.len(),
        failures: source.failures,
        refusals: sink.refusals,
        flushes: sink.flushes,
        reader_failed,
        writer_failed,
    }
}

/// A read past the last of those that are left fails, as a caller learns from the contract of `Watched`.
pub(crate) fn read_past_the_last<R: Read>(
    reader: &mut Watched<R>,
    buf: &mut [u8],
) -> io::Result<usize>
    requires { reads_left reader.old ≡ 0 }
    ensures { IsErr result }
{
    reader.read(buf)
}
