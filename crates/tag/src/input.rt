// A reader that remembers whether it failed.
ghost use Rattle.std.specs.Prelude.{◌≡◌, ◌≢◌, ◌<◌, false, true, IfErr, OnErr, OnOk};
ghost use Rattle.std.specs.Io.{ReadsAtMost};
ghost use Rattle.std.specs.Io.KnownBytes.{ReadConsumes};
ghost use Rattle.std.specs.IoError.{error_kind};

use std::io::{ErrorKind, Read, Result};

/// A reader, and whether it has failed: whether a read gave an error, or `u64::MAX` of them came to no end.
#[derive(Drop)]
pub struct Input<R> {
    inner: R,
    has_failed: bool,
    reads_left: u64,
}

impl<R> Input<R> {
    ghost use Rattle.tag.specs.Input.{input_failed, input_reader};

    /// The bytes of a reader, which has not failed yet.
    pub fn new(inner: R) -> Input<R>
        ensures inner { input_reader result ≡ inner }
        ensures failed { input_failed result ≡ false }
    {
        Input {
            inner,
            has_failed: false,
            reads_left: u64::MAX,
        }
    }
}

impl<R: Read> Input<R> {
    ghost use Rattle.tag.specs.Input.{input_failed, input_reader, input_reads};

    /// Reads some bytes, and none only at the end, or where there is no room. An interrupted read is made again.
    pub fn next(&mut self, piece: &mut [u8]) -> Result<usize>
        ensures bound { ReadsAtMost result piece.new }
        ensures bytes { ReadConsumes (R.remaining (input_reader self.old)) (R.remaining (input_reader self.new)) result piece.new }
        ensures retried { IfErr result (λ error. error_kind error ≢ ErrorKind.Interrupted) }
        ensures failed { OnErr result (input_failed self.new ≡ true) }
        ensures passed { OnOk result (input_failed self.new ≡ input_failed self.old) }
        ensures spent { OnOk result (input_reads self.new < input_reads self.old) }
    {
        'reads: while self.reads_left > 0 {
            self.reads_left -= 1;
            match self.inner.read(piece) {
                Ok(count) => return Ok(count),
                Err(error) if error.kind() == ErrorKind::Interrupted => {}
                Err(error) => {
                    self.has_failed = true;
                    return Err(error);
                }
            }
        }
        self.has_failed = true;
        Err(ErrorKind::Other.into())
    }
}
