//! A buffer that gathers lines for a writer.
ghost use Rattle.std.specs.Prelude.{◌≡◌, ℕ, ◌+◌, ◌<◌, ◌≤◌, false, List, [], ◌∷◌, ◌++◌, length, OnOk, IfErr, OnErr};
ghost use Rattle.std.specs.Io.KnownBytes.{Appends};
ghost use Rattle.calculator.specs.Progress.{TakesFront, GainsFront};
ghost use Rattle.calculator.specs.RunError.{FailedWriter};
ghost use Rattle.calculator.specs.Watched.{watched_inner, has_failed};

use crate::error::RunError;
use crate::watched::Watched;
use std::io::Write;

const SIZE: usize = 8192;

/// Bytes on their way to a writer, so that it is called once for many lines.
#[derive(Drop)]
pub(crate) struct Outbox {
    bytes: [u8; SIZE],
    len: usize,
    ghost fits: { len ≤ 8192 },
}

impl Outbox {
    ghost use Rattle.calculator.specs.Outbox.{waiting};

    pub(crate) fn new() -> Outbox
        ensures { waiting result ≡ [] }
    {
        Outbox {
            bytes: [0; SIZE],
            len: 0,
        }
    }

    /// Writes all that waits.
    pub(crate) fn write_to<W: Write>(&mut self, writer: &mut Watched<W>) -> Result<(), RunError>
        requires { has_failed writer.old ≡ false }
        ensures ok { OnOk result (Appends (W.contents (watched_inner writer.old))
            (W.contents (watched_inner writer.new)) (waiting self.old)) }
        ensures empty { OnOk result (waiting self.new ≡ []) }
        ensures err { OnErr result (GainsFront (W.contents (watched_inner writer.old))
            (W.contents (watched_inner writer.new)) (waiting self.old)) }
        ensures failed { FailedWriter result (has_failed writer.new) }
    {
        let mut taken = 0;
        while taken < self.len {
            match writer.write(&self.bytes[taken..self.len]) {
                Ok(count) => taken += count,
                Err(_) => return Err(RunError::Write),
            }
        }
        self.len = 0;
        Ok(())
    }

    /// Puts a line and a line feed behind what waits, which is written first where they have no room.
    pub(crate) fn push_line<W: Write>(
        &mut self,
        line: &[u8],
        writer: &mut Watched<W>,
    ) -> Result<(), RunError>
        requires short { length line.now < 8192 }
        requires writer { has_failed writer.old ≡ false }
        ensures ok { OnOk result (TakesFront (W.contents (watched_inner writer.old))
            (W.contents (watched_inner writer.new)) (waiting self.old ++ (line.now ++ 10 ∷ []))
            (waiting self.new)) }
        ensures err { OnErr result (GainsFront (W.contents (watched_inner writer.old))
            (W.contents (watched_inner writer.new)) (waiting self.old)) }
        ensures failed { FailedWriter result (has_failed writer.new) }
    {
        if SIZE - self.len <= line.len() {
            self.write_to(writer)?;
        }
        self.append_line(line);
        Ok(())
    }

    fn append_line(&mut self, line: &[u8])
        requires { length (waiting self.old) + length line.now < 8192 }
        ensures { waiting self.new ≡ waiting self.old ++ (line.now ++ 10 ∷ []) }
    {
        let end = self.len + line.len();
        self.bytes[self.len..end].copy_from_slice(line);
        self.bytes[end] = b'\n';
        self.len = end + 1;
    }
}
