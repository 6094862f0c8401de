//! Reading lines and writing their answers.
ghost use Rattle.std.specs.Prelude.{◌≡◌, ℕ, false, List, [], ◌∷◌, ◌++◌, length, IsErr, OnOk, OnErr, IfErr};
ghost use Rattle.calculator.specs.Answer.{answer_of};
ghost use Rattle.std.specs.Io.KnownBytes.{Appends};
ghost use Rattle.calculator.specs.Lines.{lines, answers, finished, IsLine, AreLinesOf, IsFinished};
ghost use Rattle.calculator.specs.Outbox.{waiting};
ghost use Rattle.calculator.specs.Progress.{TakesFront, AnswersLines, AnswersAll, AnswersFront, AnswersWhole};
ghost use Rattle.calculator.specs.Progress.{LeavesLines, GainsFront, GaveSome};
ghost use Rattle.calculator.specs.RunError.{FailedEnds, FailedWriter};
ghost use Rattle.calculator.specs.Watched.{watched_inner, has_failed};
ghost use Rattle.calculator.specs.declared.error.RunError.TheVariants.{Memory};

use crate::error::RunError;
use crate::line::answer;
use crate::outbox::Outbox;
use crate::watched::Watched;
use memchr::memchr;
use std::alloc::Allocator;
use std::io::{Read, Write};

const CHUNK: usize = 8192;

/// Reads `reader` to its end, and writes the answer to each line and a line feed to `writer`.
///
/// A line ends with a line feed; a last line without one counts if it has a byte. Memory is
/// allocated only for a line that continues past one read. At the end the writer is flushed.
///
/// It returns `Read` or `Write` only if that end has failed, and `Memory` only if an allocation
/// failed after at least one byte was read. No failed call is repeated. After a failure, what was
/// written is a beginning of the answers to the lines that were read; a line counts as read once
/// its line feed or the end of the input was. Before it returns `Memory`, it writes every answer
/// that waits: no line is left unanswered but the one that did not fit and those that ended in the
/// same read.
pub fn run<A: Allocator, R: Read, W: Write>(
    alloc: A,
    reader: &mut Watched<R>,
    writer: &mut Watched<W>,
) -> Result<(), RunError>
    requires reader { has_failed reader.old ≡ false }
    requires writer { has_failed writer.old ≡ false }
    ensures ok { OnOk result (AnswersAll
        (R.remaining (watched_inner reader.old)) (R.remaining (watched_inner reader.new))
        (W.contents (watched_inner writer.old)) (W.contents (watched_inner writer.new))) }
    ensures err { OnErr result (AnswersFront
        (R.remaining (watched_inner reader.old)) (R.remaining (watched_inner reader.new))
        (W.contents (watched_inner writer.old)) (W.contents (watched_inner writer.new))) }
    ensures failed { FailedEnds result (has_failed reader.new) (has_failed writer.new) }
    ensures memory { IfErr result (λ fault. fault ≡ Memory → GaveSome
        (R.remaining (watched_inner reader.old)) (R.remaining (watched_inner reader.new))) }
    ensures told { IfErr result (λ fault. fault ≡ Memory → AnswersWhole
        (R.remaining (watched_inner reader.old)) (R.remaining (watched_inner reader.new))
        (W.contents (watched_inner writer.old)) (W.contents (watched_inner writer.new)) 8192) }
{
    let mut chunk = [0; CHUNK];
    let mut line = Vec::new(alloc);
    let mut outbox = Outbox::new();
    'reads: loop {
        match reader.read(&mut chunk) {
            Ok(0) => return finish(line.as_slice(), &mut outbox, writer),
            Ok(count) => answer_lines(&chunk[..count], &mut line, &mut outbox, writer)?,
            Err(_) => return Err(RunError::Read),
        }
    }
}

/// States what a line is: no line has a line feed, and the lines of any bytes, each with its line feed,
/// join to those bytes, with a line feed after them where the last line has none.
///
/// Of any bytes, those up to the last line feed have ended.
pub fn lines_law()
    ensures lines { (bytes : List ℕ) → AreLinesOf (lines bytes) bytes }
    ensures finished { (bytes : List ℕ) → IsFinished (finished bytes) bytes }
{}

// Answers the lines that end in `chunk`. `line` has the bytes of the line that has not ended. Before it returns `Memory`, it writes all
// that waits.
fn answer_lines<A: Allocator, W: Write>(
    chunk: &[u8],
    line: &mut Vec<u8, A>,
    outbox: &mut Outbox,
    writer: &mut Watched<W>,
) -> Result<(), RunError>
    requires line { IsLine line.old.items }
    requires writer { has_failed writer.old ≡ false }
    ensures ok { OnOk result (AnswersLines (W.contents (watched_inner writer.old))
        (W.contents (watched_inner writer.new)) (waiting outbox.old) (waiting outbox.new)
        (line.old.items ++ chunk.now) line.new.items) }
    ensures line { OnOk result (IsLine line.new.items) }
    ensures err { OnErr result ((left rest : List ℕ) × AnswersLines
        (W.contents (watched_inner writer.old)) (W.contents (watched_inner writer.new))
        (waiting outbox.old) left (line.old.items ++ chunk.now) rest) }
    ensures failed { FailedEnds result false (has_failed writer.new) }
    ensures memory { IfErr result (λ fault. fault ≡ Memory → LeavesLines
        (W.contents (watched_inner writer.old)) (W.contents (watched_inner writer.new))
        (waiting outbox.old) [] (line.old.items ++ chunk.now) (length chunk.now)) }
{
    let mut start = 0;
    'lines: while let Some(len) = memchr(b'\n', &chunk[start..]) {
        end_line(line, &chunk[start..start + len], outbox, writer)?;
        start += len + 1;
    }
    match line.extend_from_slice(&chunk[start..]) {
        Ok(()) => Ok(()),
        Err(_) => refuse(outbox, writer),
    }
}

// Answers `line` with `tail` behind it, and empties `line`. Before it returns `Memory`, it writes all that waits.
fn end_line<A: Allocator, W: Write>(
    line: &mut Vec<u8, A>,
    tail: &[u8],
    outbox: &mut Outbox,
    writer: &mut Watched<W>,
) -> Result<(), RunError>
    requires writer { has_failed writer.old ≡ false }
    ensures ok { OnOk result (TakesFront (W.contents (watched_inner writer.old))
        (W.contents (watched_inner writer.new))
        (waiting outbox.old ++ (answer_of (line.old.items ++ tail.now) ++ 10 ∷ []))
        (waiting outbox.new)) }
    ensures empty { OnOk result (line.new.items ≡ []) }
    ensures err { OnErr result (GainsFront (W.contents (watched_inner writer.old))
        (W.contents (watched_inner writer.new)) (waiting outbox.old)) }
    ensures failed { FailedEnds result false (has_failed writer.new) }
    ensures memory { IfErr result (λ fault. fault ≡ Memory → Appends (W.contents (watched_inner writer.old))
        (W.contents (watched_inner writer.new)) (waiting outbox.old)) }
{
    if line.is_empty() {
        return answer_line(tail, outbox, writer);
    }
    if line.extend_from_slice(tail).is_err() {
        return refuse(outbox, writer);
    }
    answer_line(line.as_slice(), outbox, writer)?;
    line.clear();
    Ok(())
}

// Writes all that waits, since memory was refused.
fn refuse<W: Write>(outbox: &mut Outbox, writer: &mut Watched<W>) -> Result<(), RunError>
    requires { has_failed writer.old ≡ false }
    ensures refused { IsErr result }
    ensures front { GainsFront (W.contents (watched_inner writer.old))
        (W.contents (watched_inner writer.new)) (waiting outbox.old) }
    ensures failed { FailedEnds result false (has_failed writer.new) }
    ensures memory { IfErr result (λ fault. fault ≡ Memory → Appends (W.contents (watched_inner writer.old))
        (W.contents (watched_inner writer.new)) (waiting outbox.old)) }
{
    write_out(outbox, writer)?;
    Err(RunError::Memory)
}

// Puts the answer to `line` behind what waits.
fn answer_line<W: Write>(
    line: &[u8],
    outbox: &mut Outbox,
    writer: &mut Watched<W>,
) -> Result<(), RunError>
    requires { has_failed writer.old ≡ false }
    ensures ok { OnOk result (TakesFront (W.contents (watched_inner writer.old))
        (W.contents (watched_inner writer.new)) (waiting outbox.old ++ (answer_of line.now ++ 10 ∷ []))
        (waiting outbox.new)) }
    ensures err { OnErr result (GainsFront (W.contents (watched_inner writer.old))
        (W.contents (watched_inner writer.new)) (waiting outbox.old)) }
    ensures failed { FailedWriter result (has_failed writer.new) }
{
    outbox.push_line(answer(line).as_bytes(), writer)
}

// Answers the last line, if it has a byte, and writes all that waits.
fn finish<W: Write>(
    line: &[u8],
    outbox: &mut Outbox,
    writer: &mut Watched<W>,
) -> Result<(), RunError>
    requires line { IsLine line.now }
    requires writer { has_failed writer.old ≡ false }
    ensures ok { OnOk result (Appends (W.contents (watched_inner writer.old))
        (W.contents (watched_inner writer.new)) (waiting outbox.old ++ answers line.now)) }
    ensures err { OnErr result (GainsFront (W.contents (watched_inner writer.old))
        (W.contents (watched_inner writer.new)) (waiting outbox.old ++ answers line.now)) }
    ensures failed { FailedWriter result (has_failed writer.new) }
{
    if line.is_empty() {
        return write_out(outbox, writer);
    }
    answer_line(line, outbox, writer)?;
    write_out(outbox, writer)
}

// Writes all that waits, and flushes the writer.
fn write_out<W: Write>(outbox: &mut Outbox, writer: &mut Watched<W>) -> Result<(), RunError>
    requires { has_failed writer.old ≡ false }
    ensures ok { OnOk result (Appends (W.contents (watched_inner writer.old))
        (W.contents (watched_inner writer.new)) (waiting outbox.old)) }
    ensures err { OnErr result (GainsFront (W.contents (watched_inner writer.old))
        (W.contents (watched_inner writer.new)) (waiting outbox.old)) }
    ensures failed { FailedWriter result (has_failed writer.new) }
{
    outbox.write_to(writer)?;
    match writer.flush() {
        Ok(()) => Ok(()),
        Err(_) => Err(RunError::Write),
    }
}
