// Answers to lines of text.
ghost use Rattle.c_calls.specs.Lines.{AnswersLine};

use crate::status;

/// Writes the answer to a line to the front of `answer`, without a line feed, and how many bytes it has, which are at most 48.
pub fn answer_line(line: &[u8], answer: &mut [u8], written: &mut u64) -> u32
    ensures { AnswersLine line.now answer.old written.old answer.new written.new result }
{
    let found = calculator::answer(line);
    let text = found.as_bytes();
    if text.len() > answer.len() {
        return status::LENGTH;
    }
    answer[..text.len()].copy_from_slice(text);
    *written = text.len() as u64;
    status::OK
}
