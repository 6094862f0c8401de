// Calls over lines of text.
// Written by scripts/make_c_exports.py; do not edit.
ghost use Rattle.c_calls.specs.Lines.{AnswersLine};

/// Writes to the front of answer what the program binfield answers to the line, as 41 to t8 mul 10 10, without a line feed; written is how
/// many bytes that is, at most 48, and the bytes of answer behind them stay.
#[unsafe(no_mangle)]
pub extern "C" fn bf_answer(line: &[u8], answer: &mut [u8], written: &mut u64) -> u32
    ensures { AnswersLine line.now answer.old written.old answer.new written.new result }
{
    c_calls::answer_line(line, answer, written)
}
