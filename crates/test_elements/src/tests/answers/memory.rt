// Each growth of a run refused in turn, and success where there is memory, over 0 to 257 lines, and a line of 0 to 257 and of 20,000
// digits. Only a line that continues past a read takes memory, also behind an answer, and a last line without a feed. After `Memory` all
// answers before the line that did not fit are written.
use super::ends::{Sink, Source, run_over};
use super::repeated;
use crate::{Ending, Growing, Rest, is_refused_in_turn};
use linked_list_allocator::LocalHeap;
use std::alloc::{AllocError, Global};
use std::test::Fail;

/// A run over an input of which a read gives at most `step` bytes, and what it writes. Where it is refused it has written at least so
/// many bytes of that.
#[derive(Drop)]
struct Run<'a> {
    alloc: Global,
    input: &'a [u8],
    step: usize,
    want: &'a [u8],
    written: usize,
}

impl Growing for Run<'_> {
    fn run<'a>(&self, heap: &'a LocalHeap, rest: Rest<'a>) -> Result<Ending, AllocError> {
        let source = Source::new(self.input, self.step);
        let after = run_over(heap, source, Sink::new(self.alloc, usize::MAX));
        drop(rest);
        let is_granted = after.is_ok(self.want);
        let is_told = after.is_refused(self.want) && after.written.len() >= self.written;
        Ok(Ending::of(is_granted, is_granted || is_told))
    }
}

/// Inputs, the most bytes of a read, what is written of them, and how many bytes of it before a growth is refused: a line in one
/// read, a line that continues past one, one after an answer, and a last line without a feed after one.
static RUNS: [(&[u8], usize, &[u8], usize); 5] = [
    (b"t8 mul 10 10\nt8 inv 00\n", usize::MAX, b"41\nnone\n", 0),
    (b"t8 mul 10 10\n", 7, b"41\n", 0),
    (b"t8 mul 10 10\nt8 inv 00\n", 13, b"41\nnone\n", 0),
    (
        b"t8 mul 10 10\nt8 add 0000000010 10\n",
        13,
        b"41\nerror 4\n",
        3,
    ),
    (b"t8 mul 10 10\nt8 inv 00", 13, b"41\nnone\n", 3),
];

fn is_refused<'a>(
    alloc: Global,
    row: &(&'a [u8], usize, &'a [u8], usize),
    takes_memory: bool,
) -> bool {
    let (input, step, want, written) = *row;
    let run = Run {
        alloc,
        input,
        step,
        want,
        written,
    };
    is_refused_in_turn(alloc, &run, takes_memory)
}

#[test]
fn a_refused_growth_is_told(rt: HostRuntime) {
    for place in 0..RUNS.len() {
        assert!(rt;
            is_refused(rt.alloc(), &RUNS[place], place != 0 && place != 2),
            "run {place}"
        );
    }
}

/// Whether a line of so many bytes between two others, the last without a feed, is refused in turn.
fn is_long_line_refused(alloc: Global, len: usize) -> Result<bool, AllocError> {
    let input = repeated(alloc, b"t8 mul 10 10\n", b"0", len, b"\nt8 inv 00")?;
    let want: &[u8] = b"41\nerror 1\nnone\n";
    Ok(is_refused(alloc, &(input.as_slice(), usize::MAX, want, 3), true))
}

/// Whether so many lines in short reads are.
fn are_lines_refused(alloc: Global, count: usize) -> Result<bool, AllocError> {
    let lines = repeated(alloc, b"", b"t8 mul 10 10\n", count, b"")?;
    let answers = repeated(alloc, b"", b"41\n", count, b"")?;
    Ok(is_refused(
        alloc,
        &(lines.as_slice(), 5, answers.as_slice(), 0),
        count > 0,
    ))
}

#[test]
fn inputs_of_all_lengths_are_answered(rt: HostRuntime) -> Result<(), Fail> {
    for len in 0..258usize {
        assert!(rt; is_long_line_refused(rt.alloc(), len)?, "{len} bytes");
        assert!(rt; are_lines_refused(rt.alloc(), len)?, "{len} lines");
    }
    assert!(rt; is_long_line_refused(rt.alloc(), 20_000)?);
    Ok(())
}
