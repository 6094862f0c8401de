// Runs over readers and writers that give and take little, and fail. A reader or a writer of 1, 2, 3 or 13 bytes a call: all answers,
// whole. A reader that fails in the second line, interrupted: `Read`, once, behind a beginning of the first answer. A writer that fails, or
// takes no byte, after 0 to 7: `Write`, once. A flush that fails: `Write`; it is not tried again. A line of 100,000 spaces: its error. That
// a flush is passed on, the contract of `Watched` lets through.
ghost use Rattle.std.specs.Prelude.{◌≡◌, IfOk};
ghost use Rattle.calculator.specs.Lines.{answers};

use super::ends::{Sink, Source, run_over};
use super::repeated;
use calculator::{RunError, Watched, run};
use std::alloc::Global;
use std::io::{Read, Write};
use std::test::Fail;

/// The most bytes that a call gives or takes.
static STEPS: [usize; 5] = [1, 2, 3, 13, usize::MAX];

/// Inputs, and what a run over each writes.
static INPUTS: [(&[u8], &[u8]); 4] = [
    (b"t8 mul 10 10\n\nt8 inv 00", b"41\nerror 1\nnone\n"),
    (b"t8 mul 10 10\n\nt8 inv 00\n", b"41\nerror 1\nnone\n"),
    (b"", b""),
    (b"\n\n", b"error 1\nerror 1\n"),
];

/// Whether a run over `input` writes `want` where a read gives and a write takes at most `step` bytes.
fn is_answered_by_steps(alloc: Global, input: &[u8], want: &[u8], step: usize) -> bool {
    let all = usize::MAX;
    run_over(alloc, Source::new(input, step), Sink::new(alloc, all)).is_ok(want)
        && run_over(alloc, Source::new(input, all), Sink::new(alloc, step)).is_ok(want)
}

/// What a run over `input` writes, which a caller over memory learns from the contract of `run`.
fn answered(alloc: Global, input: &[u8]) -> Result<Vec<u8>, RunError>
    ensures { IfOk result (λ bytes. bytes.items ≡ answers input.now) }
{
    let mut reader = Watched::new(input);
    let mut writer = Watched::new(Vec::new(alloc));
    run(alloc, &mut reader, &mut writer)?;
    Ok(writer.into_inner())
}

#[test]
fn a_run_over_memory_is_granted(rt: HostRuntime) {
    for (input, _) in &INPUTS {
        assert!(rt; answered(rt.alloc(), *input).is_ok());
    }
}

#[test]
fn whole_answers_whatever_the_steps(rt: HostRuntime) {
    for (input, want) in &INPUTS {
        for step in &STEPS {
            assert!(rt;
                is_answered_by_steps(rt.alloc(), *input, *want, *step),
                "{step} bytes a call"
            );
        }
    }
}

#[test]
fn a_long_line_and_many_lines(rt: HostRuntime) -> Result<(), Fail> {
    let long = repeated(rt.alloc(), b"", b" ", 100_000, b"")?;
    let input = repeated(rt.alloc(), b"", b"t8 mul 10 10\n", 3000, long.as_slice())?;
    let want = repeated(rt.alloc(), b"", b"41\n", 3000, b"error 1\n")?;
    assert!(rt; is_answered_by_steps(rt.alloc(), input.as_slice(), want.as_slice(), usize::MAX));
    Ok(())
}

/// Whether a reader that fails after `step` bytes a call in the second line ends the run.
fn failing_reader_ends_the_run(alloc: Global, step: usize) -> bool {
    let source = Source::failing(b"t8 mul 10 10\nt8 in", step);
    run_over(alloc, source, Sink::new(alloc, usize::MAX)).is_unread(b"41\n")
}

#[test]
fn a_reader_that_fails_in_the_second_line(rt: HostRuntime) {
    for step in &STEPS {
        assert!(rt;
            failing_reader_ends_the_run(rt.alloc(), *step),
            "{step} bytes a call"
        );
    }
}

/// Whether a writer that fails, or takes none, after `room` bytes ends the run and is not tried again.
fn full_writer_ends_the_run(alloc: Global, room: usize, takes_none: bool) -> bool {
    let source = Source::new(b"t8 mul 10 10\nt8 inv 00", usize::MAX);
    let after = run_over(alloc, source, Sink::with_room(alloc, room, takes_none));
    after.is_unwritten(b"41\nnone\n") && after.written.len() == room && after.refusals == 1
}

#[test]
fn a_writer_that_fails_or_takes_none(rt: HostRuntime) {
    for room in 0..8usize {
        assert!(rt;
            full_writer_ends_the_run(rt.alloc(), room, false)
                && full_writer_ends_the_run(rt.alloc(), room, true),
            "after {room} bytes"
        );
    }
}

// The flush that fails is not tried again.
#[test]
fn a_writer_that_does_not_flush(rt: HostRuntime) {
    let sink = Sink::without_flush(rt.alloc());
    let after = run_over(rt.alloc(), Source::new(b"t8 inv 00", 1), sink);
    assert!(rt; after.is_unwritten(b"none\n") && after.flushes == 1);
}

#[test]
fn a_watched_reader_fails_with_its_inner_reader(rt: HostRuntime) -> Result<(), Fail> {
    let mut reader = Watched::new(Source::failing(b"a", 1));
    let mut buf = [0; 4];
    assert!(rt; reader.read(&mut buf)? == 1 && !reader.failed());
    assert!(rt; reader.read(&mut buf).is_err() && reader.failed());
    Ok(())
}

#[test]
fn a_watched_writer_fails_with_its_inner_writer(rt: HostRuntime) -> Result<(), Fail> {
    let mut writer = Watched::new(Sink::with_room(rt.alloc(), 1, true));
    assert!(rt; writer.write(b"")? == 0 && writer.write(b"ab")? == 1 && writer.write(b"")? == 0);
    writer.flush()?;
    assert!(rt; !writer.failed());
    assert!(rt; writer.write(b"b").is_err() && writer.failed());
    Ok(())
}
