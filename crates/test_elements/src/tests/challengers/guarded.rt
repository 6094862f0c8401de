// Doubles that refuse the third or the fifth byte call, or a copy, at calls of bytes and of words. A refused byte call gets `Memory`; from
// then on the guarded challenger, and a copy of it, say `Failed`, and the double sees no call. After a refused copy it goes on. And the
// printed texts of the errors.
use crate::{Copies, Double, Seen};
use std::alloc::Allocator;
use std::cell::Cell;
use std::test::Fail;
use transcripts::{ByteChallenger, ChallengerError, Guarded, observe_bytes, sample_u64};

/// Whether a call returned that memory was refused.
fn is_refused<T: Drop>(answer: Result<T, ChallengerError>) -> bool {
    matches!(answer, Err(ChallengerError::Memory))
}

/// Whether a call returned that the challenger had failed.
fn is_failed<T: Drop>(answer: Result<T, ChallengerError>) -> bool {
    matches!(answer, Err(ChallengerError::Failed))
}

/// Whether each call returns that the challenger has failed.
fn only_fails(guarded: &mut Guarded<Double<'_>>) -> bool {
    let mut bytes = [0; 2];
    guarded.failed()
        && is_failed(guarded.observe_bytes(&[]))
        && is_failed(guarded.observe_bytes(&[1]))
        && is_failed(guarded.sample_bytes(&mut bytes))
        && is_failed(guarded.sample_u64())
        && bytes[0] == 0
        && bytes[1] == 0
}

// The third byte call is refused; the ones after it would be granted.
fn third_call_refused() -> bool {
    let seen = Cell::new(Seen::default());
    let double = Double::new(&seen, 5, 2, Copies::RefusingAfter(9));
    let mut guarded = Guarded::new(double);
    let answer = guarded.observe_bytes(&[1, 2, 3, 4]);
    is_refused(answer) && only_fails(&mut guarded) && seen.get().is(2, 0, 0x0102)
}

fn fifth_call_refused() -> bool {
    let seen = Cell::new(Seen::default());
    let double = Double::new(&seen, 5, 4, Copies::RefusingAfter(9));
    let mut guarded = Guarded::new(double);
    let answer = guarded.sample_u64();
    is_refused(answer) && only_fails(&mut guarded) && seen.get().is(0, 4, 0)
}

// A copy of a challenger that has failed has failed, and one that is made to fail has.
fn copies_fail_alike() -> bool {
    let seen = Cell::new(Seen::default());
    let mut guarded = Guarded::new(Double::new(&seen, 5, 0, Copies::RefusingAfter(9)));
    let mut bytes = [0; 2];
    let before = match guarded.try_clone() {
        Ok(mut copy) => {
            let goes_on = !copy.failed() && copy.sample_bytes(&mut bytes).is_ok();
            copy.fail();
            goes_on && only_fails(&mut copy)
        }
        Err(_) => false,
    };
    let answer = guarded.sample_bytes(&mut [0]);
    let after = match guarded.try_clone() {
        Ok(mut copy) => only_fails(&mut copy),
        Err(_) => false,
    };
    before
        && is_refused(answer)
        && after
        && bytes[0] == 5
        && bytes[1] == 5
        && seen.get().is(0, 2, 0)
}

// Where a copy is refused, the challenger goes on.
fn refused_copies_change_nothing() -> bool {
    let seen = Cell::new(Seen::default());
    let mut guarded = Guarded::new(Double::new(&seen, 255, 8, Copies::Refused));
    guarded.try_clone().is_err()
        && matches!(guarded.sample_u64(), Ok(u64::MAX))
        && is_refused(guarded.sample_u64())
        && seen.get().is(0, 8, 0)
}

#[test]
fn nothing_is_called_after_a_refusal(rt: HostRuntime) -> Result<(), Fail> {
    assert!(rt;
        third_call_refused()
            && fifth_call_refused()
            && copies_fail_alike()
            && refused_copies_change_nothing()
    );
    Ok(())
}

fn samples_word(double: &mut Double<'_>, wanted: u64) -> bool {
    match sample_u64(double) {
        Ok(word) => word == wanted,
        Err(_) => false,
    }
}

// Helpers stop at the call that is refused, which the challenger remembers.
fn helpers_stop() -> bool {
    let seen = Cell::new(Seen::default());
    let mut double = Double::new(&seen, 0, 10, Copies::Refused);
    let observed = observe_bytes(&mut double, &[8, 9]).is_ok();
    let sampled = samples_word(&mut double, 0);
    let before = double.refused();
    let refused = observe_bytes(&mut double, &[8, 9]).is_err();
    observed && sampled && !before && refused && double.refused() && seen.get().is(2, 8, 0x0809)
}

#[test]
fn helpers_stop_at_a_refusal(rt: HostRuntime) {
    assert!(rt; helpers_stop());
}

/// Printed text: whether `{}` prints `text` of the error.
fn reads<A: Allocator>(alloc: A, error: ChallengerError, text: &str) -> Result<bool, Fail> {
    let printed = format!(in alloc; "{error}")?;
    Ok(printed.as_str() == text)
}

#[test]
fn errors_read_as_sentences(rt: HostRuntime) -> Result<(), Fail> {
    assert!(rt; reads(rt.alloc(), ChallengerError::Memory, "out of memory")?);
    assert!(rt;
        reads(
            rt.alloc(),
            ChallengerError::Failed,
            "the challenger has failed"
        )?
    );
    Ok(())
}
