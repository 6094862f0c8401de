// A byte challenger that is not used again once a call was refused.
ghost use Rattle.std.specs.Prelude.{◌≡◌, ℕ, false, true, length, Err, IfOk, Ok, OnErr, OnOk};
ghost use Rattle.transcripts.specs.ByteCalls.{observing, sampling, squeezed, squeezed_word};
ghost use Rattle.transcripts.specs.GuardedAnswers.{GuardedAnswer};
ghost use Rattle.transcripts.specs.declared.error.ChallengerError.TheVariants.{Memory};

use crate::byte_challenger::ByteChallenger;
use crate::byte_runs::{observe_bytes, sample_bytes, sample_u64};
use crate::error::ChallengerError;
use std::alloc::AllocError;

/// A byte challenger that is not used again once a call was refused: that call returns `Memory`, and every later one `Failed`, and
/// changes nothing. So no state that an unfinished call left is ever read.
#[derive(Drop)]
pub struct Guarded<C: ByteChallenger> {
    inner: C,
    has_failed: bool,
    ghost fails_if_refused: { has_failed ≡ false → C.has_refused inner ≡ false },
}

impl<C: ByteChallenger> Guarded<C> {
    ghost use Rattle.transcripts.specs.Guarded.{guarded_after, guarded_failed, guarded_inner, guarded_refused, guarded_state};
    ghost use Rattle.transcripts.specs.Guarded.{RunsPartly};

    /// Guards `inner`, which has not refused. No call has failed yet.
    pub fn new(inner: C) -> Guarded<C>
        requires { C.has_refused inner ≡ false }
        ensures inner { guarded_inner result ≡ inner }
        ensures failed { guarded_failed result ≡ false }
    {
        Guarded {
            inner,
            has_failed: false,
        }
    }

    /// Whether a call has failed.
    pub fn failed(&self) -> bool
        ensures { result ≡ guarded_failed self.now }
    {
        self.has_failed
    }

    /// Marks this challenger as failed, for a caller that was refused memory itself.
    pub fn fail(&mut self)
        ensures inner { guarded_inner self.new ≡ guarded_inner self.old }
        ensures failed { guarded_failed self.new ≡ true }
    {
        self.has_failed = true;
    }

    /// Observes the bytes in order. After a refusal the bytes before the refused one are observed.
    pub fn observe_bytes(&mut self, bytes: &[u8]) -> Result<(), ChallengerError>
        ensures ok { OnOk result (guarded_state self.new ≡ guarded_after (observing bytes.now) self.old) }
        ensures answer { GuardedAnswer (guarded_failed self.old) (guarded_failed self.new) (guarded_refused self.new) result }
        ensures kept { guarded_failed self.old ≡ true → self.new ≡ self.old }
        ensures err { guarded_failed self.old ≡ false → OnErr result (RunsPartly (observing bytes.now) self.old self.new) }
    {
        if self.has_failed {
            return Err(ChallengerError::Failed);
        }
        remembered(observe_bytes(&mut self.inner, bytes), &mut self.has_failed)
    }

    /// Fills `bytes` with samples, in order. After a refusal the bytes before the refused one are sampled, and what `bytes` holds is
    /// left open.
    pub fn sample_bytes(&mut self, bytes: &mut [u8]) -> Result<(), ChallengerError>
        ensures ok { OnOk result (guarded_state self.new ≡ guarded_after (sampling (length bytes.old)) self.old) }
        ensures bytes { OnOk result (bytes.new ≡ squeezed C.transitions (sampling (length bytes.old)) (guarded_state self.old)) }
        ensures answer { GuardedAnswer (guarded_failed self.old) (guarded_failed self.new) (guarded_refused self.new) result }
        ensures kept { guarded_failed self.old ≡ true → self.new ≡ self.old }
        ensures err { guarded_failed self.old ≡ false → OnErr result (RunsPartly (sampling (length bytes.old)) self.old self.new) }
    {
        if self.has_failed {
            return Err(ChallengerError::Failed);
        }
        remembered(sample_bytes(&mut self.inner, bytes), &mut self.has_failed)
    }

    /// Samples eight bytes and reads them as a number, lowest byte first. After a refusal the bytes before the refused one are sampled.
    pub fn sample_u64(&mut self) -> Result<u64, ChallengerError>
        ensures ok { OnOk result (guarded_state self.new ≡ guarded_after (sampling 8) self.old) }
        ensures word { IfOk result (λ word. word ≡ squeezed_word C.transitions (sampling 8) (guarded_state self.old)) }
        ensures answer { GuardedAnswer (guarded_failed self.old) (guarded_failed self.new) (guarded_refused self.new) result }
        ensures kept { guarded_failed self.old ≡ true → self.new ≡ self.old }
        ensures err { guarded_failed self.old ≡ false → OnErr result (RunsPartly (sampling 8) self.old self.new) }
    {
        if self.has_failed {
            return Err(ChallengerError::Failed);
        }
        remembered(sample_u64(&mut self.inner), &mut self.has_failed)
    }

    /// A copy with the same state, which has failed if and only if this one has, over a byte challenger that has not refused. It
    /// fails if memory was refused.
    pub fn try_clone(&self) -> Result<Guarded<C>, AllocError>
        ensures state { IfOk result (λ copy. guarded_state copy ≡ guarded_state self.now) }
        ensures failed { IfOk result (λ copy. guarded_failed copy ≡ guarded_failed self.now) }
        ensures fresh { IfOk result (λ copy. guarded_refused copy ≡ false) }
    {
        Ok(Guarded {
            inner: self.inner.try_clone()?,
            has_failed: self.has_failed,
        })
    }
}

// The result of a call of the byte challenger below. A refusal is reported as `Memory` and remembered.
#[inline]
fn remembered<T>(answer: Result<T, AllocError>, has_failed: &mut bool) -> Result<T, ChallengerError>
    ensures ok { IfOk answer (λ value. result ≡ Ok value) }
    ensures kept { OnOk answer (has_failed.new ≡ has_failed.old) }
    ensures err { OnErr answer (result ≡ Err Memory) }
    ensures failed { OnErr answer (has_failed.new ≡ true) }
{
    match answer {
        Ok(value) => Ok(value),
        Err(_) => {
            *has_failed = true;
            Err(ChallengerError::Memory)
        }
    }
}
