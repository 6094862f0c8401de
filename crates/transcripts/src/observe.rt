// Transcripts, and the values that they observe.
ghost use Rattle.std.specs.Prelude.{◌≡◌, false, true, Bool, OnErr, OnOk};
ghost use Rattle.transcripts.specs.GuardedAnswers.{GuardedAnswer};
ghost use Rattle.transcripts.specs.Lists.{BeginsInTurn, InTurn};
ghost use Rattle.transcripts.specs.States.{LeadsByState};

use crate::error::ChallengerError;

/// A transcript. It has one state, which changes with what is observed and sampled. A call that is refused memory returns `Memory`,
/// and the transcript has failed from then on: every later call returns `Failed`, and changes nothing. A call that takes memory of
/// its own as well, as `sample_vec`, says what it leaves where that is refused.
pub trait Transcript {
    // The states.
    ghost State: { Type 0 };

    // The state of a transcript.
    ghost state: { Self → State };

    // Whether a call has failed.
    ghost has_failed: { Self → Bool };

    // Whether what the transcript depends on has refused memory. Where it has, the transcript has failed.
    ghost has_refused: { Self → Bool };

    /// Whether a call has failed.
    fn failed(&self) -> bool
        ensures { result ≡ has_failed self.now };

    ghost refused_law: { (transcript : Self) → has_failed transcript ≡ false → has_refused transcript ≡ false };
}

/// A transcript that observes values of the type `T`. Its state then depends on the value and the state before alone.
pub trait CanObserve<T>: Transcript {
    // Whether observing the value may lead from the first transcript to the second.
    ghost observes: { Self → T → Self → Type 0 };

    // Whether a call that fails may leave the second transcript of the first.
    ghost may_leave: { Self → Self → Type 0 };

    /// Observes a value. It fails with `Memory` if memory was refused, and with `Failed` if an earlier call had failed.
    fn observe(&mut self, value: T) -> Result<(), ChallengerError>
        ensures ok { OnOk result (observes self.old value self.new) }
        ensures err { OnErr result (may_leave self.old self.new) }
        ensures kept { Self.has_failed self.old ≡ true → self.new ≡ self.old }
        ensures answer { GuardedAnswer (Self.has_failed self.old) (Self.has_failed self.new) (Self.has_refused self.new) result };

    ghost may_stay: { (transcript : Self) → may_leave transcript transcript };

    ghost observes_law: { (value : T) → LeadsByState Self.state (λ old new. observes old value new) };

    /// Observes the values in order, as so many calls of `observe` do. It fails with `Memory` at the first value for which memory was
    /// refused; the values before it are then observed. It fails with `Failed` if an earlier call had failed.
    final fn observe_slice(&mut self, values: &[T]) -> Result<(), ChallengerError>
    where
        T: Copy,
        ensures ok { OnOk result (InTurn observes values.now self.old self.new) }
        ensures err { Self.has_failed self.old ≡ false → OnErr result (BeginsInTurn observes may_leave values.now self.old self.new) }
        ensures kept { Self.has_failed self.old ≡ true → self.new ≡ self.old }
        ensures answer { GuardedAnswer (Self.has_failed self.old) (Self.has_failed self.new) (Self.has_refused self.new) result }
    {
        if self.failed() {
            return Err(ChallengerError::Failed);
        }
        'values: for index in 0..values.len() {
            self.observe(values[index])?;
        }
        Ok(())
    }
}
