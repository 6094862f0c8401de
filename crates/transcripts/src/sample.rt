// Values that are sampled, one or many.
ghost use Rattle.std.specs.Prelude.{◌≡◌, false, length, true, Err, IfErr, IfOk, OnErr, OnOk};
ghost use Rattle.transcripts.specs.GuardedAnswers.{GuardedAnswer};
ghost use Rattle.transcripts.specs.Lists.{InTurn};
ghost use Rattle.transcripts.specs.States.{GivesByState};
ghost use Rattle.transcripts.specs.declared.error.ChallengerError.TheVariants.{Failed, Memory};

use crate::error::ChallengerError;
use crate::observe::Transcript;
use std::alloc::Allocator;

/// A transcript from which values of the type `T` are sampled. The value and the state after it depend on the state before alone.
pub trait CanSample<T>: Transcript {
    // Whether sampling may give the value, and lead from the first transcript to the second.
    ghost gives: { Self → T → Self → Type 0 };

    /// Samples a value. It fails with `Memory` if memory was refused, and with `Failed` if an earlier call had failed.
    fn sample(&mut self) -> Result<T, ChallengerError>
        ensures ok { IfOk result (λ value. gives self.old value self.new) }
        ensures kept { Self.has_failed self.old ≡ true → self.new ≡ self.old }
        ensures answer { GuardedAnswer (Self.has_failed self.old) (Self.has_failed self.new) (Self.has_refused self.new) result };

    ghost gives_law: { GivesByState Self.state gives };

    /// Samples `count` values, in order, into a vector from `alloc`, whose room is taken before the first sample.
    ///
    /// It fails with `Memory` if memory was refused to the vector; the transcript is then as before, and has not failed. It fails
    /// with `Memory` also if memory was refused to a sample; the transcript has then failed. It fails with `Failed` if an earlier
    /// call had failed.
    final fn sample_vec<A: Allocator>(
        &mut self,
        alloc: A,
        count: usize,
    ) -> Result<Vec<T, A>, ChallengerError>
    where
        T: Drop,
        ensures count { IfOk result (λ values. length values.items ≡ count) }
        ensures ok { IfOk result (λ values. InTurn gives values.items self.old self.new) }
        ensures failed { Self.has_failed self.old ≡ true → result ≡ Err Failed }
        ensures kept { Self.has_failed self.old ≡ true → self.new ≡ self.old }
        ensures goes_on { OnOk result (Self.has_failed self.new ≡ false) }
        ensures granted { Self.has_failed self.new ≡ false → Self.has_refused self.new ≡ false }
        ensures memory { Self.has_failed self.old ≡ false → IfErr result (λ error. error ≡ Memory) }
        ensures refused { Self.has_failed self.old ≡ false
            → OnErr result (Self.has_failed self.new ≡ true → Self.has_refused self.new ≡ true) }
        ensures untouched { OnErr result (Self.has_failed self.new ≡ false → self.new ≡ self.old) }
    {
        if self.failed() {
            return Err(ChallengerError::Failed);
        }
        let mut values = Vec::with_capacity(alloc, count)?;
        'values: for _ in 0..count {
            values.push_reserved(self.sample()?);
        }
        Ok(values)
    }
}

/// A transcript from which arrays of `N` values of the type `T` are sampled. Each that samples such values is one.
pub trait SampleArray<T, const N: usize>: CanSample<T> {
    /// Samples `N` values, in order. It takes no memory of its own. It fails with `Memory` if memory was refused to a sample, and
    /// with `Failed` if an earlier call had failed.
    fn sample_array(&mut self) -> Result<[T; N], ChallengerError>
        ensures ok { IfOk result (λ values. InTurn Self.gives values self.old self.new) }
        ensures kept { Self.has_failed self.old ≡ true → self.new ≡ self.old }
        ensures answer { GuardedAnswer (Self.has_failed self.old) (Self.has_failed self.new) (Self.has_refused self.new) result };
}

impl<T: Copy + Default, C: CanSample<T>, const N: usize> SampleArray<T, N> for C {
    fn sample_array(&mut self) -> Result<[T; N], ChallengerError> {
        if self.failed() {
            return Err(ChallengerError::Failed);
        }
        let mut values = [T::default(); N];
        'values: for index in 0..N {
            values[index] = self.sample()?;
        }
        Ok(values)
    }
}
