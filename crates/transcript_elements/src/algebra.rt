// Elements of extensions that are observed and sampled, coefficient by coefficient.
ghost use Rattle.std.specs.Prelude.{◌≡◌, ◌<◌, ◌*◌, ◌^◌, ℕ, true, IfOk, OnOk};
ghost use Rattle.transcripts.specs.ByteCalls.{after, observing};
ghost use Rattle.transcripts.specs.GuardedAnswers.{GuardedAnswer};
ghost use Rattle.transcript_elements.specs.Challengers.{state_after, state_of};
ghost use Rattle.transcripts.specs.Lists.{InTurn};
ghost use Rattle.transcript_elements.specs.Sampled.{coefficient_bytes, SamplesCoefficients};
ghost use Rattle.transcript_elements.specs.lemmas.State.{same_samples};
ghost use Rattle.transcripts.specs.lemmas.State.{same_value};
ghost use Rattle.transcripts.specs.States.{GivesByState, LeadsByState};

use crate::byte_level::ByteLevel;
use crate::challenger::BinaryChallenger;
use field_base::traits::PrimeCharacteristicRing;
use field_space::BasedVectorSpace;
use transcripts::{
    ByteChallenger, CanObserve, CanSample, CanSampleBits, ChallengerError, Transcript,
};

/// A transcript that observes and samples elements of the field `F`, and of the algebras over it coefficient by coefficient.
pub trait FieldChallenger<F: PrimeCharacteristicRing>: CanObserve<F>
    + CanSample<F>
    + CanSampleBits<usize> {
    // Whether observing an element of so many coefficients, by its representation, may lead from the first transcript to the second.
    ghost observes_algebra: { Self → ℕ → ℕ → Self → Type 0 };

    // Whether sampling so many coefficients may give the representation, and lead from the first transcript to the second.
    ghost gives_algebra: { Self → ℕ → ℕ → Self → Type 0 };

    /// Observes the coefficients, the lowest first. It fails with `Memory` if memory was refused, and with `Failed` if an earlier
    /// call had failed.
    fn observe_algebra_element<E: BasedVectorSpace<F>>(
        &mut self,
        element: E,
    ) -> Result<(), ChallengerError>
        ensures ok { OnOk result (observes_algebra self.old E.DIMENSION (E.repr element) self.new) }
        ensures kept { Self.has_failed self.old ≡ true → self.new ≡ self.old }
        ensures answer { GuardedAnswer (Self.has_failed self.old) (Self.has_failed self.new) (Self.has_refused self.new) result };

    /// Samples the coefficients, the lowest first. It fails with `Memory` if memory was refused, and with `Failed` if an earlier
    /// call had failed.
    fn sample_algebra_element<E: BasedVectorSpace<F>>(&mut self) -> Result<E, ChallengerError>
        ensures ok { IfOk result (λ element. gives_algebra self.old E.DIMENSION (E.repr element) self.new) }
        ensures kept { Self.has_failed self.old ≡ true → self.new ≡ self.old }
        ensures answer { GuardedAnswer (Self.has_failed self.old) (Self.has_failed self.new) (Self.has_refused self.new) result };

    ghost observes_algebra_law: { (n x : ℕ) → LeadsByState Self.state (λ old new. observes_algebra old n x new) };

    // Of representations that fit in so many coefficients.
    ghost gives_algebra_law: { (n : ℕ) → GivesByState Self.state
        (λ (old : Self) (x : ℕ) (new : Self). (x < 2 ^ (F.width * n)) × gives_algebra old n x new) };

    /// Observes the elements in order, as so many calls of `observe_algebra_element` do. It fails with `Memory` if memory was
    /// refused, and with `Failed` if an earlier call had failed.
    final fn observe_algebra_slice<E: BasedVectorSpace<F>>(
        &mut self,
        elements: &[E],
    ) -> Result<(), ChallengerError>
        ensures ok { OnOk result (InTurn (λ old element new. observes_algebra old E.DIMENSION (E.repr element) new)
            elements.now self.old self.new) }
        ensures kept { Self.has_failed self.old ≡ true → self.new ≡ self.old }
        ensures answer { GuardedAnswer (Self.has_failed self.old) (Self.has_failed self.new) (Self.has_refused self.new) result }
    {
        if self.failed() {
            return Err(ChallengerError::Failed);
        }
        'elements: for index in 0..elements.len() {
            self.observe_algebra_element(elements[index])?;
        }
        Ok(())
    }
}

impl<F: ByteLevel + BasedVectorSpace<F>, Inner: ByteChallenger> FieldChallenger<F>
    for BinaryChallenger<F, Inner> {
    ghost observes_algebra = { λ old n x new. state_of new ≡ state_after (observing (coefficient_bytes F.NUM_BYTES F.width n x)) old };

    ghost gives_algebra = { λ old n x new. SamplesCoefficients Inner.transitions F.NUM_BYTES F.width n (state_of old) x (state_of new) };

    ghost observes_algebra_law = { λ n x old new other_old other_new same is are.
        same_value (after Inner.transitions (observing (coefficient_bytes F.NUM_BYTES F.width n x))) _ _ _ _ same is are };

    ghost gives_algebra_law = { λ n old new other_old other_new x y same is are.
        same_samples Inner.transitions F.NUM_BYTES F.width n _ _ _ _ x y is.0 are.0 same is.1 are.1 };

    fn observe_algebra_element<E: BasedVectorSpace<F>>(
        &mut self,
        element: E,
    ) -> Result<(), ChallengerError> {
        if self.guarded.failed() {
            return Err(ChallengerError::Failed);
        }
        'coefficients: for i in 0..E::DIMENSION {
            self.observe_element(element.basis_coefficient(i))?;
        }
        Ok(())
    }

    fn sample_algebra_element<E: BasedVectorSpace<F>>(&mut self) -> Result<E, ChallengerError> {
        self.sample()
    }
}
