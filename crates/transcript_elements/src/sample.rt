// Elements of extensions that are sampled, coefficient by coefficient.
ghost use Rattle.std.specs.Prelude.{◌≡◌};
ghost use Rattle.transcript_elements.specs.Challengers.{state_of};
ghost use Rattle.transcript_elements.specs.Sampled.{SamplesCoefficients};
ghost use Rattle.transcript_elements.specs.lemmas.State.{same_elements};

use crate::byte_level::ByteLevel;
use crate::challenger::BinaryChallenger;
use field_space::BasedVectorSpace;
use transcripts::{ByteChallenger, CanSample, ChallengerError};

impl<F: ByteLevel, Inner: ByteChallenger, E: BasedVectorSpace<F>> CanSample<E>
    for BinaryChallenger<F, Inner> {
    // The bytes of one element of the field for each coefficient are sampled.
    ghost gives = { λ old value new.
        SamplesCoefficients Inner.transitions F.NUM_BYTES F.width E.DIMENSION (state_of old) (E.repr value) (state_of new) };

    ghost gives_law = { λ old new other_old other_new value other same is are.
        same_elements E.repr E.width Inner.transitions F.NUM_BYTES F.width E.DIMENSION _ _ _ _ value other
        E.space_law E.range_law E.same_law same is are };

    fn sample(&mut self) -> Result<E, ChallengerError> {
        if self.guarded.failed() {
            return Err(ChallengerError::Failed);
        }
        let mut element = E::ZERO;
        'coefficients: for i in 0..E::DIMENSION {
            let coefficient = self.sample_element()?;
            element = element.with_basis_coefficient(i, coefficient);
        }
        Ok(element)
    }
}
