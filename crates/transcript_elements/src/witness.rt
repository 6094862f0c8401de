// Witnesses of work: elements such that the bits sampled after them are 0.
ghost use Rattle.std.specs.Prelude.{◌≡◌, ◌<◌, false, true, IfErr, IfOk, Ok, OnErr, OnOk};
ghost use Rattle.std.proofs.Common.{ap};
ghost use Rattle.transcripts.specs.ByteCalls.{after};
ghost use Rattle.transcripts.specs.Grinding.{candidate_count, FailsSearch, IsLeastPassing};
ghost use Rattle.transcripts.specs.GuardedAnswers.{GuardedAnswer};
ghost use Rattle.transcripts.specs.lemmas.State.{same_value};
ghost use Rattle.transcript_elements.specs.Challengers.{challenger_failed, challenger_refused, state_after, state_of, StopsWithin};
ghost use Rattle.transcript_elements.specs.Sampled.{challenger_passes, check_calls, passes};

use crate::byte_level::ByteLevel;
use crate::challenger::BinaryChallenger;
use field_base::traits::{Field, PrimeCharacteristicRing};
use transcripts::{ByteChallenger, ChallengerError, GrindError, GrindingChallenger};

impl<F: ByteLevel, Inner: ByteChallenger> GrindingChallenger for BinaryChallenger<F, Inner> {
    type Witness = F;

    ghost witness_bits = { F.width };

    ghost number = { λ witness. F.repr witness };

    ghost passing = { λ challenger bits number. challenger_passes F.NUM_BYTES bits challenger number };

    ghost checks = { λ old bits number new. state_of new ≡ state_after (check_calls F.NUM_BYTES bits number) old };

    ghost passing_law = { λ one other bits number same. ap (λ state. passes Inner.transitions F.NUM_BYTES bits state number) same };

    ghost checks_law = { λ bits number old new other_old other_new same is are.
        same_value (after Inner.transitions (check_calls F.NUM_BYTES bits number)) _ _ _ _ same is are };

    fn grind(&mut self, bits: usize) -> Result<F, GrindError> {
        if self.guarded.failed() {
            return Err(GrindError::Failed);
        }
        if bits == 0 {
            return Ok(F::ZERO);
        }
        let (witness, checked) = self.first_passing(bits)?;
        *self = checked;
        Ok(witness)
    }

    fn check_witness(&mut self, bits: usize, witness: F) -> Result<bool, ChallengerError> {
        self.check(bits, witness)
    }
}

// How many candidates are tried.
fn candidate_count<F: Field>() -> usize
    ensures { result ≡ candidate_count F.width }
{
    let bits = F::bits();
    if bits < 64 { 1 << bits } else { usize::MAX }
}

impl<F: ByteLevel, Inner: ByteChallenger> BinaryChallenger<F, Inner> {
    // Observes the witness, samples `bits` bits, at most 63, and returns whether they are 0. For 0 bits it returns true.
    pub(crate) fn check(&mut self, bits: usize, witness: F) -> Result<bool, ChallengerError>
        requires { bits < 64 }
        ensures passed { IfOk result (λ passed. passed ≡ challenger_passes F.NUM_BYTES bits self.old (F.repr witness)) }
        ensures state { OnOk result (state_of self.new ≡ state_after (check_calls F.NUM_BYTES bits (F.repr witness)) self.old) }
        ensures none { bits ≡ 0 → challenger_failed self.old ≡ false → result ≡ Ok true }
        ensures answer { GuardedAnswer (challenger_failed self.old) (challenger_failed self.new) (challenger_refused self.new) result }
        ensures kept { challenger_failed self.old ≡ true → self.new ≡ self.old }
        ensures err { challenger_failed self.old ≡ false
            → OnErr result (StopsWithin (check_calls F.NUM_BYTES bits (F.repr witness)) self.old self.new) }
    {
        if self.guarded.failed() {
            return Err(ChallengerError::Failed);
        }
        if bits == 0 {
            return Ok(true);
        }
        self.observe_element(witness)?;
        Ok(self.sample_low_bits(bits)? == 0)
    }

    // The first candidate that passes, and the copy on which it was checked.
    fn first_passing(&self, bits: usize) -> Result<(F, BinaryChallenger<F, Inner>), GrindError>
        requires range { bits < 64 }
        requires goes_on { challenger_failed self.now ≡ false }
        ensures least { IfOk result (λ found. IsLeastPassing (challenger_passes F.NUM_BYTES bits self.now) F.width (F.repr found.0)) }
        ensures state { IfOk result (λ found. state_of found.1 ≡ state_after (check_calls F.NUM_BYTES bits (F.repr found.0)) self.now) }
        ensures goes_on { IfOk result (λ found. challenger_failed found.1 ≡ false) }
        ensures err { IfErr result (FailsSearch (challenger_passes F.NUM_BYTES bits self.now) F.width) }
    {
        'candidates: for number in 0..candidate_count::<F>() {
            let witness = F::interpolation_node(number);
            let mut copy = self.try_clone()?;
            if copy.check(bits, witness)? {
                return Ok((witness, copy));
            }
        }
        Err(GrindError::NoWitness)
    }
}
