// Elements that are observed and sampled, and bits that are sampled.
ghost use Rattle.std.specs.Prelude.{◌≡◌, ◌<◌, ◌≤◌, false, true, IfOk, OnErr, OnOk};
ghost use Rattle.transcripts.specs.ByteCalls.{after, observing, sampling, squeezed};
ghost use Rattle.transcripts.specs.Guarded.{guarded_after, guarded_failed, guarded_refused, guarded_state, RunsPartly};
ghost use Rattle.transcripts.specs.GuardedAnswers.{GuardedAnswer};
ghost use Rattle.field_bytes.specs.Bytes.{low_bytes, number_of_bytes};
ghost use Rattle.transcript_elements.specs.Challengers.{challenger_failed, challenger_refused, state_after, state_of, StopsWithin};
ghost use Rattle.transcript_elements.specs.Sampled.{SamplesBits, squeezed_element};
ghost use Rattle.transcript_elements.specs.lemmas.State.{same_bits};
ghost use Rattle.transcripts.specs.lemmas.State.{same_value};

use crate::byte_level::ByteLevel;
use crate::challenger::BinaryChallenger;
use field_bytes::{MOST_BYTES, number_of_low_first};
use transcripts::{
    ByteChallenger, CanObserve, CanSampleBits, CanSampleUniformBits, ChallengerError, Guarded,
};

impl<F: ByteLevel, Inner: ByteChallenger> CanObserve<F> for BinaryChallenger<F, Inner> {
    ghost observes = { λ old value new. state_of new ≡ state_after (observing (low_bytes F.NUM_BYTES (F.repr value))) old };

    // No later call reads the state that a refused call leaves.
    ghost may_leave = { λ _ _. Unit {0} };

    ghost may_stay = { λ _. tt };

    ghost observes_law = { λ value old new other_old other_new same is are.
        same_value (after Inner.transitions (observing (low_bytes F.NUM_BYTES (F.repr value)))) _ _ _ _ same is are };

    fn observe(&mut self, value: F) -> Result<(), ChallengerError> {
        self.observe_element(value)
    }
}

impl<F: ByteLevel, Inner: ByteChallenger> BinaryChallenger<F, Inner> {
    // Observes the bytes of an element, the lowest first.
    pub(crate) fn observe_element(&mut self, value: F) -> Result<(), ChallengerError>
        ensures state { OnOk result (state_of self.new ≡ state_after (observing (low_bytes F.NUM_BYTES (F.repr value))) self.old) }
        ensures answer { GuardedAnswer (challenger_failed self.old) (challenger_failed self.new) (challenger_refused self.new) result }
        ensures kept { challenger_failed self.old ≡ true → self.new ≡ self.old }
        ensures err { challenger_failed self.old ≡ false
            → OnErr result (StopsWithin (observing (low_bytes F.NUM_BYTES (F.repr value))) self.old self.new) }
    {
        let bytes = value.low_first();
        self.guarded.observe_bytes(&bytes[..F::NUM_BYTES])
    }

    /// Samples the bytes of an element, the lowest first. Bits above the element are dropped. It fails with `Memory` if memory was
    /// refused, and with `Failed` if an earlier call had failed.
    pub fn sample_element(&mut self) -> Result<F, ChallengerError>
        ensures state { OnOk result (state_of self.new ≡ state_after (sampling F.NUM_BYTES) self.old) }
        ensures element { IfOk result (λ x. F.repr x ≡ squeezed_element Inner.transitions F.NUM_BYTES F.width (state_of self.old)) }
        ensures answer { GuardedAnswer (challenger_failed self.old) (challenger_failed self.new) (challenger_refused self.new) result }
        ensures kept { challenger_failed self.old ≡ true → self.new ≡ self.old }
        ensures err { challenger_failed self.old ≡ false → OnErr result (StopsWithin (sampling F.NUM_BYTES) self.old self.new) }
    {
        let number = sample_number(&mut self.guarded, F::NUM_BYTES)?;
        Ok(F::of_number(number))
    }
}

impl<F, Inner: ByteChallenger> BinaryChallenger<F, Inner> {
    // Samples eight bytes, for 0 bits too, and takes the low bits of their word.
    pub(crate) fn sample_low_bits(&mut self, bits: usize) -> Result<usize, ChallengerError>
        requires { bits < 64 }
        ensures ok { IfOk result (λ number. SamplesBits Inner.transitions (state_of self.old) bits number (state_of self.new)) }
        ensures answer { GuardedAnswer (challenger_failed self.old) (challenger_failed self.new) (challenger_refused self.new) result }
        ensures kept { challenger_failed self.old ≡ true → self.new ≡ self.old }
        ensures err { challenger_failed self.old ≡ false → OnErr result (StopsWithin (sampling 8) self.old self.new) }
    {
        let word = self.guarded.sample_u64()?;
        Ok((word % (1 << bits)) as usize)
    }
}

// Samples so many bytes, at most 16, and reads them as a number, the lowest first.
fn sample_number<C: ByteChallenger>(
    guarded: &mut Guarded<C>,
    size: usize,
) -> Result<u128, ChallengerError>
    requires { size ≤ 16 }
    ensures state { OnOk result (guarded_state guarded.new ≡ guarded_after (sampling size) guarded.old) }
    ensures number { IfOk result (λ number. number ≡ number_of_bytes (squeezed C.transitions (sampling size) (guarded_state guarded.old))) }
    ensures answer { GuardedAnswer (guarded_failed guarded.old) (guarded_failed guarded.new) (guarded_refused guarded.new) result }
    ensures kept { guarded_failed guarded.old ≡ true → guarded.new ≡ guarded.old }
    ensures err { guarded_failed guarded.old ≡ false → OnErr result (RunsPartly (sampling size) guarded.old guarded.new) }
{
    let mut bytes = [0; MOST_BYTES];
    let read = &mut bytes[..size];
    guarded.sample_bytes(read)?;
    Ok(number_of_low_first(read))
}

impl<F, Inner: ByteChallenger> CanSampleBits<usize> for BinaryChallenger<F, Inner> {
    // Eight bytes are sampled, for 0 bits too, and the number is the low bits of their word.
    ghost gives_bits = { λ old bits number new. SamplesBits Inner.transitions (state_of old) bits number (state_of new) };

    ghost gives_bits_law = { λ bits old new other_old other_new number other same is are.
        same_bits Inner.transitions _ _ _ _ bits number other same is are };

    fn sample_bits(&mut self, bits: usize) -> Result<usize, ChallengerError> {
        self.sample_low_bits(bits)
    }
}

impl<F, Inner: ByteChallenger> CanSampleUniformBits<F> for BinaryChallenger<F, Inner> {}
