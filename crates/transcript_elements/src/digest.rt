// Digests and caps of Merkle trees that are observed.
ghost use Rattle.std.specs.Prelude.{◌≡◌, false, OnOk};
ghost use Rattle.std.specs.List.{flat_map};
ghost use Rattle.transcripts.specs.ByteCalls.{after, observing};
ghost use Rattle.transcripts.specs.Digests.{roots_of, words_of};
ghost use Rattle.transcripts.specs.Guarded.{guarded_after, guarded_failed, guarded_refused, guarded_state};
ghost use Rattle.transcripts.specs.GuardedAnswers.{GuardedAnswer};
ghost use Rattle.transcripts.specs.lemmas.State.{same_value};
ghost use Rattle.transcript_elements.specs.Challengers.{state_after, state_of};

use crate::challenger::BinaryChallenger;
use std::alloc::Allocator;
use transcripts::{
    ByteChallenger, CanObserve, ChallengerError, Digest, DigestWord, Guarded, Hash, MerkleCap,
};

// Observes the digests in order.
fn observe_digests<D: Digest, C: ByteChallenger>(
    guarded: &mut Guarded<C>,
    digests: &[D],
) -> Result<(), ChallengerError>
    requires { guarded_failed guarded.old ≡ false }
    ensures ok { OnOk result (guarded_state guarded.new ≡ guarded_after (observing (flat_map D.bytes digests.now)) guarded.old) }
    ensures answer { GuardedAnswer false (guarded_failed guarded.new) (guarded_refused guarded.new) result }
{
    'digests: for index in 0..digests.len() {
        digests[index].observe_in(guarded)?;
    }
    Ok(())
}

impl<G, W: DigestWord, const N: usize, F, Inner: ByteChallenger> CanObserve<Hash<G, W, N>>
    for BinaryChallenger<F, Inner> {
    ghost observes = { λ old value new. state_of new ≡ state_after (observing (W.bytes (words_of value))) old };

    ghost may_leave = { λ _ _. Unit {0} };

    ghost may_stay = { λ _. tt };

    ghost observes_law = { λ value old new other_old other_new same is are.
        same_value (after Inner.transitions (observing (W.bytes (words_of value)))) _ _ _ _ same is are };

    fn observe(&mut self, value: Hash<G, W, N>) -> Result<(), ChallengerError> {
        if self.guarded.failed() {
            return Err(ChallengerError::Failed);
        }
        value.observe_in(&mut self.guarded)
    }
}

impl<'a, G, D: Digest, A: Allocator, F, Inner: ByteChallenger> CanObserve<&'a MerkleCap<G, D, A>>
    for BinaryChallenger<F, Inner> {
    ghost observes = { λ old cap new. state_of new ≡ state_after (observing (flat_map D.bytes (roots_of cap.now))) old };

    ghost may_leave = { λ _ _. Unit {0} };

    ghost may_stay = { λ _. tt };

    ghost observes_law = { λ cap old new other_old other_new same is are.
        same_value (after Inner.transitions (observing (flat_map D.bytes (roots_of cap.now)))) _ _ _ _ same is are };

    fn observe(&mut self, cap: &'a MerkleCap<G, D, A>) -> Result<(), ChallengerError> {
        if self.guarded.failed() {
            return Err(ChallengerError::Failed);
        }
        observe_digests(&mut self.guarded, cap.roots())
    }
}

impl<G, D: Digest, A: Allocator, F, Inner: ByteChallenger> CanObserve<MerkleCap<G, D, A>>
    for BinaryChallenger<F, Inner> {
    ghost observes = { λ old cap new. state_of new ≡ state_after (observing (flat_map D.bytes (roots_of cap))) old };

    ghost may_leave = { λ _ _. Unit {0} };

    ghost may_stay = { λ _. tt };

    ghost observes_law = { λ cap old new other_old other_new same is are.
        same_value (after Inner.transitions (observing (flat_map D.bytes (roots_of cap)))) _ _ _ _ same is are };

    fn observe(&mut self, cap: MerkleCap<G, D, A>) -> Result<(), ChallengerError> {
        if self.guarded.failed() {
            return Err(ChallengerError::Failed);
        }
        observe_digests(&mut self.guarded, cap.roots())
    }
}
