// The challenger of a field over a byte challenger.
ghost use Rattle.std.specs.Prelude.{◌≡◌, [], false, IfOk};
ghost use Rattle.transcripts.specs.HashChallengers.{hash_state};
ghost use Rattle.transcript_elements.specs.Challengers.{challenger_failed, challenger_refused, inner_of, state_of};

use std::alloc::{AllocError, Allocator};
use std::marker::PhantomData;
use transcripts::{ByteChallenger, ByteHasher32, Guarded, HashChallenger, Transcript};

/// A challenger of the field `F` over a byte challenger. A call that the inner challenger refuses returns `Memory`; from then on
/// the challenger has failed, every call returns `Failed`, and the inner challenger is not called again.
#[derive(Drop)]
pub struct BinaryChallenger<F, Inner: ByteChallenger> {
    pub(crate) guarded: Guarded<Inner>,
    of: PhantomData<F>,
}

impl<F, Inner: ByteChallenger> BinaryChallenger<F, Inner> {
    /// A challenger over `inner`, which has not refused. It has not failed.
    pub fn new(inner: Inner) -> BinaryChallenger<F, Inner>
        requires { Inner.has_refused inner ≡ false }
        ensures inner { inner_of result ≡ inner }
        ensures failed { challenger_failed result ≡ false }
    {
        BinaryChallenger {
            guarded: Guarded::new(inner),
            of: PhantomData,
        }
    }

    /// A copy with the same state, which has failed if and only if this one has, over an inner challenger that has not refused. It
    /// fails if memory was refused.
    pub fn try_clone(&self) -> Result<BinaryChallenger<F, Inner>, AllocError>
        ensures state { IfOk result (λ copy. state_of copy ≡ state_of self.now) }
        ensures failed { IfOk result (λ copy. challenger_failed copy ≡ challenger_failed self.now) }
        ensures fresh { IfOk result (λ copy. challenger_refused copy ≡ false) }
    {
        Ok(BinaryChallenger {
            guarded: self.guarded.try_clone()?,
            of: PhantomData,
        })
    }
}

impl<F, H: ByteHasher32, A: Allocator + Clone> BinaryChallenger<F, HashChallenger<H, A>> {
    /// A challenger over a hash function, whose input is `initial_state` and whose output is empty. It has not failed, and the inner
    /// challenger has not refused.
    pub fn from_hasher(
        initial_state: Vec<u8, A>,
        hasher: H,
    ) -> BinaryChallenger<F, HashChallenger<H, A>>
        ensures state { hash_state (inner_of result) ≡ (hasher, initial_state.items, []) }
        ensures failed { challenger_failed result ≡ false }
        ensures fresh { challenger_refused result ≡ false }
    {
        BinaryChallenger::new(HashChallenger::new(initial_state, hasher))
    }
}

impl<F, Inner: ByteChallenger> Transcript for BinaryChallenger<F, Inner> {
    ghost State = { Inner.State };

    ghost state = { λ challenger. state_of challenger };

    ghost has_failed = { λ challenger. challenger_failed challenger };

    ghost has_refused = { λ challenger. challenger_refused challenger };

    ghost refused_law = { λ challenger. challenger.guarded.fails_if_refused };

    fn failed(&self) -> bool {
        self.guarded.failed()
    }
}
