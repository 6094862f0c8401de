// A challenger over a hash function.
ghost use Rattle.std.specs.Prelude.{◌≡◌, ◌≤◌, ◌<◌, ◌++◌, ℕ, [], ◌∷◌, Bool, true, false, OnOk, OnErr, IfOk, length, take};
ghost use Rattle.transcripts.specs.HashBuffers.{HashState, hash_sampled, hash_transitions, last_taken};

use crate::byte_challenger::ByteChallenger;
use crate::hasher::ByteHasher32;
use std::alloc::{AllocError, Allocator, Global};

// The bytes of a digest.
const DIGEST_LEN: usize = 32;

/// A challenger over a hash function. It has an input, which is hashed next, and an output, which is what is left of the last
/// digest. An observed byte is appended to the input, and the output is dropped. A sample takes the last byte of the output; if the
/// output is empty, the digest of the input first becomes both the output and the new input.
///
/// The input is a vector, with the allocator of the vector that the challenger was made from. The output takes no memory.
#[derive(Drop)]
pub struct HashChallenger<H: Copy, A: Allocator = Global> {
    hasher: H,
    input: Vec<u8, A>,
    digest: [u8; DIGEST_LEN],
    unread: usize,
    has_refused: bool,
    ghost unread_fits: { unread ≤ 32 },
}

impl<H: ByteHasher32, A: Allocator> HashChallenger<H, A> {
    ghost use Rattle.transcripts.specs.HashChallengers.{hash_state, hash_refused};

    /// A challenger whose input is `initial_state` and whose output is empty. It has not refused.
    pub fn new(initial_state: Vec<u8, A>, hasher: H) -> HashChallenger<H, A>
        ensures state { hash_state result ≡ (hasher, initial_state.items, []) }
        ensures fresh { hash_refused result ≡ false }
    {
        HashChallenger {
            hasher,
            input: initial_state,
            digest: [0; DIGEST_LEN],
            unread: 0,
            has_refused: false,
        }
    }

    // If the output is empty, the digest of the input becomes both the output and the new input. Memory for it is taken before
    // anything changes.
    #[tactic(auto, using(crate::proofs::Buffers::sampled_from_none, crate::proofs::Buffers::sampled_from_front))]
    fn fill_output(&mut self) -> Result<(), AllocError>
        ensures filled { OnOk result (0 < self.new.unread) }
        ensures last { OnOk result (hash_sampled H.digest (hash_state self.old) ≡ last_taken (hash_state self.new)) }
        ensures kept { self.new.has_refused ≡ self.old.has_refused }
        ensures err { OnErr result (hash_state self.new ≡ hash_state self.old) }
    {
        if self.unread > 0 {
            return Ok(());
        }
        let missing = DIGEST_LEN.saturating_sub(self.input.len());
        self.input.reserve(missing)?;
        let digest = self.hasher.hash32(self.input.as_slice());
        self.input.clear();
        self.input.extend_from_slice(&digest)?;
        self.digest = digest;
        self.unread = DIGEST_LEN;
        Ok(())
    }

    // Takes the last byte of the output, which is not empty.
    #[tactic(auto, using(crate::proofs::Buffers::last_of_front))]
    fn take_last(&mut self) -> u8
        requires { 0 < self.old.unread }
        ensures taken { last_taken (hash_state self.old) ≡ (result, hash_state self.new) }
        ensures kept { self.new.has_refused ≡ self.old.has_refused }
    {
        self.unread -= 1;
        self.digest[self.unread]
    }
}

impl<H: ByteHasher32, A: Allocator + Clone> ByteChallenger for HashChallenger<H, A> {
    ghost use Rattle.transcripts.specs.HashChallengers.{hash_state, hash_refused};

    ghost State = { HashState H };

    ghost state = { λ challenger. hash_state challenger };

    ghost has_refused = { λ challenger. hash_refused challenger };

    ghost transitions = { hash_transitions H.digest };

    // A refused call keeps the hasher, the input and the output.
    ghost may_leave = { λ old new. hash_state new ≡ hash_state old };

    fn observe_byte(&mut self, byte: u8) -> Result<(), AllocError> {
        if self.input.push(byte).is_err() {
            self.has_refused = true;
            return Err(AllocError);
        }
        self.unread = 0;
        Ok(())
    }

    fn sample_byte(&mut self) -> Result<u8, AllocError> {
        if let Err(error) = self.fill_output() {
            self.has_refused = true;
            return Err(error);
        }
        Ok(self.take_last())
    }

    fn try_clone(&self) -> Result<HashChallenger<H, A>, AllocError> {
        let input = Vec::from_slice(self.input.allocator().clone()?, self.input.as_slice())?;
        Ok(HashChallenger {
            hasher: self.hasher,
            input,
            digest: self.digest,
            unread: self.unread,
            has_refused: false,
        })
    }

    fn refused(&self) -> bool {
        self.has_refused
    }
}
