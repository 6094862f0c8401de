// Digests and caps of Merkle trees, and how a digest is observed.
ghost use Rattle.std.specs.Int.{to_le_bytes, w64};
ghost use Rattle.std.specs.List.{flat_map};
ghost use Rattle.std.specs.Prelude.{◌≡◌, ℕ, false, List, OnOk};
ghost use Rattle.transcripts.specs.ByteCalls.{observing};
ghost use Rattle.transcripts.specs.Digests.{roots_of, words_of};
ghost use Rattle.transcripts.specs.Guarded.{guarded_after, guarded_failed, guarded_refused, guarded_state};
ghost use Rattle.transcripts.specs.GuardedAnswers.{GuardedAnswer};

mod numbers;

use crate::byte_challenger::ByteChallenger;
use crate::error::ChallengerError;
use crate::guarded::Guarded;
use std::alloc::{Allocator, Global};
use std::marker::PhantomData;

/// A digest of `N` words of the hash `G`.
#[derive(Clone, Copy, Debug, PartialEq, Eq)]
pub struct Hash<G, W, const N: usize> {
    words: [W; N],
    of: PhantomData<G>,
}

impl<G, W: Copy, const N: usize> From<[W; N]> for Hash<G, W, N> {
    ghost from_gives = { λ words hash. words_of hash ≡ words };

    fn from(words: [W; N]) -> Hash<G, W, N> {
        Hash {
            words,
            of: PhantomData,
        }
    }
}

impl<G, W: Copy, const N: usize> From<Hash<G, W, N>> for [W; N] {
    ghost from_gives = { λ hash words. words ≡ words_of hash };

    fn from(hash: Hash<G, W, N>) -> [W; N] {
        hash.words
    }
}

impl<G, W, const N: usize> AsRef<[W; N]> for Hash<G, W, N> {
    fn as_ref(&self) -> &[W; N]
        ensures { result.now ≡ words_of self.now }
    {
        &self.words
    }
}

/// The cap of a Merkle tree of the hash `G`: the roots of the trees that are left when the top of the tree is cut off.
#[derive(Drop)]
pub struct MerkleCap<G, D: Drop, A: Allocator = Global> {
    roots: Vec<D, A>,
    of: PhantomData<G>,
}

impl<G, D: Drop, A: Allocator> MerkleCap<G, D, A> {
    /// The cap of these roots.
    pub fn new(roots: Vec<D, A>) -> MerkleCap<G, D, A>
        ensures { roots_of result ≡ roots.items }
    {
        MerkleCap {
            roots,
            of: PhantomData,
        }
    }

    /// The roots.
    pub fn roots(&self) -> &[D]
        ensures { result.now ≡ roots_of self.now }
    {
        self.roots.as_slice()
    }

    /// Gives the vector of the roots back.
    pub fn into_roots(self) -> Vec<D, A>
        ensures { result.items ≡ roots_of self }
    {
        let MerkleCap { roots, of: _ } = self;
        roots
    }
}

/// A digest that is observed as a list of bytes: an array of bytes, an array of words of 64 bits, each as eight bytes from the
/// lowest, or a `Hash` of either.
pub trait Digest: Drop {
    // The bytes.
    ghost bytes: { Self → List ℕ };

    /// Observes the bytes, in a challenger that has not failed.
    fn observe_in<C: ByteChallenger>(&self, guarded: &mut Guarded<C>) -> Result<(), ChallengerError>
        requires { guarded_failed guarded.old ≡ false }
        ensures ok { OnOk result (guarded_state guarded.new ≡ guarded_after (observing (bytes self.now)) guarded.old) }
        ensures answer { GuardedAnswer false (guarded_failed guarded.new) (guarded_refused guarded.new) result };
}

/// A word of a digest: a byte, or a word of 64 bits, which is observed as eight bytes from the lowest.
pub trait DigestWord: Copy {
    // The bytes of words.
    ghost bytes: { List Self → List ℕ };

    /// Observes the bytes of the words, in a challenger that has not failed.
    fn observe_words<C: ByteChallenger>(
        words: &[Self],
        guarded: &mut Guarded<C>,
    ) -> Result<(), ChallengerError>
        requires { guarded_failed guarded.old ≡ false }
        ensures ok { OnOk result (guarded_state guarded.new ≡ guarded_after (observing (bytes words.now)) guarded.old) }
        ensures answer { GuardedAnswer false (guarded_failed guarded.new) (guarded_refused guarded.new) result };
}

impl DigestWord for u8 {
    ghost bytes = { λ words. words };

    fn observe_words<C: ByteChallenger>(
        words: &[u8],
        guarded: &mut Guarded<C>,
    ) -> Result<(), ChallengerError> {
        guarded.observe_bytes(words)
    }
}

impl DigestWord for u64 {
    ghost bytes = { λ words. flat_map (λ w. to_le_bytes w64 w) words };

    fn observe_words<C: ByteChallenger>(
        words: &[u64],
        guarded: &mut Guarded<C>,
    ) -> Result<(), ChallengerError> {
        'words: for index in 0..words.len() {
            guarded.observe_bytes(&words[index].to_le_bytes())?;
        }
        Ok(())
    }
}

impl<W: DigestWord, const N: usize> Digest for [W; N] {
    ghost bytes = { λ words. W.bytes words };

    fn observe_in<C: ByteChallenger>(
        &self,
        guarded: &mut Guarded<C>,
    ) -> Result<(), ChallengerError> {
        W::observe_words(self, guarded)
    }
}

impl<G, W: DigestWord, const N: usize> Digest for Hash<G, W, N> {
    ghost bytes = { λ hash. W.bytes (words_of hash) };

    fn observe_in<C: ByteChallenger>(
        &self,
        guarded: &mut Guarded<C>,
    ) -> Result<(), ChallengerError> {
        W::observe_words(&self.words, guarded)
    }
}
