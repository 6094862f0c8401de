// Digests and caps as numbers for `serde`: a digest is the array of its words, a cap the sequence of its roots.
ghost use Rattle.serde.specs.Event.{WritesSeq};
ghost use Rattle.transcripts.specs.Digests.{roots_of, words_of};

use crate::digest::{Hash, MerkleCap};
use serde::{
    Described, Deserialize, DeserializeOwned, Deserializer, Format, Serialize, Serializer,
};
use std::alloc::{Allocator, Global};

impl<G, W: Described, const N: usize> Described for Hash<G, W, N> {
    ghost writes = { λ hash. WritesSeq W.writes (words_of hash) };
}

impl<G, W: Serialize, const N: usize> Serialize for Hash<G, W, N> {
    fn serialize<S: Serializer>(&self, out: &mut S) -> Result<(), S::Error> {
        self.words.serialize(out)
    }
}

impl<'de, G, W: Copy + Deserialize<'de>, const N: usize> Deserialize<'de> for Hash<G, W, N> {
    fn deserialize<F: Format>(
        alloc: Global,
        from: &mut Deserializer<'de, '_, F>,
    ) -> Result<Hash<G, W, N>, F::Error> {
        Ok(Hash::from(<[W; N]>::deserialize(alloc, from)?))
    }
}

impl<G, W: Copy + DeserializeOwned, const N: usize> DeserializeOwned for Hash<G, W, N> {
    fn deserialize_owned<F: Format>(
        alloc: Global,
        from: &mut Deserializer<'_, '_, F>,
    ) -> Result<Hash<G, W, N>, F::Error> {
        Ok(Hash::from(<[W; N]>::deserialize_owned(alloc, from)?))
    }
}

impl<G, D: Described + Drop, A: Allocator> Described for MerkleCap<G, D, A> {
    ghost writes = { λ cap. WritesSeq D.writes (roots_of cap) };
}

impl<G, D: Serialize + Drop, A: Allocator> Serialize for MerkleCap<G, D, A> {
    fn serialize<S: Serializer>(&self, out: &mut S) -> Result<(), S::Error> {
        self.roots.serialize(out)
    }
}

impl<'de, G, D: Deserialize<'de> + Drop> Deserialize<'de> for MerkleCap<G, D> {
    fn deserialize<F: Format>(
        alloc: Global,
        from: &mut Deserializer<'de, '_, F>,
    ) -> Result<MerkleCap<G, D>, F::Error> {
        Ok(MerkleCap::new(Vec::deserialize(alloc, from)?))
    }
}

impl<G, D: DeserializeOwned + Drop> DeserializeOwned for MerkleCap<G, D> {
    fn deserialize_owned<F: Format>(
        alloc: Global,
        from: &mut Deserializer<'_, '_, F>,
    ) -> Result<MerkleCap<G, D>, F::Error> {
        Ok(MerkleCap::new(Vec::deserialize_owned(alloc, from)?))
    }
}
