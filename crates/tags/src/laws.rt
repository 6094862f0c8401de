// Laws of the definitions, as contracts of functions that compute nothing.
ghost use Rattle.tags.specs.Collisions.{GhashCollides, LastBlockDiffers, PolynomialHashCollides, PolyvalCollides, SameLengthIsSame};
ghost use Rattle.tags.specs.Pieces.{GcmIsMessage};
ghost use Rattle.tags.specs.EncodedParts.{GcmCollides, GcmEncodesParts, GcmSivCollides, GcmSivEncodesParts};
ghost use Rattle.tags.specs.Polyval.{PolyvalIsGhash};
ghost use Rattle.tags.specs.Reversed.{DotIsReversed, GcmProductIsReversed};

/// States that the products of both standards are those of the library's field of GHASH with the bits of a block reversed, for
/// POLYVAL times x, and that POLYVAL is GHASH of the blocks with their bytes reversed (RFC 8452, appendix A).
#[tactic(auto, using(crate::proofs::GcmProduct::gcm_product_is_reversed, crate::proofs::PolyvalProduct::dot_is_reversed, crate::proofs::PolyvalRelation::polyval_is_ghash))]
pub fn products_are_reversed()
    ensures gcm { GcmProductIsReversed }
    ensures polyval { DotIsReversed }
    ensures joined { PolyvalIsGhash }
{}

/// States how many keys let two different messages of at most n blocks have hashes with a given difference: at most n, for the hash
/// by a polynomial over every field, for GHASH, and for POLYVAL.
///
/// Messages that differ by blocks of zeros in front have one hash. So messages of one length have to differ, and others for example
/// in their last block, which in GCM holds the lengths.
#[tactic(auto, using(crate::proofs::Collisions::polynomial_hash_collides, crate::proofs::Collisions::same_length_is_same, crate::proofs::Collisions::last_block_differs, crate::proofs::KeyedCollisions::ghash_collides, crate::proofs::KeyedCollisions::polyval_collides))]
pub fn few_keys_collide()
    ensures polynomial { PolynomialHashCollides }
    ensures ghash { GhashCollides }
    ensures polyval { PolyvalCollides }
    ensures same_length { SameLengthIsSame }
    ensures last_block { LastBlockDiffers }
{}

/// States that the blocks that GCM and GCM-SIV hash of associated data and text determine both, so that at most n keys let two different
/// pairs of them, of at most n blocks with the one of lengths, have hashes with a given difference: those of `gcm_ghash`, over bytes, and of
/// `gcm_siv_polyval`.
#[tactic(auto, using(crate::proofs::EncodedParts::gcm_encodes_parts, crate::proofs::EncodedParts::gcm_siv_encodes_parts, crate::proofs::EncodedParts::gcm_collides, crate::proofs::EncodedParts::gcm_siv_collides))]
pub fn parts_are_encoded()
    ensures gcm { GcmEncodesParts }
    ensures gcm_siv { GcmSivEncodesParts }
    ensures gcm_collides { GcmCollides }
    ensures gcm_siv_collides { GcmSivCollides }
{}

/// States that what GCM hashes is GHASH of one message: the associated data and the text, zeros added behind each to whole blocks, and the block
/// of their lengths. So a hash in pieces computes it.
#[tactic(auto, using(crate::proofs::Pieces::gcm_is_message))]
pub fn gcm_is_message()
    ensures { GcmIsMessage }
{}
