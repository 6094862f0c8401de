//! Binary fields, proved: the tower of Wiedemann from GF(2) to GF(2^128), GF(2^8), GF(2^64) and GF(2^128) in polynomial
//! bases, and the cubic extension of GF(2^64).
//!
//! This crate holds nothing of its own: it passes on what the crates below it make public.
#![tactic(auto)]

pub mod erasure;
pub mod laws;
pub mod over;
pub mod poly_basis;
pub mod transform;

// GF(2), and the traits of rings and fields
pub use field_base::Gf2;
pub use field_base::traits::{
    Algebra, DotProduct, Field, PrimeCharacteristicRing, Represented, TowerLevel,
};

// integers as elements of GF(2)
pub use field_base::{PrimeField, PrimeField32, PrimeField64, QuotientMap};

// changes of basis of slices, and tabled linear maps
pub use word_tables::{LinearMap, to_polynomial_slice_64, to_tower_slice_64};

// packings of N lanes, and their traits
pub use packed_lanes::{Packed, PackedField, PackedFieldPow2, PackedValue, WiderField};

// slices of elements as packings and back, sums of lanes, and powers in lanes
pub use field_slices::{
    pack_slice, pack_slice_into, packed_powers, packed_powers_vec, sum_of_lanes, unpack_slice,
};

// the fields, and their packings
pub use field_element::{
    BinaryField2, BinaryField4, BinaryField8, BinaryField16, BinaryField32, BinaryField64,
    BinaryField128, Ghash128, PackedGhash128, PackedRijndael8b, Poly64, Poly192, Rijndael8b,
};

// elements as vectors over a smaller field
pub use field_space::{
    AlgebraIdentity, BasedVectorSpace, BasisCoefficients, BasisCoefficientsSlice, ExtensionField,
    HasFrobenius, HasPowers, HasSubfield, PackedFieldExtension, Powers,
};

// elements as bytes, streams of bytes and words, and one bound for what generic code does with elements as data
pub use field_bytes::{
    ByteStream, DataField, LittleEndian, Packable, ParallelByteStreams, ParallelU32Streams,
    ParallelU64Streams, RawDataSerializable, ShortElement, U32Stream, U64Stream, into_byte_stream,
    into_parallel_byte_streams, into_parallel_u32_streams, into_parallel_u64_streams,
    into_u32_stream, into_u64_stream,
};

// matrices over the bits of a byte, and linear maps of the byte field of AES
pub use field_space::{
    ByteLanes, ByteMatrix, LinearizedPoly8b, RijndaelMaps, columns_are_transposed,
};

// words as rows of bits
pub use packed_lanes::{Divisible, M128, M256, M512, Underlier, Word};

// packed bits
pub use bits_packed::{
    Lanes, PackedGf2, PackedGf2x8, PackedGf2x16, PackedGf2x32, PackedGf2x64, PackedGf2x128,
    PackedGf2x256, PackedGf2x512,
};

// many elements at once: inverses, sums, products and powers
pub use field_slices;

// polynomials in many variables by their values at corners, in one by those at the first elements, and rounds of sum-check
pub use field_slices as polynomials;

// fields modulo any irreducible polynomial, which is chosen at run time
pub use any_field;

// universal hashes of two authenticated ciphers
pub use tags;

// transcripts, what they observe, and challengers over bytes
pub use transcripts::{
    ByteChallenger, ByteHasher32, CanObserve, CanSample, CanSampleBits, CanSampleUniformBits,
    ChallengerError, Digest, GrindError, GrindingChallenger, Hash, HashChallenger, MerkleCap,
    Recorder, SampleArray, Sha256Hasher, Transcript,
};

// elements in transcripts, and the challenger of a field
pub use transcript_elements::{
    BinaryChallenger, ByteLevel, Call, FieldChallenger, Reply, TranscriptError, TranscriptField,
    TypeTag, run_calls,
};

// Reed-Solomon codes over bytes, and over vectors of bytes
pub use reed_solomon::{PreparedEncoder, ReedSolomon, ReedSolomonError, shard_vectors};

// lines of text and their answers
pub use calculator as calc;
