// The fields by their names.
use crate::element::{Coefficients, Element, HasPacking};
use field_base::Unsigned;
use many_words::Many;
use packed_lanes::Packed;
use word_polynomial::{CubicKernel, GhashKernel, Poly64Kernel, RijndaelKernel};
use word_tower::{Bits2, Bits4, Bits8, Bits16, Bits32, Bits64, Bits128, Level, Tower};

/// An element of GF(2^2), level 1 of Wiedemann's tower. Its representation is `low + high * 2` for the element
/// `low + high X`, where X² = X + 1.
pub type BinaryField2 = Element<u8, Tower<Bits2>>;

/// An element of GF(2^4), level 2 of Wiedemann's tower. Its representation is `low + high * 2^2` for the element
/// `low + high X`, where X² = t X + 1 and t is the root that [`BinaryField2`] adjoins.
pub type BinaryField4 = Element<u8, Tower<Bits4>>;

/// An element of GF(2^8), level 3 of Wiedemann's tower. Its representation is `low + high * 2^4` for the element
/// `low + high X`, where X² = t X + 1 and t is the root that [`BinaryField4`] adjoins.
pub type BinaryField8 = Element<u8, Tower<Bits8>>;

/// An element of GF(2^16), level 4 of Wiedemann's tower. Its representation is `low + high * 2^8` for the element
/// `low + high X`, where X² = t X + 1 and t is the root that [`BinaryField8`] adjoins.
pub type BinaryField16 = Element<u16, Tower<Bits16>>;

/// An element of GF(2^32), level 5 of Wiedemann's tower. Its representation is `low + high * 2^16` for the element
/// `low + high X`, where X² = t X + 1 and t is the root that [`BinaryField16`] adjoins.
pub type BinaryField32 = Element<u32, Tower<Bits32>>;

/// An element of GF(2^64), level 6 of Wiedemann's tower. Its representation is `low + high * 2^32` for the element
/// `low + high X`, where X² = t X + 1 and t is the root that [`BinaryField32`] adjoins.
pub type BinaryField64 = Element<u64, Tower<Bits64>>;

/// An element of GF(2^128), level 7 of Wiedemann's tower. Its representation is `low + high * 2^64` for the element
/// `low + high X`, where X² = t X + 1 and t is the root that [`BinaryField64`] adjoins.
pub type BinaryField128 = Element<u128, Tower<Bits128>>;

/// An element of GF(2^8) in the polynomial basis, modulo x^8 + x^4 + x^3 + x + 1: a byte of AES (FIPS 197, section 4.2). Bit i
/// of its representation is the coefficient of x^i.
pub type Rijndael8b = Element<u8, RijndaelKernel>;

/// An element of GF(2^64) in the polynomial basis, modulo x^64 + x^4 + x^3 + x + 1 (G. Seroussi, Table of low-weight
/// binary irreducible polynomials, 1998). Bit i of its representation is the coefficient of x^i.
///
/// An inverse is a chain of products and squares, which looks up nothing. `Poly64::from(BinaryField64::from(x).inverse())` goes
/// through the tower, by look-ups that depend on `x`.
pub type Poly64 = Element<u64, Poly64Kernel>;

/// An element of GF(2^128) in the polynomial basis, modulo x^128 + x^7 + x^2 + x + 1, the modulus of NIST SP 800-38D.
/// Bit i of its representation is the coefficient of x^i, so a block of that standard, whose leftmost bit is the
/// coefficient of x^0, has its bits the other way round.
///
/// An inverse is a chain of products, squares and linear maps, which reads the same columns of those maps for every operand.
/// `Ghash128::from(BinaryField128::from(x).inverse())` goes through the tower, by look-ups that depend on `x`.
pub type Ghash128 = Element<u128, GhashKernel>;

/// An element of the cubic extension of [`Poly64`] by a root y of y³ + y + 1, which is primitive over GF(2) (R. Lidl and
/// H. Niederreiter, Finite Fields, table C). The element c0 + c1 y + c2 y² is stored as [c0, c1, c2]; its
/// representation is the number c0 + c1 2^64 + c2 2^128, and its order compares c0 first.
pub type Poly192 = Element<Coefficients, CubicKernel>;

/// `N` bytes of AES, whose operations go lane by lane.
pub type PackedRijndael8b<const N: usize> = Packed<Rijndael8b, N>;

/// Four elements of `Ghash128`, whose operations go lane by lane.
pub type PackedGhash128 = Packed<Ghash128, 4>;

// Each field is its own packing, but for the byte field of AES, which has 16 lanes, and `Ghash128`, which has four.

impl<R: Unsigned, L: Level<R>> HasPacking<R> for Tower<L>
where
    Tower<L>: Many<R, R>,
{
    type Packing = Element<R, Tower<L>>;
}

impl HasPacking<u8> for RijndaelKernel {
    type Packing = PackedRijndael8b<16>;
}

impl HasPacking<u64> for Poly64Kernel {
    type Packing = Poly64;
}

impl HasPacking<u128> for GhashKernel {
    type Packing = PackedGhash128;
}

impl Many<Coefficients, Coefficients> for CubicKernel {}

impl HasPacking<Coefficients> for CubicKernel {
    type Packing = Poly192;
}
