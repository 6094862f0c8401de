// The whole additive transform of elements of any field with Cantor vectors: the levels of the tower, the byte field of AES, and the
// fields of polynomials of 64 and 128 bits.
//
// A list of 2^m elements, with m at most 40 and at most the bits of the field, is a polynomial by its coefficients in the basis of
// the products of the s_j, as in the crate's head. Point p is a shift z, and Cantor vector b for each set bit b of p.
pub mod arithmetic;
pub mod columns;
pub mod halves;
pub mod pairs;
pub mod points;
pub mod twiddles;
pub mod whole;
