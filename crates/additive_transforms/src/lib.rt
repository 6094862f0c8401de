//! The whole additive transform, over the field of GHASH and, in the module `elements`, over any field with Cantor vectors: the values of
//! a polynomial at the points that Cantor vectors span, and its coefficients from those values.
//!
//! A list of 2^m values, m from 0 to 40, is a polynomial by its coefficients in the basis of the products of the s_j, where
//! s_0(x) = x and s_(j + 1)(x) = s_j(x)^2 + s_j(x): coefficient k belongs to the product of the s_j over the set bits j of k.
//! Point p is a shift z, and Cantor vector b for each set bit b of p. `forward_with` leaves at place p the value at point p, and
//! `inverse_with` takes those values back to the coefficients (S. Gao and T. Mateer, Additive fast Fourier transforms over finite
//! fields, IEEE Transactions on Information Theory 56, 2010; S.-J. Lin, W.-H. Chung and Y. S. Han, Novel polynomial basis and
//! its application to Reed-Solomon erasure codes, 2014).
//!
//! Over the levels of the tower of 16 to 128 bits it transforms words that hold elements where they lie, with products by the scalars that the
//! twiddles are. The Cantor vectors of a level span the levels below it, so that the twiddles of the upper stages have 8 bits, those of the
//! next 16, and so on (D. G. Cantor, On arithmetical algorithms over finite fields, Journal of Combinatorial Theory A 50, 1989). Such a
//! scalar multiplies an element chunk by chunk, so a row of wide elements is a row of chunks. The product of a byte by a byte takes two
//! look-ups in registers, that of a wider chunk three products of its halves (A. Karatsuba and Y. Ofman, Multiplication of multidigit
//! numbers on automata, Soviet Physics Doklady 7, 1963), and no address depends on an element. Words of 16 and of 32 bits take the six
//! lowest stages sixty-four at once, in vectors that have one byte of each of thirty-two words, and are read and written once.
//!
//! Slices of words of 8 to 128 bits are multiplied by one scalar of as many bits in vectors of the bytes of sixteen words or thirty-two.
#![tactic(auto)]

mod arithmetic;
mod chunks;
mod columns;
mod elements;
mod ghash;
mod images;
mod in_lanes;
mod kernel;
mod lane_planes;
mod laws;
mod level_pairs;
mod level_transforms;
mod multiples;
pub mod over;
mod pair;
mod pairs;
mod plane_scalars;
mod planes;
mod points;
mod prepared;
mod product_laws;
mod products;
mod scaled_words;
mod stages;
mod twiddles;
mod vectors;
mod whole;
mod word_bytes;
mod word_planes;
mod word_rows;

pub use crate::columns::{forward_level_columns, inverse_level_columns};
pub use crate::elements::points::element_point;
pub use crate::elements::whole::{forward_elements, inverse_elements};
pub use crate::ghash::{forward, forward_numbers, inverse, inverse_numbers, transform_ghash};
pub use crate::kernel::{Kernel, PolyKernel, WordKernel};
pub use crate::laws::{twiddles_lie_in_subfield, values_commute_with_images};
pub use crate::level_transforms::{forward_level, inverse_level, level_shift};
pub use crate::multiples::{ByteMultiples, HalfMultiples};
pub use crate::pair::Pair;
pub use crate::pairs::{PairByPair, PairKernel, low_stages};
pub use crate::plane_scalars::PlaneScalars;
pub use crate::planes::Planes;
pub use crate::points::point;
pub use crate::prepared::Transform;
pub use crate::product_laws::three_products_multiply;
pub use crate::scaled_words::{add_multiples, multiply_words};
pub use crate::stages::{half_of, start_of};
pub use crate::whole::{forward_with, inverse_with, stages_of};
pub use crate::word_bytes::{StoredBytes, WordBytes};
pub use crate::word_planes::WordPlanes;
