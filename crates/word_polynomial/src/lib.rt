//! The fields of polynomials over GF(2) modulo an irreducible polynomial, by their arithmetic on words: bit i of a word is the
//! coefficient of x^i. Each is a level of the tower in another basis. And the cubic extension of a ring by a root y of y³ + y + 1: its
//! definition and its laws, and over GF(2^64) its elements as three words and its arithmetic on them.
#![tactic(auto)]

mod byte_lanes;
mod cubic;
mod cubic_kernel;
mod draws;
mod laws;
mod moduli;
mod modulus;
mod polynomials;
mod reading;
mod subfields;
mod texts;
mod triple;
mod words;

pub use crate::byte_lanes::{multiply_16_bytes, multiply_32_bytes, multiply_byte_lanes};
pub use crate::cubic::{invert_192, multiply_192, reduce_squarings_192, sqrt_192, square_192};
pub use crate::cubic_kernel::CubicKernel;
pub use crate::laws::cubic_is_field;
pub use crate::moduli::{
    GhashKernel, GhashModulus, Poly64Kernel, Poly64Modulus, RijndaelKernel, RijndaelModulus,
};
pub use crate::modulus::Modulus;
pub use crate::polynomials::Polynomials;
pub use crate::subfields::EmbedsIn;
pub use crate::triple::Triple;
pub use crate::words::HoldsTriple;
