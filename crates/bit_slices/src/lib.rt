//! Arithmetic on many elements of the tower at once, by slices of their bits: bit i of 128 or 256 elements lies in one vector. Products
//! are computed by halves of elements, over `and` and `xor` of vectors, with no table: no address and no branch depends on an operand.
#![tactic(auto)]

mod bit;
mod blocks;
mod levels;
mod moduli;
mod operations;
mod pair;
mod polynomials;
mod sliced;
mod slices;
mod tails;
mod vector;
mod word;
mod words;

pub use crate::bit::Bit;
pub use crate::levels::{Slices8, Slices16, Slices32, Slices64, Slices128};
pub use crate::moduli::PolynomialBlock;
pub use crate::pair::Pair;
pub use crate::polynomials::SlicedPolynomials;
pub use crate::sliced::{Sliced, SlicesOf};
pub use crate::slices::{invert_each, multiply_each, multiply_polynomials_each};
pub use crate::tails::Tail;
pub use crate::vector::Vector;
pub use crate::word::TowerWord;
