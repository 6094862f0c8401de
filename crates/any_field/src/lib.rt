//! Fields of 2^m elements, m at most 128, modulo any irreducible polynomial, which is chosen at run time and tested exactly. `laws` has why
//! the tests are exact, and why such a field is one.
#![tactic(auto)]

mod byte_lanes;
mod extension;
mod irreducible;
pub mod laws;
mod reduction;
mod search;

pub use crate::extension::{
    BinaryExtension, Embedding, Images, Logarithms, Multiples, NotIrreducible,
};
pub use crate::irreducible::is_irreducible;
pub use crate::search::{
    irreducible_pentanomial, irreducible_trinomial, is_field_modulus, is_primitive_modulus,
    next_irreducible, next_primitive, primitive_pentanomial, primitive_trinomial,
    random_irreducible, random_primitive,
};
