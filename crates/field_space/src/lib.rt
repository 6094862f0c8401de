//! Elements as vectors over a smaller ring, extensions of fields, and powers of an element: the traits that folding and sum-check
//! code is written over.
//!
//! The linear maps of bytes as matrices of 8 by 8 bits, those of the field of AES among them.
#![tactic(auto)]

mod extension;
mod kernel;
mod lanes;
mod levels;
mod linearized;
mod maps;
mod powers;
mod space;

pub use crate::extension::{
    AlgebraIdentity, ExtensionField, HasFrobenius, HasSubfield, PackedFieldExtension,
};
pub use crate::kernel::SpaceOver;
pub use crate::lanes::ByteLanes;
pub use crate::levels::CoefficientsOf;
pub use crate::linearized::LinearizedPoly8b;
pub use crate::maps::RijndaelMaps;
pub use crate::powers::{HasPowers, Powers};
pub use crate::space::{BasedVectorSpace, BasisCoefficients, BasisCoefficientsSlice};
pub use word_tables::{ByteMatrix, columns_are_transposed, zero_and_identity};
