// Examples of programs over `binary_field`, which docs/TUTORIAL.md and other pages point at: one product in both bases, contracts over any ring
// and at a field by its name, secret sharing over any field, generic code over packings and over elements as data, which are keys of a hash
// map, a text through a channel that changes bytes, and a proof system of committed tables and a zero-check.
mod bases;
mod channel;
mod contracts;
mod data;
mod packings;
mod proof_system;
mod sharing;

pub use crate::examples::contracts::{product_of_slice, sum_of_slice, value_on_line};
pub use crate::examples::packings::{front_packing, packed_dot_product};
pub use crate::examples::proof_system::{Proof, Roots, prove, verify, verify_in};
