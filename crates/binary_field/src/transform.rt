//! The whole additive transform over GF(2^128) in its polynomial basis, and its inverse: over plain numbers, with a count of the pairs of
//! places or without one, and by any kernel; and over elements of any field with Cantor vectors.

pub use additive_transforms::{
    Kernel, PairByPair, PairKernel, PolyKernel, Transform, element_point, forward,
    forward_elements, forward_numbers, forward_with, inverse, inverse_elements, inverse_numbers,
    inverse_with, point,
};
