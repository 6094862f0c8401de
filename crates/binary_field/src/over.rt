//! Values of polynomials over any field: by their coefficients, and in the basis of an additive transform.

pub use additive_transforms::over::{evaluate_cantor, subspace_value};
pub use field_slices::evaluate;
