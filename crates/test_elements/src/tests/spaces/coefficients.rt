// Elements of spaces by their coefficients: `from_basis_coefficients_fn` calls its closure with each index once, in order.
use field_base::traits::PrimeCharacteristicRing;
use field_space::BasedVectorSpace;

/// Whether a closure is called for each coefficient, in order, and the element is that of what it returns.
pub(crate) fn is_called_in_order<F: PrimeCharacteristicRing, E: BasedVectorSpace<F>>(
    element: E,
    coefficients: &[F],
) -> bool {
    let mut calls = 0usize;
    let mut are_in_order = true;
    let made = E::from_basis_coefficients_fn(|i| {
        are_in_order = are_in_order && i == calls;
        calls = calls.wrapping_add(1);
        match coefficients.get(i) {
            Some(coefficient) => *coefficient,
            None => F::ZERO,
        }
    });
    made == element && are_in_order && calls == E::DIMENSION
}
