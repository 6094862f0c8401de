// An extension of three coefficients: its text, vectors in heaps that are full, and how a closure is called, each by a body that all extensions
// share. That a field meets the bound takes the check longer than a trial does, so that the two are named here alone, once for all trials.
use super::coefficients::is_called_in_order;
use super::extension::has_text;
use super::memory::vectors_are_due;
use field_base::traits::Field;
use field_element::{Poly64, Poly192};
use field_space::AlgebraIdentity;
use rand::distr::SampleStandard;
use rand::rngs::SmallRng;
use rand::{RngExt, SeedableRng};
use std::alloc::Global;

/// Elements that are drawn from the seed 23, or fewer than 257 where memory is refused.
fn drawn<E: SampleStandard + Drop>(alloc: Global) -> Vec<E> {
    let mut rng = SmallRng::seed_from_u64(23);
    let mut elements = Vec::new(alloc);
    for _ in 0..257 {
        if elements.push(rng.random()).is_err() {
            break;
        }
    }
    elements
}

/// Whether each trial succeeds. An element is given, its coefficients, and the text of the extension.
fn all_succeed<F: Field, E: AlgebraIdentity<F> + SampleStandard>(
    alloc: Global,
    element: E,
    coefficients: &[F],
    text: &str,
) -> bool {
    let elements = drawn::<E>(alloc);
    has_text::<F, E>(alloc, text)
        && is_called_in_order::<F, E>(element, coefficients)
        && vectors_are_due::<F, E>(alloc, elements.as_slice())
}

#[test]
fn an_extension_of_three_coefficients(rt: HostRuntime) {
    let coefficients = [Poly64::new(1), Poly64::new(2), Poly64::new(3)];
    assert!(rt;
        all_succeed(
            rt.alloc(),
            Poly192::new(coefficients),
            &coefficients,
            "p3-binary-cubic-v1:y^3+y+1:64:192"
        )
    );
}
