// The dot product at a packing of the library.
use super::packed_dot_product;
use binary_field::{Ghash128, PackedGhash128, PrimeCharacteristicRing};

/// Whether x x + 1 x is the sum of products of (x, 1) and (x, x), in every lane.
fn products_are_summed(x: Ghash128) -> bool {
    let every = PackedGhash128::from(x);
    let sum = packed_dot_product(&[every, PackedGhash128::ONE], &[every, every]);
    sum == PackedGhash128::from(x * x + x)
}

#[test]
fn generic_code_at_a_packing(rt: HostRuntime) {
    assert!(rt; products_are_summed(Ghash128::new(1 << 127)));
}
