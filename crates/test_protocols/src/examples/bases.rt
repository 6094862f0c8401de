// One field in two bases.
use binary_field::{BinaryField128, Ghash128, TowerLevel};

#[test]
fn a_product_in_both_bases(rt: HostRuntime) {
    let left = BinaryField128::from_repr(0x0123_4567_89ab_cdef << 64);
    let right = BinaryField128::from_repr(0xfedc_ba98_7654_3210);
    let product = Ghash128::from(left) * Ghash128::from(right);
    assert!(rt;
        BinaryField128::from(product) == left * right && Ghash128::from(left) * right == product
    );
}
