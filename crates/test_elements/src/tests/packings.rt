// A closure that counts its calls: `from_fn` of a packing of four elements calls it with each index once, in order. Clones, which are granted.
// And constants, of which no contract speaks: the widths of packed bits, and that no instruction multiplies.
use bits_packed::{
    PackedGf2x8, PackedGf2x16, PackedGf2x32, PackedGf2x64, PackedGf2x128, PackedGf2x256,
    PackedGf2x512,
};
use field_element::{Ghash128, PackedGhash128};
use ghash_slices::HAS_HARDWARE_CLMUL;
use packed_lanes::PackedValue;
use std::array;

#[test]
fn clones_are_granted(rt: HostRuntime) {
    let element = Ghash128::new(5);
    let packing = PackedGhash128::from(element);
    let bits = PackedGf2x8::new(0x8d);
    let elements: [Ghash128; 2] = array::repeat(element);
    let packings: [PackedGhash128; 2] = array::repeat(packing);
    let rows: [PackedGf2x8; 2] = array::repeat(bits);
    assert!(rt; elements[1].to_bits() == 5 && packings[1] == packing && rows[1].to_bits() == 0x8d);
}

#[test]
fn constants_are_as_they_are_told(rt: HostRuntime) {
    assert!(rt;
        !HAS_HARDWARE_CLMUL
            && PackedGf2x8::WIDTH == 8
            && PackedGf2x16::WIDTH == 16
            && PackedGf2x32::WIDTH == 32
            && PackedGf2x64::WIDTH == 64
            && PackedGf2x128::WIDTH == 128
            && PackedGf2x256::WIDTH == 256
            && PackedGf2x512::WIDTH == 512
    );
}

#[test]
fn a_closure_is_called_for_each_lane_in_order(rt: HostRuntime) {
    let mut calls: usize = 0;
    let mut in_order = true;
    let _packing = PackedGhash128::from_fn(|lane| {
        in_order = in_order && lane == calls;
        calls = calls.wrapping_add(1);
        Ghash128::new(lane as u128)
    });
    assert!(rt; calls == 4 && in_order);
}
