// Written by scripts/make_impls.py; do not edit.
// The levels of 8 to 128 bits by slices of their bits.
use super::FieldInSlices;
use bit_slices::{
    Slices8, Slices16, Slices32, Slices64, Slices128, Vector, invert_each, multiply_each,
};
use field_base::Holds;
use word_tower::{Bits8, Bits16, Bits32, Bits64, Bits128, Tower};

impl FieldInSlices<u8> for Tower<Bits8> {
    fn multiply_in_slices<V: Vector, W: Holds<u8>>(products: &mut [W], words: &[W]) {
        multiply_each::<u8, W, Slices8<V>>(products, words);
    }

    fn invert_in_slices<V: Vector, W: Holds<u8>>(words: &mut [W]) {
        invert_each::<u8, W, Slices8<V>>(words);
    }
}

impl FieldInSlices<u16> for Tower<Bits16> {
    fn multiply_in_slices<V: Vector, W: Holds<u16>>(products: &mut [W], words: &[W]) {
        multiply_each::<u16, W, Slices16<V>>(products, words);
    }

    fn invert_in_slices<V: Vector, W: Holds<u16>>(words: &mut [W]) {
        invert_each::<u16, W, Slices16<V>>(words);
    }
}

impl FieldInSlices<u32> for Tower<Bits32> {
    fn multiply_in_slices<V: Vector, W: Holds<u32>>(products: &mut [W], words: &[W]) {
        multiply_each::<u32, W, Slices32<V>>(products, words);
    }

    fn invert_in_slices<V: Vector, W: Holds<u32>>(words: &mut [W]) {
        invert_each::<u32, W, Slices32<V>>(words);
    }
}

impl FieldInSlices<u64> for Tower<Bits64> {
    fn multiply_in_slices<V: Vector, W: Holds<u64>>(products: &mut [W], words: &[W]) {
        multiply_each::<u64, W, Slices64<V>>(products, words);
    }

    fn invert_in_slices<V: Vector, W: Holds<u64>>(words: &mut [W]) {
        invert_each::<u64, W, Slices64<V>>(words);
    }
}

impl FieldInSlices<u128> for Tower<Bits128> {
    fn multiply_in_slices<V: Vector, W: Holds<u128>>(products: &mut [W], words: &[W]) {
        multiply_each::<u128, W, Slices128<V>>(products, words);
    }

    fn invert_in_slices<V: Vector, W: Holds<u128>>(words: &mut [W]) {
        invert_each::<u128, W, Slices128<V>>(words);
    }
}
