// Products of bytes of AES, thirty-two at once.
ghost use Rattle.std.specs.Prelude.{◌≡◌, length};
ghost use Rattle.field_base.specs.Remainder.{aes_modulus, mul_mod};
ghost use Rattle.many_words.specs.Words.{EachOfTwo};
ghost use Rattle.many_words.specs.Fields.{rijndael_field};

use crate::one_by_one::change_all_by;
use crate::operations::Product;
use std::simd::prelude::*;
use word_polynomial::{RijndaelKernel, multiply_32_bytes};

/// The least number of bytes that fill a vector.
pub(crate) const LEAST_IN_VECTORS: usize = 32;

/// Multiplies each product by the byte at its place: thirty-two at once by shift and add, which looks up nothing, and what is left by
/// tables. The slices are of one length.
pub(crate) fn multiply_all(products: &mut [u8], bytes: &[u8])
    requires { length bytes.now ≡ length products.old }
    ensures long { length products.new ≡ length products.old }
    ensures products { EachOfTwo rijndael_field (λ x y z. z ≡ mul_mod 8 aes_modulus x y) products.old bytes.now products.new }
{
    let blocks = products.len() / 32;
    for block in 0..blocks {
        let start = 32 * block;
        let factors = u8x32::from_slice(&products[start..]);
        let others = u8x32::from_slice(&bytes[start..]);
        multiply_32_bytes(factors, others).copy_to_slice(&mut products[start..]);
    }
    let done = 32 * blocks;
    let (_, rest) = products.split_at_mut(done);
    let (_, others) = bytes.split_at(done);
    change_all_by::<u8, u8, RijndaelKernel, Product>(rest, others, &Product);
}
