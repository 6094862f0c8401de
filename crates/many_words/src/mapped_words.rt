// Words of a field of 64 bits by one scalar, many at once, where the field is no level of the tower: the product by the scalar is a linear
// map of words, which is looked up in registers. The words that fill no vector are multiplied one after another.
ghost use Rattle.std.specs.Prelude.{◌≡◌, ℕ, ◌^◌, ◌<◌, bit_xor, length};
ghost use Rattle.field_base.specs.LinearMaps.{linear_image};
ghost use Rattle.field_base.specs.Remainder.{mul_mod, poly64_modulus};
ghost use Rattle.many_words.specs.Words.{Each, EachOfTwo};
ghost use Rattle.many_words.specs.Fields.{field_of};

use crate::entries::Entries;
use crate::one_by_one::{change_all_by, multiply_each_by};
use crate::operations::ScaledSum;
use crate::word_maps::{add_images, map_words, set_tables};
use additive_transforms::{ByteMultiples, HalfMultiples, Pair, WordBytes};
use field_base::FieldKernel;
use std::simd::prelude::*;
use word_carryless::{reduce_64, split_128};

// Sixteen words in planes, and what names them as such.
type Planes = Pair<Pair<Pair<u8x16>>>;

type Multiples = HalfMultiples<HalfMultiples<HalfMultiples<ByteMultiples>>>;

/// The least number of words that are mapped: the tables take as long as some forty products.
pub(crate) const LEAST_MAPPED: usize = 64;

/// Multiplies each word by the scalar, whose products with the bits are the images.
pub(crate) fn multiply_all<K: FieldKernel<u64>, W: WordBytes<u64>>(
    words: &mut [W],
    scalar: W,
    images: &[u64; 64],
)
    requires width { K.width ≡ 64 }
    requires size { W.size ≡ 3 }
    requires images { (x : ℕ) → x < 2 ^ 64 → linear_image images.now x ≡ K.product x (W.number scalar) }
    ensures long { length words.new ≡ length words.old }
    ensures products { Each (field_of W.number K.width K.product K.generator)
        (λ x y. y ≡ K.product x (W.number scalar)) words.old words.new }
{
    let mut tables = [<Planes as Entries<Multiples>>::zeros(); 16];
    set_tables::<Multiples, Planes>(&mut tables, images);
    let done = map_words::<u64, W, Multiples, Planes>(words, &tables);
    let (_, rest) = words.split_at_mut(done);
    multiply_each_by::<u64, W, K>(rest, scalar);
}

/// Adds to each sum the product of the scalar, whose products with the bits are the images, and the word at its place. The
/// slices are of one length.
pub(crate) fn add_all<K: FieldKernel<u64>, W: WordBytes<u64>>(
    sums: &mut [W],
    words: &[W],
    scalar: W,
    images: &[u64; 64],
)
    requires width { K.width ≡ 64 }
    requires size { W.size ≡ 3 }
    requires same { length words.now ≡ length sums.old }
    requires images { (x : ℕ) → x < 2 ^ 64 → linear_image images.now x ≡ K.product x (W.number scalar) }
    ensures { EachOfTwo (field_of W.number K.width K.product K.generator)
        (λ sum x next. next ≡ bit_xor sum (K.product (W.number scalar) x)) sums.old words.now sums.new }
{
    let mut tables = [<Planes as Entries<Multiples>>::zeros(); 16];
    set_tables::<Multiples, Planes>(&mut tables, images);
    W::numbers_fit(sums);
    let done = add_images::<u64, W, Multiples, Planes>(sums, words, &tables);
    let (_, rest) = sums.split_at_mut(done);
    let (_, others) = words.split_at(done);
    change_all_by::<u64, W, K, ScaledSum<W>>(rest, others, &ScaledSum { scalar });
}

/// The products of a scalar and each bit, as polynomials modulo x^64 + x^4 + x^3 + x + 1.
pub(crate) fn polynomial_images(scalar: u64) -> [u64; 64]
    ensures { (x : ℕ) → x < 2 ^ 64 → linear_image result x ≡ mul_mod 64 poly64_modulus x scalar }
{
    let mut images = [0; 64];
    for bit in 0..64u32 {
        let (low, high) = split_128(u128::from(scalar) << bit);
        images[bit as usize] = reduce_64(low, high);
    }
    images
}
