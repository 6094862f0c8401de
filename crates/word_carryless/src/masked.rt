// Carryless products by integer products of words with holes, as in T. Pornin's BearSSL (`ghash_ctmul64.c`).
//
// A word of class i has bits only at places that are i modulo 4. In the product of two such words the columns that
// have bits are four places apart, so that a column may count to 15 before it reaches the next; the lowest bit of a
// column is the coefficient of the carryless product. Only the highest column can reach 16, and its carry leaves
// the word.
ghost use Rattle.std.specs.Prelude.{◌≡◌, ◌%◌, ◌+◌, ◌^◌, ◌<◌, ℕ, List, bit_and, map};
ghost use Rattle.std.specs.List.{All};
ghost use Rattle.std.specs.Simd.Lanes.{Each1, zip2};
ghost use Rattle.std.proofs.Common.{Fits, w64};
ghost use Rattle.field_base.specs.Carryless.{carryless};
ghost use Rattle.word_carryless.specs.Masked.{AreClasses, IsInClass, class_mask, in_class};

use crate::word_vector::WordVector;
use std::simd::prelude::*;

/// The bits of a word that are 0 modulo 4.
pub(crate) const CLASS_0: u64 = 0x1111_1111_1111_1111;

/// The bits of a word that are 1 modulo 4.
pub(crate) const CLASS_1: u64 = 0x2222_2222_2222_2222;

/// The bits of a word that are 2 modulo 4.
pub(crate) const CLASS_2: u64 = 0x4444_4444_4444_4444;

/// The bits of a word that are 3 modulo 4.
pub(crate) const CLASS_3: u64 = 0x8888_8888_8888_8888;

/// The words of a vector, split into those of class 0, 1, 2 and 3.
pub type Classes<V> = (V, V, V, V);

/// The bits of a word that are of class `i`, which are those modulo 4.
pub fn word_of_class(word: u64, i: u32) -> u64
    requires { i < 4 }
    ensures bits { result ≡ bit_and word (class_mask i) }
    ensures class { IsInClass i result }
{
    word & (CLASS_0 << i)
}

/// The low 64 bits of the carryless product of a word of class `i` and a word of class `j`.
///
/// It is the integer product modulo 2^64, masked to class `(i + j) % 4`.
#[tactic(auto, using(crate::proofs::CarryIsolation::masked_carryless))]
pub fn masked_product(x: u64, y: u64, i: u32, j: u32) -> u64
    requires i_in_range { i < 4 }
    requires j_in_range { j < 4 }
    requires x_in_class { IsInClass i x }
    requires y_in_class { IsInClass j y }
    ensures { result ≡ carryless x y % 2 ^ 64 }
{
    x.wrapping_mul(y) & (CLASS_0 << ((i + j) % 4))
}

/// Replaces each word of `xs`, all of class `i`, by its masked product with `y` of class `j`: four lanes at a time, then two, then
/// a word.
pub fn masked_products(xs: &mut [u64], y: u64, i: u32, j: u32)
    requires i_in_range { i < 4 }
    requires j_in_range { j < 4 }
    requires xs_in_class { All (IsInClass i) xs.old }
    requires y_in_class { IsInClass j y }
    ensures { xs.new ≡ map (λ x. carryless x y % 2 ^ 64) xs.old }
{
    let four_count = xs.len() / 4;
    'fours: for four in 0..four_count {
        let start = 4 * four;
        masked_lanes(u64x4::from_slice(&xs[start..]), y, i, j).copy_to_slice(&mut xs[start..]);
    }
    let two_count = xs.len() / 2;
    'twos: for two in 2 * four_count..two_count {
        let start = 2 * two;
        masked_lanes(u64x2::from_slice(&xs[start..]), y, i, j).copy_to_slice(&mut xs[start..]);
    }
    'rest: for place in 2 * two_count..xs.len() {
        xs[place] = masked_product(xs[place], y, i, j);
    }
}

// The masked products of the words in each lane, all of class `i`, with `y` of class `j`.
#[inline(always)]
fn masked_lanes<V: WordVector>(xs: V, y: u64, i: u32, j: u32) -> V
    requires i_in_range { i < 4 }
    requires j_in_range { j < 4 }
    requires xs_in_class { All (IsInClass i) (V.words xs) }
    requires y_in_class { IsInClass j y }
    ensures { V.words result ≡ map (λ x. carryless x y % 2 ^ 64) (V.words xs) }
{
    xs.holds_words();
    xs.product(V::filled(y)).masked(CLASS_0 << ((i + j) % 4))
}

/// The low 64 bits of the carryless product of two words.
pub fn multiply_low_64(x: u64, y: u64) -> u64
    ensures { result ≡ carryless x y % 2 ^ 64 }
{
    let product = multiply_low_words(u64x1::from_array([x]), u64x1::from_array([y]));
    product.to_array()[0]
}

/// The low 64 bits of the carryless products of the words in each lane.
#[inline(always)]
pub(crate) fn multiply_low_words<V: WordVector>(left: V, right: V) -> V
    ensures { V.words result ≡ zip2 (λ a b. carryless a b % 2 ^ 64) (V.words left) (V.words right) }
{
    left.holds_words();
    right.holds_words();
    products_of_classes(classes_of(left), classes_of(right))
}

/// The low 64 bits of the carryless products of words, of which the bits of each class are given.
#[inline(always)]
pub(crate) fn products_of_classes<V: WordVector>(x: Classes<V>, y: Classes<V>) -> V
    ensures { (left right : List ℕ) → Each1 (Fits w64) left → Each1 (Fits w64) right
        → AreClasses left (V.words x.0) (V.words x.1) (V.words x.2) (V.words x.3)
        → AreClasses right (V.words y.0) (V.words y.1) (V.words y.2) (V.words y.3)
        → V.words result ≡ zip2 (λ a b. carryless a b % 2 ^ 64) left right }
{
    V::multiply_classes(x.0, x.1, x.2, x.3, y.0, y.1, y.2, y.3)
}

/// The bits of each word that are of class 0, 1, 2 and 3.
#[inline(always)]
pub(crate) fn classes_of<V: WordVector>(words: V) -> Classes<V>
    ensures { AreClasses (V.words words) (V.words result.0) (V.words result.1) (V.words result.2) (V.words result.3) }
{
    (
        words.masked(CLASS_0),
        words.masked(CLASS_1),
        words.masked(CLASS_2),
        words.masked(CLASS_3),
    )
}
