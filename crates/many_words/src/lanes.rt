// Products of words of 128 bits at each place, four at once in vectors of a width, and what is left behind them two at once.
ghost use Rattle.std.specs.Prelude.{◌≡◌, ◌+◌, ◌*◌, ◌^◌, ◌≤◌, [], ◌∷◌, bit_xor, drop, length, map, slice_index};
ghost use Rattle.std.specs.Simd.Lanes.{zip2};
ghost use Rattle.field_base.specs.Powers.{dot_of};
ghost use Rattle.field_base.specs.Remainder.{ghash_modulus, rem};
ghost use Rattle.ghash_slices.specs.Blocks.{HoldsPlaces};
ghost use Rattle.ghash_slices.specs.LowStages.{ghash_product};
ghost use Rattle.ghash_slices.specs.Fours.{product_at};

use bit_slices::Vector;
use field_base::{Holds, Reads};
use ghash_slices::{Width, number_at, put_number};
use word_carryless::{
    multiply_128, multiply_128_twice, multiply_mod_128, multiply_mod_128_twice, reduce_128,
};

/// Multiplies each word by the other word at its place, four at once, and what is left behind them two at once. The slices have one length.
pub(crate) fn multiply_each<V: Width, W: Holds<u128>>(words: &mut [W], others: &[W])
    requires { length words.old ≡ length others.now }
    ensures { map W.number words.new ≡ zip2 ghash_product (map W.number words.old) (map W.number others.now) }
{
    let four_count = words.len() / 4;
    'fours: for four in 0..four_count {
        let at = 4 * four;
        let products = V::multiply_four(four_at(words, at), four_at(others, at));
        put_number(words, at, products[0]);
        put_number(words, at + 1, products[1]);
        put_number(words, at + 2, products[2]);
        put_number(words, at + 3, products[3]);
    }
    multiply_by_pairs(words, others, 4 * four_count);
}

// From a place on, two at once.
fn multiply_by_pairs<W: Holds<u128>>(words: &mut [W], others: &[W], start: usize)
    requires same { length words.old ≡ length others.now }
    requires inside { start ≤ length words.old }
    ensures { HoldsPlaces (product_at (map W.number words.old) (map W.number others.now)) start (length words.old)
        (map W.number words.old) (map W.number words.new) }
{
    let pair_count = (words.len() - start) / 2;
    'pairs: for pair in 0..pair_count {
        let at = start + 2 * pair;
        let (word, next_word) = two_at(words, at);
        let (other, next_other) = two_at(others, at);
        let (first, second) = multiply_mod_128_twice(word, next_word, other, next_other);
        put_number(words, at, first);
        put_number(words, at + 1, second);
    }
    'rest: for at in start + 2 * pair_count..words.len() {
        let product = multiply_mod_128(number_at(words, at), number_at(others, at));
        put_number(words, at, product);
    }
}

/// The sum of the products at each place, which is 0 of none: of four at once in wide vectors, and of two behind them. The slices are of
/// one length.
pub(crate) fn dot_of_words<V: Width + Vector, W: Reads<u128>>(left: &[W], right: &[W]) -> u128
    requires { length left.now ≡ length right.now }
    ensures { result ≡ dot_of ghash_product (λ x. x) (map W.number left.now) (map W.number right.now) }
{
    let mut low = 0;
    let mut high = 0;
    let four_count = fours_added::<V>(left.len());
    'fours: for four in 0..four_count {
        let at = 4 * four;
        (low, high) = V::add_four_products(low, high, four_at(left, at), four_at(right, at));
    }
    add_pairs(low, high, left, right, 4 * four_count)
}

// How many fours of so many products are added four at once: none in narrow vectors, where two at once take less time.
#[inline(always)]
fn fours_added<V: Vector>(count: usize) -> usize
    ensures { 4 * result ≤ count }
{
    if V::lanes() < 256 { 0 } else { count / 4 }
}

// The remainder of a sum of products, and the sum of the products from a place on: two at once, and reduced once.
fn add_pairs<W: Reads<u128>>(low: u128, high: u128, left: &[W], right: &[W], start: usize) -> u128
    requires same { length left.now ≡ length right.now }
    requires inside { start ≤ length left.now }
    ensures { result ≡ bit_xor (rem 128 ghash_modulus (high * 2 ^ 128 + low))
        (dot_of ghash_product (λ x. x) (drop start (map W.number left.now)) (drop start (map W.number right.now))) }
{
    W::numbers_fit(left);
    W::numbers_fit(right);
    let mut sum_low = low;
    let mut sum_high = high;
    let pair_count = (left.len() - start) / 2;
    'pairs: for pair in 0..pair_count {
        let at = start + 2 * pair;
        let (word, next_word) = two_at(left, at);
        let (other, next_other) = two_at(right, at);
        let ((a_low, a_high), (b_low, b_high)) = multiply_128_twice(
            word, next_word, other, next_other,
        );
        sum_low = sum_low ^ a_low ^ b_low;
        sum_high = sum_high ^ a_high ^ b_high;
    }
    'rest: for at in start + 2 * pair_count..left.len() {
        let (product_low, product_high) = multiply_128(number_at(left, at), number_at(right, at));
        sum_low ^= product_low;
        sum_high ^= product_high;
    }
    reduce_128(sum_low, sum_high)
}

// The numbers of two words from a place on.
#[inline(always)]
fn two_at<W: Reads<u128>>(words: &[W], at: usize) -> (u128, u128)
    requires { at + 2 ≤ length words.now }
    ensures first { result.0 ≡ slice_index (map W.number words.now) at }
    ensures second { result.1 ≡ slice_index (map W.number words.now) (at + 1) }
{
    (number_at(words, at), number_at(words, at + 1))
}

// The numbers of four words from a place on.
#[inline(always)]
fn four_at<W: Reads<u128>>(words: &[W], at: usize) -> [u128; 4]
    requires { at + 4 ≤ length words.now }
    ensures { result ≡ slice_index (map W.number words.now) at ∷ slice_index (map W.number words.now) (at + 1)
        ∷ slice_index (map W.number words.now) (at + 2) ∷ slice_index (map W.number words.now) (at + 3) ∷ [] }
{
    [
        number_at(words, at),
        number_at(words, at + 1),
        number_at(words, at + 2),
        number_at(words, at + 3),
    ]
}
