// Two or four products of double words at once modulo the polynomial of GHASH, a lane of a vector an element. The low words stand in
// one vector and the high words in another, since no lane has 128 bits.
//
// Each lane is multiplied and reduced as by `multiply_mod_128`, so that two products take little more time than one. Four are for
// processors with vectors of 256 bits: on others these do not fit the registers, and two pairs are faster.
ghost use Rattle.std.specs.Prelude.{◌≡◌, ◌*◌, ◌+◌, ◌/◌, ◌%◌, ◌^◌, ℕ, List, [], ◌∷◌, map};
ghost use Rattle.std.specs.Simd.Lanes.{Each1, zip2};
ghost use Rattle.std.proofs.Common.{Fits, w64};
ghost use Rattle.field_base.specs.Carryless.{carryless};
ghost use Rattle.field_base.specs.Remainder.{ghash_modulus, mul_mod, rem};
ghost use Rattle.word_carryless.specs.DoubleWords.{AreHalfProducts, AreWordProducts, double_words, high_halves, low_halves};
ghost use Rattle.word_carryless.specs.DoubleWords.{quadruple_words, sums_of_halves};
ghost use Rattle.word_carryless.specs.Masked.{AreClasses};
ghost use Rattle.word_carryless.specs.Tail.{ghash_tail};

use crate::masked::{Classes, classes_of, multiply_low_words, products_of_classes};
use crate::split::{join_128, split_128};
use crate::word_vector::WordVector;
use std::simd::prelude::*;

/// Two products modulo x^128 + x^7 + x^2 + x + 1, `a` by `p` and `b` by `q`.
#[inline(always)]
pub fn multiply_mod_128_twice(a: u128, b: u128, p: u128, q: u128) -> (u128, u128)
    ensures first { result.0 ≡ mul_mod 128 ghash_modulus a p }
    ensures second { result.1 ≡ mul_mod 128 ghash_modulus b q }
{
    let (left_low, left_high) = split_two(a, b);
    let (right_low, right_high) = split_two(p, q);
    let (low, high) = multiply_elements(left_low, left_high, right_low, right_high);
    join_two(low, high)
}

/// Two carryless products of double words, `a` by `p` and `b` by `q`, low half first.
pub fn multiply_128_twice(a: u128, b: u128, p: u128, q: u128) -> ((u128, u128), (u128, u128))
    ensures first { carryless a p ≡ result.0.1 * 2 ^ 128 + result.0.0 }
    ensures second { carryless b q ≡ result.1.1 * 2 ^ 128 + result.1.0 }
{
    let (left_low, left_high) = split_two(a, b);
    let (right_low, right_high) = split_two(p, q);
    let (w0, w1, w2, w3) = multiply_double_words(left_low, left_high, right_low, right_high);
    let (first_low, second_low) = join_two(w0, w1);
    let (first_high, second_high) = join_two(w2, w3);
    ((first_low, first_high), (second_low, second_high))
}

/// Four products modulo x^128 + x^7 + x^2 + x + 1, place by place.
///
/// It is made for x86-64-v3; on x86-64-v2 [`multiply_mod_128_twice`] is faster.
pub fn multiply_mod_128_four_times(left: [u128; 4], right: [u128; 4]) -> [u128; 4]
    ensures { result ≡ zip2 (mul_mod 128 ghash_modulus) left right }
{
    let (left_low, left_high) = split_four(left);
    let (right_low, right_high) = split_four(right);
    let (low, high) = multiply_elements(left_low, left_high, right_low, right_high);
    join_four(low, high)
}

// Two double words in lanes: the low words, and the high words.
#[inline(always)]
fn split_two(a: u128, b: u128) -> (u64x2, u64x2)
    ensures { double_words result.0 result.1 ≡ a ∷ b ∷ [] }
{
    let (a_low, a_high) = split_128(a);
    let (b_low, b_high) = split_128(b);
    (
        u64x2::from_array([a_low, b_low]),
        u64x2::from_array([a_high, b_high]),
    )
}

// The double words of two lanes.
#[inline(always)]
fn join_two(low: u64x2, high: u64x2) -> (u128, u128)
    ensures { double_words low high ≡ result.0 ∷ result.1 ∷ [] }
{
    let lows = low.to_array();
    let highs = high.to_array();
    (join_128(lows[0], highs[0]), join_128(lows[1], highs[1]))
}

// Four double words in lanes: the low words, and the high words.
#[inline(always)]
fn split_four(elements: [u128; 4]) -> (u64x4, u64x4)
    ensures { double_words result.0 result.1 ≡ elements }
{
    let (a_low, a_high) = split_128(elements[0]);
    let (b_low, b_high) = split_128(elements[1]);
    let (c_low, c_high) = split_128(elements[2]);
    let (d_low, d_high) = split_128(elements[3]);
    (
        u64x4::from_array([a_low, b_low, c_low, d_low]),
        u64x4::from_array([a_high, b_high, c_high, d_high]),
    )
}

// The double words of four lanes.
#[inline(always)]
fn join_four(low: u64x4, high: u64x4) -> [u128; 4]
    ensures { result ≡ double_words low high }
{
    let lows = low.to_array();
    let highs = high.to_array();
    [
        join_128(lows[0], highs[0]),
        join_128(lows[1], highs[1]),
        join_128(lows[2], highs[2]),
        join_128(lows[3], highs[3]),
    ]
}

// The products modulo the polynomial of GHASH of the lanes.
#[inline(always)]
fn multiply_elements<V: WordVector>(x0: V, x1: V, y0: V, y1: V) -> (V, V)
    ensures { double_words (V.words result.0) (V.words result.1)
        ≡ zip2 (mul_mod 128 ghash_modulus) (double_words (V.words x0) (V.words x1)) (double_words (V.words y0) (V.words y1)) }
{
    x0.holds_words();
    x1.holds_words();
    y0.holds_words();
    y1.holds_words();
    let (w0, w1, w2, w3) = multiply_double_words(x0, x1, y0, y1);
    reduce(w0, w1, w2, w3)
}

// The carryless products of the lanes, as four words each, the lowest first.
#[inline(always)]
fn multiply_double_words<V: WordVector>(x0: V, x1: V, y0: V, y1: V) -> (V, V, V, V)
    ensures { quadruple_words (V.words result.0) (V.words result.1) (V.words result.2) (V.words result.3)
        ≡ zip2 carryless (double_words (V.words x0) (V.words x1)) (double_words (V.words y0) (V.words y1)) }
{
    x0.holds_words();
    x1.holds_words();
    y0.holds_words();
    y1.holds_words();
    let (low_0, low_1) = multiply_words(x0, y0);
    let (high_0, high_1) = multiply_words(x1, y1);
    let (both_0, both_1) = multiply_words(x0.sum(x1), y0.sum(y1));
    let crossed = low_1.sum(high_0);
    (
        low_0,
        crossed.sum(low_0).sum(both_0),
        crossed.sum(high_1).sum(both_1),
        high_1,
    )
}

// The remainders modulo the polynomial of GHASH of the lanes, of four words each, the lowest first. The two highest words are
// folded in turn: what the highest spills past its place goes to the next.
#[inline(always)]
fn reduce<V: WordVector>(w0: V, w1: V, w2: V, w3: V) -> (V, V)
    ensures { double_words (V.words result.0) (V.words result.1)
        ≡ map (rem 128 ghash_modulus) (quadruple_words (V.words w0) (V.words w1) (V.words w2) (V.words w3)) }
{
    w0.holds_words();
    w1.holds_words();
    w2.holds_words();
    w3.holds_words();
    let next = w2.sum(spill(w3));
    (
        w0.sum(times_tail(next)),
        w1.sum(times_tail(w3)).sum(spill(next)),
    )
}

/// The terms below x^64 of the products by x^7 + x^2 + x + 1.
#[inline(always)]
pub fn times_tail<V: WordVector>(words: V) -> V
    ensures { V.words result ≡ map (λ h. carryless h ghash_tail % 2 ^ 64) (V.words words) }
{
    words.holds_words();
    words.up(7).sum(words.up(2)).sum(words.up(1)).sum(words)
}

/// The terms from x^64 on of the products by x^7 + x^2 + x + 1, divided by x^64.
#[inline(always)]
pub fn spill<V: WordVector>(words: V) -> V
    ensures { V.words result ≡ map (λ h. carryless h ghash_tail / 2 ^ 64) (V.words words) }
{
    words.holds_words();
    words.down(57).sum(words.down(62)).sum(words.down(63))
}

// The carryless products of the lanes: the low words, and the high words.
#[inline(always)]
fn multiply_words<V: WordVector>(left: V, right: V) -> (V, V)
    ensures { AreWordProducts (V.words left) (V.words right) (V.words result.0) (V.words result.1) }
{
    left.holds_words();
    right.holds_words();
    let left_high = left.down(32);
    let right_high = right.down(32);
    let low = multiply_low_halves(left, right);
    let high = multiply_low_halves(left_high, right_high);
    let both = multiply_low_halves(left.sum(left_high), right.sum(right_high));
    join_halves(low, high, both)
}

// The carryless products of the low half words of the lanes. The mask of the low half comes first, so that one multiplication of half
// words in lanes serves each pair of classes. Each operand is split into classes just before its product: all at once they do not fit
// the registers.
#[inline(always)]
fn multiply_low_halves<V: WordVector>(left: V, right: V) -> V
    ensures { V.words result ≡ zip2 (λ a b. carryless a b % 2 ^ 64) (low_halves (V.words left)) (low_halves (V.words right)) }
{
    multiply_low_words(left.masked(0xffff_ffff), right.masked(0xffff_ffff))
}

// The words of products, from the products of the low halves, of the high halves and of their sums.
#[inline(always)]
fn join_halves<V: WordVector>(low: V, high: V, both: V) -> (V, V)
    ensures { (left right : List ℕ) → Each1 (Fits w64) left → Each1 (Fits w64) right
        → AreHalfProducts left right (V.words low) (V.words high) (V.words both)
        → AreWordProducts left right (V.words result.0) (V.words result.1) }
{
    let middle = both.sum(low).sum(high);
    (low.sum(middle.up(32)), high.sum(middle.down(32)))
}

/// The low half of each word, the high half and the sum of both, each split into classes.
#[inline(always)]
pub fn halves_of<V: WordVector>(words: V) -> (Classes<V>, Classes<V>, Classes<V>)
    ensures low { AreClasses (low_halves (V.words words))
        (V.words result.0.0) (V.words result.0.1) (V.words result.0.2) (V.words result.0.3) }
    ensures high { AreClasses (low_halves (high_halves (V.words words)))
        (V.words result.1.0) (V.words result.1.1) (V.words result.1.2) (V.words result.1.3) }
    ensures both { AreClasses (low_halves (sums_of_halves (V.words words)))
        (V.words result.2.0) (V.words result.2.1) (V.words result.2.2) (V.words result.2.3) }
{
    let high = words.down(32);
    (
        classes_of(words.masked(0xffff_ffff)),
        classes_of(high.masked(0xffff_ffff)),
        classes_of(words.sum(high).masked(0xffff_ffff)),
    )
}

/// The carryless products of the lanes, from the classes of their halves: the low words, and the high words. Halves have 32 bits, so that
/// one multiplication of half words in lanes serves each pair of classes.
#[inline(always)]
pub fn multiply_halves<V: WordVector>(
    x: (Classes<V>, Classes<V>, Classes<V>),
    y: (Classes<V>, Classes<V>, Classes<V>),
) -> (V, V)
    ensures { (left right : List ℕ) → Each1 (Fits w64) left → Each1 (Fits w64) right
        → AreClasses (low_halves left) (V.words x.0.0) (V.words x.0.1) (V.words x.0.2) (V.words x.0.3)
        → AreClasses (low_halves (high_halves left)) (V.words x.1.0) (V.words x.1.1) (V.words x.1.2) (V.words x.1.3)
        → AreClasses (low_halves (sums_of_halves left)) (V.words x.2.0) (V.words x.2.1) (V.words x.2.2) (V.words x.2.3)
        → AreClasses (low_halves right) (V.words y.0.0) (V.words y.0.1) (V.words y.0.2) (V.words y.0.3)
        → AreClasses (low_halves (high_halves right)) (V.words y.1.0) (V.words y.1.1) (V.words y.1.2) (V.words y.1.3)
        → AreClasses (low_halves (sums_of_halves right)) (V.words y.2.0) (V.words y.2.1) (V.words y.2.2) (V.words y.2.3)
        → AreWordProducts left right (V.words result.0) (V.words result.1) }
{
    let low = products_of_classes(x.0, y.0);
    let high = products_of_classes(x.1, y.1);
    let both = products_of_classes(x.2, y.2);
    join_halves(low, high, both)
}
