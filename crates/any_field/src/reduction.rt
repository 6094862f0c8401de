// Products of words modulo x^degree + tail, of degree 1 to 128, by Barrett's reduction: the quotient of x^(2 degree) by the modulus is
// computed once, and then each product takes three of words (P. Barrett, Implementing the Rivest Shamir and Adleman public key encryption
// algorithm on a standard digital signal processor, 1986). Bit i of a word is the coefficient of x^i.
ghost use Rattle.std.specs.Prelude.{◌≡◌, ◌+◌, ◌*◌, ◌/◌, ◌%◌, ◌^◌, ◌<◌, ◌≤◌};
ghost use Rattle.field_base.specs.Powers.{repeated_square};
ghost use Rattle.field_base.specs.Remainder.{rem};
ghost use Rattle.any_field.specs.Contexts.{IsContext, field_product, with_top};

use word_carryless::{
    carryless_square_64, carryless_square_128, multiply_32, multiply_64, multiply_128, spread_32,
};

/// The low `width` bits of a word.
#[tactic(auto, using(crate::proofs::WordRemainders::low_bits_are))]
pub(crate) fn low_bits(x: u128, width: u32) -> u128
    requires wide { 0 < width }
    requires narrow { width ≤ 128 }
    ensures { result ≡ x % 2 ^ width }
{
    (x << (128 - width)) >> (128 - width)
}

/// The polynomial x^place.
#[tactic(auto, using(crate::proofs::WordRemainders::one_at))]
pub(crate) fn power_of_x(place: u32) -> u128
    requires { place < 128 }
    ensures { result ≡ 2 ^ place }
{
    1 << place
}

// The bits of a double word of at most `2 width` bits that stand above the low ones.
#[tactic(auto, using(crate::proofs::WordRemainders::high_bits_are))]
fn high_bits(low: u128, high: u128, width: u32) -> u128
    requires wide { 0 < width }
    requires narrow { width ≤ 128 }
    requires fits { high * 2 ^ 128 + low < 2 ^ (width + width) }
    ensures { result ≡ (high * 2 ^ 128 + low) / 2 ^ width }
{
    (low >> 1 >> (width - 1)) ^ (high << (128 - width))
}

/// The remainder modulo x^width + tail of a double word.
pub(crate) fn reduce(width: u32, tail: u128, ratio: u128, low: u128, high: u128) -> u128
    requires context { IsContext width tail ratio }
    requires fits { high * 2 ^ 128 + low < 2 ^ (width + width) }
    ensures { result ≡ rem width (with_top width tail) (high * 2 ^ 128 + low) }
{
    let above = high_bits(low, high, width);
    let (middle, top) = multiply_128(above, ratio);
    let quotient = above ^ high_bits(middle, top, width);
    let (multiple, _) = multiply_128(quotient, tail);
    low_bits(low ^ multiple, width)
}

/// The same of a word, for a width up to 64: the products are of words of 64 bits.
pub(crate) fn reduce_word(width: u32, tail: u128, ratio: u128, word: u128) -> u128
    requires context { IsContext width tail ratio }
    requires narrow { width ≤ 64 }
    requires fits { word < 2 ^ (width + width) }
    ensures { result ≡ rem width (with_top width tail) word }
{
    let above = word >> width;
    let middle = multiply_64(above as u64, ratio as u64);
    let quotient = above ^ (middle >> width);
    let multiple = multiply_64(quotient as u64, tail as u64);
    low_bits(word ^ multiple, width)
}

/// The same of half as many bits, for a width up to 32.
pub(crate) fn reduce_half(width: u32, tail: u128, ratio: u128, word: u64) -> u128
    requires context { IsContext width tail ratio }
    requires narrow { width ≤ 32 }
    requires fits { word < 2 ^ (width + width) }
    ensures { result ≡ rem width (with_top width tail) word }
{
    let above = word >> width;
    let middle = multiply_32(above as u32, ratio as u32);
    let quotient = above ^ (middle >> width);
    let multiple = multiply_32(quotient as u32, tail as u32);
    low_bits((word ^ multiple) as u128, width)
}

/// The product of two elements modulo x^width + tail.
pub(crate) fn multiply(width: u32, tail: u128, ratio: u128, x: u128, y: u128) -> u128
    requires context { IsContext width tail ratio }
    requires x_fits { x < 2 ^ width }
    requires y_fits { y < 2 ^ width }
    ensures { result ≡ field_product width tail x y }
{
    if width <= 32 {
        let product = multiply_32(x as u32, y as u32);
        return reduce_half(width, tail, ratio, product);
    }
    if width <= 64 {
        let product = multiply_64(x as u64, y as u64);
        return reduce_word(width, tail, ratio, product);
    }
    let (low, high) = multiply_128(x, y);
    reduce(width, tail, ratio, low, high)
}

/// The square of an element modulo x^width + tail.
pub(crate) fn square(width: u32, tail: u128, ratio: u128, x: u128) -> u128
    requires context { IsContext width tail ratio }
    requires fits { x < 2 ^ width }
    ensures { result ≡ field_product width tail x x }
{
    if width <= 32 {
        let product = spread_32(x as u32);
        return reduce_half(width, tail, ratio, product);
    }
    if width <= 64 {
        let product = carryless_square_64(x as u64);
        return reduce_word(width, tail, ratio, product);
    }
    let (low, high) = carryless_square_128(x);
    reduce(width, tail, ratio, low, high)
}

// The product by a bit.
fn times_bit(bit: u128, x: u128) -> u128
    requires { bit < 2 }
    ensures { result ≡ bit * x }
{
    if bit == 1 { x } else { 0 }
}

/// The product of an element and x, modulo x^width + tail.
#[inline]
pub(crate) fn times_x(width: u32, tail: u128, x: u128) -> u128
    requires wide { 0 < width }
    requires narrow { width ≤ 128 }
    requires tail_fits { tail < 2 ^ width }
    requires fits { x < 2 ^ width }
    ensures { result ≡ rem width (with_top width tail) (x * 2) }
{
    low_bits(x << 1, width) ^ times_bit(x >> (width - 1), tail)
}

/// The terms of the quotient of x^(2 width) by x^width + tail, but for its highest, by long division.
pub(crate) fn ratio_of(width: u32, tail: u128) -> u128
    requires wide { 0 < width }
    requires narrow { width ≤ 128 }
    requires fits { tail < 2 ^ width }
    ensures { IsContext width tail result }
{
    let mut ratio: u128 = 0;
    let mut rest = tail;
    for _ in 0..width {
        ratio = (ratio << 1) ^ (rest >> (width - 1));
        rest = times_x(width, tail, rest);
    }
    ratio
}

/// An element squared `count` times.
pub(crate) fn square_times(width: u32, tail: u128, ratio: u128, x: u128, count: u32) -> u128
    requires context { IsContext width tail ratio }
    requires fits { x < 2 ^ width }
    ensures { result ≡ repeated_square 1 (field_product width tail) count x }
{
    let mut moved = x;
    for _ in 0..count {
        moved = square(width, tail, ratio, moved);
    }
    moved
}
