// The arithmetic of a field on words that hold its stored words `R`, by the kernel `K`.
ghost use Rattle.std.specs.Prelude.{◌≡◌, ◌<◌, ◌^◌, ◌↔◌, IsTrue, bit_xor, length, map};
ghost use Rattle.field_base.specs.Field.{IsInverseOrZero};
ghost use Rattle.field_base.specs.Powers.{dot_of, power};

use field_base::{FieldKernel, Holds, Reads, Stored};

/// The word 0.
#[inline]
pub fn zero<R: Stored, W: Holds<R>>() -> W
    ensures { W.number result ≡ 0 }
{
    W::of_stored(R::ZERO)
}

/// The word 1, the one of the field.
#[inline]
pub fn one<R: Stored, W: Holds<R>>() -> W
    ensures { W.number result ≡ 1 }
{
    W::of_stored(R::ONE)
}

/// A generator of the nonzero elements.
#[inline]
pub fn generator<R: Stored, W: Holds<R>, K: FieldKernel<R>>() -> W
    ensures { W.number result ≡ K.generator }
{
    W::of_stored(K::GENERATOR)
}

/// Whether a word is an element.
#[inline]
pub fn is_element<R: Stored, W: Holds<R>, K: FieldKernel<R>>(x: W) -> bool
    ensures { IsTrue result ↔ (W.number x < 2 ^ K.width) }
{
    let word = x.stored();
    K::truncate(word) == word
}

/// Whether a word is 0.
#[inline]
pub fn is_zero<R: Stored, W: Holds<R>>(x: W) -> bool
    ensures { IsTrue result ↔ (W.number x ≡ 0) }
{
    x.stored() == R::ZERO
}

/// The sum.
#[inline]
pub fn add<R: Stored, W: Holds<R>>(x: W, y: W) -> W
    ensures { W.number result ≡ bit_xor (W.number x) (W.number y) }
{
    W::of_stored(x.stored().xor(y.stored()))
}

/// The product.
#[inline]
pub fn multiply<R: Stored, W: Holds<R>, K: FieldKernel<R>>(x: W, y: W) -> W
    ensures { W.number result ≡ K.product (W.number x) (W.number y) }
{
    W::of_stored(K::multiply(x.stored(), y.stored()))
}

/// The square.
#[inline(always)]
pub fn square<R: Stored, W: Holds<R>, K: FieldKernel<R>>(x: W) -> W
    ensures { W.number result ≡ K.product (W.number x) (W.number x) }
{
    W::of_stored(K::square(x.stored()))
}

/// The inverse of an element, and 0 for 0.
#[inline]
pub fn invert<R: Stored, W: Holds<R>, K: FieldKernel<R>>(x: W) -> W
    requires { W.number x < 2 ^ K.width }
    ensures fits { W.number result < 2 ^ K.width }
    ensures inverse { IsInverseOrZero K.product (W.number x) (W.number result) }
{
    W::of_stored(K::invert(x.stored()))
}

/// The square root of an element, whose square is the element.
#[inline(always)]
pub fn sqrt<R: Stored, W: Holds<R>, K: FieldKernel<R>>(x: W) -> W
    requires { W.number x < 2 ^ K.width }
    ensures fits { W.number result < 2 ^ K.width }
    ensures root { K.product (W.number result) (W.number result) ≡ W.number x }
{
    W::of_stored(K::sqrt(x.stored()))
}

/// The power of the exponent, by squaring and multiplying from its lowest bit; to the power of 0 it is 1.
#[inline]
pub fn raise<R: Stored, W: Holds<R>, K: FieldKernel<R>>(x: W, exponent: u64) -> W
    ensures { W.number result ≡ power 1 K.product (W.number x) exponent }
{
    let mut base = x;
    let mut rest = exponent;
    let mut value = one::<R, W>();
    while rest != 0 {
        if rest % 2 == 1 {
            value = multiply::<R, W, K>(value, base);
        }
        base = square::<R, W, K>(base);
        rest /= 2;
    }
    value
}

/// The sum of the products at each place of two slices of one length. Two products are added at once, and where the count is odd the last
/// alone; the kernel reduces their sum once.
#[inline]
pub fn dot_product<R: Stored, P: Reads<R>, K: FieldKernel<R>>(left: &[P], right: &[P]) -> R
    requires { length left.now ≡ length right.now }
    ensures { R.number result ≡ dot_of K.product P.number left.now right.now }
{
    let (mut low, mut high) = K::no_products();
    let pair_count = left.len() / 2;
    'pairs: for pair in 0..pair_count {
        let at = 2 * pair;
        let (x, next_x) = (left[at].stored(), left[at + 1].stored());
        let (y, next_y) = (right[at].stored(), right[at + 1].stored());
        (low, high) = K::add_two_products(low, high, x, next_x, y, next_y);
    }
    'rest: for at in 2 * pair_count..left.len() {
        (low, high) = K::add_product(low, high, left[at].stored(), right[at].stored());
    }
    K::reduce_sum(low, high)
}

/// Writes the word that is read from each place. The slices are of one length.
#[inline(always)]
pub fn read_each<R: Stored, P: Reads<R>>(words: &mut [R], places: &[P])
    requires { length words.old ≡ length places.now }
    ensures { map R.number words.new ≡ map P.number places.now }
{
    for place in 0..words.len() {
        words[place] = places[place].stored();
    }
}
