// Powers of many words with one exponent: by squaring and multiplying from its lowest bit, all words of a block at once.
ghost use Rattle.std.specs.Prelude.{◌≡◌, ◌<◌, ◌≤◌, ◌^◌, cond, get_or, length, min};
ghost use Rattle.field_base.specs.Powers.{power};
ghost use Rattle.many_words.specs.Fields.{field_of};
ghost use Rattle.many_words.specs.Words.{AreElements, Each};

use crate::fields;
use crate::many::{Many, multiply};
use crate::one_by_one::change_all;
use crate::operations::{Power, Square};
use bit_slices::Vector;
use field_base::{Holds, Stored};
use ghash_slices::Width;

// How many words are raised to a power at once: as many as a block of bytes in slices of wide vectors.
const AT_ONCE: usize = 256;

/// Raises each word, an element, to the power of the exponent; to the power of 0 it is 1. Products are those of `multiply`.
#[inline]
pub fn raise<R: Stored, W: Holds<R>, K: Many<R, W>, V: Width + Vector>(
    words: &mut [W],
    exponent: u64,
)
    requires { AreElements (field_of W.number K.width K.product K.generator) words.old }
    ensures long { length words.new ≡ length words.old }
    ensures powers { Each (field_of W.number K.width K.product K.generator) (λ x y. y ≡ power 1 K.product x exponent) words.old words.new }
{
    if words.len() < K::sizes::<V>().multiplied {
        change_all::<R, W, K, Power>(words, &Power { exponent });
        return;
    }
    raise_many::<R, W, K, V>(words, exponent);
}

// `raise`, by blocks. Never inlined, since a function clears its locals when it is called.
#[inline(never)]
fn raise_many<R: Stored, W: Holds<R>, K: Many<R, W>, V: Width + Vector>(
    words: &mut [W],
    exponent: u64,
)
    requires { AreElements (field_of W.number K.width K.product K.generator) words.old }
    ensures long { length words.new ≡ length words.old }
    ensures powers { Each (field_of W.number K.width K.product K.generator) (λ x y. y ≡ power 1 K.product x exponent) words.old words.new }
{
    let mut powers = [fields::one::<R, W>(); AT_ONCE];
    raise_blocks::<R, W, K, V>(words, &mut powers, exponent);
}

// Raises each word, as many at once as there is space for powers.
fn raise_blocks<R: Stored, W: Holds<R>, K: Many<R, W>, V: Width + Vector>(
    words: &mut [W],
    powers: &mut [W],
    exponent: u64,
)
    requires some { 0 < length powers.old }
    requires elements { AreElements (field_of W.number K.width K.product K.generator) words.old }
    ensures long { length words.new ≡ length words.old }
    ensures powers { Each (field_of W.number K.width K.product K.generator) (λ x y. y ≡ power 1 K.product x exponent) words.old words.new }
{
    let mut start = 0;
    while start < words.len() {
        let end = start + at_most(words.len() - start, powers.len());
        raise_block::<R, W, K, V>(&mut words[start..end], &mut powers[..end - start], exponent);
        start = end;
    }
}

// So many, but at most the bound.
#[inline]
fn at_most(count: usize, bound: usize) -> usize
    ensures { result ≡ min count bound }
{
    if count < bound { count } else { bound }
}

// Raises each word of a block. The slices are of one length.
fn raise_block<R: Stored, W: Holds<R>, K: Many<R, W>, V: Width + Vector>(
    words: &mut [W],
    powers: &mut [W],
    exponent: u64,
)
    requires same { length words.old ≡ length powers.old }
    requires elements { AreElements (field_of W.number K.width K.product K.generator) words.old }
    ensures long { length words.new ≡ length words.old }
    ensures kept { length powers.new ≡ length powers.old }
    ensures powers { Each (field_of W.number K.width K.product K.generator) (λ x y. y ≡ power 1 K.product x exponent) words.old words.new }
{
    set_ones::<R, W>(powers);
    multiply_by_powers::<R, W, K, V>(powers, words, exponent);
    words.copy_from_slice(powers);
}

// Makes every word 1.
fn set_ones<R: Stored, W: Holds<R>>(words: &mut [W])
    ensures length { length words.new ≡ length words.old }
    ensures ones { (k : _) → k < length words.new → (d : _) → W.number (get_or words.new k d) ≡ 1 }
{
    for place in 0..words.len() {
        words[place] = fields::one::<R, W>();
    }
}

// Multiplies each value, an element, by the power of the base at its place, an element; the bases are squared on the way. The slices are of
// one length.
fn multiply_by_powers<R: Stored, W: Holds<R>, K: Many<R, W>, V: Width + Vector>(
    values: &mut [W],
    bases: &mut [W],
    exponent: u64,
)
    requires same { length bases.old ≡ length values.old }
    requires values { AreElements (field_of W.number K.width K.product K.generator) values.old }
    requires bases { AreElements (field_of W.number K.width K.product K.generator) bases.old }
    ensures long { length values.new ≡ length values.old }
    ensures also { length bases.new ≡ length bases.old }
    ensures products { (k : _) → k < length values.new → (d : _) → W.number (get_or values.new k d)
        ≡ K.product (W.number (get_or values.old k d)) (power 1 K.product (W.number (get_or bases.old k d)) exponent) }
{
    let mut rest = exponent;
    'bits: while rest != 0 {
        multiply_where::<R, W, K, V>(values, bases, rest % 2 == 1);
        change_all::<R, W, K, Square>(bases, &Square);
        rest /= 2;
    }
}

// Multiplies each value by the base at its place, if that is asked for. The slices are of one length.
fn multiply_where<R: Stored, W: Holds<R>, K: Many<R, W>, V: Width + Vector>(
    values: &mut [W],
    bases: &[W],
    is_asked: bool,
)
    requires { length bases.now ≡ length values.old }
    ensures long { length values.new ≡ length values.old }
    ensures products { (k : _) → k < length values.new → (d : _) → W.number (get_or values.new k d)
        ≡ cond is_asked (K.product (W.number (get_or values.old k d)) (W.number (get_or bases.now k d))) (W.number (get_or values.old k d)) }
{
    if is_asked {
        multiply::<R, W, K, V>(values, bases);
    }
}
