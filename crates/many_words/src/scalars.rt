// Products of words of 128 bits by one scalar in the field of GHASH, in vectors of a width.
ghost use Rattle.std.specs.Prelude.{◌≡◌, ◌<◌, ◌≤◌, ℕ, bit_xor, get_or, length, min};
ghost use Rattle.many_words.specs.Words.{Each, EachOfTwo};
ghost use Rattle.many_words.specs.Fields.{ghash_field_of};
ghost use Rattle.ghash_slices.specs.LowStages.{ghash_product};

use field_base::Holds;
use ghash_slices::{Width, add_multiples};

/// Writes the product of each word and the scalar. The slices are of one length.
pub(crate) fn write_multiples<V: Width, W: Holds<u128>>(words: &[W], scalar: W, products: &mut [W])
    requires { length words.now ≡ length products.old }
    ensures { Each (ghash_field_of W.number) (λ x y. y ≡ ghash_product x (W.number scalar)) words.now products.new }
{
    clear(products);
    add_multiples::<V, W>(products, words, scalar.stored());
}

// How many words are copied at once in place, of few words and of many: to clear the copy of many takes longer than to multiply few.
const FEW_AT_ONCE: usize = 64;

const MANY_AT_ONCE: usize = 1024;

/// Multiplies each word by the scalar: a block of words is copied to the stack, and its products are added to zeros, as in
/// `write_multiples`.
pub(crate) fn multiply_all<V: Width, W: Holds<u128>>(words: &mut [W], scalar: W)
    ensures long { length words.new ≡ length words.old }
    ensures products { Each (ghash_field_of W.number) (λ x y. y ≡ ghash_product x (W.number scalar)) words.old words.new }
{
    if words.len() <= FEW_AT_ONCE {
        multiply_at_once::<V, W, FEW_AT_ONCE>(words, scalar);
    } else {
        multiply_at_once::<V, W, MANY_AT_ONCE>(words, scalar);
    }
}

// Multiplies each word by the scalar, N of them at once. It is apart and never inlined, since a function clears its locals when it is called.
#[inline(never)]
fn multiply_at_once<V: Width, W: Holds<u128>, const N: usize>(words: &mut [W], scalar: W)
    requires some { 0 < N }
    requires few { N ≤ 1024 }
    ensures long { length words.new ≡ length words.old }
    ensures products { Each (ghash_field_of W.number) (λ x y. y ≡ ghash_product x (W.number scalar)) words.old words.new }
{
    let mut copies = [W::of_stored(0); N];
    multiply_blocks::<V, W>(words, &mut copies, scalar);
}

// Multiplies each word by the scalar, as many at once as can be copied.
fn multiply_blocks<V: Width, W: Holds<u128>>(words: &mut [W], copies: &mut [W], scalar: W)
    requires { 0 < length copies.old }
    ensures long { length words.new ≡ length words.old }
    ensures products { Each (ghash_field_of W.number) (λ x y. y ≡ ghash_product x (W.number scalar)) words.old words.new }
{
    let mut start = 0;
    while start < words.len() {
        let end = start + at_most(words.len() - start, copies.len());
        multiply_block::<V, W>(&mut words[start..end], &mut copies[..end - start], scalar);
        start = end;
    }
}

// So many, but at most the bound.
#[inline]
fn at_most(count: usize, bound: usize) -> usize
    ensures { result ≡ min count bound }
{
    if count < bound { count } else { bound }
}

// Multiplies each word of a block by the scalar. The slices are of one length.
fn multiply_block<V: Width, W: Holds<u128>>(words: &mut [W], copies: &mut [W], scalar: W)
    requires { length words.old ≡ length copies.old }
    ensures long { length words.new ≡ length words.old }
    ensures copied { length copies.new ≡ length copies.old }
    ensures products { Each (ghash_field_of W.number) (λ x y. y ≡ ghash_product x (W.number scalar)) words.old words.new }
{
    copies.copy_from_slice(words);
    write_multiples::<V, W>(copies, scalar, words);
}

/// Adds to each sum the product of the scalar and the word at its place. The slices are of one length.
pub(crate) fn add_all<V: Width, W: Holds<u128>>(sums: &mut [W], words: &[W], scalar: W)
    requires { length words.now ≡ length sums.old }
    ensures { EachOfTwo (ghash_field_of W.number) (λ sum x next. next ≡ bit_xor sum (ghash_product (W.number scalar) x)) sums.old
        words.now sums.new }
{
    add_multiples::<V, W>(sums, words, scalar.stored());
}

// Makes every word 0.
fn clear<W: Holds<u128>>(words: &mut [W])
    ensures length { length words.new ≡ length words.old }
    ensures zeros { (k : ℕ) → k < length words.new → (d : _) → W.number (get_or words.new k d) ≡ 0 }
{
    for place in 0..words.len() {
        words[place] = W::of_stored(0);
    }
}
