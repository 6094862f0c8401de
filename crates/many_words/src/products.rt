// Products of words of 128 bits in the field of GHASH, in vectors of a width.
ghost use Rattle.std.specs.Prelude.{◌≡◌, length};
ghost use Rattle.field_base.specs.Powers.{dot_of};
ghost use Rattle.ghash_slices.specs.LowStages.{ghash_product};
ghost use Rattle.many_words.specs.Fields.{ghash_field_of};
ghost use Rattle.many_words.specs.Words.{EachOfTwo};

use crate::lanes::{dot_of_words, multiply_each};
use bit_slices::Vector;
use field_base::{Holds, Reads};
use ghash_slices::Width;

/// Multiplies each product by the word at its place, four at once. The slices are of one length.
pub(crate) fn multiply_all<V: Width, W: Holds<u128>>(products: &mut [W], words: &[W])
    requires { length words.now ≡ length products.old }
    ensures long { length products.new ≡ length products.old }
    ensures products { EachOfTwo (ghash_field_of W.number) (λ x y z. z ≡ ghash_product x y) products.old words.now products.new }
{
    multiply_each::<V, W>(products, words);
}

/// The sum of the products at each place, which is 0 of none: by two products at once, or by four in wide vectors. The slices are of one
/// length.
pub(crate) fn dot_product<V: Width + Vector, P: Reads<u128>>(left: &[P], right: &[P]) -> u128
    requires { length left.now ≡ length right.now }
    ensures { result ≡ dot_of ghash_product P.number left.now right.now }
{
    dot_of_words::<V, P>(left, right)
}
