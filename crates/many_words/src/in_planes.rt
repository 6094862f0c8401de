// Arithmetic by one scalar on slices of words of a level of the tower, many words at once: in planes, of which each has a byte of each
// word. The scalar's multiples are made once, and the words that do not fill vectors are multiplied one after another.
ghost use Rattle.std.specs.Prelude.{◌≡◌, ◌<◌, ◌^◌, bit_xor, length};
ghost use Rattle.many_words.specs.Words.{Each, EachOfTwo};
ghost use Rattle.many_words.specs.Fields.{field_of};
ghost use Rattle.many_words.specs.Places.{IsInPlanes};

mod impls;

use crate::one_by_one::{change_all_by, multiply_each_by};
use crate::operations::ScaledSum;
use additive_transforms::{PlaneScalars, WordBytes, WordPlanes, add_multiples, multiply_words};
use field_base::{FieldKernel, Holds, Unsigned};

/// A field that is a level of the tower, and the planes that it multiplies them in.
pub trait FieldInPlanes<R: Unsigned, W: WordBytes<R>>: FieldKernel<R> {
    /// The multiples of a scalar.
    type Multiples: Copy;

    /// The planes, of as many words as a vector has bytes.
    type Vectors: WordPlanes<R, W, Self::Multiples> + PlaneScalars<Self::Multiples>;

    // The words are of this level.
    ghost level_law: { IsInPlanes Self.Vectors.Planes.depth W.size Self.width Self.product };
}

/// The least number of words that are multiplied in planes.
pub(crate) const LEAST_IN_PLANES: usize = 32;

/// Multiplies each word by the scalar, an element.
pub(crate) fn multiply_all<R: Unsigned, W: WordBytes<R>, K: FieldInPlanes<R, W>>(
    words: &mut [W],
    scalar: W,
)
    requires { W.number scalar < 2 ^ K.width }
    ensures long { length words.new ≡ length words.old }
    ensures products { Each (field_of W.number K.width K.product K.generator)
        (λ x y. y ≡ K.product x (W.number scalar)) words.old words.new }
{
    let multiples = multiples_of::<R, W, K>(scalar);
    let done = multiply_words::<R, W, K::Multiples, K::Vectors>(words, &multiples);
    let (_, rest) = words.split_at_mut(done);
    multiply_each_by::<R, W, K>(rest, scalar);
}

/// Adds to each sum the product of the scalar, an element, and the word at its place. The slices are of one length.
pub(crate) fn add_all<R: Unsigned, W: WordBytes<R>, K: FieldInPlanes<R, W>>(
    sums: &mut [W],
    words: &[W],
    scalar: W,
)
    requires fits { W.number scalar < 2 ^ K.width }
    requires same { length words.now ≡ length sums.old }
    ensures { EachOfTwo (field_of W.number K.width K.product K.generator)
        (λ sum x next. next ≡ bit_xor sum (K.product (W.number scalar) x)) sums.old words.now sums.new }
{
    let multiples = multiples_of::<R, W, K>(scalar);
    W::numbers_fit(sums);
    let done = add_multiples::<R, W, K::Multiples, K::Vectors>(sums, words, &multiples);
    let (_, rest) = sums.split_at_mut(done);
    let (_, others) = words.split_at(done);
    change_all_by::<R, W, K, ScaledSum<W>>(rest, others, &ScaledSum { scalar });
}

// The multiples of a scalar, an element.
fn multiples_of<R: Unsigned, W: WordBytes<R>, K: FieldInPlanes<R, W>>(scalar: W) -> K::Multiples
    requires fits { W.number scalar < 2 ^ K.width }
    ensures { K.Vectors.Planes.are_multiples result (W.number scalar) }
{
    K::Vectors::multiples(scalar.stored().to_u128(), K::bits() as u32)
}
