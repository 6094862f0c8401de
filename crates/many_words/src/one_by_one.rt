// The results of an operation at each word of a slice in place, one word after another: what fields do that have no better body, and
// what is done with few words.
ghost use Rattle.std.specs.Prelude.{◌≡◌, length};
ghost use Rattle.many_words.specs.Fields.{field_of};
ghost use Rattle.many_words.specs.Words.{AreElements, Each, EachOfTwo};

use crate::fields;
use crate::operations::{OnOne, OnTwo};
use field_base::{FieldKernel, Holds, Stored};

/// Leaves the result of the operation at each word, an element.
#[inline]
pub fn change_all<R: Stored, W: Holds<R>, K: FieldKernel<R>, O: OnOne<R, W, K>>(
    words: &mut [W],
    operation: &O,
)
    requires { AreElements (field_of W.number K.width K.product K.generator) words.old }
    ensures long { length words.new ≡ length words.old }
    ensures results { Each (field_of W.number K.width K.product K.generator) (O.gives operation.now) words.old words.new }
{
    for place in 0..words.len() {
        words[place] = operation.result_at(words[place]);
    }
}

/// Leaves the result of the operation at each word and the other word at its place. The slices are of one length.
#[inline]
pub fn change_all_by<R: Stored, W: Holds<R>, K: FieldKernel<R>, O: OnTwo<R, W, K>>(
    words: &mut [W],
    others: &[W],
    operation: &O,
)
    requires { length others.now ≡ length words.old }
    ensures long { length words.new ≡ length words.old }
    ensures results { EachOfTwo (field_of W.number K.width K.product K.generator) (O.gives operation.now) words.old others.now words.new }
{
    for place in 0..words.len() {
        words[place] = operation.result_at(words[place], others[place]);
    }
}

/// Multiplies each word by the scalar.
#[inline]
pub(crate) fn multiply_each_by<R: Stored, W: Holds<R>, K: FieldKernel<R>>(
    words: &mut [W],
    scalar: W,
)
    ensures long { length words.new ≡ length words.old }
    ensures products { Each (field_of W.number K.width K.product K.generator) (λ x y. y ≡ K.product x (W.number scalar)) words.old
        words.new }
{
    for place in 0..words.len() {
        words[place] = fields::multiply::<R, W, K>(words[place], scalar);
    }
}
