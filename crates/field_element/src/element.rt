// Elements of every field: one struct.
ghost use Rattle.std.specs.Prelude.{◌≡◌, ◌<◌, ◌%◌, ◌^◌, ℕ, ⊤};

mod bits;
mod blocks;
mod coefficients;
mod cubic_traits;
mod cubic_word;
mod hexadecimal;
mod lanes;
mod operators;
mod ring;
mod stored;
mod texts;

pub use crate::element::coefficients::Coefficients;
pub use crate::element::lanes::HasPacking;
use crate::element::lanes::{
    add_scaled_elements, dot_of_elements, invert_elements, multiply_elements, multiply_elements_by,
};
pub use crate::element::stored::{element_of_word, word_of};
use field_base::{FieldKernel, Gf2, Stored};
use std::alloc::AllocError;
use std::fmt;
use std::marker::PhantomData;

/// An element of the field `K`, which a word `R` stores: its representation. Equality, order and hash are those of the
/// representation. The fields have names of their own, as [`BinaryField8`](crate::BinaryField8) and
/// [`Ghash128`](crate::Ghash128).
#[derive_where(PartialEq, Eq, PartialOrd, Ord, Hash; R)]
pub struct Element<R: Stored, K: FieldKernel<R>> {
    repr: R,
    #[derive_where(skip)]
    field: PhantomData<K>,
    ghost in_range: { R.number repr < 2 ^ K.width },
}

impl<R: Stored, K: FieldKernel<R>> Clone for Element<R, K> {
    ghost is_clone = { λ x y. y.repr ≡ x.repr };

    ghost is_infallible = { λ _. ⊤ };

    fn clone(&self) -> Result<Element<R, K>, AllocError> {
        Ok(Element {
            repr: self.repr,
            field: PhantomData,
        })
    }
}

impl<R: Stored, K: FieldKernel<R>> Copy for Element<R, K> {}

// The element behind a reference: `*x` at a struct with a type parameter gets no generated proof.
#[inline]
fn value<R: Stored, K: FieldKernel<R>>(x: &Element<R, K>) -> Element<R, K>
    ensures { result.repr ≡ x.now.repr }
{
    Element {
        repr: x.repr,
        field: PhantomData,
    }
}

impl<R: Stored, K: FieldKernel<R>> Element<R, K> {
    // The element of the low bits of a word.
    #[inline]
    pub(crate) fn of_word(word: R) -> Element<R, K>
        ensures { R.number result.repr ≡ R.number word % 2 ^ K.width }
    {
        Element {
            repr: K::truncate(word),
            field: PhantomData,
        }
    }

    // The word that stores the element, from behind a reference.
    #[inline]
    pub(crate) fn word(&self) -> R
        ensures { result ≡ self.now.repr }
    {
        self.repr
    }

    // The word that stores the element, where it lies.
    #[inline]
    pub(crate) fn stored(&self) -> &R
        ensures { result.now ≡ self.now.repr }
    {
        &self.repr
    }
}

impl<R: Stored, K: FieldKernel<R>> fmt::Debug for Element<R, K> {
    fn fmt<W: fmt::Write>(&self, f: &mut fmt::Formatter<W>) -> fmt::Result {
        f.debug_struct(K::NAME).field("repr", &self.repr).finish()
    }
}

impl<R: Stored, K: FieldKernel<R>> Default for Element<R, K> {
    ghost is_default = { λ x. R.number x.repr ≡ 0 };

    fn default() -> Element<R, K> {
        Element {
            repr: R::ZERO,
            field: PhantomData,
        }
    }
}

impl<R: Stored, K: FieldKernel<R>> From<Gf2> for Element<R, K> {
    ghost use Rattle.field_base.specs.Bit.{bit_number as bit_of};

    ghost from_gives = { λ x r. R.number r.repr ≡ bit_of x };

    fn from(bit: Gf2) -> Element<R, K> {
        Element {
            repr: R::of_bit(bit),
            field: PhantomData,
        }
    }
}
