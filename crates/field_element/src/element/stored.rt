// Elements and the words that store them, for code that knows a field by its kernel alone.
ghost use Rattle.std.specs.Prelude.{◌≡◌, ◌%◌, ◌^◌};
ghost use Rattle.field_element.specs.Element.{repr_of};

use crate::element::Element;
use field_base::{FieldKernel, Stored};

/// The element of the low bits of a word.
#[inline]
pub fn element_of_word<R: Stored, K: FieldKernel<R>>(word: R) -> Element<R, K>
    ensures { repr_of result ≡ R.number word % 2 ^ K.width }
{
    Element::of_word(word)
}

/// The word that stores an element.
#[inline]
pub fn word_of<R: Stored, K: FieldKernel<R>>(element: &Element<R, K>) -> R
    ensures { R.number result ≡ repr_of element.now }
{
    element.repr
}
