// What stores an element of `Poly192`: its three coefficients, as elements of `Poly64` that can be lent.
ghost use Rattle.std.specs.Prelude.{◌≡◌, ◌<◌, ◌%◌, ◌^◌, List, length, map};

use crate::element::Element;
use crate::names::Poly64;
use std::marker::PhantomData;
use word_polynomial::Triple;

/// The coefficients [c0, c1, c2] of an element c0 + c1 y + c2 y² of `Poly192`, which store it.
#[derive(Clone, Copy)]
pub struct Coefficients {
    pub(crate) coefficients: [Poly64; 3],
    ghost three: { length coefficients ≡ 3 },
}

// The element of `Poly64` of a word.
#[inline]
fn coefficient_of(word: u64) -> Poly64
    ensures { result.repr ≡ word }
{
    Element {
        repr: word,
        field: PhantomData,
    }
}

impl Coefficients {
    ghost use Rattle.field_base.specs.Chunks.{chunks};
    ghost use Rattle.field_element.specs.Coefficients.{stored_number, stored_words};
    ghost use Rattle.field_element.specs.Element.{repr_of};

    // The coefficients of an element.
    #[inline]
    #[tactic(auto, using(crate::specs::lemmas::Coefficients::chunks_stored))]
    pub(crate) fn new(coefficients: [Poly64; 3]) -> Coefficients
        ensures { map repr_of coefficients ≡ chunks 64 3 (stored_number result) }
    {
        Coefficients { coefficients }
    }

    // The array of the coefficients.
    #[inline]
    #[tactic(auto, using(crate::specs::lemmas::Coefficients::chunks_stored))]
    pub(crate) fn array(&self) -> [Poly64; 3]
        ensures { map repr_of result ≡ chunks 64 3 (stored_number self.now) }
    {
        self.coefficients
    }

    /// The coefficients, coefficient 0 first, where they lie.
    #[inline]
    #[tactic(auto, using(crate::specs::lemmas::Coefficients::chunks_stored))]
    pub fn as_slice(&self) -> &[Poly64]
        ensures { map repr_of result.now ≡ chunks 64 3 (stored_number self.now) }
    {
        &self.coefficients
    }

    /// The words of the coefficients.
    #[inline]
    pub fn words(&self) -> Triple
        ensures { result ≡ stored_words self.now }
    {
        Triple {
            c0: self.coefficients[0].repr,
            c1: self.coefficients[1].repr,
            c2: self.coefficients[2].repr,
        }
    }

    /// The coefficients of three words.
    #[inline]
    pub fn of_words(words: Triple) -> Coefficients
        ensures { stored_words result ≡ words }
    {
        Coefficients {
            coefficients: [
                coefficient_of(words.c0),
                coefficient_of(words.c1),
                coefficient_of(words.c2),
            ],
        }
    }
}
