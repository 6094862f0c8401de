// Elements as text, and as numbers for `serde`.
ghost use Rattle.std.specs.Prelude.{◌≡◌, ◌<◌, ◌^◌, ◌↔◌, IfOk, IfSome, IsSome, Some};
ghost use Rattle.std.specs.Fmt.{decimal, styled_decimal};
ghost use Rattle.field_base.specs.Steps.{GivesEach};

use crate::element::{Coefficients, Element};
use field_base::{FieldKernel, ReadWord, Stored, Unsigned, write_decimal};
use serde::{
    Described, Deserialize, DeserializeOwned, Deserializer, Format, Serialize, Serializer,
};
use std::alloc::Global;
use std::fmt;
use std::marker::PhantomData;

// The representation in decimal.
impl<R: Unsigned, K: FieldKernel<R>> fmt::Display for Element<R, K> {
    ghost output = { λ x. Some (decimal (R.number x.repr)) };

    ghost styled_output = { λ x s. Some (styled_decimal s (R.number x.repr)) };

    fn fmt<W: fmt::Write>(&self, f: &mut fmt::Formatter<W>) -> fmt::Result {
        write_decimal(self.repr.to_u128(), f)
    }
}

// The cubic extension, as `A + B*y + C*y^2`.
impl<K: FieldKernel<Coefficients>> fmt::Display for Element<Coefficients, K> {
    ghost output = { λ x. ⟦<Coefficients as fmt::Display>⟧.output x.repr };

    fn fmt<W: fmt::Write>(&self, f: &mut fmt::Formatter<W>) -> fmt::Result {
        fmt::Display::fmt(&self.repr, f)
    }
}

impl<R: Stored + Serialize, K: FieldKernel<R>> Described for Element<R, K> {
    ghost writes = { λ x. R.writes x.repr };
}

impl<R: Stored + Serialize, K: FieldKernel<R>> Serialize for Element<R, K> {
    fn serialize<S: Serializer>(&self, out: &mut S) -> Result<(), S::Error> {
        self.repr.serialize(out)
    }
}

// The element that a word stores, and None where the word has a bit above the field.
fn element_in_range<R: Stored, K: FieldKernel<R>>(repr: R) -> Option<Element<R, K>>
    ensures range { IsSome result ↔ (R.number repr < 2 ^ K.width) }
    ensures value { IfSome result (λ x. x.repr ≡ repr) }
{
    if K::truncate(repr) == repr {
        Some(Element {
            repr,
            field: PhantomData,
        })
    } else {
        None
    }
}

// What is read is an element's word, and a number with a bit above the field is refused.
impl<'de, R: ReadWord, K: FieldKernel<R>> Deserialize<'de> for Element<R, K> {
    fn deserialize<F: Format>(
        alloc: Global,
        from: &mut Deserializer<'de, '_, F>,
    ) -> Result<Element<R, K>, F::Error>
        ensures { IfOk result (λ x. GivesEach F.gives F.stays from.old (R.events x.repr) from.new) }
    {
        Self::deserialize_owned(alloc, from)
    }
}

impl<R: ReadWord, K: FieldKernel<R>> DeserializeOwned for Element<R, K> {
    fn deserialize_owned<F: Format>(
        alloc: Global,
        from: &mut Deserializer<'_, '_, F>,
    ) -> Result<Element<R, K>, F::Error>
        ensures { IfOk result (λ x. GivesEach F.gives F.stays from.old (R.events x.repr) from.new) }
    {
        let repr = R::read(alloc, from)?;
        match element_in_range(repr) {
            Some(element) => Ok(element),
            None => Err(from.custom("Value is out of range")),
        }
    }
}
