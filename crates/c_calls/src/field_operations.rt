// Operations on elements of a field that a caller chooses, which calls over slices apply besides those over any field.
ghost use Rattle.std.specs.Prelude.{◌≡◌, ◌≢◌, ◌%◌, ◌<◌, ◌^◌};
ghost use Rattle.field_base.specs.Powers.{sum_of_squarings};
ghost use Rattle.any_field.specs.Contexts.{field_product};
ghost use Rattle.any_field.specs.Values.{binary_value};
ghost use Rattle.c_calls.specs.ChosenElements.{IsNormOver, IsOrderIfAny, IsTraceOver};
ghost use Rattle.c_calls.specs.ChosenFields.{chosen_field};

use crate::chosen_words::ChosenWords;
use crate::operations::{AtOne, AtTwo};
use crate::wide::Wide;
use any_field::{Embedding, Images};
use field_base::{Holds, Reads};

/// The image by an embedding of the field.
#[derive(Drop)]
pub(crate) struct Embedded {
    pub(crate) map: Embedding,
}

impl AtOne<ChosenWords> for Embedded {
    ghost gives = { λ operation field x y. operation.map.source.degree ≡ field.named.degree → y ≡ binary_value
        (field_product operation.map.target.degree operation.map.target.tail) operation.map.root x };

    fn at(&self, field: ChosenWords, x: Wide) -> Wide {
        Wide::of_stored(self.map.image(x.stored()))
    }
}

/// The image by an embedding of the field, by tables.
#[derive(Drop)]
pub(crate) struct Tabled {
    pub(crate) source: ChosenWords,
    pub(crate) images: Images,
    ghost same: { images.map.source.degree ≡ source.named.degree },
}

impl AtOne<ChosenWords> for Tabled {
    ghost gives = { λ operation field x y. operation.source.named.degree ≡ field.named.degree → y ≡ binary_value
        (field_product operation.images.map.target.degree operation.images.map.target.tail) operation.images.map.root x };

    #[inline]
    fn at(&self, field: ChosenWords, x: Wide) -> Wide {
        Wide::of_stored(self.images.of(self.source.low_bits(x)))
    }
}

/// The trace over GF(2).
pub(crate) struct Traced;

impl AtOne<ChosenWords> for Traced {
    ghost gives = { λ operation field x y. y ≡ sum_of_squarings 1 (chosen_field field.named).times field.named.degree x };

    fn at(&self, field: ChosenWords, x: Wide) -> Wide {
        Wide::of_stored(field.field.trace(x.stored()))
    }
}

/// The order, and 0 of 0.
pub(crate) struct Ordered;

impl AtOne<ChosenWords> for Ordered {
    ghost gives = { λ operation field x y. IsOrderIfAny (chosen_field field.named).times x y };

    fn at(&self, field: ChosenWords, x: Wide) -> Wide {
        match field.field.order(x.stored()) {
            Some(order) => Wide::of_stored(order),
            None => Wide::of_stored(0),
        }
    }
}

/// The trace over a subfield of so many bits.
#[derive(Drop)]
pub(crate) struct TraceOver {
    pub(crate) degree: u32,
}

impl AtOne<ChosenWords> for TraceOver {
    ghost gives = { λ operation field x y. field.named.degree % operation.degree ≡ 0
        → IsTraceOver field.named.degree (chosen_field field.named).times operation.degree x y };

    fn at(&self, field: ChosenWords, x: Wide) -> Wide {
        match field.field.trace_to(x.stored(), self.degree) {
            Some(trace) => Wide::of_stored(trace),
            None => Wide::of_stored(0),
        }
    }
}

/// The norm over a subfield of so many bits.
#[derive(Drop)]
pub(crate) struct NormOver {
    pub(crate) degree: u32,
}

impl AtOne<ChosenWords> for NormOver {
    ghost gives = { λ operation field x y. field.named.degree % operation.degree ≡ 0
        → IsNormOver field.named.degree (chosen_field field.named).times operation.degree x y };

    fn at(&self, field: ChosenWords, x: Wide) -> Wide {
        match field.field.norm_to(x.stored(), self.degree) {
            Some(norm) => Wide::of_stored(norm),
            None => Wide::of_stored(0),
        }
    }
}

/// The quotient, and 0 where the divisor is.
pub(crate) struct Quotient;

impl AtTwo<ChosenWords> for Quotient {
    ghost gives = { λ operation field x y q. (q < 2 ^ field.named.degree)
        × (y ≢ 0 → (chosen_field field.named).times q y ≡ x) × (y ≡ 0 → q ≡ 0) };

    fn at_two(&self, field: ChosenWords, x: Wide, y: Wide) -> Wide {
        match field.field.divide(x.stored(), y.stored()) {
            Some(quotient) => Wide::of_stored(quotient),
            None => Wide::of_stored(0),
        }
    }
}
