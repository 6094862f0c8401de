// What the levels of the tower have of their own.
ghost use Rattle.std.specs.Prelude.{◌≡◌};
ghost use Rattle.field_base.specs.Tower.{tower_mul};

use crate::element::Element;
use field_base::Unsigned;
use word_tower::{Level, Tower};

impl<R: Unsigned, L: Level<R>> Element<R, Tower<L>> {
    ghost use Rattle.field_element.specs.Element.{repr_of};

    /// The product by its definition: by products of the level below, down to bits. It is what `*` gives.
    pub fn reference_mul(self, other: Element<R, Tower<L>>) -> Element<R, Tower<L>>
        ensures { repr_of result ≡ tower_mul L.LEVEL (repr_of self) (repr_of other) }
    {
        Element::of_word(L::reference_multiply(self.word(), other.word()))
    }
}
