// Values of binary polynomials at elements, and isomorphisms between fields by a root of the modulus of one in the other.
ghost use Rattle.std.specs.Prelude.{◌≡◌, ◌^◌, ◌<◌, ◌≤◌, ◌↔◌, IsTrue};
ghost use Rattle.any_field.specs.Contexts.{field_product, with_top};
ghost use Rattle.any_field.specs.Values.{IsIsomorphismOf, binary_value};

use crate::extension::BinaryExtension;

impl BinaryExtension {
    /// The value at an element of the polynomial x^degree + tail, by Horner's rule.
    pub(crate) fn value(self, root: u128, degree: u32, tail: u128) -> u128
        requires degree_fits { degree ≤ 128 }
        requires tail_fits { tail < 2 ^ degree }
        ensures { result ≡ binary_value (field_product self.degree self.tail) root (with_top degree tail) }
    {
        let mut sum: u128 = 1;
        let mut left = degree;
        while left > 0 {
            left -= 1;
            sum = self.multiply(sum, root) ^ (tail >> left) % 2;
        }
        sum
    }

    /// Whether the word is a root of the modulus of `other`, a field of the same degree, in this one. Then the values at it of polynomials
    /// are an isomorphism from `other` to this field, which takes x to the root.
    pub fn is_isomorphic_by(self, other: BinaryExtension, root: u128) -> bool
        ensures root { IsTrue result ↔ ((self.degree ≡ other.degree)
            × (binary_value (field_product self.degree self.tail) root (with_top other.degree other.tail) ≡ 0)) }
        ensures isomorphism { IsTrue result → IsIsomorphismOf self.degree (field_product other.degree other.tail)
            (field_product self.degree self.tail) (binary_value (field_product self.degree self.tail) root) }
    {
        self.degree == other.degree && self.value(root, other.degree, other.tail) == 0
    }
}
