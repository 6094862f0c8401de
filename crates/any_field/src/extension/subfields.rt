// Traces and norms over subfields. The field has one subfield of 2^d elements for each d that divides its degree: the elements that d
// squarings return (R. Lidl and H. Niederreiter, Finite Fields, definitions 2.22 and 2.27).
ghost use Rattle.std.specs.Prelude.{◌≡◌, ◌≢◌, ◌*◌, ◌/◌, ◌%◌, ◌^◌, ◌<◌, IfNone, IfSome};
ghost use Rattle.field_base.specs.Basis.{product_below, sum_below};
ghost use Rattle.field_base.specs.Powers.{repeated_square};
ghost use Rattle.any_field.specs.Contexts.{field_product};

use crate::extension::BinaryExtension;
use crate::reduction::{low_bits, square_times};

impl BinaryExtension {
    /// The trace over the subfield of 2^degree elements: the sum of the conjugates of the element, which i times `degree` squarings give.
    /// It is in the subfield. `None` exactly where `degree` does not divide that of the field.
    pub fn trace_to(self, x: u128, degree: u32) -> Option<u128>
        ensures trace { IfSome result (λ t. t ≡ sum_below (λ i. repeated_square 1 (field_product self.degree self.tail) (i * degree) x)
            (self.degree / degree)) }
        ensures subfield { IfSome result (λ t. repeated_square 1 (field_product self.degree self.tail) degree t ≡ t) }
        ensures some { IfSome result (λ t. self.degree % degree ≡ 0) }
        ensures none { IfNone result (self.degree % degree ≢ 0) }
    {
        if degree == 0 {
            return None;
        }
        let left = self.degree % degree;
        if left != 0 {
            return None;
        }
        let mut sum: u128 = 0;
        let mut moved = low_bits(x, self.degree);
        for _ in 0..self.degree / degree {
            sum ^= moved;
            moved = square_times(self.degree, self.tail, self.ratio, moved, degree);
        }
        Some(sum)
    }

    /// The norm over the subfield of 2^degree elements: the product of the conjugates of the element. It is in the subfield.
    /// `None` exactly where `degree` does not divide that of the field.
    pub fn norm_to(self, x: u128, degree: u32) -> Option<u128>
        ensures norm { IfSome result (λ t. t ≡ product_below (field_product self.degree self.tail)
            (λ i. repeated_square 1 (field_product self.degree self.tail) (i * degree) x) (self.degree / degree)) }
        ensures subfield { IfSome result (λ t. repeated_square 1 (field_product self.degree self.tail) degree t ≡ t) }
        ensures some { IfSome result (λ t. self.degree % degree ≡ 0) }
        ensures none { IfNone result (self.degree % degree ≢ 0) }
    {
        if degree == 0 {
            return None;
        }
        let left = self.degree % degree;
        if left != 0 {
            return None;
        }
        let mut product: u128 = 1;
        let mut moved = low_bits(x, self.degree);
        for _ in 0..self.degree / degree {
            product = self.multiply(product, moved);
            moved = square_times(self.degree, self.tail, self.ratio, moved, degree);
        }
        Some(product)
    }
}
