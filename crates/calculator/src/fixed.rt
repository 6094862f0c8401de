// The fields that have names, each by the kernel of its arithmetic.
ghost use Rattle.std.specs.Prelude.{◌≡◌, ◌↔◌, ◌<◌, ◌^◌, IsNone, IfSome};
ghost use Rattle.std.specs.Option.{option_map};
ghost use Rattle.calculator.specs.Fields.{written_field};
ghost use Rattle.calculator.specs.Operations.{binary_result, unary_result};

use crate::calculation::Calculates;
use crate::names::{Binary, Unary};
use crate::number::Number;
use crate::operand::Written;
use field_base::{FieldKernel, Stored};
use std::marker::PhantomData;

/// The field of a kernel.
#[derive(Drop)]
pub(crate) struct Fixed<R, K> {
    pub(crate) word: PhantomData<R>,
    pub(crate) kernel: PhantomData<K>,
}

impl<R: Stored, K: Written<R>> Calculates for Fixed<R, K> {
    ghost known = { λ _. written_field K.width K.product K.order };

    fn num_bits(&self) -> usize {
        K::bits()
    }

    fn at_two(&self, operation: Binary, left: Number, right: Number) -> Number {
        let result = binary_result::<R, K>(operation, K::element_of(left), K::element_of(right));
        K::number_of(result)
    }

    fn at_one(&self, operation: Unary, operand: Number) -> Option<Number> {
        match unary_result::<R, K>(operation, K::element_of(operand)) {
            Some(result) => Some(K::number_of(result)),
            None => None,
        }
    }
}

// The result of an operation at two elements.
fn binary_result<R: Stored, K: FieldKernel<R>>(operation: Binary, left: R, right: R) -> R
    ensures { R.number result ≡ binary_result K.product operation (R.number left) (R.number right) }
{
    match operation {
        Binary::Add => left.xor(right),
        Binary::Mul => K::multiply(left, right),
    }
}

// The result of an operation at one element; None for the inverse of 0.
fn unary_result<R: Stored, K: FieldKernel<R>>(operation: Unary, operand: R) -> Option<R>
    requires { R.number operand < 2 ^ K.width }
    ensures { option_map R.number result ≡ unary_result K.width K.product operation (R.number operand) }
{
    match operation {
        Unary::Square => Some(K::square(operand)),
        Unary::Inv => inverse_of::<R, K>(operand),
        Unary::Sqrt => Some(K::sqrt(operand)),
    }
}

// The inverse of an element, by which the product is 1, and None for 0.
fn inverse_of<R: Stored, K: FieldKernel<R>>(x: R) -> Option<R>
    requires { R.number x < 2 ^ K.width }
    ensures none { IsNone result ↔ (R.number x ≡ 0) }
    ensures fits { IfSome result (λ y. R.number y < 2 ^ K.width) }
    ensures inverse { IfSome result (λ y. K.product (R.number x) (R.number y) ≡ 1) }
{
    let inverse = K::invert(x);
    if x == R::ZERO { None } else { Some(inverse) }
}
