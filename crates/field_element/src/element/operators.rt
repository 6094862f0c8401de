// The operators of elements, of one field or of two of which one contains the other, and sums and products of many.
ghost use Rattle.std.specs.Prelude.{◌≡◌, ◌≢◌, ◌<◌, ◌^◌, ℕ};
ghost use Rattle.field_base.specs.Powers.{product_of, sum_of};

mod joined;

use crate::element::{Element, value};
use field_base::traits::{product_of_items, sum_of_items};
use field_base::{FieldKernel, Stored};
use std::iter::{Product, Sum};
use std::marker::PhantomData;
use std::ops::{Div, DivAssign, Neg};

impl<R: Stored, K: FieldKernel<R>> Neg for Element<R, K> {
    type Output = Element<R, K>;

    ghost neg_gives = { λ x r. R.number r.repr ≡ R.number x.repr };

    #[inline]
    fn neg(self) -> Element<R, K> {
        self
    }
}

impl<R: Stored, K: FieldKernel<R>> Div<Element<R, K>> for Element<R, K> {
    type Output = Element<R, K>;

    ghost can_div = { λ x y. R.number y.repr ≢ 0 };

    ghost div_gives = { λ x y r. K.product (R.number r.repr) (R.number y.repr) ≡ R.number x.repr };

    #[inline]
    fn div(self, other: Element<R, K>) -> Element<R, K> {
        self * Element {
            repr: K::invert(other.repr),
            field: PhantomData,
        }
    }
}

impl<R: Stored, K: FieldKernel<R>> DivAssign<Element<R, K>> for Element<R, K> {
    ghost can_div_assign = { λ x y. R.number y.repr ≢ 0 };

    ghost div_assign_gives = { λ x y r. K.product (R.number r.repr) (R.number y.repr) ≡ R.number x.repr };

    #[inline]
    fn div_assign(&mut self, other: Element<R, K>) {
        *self = value(self) / other;
    }
}

impl<R: Stored, K: FieldKernel<R>> Sum<Element<R, K>> for Element<R, K> {
    ghost sum_gives = { λ xs r. R.number r.repr ≡ sum_of (λ x. R.number x.repr) xs };

    fn sum<I: Iterator<Item = Element<R, K>>>(iter: I) -> Element<R, K> {
        sum_of_items(
            iter,
            Element {
                repr: R::ZERO,
                field: PhantomData,
            },
        )
    }
}

impl<R: Stored, K: FieldKernel<R>> Product<Element<R, K>> for Element<R, K> {
    ghost product_gives = { λ xs r. R.number r.repr ≡ product_of 1 K.product (λ x. R.number x.repr) xs };

    fn product<I: Iterator<Item = Element<R, K>>>(iter: I) -> Element<R, K> {
        product_of_items(
            iter,
            Element {
                repr: R::ONE,
                field: PhantomData,
            },
        )
    }
}
