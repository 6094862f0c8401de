// Products of blocks modulo two polynomials, each x^w and a tail of low degree.
#![tactic(auto, unfolding(crate::specs::Called::lanes_8, crate::specs::Called::lanes_16, crate::specs::Called::lanes_32, crate::specs::Called::lanes_64, crate::specs::Called::lanes_128))]

ghost use Rattle.std.specs.Prelude.{◌≡◌, ◌<◌, ◌-◌, ◌/◌, ◌^◌, ℕ, bit_xor};
ghost use Rattle.field_base.specs.Quadratic.{pair};
ghost use Rattle.field_base.specs.Remainder.{ghash_modulus, mul_mod, poly64_modulus, rem};
ghost use Rattle.bit_slices.specs.Tails.{IsTail};
ghost use Rattle.bit_slices.specs.lemmas.Tail.{tail_of_ghash, tail_of_poly64};

use crate::levels::{Slices8, Slices64, Slices128};
use crate::polynomials::{SlicedPolynomials, holds_elements};
use crate::sliced::Sliced;
use crate::tails::{GhashTail, Poly64Tail, Tail};
use crate::vector::Vector;
use word_carryless::{multiply_mod_64, multiply_mod_128, split_128};

/// Blocks of polynomials modulo one of as high a degree as a block has slices.
pub trait PolynomialBlock<V: Vector>: SlicedPolynomials<V> {
    /// The modulus without its highest term.
    type Tail: Tail;

    ghost modulus: { ℕ };

    /// The highest eight slices.
    fn highest(&self) -> Slices8<V>
        ensures { (l : ℕ) → ⟦<Slices8<V> as Sliced>⟧.lane result l ≡ Self.lane self.now l / 2 ^ (2 ^ Self.LEVEL - 8) };

    /// Adds to the lowest eight slices.
    fn add_to_lowest(&mut self, x: &Slices8<V>)
        ensures { (l : ℕ) → Self.lane self.new l ≡ bit_xor (Self.lane self.old l) (⟦<Slices8<V> as Sliced>⟧.lane x.now l) };

    /// The product of two numbers modulo the polynomial.
    fn multiply_numbers(x: u128, y: u128) -> u128
        ensures { result ≡ mul_mod (2 ^ Self.LEVEL) modulus x y };

    ghost tail_law: { IsTail (2 ^ Self.LEVEL) modulus Self.Tail.NUMBER };
}

impl<V: Vector> PolynomialBlock<V> for Slices64<V> {
    type Tail = Poly64Tail;

    ghost modulus = { poly64_modulus };

    #[inline(always)]
    fn highest(&self) -> Slices8<V> {
        holds_elements(&self.inner.low);
        holds_elements(&self.inner.high.inner.low);
        holds_elements(&self.inner.high.inner.high.inner.low);
        self.inner.high.inner.high.inner.high
    }

    #[inline(always)]
    fn add_to_lowest(&mut self, x: &Slices8<V>) {
        holds_elements(&self.inner.low);
        holds_elements(&self.inner.low.inner.low);
        holds_elements(&self.inner.low.inner.low.inner.low);
        holds_elements(x);
        self.inner.low.inner.low.inner.low.add(x);
    }

    #[inline]
    fn multiply_numbers(x: u128, y: u128) -> u128 {
        let (left, _) = split_128(x);
        let (right, _) = split_128(y);
        multiply_mod_64(left, right) as u128
    }

    ghost tail_law = { tail_of_poly64 };
}

impl<V: Vector> PolynomialBlock<V> for Slices128<V> {
    type Tail = GhashTail;

    ghost modulus = { ghash_modulus };

    #[inline(always)]
    fn highest(&self) -> Slices8<V> {
        holds_elements(&self.inner.low);
        self.inner.high.highest()
    }

    #[inline(always)]
    fn add_to_lowest(&mut self, x: &Slices8<V>) {
        holds_elements(&self.inner.low);
        holds_elements(x);
        self.inner.low.add_to_lowest(x);
    }

    #[inline]
    fn multiply_numbers(x: u128, y: u128) -> u128 {
        multiply_mod_128(x, y)
    }

    ghost tail_law = { tail_of_ghash };
}

// Adds the high half times the tail to the low half. What the product spills past the low half counts as the tail again: it depends on the
// highest slices alone, and is added to the high half beforehand.
#[inline(always)]
fn reduce<V: Vector, B: PolynomialBlock<V>>(low: &mut B, high: &mut B)
    ensures { (l : ℕ) → B.lane low.new l ≡ rem (2 ^ B.LEVEL) B.modulus (pair (2 ^ B.LEVEL) (B.lane low.old l) (B.lane high.old l)) }
{
    let mut spill = Slices8::<V>::zeros();
    let mut unused = Slices8::<V>::zeros();
    unused.add_by_tail::<B::Tail>(&high.highest(), &mut spill);
    high.add_to_lowest(&spill);
    let mut carry = Slices8::<V>::zeros();
    low.add_by_tail::<B::Tail>(high, &mut carry);
}

/// Multiplies each lane by that of y, modulo the polynomial.
#[inline(always)]
pub(crate) fn multiply_block<V: Vector, B: PolynomialBlock<V>>(block: &mut B, y: &B)
    ensures { (l : ℕ) → B.lane block.new l ≡ mul_mod (2 ^ B.LEVEL) B.modulus (B.lane block.old l) (B.lane y.now l) }
{
    let x = *block;
    let mut high = *block;
    B::set_carryless_product(block, &mut high, &x, y);
    reduce(block, &mut high);
}
