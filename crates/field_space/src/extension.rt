// Fields that extend a smaller field, and their packings, which have one lane.
ghost use Rattle.std.specs.Prelude.{◌≡◌, ◌≢◌, ◌↔◌, ◌*◌, ◌^◌, ◌<◌, ◌≤◌, ℕ, List, length, slice_index_or};
ghost use Rattle.std.specs.Prelude.{IsTrue, IsNone, IfOk, IfSome, bit_xor, codes, refl};
ghost use Rattle.std.specs.List.{All};
ghost use Rattle.field_base.specs.Powers.{repeated_square};
ghost use Rattle.field_space.specs.PowerItems.{ArePowersOf};

use crate::powers::{HasPowers, Powers};
use crate::space::BasedVectorSpace;
use field_base::traits::{Algebra, Field};
use field_element::{Poly64, Poly192};
use std::alloc::{AllocError, Allocator};

/// A field that contains the field `F`: coefficient 0 of an element of `F` is the element, and the others are 0.
pub trait ExtensionField<F: Field>: Field + Algebra<F> + BasedVectorSpace<F> {
    /// The packing of elements: the field itself, with one lane.
    type ExtensionPacking;

    /// Whether the element lies in `F`.
    final fn is_in_basefield(&self) -> bool
        ensures { IsTrue result ↔ (Self.repr self.now < 2 ^ F.width) }
    {
        <Self as From<F>>::from(self.basis_coefficient(0)) == *self
    }

    /// The element as one of `F`, and None where it lies outside.
    final fn as_base(&self) -> Option<F>
        ensures none { IsNone result ↔ (2 ^ F.width ≤ Self.repr self.now) }
        ensures base { IfSome result (λ base. F.repr base ≡ Self.repr self.now) }
    {
        let base = self.basis_coefficient(0);
        if self.is_in_basefield() {
            Some(base)
        } else {
            None
        }
    }

    ghost embeds_law: { (a : ℕ) → a < 2 ^ F.width → Self.Algebra.image a ≡ a };
}

impl<F: Field + BasedVectorSpace<F>> ExtensionField<F> for F {
    type ExtensionPacking = F;

    ghost embeds_law = { λ a fits. refl };
}

impl ExtensionField<Poly64> for Poly192 {
    type ExtensionPacking = Poly192;

    ghost embeds_law = { λ a fits. refl };
}

/// A field that can tell whether its elements lie in the field `F`, which it contains.
pub trait HasSubfield<F: Field>: Algebra<F> {
    /// The element as one of `F`, and None where it lies outside.
    fn as_subfield(&self) -> Option<F>
        ensures none { IsNone result ↔ (2 ^ F.width ≤ Self.repr self.now) }
        ensures subfield { IfSome result (λ element. F.repr element ≡ Self.repr self.now) };

    /// Whether all elements of a slice lie in `F`.
    fn all_in_subfield(values: &[Self]) -> bool
        ensures { IsTrue result ↔ All (λ x. Self.repr x < 2 ^ F.width) values.now };
}

impl<F: Field, E: ExtensionField<F>> HasSubfield<F> for E {
    fn as_subfield(&self) -> Option<F> {
        self.as_base()
    }

    fn all_in_subfield(values: &[E]) -> bool {
        for place in 0..values.len() {
            if !values[place].is_in_basefield() {
                return false;
            }
        }
        true
    }
}

/// The automorphism of a field over the field `F` that raises to the power of the number of elements of `F`.
pub trait HasFrobenius<F: Field>: ExtensionField<F> {
    /// The element to the power of the number of elements of `F`: squared as many times as an element of `F` has bits.
    final fn frobenius(&self) -> Self
        ensures { Self.repr result ≡ repeated_square 1 Self.product F.width (Self.repr self.now) }
    {
        self.exp_power_of_2(F::bits())
    }

    /// `frobenius`, `count` times over. As many times as the dimension return each element.
    final fn repeated_frobenius(&self, count: usize) -> Self
        ensures { Self.repr result ≡ repeated_square 1 Self.product (F.width * count) (Self.repr self.now) }
    {
        let mut value = *self;
        for _ in 0..count % Self::DIMENSION {
            value = value.frobenius();
        }
        value
    }

    /// The inverse, and 0 for 0.
    final fn pseudo_inv(&self) -> Self
        ensures zero { Self.repr self.now ≡ 0 → Self.repr result ≡ 0 }
        ensures inverse { Self.repr self.now ≢ 0 → Self.product (Self.repr self.now) (Self.repr result) ≡ 1 }
    {
        match self.try_inverse() {
            Some(inverse) => inverse,
            None => Self::ZERO,
        }
    }
}

impl<F: Field, E: ExtensionField<F>> HasFrobenius<F> for E {}

/// An extension of a field with a text that names it and its basis.
pub trait AlgebraIdentity<F: Field>: ExtensionField<F> {
    // The bytes of the text.
    ghost identity: { List ℕ };

    /// The text.
    fn identity() -> &'static [u8]
        ensures { result.now ≡ identity };

    /// The text, in a vector from `alloc`. It fails only where the allocator refuses.
    final fn algebra_id<A: Allocator>(alloc: A) -> Result<Vec<u8, A>, AllocError>
        ensures { IfOk result (λ id. id.items ≡ identity) }
    {
        let mut id = Vec::new(alloc);
        id.extend_from_slice(Self::identity())?;
        Ok(id)
    }
}

impl AlgebraIdentity<Poly64> for Poly192 {
    ghost identity = { codes "p3-binary-cubic-v1:y^3+y+1:64:192" };

    fn identity() -> &'static [u8] {
        b"p3-binary-cubic-v1:y^3+y+1:64:192"
    }
}

/// A packing of elements of the extension `E` of the field `F`. Each has one lane, and is the extension itself.
pub trait PackedFieldExtension<F: Field, E: ExtensionField<F>>: Algebra<E> {
    /// The packing of one element.
    fn from_ext(element: E) -> Self
        ensures { Self.repr result ≡ E.repr element };

    /// The packing of the one element of a slice.
    final fn from_ext_slice(elements: &[E]) -> Self
        requires { length elements.now ≡ 1 }
        ensures { (x : E) → Self.repr result ≡ E.repr (slice_index_or elements.now 0 x) }
    {
        Self::from_ext(elements[0])
    }

    /// The element of a lane. There is lane 0 alone.
    fn extract(&self, lane: usize) -> E
        requires { lane ≡ 0 }
        ensures { E.repr result ≡ Self.repr self.now };

    /// Adds the element to a lane. There is lane 0 alone.
    fn add_assign_lane(&mut self, lane: usize, element: E)
        requires { lane ≡ 0 }
        ensures { Self.repr self.new ≡ bit_xor (Self.repr self.old) (E.repr element) };

    /// The powers of an element, each in a packing.
    fn packed_ext_powers(base: E) -> Powers<Self>
        ensures { ArePowersOf Self.repr Self.unit Self.product (E.repr base) result };

    /// The packing whose lane i is `f(i)`. `f` is called for 0, once.
    final fn from_ext_fn<G: FnOnce(usize) -> E>(f: G) -> Self
        requires { G.pre f 0 }
        ensures { (x : E) × G.post f 0 x × (Self.repr result ≡ E.repr x) }
    {
        Self::from_ext(f(0))
    }
}

impl<F: Field, E: ExtensionField<F>> PackedFieldExtension<F, E> for E {
    fn from_ext(element: E) -> E {
        element
    }

    fn extract(&self, _lane: usize) -> E {
        *self
    }

    fn add_assign_lane(&mut self, _lane: usize, element: E) {
        *self = *self + element;
    }

    fn packed_ext_powers(base: E) -> Powers<E> {
        base.powers()
    }
}
