// Elements as vectors over a smaller ring, and fields as extensions of a smaller field.
ghost use Rattle.std.specs.Prelude.{◌≡◌, ◌≢◌, ◌↔◌, ◌*◌, ◌+◌, ◌%◌, ◌^◌, ◌<◌, ◌≤◌};
ghost use Rattle.std.specs.Prelude.{ℕ, List, map, length, IsTrue, IsNone, IfOk, IfSome, refl};
ghost use Rattle.std.proofs.Common.{lit<};
ghost use Rattle.std.specs.Array.{index_steps};
ghost use Rattle.std.specs.Iterator.{CallableAtEachTurn};
ghost use Rattle.std.specs.Mem.{FitsInMemory};
ghost use Rattle.field_base.proofs.Coefficients.{scales_one_coefficient};
ghost use Rattle.field_base.specs.lemmas.BitRing.{bits_ring};
ghost use Rattle.field_base.specs.Chunks.{chunk, chunks};
ghost use Rattle.field_base.specs.Tower.{tower_mul};
ghost use Rattle.field_space.specs.Vectors.{ReadsCoefficients, ReturnsCoefficients, flat_coefficients};

use crate::kernel::SpaceOver;
use field_base::traits::PrimeCharacteristicRing;
use field_base::{Gf2, Stored};
use field_element::{Element, HasPacking, Poly64, Poly192, element_of_word, word_of};
use std::alloc::{AllocError, Allocator};
use std::slice;

/// A ring whose elements are vectors over the ring `F`. Coefficient i of an element is chunk i of its representation, of as
/// many bits as an element of `F` has, the lowest first. Each field is a space of dimension 1 over itself.
pub trait BasedVectorSpace<F: PrimeCharacteristicRing>: PrimeCharacteristicRing {
    /// How many coefficients an element has.
    const DIMENSION: usize;

    ghost DIMENSION: { ℕ };

    /// Coefficient `i`, which has to be below the dimension.
    fn basis_coefficient(&self, i: usize) -> F
        requires { i < DIMENSION }
        ensures { F.repr result ≡ chunk F.width i (Self.repr self.now) };

    /// The element with `coefficient` in place `i`, at an element whose coefficients from there on are 0.
    fn with_basis_coefficient(self, i: usize, coefficient: F) -> Self
        requires place { i < DIMENSION }
        requires below { Self.repr self < 2 ^ (F.width * i) }
        ensures { Self.repr result ≡ F.repr coefficient * 2 ^ (F.width * i) + Self.repr self };

    /// The coefficients of the elements, one element after the other, in a vector from `alloc`. It fails only where the
    /// allocator refuses.
    final fn flatten_to_base<A: Allocator>(
        alloc: A,
        elements: &[Self],
    ) -> Result<Vec<F, A>, AllocError>
        ensures { IfOk result (λ flat. map F.repr flat.items ≡ flat_coefficients F.width DIMENSION Self.repr elements.now) }
    {
        let mut flat = Vec::new(alloc);
        for place in 0..elements.len() {
            let element = elements[place];
            for i in 0..Self::DIMENSION {
                flat.push(element.basis_coefficient(i))?;
            }
        }
        Ok(flat)
    }

    /// The elements of the coefficients, which have to be those of a whole number of elements, in a vector from `alloc`. It
    /// fails only where the allocator refuses.
    final fn reconstitute_from_base<A: Allocator>(
        alloc: A,
        coefficients: &[F],
    ) -> Result<Vec<Self, A>, AllocError>
        requires { length coefficients.now % DIMENSION ≡ 0 }
        ensures { IfOk result (λ elements. flat_coefficients F.width DIMENSION Self.repr elements.items ≡ map F.repr coefficients.now) }
    {
        let mut elements = Vec::new(alloc);
        let mut element = Self::ZERO;
        let mut i = 0;
        for place in 0..coefficients.len() {
            element = element.with_basis_coefficient(i, coefficients[place]);
            i += 1;
            if i == Self::DIMENSION {
                elements.push(element)?;
                element = Self::ZERO;
                i = 0;
            }
        }
        Ok(elements)
    }

    /// The element whose coefficient i is `f(i)`. `f` is called for 0, 1, .., below the dimension, in order, each once, and needs to
    /// take these indexes alone.
    #[tactic(auto, using(crate::proofs::Spaces::element_below, field_base::proofs::Calls::may_call))]
    final fn from_basis_coefficients_fn<G: FnMut(usize) -> F>(mut f: G) -> Self
        requires { CallableAtEachTurn (index_steps DIMENSION) (λ p i q. (x : F) × G.step p i x q) G.pre 0 f }
        ensures { ReturnsCoefficients F.width DIMENSION F.repr G.step f (Self.repr result) }
    {
        let mut element = Self::ZERO;
        for i in 0..Self::DIMENSION {
            element = element.with_basis_coefficient(i, f(i));
        }
        element
    }

    /// The element of the coefficients that `iter` gives, the lowest first, and None where they are not as many as the
    /// dimension. It takes at most one item more than that, also of an iterator without end.
    final fn from_basis_coefficients_iter<I: Iterator<Item = F>>(mut iter: I) -> Option<Self>
        requires { I.can_next iter }
        ensures { (rest : I) × ReadsCoefficients F.width DIMENSION F.repr Self.repr I.can_next I.next_gives iter result rest }
    {
        Self::from_basis_coefficients_iter_by_ref(&mut iter)
    }

    /// [`from_basis_coefficients_iter`](BasedVectorSpace::from_basis_coefficients_iter) at an iterator that the caller keeps: what
    /// is left of it is what comes behind the items that were taken, one more than the dimension at most.
    #[tactic(auto, using(crate::proofs::Spaces::element_below))]
    final fn from_basis_coefficients_iter_by_ref<I: Iterator<Item = F>>(
        iter: &mut I,
    ) -> Option<Self>
        requires { I.can_next iter.old }
        ensures { ReadsCoefficients F.width DIMENSION F.repr Self.repr I.can_next I.next_gives iter.old result iter.new }
    {
        let mut element = Self::ZERO;
        for i in 0..Self::DIMENSION {
            match next_of(iter) {
                Some(coefficient) => element = element.with_basis_coefficient(i, coefficient),
                None => return None,
            }
        }
        match next_of(iter) {
            Some(_) => None,
            None => Some(element),
        }
    }

    ghost dimension_law: { 0 < DIMENSION };

    ghost space_law: { Self.width ≡ F.width * DIMENSION };

    // An element of `F`, as coefficient 0 of an element, multiplies each coefficient of another.
    ghost scale_law: { (i c a : ℕ) → i < DIMENSION → c < 2 ^ F.width
        → chunk F.width i (Self.product c a) ≡ F.product c (chunk F.width i a) };
}

// The next item of an iterator. A loop that calls `next` itself would have to know that the iterator ends.
fn next_of<F, I: Iterator<Item = F>>(iter: &mut I) -> Option<F>
    requires { I.can_next iter.old }
    ensures steps { I.next_gives iter.old result iter.new }
    ensures goes_on { IfSome result (λ item. I.can_next iter.new) }
{
    iter.next()
}

/// A vector space whose elements show their coefficients as an array.
pub trait BasisCoefficients<F: PrimeCharacteristicRing>: BasedVectorSpace<F> {
    /// The array of an element's coefficients.
    type Coefficients;

    // Its elements, as a list.
    ghost listed: { Self.Coefficients → List F };

    /// The coefficients, the lowest first.
    fn as_basis_coefficients(&self) -> Self::Coefficients
        ensures { map F.repr (listed result) ≡ chunks F.width Self.DIMENSION (Self.repr self.now) };
}

/// A vector space whose elements lend their coefficients where they lie. Each field lends an element as the one coefficient of
/// itself, and `Poly192` its three coefficients over `Poly64`.
pub trait BasisCoefficientsSlice<F: PrimeCharacteristicRing>: BasedVectorSpace<F> {
    /// The coefficients, the lowest first. Their type has to fit in memory, as every type of a program does; generic code, which
    /// does not know the type, passes the condition on.
    fn as_basis_coefficients_slice(&self) -> &[F]
        requires { FitsInMemory F.row }
        ensures { map F.repr result.now ≡ chunks F.width Self.DIMENSION (Self.repr self.now) };
}

impl<
    R: Stored,
    K: SpaceOver<R, S, J> + HasPacking<R>,
    S: Stored,
    J: HasPacking<S>,
> BasedVectorSpace<Element<S, J>> for Element<R, K> {
    const DIMENSION: usize = K::DIMENSION;

    ghost DIMENSION = { K.DIMENSION };

    ghost dimension_law = { K.dimension_law };

    ghost space_law = { K.space_law };

    ghost scale_law = { K.scale_law };

    fn basis_coefficient(&self, i: usize) -> Element<S, J> {
        element_of_word(K::coefficient(word_of(self), i))
    }

    fn with_basis_coefficient(self, i: usize, coefficient: Element<S, J>) -> Element<R, K> {
        element_of_word(K::with_coefficient(word_of(&self), i, word_of(&coefficient)))
    }
}

impl BasedVectorSpace<Gf2> for Gf2 {
    const DIMENSION: usize = 1;

    ghost DIMENSION = { 1 };

    ghost dimension_law = { lit< tt };

    ghost space_law = { refl };

    ghost scale_law = { scales_one_coefficient 1 1 (tower_mul 0) bits_ring };

    fn basis_coefficient(&self, _i: usize) -> Gf2 {
        *self
    }

    fn with_basis_coefficient(self, _i: usize, coefficient: Gf2) -> Gf2 {
        coefficient
    }
}

impl<R: Stored, K: HasPacking<R>> BasisCoefficients<Element<R, K>> for Element<R, K> {
    type Coefficients = [Element<R, K>; 1];

    ghost listed = { λ cs. cs };

    fn as_basis_coefficients(&self) -> [Element<R, K>; 1] {
        [<Element<R, K> as BasedVectorSpace<Element<R, K>>>::basis_coefficient(self, 0)]
    }
}

impl BasisCoefficients<Gf2> for Gf2 {
    type Coefficients = [Gf2; 1];

    ghost listed = { λ cs. cs };

    fn as_basis_coefficients(&self) -> [Gf2; 1] {
        [*self]
    }
}

impl<R: Stored, K: HasPacking<R>> BasisCoefficientsSlice<Element<R, K>> for Element<R, K> {
    fn as_basis_coefficients_slice(&self) -> &[Element<R, K>] {
        slice::from_ref(self)
    }
}

impl BasisCoefficientsSlice<Gf2> for Gf2 {
    fn as_basis_coefficients_slice(&self) -> &[Gf2] {
        slice::from_ref(self)
    }
}

impl BasisCoefficientsSlice<Poly64> for Poly192 {
    fn as_basis_coefficients_slice(&self) -> &[Poly64] {
        self.coefficient_slice()
    }
}

impl BasisCoefficients<Poly64> for Poly192 {
    type Coefficients = [Poly64; 3];

    ghost listed = { λ cs. cs };

    fn as_basis_coefficients(&self) -> [Poly64; 3] {
        self.coefficients()
    }
}
