// Fields whose bits are a power of two: the levels of the tower, and the fields that are one of them in another basis.
ghost use Rattle.std.specs.Prelude.{◌≡◌, ◌≢◌, ◌%◌, ◌^◌, ◌<◌, ◌≤◌, ℕ, bit_xor};
ghost use Rattle.field_base.specs.Orders.{AreCantorVectors};
ghost use Rattle.field_base.specs.Tower.{root};
ghost use Rattle.field_base.specs.TowerBasis.{AreEvenCantorVectors, IsIsomorphism, tower_generator};

use crate::traits::field::Field;
use crate::word::Unsigned;

/// The marker that seals `TowerLevel`: the crate that users take does not export it.
pub trait Sealed {}

/// A field of 2 to the power of `LOG_BITS` bits: that level of Wiedemann's tower, in its own basis or another. The trait is
/// sealed: its fields are those of this library.
pub trait TowerLevel: Field + Sealed {
    /// The unsigned number that stores an element.
    type Repr: Unsigned;

    /// The binary logarithm of the bits.
    const LOG_BITS: usize;

    ghost LOG_BITS: { ℕ };

    // The change of basis from the level of the tower, which in the tower itself changes nothing.
    ghost basis: { ℕ → ℕ };

    // Cantor vector i of the level, of as many as it has bits.
    ghost cantor: { ℕ → ℕ };

    /// The element of a representation. Bits above the field are dropped.
    fn from_repr(bits: Self::Repr) -> Self
        ensures { Self.repr result ≡ Self.Repr.number bits % 2 ^ Self.width };

    /// The representation.
    fn to_repr(self) -> Self::Repr
        ensures { Self.Repr.number result ≡ Self.repr self };

    /// The product by the root that the field's own level of the tower adjoins, in the field's basis; at GF(2), where that
    /// root is 1, the element itself.
    fn mul_alpha(self) -> Self
        ensures { Self.repr result ≡ Self.product (basis (root LOG_BITS)) (Self.repr self) };

    /// Cantor vector i, for i below the bits: vector 0 is 1, and v² + v of each other vector v is the one before it. Of the
    /// two solutions it is the one whose representation in the tower is even.
    fn cantor_basis(i: usize) -> Self
        requires { i < Self.width }
        ensures { Self.repr result ≡ basis (cantor i) };

    ghost bits_law: { Self.width ≡ 2 ^ LOG_BITS };

    ghost room_law: { Self.width ≤ Self.Repr.bits };

    ghost basis_law: { IsIsomorphism LOG_BITS Self.width Self.product basis };

    ghost cantor_law: { AreEvenCantorVectors LOG_BITS cantor };

    // In the field too each of their images solves v² + v = the image before it.
    ghost cantor_image_law: { AreCantorVectors Self.width Self.product (λ i. basis (cantor i)) };

    ghost generator_image_law: { Self.repr Self.Field.GENERATOR ≡ basis (tower_generator LOG_BITS) };

    // The polynomial whose root the next level adjoins has no root in the field.
    ghost no_root_law: { (x : ℕ) → bit_xor (bit_xor (Self.product x x) (Self.product (basis (root LOG_BITS)) x)) 1 ≢ 0 };
}
