// GF(2) as a prime field, and its elements as integers.
ghost use Rattle.std.specs.Prelude.{◌≡◌, ◌≢◌, ◌≤◌, ◌⊎◌, ◌*◌, ◌^◌, ◌↔◌, ℕ, pos, IsNone, IfSome, refl};
ghost use Rattle.std.proofs.Common.{lit≤};
ghost use Rattle.field_base.specs.Powers.{parity};

use crate::Gf2;
use crate::integer::Integer;
use crate::traits::{Field, PrimeCharacteristicRing, TowerLevel};

/// A ring that integers map onto.
pub trait QuotientMap<Int: Integer>: PrimeCharacteristicRing {
    /// The image of a number: 1 for an odd number, and 0 for an even one.
    fn from_int(int: Int) -> Self
        ensures { Self.repr result ≡ parity (Int.value int) * Self.unit };

    /// The element that 0 or 1 is, and None for any other number.
    fn from_canonical_checked(int: Int) -> Option<Self>
        ensures none { IsNone result ↔ ((Int.value int ≢ pos 0) × (Int.value int ≢ pos 1)) }
        ensures element { IfSome result (λ x. Int.value int ≡ pos (Self.repr x)) };

    /// The element that a number is, which has to be 0 or 1.
    fn from_canonical_unchecked(int: Int) -> Self
        requires { (Int.value int ≡ pos 0) ⊎ (Int.value int ≡ pos 1) }
        ensures { Int.value int ≡ pos (Self.repr result) };
}

impl<Int: Integer> QuotientMap<Int> for Gf2 {
    fn from_int(int: Int) -> Gf2 {
        Gf2::from_bool(int.is_odd())
    }

    fn from_canonical_checked(int: Int) -> Option<Gf2> {
        int.as_bit()
    }

    fn from_canonical_unchecked(int: Int) -> Gf2 {
        Gf2::from_bool(int.is_odd())
    }
}

/// A field of integers modulo a prime.
pub trait PrimeField: Field
    + Ord
    + QuotientMap<u8>
    + QuotientMap<u16>
    + QuotientMap<u32>
    + QuotientMap<u64>
    + QuotientMap<u128>
    + QuotientMap<usize>
    + QuotientMap<i8>
    + QuotientMap<i16>
    + QuotientMap<i32>
    + QuotientMap<i64>
    + QuotientMap<i128>
    + QuotientMap<isize> {}

impl PrimeField for Gf2 {}

/// A prime field whose elements are integers of 64 bits.
pub trait PrimeField64: PrimeField {
    /// The prime, which is how many elements there are.
    const ORDER_U64: u64;

    ghost ORDER_U64: { ℕ };

    /// The element as the integer from 0 on and below the prime.
    fn as_canonical_u64(&self) -> u64
        ensures { result ≡ Self.repr self.now };

    ghost order_law: { ORDER_U64 ≡ 2 ^ Self.width };
}

impl PrimeField64 for Gf2 {
    const ORDER_U64: u64 = 2;

    ghost ORDER_U64 = { 2 };

    fn as_canonical_u64(&self) -> u64 {
        self.to_repr() as u64
    }

    ghost order_law = { refl };
}

/// A prime field whose elements are integers of 32 bits.
pub trait PrimeField32: PrimeField64 {
    /// The prime, which is how many elements there are.
    const ORDER_U32: u32;

    ghost ORDER_U32: { ℕ };

    /// The element as the integer from 0 on and below the prime.
    fn as_canonical_u32(&self) -> u32
        ensures { result ≡ Self.repr self.now }
    {
        self.as_canonical_u64() as u32
    }

    ghost width_law: { Self.width ≤ 32 };

    ghost order_law: { ORDER_U32 ≡ 2 ^ Self.width };
}

impl PrimeField32 for Gf2 {
    const ORDER_U32: u32 = 2;

    ghost ORDER_U32 = { 2 };

    ghost width_law = { lit≤ tt };

    ghost order_law = { refl };
}
