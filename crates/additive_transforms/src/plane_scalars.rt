// The multiples of a scalar, by which elements in planes are multiplied, at every level.
ghost use Rattle.std.specs.Prelude.{◌≡◌, ◌^◌, ◌<◌, ◌≤◌};
ghost use Rattle.field_base.specs.Quadratic.{pair};
ghost use Rattle.field_base.specs.Tower.{root, tower_mul};
ghost use Rattle.additive_transforms.specs.Products.{HasHalves};
ghost use Rattle.additive_transforms.specs.Rows.{level_of};

use crate::multiples::{ByteMultiples, HalfMultiples, multiples_8, times_root_8};
use crate::pair::Pair;
use crate::planes::Planes;
use word_tables::ByteVector;

/// Planes whose elements are multiplied by the multiples of a scalar, which are made of it.
pub trait PlaneScalars<M>: Planes<M> {
    /// The multiples of a scalar of so many bits as an element has.
    fn multiples(scalar: u128, bits: u32) -> M
        requires bits { bits ≡ 2 ^ level_of Self.Planes.depth }
        requires few { bits ≤ 128 }
        requires fits { scalar < 2 ^ bits }
        ensures { Self.Planes.are_multiples result scalar };

    /// The product by the root that the level of so many bits adjoins.
    fn times_root(scalar: u128, bits: u32) -> u128
        requires bits { bits ≡ 2 ^ level_of Self.Planes.depth }
        requires few { bits ≤ 128 }
        requires fits { scalar < 2 ^ bits }
        ensures { result ≡ tower_mul (level_of Self.Planes.depth) (root (level_of Self.Planes.depth)) scalar };
}

impl<V: ByteVector> PlaneScalars<ByteMultiples> for V {
    #[inline]
    fn multiples(scalar: u128, bits: u32) -> ByteMultiples {
        multiples_8(scalar as u8)
    }

    #[inline]
    fn times_root(scalar: u128, bits: u32) -> u128 {
        u128::from(times_root_8(scalar as u8))
    }
}

impl<M, P: PlaneScalars<M>> PlaneScalars<HalfMultiples<M>> for Pair<P> {
    #[inline]
    fn multiples(scalar: u128, bits: u32) -> HalfMultiples<M> {
        let half = bits / 2;
        let (low, high) = halves_of(scalar, bits);
        let sum = low ^ high;
        HalfMultiples {
            both: P::multiples(high, half),
            low: P::multiples(sum, half),
            high: P::multiples(sum ^ P::times_root(high, half), half),
        }
    }

    // X (low + high X) is high + (low + t high) X, where t is the root of the level below.
    #[inline]
    fn times_root(scalar: u128, bits: u32) -> u128 {
        let half = bits / 2;
        let (low, high) = halves_of(scalar, bits);
        pair_of(high, low ^ P::times_root(high, half), half)
    }
}

// The halves of a number of so many bits, the low one and the high one.
#[inline]
fn halves_of(number: u128, bits: u32) -> (u128, u128)
    requires { bits ≤ 128 }
    ensures { HasHalves bits number result.0 result.1 }
{
    let half = bits / 2;
    (number % (1 << half), number >> half)
}

// The number of these halves.
#[inline]
fn pair_of(low: u128, high: u128, half: u32) -> u128
    requires few { half ≤ 64 }
    requires low { low < 2 ^ half }
    requires high { high < 2 ^ half }
    ensures { result ≡ pair half low high }
{
    (high << half) + low
}
