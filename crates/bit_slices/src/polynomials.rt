// The arithmetic of polynomials over GF(2) on slices of bits, in place: bit i of the number in a lane is the coefficient of x^i.
ghost use Rattle.std.specs.Prelude.{◌≡◌, ◌<◌, ◌/◌, ◌%◌, ◌^◌, ℕ, bit_xor};
ghost use Rattle.field_base.specs.Carryless.{carryless};
ghost use Rattle.field_base.specs.Quadratic.{pair};
ghost use Rattle.bit_slices.specs.Tails.{tail_product};

use crate::levels::Slices8;
use crate::sliced::Sliced;
use crate::tails::Tail;
use crate::vector::Vector;

/// As many polynomials as a vector has bits, each with a coefficient in every slice of a block.
pub trait SlicedPolynomials<V: Vector>: Sliced {
    /// Sets each lane of `low` and of `high` to the low and the high half of the product.
    fn set_carryless_product(low: &mut Self, high: &mut Self, x: &Self, y: &Self)
        ensures { (l : ℕ) → pair (2 ^ Self.LEVEL) (Self.lane low.new l) (Self.lane high.new l)
            ≡ carryless (Self.lane x.now l) (Self.lane y.now l) };

    /// Adds to each lane what the product by the tail, and what is carried in, have within the block, and leaves what is past it to be
    /// carried on.
    fn add_by_tail<M: Tail>(&mut self, x: &Self, carry: &mut Slices8<V>)
        ensures added { (l : ℕ) → Self.lane self.new l ≡ bit_xor (Self.lane self.old l)
            (tail_product M.NUMBER (Self.lane x.now l) (⟦<Slices8<V> as Sliced>⟧.lane carry.old l) % 2 ^ 2 ^ Self.LEVEL) }
        ensures carried { (l : ℕ) → ⟦<Slices8<V> as Sliced>⟧.lane carry.new l
            ≡ tail_product M.NUMBER (Self.lane x.now l) (⟦<Slices8<V> as Sliced>⟧.lane carry.old l) / 2 ^ 2 ^ Self.LEVEL };
}

/// States that each lane has an element of the level.
#[inline(always)]
pub(crate) fn holds_elements<T: Sliced>(block: &T)
    ensures { (l : ℕ) → T.lane block.now l < 2 ^ 2 ^ T.LEVEL }
{}
