// The lanes of packed bits, one after the other.
ghost use Rattle.std.specs.Prelude.{◌≡◌, ◌-◌};
ghost use Rattle.std.specs.Array.{index_steps};
ghost use Rattle.std.specs.Iterator.{CallableAtEachTurn, YieldsFirstBy, at_most};
ghost use Rattle.field_base.specs.Bit.{bit_number};
ghost use Rattle.packed_lanes.specs.Parts.{IsFilled};
ghost use Rattle.bits_packed.specs.Lanes.{lanes_from, bits_of};

use crate::packed::PackedGf2;
use field_base::Gf2;
use packed_lanes::Underlier;

/// An iterator over the lanes of packed bits, the lowest first.
#[derive(Drop)]
pub struct Lanes<U: Underlier> {
    packed: PackedGf2<U>,
    next: usize,
}

impl<U: Underlier> Iterator for Lanes<U> {
    type Item = Gf2;

    ghost next_gives = { YieldsFirstBy bit_number (λ s. lanes_from U.BITS s.next (U.number s.packed.bits)) };

    ghost remaining = { λ s. at_most (U.BITS - s.next) };

    #[inline]
    fn next(&mut self) -> Option<Gf2> {
        if self.next >= U::BITS {
            return None;
        }
        let lane = self.packed.get(self.next);
        self.next += 1;
        Some(lane)
    }
}

impl<U: Underlier> PackedGf2<U> {
    /// The lanes, lane 0 first.
    #[inline]
    pub fn lanes(self) -> Lanes<U>
        ensures { lanes_from U.BITS result.next (U.number result.packed.bits) ≡ bits_of U.BITS (U.number self.bits) }
    {
        Lanes {
            packed: self,
            next: 0,
        }
    }

    /// The packed bits whose lane i is `f(i)`: `f` is called once for each i below `WIDTH`, from 0 up. It needs to take these indexes
    /// alone, in this order.
    pub fn from_fn<F: FnMut(usize) -> Gf2>(mut f: F) -> PackedGf2<U>
        requires { CallableAtEachTurn (index_steps U.BITS) (λ p i q. (x : Gf2) × F.step p i x q) F.pre 0 f }
        ensures { (last : F) × IsFilled F.step bit_number 1 U.BITS (U.number result.bits) f last }
    {
        let mut packed = PackedGf2::new(U::ZERO);
        for lane in 0..U::BITS {
            packed.set(lane, f(lane));
        }
        packed
    }
}
