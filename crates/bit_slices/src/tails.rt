// The tails of two moduli, which are x^w and a tail of low degree: what multiplies by a tail bit by bit.
#![tactic(auto, unfolding(crate::specs::Called::lanes_8))]

ghost use Rattle.std.specs.Prelude.{◌≡◌, ◌<◌, ◌*◌, ◌/◌, ◌%◌, ◌^◌, ℕ, bit_xor, refl};
ghost use Rattle.field_base.specs.Quadratic.{pair};
ghost use Rattle.word_carryless.specs.Tail.{ghash_tail, poly64_tail};
ghost use Rattle.bit_slices.specs.Tails.{tail_product};

use crate::bit::Bit;
use crate::levels::Slices8;
use crate::sliced::Sliced;
use crate::vector::Vector;

/// A tail of degree at most 7, which has the term 1.
pub trait Tail {
    /// The tail: bit i is the coefficient of x^i.
    const NUMBER: u8;

    ghost NUMBER: { ℕ };

    ghost odd_law: { NUMBER % 2 ≡ 1 };
}

/// x^4 + x^3 + x + 1, the tail of x^64 + x^4 + x^3 + x + 1.
pub struct Poly64Tail;

impl Tail for Poly64Tail {
    const NUMBER: u8 = 0x1b;

    ghost NUMBER = { poly64_tail };

    ghost odd_law = { refl };
}

/// x^7 + x^2 + x + 1, the tail of GHASH's x^128 + x^7 + x^2 + x + 1.
pub struct GhashTail;

impl Tail for GhashTail {
    const NUMBER: u8 = 0x87;

    ghost NUMBER = { ghash_tail };

    ghost odd_law = { refl };
}

/// Adds the tail to what is carried where the bit is set, divides the sum by x and returns its lowest bit.
#[inline(always)]
pub(crate) fn step<M: Tail, V: Vector>(carry: &mut Slices8<V>, bit: &Bit<V>) -> Bit<V>
    ensures lowest { (l : ℕ) → ⟦<Bit<V> as Sliced>⟧.lane result l
        ≡ tail_product M.NUMBER (⟦<Bit<V> as Sliced>⟧.lane bit.now l) (⟦<Slices8<V> as Sliced>⟧.lane carry.old l) % 2 }
    ensures carried { (l : ℕ) → ⟦<Slices8<V> as Sliced>⟧.lane carry.new l
        ≡ tail_product M.NUMBER (⟦<Bit<V> as Sliced>⟧.lane bit.now l) (⟦<Slices8<V> as Sliced>⟧.lane carry.old l) / 2 }
{
    let mut lowest = shift_down(carry);
    lowest.add(bit);
    let tail = M::NUMBER;
    add_term(&mut carry.inner.low.low.low, bit, tail, 1);
    add_term(&mut carry.inner.low.low.high, bit, tail, 2);
    add_term(&mut carry.inner.low.high.low, bit, tail, 3);
    add_term(&mut carry.inner.low.high.high, bit, tail, 4);
    add_term(&mut carry.inner.high.low.low, bit, tail, 5);
    add_term(&mut carry.inner.high.low.high, bit, tail, 6);
    add_term(&mut carry.inner.high.high.low, bit, tail, 7);
    lowest
}

// Adds the bit to a slice if the tail has the term x^place. Both are known when it is compiled.
#[inline(always)]
fn add_term<V: Vector>(slice: &mut Bit<V>, bit: &Bit<V>, tail: u8, place: u32)
    requires { place < 8 }
    ensures { (l : ℕ) → ⟦<Bit<V> as Sliced>⟧.lane slice.new l
        ≡ bit_xor (⟦<Bit<V> as Sliced>⟧.lane slice.old l) (⟦<Bit<V> as Sliced>⟧.lane bit.now l * (tail / 2 ^ place % 2)) }
{
    if (tail >> place) % 2 == 1 {
        slice.add(bit);
    }
}

// Divides by x, and returns the lowest bit.
#[inline(always)]
fn shift_down<V: Vector>(carry: &mut Slices8<V>) -> Bit<V>
    ensures { (l : ℕ) → ⟦<Slices8<V> as Sliced>⟧.lane carry.old l
        ≡ pair 1 (⟦<Bit<V> as Sliced>⟧.lane result l) (⟦<Slices8<V> as Sliced>⟧.lane carry.new l) }
{
    let lowest = carry.inner.low.low.low;
    carry.inner.low.low.low = carry.inner.low.low.high;
    carry.inner.low.low.high = carry.inner.low.high.low;
    carry.inner.low.high.low = carry.inner.low.high.high;
    carry.inner.low.high.high = carry.inner.high.low.low;
    carry.inner.high.low.low = carry.inner.high.low.high;
    carry.inner.high.low.high = carry.inner.high.high.low;
    carry.inner.high.high.low = carry.inner.high.high.high;
    carry.inner.high.high.high = Bit::<V>::zeros();
    lowest
}
