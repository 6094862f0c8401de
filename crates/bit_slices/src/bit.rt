// Level 0: each bit of a vector is an element.
ghost use Rattle.std.specs.Prelude.{◌≡◌, ◌<◌, ◌≤◌, ℕ, bit_xor, length, slice_index};
ghost use Rattle.field_base.specs.Tower.{tower_mul};
ghost use Rattle.packed_lanes.specs.Parts.{HasFirstBlocks, HasSecondBlocks, IsBlockSize};
ghost use Rattle.bit_slices.specs.Lanes.{bit_lane};
ghost use Rattle.bit_slices.specs.lemmas.Lane.{bit_lane-lt};

use crate::levels::Slices8;
use crate::polynomials::SlicedPolynomials;
use crate::sliced::Sliced;
use crate::tails::{Tail, step};
use crate::vector::Vector;
use crate::word::TowerWord;
use field_base::Holds;
use packed_lanes::even_word;

/// The bits of a vector, which are the elements of level 0.
#[derive(Clone, Copy)]
pub struct Bit<V> {
    words: V,
}

// The sum of each bit.
#[inline(always)]
fn sum_of<V: Vector>(x: V, y: V) -> V
    ensures { (l : ℕ) → bit_lane (V.words result) l ≡ bit_xor (bit_lane (V.words x) l) (bit_lane (V.words y) l) }
{
    x.holds_words();
    y.holds_words();
    x.sum(y)
}

// The product of each bit.
#[inline(always)]
fn product_of<V: Vector>(x: V, y: V) -> V
    ensures { (l : ℕ) → bit_lane (V.words result) l ≡ tower_mul 0 (bit_lane (V.words x) l) (bit_lane (V.words y) l) }
{
    x.holds_words();
    y.holds_words();
    x.product_of_bits(y)
}

// Two vectors with blocks of bits of each word exchanged: the blocks with odd numbers of the first, and those with even numbers of the second.
#[inline(always)]
fn exchange_blocks<V: Vector>(x: V, y: V, block: u32) -> (V, V)
    requires { IsBlockSize 64 block }
    ensures first { (n : ℕ) → HasFirstBlocks 64 block (slice_index (V.words x) n) (slice_index (V.words y) n)
        (slice_index (V.words result.0) n) }
    ensures second { (n : ℕ) → HasSecondBlocks 64 block (slice_index (V.words x) n) (slice_index (V.words y) n)
        (slice_index (V.words result.1) n) }
{
    x.holds_words();
    y.holds_words();
    let even = even_word::<u64>(block);
    let change = x.down(block as u64).sum(y).masked(even);
    (x.sum(change.up(block as u64)), y.sum(change))
}

impl<V: Vector> Sliced for Bit<V> {
    ghost LEVEL = { 0 };

    ghost units = { V.units };

    ghost lane = { λ x. bit_lane (V.words x.words) };

    ghost fits_law = { λ x. bit_lane-lt (V.words x.words) };

    #[inline(always)]
    fn level() -> usize {
        0
    }

    #[inline(always)]
    fn lanes() -> usize {
        V::lanes()
    }

    #[inline(always)]
    fn zeros() -> Bit<V> {
        Bit {
            words: V::filled(0),
        }
    }

    #[inline(always)]
    fn set_sum(&mut self, x: &Bit<V>, y: &Bit<V>) {
        self.words = sum_of(x.words, y.words);
    }

    #[inline(always)]
    fn add(&mut self, x: &Bit<V>) {
        self.words = sum_of(self.words, x.words);
    }

    #[inline(always)]
    fn set_product(&mut self, x: &Bit<V>, y: &Bit<V>) {
        self.words = product_of(x.words, y.words);
    }

    #[inline(always)]
    fn add_by_root(&mut self, x: &Bit<V>) {
        self.words = sum_of(self.words, x.words);
    }

    #[inline(always)]
    fn square(&mut self) {}

    #[inline(always)]
    fn set_inverse(&mut self, x: &Bit<V>) {
        *self = *x;
    }

    #[inline(always)]
    fn exchange(x: &mut Bit<V>, y: &mut Bit<V>, level: usize) {
        if level == 6 {
            let (even, odd) = x.words.exchange_words(y.words);
            x.words = even;
            y.words = odd;
        } else {
            let (first, second) = exchange_blocks(x.words, y.words, 1 << level);
            x.words = first;
            y.words = second;
        }
    }

    #[inline(always)]
    fn turn(&mut self) {}

    #[inline(always)]
    fn read<R: TowerWord, W: Holds<R>>(&mut self, words: &[W], start: usize) -> usize {
        let (read, end) = V::read::<R, W>(words, start);
        self.words = read;
        end
    }

    #[inline(always)]
    fn write<R: TowerWord, W: Holds<R>>(&self, words: &mut [W], start: usize) -> usize {
        self.words.write::<R, W>(words, start)
    }

    ghost some_law = { V.some_law };
}

impl<V: Vector> SlicedPolynomials<V> for Bit<V> {
    #[inline(always)]
    fn set_carryless_product(low: &mut Bit<V>, high: &mut Bit<V>, x: &Bit<V>, y: &Bit<V>) {
        low.words = product_of(x.words, y.words);
        *high = Bit::<V>::zeros();
    }

    #[inline(always)]
    fn add_by_tail<M: Tail>(&mut self, x: &Bit<V>, carry: &mut Slices8<V>) {
        let lowest = step::<M, V>(carry, x);
        self.add(&lowest);
    }
}
