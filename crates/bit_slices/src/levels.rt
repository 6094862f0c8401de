// Written by scripts/make_impls.py; do not edit.
// The levels of 8 to 128 bits by slices of bits. Each is a type of its own whose products, squares, inverses and transpositions are
// called and not put in line: so LLVM compiles, and the checker names, each level once.
ghost use Rattle.bit_slices.specs.Called.{lanes_8, lanes_16, lanes_32, lanes_64, lanes_128};
ghost use Rattle.std.specs.Prelude.{◌≡◌, ◌<◌, ◌^◌, ℕ, refl};

use crate::bit::Bit;
use crate::pair::Pair;
use crate::polynomials::SlicedPolynomials;
use crate::sliced::{Sliced, SlicesOf};
use crate::tails::Tail;
use crate::vector::Vector;
use crate::word::TowerWord;
use field_base::Holds;

/// Elements of 8 bits, by slices in vectors `V`, with functions that are called.
#[derive(Clone, Copy)]
pub struct Slices8<V> {
    pub(crate) inner: Pair<Pair<Pair<Bit<V>>>>,
}

impl<V: Vector> Sliced for Slices8<V> {
    ghost LEVEL = { 3 };

    ghost units = { V.units };

    ghost lane = { λ x. lanes_8 ⟦<Pair<Pair<Pair<Bit<V>>>> as Sliced>⟧.lane x.inner };

    ghost fits_law = { λ x l. unfold lanes_8 in ⟦<Pair<Pair<Pair<Bit<V>>>> as Sliced>⟧.fits_law x.inner l };

    #[inline(always)]
    #[tactic(auto, unfolding(crate::specs::Called::lanes_8))]
    fn level() -> usize {
        Pair::<Pair<Pair<Bit<V>>>>::level()
    }

    #[inline(always)]
    #[tactic(auto, unfolding(crate::specs::Called::lanes_8))]
    fn lanes() -> usize {
        V::lanes()
    }

    #[inline(always)]
    #[tactic(auto, unfolding(crate::specs::Called::lanes_8))]
    fn zeros() -> Slices8<V> {
        Slices8 {
            inner: Pair::<Pair<Pair<Bit<V>>>>::zeros(),
        }
    }

    #[inline(always)]
    #[tactic(auto, unfolding(crate::specs::Called::lanes_8))]
    fn set_sum(&mut self, x: &Slices8<V>, y: &Slices8<V>) {
        self.inner.set_sum(&x.inner, &y.inner);
    }

    #[inline(always)]
    #[tactic(auto, unfolding(crate::specs::Called::lanes_8))]
    fn add(&mut self, x: &Slices8<V>) {
        self.inner.add(&x.inner);
    }

    #[inline(never)]
    #[tactic(auto, unfolding(crate::specs::Called::lanes_8))]
    fn set_product(&mut self, x: &Slices8<V>, y: &Slices8<V>) {
        self.inner.set_product(&x.inner, &y.inner);
    }

    #[inline(always)]
    #[tactic(auto, unfolding(crate::specs::Called::lanes_8))]
    fn add_by_root(&mut self, x: &Slices8<V>) {
        self.inner.add_by_root(&x.inner);
    }

    #[inline(never)]
    #[tactic(auto, unfolding(crate::specs::Called::lanes_8))]
    fn square(&mut self) {
        self.inner.square();
    }

    #[inline(never)]
    #[tactic(auto, unfolding(crate::specs::Called::lanes_8))]
    fn set_inverse(&mut self, x: &Slices8<V>) {
        self.inner.set_inverse(&x.inner);
    }

    #[inline(always)]
    #[tactic(auto, unfolding(crate::specs::Called::lanes_8))]
    fn exchange(x: &mut Slices8<V>, y: &mut Slices8<V>, level: usize) {
        Sliced::exchange(&mut x.inner, &mut y.inner, level);
    }

    #[inline(never)]
    #[tactic(auto, unfolding(crate::specs::Called::lanes_8))]
    fn turn(&mut self) {
        self.inner.turn();
    }

    #[inline(always)]
    #[tactic(auto, unfolding(crate::specs::Called::lanes_8))]
    fn read<R: TowerWord, W: Holds<R>>(&mut self, words: &[W], start: usize) -> usize {
        self.inner.read::<R, W>(words, start)
    }

    #[inline(always)]
    #[tactic(auto, unfolding(crate::specs::Called::lanes_8))]
    fn write<R: TowerWord, W: Holds<R>>(&self, words: &mut [W], start: usize) -> usize {
        self.inner.write::<R, W>(words, start)
    }

    ghost some_law = { V.some_law };
}

impl<V: Vector> SlicedPolynomials<V> for Slices8<V> {
    #[inline(never)]
    #[tactic(auto, unfolding(crate::specs::Called::lanes_8))]
    fn set_carryless_product(
        low: &mut Slices8<V>,
        high: &mut Slices8<V>,
        x: &Slices8<V>,
        y: &Slices8<V>,
    ) {
        SlicedPolynomials::set_carryless_product(
            &mut low.inner,
            &mut high.inner,
            &x.inner,
            &y.inner,
        );
    }

    #[inline(never)]
    #[tactic(auto, unfolding(crate::specs::Called::lanes_8))]
    fn add_by_tail<M: Tail>(&mut self, x: &Slices8<V>, carry: &mut Slices8<V>) {
        self.inner.add_by_tail::<M>(&x.inner, carry);
    }
}

impl<V: Vector> SlicesOf<u8> for Slices8<V> {
    ghost level_law = { refl };
}

/// Elements of 16 bits, by slices in vectors `V`, with functions that are called.
#[derive(Clone, Copy)]
pub struct Slices16<V> {
    pub(crate) inner: Pair<Slices8<V>>,
}

impl<V: Vector> Sliced for Slices16<V> {
    ghost LEVEL = { 4 };

    ghost units = { V.units };

    ghost lane = { λ x. lanes_16 ⟦<Pair<Slices8<V>> as Sliced>⟧.lane x.inner };

    ghost fits_law = { λ x l. unfold lanes_16 in ⟦<Pair<Slices8<V>> as Sliced>⟧.fits_law x.inner l };

    #[inline(always)]
    #[tactic(auto, unfolding(crate::specs::Called::lanes_16))]
    fn level() -> usize {
        Pair::<Slices8<V>>::level()
    }

    #[inline(always)]
    #[tactic(auto, unfolding(crate::specs::Called::lanes_16))]
    fn lanes() -> usize {
        V::lanes()
    }

    #[inline(always)]
    #[tactic(auto, unfolding(crate::specs::Called::lanes_16))]
    fn zeros() -> Slices16<V> {
        Slices16 {
            inner: Pair::<Slices8<V>>::zeros(),
        }
    }

    #[inline(always)]
    #[tactic(auto, unfolding(crate::specs::Called::lanes_16))]
    fn set_sum(&mut self, x: &Slices16<V>, y: &Slices16<V>) {
        self.inner.set_sum(&x.inner, &y.inner);
    }

    #[inline(always)]
    #[tactic(auto, unfolding(crate::specs::Called::lanes_16))]
    fn add(&mut self, x: &Slices16<V>) {
        self.inner.add(&x.inner);
    }

    #[inline(never)]
    #[tactic(auto, unfolding(crate::specs::Called::lanes_16))]
    fn set_product(&mut self, x: &Slices16<V>, y: &Slices16<V>) {
        self.inner.set_product(&x.inner, &y.inner);
    }

    #[inline(always)]
    #[tactic(auto, unfolding(crate::specs::Called::lanes_16))]
    fn add_by_root(&mut self, x: &Slices16<V>) {
        self.inner.add_by_root(&x.inner);
    }

    #[inline(never)]
    #[tactic(auto, unfolding(crate::specs::Called::lanes_16))]
    fn square(&mut self) {
        self.inner.square();
    }

    #[inline(never)]
    #[tactic(auto, unfolding(crate::specs::Called::lanes_16))]
    fn set_inverse(&mut self, x: &Slices16<V>) {
        self.inner.set_inverse(&x.inner);
    }

    #[inline(always)]
    #[tactic(auto, unfolding(crate::specs::Called::lanes_16))]
    fn exchange(x: &mut Slices16<V>, y: &mut Slices16<V>, level: usize) {
        Sliced::exchange(&mut x.inner, &mut y.inner, level);
    }

    #[inline(never)]
    #[tactic(auto, unfolding(crate::specs::Called::lanes_16))]
    fn turn(&mut self) {
        self.inner.turn();
    }

    #[inline(always)]
    #[tactic(auto, unfolding(crate::specs::Called::lanes_16))]
    fn read<R: TowerWord, W: Holds<R>>(&mut self, words: &[W], start: usize) -> usize {
        self.inner.read::<R, W>(words, start)
    }

    #[inline(always)]
    #[tactic(auto, unfolding(crate::specs::Called::lanes_16))]
    fn write<R: TowerWord, W: Holds<R>>(&self, words: &mut [W], start: usize) -> usize {
        self.inner.write::<R, W>(words, start)
    }

    ghost some_law = { V.some_law };
}

impl<V: Vector> SlicedPolynomials<V> for Slices16<V> {
    #[inline(never)]
    #[tactic(auto, unfolding(crate::specs::Called::lanes_16))]
    fn set_carryless_product(
        low: &mut Slices16<V>,
        high: &mut Slices16<V>,
        x: &Slices16<V>,
        y: &Slices16<V>,
    ) {
        SlicedPolynomials::set_carryless_product(
            &mut low.inner,
            &mut high.inner,
            &x.inner,
            &y.inner,
        );
    }

    #[inline(always)]
    #[tactic(auto, unfolding(crate::specs::Called::lanes_16))]
    fn add_by_tail<M: Tail>(&mut self, x: &Slices16<V>, carry: &mut Slices8<V>) {
        self.inner.add_by_tail::<M>(&x.inner, carry);
    }
}

impl<V: Vector> SlicesOf<u16> for Slices16<V> {
    ghost level_law = { refl };
}

/// Elements of 32 bits, by slices in vectors `V`, with functions that are called.
#[derive(Clone, Copy)]
pub struct Slices32<V> {
    pub(crate) inner: Pair<Slices16<V>>,
}

impl<V: Vector> Sliced for Slices32<V> {
    ghost LEVEL = { 5 };

    ghost units = { V.units };

    ghost lane = { λ x. lanes_32 ⟦<Pair<Slices16<V>> as Sliced>⟧.lane x.inner };

    ghost fits_law = { λ x l. unfold lanes_32 in ⟦<Pair<Slices16<V>> as Sliced>⟧.fits_law x.inner l };

    #[inline(always)]
    #[tactic(auto, unfolding(crate::specs::Called::lanes_32))]
    fn level() -> usize {
        Pair::<Slices16<V>>::level()
    }

    #[inline(always)]
    #[tactic(auto, unfolding(crate::specs::Called::lanes_32))]
    fn lanes() -> usize {
        V::lanes()
    }

    #[inline(always)]
    #[tactic(auto, unfolding(crate::specs::Called::lanes_32))]
    fn zeros() -> Slices32<V> {
        Slices32 {
            inner: Pair::<Slices16<V>>::zeros(),
        }
    }

    #[inline(always)]
    #[tactic(auto, unfolding(crate::specs::Called::lanes_32))]
    fn set_sum(&mut self, x: &Slices32<V>, y: &Slices32<V>) {
        self.inner.set_sum(&x.inner, &y.inner);
    }

    #[inline(always)]
    #[tactic(auto, unfolding(crate::specs::Called::lanes_32))]
    fn add(&mut self, x: &Slices32<V>) {
        self.inner.add(&x.inner);
    }

    #[inline(never)]
    #[tactic(auto, unfolding(crate::specs::Called::lanes_32))]
    fn set_product(&mut self, x: &Slices32<V>, y: &Slices32<V>) {
        self.inner.set_product(&x.inner, &y.inner);
    }

    #[inline(always)]
    #[tactic(auto, unfolding(crate::specs::Called::lanes_32))]
    fn add_by_root(&mut self, x: &Slices32<V>) {
        self.inner.add_by_root(&x.inner);
    }

    #[inline(never)]
    #[tactic(auto, unfolding(crate::specs::Called::lanes_32))]
    fn square(&mut self) {
        self.inner.square();
    }

    #[inline(never)]
    #[tactic(auto, unfolding(crate::specs::Called::lanes_32))]
    fn set_inverse(&mut self, x: &Slices32<V>) {
        self.inner.set_inverse(&x.inner);
    }

    #[inline(always)]
    #[tactic(auto, unfolding(crate::specs::Called::lanes_32))]
    fn exchange(x: &mut Slices32<V>, y: &mut Slices32<V>, level: usize) {
        Sliced::exchange(&mut x.inner, &mut y.inner, level);
    }

    #[inline(never)]
    #[tactic(auto, unfolding(crate::specs::Called::lanes_32))]
    fn turn(&mut self) {
        self.inner.turn();
    }

    #[inline(always)]
    #[tactic(auto, unfolding(crate::specs::Called::lanes_32))]
    fn read<R: TowerWord, W: Holds<R>>(&mut self, words: &[W], start: usize) -> usize {
        self.inner.read::<R, W>(words, start)
    }

    #[inline(always)]
    #[tactic(auto, unfolding(crate::specs::Called::lanes_32))]
    fn write<R: TowerWord, W: Holds<R>>(&self, words: &mut [W], start: usize) -> usize {
        self.inner.write::<R, W>(words, start)
    }

    ghost some_law = { V.some_law };
}

impl<V: Vector> SlicedPolynomials<V> for Slices32<V> {
    #[inline(never)]
    #[tactic(auto, unfolding(crate::specs::Called::lanes_32))]
    fn set_carryless_product(
        low: &mut Slices32<V>,
        high: &mut Slices32<V>,
        x: &Slices32<V>,
        y: &Slices32<V>,
    ) {
        SlicedPolynomials::set_carryless_product(
            &mut low.inner,
            &mut high.inner,
            &x.inner,
            &y.inner,
        );
    }

    #[inline(always)]
    #[tactic(auto, unfolding(crate::specs::Called::lanes_32))]
    fn add_by_tail<M: Tail>(&mut self, x: &Slices32<V>, carry: &mut Slices8<V>) {
        self.inner.add_by_tail::<M>(&x.inner, carry);
    }
}

impl<V: Vector> SlicesOf<u32> for Slices32<V> {
    ghost level_law = { refl };
}

/// Elements of 64 bits, by slices in vectors `V`, with functions that are called.
#[derive(Clone, Copy)]
pub struct Slices64<V> {
    pub(crate) inner: Pair<Slices32<V>>,
}

impl<V: Vector> Sliced for Slices64<V> {
    ghost LEVEL = { 6 };

    ghost units = { V.units };

    ghost lane = { λ x. lanes_64 ⟦<Pair<Slices32<V>> as Sliced>⟧.lane x.inner };

    ghost fits_law = { λ x l. unfold lanes_64 in ⟦<Pair<Slices32<V>> as Sliced>⟧.fits_law x.inner l };

    #[inline(always)]
    #[tactic(auto, unfolding(crate::specs::Called::lanes_64))]
    fn level() -> usize {
        Pair::<Slices32<V>>::level()
    }

    #[inline(always)]
    #[tactic(auto, unfolding(crate::specs::Called::lanes_64))]
    fn lanes() -> usize {
        V::lanes()
    }

    #[inline(always)]
    #[tactic(auto, unfolding(crate::specs::Called::lanes_64))]
    fn zeros() -> Slices64<V> {
        Slices64 {
            inner: Pair::<Slices32<V>>::zeros(),
        }
    }

    #[inline(always)]
    #[tactic(auto, unfolding(crate::specs::Called::lanes_64))]
    fn set_sum(&mut self, x: &Slices64<V>, y: &Slices64<V>) {
        self.inner.set_sum(&x.inner, &y.inner);
    }

    #[inline(always)]
    #[tactic(auto, unfolding(crate::specs::Called::lanes_64))]
    fn add(&mut self, x: &Slices64<V>) {
        self.inner.add(&x.inner);
    }

    #[inline(never)]
    #[tactic(auto, unfolding(crate::specs::Called::lanes_64))]
    fn set_product(&mut self, x: &Slices64<V>, y: &Slices64<V>) {
        self.inner.set_product(&x.inner, &y.inner);
    }

    #[inline(always)]
    #[tactic(auto, unfolding(crate::specs::Called::lanes_64))]
    fn add_by_root(&mut self, x: &Slices64<V>) {
        self.inner.add_by_root(&x.inner);
    }

    #[inline(never)]
    #[tactic(auto, unfolding(crate::specs::Called::lanes_64))]
    fn square(&mut self) {
        self.inner.square();
    }

    #[inline(never)]
    #[tactic(auto, unfolding(crate::specs::Called::lanes_64))]
    fn set_inverse(&mut self, x: &Slices64<V>) {
        self.inner.set_inverse(&x.inner);
    }

    #[inline(always)]
    #[tactic(auto, unfolding(crate::specs::Called::lanes_64))]
    fn exchange(x: &mut Slices64<V>, y: &mut Slices64<V>, level: usize) {
        Sliced::exchange(&mut x.inner, &mut y.inner, level);
    }

    #[inline(never)]
    #[tactic(auto, unfolding(crate::specs::Called::lanes_64))]
    fn turn(&mut self) {
        self.inner.turn();
    }

    #[inline(always)]
    #[tactic(auto, unfolding(crate::specs::Called::lanes_64))]
    fn read<R: TowerWord, W: Holds<R>>(&mut self, words: &[W], start: usize) -> usize {
        self.inner.read::<R, W>(words, start)
    }

    #[inline(always)]
    #[tactic(auto, unfolding(crate::specs::Called::lanes_64))]
    fn write<R: TowerWord, W: Holds<R>>(&self, words: &mut [W], start: usize) -> usize {
        self.inner.write::<R, W>(words, start)
    }

    ghost some_law = { V.some_law };
}

impl<V: Vector> SlicedPolynomials<V> for Slices64<V> {
    #[inline(never)]
    #[tactic(auto, unfolding(crate::specs::Called::lanes_64))]
    fn set_carryless_product(
        low: &mut Slices64<V>,
        high: &mut Slices64<V>,
        x: &Slices64<V>,
        y: &Slices64<V>,
    ) {
        SlicedPolynomials::set_carryless_product(
            &mut low.inner,
            &mut high.inner,
            &x.inner,
            &y.inner,
        );
    }

    #[inline(always)]
    #[tactic(auto, unfolding(crate::specs::Called::lanes_64))]
    fn add_by_tail<M: Tail>(&mut self, x: &Slices64<V>, carry: &mut Slices8<V>) {
        self.inner.add_by_tail::<M>(&x.inner, carry);
    }
}

impl<V: Vector> SlicesOf<u64> for Slices64<V> {
    ghost level_law = { refl };
}

/// Elements of 128 bits, by slices in vectors `V`, with functions that are called.
#[derive(Clone, Copy)]
pub struct Slices128<V> {
    pub(crate) inner: Pair<Slices64<V>>,
}

impl<V: Vector> Sliced for Slices128<V> {
    ghost LEVEL = { 7 };

    ghost units = { V.units };

    ghost lane = { λ x. lanes_128 ⟦<Pair<Slices64<V>> as Sliced>⟧.lane x.inner };

    ghost fits_law = { λ x l. unfold lanes_128 in ⟦<Pair<Slices64<V>> as Sliced>⟧.fits_law x.inner l };

    #[inline(always)]
    #[tactic(auto, unfolding(crate::specs::Called::lanes_128))]
    fn level() -> usize {
        Pair::<Slices64<V>>::level()
    }

    #[inline(always)]
    #[tactic(auto, unfolding(crate::specs::Called::lanes_128))]
    fn lanes() -> usize {
        V::lanes()
    }

    #[inline(always)]
    #[tactic(auto, unfolding(crate::specs::Called::lanes_128))]
    fn zeros() -> Slices128<V> {
        Slices128 {
            inner: Pair::<Slices64<V>>::zeros(),
        }
    }

    #[inline(always)]
    #[tactic(auto, unfolding(crate::specs::Called::lanes_128))]
    fn set_sum(&mut self, x: &Slices128<V>, y: &Slices128<V>) {
        self.inner.set_sum(&x.inner, &y.inner);
    }

    #[inline(always)]
    #[tactic(auto, unfolding(crate::specs::Called::lanes_128))]
    fn add(&mut self, x: &Slices128<V>) {
        self.inner.add(&x.inner);
    }

    #[inline(never)]
    #[tactic(auto, unfolding(crate::specs::Called::lanes_128))]
    fn set_product(&mut self, x: &Slices128<V>, y: &Slices128<V>) {
        self.inner.set_product(&x.inner, &y.inner);
    }

    #[inline(always)]
    #[tactic(auto, unfolding(crate::specs::Called::lanes_128))]
    fn add_by_root(&mut self, x: &Slices128<V>) {
        self.inner.add_by_root(&x.inner);
    }

    #[inline(never)]
    #[tactic(auto, unfolding(crate::specs::Called::lanes_128))]
    fn square(&mut self) {
        self.inner.square();
    }

    #[inline(never)]
    #[tactic(auto, unfolding(crate::specs::Called::lanes_128))]
    fn set_inverse(&mut self, x: &Slices128<V>) {
        self.inner.set_inverse(&x.inner);
    }

    #[inline(always)]
    #[tactic(auto, unfolding(crate::specs::Called::lanes_128))]
    fn exchange(x: &mut Slices128<V>, y: &mut Slices128<V>, level: usize) {
        Sliced::exchange(&mut x.inner, &mut y.inner, level);
    }

    #[inline(never)]
    #[tactic(auto, unfolding(crate::specs::Called::lanes_128))]
    fn turn(&mut self) {
        self.inner.turn();
    }

    #[inline(always)]
    #[tactic(auto, unfolding(crate::specs::Called::lanes_128))]
    fn read<R: TowerWord, W: Holds<R>>(&mut self, words: &[W], start: usize) -> usize {
        self.inner.read::<R, W>(words, start)
    }

    #[inline(always)]
    #[tactic(auto, unfolding(crate::specs::Called::lanes_128))]
    fn write<R: TowerWord, W: Holds<R>>(&self, words: &mut [W], start: usize) -> usize {
        self.inner.write::<R, W>(words, start)
    }

    ghost some_law = { V.some_law };
}

impl<V: Vector> SlicedPolynomials<V> for Slices128<V> {
    #[inline(never)]
    #[tactic(auto, unfolding(crate::specs::Called::lanes_128))]
    fn set_carryless_product(
        low: &mut Slices128<V>,
        high: &mut Slices128<V>,
        x: &Slices128<V>,
        y: &Slices128<V>,
    ) {
        SlicedPolynomials::set_carryless_product(
            &mut low.inner,
            &mut high.inner,
            &x.inner,
            &y.inner,
        );
    }

    #[inline(always)]
    #[tactic(auto, unfolding(crate::specs::Called::lanes_128))]
    fn add_by_tail<M: Tail>(&mut self, x: &Slices128<V>, carry: &mut Slices8<V>) {
        self.inner.add_by_tail::<M>(&x.inner, carry);
    }
}

impl<V: Vector> SlicesOf<u128> for Slices128<V> {
    ghost level_law = { refl };
}
