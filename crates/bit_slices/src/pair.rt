// The next level of the tower, by the halves of elements.
ghost use Rattle.std.specs.Prelude.{◌≡◌, ◌^◌, ℕ, suc};
ghost use Rattle.field_base.specs.Quadratic.{pair};
ghost use Rattle.field_base.proofs.TowerRing.{halves-lt};

use crate::levels::Slices8;
use crate::polynomials::SlicedPolynomials;
use crate::sliced::Sliced;
use crate::tails::Tail;
use crate::vector::Vector;
use crate::word::TowerWord;
use field_base::Holds;

/// The elements `low + high X` of the next level.
#[derive(Clone, Copy)]
pub struct Pair<T> {
    pub(crate) low: T,
    pub(crate) high: T,
}

impl<T: Sliced> Sliced for Pair<T> {
    ghost LEVEL = { suc T.LEVEL };

    ghost units = { T.units };

    ghost lane = { λ x l. pair (2 ^ T.LEVEL) (T.lane x.low l) (T.lane x.high l) };

    ghost fits_law = { λ x l. halves-lt T.LEVEL (T.lane x.low l) (T.lane x.high l) (T.fits_law x.low l) (T.fits_law x.high l) };

    #[inline(always)]
    fn level() -> usize {
        T::level() + 1
    }

    #[inline(always)]
    fn lanes() -> usize {
        T::lanes()
    }

    #[inline(always)]
    fn zeros() -> Pair<T> {
        Pair {
            low: T::zeros(),
            high: T::zeros(),
        }
    }

    #[inline(always)]
    fn set_sum(&mut self, x: &Pair<T>, y: &Pair<T>) {
        self.low.set_sum(&x.low, &y.low);
        self.high.set_sum(&x.high, &y.high);
    }

    #[inline(always)]
    fn add(&mut self, x: &Pair<T>) {
        self.low.add(&x.low);
        self.high.add(&x.high);
    }

    #[inline(always)]
    fn set_product(&mut self, x: &Pair<T>, y: &Pair<T>) {
        let mut mixed = x.low;
        let mut high = x.low;
        self.low.set_sum(&x.low, &x.high);
        self.high.set_sum(&y.low, &y.high);
        mixed.set_product(&self.low, &self.high);
        high.set_product(&x.high, &y.high);
        self.low.set_product(&x.low, &y.low);
        self.low.add(&high);
        self.high.set_sum(&mixed, &self.low);
        self.high.add_by_root(&high);
    }

    #[inline(always)]
    fn add_by_root(&mut self, x: &Pair<T>) {
        self.low.add(&x.high);
        self.high.add(&x.low);
        self.high.add_by_root(&x.high);
    }

    #[inline(always)]
    fn square(&mut self) {
        self.low.square();
        self.high.square();
        self.low.add(&self.high);
        let mut by_root = self.high;
        by_root.add_by_root(&self.high);
        self.high.add(&by_root);
    }

    #[inline(always)]
    fn set_inverse(&mut self, x: &Pair<T>) {
        let mut other_low = x.low;
        other_low.add_by_root(&x.high);
        let mut norm = x.high;
        norm.square();
        self.low.set_product(&x.low, &other_low);
        norm.add(&self.low);
        let mut over_norm = norm;
        over_norm.set_inverse(&norm);
        self.low.set_product(&other_low, &over_norm);
        self.high.set_product(&x.high, &over_norm);
    }

    #[inline(always)]
    fn exchange(x: &mut Pair<T>, y: &mut Pair<T>, level: usize) {
        T::exchange(&mut x.low, &mut y.low, level);
        T::exchange(&mut x.high, &mut y.high, level);
    }

    // The highest bit of the number of a vector and that of a lane change places, and then the lower ones in each half.
    #[inline(always)]
    fn turn(&mut self) {
        T::exchange(&mut self.low, &mut self.high, T::level());
        self.low.turn();
        self.high.turn();
    }

    #[inline(always)]
    fn read<R: TowerWord, W: Holds<R>>(&mut self, words: &[W], start: usize) -> usize {
        let middle = self.low.read::<R, W>(words, start);
        self.high.read::<R, W>(words, middle)
    }

    #[inline(always)]
    fn write<R: TowerWord, W: Holds<R>>(&self, words: &mut [W], start: usize) -> usize {
        let middle = self.low.write::<R, W>(words, start);
        self.high.write::<R, W>(words, middle)
    }

    ghost some_law = { T.some_law };
}

impl<V: Vector, T: SlicedPolynomials<V>> SlicedPolynomials<V> for Pair<T> {
    // Karatsuba's rule. The high part of the product of the low halves and the low part of that of the high ones enter both middle parts.
    #[inline(always)]
    fn set_carryless_product(low: &mut Pair<T>, high: &mut Pair<T>, x: &Pair<T>, y: &Pair<T>) {
        let mut x_sum = x.low;
        let mut y_sum = y.low;
        x_sum.add(&x.high);
        y_sum.add(&y.high);
        let mut mixed = *x;
        T::set_carryless_product(&mut mixed.low, &mut mixed.high, &x_sum, &y_sum);
        T::set_carryless_product(&mut low.low, &mut low.high, &x.low, &y.low);
        T::set_carryless_product(&mut high.low, &mut high.high, &x.high, &y.high);
        low.high.add(&high.low);
        mixed.low.add(&low.low);
        mixed.high.add(&high.high);
        high.low.set_sum(&low.high, &mixed.high);
        low.high.add(&mixed.low);
    }

    #[inline(always)]
    fn add_by_tail<M: Tail>(&mut self, x: &Pair<T>, carry: &mut Slices8<V>) {
        self.low.add_by_tail::<M>(&x.low, carry);
        self.high.add_by_tail::<M>(&x.high, carry);
    }
}
