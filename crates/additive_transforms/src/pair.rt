// Elements of the next level, by the planes of their halves.
ghost use Rattle.std.specs.Prelude.{◌≡◌, ◌^◌, ℕ, suc};
ghost use Rattle.additive_transforms.specs.Halves.{are_of_halves, lane_of_halves};
ghost use Rattle.additive_transforms.specs.lemmas.Pair.{lane_fits};

use crate::multiples::HalfMultiples;
use crate::planes::Planes;

/// The elements `low + high X`.
#[derive(Clone, Copy)]
pub struct Pair<P> {
    /// The planes of the low halves.
    pub low: P,
    /// The planes of the high halves.
    pub high: P,
}

impl<M, P: Planes<M>> Planes<HalfMultiples<M>> for Pair<P> {
    ghost depth = { suc P.depth };

    ghost lanes = { P.lanes };

    ghost lane = { lane_of_halves P.depth P.lane };

    ghost are_multiples = { are_of_halves P.depth P.are_multiples };

    #[inline(always)]
    fn lane_count() -> usize {
        P::lane_count()
    }

    #[inline(always)]
    fn add(&mut self, other: &Pair<P>) {
        self.low.add(&other.low);
        self.high.add(&other.high);
    }

    // (s0 + s1 X) (a0 + a1 X), where q = s1 (a0 + a1), is q + (s0 + s1) a0 and q + (s0 + s1 + t s1) a1.
    #[inline(always)]
    fn set_product(&mut self, multiples: &HalfMultiples<M>, factor: &Pair<P>) {
        let mut sum = factor.low;
        sum.add(&factor.high);
        let mut both = sum;
        both.set_product(&multiples.both, &sum);
        self.low.set_product(&multiples.low, &factor.low);
        self.low.add(&both);
        self.high.set_product(&multiples.high, &factor.high);
        self.high.add(&both);
    }

    ghost fits_law = { lane_fits P.depth P.lane P.fits_law };
}
