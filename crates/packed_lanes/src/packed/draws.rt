// Packings drawn at random.
ghost use Rattle.std.specs.Array.{FillsFrom};

use crate::draws::random_into;
use crate::packed::{Packed, WiderField};
use rand::distr::SampleStandard;
use rand_core::Rng;

impl<F: WiderField + SampleStandard, const N: usize> SampleStandard for Packed<F, N> {
    // Each lane is drawn, lane 0 first.
    ghost draws = { λ s x t. FillsFrom (λ before i lane after. F.draws before lane after) s 0 x.lanes t };

    fn sample_standard<R: Rng>(rng: &mut R) -> Packed<F, N> {
        let mut lanes = [F::ZERO; N];
        random_into(lanes.as_mut_slice(), rng);
        Packed { lanes }
    }
}
