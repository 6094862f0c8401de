// Three words drawn at random.
ghost use Rattle.word_polynomial.specs.Triple.{DrawsThree};

use crate::triple::Triple;
use rand::distr::SampleStandard;
use rand_core::Rng;

impl SampleStandard for Triple {
    ghost draws = { DrawsThree ⟦<u64 as SampleStandard>⟧.draws };

    #[inline]
    fn sample_standard<G: Rng>(rng: &mut G) -> Triple {
        let c0 = u64::sample_standard(rng);
        let c1 = u64::sample_standard(rng);
        let c2 = u64::sample_standard(rng);
        Triple { c0, c1, c2 }
    }
}
