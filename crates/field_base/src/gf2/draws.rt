// Bits drawn at random.
ghost use Rattle.std.specs.Prelude.{◌≡◌, ◌%◌, ℕ};

use crate::gf2::Gf2;
use rand::distr::SampleStandard;
use rand_core::Rng;

impl SampleStandard for Gf2 {
    // The lowest bit of a byte that is drawn.
    ghost draws = { λ s x t. (byte : ℕ) × ⟦<u8 as SampleStandard>⟧.draws s byte t × (x.repr ≡ byte % 2) };

    #[inline]
    fn sample_standard<G: Rng>(rng: &mut G) -> Gf2 {
        Gf2 {
            repr: u8::sample_standard(rng) % 2,
        }
    }
}
