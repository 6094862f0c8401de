// Random packed bits, drawn a word at a time.
ghost use Rattle.packed_lanes.specs.Parts.{IsDrawn};

use crate::packed::PackedGf2;
use packed_lanes::Underlier;
use rand::distr::SampleStandard;
use rand_core::Rng;

impl<U: Underlier> SampleStandard for PackedGf2<U> {
    ghost draws = { λ s x t. IsDrawn U.Word.draws U.Word.number U.Word.BITS U.WORD_COUNT (U.number x.bits) s t };

    #[inline]
    fn sample_standard<R: Rng>(rng: &mut R) -> PackedGf2<U> {
        PackedGf2 {
            bits: U::random(rng),
        }
    }
}
