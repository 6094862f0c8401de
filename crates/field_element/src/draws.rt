// Elements drawn at random.
ghost use Rattle.std.specs.Prelude.{◌≡◌, ◌%◌, ◌^◌};

use crate::element::Element;
use field_base::{FieldKernel, Stored};
use rand::distr::SampleStandard;
use rand_core::Rng;

impl<R: Stored + SampleStandard, K: FieldKernel<R>> SampleStandard for Element<R, K> {
    // The low bits of a word that is drawn.
    ghost draws = { λ s x t. (word : R) × R.draws s word t × (R.number x.repr ≡ R.number word % 2 ^ K.width) };

    #[inline]
    fn sample_standard<G: Rng>(rng: &mut G) -> Element<R, K> {
        Element::of_word(R::sample_standard(rng))
    }
}
