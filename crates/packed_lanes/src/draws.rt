// Places drawn at random: the lanes of a packing, and the entries of a matrix.
ghost use Rattle.std.specs.Prelude.{◌≡◌, length};
ghost use Rattle.std.specs.Array.{FillsFrom};

use rand::distr::SampleStandard;
use rand_core::Rng;

/// Draws each place of `target` from `rng`, place 0 first: the entries of a matrix row after row. The type of the places says how one is
/// drawn. It takes no memory.
pub fn random_into<T: Copy + SampleStandard, R: Rng>(target: &mut [T], rng: &mut R)
    ensures shape { length target.new ≡ length target.old }
    ensures drawn { FillsFrom (λ before place value after. T.draws before value after) (R.stream rng.old) 0 target.new (R.stream rng.new) }
{
    for place in 0..target.len() {
        target[place] = T::sample_standard(rng);
    }
}
