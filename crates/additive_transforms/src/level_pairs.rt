// Butterflies of pairs of words of two slices (S. Gao and T. Mateer, Additive fast Fourier transforms over finite fields, 2010).
ghost use Rattle.std.specs.Prelude.{◌≡◌, [], ◌∷◌, ℕ, ◌≤◌, length, slice_index};
ghost use Rattle.field_base.specs.Tower.{tower_mul};
ghost use Rattle.additive_transforms.specs.Stages.{TakesBlock};
ghost use Rattle.additive_transforms.specs.Words.{TakesWordPairs, TakesWords, level_element};

use crate::products::Multiplies;
use field_base::{Holds, Unsigned};

/// The forward butterfly of each pair of two slices, or, as the scalar says, the inverse one. Both slices, the halves of a block, have
/// to be of one length.
pub(crate) fn run_all<R: Unsigned, W: Holds<R>, S: Multiplies<R>>(
    lo: &mut [W],
    hi: &mut [W],
    scalar: &S,
)
    requires { length lo.old ≡ length hi.old }
    ensures lower { length lo.new ≡ length lo.old }
    ensures upper { length hi.new ≡ length hi.old }
    ensures values { (s : ℕ) → S.is_scalar scalar.now s → TakesWords W.number S.level (S.inverse scalar.now) s lo.old hi.old lo.new hi.new }
{
    run_pairs(lo, hi, 0, scalar);
}

/// The forward butterfly of each pair from place `first` on, `lo += s * hi` and then `hi += lo`, or, as the scalar says, the inverse one,
/// `hi += lo` and then `lo += s * hi`. Both slices, the halves of a block, have to be of one length.
pub(crate) fn run_pairs<R: Unsigned, W: Holds<R>, S: Multiplies<R>>(
    lo: &mut [W],
    hi: &mut [W],
    first: usize,
    scalar: &S,
)
    requires same { length lo.old ≡ length hi.old }
    requires inside { first ≤ length lo.old }
    ensures lower { length lo.new ≡ length lo.old }
    ensures upper { length hi.new ≡ length hi.old }
    ensures values { (s : ℕ) → S.is_scalar scalar.now s
        → TakesWordPairs W.number S.level (S.inverse scalar.now) s first (length lo.old) lo.old hi.old lo.new hi.new }
{
    for place in first..lo.len() {
        run_pair(&mut lo[place], &mut hi[place], scalar);
    }
}

// The butterfly of a pair, a block of two places.
#[inline(always)]
fn run_pair<R: Unsigned, W: Holds<R>, S: Multiplies<R>>(lo: &mut W, hi: &mut W, scalar: &S)
    ensures { (s : ℕ) → S.is_scalar scalar.now s → let element = level_element W.number S.level in
        TakesBlock (S.inverse scalar.now) (tower_mul S.level) s 1 (slice_index (element lo.old ∷ element hi.old ∷ []))
        (slice_index (element lo.new ∷ element hi.new ∷ [])) }
{
    let (low, high) = scalar.pair(lo.stored(), hi.stored());
    *lo = W::of_stored(low);
    *hi = W::of_stored(high);
}
