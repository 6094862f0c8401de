// Butterflies of pairs of places of two slices (S. Gao and T. Mateer, Additive fast Fourier transforms over finite fields, 2010).
ghost use Rattle.std.specs.Prelude.{◌≡◌, [], ◌∷◌, ◌++◌, length, map, bit_xor, slice_index};
ghost use Rattle.ghash_slices.specs.Stages.{add_multiple};
ghost use Rattle.additive_transforms.specs.Stages.{TakesBlock};

use field_base::traits::Represented;

/// The forward butterfly of each pair, `lo += s * hi` and then `hi += lo`, or, where `inverse` is true, the inverse one, `hi += lo` and then
/// `lo += s * hi`. Both slices, the halves of a block, have to be of one length.
pub(crate) fn run_pairs<E: Represented>(lo: &mut [E], hi: &mut [E], s: E, inverse: bool)
    requires { length lo.old ≡ length hi.old }
    ensures lower { length lo.new ≡ length lo.old }
    ensures upper { length hi.new ≡ length hi.old }
    ensures values { TakesBlock inverse E.product (E.repr s) (length lo.old) (slice_index (map E.repr lo.old ++ map E.repr hi.old))
        (slice_index (map E.repr lo.new ++ map E.repr hi.new)) }
{
    for place in 0..lo.len() {
        run_pair(&mut lo[place], &mut hi[place], s, inverse);
    }
}

// The butterfly of a pair, a block of two places.
fn run_pair<E: Represented>(lo: &mut E, hi: &mut E, s: E, inverse: bool)
    ensures { TakesBlock inverse E.product (E.repr s) 1 (slice_index (E.repr lo.old ∷ E.repr hi.old ∷ []))
        (slice_index (E.repr lo.new ∷ E.repr hi.new ∷ [])) }
{
    if inverse {
        inverse_pair(lo, hi, s);
    } else {
        forward_pair(lo, hi, s);
    }
}

// The forward butterfly of a pair.
fn forward_pair<E: Represented>(lo: &mut E, hi: &mut E, s: E)
    ensures low { E.repr lo.new ≡ add_multiple E.product (E.repr s) (E.repr lo.old) (E.repr hi.old) }
    ensures high { E.repr hi.new ≡ bit_xor (E.repr hi.old) (E.repr lo.new) }
{
    let lower = *lo + s * *hi;
    *lo = lower;
    *hi = *hi + lower;
}

// The inverse butterfly of a pair.
fn inverse_pair<E: Represented>(lo: &mut E, hi: &mut E, s: E)
    ensures high { E.repr hi.new ≡ bit_xor (E.repr hi.old) (E.repr lo.old) }
    ensures low { E.repr lo.new ≡ add_multiple E.product (E.repr s) (E.repr lo.old) (E.repr hi.new) }
{
    let upper = *hi + *lo;
    *hi = upper;
    *lo = *lo + s * upper;
}
