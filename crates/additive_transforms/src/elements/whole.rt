// Whole transforms.
ghost use Rattle.std.specs.Prelude.{◌≡◌, length, map};
ghost use Rattle.additive_transforms.specs.Elements.{FitsField};
ghost use Rattle.additive_transforms.specs.Transform.{AreTheCoefficients, HoldValuesAtPoints, TakesTransform};

use crate::elements::arithmetic::{OfElements, Uncounted};
use crate::elements::halves::run_halves;
use crate::stages_of;
use field_base::traits::TowerLevel;

/// Leaves at each place p the value, at point p, of the polynomial with the coefficients `values` in the basis of the products of
/// the s_j: point p is `z`, and Cantor vector b for each set bit b of p. The length of `values` has to be 2^m, where m is at most
/// 40 and at most the bits of the field. It takes no memory: m stages of 2^(m - 1) butterflies, with one product each.
///
/// Over the field of GHASH `forward_numbers`, on the numbers of the elements, does the same faster.
pub fn forward_elements<F: TowerLevel>(values: &mut [F], z: F)
    requires { FitsField F.width (length values.old) }
    ensures length { length values.new ≡ length values.old }
    ensures values { HoldValuesAtPoints F.width F.product (λ i. F.basis (F.cantor i)) (F.repr z)
        (map F.repr values.old) (map F.repr values.new) }
{
    transform::<OfElements<F>>(&mut (), values, z, false);
}

/// Replaces the values at the points by the coefficients of their polynomial, of which there is one list: with the same `z` it
/// takes back what `forward_elements` did. It requires what `forward_elements` requires, and takes no memory.
pub fn inverse_elements<F: TowerLevel>(values: &mut [F], z: F)
    requires { FitsField F.width (length values.old) }
    ensures length { length values.new ≡ length values.old }
    ensures coefficients { AreTheCoefficients F.width F.product (λ i. F.basis (F.cantor i)) (F.repr z)
        (map F.repr values.old) (map F.repr values.new) }
{
    inverse_by::<OfElements<F>>(&mut (), values, z);
}

/// The transform `inverse_elements` by an arithmetic: with the same `z` it takes back what `transform` did. It requires what `transform`
/// requires, and takes no memory.
pub(crate) fn inverse_by<K: Uncounted>(
    counter: &mut K::Counter,
    values: &mut [K::Value],
    z: K::Twiddle,
)
    requires { FitsField K.width (length values.old) }
    ensures length { length values.new ≡ length values.old }
    ensures coefficients { AreTheCoefficients K.width K.product K.vector (K.number z) (map K.value values.old) (map K.value values.new) }
{
    transform::<K>(counter, values, z, true);
}

/// The transform `forward_elements` by an arithmetic, or, where `inverse` is true, the inverse one: nothing but it computes on the values.
/// The length of `values` has to be 2^m, where m is at most 40 and at most the bits of the arithmetic's field. It takes no memory.
pub(crate) fn transform<K: Uncounted>(
    counter: &mut K::Counter,
    values: &mut [K::Value],
    z: K::Twiddle,
    inverse: bool,
)
    requires { FitsField K.width (length values.old) }
    ensures length { length values.new ≡ length values.old }
    ensures values { TakesTransform inverse K.width K.product K.vector (K.number z) (map K.value values.old) (map K.value values.new) }
{
    run_halves::<K>(counter, values, stages_of(values.len()), z, inverse);
}
