// Transforms depth first: a slice that is too large for the first cache takes its highest stage alone, and then each of its halves takes
// all the others before the next half does.
ghost use Rattle.std.specs.Prelude.{◌≡◌, ◌+◌, ◌-◌, ◌/◌, ◌^◌, ◌<◌, ◌≤◌, bit_xor, drop, length, map, slice_index, take};
ghost use Rattle.additive_transforms.specs.Elements.{level_shifts, twiddle_basis};
ghost use Rattle.additive_transforms.specs.Stages.{TakesStage};
ghost use Rattle.additive_transforms.specs.Transform.{HasStages, TakesTransform};

use crate::elements::arithmetic::Uncounted;
use crate::stages::{half_of, run_stage};

/// The transform of 2 to the power of `stages` values, or, where `inverse` is true, the inverse one: at once, or, where the arithmetic does
/// not do that, the highest stage on the whole slice and the others on each half.
#[cycle(halves)]
pub(crate) fn run_halves<K: Uncounted>(
    counter: &mut K::Counter,
    values: &mut [K::Value],
    stages: usize,
    z: K::Twiddle,
    inverse: bool,
)
    requires stages { HasStages stages (length values.old) }
    requires few { stages ≤ K.width }
    ensures length { length values.new ≡ length values.old }
    ensures values { TakesTransform inverse K.width K.product K.vector (K.number z) (map K.value values.old) (map K.value values.new) }
{
    if K::is_at_once(stages) {
        K::transform_at_once(counter, values, stages, z, inverse);
        return;
    }
    let highest = stages - 1;
    if inverse {
        both_halves::<K>(counter, values, highest, z, true);
        stage_of::<K>(counter, values, stages, highest, z, true);
        return;
    }
    stage_of::<K>(counter, values, stages, highest, z, false);
    both_halves::<K>(counter, values, highest, z, false);
}

// Both halves of the one block of the highest stage, which are transforms of their own: the lower one from the same shift on, and the upper
// one from the highest vector on.
#[cycle(halves)]
fn both_halves<K: Uncounted>(
    counter: &mut K::Counter,
    values: &mut [K::Value],
    highest: usize,
    z: K::Twiddle,
    inverse: bool,
)
    requires stages { HasStages (highest + 1) (length values.old) }
    requires few { highest < K.width }
    ensures length { length values.new ≡ length values.old }
    ensures lower { TakesTransform inverse K.width K.product K.vector (K.number z) (map K.value (take (2 ^ highest) values.old))
        (map K.value (take (2 ^ highest) values.new)) }
    ensures upper { TakesTransform inverse K.width K.product K.vector (bit_xor (K.number z) (K.vector highest))
        (map K.value (drop (2 ^ highest) values.old)) (map K.value (drop (2 ^ highest) values.new)) }
{
    let next = K::sum(z, K::cantor_vector(highest));
    let (lower, upper) = values.split_at_mut(half_of(highest));
    run_halves::<K>(counter, lower, highest, z, inverse);
    run_halves::<K>(counter, upper, highest, next, inverse);
}

// A stage, with its shift.
fn stage_of<K: Uncounted>(
    counter: &mut K::Counter,
    values: &mut [K::Value],
    stages: usize,
    stage: usize,
    z: K::Twiddle,
    inverse: bool,
)
    requires stages { HasStages stages (length values.old) }
    requires few { stages ≤ K.width }
    requires stage { stage < stages }
    ensures length { length values.new ≡ length values.old }
    ensures stage { TakesStage inverse K.product (slice_index (level_shifts K.width K.product (K.number z)) stage)
        (twiddle_basis K.width K.vector) stage (length values.old / 2 ^ (stage + 1)) (map K.value values.old) (map K.value values.new) }
{
    run_stage::<K>(counter, values, stage, K::shift(z, stage), inverse);
}
