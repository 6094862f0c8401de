// Transforms of rows that lie one behind the other: each column takes the whole transform, all columns at once. What a stage does to a
// block of 2^(stage + 1) places of a column, it does to as many rows: their halves are slices, and none is short where a row is not.
ghost use Rattle.std.specs.Prelude.{◌≡◌, ◌+◌, ◌-◌, ◌^◌, ◌<◌, ◌≤◌, length, map, slice_index};
ghost use Rattle.additive_transforms.specs.Columns.{FitsColumns, HasRows, InEachColumn};
ghost use Rattle.additive_transforms.specs.Elements.{level_shifts, twiddle_basis};
ghost use Rattle.additive_transforms.specs.Stages.{TakesStage};
ghost use Rattle.additive_transforms.specs.Transform.{AreTheCoefficients, TakesTransform};

use crate::elements::arithmetic::Uncounted;
use crate::stages::{half_of, run_blocks, stage_after};
use crate::stages_of;

/// The transform `inverse_by` of each column: with the same `z` it takes back what `run_columns` did. It requires what `run_columns`
/// requires, and takes no memory.
pub(crate) fn inverse_columns_by<K: Uncounted>(
    counter: &mut K::Counter,
    values: &mut [K::Value],
    columns: usize,
    z: K::Twiddle,
)
    requires { FitsColumns K.width columns (length values.old) }
    ensures coefficients { InEachColumn columns (AreTheCoefficients K.width K.product K.vector (K.number z)) (map K.value values.old)
        (map K.value values.new) }
    ensures length { length values.new ≡ length values.old }
{
    run_columns::<K>(counter, values, columns, z, true);
}

/// The transform `transform` of each column of rows of `columns` values that lie one behind the other: of value c of each row, for each c
/// below `columns`. There has to be a column, and 2^m rows, where m is at most 40 and at most the bits of the arithmetic's field. It takes
/// no memory, and goes through all values once a stage: where they are more than a cache holds, call it for a few columns at a time.
pub(crate) fn run_columns<K: Uncounted>(
    counter: &mut K::Counter,
    values: &mut [K::Value],
    columns: usize,
    z: K::Twiddle,
    inverse: bool,
)
    requires { FitsColumns K.width columns (length values.old) }
    ensures values { InEachColumn columns (TakesTransform inverse K.width K.product K.vector (K.number z)) (map K.value values.old)
        (map K.value values.new) }
    ensures length { length values.new ≡ length values.old }
{
    let stages = stages_of(values.len() / columns);
    for done in 0..stages {
        let stage = stage_after(done, stages, inverse);
        run_column_stage::<K>(counter, values, columns, stages, stage, z, inverse);
    }
}

// One of the stages, of each column.
fn run_column_stage<K: Uncounted>(
    counter: &mut K::Counter,
    values: &mut [K::Value],
    columns: usize,
    stages: usize,
    stage: usize,
    z: K::Twiddle,
    inverse: bool,
)
    requires rows { HasRows stages columns (length values.old) }
    requires few { stages ≤ K.width }
    requires stage { stage < stages }
    requires size { length values.old < 2 ^ 64 }
    ensures length { length values.new ≡ length values.old }
    ensures stage { InEachColumn columns (TakesStage inverse K.product (slice_index (level_shifts K.width K.product (K.number z)) stage)
        (twiddle_basis K.width K.vector) stage (2 ^ (stages - (stage + 1)))) (map K.value values.old) (map K.value values.new) }
{
    let half = half_of(stage) * columns;
    run_blocks::<K>(counter, values, half, K::shift(z, stage), inverse);
}
