// One stage of a transform, block by block.
ghost use Rattle.std.specs.Prelude.{◌≡◌, ℕ, ◌+◌, ◌-◌, ◌*◌, ◌/◌, ◌%◌, ◌^◌, ◌<◌, ◌≤◌, cond, length, map, slice_index};
ghost use Rattle.additive_transforms.specs.Elements.{level_shifts, twiddle_basis};
ghost use Rattle.additive_transforms.specs.Stages.{TakesBlock, TakesBlocks, TakesStage, TakesStagesFrom};
ghost use Rattle.additive_transforms.specs.Transform.{HasStages};
ghost use Rattle.ghash_slices.specs.Cantor.{subspace_value};

use crate::elements::arithmetic::StageArithmetic;
use crate::elements::twiddles::block_twiddle;

/// Half the places of a block of a stage, whose pairs are as far apart: 2^stage. The stage has to be below 40.
pub fn half_of(stage: usize) -> usize
    requires { stage < 40 }
    ensures half { result ≡ 2 ^ stage }
    ensures few { result ≤ 2 ^ 39 }
{
    1 << stage
}

/// The first place of block number `block`, of the blocks of `size` places that lie whole among `length` places. There has to be such a
/// block.
pub fn start_of(block: usize, size: usize, length: usize) -> usize
    requires block { block < length / size }
    ensures start { result ≡ block * size }
    ensures inside { result + size ≤ length }
{
    block * size
}

/// The stage that runs when so many are done: they go from the highest down, or, of the inverse transform, from the lowest up.
pub(crate) fn stage_after(done: usize, stages: usize, inverse: bool) -> usize
    requires { done < stages }
    ensures { result ≡ cond inverse done (stages - 1 - done) }
{
    if inverse { done } else { stages - 1 - done }
}

/// The stages from `stage` on of 2^stages values, from the highest down, or, where `inverse` is true, those of the inverse transform from
/// the lowest up. `shift` is the shift of the lowest of them: that of each further one takes a square.
pub(crate) fn stages_from<K: StageArithmetic>(
    counter: &mut K::Counter,
    values: &mut [K::Value],
    stage: usize,
    stages: usize,
    shift: K::Twiddle,
    inverse: bool,
)
    requires some { stage ≤ stages }
    requires stages { HasStages stages (length values.old) }
    requires few { stages ≤ K.width }
    requires room { K.has_room counter.old ((stages - stage) * 2 ^ (stages - 1)) }
    ensures length { length values.new ≡ length values.old }
    ensures stages { (z : ℕ) → K.number shift ≡ subspace_value K.product stage z
        → TakesStagesFrom inverse K.product (level_shifts K.width K.product z) (twiddle_basis K.width K.vector) stages stage
        (map K.value values.old) (map K.value values.new) }
    ensures counted { K.counted counter.old counter.new ((stages - stage) * 2 ^ (stages - 1)) }
{
    if stage == stages {
        return;
    }
    let next = K::sum(K::square(shift), shift);
    if inverse {
        run_stage::<K>(counter, values, stage, shift, true);
        stages_from::<K>(counter, values, stage + 1, stages, next, true);
        return;
    }
    stages_from::<K>(counter, values, stage + 1, stages, next, false);
    run_stage::<K>(counter, values, stage, shift, false);
}

/// A stage of the forward transform, or, where `inverse` is true, of the inverse one: the butterfly in each block of 2^(stage + 1) places,
/// with the block's twiddle.
pub(crate) fn run_stage<K: StageArithmetic>(
    counter: &mut K::Counter,
    values: &mut [K::Value],
    stage: usize,
    shift: K::Twiddle,
    inverse: bool,
)
    requires stage { stage < 40 }
    requires whole { length values.old % 2 ^ (stage + 1) ≡ 0 }
    requires few { length values.old / 2 ^ (stage + 1) ≤ 2 ^ (K.width - 1) }
    requires room { K.has_room counter.old (length values.old / 2) }
    ensures length { length values.new ≡ length values.old }
    ensures stage { TakesStage inverse K.product (K.number shift) (twiddle_basis K.width K.vector) stage
        (length values.old / 2 ^ (stage + 1)) (map K.value values.old) (map K.value values.new) }
    ensures counted { K.counted counter.old counter.new (length values.old / 2) }
{
    run_blocks::<K>(counter, values, half_of(stage), shift, inverse);
}

/// The butterfly, or the inverse one, in each whole block of twice `half` places, with the block's twiddle.
pub(crate) fn run_blocks<K: StageArithmetic>(
    counter: &mut K::Counter,
    values: &mut [K::Value],
    half: usize,
    shift: K::Twiddle,
    inverse: bool,
)
    requires half { 0 < half }
    requires size { 2 * half < 2 ^ 64 }
    requires few { length values.old / (2 * half) ≤ 2 ^ (K.width - 1) }
    requires room { K.has_room counter.old (length values.old / (2 * half) * half) }
    ensures length { length values.new ≡ length values.old }
    ensures blocks { TakesBlocks inverse K.product (K.number shift) (twiddle_basis K.width K.vector) half (length values.old / (2 * half))
        (map K.value values.old) (map K.value values.new) }
    ensures counted { K.counted counter.old counter.new (length values.old / (2 * half) * half) }
{
    let mut twiddle = shift;
    for block in 0..values.len() / (2 * half) {
        let start = start_of(block, 2 * half, values.len());
        twiddle = block_twiddle::<K>(shift, twiddle, block);
        run_block::<K>(
            counter,
            &mut values[start..start + 2 * half],
            half,
            twiddle,
            inverse,
        );
    }
}

// The butterfly of a block of twice `half` places, or the inverse one.
fn run_block<K: StageArithmetic>(
    counter: &mut K::Counter,
    block: &mut [K::Value],
    half: usize,
    twiddle: K::Twiddle,
    inverse: bool,
)
    requires pairs { length block.old ≡ 2 * half }
    requires room { K.has_room counter.old half }
    ensures length { length block.new ≡ length block.old }
    ensures values { TakesBlock inverse K.product (K.number twiddle) half (slice_index (map K.value block.old))
        (slice_index (map K.value block.new)) }
    ensures counted { K.counted counter.old counter.new half }
{
    let (lower, upper) = block.split_at_mut(half);
    K::butterflies(counter, lower, upper, twiddle, inverse);
}
