// Whole transforms.
ghost use Rattle.std.specs.Prelude.{◌≡◌, ℕ, ◌+◌, ◌-◌, ◌*◌, ◌^◌, ◌<◌, ◌≤◌, IfErr, IfOk, length, map, slice_index, take};
ghost use Rattle.additive_transforms.specs.Transform.{AreOnlyCoefficients, CountsPairs, FitsTransform, HasStages};
ghost use Rattle.additive_transforms.specs.Transform.{HoldPolynomialValues, TakesTransform};
ghost use Rattle.ghash_slices.specs.LowStages.{ghash_cantor_vector, ghash_product};
ghost use Rattle.ghash_slices.specs.Twiddles.{basis_of, shifts_of};
ghost use Rattle.additive_transforms.specs.Elements.{level_shifts, twiddle_basis};
ghost use Rattle.additive_transforms.specs.Stages.{AreLeft};
ghost use Rattle.additive_transforms.specs.Words.{low_word};

use crate::elements::arithmetic::StageArithmetic;
use crate::kernel::{Kernel, OfKernel, WordKernel, run_low_words};
use crate::stages::stages_from;
use crate::twiddles::Twiddles;
use field_base::Holds;
use ghash_slices::{LOW_STAGES, LowStageTwiddles, Width};
use std::alloc::{AllocError, Allocator};
use word_tables::to_tower_128;

/// Leaves at each place p the value, at point p, of the polynomial with the coefficients `values` in the basis of the products of
/// the s_j: point p is `z`, and Cantor vector b for each set bit b of p. It goes by any kernel: nothing but the kernel computes on its
/// elements. The length of `values` has to be 2^m for an m from 0 to 40, and the kernel's count and the m * 2^(m - 1) pairs of places
/// together have to fit 64 bits; the count rises by those pairs. Where `alloc` refuses the twiddles, it fails, and leaves `values` and the
/// kernel untouched; with fewer than 16 values it takes no memory, and does not fail.
pub fn forward_with<K: Kernel, A: Allocator>(
    alloc: A,
    kernel: &mut K,
    values: &mut [K::Elem],
    z: u128,
) -> Result<(), AllocError>
    requires { FitsTransform (length values.old) (K.count kernel.old) }
    ensures length { length values.new ≡ length values.old }
    ensures values { IfOk result (λ _. HoldPolynomialValues z (map K.value values.old) (map K.value values.new)) }
    ensures count { IfOk result (λ _. CountsPairs (length values.old) (K.count kernel.old) (K.count kernel.new)) }
    ensures refused { IfErr result (λ _. (values.new ≡ values.old) × (kernel.new ≡ kernel.old)) }
    ensures large { IfErr result (λ _. 16 ≤ length values.old) }
{
    let stages = stages_of(values.len());
    if stages < LOW_STAGES {
        every_stage(kernel, values, stages, z, false);
        return Ok(());
    }
    let twiddles = Twiddles::new(z);
    let low = LowStageTwiddles::new(alloc, &twiddles.shifts, &twiddles.basis[..stages - 1])?;
    forward_stages(kernel, values, stages, &twiddles, &low);
    Ok(())
}

/// The transform `forward_with` of words that hold numbers, where they lie, without a count. The length of `words` has to be 2^m for an m
/// from 0 to 40. It takes no memory.
pub(crate) fn forward_words<V: Width, W: Holds<u128>>(words: &mut [W], z: u128)
    requires { (m : ℕ) × HasStages m (length words.old) }
    ensures length { length words.new ≡ length words.old }
    ensures values { HoldPolynomialValues z (map W.number words.old) (map W.number words.new) }
{
    W::numbers_fit(words);
    forward_low_words::<V, W>(words, z);
    W::numbers_fit(words);
}

// `forward_words`, with results stated modulo 2^128.
fn forward_low_words<V: Width, W: Holds<u128>>(words: &mut [W], z: u128)
    requires { (m : ℕ) × HasStages m (length words.old) }
    ensures length { length words.new ≡ length words.old }
    ensures values { HoldPolynomialValues z (map (low_word W.number) words.old) (map (low_word W.number) words.new) }
{
    let stages = stages_of(words.len());
    let mut kernel = WordKernel::<V, W>::new();
    if stages < LOW_STAGES {
        every_stage(&mut kernel, words, stages, z, false);
        return;
    }
    let twiddles = Twiddles::new(z);
    upper_stages(&mut kernel, words, stages, twiddles.z);
    let basis = &twiddles.basis[..stages - 1];
    run_low_words::<V, W>(&twiddles.shifts, basis, words, 0);
}

/// The transform `inverse_with` of words that hold numbers, where they lie, without a count: it takes back what `forward_words` did with the
/// same `z`. The length of `words` has to be 2^m for an m from 0 to 40. It takes no memory.
pub(crate) fn inverse_words<V: Width, W: Holds<u128>>(words: &mut [W], z: u128)
    requires { (m : ℕ) × HasStages m (length words.old) }
    ensures length { length words.new ≡ length words.old }
    ensures coefficients { AreOnlyCoefficients z (map W.number words.old) (map W.number words.new) }
{
    W::numbers_fit(words);
    inverse_with(&mut WordKernel::<V, W>::new(), words, z);
    W::numbers_fit(words);
}

/// Replaces the values at the points by the coefficients of their polynomial, of which there is one list: with the same `z` it takes back
/// what `forward_with` did. Elements are touched through the kernel alone. Same preconditions as `forward_with`; it allocates nothing. The
/// kernel's count rises by m * 2^(m - 1), the number of pairs.
pub fn inverse_with<K: Kernel>(kernel: &mut K, values: &mut [K::Elem], z: u128)
    requires { FitsTransform (length values.old) (K.count kernel.old) }
    ensures length { length values.new ≡ length values.old }
    ensures coefficients { AreOnlyCoefficients z (map K.value values.old) (map K.value values.new) }
    ensures count { CountsPairs (length values.old) (K.count kernel.old) (K.count kernel.new) }
{
    every_stage(kernel, values, stages_of(values.len()), z, true);
}

/// The stages of a transform of so many values: the m for which there are 2^m. There has to be one, from 0 to 40.
pub fn stages_of(count: usize) -> usize
    requires { (m : ℕ) × HasStages m count }
    ensures stages { HasStages result count }
    ensures only { (m : ℕ) → count ≡ 2 ^ m → m ≡ result }
    ensures large { 4 ≤ result → 16 ≤ count }
{
    for stages in 0..40 {
        if count == 1 << stages {
            return stages;
        }
    }
    40
}

// All the stages of a transform by butterflies: from the highest down, or, where `inverse` is true, those of the inverse one from the
// lowest up.
pub(crate) fn every_stage<K: Kernel>(
    kernel: &mut K,
    values: &mut [K::Elem],
    stages: usize,
    z: u128,
    inverse: bool,
)
    requires stages { HasStages stages (length values.old) }
    requires room { K.count kernel.old + stages * 2 ^ (stages - 1) < 2 ^ 64 }
    ensures length { length values.new ≡ length values.old }
    ensures values { TakesTransform inverse 128 ghash_product ghash_cantor_vector z (map K.value values.old) (map K.value values.new) }
    ensures count { K.count kernel.new ≡ K.count kernel.old + stages * 2 ^ (stages - 1) }
{
    stages_from::<OfKernel<K>>(kernel, values, 0, stages, to_tower_128(z), inverse);
}

// The stages of a forward transform that has four or more, from the highest down: those from the fourth on by butterflies, and the
// lowest in runs.
pub(crate) fn forward_stages<K: Kernel, A: Allocator>(
    kernel: &mut K,
    values: &mut [K::Elem],
    stages: usize,
    twiddles: &Twiddles,
    low: &LowStageTwiddles<A>,
)
    requires enough { 4 ≤ stages }
    requires stages { HasStages stages (length values.old) }
    requires room { K.count kernel.old + stages * 2 ^ (stages - 1) < 2 ^ 64 }
    requires shifts { shifts_of low.now ≡ take 4 twiddles.now.shifts }
    requires basis { basis_of low.now ≡ take (stages - 1) twiddles.now.basis }
    ensures length { length values.new ≡ length values.old }
    ensures values { HoldPolynomialValues twiddles.now.z (map K.value values.old) (map K.value values.new) }
    ensures count { K.count kernel.new ≡ K.count kernel.old + stages * 2 ^ (stages - 1) }
{
    upper_stages(kernel, values, stages, twiddles.z);
    kernel.low_forward(low, values, 0);
}

// The stages of a forward transform by butterflies, but for the four lowest.
fn upper_stages<K: Kernel>(kernel: &mut K, values: &mut [K::Elem], stages: usize, z: u128)
    requires enough { 4 ≤ stages }
    requires stages { HasStages stages (length values.old) }
    requires room { K.count kernel.old + stages * 2 ^ (stages - 1) < 2 ^ 64 }
    ensures length { length values.new ≡ length values.old }
    ensures left { AreLeft ghash_product (level_shifts 128 ghash_product z) (twiddle_basis 128 ghash_cantor_vector) stages 4
        (map K.value values.old) (map K.value values.new) }
    ensures count { K.count kernel.new ≡ K.count kernel.old + (stages - 4) * 2 ^ (stages - 1) }
{
    let lowest = OfKernel::<K>::shift(to_tower_128(z), LOW_STAGES);
    stages_from::<OfKernel<K>>(kernel, values, LOW_STAGES, stages, lowest, false);
}
