// Butterflies, low stages and whole transforms of words of 128 bits, in vectors of a width, and whole transforms over a level of the tower.
ghost use Rattle.std.specs.Prelude.{◌≡◌, ◌↔◌, ◌+◌, ◌-◌, ◌^◌, ◌≤◌, ℕ, IsTrue};
ghost use Rattle.additive_transforms.specs.Elements.{FitsField};
ghost use Rattle.additive_transforms.specs.Transform.{HasStages};
ghost use Rattle.c_calls.specs.Fields.{wide_number};
ghost use Rattle.c_calls.specs.Transforms.{ButterfliesForward, ButterfliesInverse, InvertsLevelTransform, InvertsTransform};
ghost use Rattle.c_calls.specs.Transforms.{RunsLowStages, Transforms, TransformsLevel};

use crate::numbers::{four_numbers, numbers_of};
use crate::{Wide, status};
use additive_transforms::{WordBytes, forward_level, inverse_level, stages_of, transform_ghash};
use field_base::{FieldKernel, Reads, Unsigned};
use ghash_slices::{Width, add_each, add_multiples, run_low_stages};
use word_tower::{Level, Tower};

/// At each place `low += scalar * high`, and then `high += low`.
pub fn butterfly_forward<V: Width>(low: &mut [Wide], high: &mut [Wide], scalar: Wide) -> u32
    ensures { ButterfliesForward (wide_number scalar) low.old high.old low.new high.new result }
{
    if low.len() != high.len() {
        return status::LENGTH;
    }
    add_multiples::<V, Wide>(low, high, scalar.stored());
    add_each(high, low);
    status::OK
}

/// At each place `high += low`, and then `low += scalar * high`.
pub fn butterfly_inverse<V: Width>(low: &mut [Wide], high: &mut [Wide], scalar: Wide) -> u32
    ensures { ButterfliesInverse (wide_number scalar) low.old high.old low.new high.new result }
{
    if low.len() != high.len() {
        return status::LENGTH;
    }
    add_each(high, low);
    add_multiples::<V, Wide>(low, high, scalar.stored());
    status::OK
}

/// The four lowest stages of a transform over runs of sixteen values, the first of which is run `first_run`: with two products at once,
/// or four.
pub fn low_stages<V: Width>(
    values: &mut [Wide],
    shifts: &[Wide],
    basis: &[Wide],
    first_run: u64,
) -> u32
    ensures { RunsLowStages shifts.now basis.now first_run values.old values.new result }
{
    if shifts.len() != 4 || basis.len() < 3 || basis.len() > 128 || values.len() % 16 != 0 {
        return status::LENGTH;
    }
    if values.len() > 0 && !are_numbered(first_run, values.len() / 16, basis.len()) {
        return status::LENGTH;
    }
    let four = four_numbers(shifts);
    let numbers = numbers_of::<128>(basis);
    let elements = &numbers[..basis.len()];
    run_low_stages::<V, Wide>(&four, elements, values, u128::from(first_run));
    status::OK
}

/// Replaces the coefficients by the values at the points from `shift` on.
pub fn transform<V: Width>(values: &mut [Wide], shift: Wide) -> u32
    ensures { Transforms (wide_number shift) values.old values.new result }
{
    transform_whole::<V>(values, shift, false)
}

/// Replaces the values at those points by the coefficients.
pub fn inverse_transform<V: Width>(values: &mut [Wide], shift: Wide) -> u32
    ensures { InvertsTransform (wide_number shift) values.old values.new result }
{
    transform_whole::<V>(values, shift, true)
}

// The transform, or the inverse one.
fn transform_whole<V: Width>(values: &mut [Wide], shift: Wide, is_inverse: bool) -> u32
    ensures forward { ¬ IsTrue is_inverse → Transforms (wide_number shift) values.old values.new result }
    ensures inverse { IsTrue is_inverse → InvertsTransform (wide_number shift) values.old values.new result }
{
    if !has_stages(values.len()) {
        return status::LENGTH;
    }
    transform_ghash::<V, Wide>(values, shift.stored(), is_inverse);
    status::OK
}

/// Replaces the coefficients by the values at the points from `shift` on, in the level `L` of the tower.
pub fn transform_level<R: Unsigned, W: WordBytes<R>, L: Level<R>>(values: &mut [W], shift: W) -> u32
    ensures { TransformsLevel W.Holds.number L.LEVEL (W.Holds.number shift) values.old values.new result }
{
    if !fits_level::<R, L>(values.len()) {
        return status::LENGTH;
    }
    forward_level::<R, L, W>(values, shift.stored());
    status::OK
}

/// Replaces the values at those points by the coefficients.
pub fn inverse_transform_level<R: Unsigned, W: WordBytes<R>, L: Level<R>>(
    values: &mut [W],
    shift: W,
) -> u32
    ensures { InvertsLevelTransform W.Holds.number L.LEVEL (W.Holds.number shift) values.old values.new result }
{
    if !fits_level::<R, L>(values.len()) {
        return status::LENGTH;
    }
    inverse_level::<R, L, W>(values, shift.stored());
    status::OK
}

// Whether so many values are 2^m, where m is at most 40 and at most the bits of the level.
fn fits_level<R: Unsigned, L: Level<R>>(count: usize) -> bool
    ensures { IsTrue result ↔ FitsField (2 ^ L.LEVEL) count }
{
    if !has_stages(count) {
        return false;
    }
    stages_of(count) <= <Tower<L> as FieldKernel<R>>::bits()
}

// Whether so many values are 2^m, m from 0 to 40.
fn has_stages(count: usize) -> bool
    ensures { IsTrue result ↔ ((m : ℕ) × HasStages m count) }
{
    for stages in 0..41usize {
        if count == 1 << stages {
            return true;
        }
    }
    false
}

// Whether a basis of so many elements numbers the runs from the first on.
fn are_numbered(first_run: u64, runs: usize, elements: usize) -> bool
    requires { 3 ≤ elements }
    ensures { IsTrue result ↔ (first_run + runs ≤ 2 ^ (elements - 3)) }
{
    let bits = elements - 3;
    if bits > 64 {
        return true;
    }
    u128::from(first_run) + runs as u128 <= 1 << bits
}
