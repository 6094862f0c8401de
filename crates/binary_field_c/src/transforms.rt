// Calls that transform values in the field of GHASH, and in levels of the tower.
// Written by scripts/make_c_exports.py; do not edit.
ghost use Rattle.c_calls.specs.Transforms.{ButterfliesForward, ButterfliesInverse, InvertsLevelTransform, InvertsTransform};
ghost use Rattle.c_calls.specs.Transforms.{RunsLowStages, Transforms, TransformsLevel};
ghost use Rattle.c_calls.specs.Fields.{wide_number};
ghost use Rattle.many_words.specs.Fields.{itself};

use c_calls::{Bits16, Bits32, Bits64, Bits128, Wide};
use std::simd::prelude::*;

/// low += scalar * high, and then high += low, at each place.
#[unsafe(no_mangle)]
pub extern "C" fn bf_g128_butterfly_forward(
    low: &mut [Wide],
    high: &mut [Wide],
    scalar: &Wide,
) -> u32
    ensures { ButterfliesForward (wide_number scalar.now) low.old high.old low.new high.new result }
{
    c_calls::butterfly_forward::<u64x2>(low, high, *scalar)
}

/// high += low, and then low += scalar * high, at each place.
#[unsafe(no_mangle)]
pub extern "C" fn bf_g128_butterfly_inverse(
    low: &mut [Wide],
    high: &mut [Wide],
    scalar: &Wide,
) -> u32
    ensures { ButterfliesInverse (wide_number scalar.now) low.old high.old low.new high.new result }
{
    c_calls::butterfly_inverse::<u64x2>(low, high, *scalar)
}

/// The four lowest stages of an additive transform over runs of sixteen values, the first of which is run first_run; four shifts, and a
/// basis of 3 to 128 elements, 2 to the power of three less than which is at least the number behind the last run.
#[unsafe(no_mangle)]
pub extern "C" fn bf_g128_low_stages(
    values: &mut [Wide],
    shifts: &[Wide],
    basis: &[Wide],
    first_run: u64,
) -> u32
    ensures { RunsLowStages shifts.now basis.now first_run values.old values.new result }
{
    c_calls::low_stages::<u64x2>(values, shifts, basis, first_run)
}

/// The value at each of 2^m points, m from 0 to 40, of the polynomial with these coefficients in the basis of subspace polynomials.
#[unsafe(no_mangle)]
pub extern "C" fn bf_g128_transform(values: &mut [Wide], shift: &Wide) -> u32
    ensures { Transforms (wide_number shift.now) values.old values.new result }
{
    c_calls::transform::<u64x2>(values, *shift)
}

/// The coefficients that g128_transform takes to these values.
#[unsafe(no_mangle)]
pub extern "C" fn bf_g128_inverse_transform(values: &mut [Wide], shift: &Wide) -> u32
    ensures { InvertsTransform (wide_number shift.now) values.old values.new result }
{
    c_calls::inverse_transform::<u64x2>(values, *shift)
}

/// The same as g128_transform, over t16; it is fastest where the shift is 0 or below 65536.
#[unsafe(no_mangle)]
pub extern "C" fn bf_t16_transform(values: &mut [u16], shift: u16) -> u32
    ensures { TransformsLevel itself 4 shift values.old values.new result }
{
    c_calls::transform_level::<u16, u16, Bits16>(values, shift)
}

/// The coefficients that t16_transform takes to these values.
#[unsafe(no_mangle)]
pub extern "C" fn bf_t16_inverse_transform(values: &mut [u16], shift: u16) -> u32
    ensures { InvertsLevelTransform itself 4 shift values.old values.new result }
{
    c_calls::inverse_transform_level::<u16, u16, Bits16>(values, shift)
}

/// The same as g128_transform, over t32; it is fastest where the shift is 0 or below 65536.
#[unsafe(no_mangle)]
pub extern "C" fn bf_t32_transform(values: &mut [u32], shift: u32) -> u32
    ensures { TransformsLevel itself 5 shift values.old values.new result }
{
    c_calls::transform_level::<u32, u32, Bits32>(values, shift)
}

/// The coefficients that t32_transform takes to these values.
#[unsafe(no_mangle)]
pub extern "C" fn bf_t32_inverse_transform(values: &mut [u32], shift: u32) -> u32
    ensures { InvertsLevelTransform itself 5 shift values.old values.new result }
{
    c_calls::inverse_transform_level::<u32, u32, Bits32>(values, shift)
}

/// The same as g128_transform, over t64; it is fastest where the shift is 0 or below 65536.
#[unsafe(no_mangle)]
pub extern "C" fn bf_t64_transform(values: &mut [u64], shift: u64) -> u32
    ensures { TransformsLevel itself 6 shift values.old values.new result }
{
    c_calls::transform_level::<u64, u64, Bits64>(values, shift)
}

/// The coefficients that t64_transform takes to these values.
#[unsafe(no_mangle)]
pub extern "C" fn bf_t64_inverse_transform(values: &mut [u64], shift: u64) -> u32
    ensures { InvertsLevelTransform itself 6 shift values.old values.new result }
{
    c_calls::inverse_transform_level::<u64, u64, Bits64>(values, shift)
}

/// The same as g128_transform, over t128; it is fastest where the shift is 0 or below 65536.
#[unsafe(no_mangle)]
pub extern "C" fn bf_t128_transform(values: &mut [Wide], shift: &Wide) -> u32
    ensures { TransformsLevel wide_number 7 (wide_number shift.now) values.old values.new result }
{
    c_calls::transform_level::<u128, Wide, Bits128>(values, *shift)
}

/// The coefficients that t128_transform takes to these values.
#[unsafe(no_mangle)]
pub extern "C" fn bf_t128_inverse_transform(values: &mut [Wide], shift: &Wide) -> u32
    ensures { InvertsLevelTransform wide_number 7 (wide_number shift.now) values.old values.new result }
{
    c_calls::inverse_transform_level::<u128, Wide, Bits128>(values, *shift)
}
