// The four lowest stages of an additive transform, fused over runs of sixteen places.
ghost use Rattle.std.specs.Prelude.{◌≡◌, ◌≢◌, ℕ, ◌+◌, ◌-◌, ◌*◌, ◌%◌, ◌/◌, ◌^◌, ◌<◌, ◌≤◌, [], length, map, take, slice_index, bit_xor, IfOk};
ghost use Rattle.field_base.specs.LinearMaps.{linear_image};
ghost use Rattle.ghash_slices.specs.LowStages.{ghash_product, HoldSums, HoldValuesAtCantorPoints, values_from};
ghost use Rattle.ghash_slices.specs.Stages.{stage};
ghost use Rattle.ghash_slices.specs.Runs.{AreLowSums, AreWithImages, HoldsRunStage, HoldsRunSums, run_factor, with_pair};

use crate::width::Width;
use crate::words::{number_at, put_number};
use field_base::Holds;
use std::alloc::{AllocError, Allocator};
use std::simd::prelude::*;
use word_tables::sum_of_images;

/// The stages that `LowStageTwiddles::forward` runs.
pub const LOW_STAGES: usize = 4;

/// The twiddles of the four lowest stages of an additive transform: a shift for each stage, and a basis. The twiddle of stage
/// j at place p is shift j, and element t of the basis for each set bit t of p >> (j + 1).
#[derive(Drop)]
pub struct LowStageTwiddles<A: Allocator> {
    shifts: [u128; 4],
    basis: Vec<u128, A>,
    ghost basis_fits: { 3 ≤ length basis.items },
}

impl<A: Allocator> LowStageTwiddles<A> {
    ghost use Rattle.ghash_slices.specs.Twiddles.{basis_of, shifts_of};

    /// The twiddles with the first four of `shifts`, and with a copy of `basis` in a vector from `alloc`. There have to be at
    /// least four shifts, and at least three elements of the basis. It fails only where the allocator refuses.
    pub fn new(alloc: A, shifts: &[u128], basis: &[u128]) -> Result<LowStageTwiddles<A>, AllocError>
        requires shifts { 4 ≤ length shifts.now }
        requires basis { 3 ≤ length basis.now }
        ensures { IfOk result (λ twiddles. (shifts_of twiddles ≡ take 4 shifts.now) × (basis_of twiddles ≡ basis.now)) }
    {
        let basis = Vec::from_slice(alloc, basis)?;
        Ok(LowStageTwiddles {
            shifts: [shifts[0], shifts[1], shifts[2], shifts[3]],
            basis,
        })
    }

    /// The four shifts, of stages 0 to 3.
    pub fn shifts(&self) -> &[u128; 4]
        ensures { result.now ≡ shifts_of self.now }
    {
        &self.shifts
    }

    /// The basis, lowest element first: at least three elements.
    pub fn basis(&self) -> &[u128]
        ensures basis { result.now ≡ basis_of self.now }
        ensures least { 3 ≤ length result.now }
    {
        self.basis.as_slice()
    }

    /// The twiddle of all pairs of a block of a stage: the shift of the stage, and the elements of the basis at the set bits of the
    /// block's number. Block q of stage j has places 2^(j + 1) q to 2^(j + 1) (q + 1) - 1 of the transform, so that run r has the
    /// blocks from 2^(3 - j) r on. The stage has to be below 4. Of bits past the basis it reads none.
    pub fn of_block(&self, stage: usize, block: u128) -> u128
        requires { stage < 4 }
        ensures { result ≡ bit_xor (slice_index (shifts_of self.now) stage) (linear_image (basis_of self.now) block) }
    {
        self.shifts[stage] ^ sum_of_images(&self.basis, block)
    }

    /// Runs stages 3, 2, 1 and 0 over each run of sixteen values, the first of which is run `first_run` of the transform: its
    /// place i is place p = 16 first_run + i. The length has to be a multiple of 16, and where there are values, the number of
    /// the last run has to be below 2 to the power of three less than the elements of the basis. It takes no memory.
    ///
    /// Place p then holds the sum, over k below 16, of value k of its run times the product of the factors of place p at the set
    /// bits j of k, which are the twiddles plus bit j of p. Where the shifts are s_j(z) and element t of the basis is Cantor
    /// vector t + 1, that is the value of a polynomial at z plus the Cantor vectors at the set bits of p: the polynomial with the
    /// values of the run as coefficients, in the basis of the products of the s_j (s_0(x) = x, s_(j + 1)(x) = s_j(x)^2 + s_j(x)).
    pub fn forward(&self, values: &mut [u128], first_run: usize)
        requires whole { length values.old % 16 ≡ 0 }
        requires numbered { values.old ≢ [] → first_run + length values.old / 16 ≤ 2 ^ (length (basis_of self.now) - 3) }
        ensures length { length values.new ≡ length values.old }
        ensures sums { HoldSums (shifts_of self.now) (basis_of self.now) first_run values.old values.new }
        ensures values { HoldValuesAtCantorPoints (shifts_of self.now) (basis_of self.now) first_run values.old values.new }
    {
        self.forward_in::<u64x2>(values, first_run);
    }

    /// As `forward`, in vectors of a width: `u64x4` is made for x86-64-v3, whose vectors have 256 bits; on x86-64-v2 `forward` is faster.
    pub fn forward_in<V: Width>(&self, values: &mut [u128], first_run: usize)
        requires whole { length values.old % 16 ≡ 0 }
        requires numbered { values.old ≢ [] → first_run + length values.old / 16 ≤ 2 ^ (length (basis_of self.now) - 3) }
        ensures length { length values.new ≡ length values.old }
        ensures sums { HoldSums (shifts_of self.now) (basis_of self.now) first_run values.old values.new }
        ensures values { HoldValuesAtCantorPoints (shifts_of self.now) (basis_of self.now) first_run values.old values.new }
    {
        run_low_stages::<V, u128>(&self.shifts, &self.basis, values, first_run as u128);
    }
}

/// What `LowStageTwiddles::forward` does, by four shifts and a basis of at least three elements, over words that hold numbers. The numbers
/// of the runs have at most 127 bits. In vectors of 128 bits two products share the lanes, and in vectors of 256 bits four.
pub fn run_low_stages<V: Width, W: Holds<u128>>(
    shifts: &[u128; 4],
    basis: &[u128],
    values: &mut [W],
    first_run: u128,
)
    requires basis { 3 ≤ length basis.now }
    requires whole { length values.old % 16 ≡ 0 }
    requires numbered { values.old ≢ [] → first_run + length values.old / 16 ≤ 2 ^ (length basis.now - 3) }
    requires fits { first_run + length values.old / 16 ≤ 2 ^ 127 }
    ensures length { length values.new ≡ length values.old }
    ensures sums { HoldSums shifts.now basis.now first_run (map W.number values.old) (map W.number values.new) }
    ensures values { HoldValuesAtCantorPoints shifts.now basis.now first_run (map W.number values.old) (map W.number values.new) }
{
    let low = sums_of_three(basis);
    let mut number = first_run;
    let mut twiddles = with_images(shifts, basis, number);
    for run in 0..values.len() / 16 {
        if run > 0 {
            let next = number + 1;
            twiddles = with_images(&twiddles, basis, number ^ next);
            number = next;
        }
        transform_run::<V, W>(values, 16 * run, &twiddles, &low);
    }
}

// The sums of the first three elements of the basis, place b that at the set bits of b.
fn sums_of_three(basis: &[u128]) -> [u128; 8]
    ensures { AreLowSums basis.now result }
{
    let mut sums = [0; 8];
    for place in 0..8 {
        sums[place] = sum_of_images(basis, place as u128);
    }
    sums
}

// The twiddles with, added to twiddle j, the elements of the basis at the set bits of `bits`, of which bit t stands for element
// t + 3 - j: between the bits of a run's number and bit j of a place there are the 3 - j that say where in the run it lies.
fn with_images(twiddles: &[u128; 4], basis: &[u128], bits: u128) -> [u128; 4]
    requires { 3 ≤ length basis.now }
    ensures { AreWithImages twiddles.now basis.now bits result }
{
    [
        twiddles[0] ^ sum_of_images(&basis[3..], bits),
        twiddles[1] ^ sum_of_images(&basis[2..], bits),
        twiddles[2] ^ sum_of_images(&basis[1..], bits),
        twiddles[3] ^ sum_of_images(basis, bits),
    ]
}

// The four stages of the run of sixteen values from `start` on, by its twiddles and the sums of three elements of the basis.
fn transform_run<V: Width, W: Holds<u128>>(
    values: &mut [W],
    start: usize,
    twiddles: &[u128; 4],
    low: &[u128; 8],
)
    requires { start + 16 ≤ length values.old }
    ensures length { length values.new ≡ length values.old }
    ensures run { HoldsRunSums (run_factor twiddles.now low.now) start (map W.number values.old) (map W.number values.new) }
    ensures before { (p : ℕ) → p < start → slice_index (map W.number values.new) p ≡ slice_index (map W.number values.old) p }
    ensures behind { (p : ℕ) → start + 16 ≤ p → slice_index (map W.number values.new) p ≡ slice_index (map W.number values.old) p }
{
    run_stage::<V, W>(values, start, 3, twiddles, low);
    run_stage::<V, W>(values, start, 2, twiddles, low);
    run_stage::<V, W>(values, start, 1, twiddles, low);
    run_stage::<V, W>(values, start, 0, twiddles, low);
    W::numbers_fit(values);
}

// One stage of that run, pair by pair: two places whose numbers differ in the bit of the stage alone are a pair.
#[inline]
fn run_stage<V: Width, W: Holds<u128>>(
    values: &mut [W],
    start: usize,
    bit: usize,
    twiddles: &[u128; 4],
    low: &[u128; 8],
)
    requires bit { bit < 4 }
    requires whole { start + 16 ≤ length values.old }
    ensures length { length values.new ≡ length values.old }
    ensures run { HoldsRunStage (run_factor twiddles.now low.now) bit start (map W.number values.old) (map W.number values.new) }
    ensures before { (p : ℕ) → p < start → slice_index (map W.number values.new) p ≡ slice_index (map W.number values.old) p }
    ensures behind { (p : ℕ) → start + 16 ≤ p → slice_index (map W.number values.new) p ≡ slice_index (map W.number values.old) p }
{
    W::numbers_fit(values);
    let half = half_of(bit);
    for turn in 0..2 {
        let first = start + lower_of(4 * turn, half);
        let first_upper = first + half;
        let second = start + lower_of(4 * turn + 1, half);
        let second_upper = second + half;
        let third = start + lower_of(4 * turn + 2, half);
        let third_upper = third + half;
        let fourth = start + lower_of(4 * turn + 3, half);
        let fourth_upper = fourth + half;
        let scalars = [
            twiddles[bit] ^ low[4 * turn / half],
            twiddles[bit] ^ low[(4 * turn + 1) / half],
            twiddles[bit] ^ low[(4 * turn + 2) / half],
            twiddles[bit] ^ low[(4 * turn + 3) / half],
        ];
        let uppers = [
            number_at(values, first_upper),
            number_at(values, second_upper),
            number_at(values, third_upper),
            number_at(values, fourth_upper),
        ];
        let products = V::multiply_four(scalars, uppers);
        add_to_pair(values, first, first_upper, products[0]);
        add_to_pair(values, second, second_upper, products[1]);
        add_to_pair(values, third, third_upper, products[2]);
        add_to_pair(values, fourth, fourth_upper, products[3]);
    }
}

// Adds a product to the lower value of a pair, and then the lower value to the upper one.
#[inline]
fn add_to_pair<W: Holds<u128>>(values: &mut [W], lower: usize, upper: usize, product: u128)
    requires apart { lower < upper }
    requires inside { upper < length values.old }
    ensures { map W.number values.new ≡ with_pair (map W.number values.old) lower upper product }
{
    let hi = number_at(values, upper);
    let lo = number_at(values, lower) ^ product;
    put_number(values, lower, lo);
    put_number(values, upper, hi ^ lo);
}

// Half the places of a block of a stage, whose pairs are as far apart.
#[inline]
fn half_of(bit: usize) -> usize
    requires { bit < 4 }
    ensures { result ≡ 2 ^ bit }
{
    1 << bit
}

// The lower place of a pair, whose blocks have twice `half` places.
#[inline]
fn lower_of(pair: usize, half: usize) -> usize
    requires few { pair < 8 }
    requires above { 0 < half }
    ensures { result ≡ 2 * pair - pair % half }
{
    2 * pair - pair % half
}
