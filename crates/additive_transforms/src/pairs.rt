// Kernels that compute one pair of places at a time.
ghost use Rattle.std.specs.Prelude.{◌≡◌, ℕ, ◌+◌, ◌-◌, ◌*◌, ◌%◌, ◌/◌, ◌^◌, ◌<◌, ◌≤◌, length, map, slice_index, bit_xor};
ghost use Rattle.ghash_slices.specs.LowStages.{ghash_product, HoldSums};
ghost use Rattle.ghash_slices.specs.Stages.{add_multiple};
ghost use Rattle.additive_transforms.specs.Stages.{IsButterfly, IsStageFrom, TakesSlices};

use crate::kernel::Kernel;
use crate::stages::{half_of, start_of};
use ghash_slices::LowStageTwiddles;
use std::alloc::Allocator;
use word_tables::sum_of_images;

/// What computes on one pair of places of a transform. `PairByPair` makes a `Kernel` of it, which goes through the slices and
/// counts. Each element stands for a value, which is a number of 128 bits in the field of GHASH.
pub trait PairKernel {
    /// An element of the slices that are transformed.
    type Elem;

    // The value of an element.
    ghost value: { Self.Elem → ℕ };

    ghost range_law: { (x : Self.Elem) → value x < 2 ^ 128 };

    /// The butterfly of the forward transform: `lo += s * hi`, and then `hi += lo`.
    fn forward_pair(&mut self, lo: &mut Self::Elem, hi: &mut Self::Elem, s: u128)
        ensures low { Self.value lo.new ≡ add_multiple ghash_product s (Self.value lo.old) (Self.value hi.old) }
        ensures high { Self.value hi.new ≡ bit_xor (Self.value hi.old) (Self.value lo.new) };

    /// The butterfly of the inverse transform: `hi += lo`, and then `lo += s * hi`.
    fn inverse_pair(&mut self, lo: &mut Self::Elem, hi: &mut Self::Elem, s: u128)
        ensures high { Self.value hi.new ≡ bit_xor (Self.value hi.old) (Self.value lo.old) }
        ensures low { Self.value lo.new ≡ add_multiple ghash_product s (Self.value lo.old) (Self.value hi.new) };
}

/// The kernel that computes pair by pair: butterflies of slices place by place, and the low stages one after another.
#[derive(Drop)]
pub struct PairByPair<P> {
    /// What computes on a pair.
    pub pairs: P,
    /// The pairs that were computed.
    pub products: u64,
}

impl<P: PairKernel> Kernel for PairByPair<P> {
    type Elem = P::Elem;

    ghost value = { P.value };

    ghost count = { λ kernel. kernel.products };

    ghost range_law = { P.range_law };

    fn butterfly_forward(&mut self, lo: &mut [P::Elem], hi: &mut [P::Elem], s: u128) {
        self.products += lo.len() as u64;
        run_pairs(&mut self.pairs, lo, hi, s, false);
    }

    fn butterfly_inverse(&mut self, lo: &mut [P::Elem], hi: &mut [P::Elem], s: u128) {
        self.products += lo.len() as u64;
        run_pairs(&mut self.pairs, lo, hi, s, true);
    }

    fn low_forward<A: Allocator>(
        &mut self,
        twiddles: &LowStageTwiddles<A>,
        values: &mut [P::Elem],
        first_run: usize,
    ) {
        self.products += 2 * values.len() as u64;
        let shifts = twiddles.shifts();
        let basis = twiddles.basis();
        low_stages(&mut self.pairs, shifts, basis, values, first_run);
    }
}

// The butterfly of each pair of places of two slices, or, where `inverse` is true, the inverse one.
fn run_pairs<P: PairKernel>(
    pairs: &mut P,
    lo: &mut [P::Elem],
    hi: &mut [P::Elem],
    s: u128,
    inverse: bool,
)
    requires { length lo.old ≡ length hi.old }
    ensures { TakesSlices inverse s (map P.value lo.old) (map P.value hi.old) (map P.value lo.new) (map P.value hi.new) }
{
    for place in 0..lo.len() {
        if inverse {
            pairs.inverse_pair(&mut lo[place], &mut hi[place], s);
        } else {
            pairs.forward_pair(&mut lo[place], &mut hi[place], s);
        }
    }
}

/// Stages 3, 2, 1 and 0 over each run of sixteen values, the first of which is run `first_run` of the transform, pair by pair. The
/// twiddle of stage j at place p is shift j, and element t of the basis for each set bit t of p >> (j + 1); of bits past the
/// basis it reads none. The length has to be a multiple of 16. It takes no memory.
pub fn low_stages<P: PairKernel>(
    pairs: &mut P,
    shifts: &[u128; 4],
    basis: &[u128],
    values: &mut [P::Elem],
    first_run: usize,
)
    requires { length values.old % 16 ≡ 0 }
    ensures length { length values.new ≡ length values.old }
    ensures sums { HoldSums shifts.now basis.now first_run (map P.value values.old) (map P.value values.new) }
{
    low_stage(pairs, shifts, basis, values, 3, first_run);
    low_stage(pairs, shifts, basis, values, 2, first_run);
    low_stage(pairs, shifts, basis, values, 1, first_run);
    low_stage(pairs, shifts, basis, values, 0, first_run);
}

// One of those stages, block by block.
fn low_stage<P: PairKernel>(
    pairs: &mut P,
    shifts: &[u128; 4],
    basis: &[u128],
    values: &mut [P::Elem],
    stage: usize,
    first_run: usize,
)
    requires { stage < 4 }
    ensures length { length values.new ≡ length values.old }
    ensures stage { IsStageFrom ghash_product (slice_index shifts.now stage) basis.now stage (first_run * 2 ^ (3 - stage))
        (length values.old / 2 ^ (stage + 1)) (map P.value values.old) (map P.value values.new) }
{
    let half = half_of(stage);
    let first = first_block(first_run, stage);
    for block in 0..values.len() / (2 * half) {
        let start = start_of(block, 2 * half, values.len());
        let twiddle = shifts[stage] ^ sum_of_images(basis, first + block as u128);
        pairs_of_block(pairs, &mut values[start..start + 2 * half], half, twiddle);
    }
}

// The forward butterfly of each pair of a block of twice `half` places.
fn pairs_of_block<P: PairKernel>(pairs: &mut P, block: &mut [P::Elem], half: usize, twiddle: u128)
    requires { length block.old ≡ 2 * half }
    ensures length { length block.new ≡ length block.old }
    ensures values { IsButterfly ghash_product twiddle half (slice_index (map P.value block.old)) (slice_index (map P.value block.new)) }
{
    let (lower, upper) = block.split_at_mut(half);
    run_pairs(pairs, lower, upper, twiddle, false);
}

// The first block of a stage in a run: a run has 2^(3 - stage).
fn first_block(run: usize, stage: usize) -> u128
    requires { stage < 4 }
    ensures first { result ≡ run * 2 ^ (3 - stage) }
    ensures few { result ≤ 2 ^ 67 }
{
    run as u128 * (1 << (3 - stage))
}
