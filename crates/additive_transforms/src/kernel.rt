// What computes on the values of a transform.
ghost use Rattle.std.specs.Prelude.{◌≡◌, ◌≢◌, ℕ, ◌+◌, ◌-◌, ◌*◌, ◌%◌, ◌/◌, ◌^◌, ◌<◌, ◌≤◌, [], bit_xor, length, map};
ghost use Rattle.ghash_slices.specs.LowStages.{HoldSums, ghash_cantor_vector, ghash_product};
ghost use Rattle.ghash_slices.specs.Slices.{IsForward, IsInverse};
ghost use Rattle.ghash_slices.specs.Stages.{add_multiple};
ghost use Rattle.ghash_slices.specs.Twiddles.{basis_of, shifts_of};
ghost use Rattle.additive_transforms.specs.Words.{low_word};
ghost use Rattle.std.specs.Simd.Lanes.{zip2};
ghost use native.Mathlib.Nat.{mod-lt};
ghost use Rattle.std.proofs.Common.{lit<};
ghost use Rattle.std.proofs.lemmas.Nat.{pow_pos};
ghost use Rattle.additive_transforms.specs.lemmas.Counting.{number_counts};
ghost use Rattle.additive_transforms.specs.lemmas.Image.{ghash_ring_laws, ghash_vector_laws};
ghost use Rattle.additive_transforms.specs.Images.{tower_image};

use crate::elements::arithmetic::StageArithmetic;
use crate::images::OfImages;
use field_base::Holds;
use ghash_slices::{LowStageTwiddles, Width, add_each, add_multiples, run_low_stages};
use std::alloc::Allocator;
use std::marker::PhantomData;
use std::simd::prelude::*;
use word_tables::to_polynomial_128;

/// The butterflies of a transform; it touches its elements through these alone. Each element stands for a value, which is a number of
/// 128 bits in the field of GHASH. A kernel counts the pairs that it computes.
pub trait Kernel {
    /// An element of the slices that are transformed.
    type Elem;

    // The value of an element.
    ghost value: { Self.Elem → ℕ };

    // The pairs that were computed.
    ghost count: { Self → ℕ };

    ghost range_law: { (x : Self.Elem) → value x < 2 ^ 128 };

    /// The butterfly of the forward transform, place by place: `lo += s * hi`, and then `hi += lo`. Both slices have to be of one
    /// length, by which the count rises; it has to fit 64 bits.
    fn butterfly_forward(&mut self, lo: &mut [Self::Elem], hi: &mut [Self::Elem], s: u128)
        requires pairs { length lo.old ≡ length hi.old }
        requires room { Self.count self.old + length lo.old < 2 ^ 64 }
        ensures values { IsForward s (map Self.value lo.old) (map Self.value hi.old) (map Self.value lo.new) (map Self.value hi.new) }
        ensures count { Self.count self.new ≡ Self.count self.old + length lo.old };

    /// The butterfly of the inverse transform, place by place: `hi += lo`, and then `lo += s * hi`. Both slices have to be of one
    /// length, by which the count rises; it has to fit 64 bits.
    fn butterfly_inverse(&mut self, lo: &mut [Self::Elem], hi: &mut [Self::Elem], s: u128)
        requires pairs { length lo.old ≡ length hi.old }
        requires room { Self.count self.old + length lo.old < 2 ^ 64 }
        ensures values { IsInverse s (map Self.value lo.old) (map Self.value hi.old) (map Self.value lo.new) (map Self.value hi.new) }
        ensures count { Self.count self.new ≡ Self.count self.old + length lo.old };

    /// Stages 3, 2, 1 and 0 over each run of sixteen values, as `LowStageTwiddles::forward` does, of which the first is run
    /// `first_run` of the transform. The length has to be a multiple of 16, and where there are values, the number of the last
    /// run has to be below 2 to the power of three less than the elements of the twiddles' basis; it may pass 64 bits. The count
    /// rises by 32 a run; it has to fit 64 bits. `LowStageTwiddles::of_block` gives the twiddle of a block, and `PairByPair` runs
    /// these stages for any kernel of single pairs.
    fn low_forward<A: Allocator>(
        &mut self,
        twiddles: &LowStageTwiddles<A>,
        values: &mut [Self::Elem],
        first_run: usize,
    )
        requires whole { length values.old % 16 ≡ 0 }
        requires numbered { values.old ≢ [] → first_run + length values.old / 16 ≤ 2 ^ (length (basis_of twiddles.now) - 3) }
        requires room { Self.count self.old + 2 * length values.old < 2 ^ 64 }
        ensures length { length values.new ≡ length values.old }
        ensures sums { HoldSums (shifts_of twiddles.now) (basis_of twiddles.now) first_run
            (map Self.value values.old) (map Self.value values.new) }
        ensures count { Self.count self.new ≡ Self.count self.old + 2 * length values.old };
}

/// The kernel over plain numbers, by the butterflies and the low stages of `poly_basis`.
#[derive(Drop)]
pub struct PolyKernel {
    /// The pairs that were computed. A pair takes one product, which in long slices is looked up.
    pub products: u64,
}

impl Kernel for PolyKernel {
    type Elem = u128;

    ghost value = { λ x. x % 2 ^ 128 };

    ghost count = { λ kernel. kernel.products };

    ghost range_law = { λ x. mod-lt x (pow_pos 128) };

    fn butterfly_forward(&mut self, lo: &mut [u128], hi: &mut [u128], s: u128) {
        self.products += lo.len() as u64;
        add_products::<u64x2, u128>(lo, hi, s);
        add_words(hi, lo);
    }

    fn butterfly_inverse(&mut self, lo: &mut [u128], hi: &mut [u128], s: u128) {
        self.products += lo.len() as u64;
        add_words(hi, lo);
        add_products::<u64x2, u128>(lo, hi, s);
    }

    fn low_forward<A: Allocator>(
        &mut self,
        twiddles: &LowStageTwiddles<A>,
        values: &mut [u128],
        first_run: usize,
    ) {
        self.products += 2 * values.len() as u64;
        let (shifts, basis) = (twiddles.shifts(), twiddles.basis());
        run_low_words::<u64x2, u128>(shifts, basis, values, first_run as u128);
    }
}

/// The kernel over words that hold numbers, where they lie, in vectors of a width.
#[derive(Drop)]
pub struct WordKernel<V, W> {
    /// The pairs that were computed.
    pub products: u64,
    vectors: PhantomData<V>,
    words: PhantomData<W>,
}

impl<V: Width, W: Holds<u128>> WordKernel<V, W> {
    /// The kernel, before it has counted a pair.
    pub fn new() -> WordKernel<V, W>
        ensures { result.products ≡ 0 }
    {
        WordKernel {
            products: 0,
            vectors: PhantomData,
            words: PhantomData,
        }
    }
}

impl<V: Width, W: Holds<u128>> Kernel for WordKernel<V, W> {
    type Elem = W;

    ghost value = { low_word W.number };

    ghost count = { λ kernel. kernel.products };

    ghost range_law = { λ x. mod-lt (W.number x) (pow_pos 128) };

    fn butterfly_forward(&mut self, lo: &mut [W], hi: &mut [W], s: u128) {
        self.products += lo.len() as u64;
        add_products::<V, W>(lo, hi, s);
        add_words(hi, lo);
    }

    fn butterfly_inverse(&mut self, lo: &mut [W], hi: &mut [W], s: u128) {
        self.products += lo.len() as u64;
        add_words(hi, lo);
        add_products::<V, W>(lo, hi, s);
    }

    fn low_forward<A: Allocator>(
        &mut self,
        twiddles: &LowStageTwiddles<A>,
        values: &mut [W],
        first_run: usize,
    ) {
        self.products += 2 * values.len() as u64;
        let (shifts, basis) = (twiddles.shifts(), twiddles.basis());
        run_low_words::<V, W>(shifts, basis, values, first_run as u128);
    }
}

// Adds to each word the product of the scalar and the other word at its place. The slices are of one length.
fn add_products<V: Width, W: Holds<u128>>(words: &mut [W], others: &[W], s: u128)
    requires { length words.old ≡ length others.now }
    ensures { map (low_word W.number) words.new
        ≡ zip2 (add_multiple ghash_product s) (map (low_word W.number) words.old) (map (low_word W.number) others.now) }
{
    W::numbers_fit(words);
    W::numbers_fit(others);
    add_multiples::<V, W>(words, others, s);
    W::numbers_fit(words);
}

// Adds to each word the other word at its place. The slices are of one length.
fn add_words<W: Holds<u128>>(words: &mut [W], others: &[W])
    requires { length words.old ≡ length others.now }
    ensures { map (low_word W.number) words.new ≡ zip2 bit_xor (map (low_word W.number) words.old) (map (low_word W.number) others.now) }
{
    W::numbers_fit(words);
    W::numbers_fit(others);
    add_each(words, others);
    W::numbers_fit(words);
}

/// The four lowest stages over each run of sixteen words, as `run_low_stages` runs them.
pub(crate) fn run_low_words<V: Width, W: Holds<u128>>(
    shifts: &[u128; 4],
    basis: &[u128],
    words: &mut [W],
    first_run: u128,
)
    requires basis { 3 ≤ length basis.now }
    requires whole { length words.old % 16 ≡ 0 }
    requires numbered { words.old ≢ [] → first_run + length words.old / 16 ≤ 2 ^ (length basis.now - 3) }
    requires fits { first_run + length words.old / 16 ≤ 2 ^ 127 }
    ensures length { length words.new ≡ length words.old }
    ensures sums { HoldSums shifts.now basis.now first_run (map (low_word W.number) words.old) (map (low_word W.number) words.new) }
{
    W::numbers_fit(words);
    run_low_stages::<V, W>(shifts, basis, words, first_run);
    W::numbers_fit(words);
}

/// The arithmetic of a kernel, which counts the pairs. A twiddle is the element of the tower whose image is the scalar: its Cantor vectors
/// stand in a table.
pub(crate) struct OfKernel<K>(PhantomData<K>);

impl<K: Kernel> StageArithmetic for OfKernel<K> {
    type Value = K::Elem;

    type Twiddle = u128;

    type Counter = K;

    ghost width = { 128 };

    ghost product = { ghash_product };

    ghost vector = { ghash_cantor_vector };

    ghost value = { K.value };

    ghost number = { tower_image };

    ghost counted = { λ before after pairs. K.count after ≡ K.count before + pairs };

    ghost has_room = { λ kernel pairs. K.count kernel + pairs < 2 ^ 64 };

    #[inline]
    fn sum(x: u128, y: u128) -> u128 {
        OfImages::<u128>::sum(x, y)
    }

    #[inline]
    fn cantor_vector(i: usize) -> u128 {
        OfImages::<u128>::cantor_vector(i)
    }

    fn square(x: u128) -> u128 {
        OfImages::<u128>::square(x)
    }

    fn butterflies(
        counter: &mut K,
        lo: &mut [K::Elem],
        hi: &mut [K::Elem],
        twiddle: u128,
        inverse: bool,
    ) {
        let scalar = to_polynomial_128(twiddle);
        if inverse {
            counter.butterfly_inverse(lo, hi, scalar);
            return;
        }
        counter.butterfly_forward(lo, hi, scalar);
    }

    ghost count_law = { number_counts K.count };

    ghost wide_law = { lit< tt };

    ghost ring_law = { ghash_ring_laws };

    ghost vector_law = { ghash_vector_laws };

    ghost range_law = { K.range_law };
}
