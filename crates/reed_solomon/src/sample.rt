// The shards that the missing ones are computed from, and the factors of their symbols.
ghost use Rattle.std.specs.Prelude.{◌≡◌, ◌≢◌, ◌+◌, ◌<◌, ◌≤◌, ◌^◌, ℕ, length, slice_index, bit_xor};
ghost use Rattle.field_base.specs.Basis.{product_below};
ghost use Rattle.field_base.specs.Interpolation.{lagrange, other_factors};
ghost use Rattle.field_base.specs.PolynomialRoots.{AreDistinctBelow};
ghost use Rattle.reed_solomon.specs.ByteFields.{byte_times};
ghost use Rattle.reed_solomon.specs.declared.byte_field.ByteField.TheVariants.{Qr};
ghost use Rattle.reed_solomon.specs.Samples.{AreWeights, IsSample};

use crate::byte_field::{ByteField, invert, multiply};
use crate::groups::bytes_fit;

// The first `count` entries of `places` are the places of shards. The place of a shard is its point too. The weight of a shard is
// what Lagrange's formula divides by for it, inverted (the barycentric form).
#[derive(Clone, Copy)]
pub(crate) struct Sample {
    pub(crate) places: [u8; 256],
    pub(crate) count: usize,
    weights: [u8; 256],
    ghost few: { count ≤ 256 },
    ghost distinct: { AreDistinctBelow count (2 ^ 8) (slice_index places) },
    ghost weighed: { AreWeights (slice_index places) count (slice_index weights) },
}

impl Sample {
    // The first k shards that are present, or all where these are fewer.
    #[tactic(auto, using(crate::proofs::Samples::sample_distinct))]
    pub(crate) fn of_present(present: &[bool], k: usize) -> Sample
        requires fit { length present.now ≤ 256 }
        ensures { IsSample k present.now (length present.now) result.places result.count }
    {
        let (places, count) = present_places(present, k);
        Sample {
            places,
            count,
            weights: weights_of(&places, count),
        }
    }

    // The first k shards.
    pub(crate) fn of_first(k: usize) -> Sample
        requires few { k ≤ 256 }
        ensures count { result.count ≡ k }
        ensures places { (j : ℕ) → j < k → slice_index result.places j ≡ j }
    {
        let places = places_from(0, k);
        Sample {
            places,
            count: k,
            weights: weights_of(&places, k),
        }
    }

    // The factors of all shards of the sample in the symbol of the shard at x, which is none of them: the factor of shard j is the
    // product of (x - p) / (place j - p) over the other places p. The weights are what does not depend on x.
    pub(crate) fn factors(&self, x: u8) -> [u8; 256]
        requires apart { (j : ℕ) → j < self.now.count → slice_index self.now.places j ≢ x }
        ensures { (j : ℕ) → j < self.now.count
            → slice_index result j ≡ lagrange 8 (byte_times Qr) (slice_index self.now.places) self.now.count j x }
    {
        bytes_fit(&self.weights);
        let all = self.differences(x);
        let mut factors = [0; 256];
        for j in 0..self.count {
            let others = multiply(
                ByteField::Qr,
                all,
                invert(ByteField::Qr, x ^ self.places[j]),
            );
            factors[j] = multiply(ByteField::Qr, others, self.weights[j]);
        }
        factors
    }

    // The product of x - p over all places p.
    fn differences(&self, x: u8) -> u8
        ensures { result ≡ product_below (byte_times Qr) (λ i. bit_xor x (slice_index self.now.places i)) self.now.count }
    {
        let mut product = 1;
        for i in 0..self.count {
            product = multiply(ByteField::Qr, product, x ^ self.places[i]);
        }
        product
    }
}

// The places of the first k shards that are present, or of all where these are fewer, and how many there are.
#[tactic(auto, using(crate::proofs::Samples::no_sample))]
pub(crate) fn present_places(present: &[bool], k: usize) -> ([u8; 256], usize)
    requires fit { length present.now ≤ 256 }
    ensures sample { IsSample k present.now (length present.now) result.0 result.1 }
    ensures few { result.1 ≤ length present.now }
{
    let mut places = [0; 256];
    let mut count = 0;
    for i in 0..present.len() {
        if present[i] && count < k {
            places[count] = i as u8;
            count += 1;
        }
    }
    (places, count)
}

// The places of `count` shards from shard `first` on.
pub(crate) fn places_from(first: usize, count: usize) -> [u8; 256]
    requires { first + count ≤ 256 }
    ensures { (i : ℕ) → i < count → slice_index result i ≡ first + i }
{
    let mut places = [0; 256];
    for i in 0..count {
        places[i] = (first + i) as u8;
    }
    places
}

// The inverse of the product of the differences of each place to the others.
fn weights_of(places: &[u8; 256], count: usize) -> [u8; 256]
    requires few { count ≤ 256 }
    requires distinct { AreDistinctBelow count (2 ^ 8) (slice_index places.now) }
    ensures { AreWeights (slice_index places.now) count (slice_index result) }
{
    let mut weights = [0; 256];
    for own in 0..count {
        weights[own] = invert(ByteField::Qr, other_differences(places, count, own));
    }
    weights
}

// The product of the differences of place `own` to the others.
fn other_differences(places: &[u8; 256], count: usize, own: usize) -> u8
    requires few { count ≤ 256 }
    requires within { own < count }
    requires distinct { AreDistinctBelow count (2 ^ 8) (slice_index places.now) }
    ensures product { result ≡ other_factors (byte_times Qr) (slice_index places.now) own (slice_index places.now own) count }
    ensures invertible { result ≢ 0 }
{
    let own_place = places[own];
    let mut product = 1;
    for i in 0..count {
        if i != own {
            product = multiply(ByteField::Qr, product, own_place ^ places[i]);
        }
    }
    product
}
