// The factors by which the shards at hand make one that is missing: for shards that stand apart.
ghost use Rattle.std.specs.Prelude.{◌≡◌, ◌≢◌, ◌↔◌, ◌+◌, ◌<◌, ◌≤◌, ℕ, IfSome, IsSome, length, slice_index};
ghost use Rattle.field_base.specs.Basis.{sum_below};
ghost use Rattle.reed_solomon.specs.Adding.{MakeShard};
ghost use Rattle.reed_solomon.specs.ByteFields.{byte_times};
ghost use Rattle.reed_solomon.specs.declared.byte_field.ByteField.TheVariants.{Qr};
ghost use Rattle.reed_solomon.specs.Shards.{IsPresent, present_count};

use crate::ReedSolomon;
use crate::groups::bytes_fit;
use crate::sample::Sample;

impl ReedSolomon {
    /// The factor of each shard in a missing one: byte by byte that is the sum of the products of the shards at hand by their factors. Those of
    /// all but the first shards at hand, as many as there are of data, are 0. It is `None` where fewer are at hand.
    pub fn factors_of(&self, present: &[bool], shard: usize) -> Option<[u8; 256]>
        requires flags { length present.now ≡ self.now.data_shards + self.now.parity_shards }
        requires within { shard < length present.now }
        requires missing { ¬ IsPresent present.now shard }
        ensures enough { IsSome result ↔ (self.now.data_shards ≤ present_count present.now) }
        ensures made { IfSome result (λ factors.
            MakeShard self.now.data_shards (self.now.data_shards + self.now.parity_shards) present.now shard factors) }
    {
        let sample = Sample::of_present(present, self.data_shards);
        if sample.count < self.data_shards {
            return None;
        }
        Some(at_places(&sample, &sample.factors(shard as u8)))
    }
}

// The factors of the shards of a sample at their places, and 0 at the others.
fn at_places(sample: &Sample, factors: &[u8; 256]) -> [u8; 256]
    ensures others { (i : ℕ) → ((j : ℕ) → j < sample.now.count → slice_index sample.now.places j ≢ i) → slice_index result i ≡ 0 }
    ensures sums { (total : ℕ) (symbol : ℕ → ℕ) → ((j : ℕ) → j < sample.now.count → slice_index sample.now.places j < total)
        → sum_below (λ i. byte_times Qr (slice_index result i) (symbol i)) total
        ≡ sum_below (λ j. byte_times Qr (slice_index factors.now j) (symbol (slice_index sample.now.places j))) sample.now.count }
{
    bytes_fit(&sample.places);
    let mut placed = [0; 256];
    for j in 0..sample.count {
        placed[sample.places[j] as usize] = factors[j];
    }
    placed
}
