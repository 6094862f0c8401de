// The shards that are missing, and how they are restored. Shards of one size stand one after the other in a slice.
ghost use Rattle.std.specs.Prelude.{◌≡◌, ◌*◌, ◌<◌, ◌≤◌, length};
ghost use Rattle.reed_solomon.specs.Missing.{AreMissing};
ghost use Rattle.reed_solomon.specs.Samples.{IsSample};
ghost use Rattle.reed_solomon.specs.Shards.{IsReconstructed};

use crate::groups::{bytes_fit, restore_shards};
use crate::sample::Sample;

// The places before `until` of the missing shards, in order, and how many there are.
pub(crate) fn missing_places(present: &[bool], until: usize) -> ([u8; 256], usize)
    requires fit { length present.now ≤ 256 }
    requires inside { until ≤ length present.now }
    ensures missing { AreMissing present.now until result.0 result.1 }
    ensures few { result.1 ≤ until }
{
    let mut places = [0; 256];
    let mut count = 0;
    for i in 0..until {
        if !present[i] {
            places[count] = i as u8;
            count += 1;
        }
    }
    (places, count)
}

// Writes the missing shards before shard `until` from the sample.
pub(crate) fn restore(
    shards: &mut [u8],
    size: usize,
    sample: &Sample,
    present: &[bool],
    until: usize,
)
    requires some { 0 < sample.now.count }
    requires fit { length present.now ≤ 256 }
    requires inside { until ≤ length present.now }
    requires whole { length shards.old ≡ length present.now * size }
    requires chosen { IsSample sample.now.count present.now (length present.now) sample.now.places sample.now.count }
    ensures long { length shards.new ≡ length shards.old }
    ensures restored { IsReconstructed sample.now.count (length present.now) size until present.now shards.old shards.new }
{
    bytes_fit(shards);
    let (places, count) = missing_places(present, until);
    restore_shards(shards, size, sample, &places, count);
}
