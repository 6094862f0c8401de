// Strips as rows: the words of each shard in the columns of a strip. Shards of one size stand one after the other in a slice.
ghost use Rattle.std.specs.Prelude.{◌≡◌, ◌+◌, ◌*◌, ◌<◌, ◌≤◌, length, slice_index_or};
ghost use Rattle.reed_solomon.specs.Columns.{ArePutWords, AreScattered, HoldStrip};

use crate::strips::Strip;
use field_base::Stored;

// Copies `count` words of a source, from place `from` on, to place `place`.
pub(crate) fn copy_words<R: Stored>(
    target: &mut [R],
    place: usize,
    source: &[R],
    from: usize,
    count: usize,
)
    requires room { place + count ≤ length target.old }
    requires enough { from + count ≤ length source.now }
    ensures long { length target.new ≡ length target.old }
    ensures put { ArePutWords R.ZERO place count (λ c. slice_index_or source.now (from + c) R.ZERO) target.old target.new }
{
    target[place..place + count].copy_from_slice(&source[from..from + count]);
}

// Sets `count` words to 0, from place `place` on.
pub(crate) fn clear_words<R: Stored>(target: &mut [R], place: usize, count: usize)
    requires room { place + count ≤ length target.old }
    ensures long { length target.new ≡ length target.old }
    ensures put { ArePutWords R.ZERO place count (λ c. R.ZERO) target.old target.new }
{
    for c in 0..count {
        target[place + c] = R::ZERO;
    }
}

// Reads a strip of so many shards into so many rows, and zeros behind it.
pub(crate) fn gather<R: Stored>(
    values: &mut [R],
    rows: usize,
    shards: &[R],
    count: usize,
    strip: Strip,
)
    requires rows { length values.old ≡ rows * strip.width }
    requires whole { length shards.now ≡ count * strip.size }
    ensures long { length values.new ≡ length values.old }
    ensures strip { HoldStrip R.ZERO count strip.size strip.start strip.width shards.now rows values.new }
{
    for i in 0..rows {
        let place = i * strip.width;
        if i < count {
            copy_words(
                values,
                place,
                shards,
                i * strip.size + strip.start,
                strip.width,
            );
        } else {
            clear_words(values, place, strip.width);
        }
    }
}

// Writes the first rows to a strip of so many shards, from shard `first` on.
pub(crate) fn scatter<R: Stored>(
    values: &[R],
    shards: &mut [R],
    count: usize,
    strip: Strip,
    first: usize,
    taken: usize,
)
    requires whole { length shards.old ≡ count * strip.size }
    requires fit { first + taken ≤ count }
    requires enough { taken * strip.width ≤ length values.now }
    ensures long { length shards.new ≡ length shards.old }
    ensures scattered { AreScattered R.ZERO strip.size strip.start strip.width first taken values.now shards.old shards.new }
{
    for t in 0..taken {
        let place = (first + t) * strip.size + strip.start;
        copy_words(shards, place, values, t * strip.width, strip.width);
    }
}
