// Strips of shards: neighbouring columns that are computed at once, in rows that lie one behind the other.
ghost use Rattle.std.specs.Prelude.{◌≡◌, ◌⊎◌, ◌+◌, ◌*◌, ◌<◌, ◌≤◌};

// So many columns are computed at once where there is space for them: a row of words of 16 bits then fills a line of the cache, and
// several vectors.
const MOST_COLUMNS: usize = 32;

// The `width` columns from column `start` on of shards of a size.
#[derive(Clone, Copy)]
pub(crate) struct Strip {
    pub(crate) size: usize,
    pub(crate) start: usize,
    pub(crate) width: usize,
    ghost some: { 0 < width },
    ghost inside: { start + width ≤ size },
}

// The strip of at most so many columns that begins at `start`.
pub(crate) fn strip_at(size: usize, start: usize, most: usize) -> Strip
    requires left { start < size }
    requires some { 0 < most }
    ensures size { result.size ≡ size }
    ensures start { result.start ≡ start }
    ensures few { result.width ≤ most }
{
    let width = least(most, size - start);
    Strip { size, start, width }
}

// How many columns are computed at once in a space of which one column needs so many words.
pub(crate) fn columns_at_once(space: usize, needed: usize) -> usize
    requires some { 0 < needed }
    requires room { needed ≤ space }
    ensures some { 0 < result }
    ensures room { result * needed ≤ space }
{
    least(MOST_COLUMNS, space / needed)
}

// The lesser of two numbers.
pub(crate) fn least(a: usize, b: usize) -> usize
    ensures first { result ≤ a }
    ensures second { result ≤ b }
    ensures either { (result ≡ a) ⊎ (result ≡ b) }
{
    if a < b { a } else { b }
}
