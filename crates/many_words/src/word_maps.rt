// Linear maps of words, as many at once as a vector has bytes, by tables in registers: the image of a word is the sum of the entries at its
// digits to base 16. The words stand in planes, and so do the sixteen entries of each table.
ghost use Rattle.std.specs.Prelude.{◌≡◌, ℕ, ◌+◌, ◌*◌, ◌%◌, ◌^◌, ◌<◌, ◌≤◌, [], ◌∷◌};
ghost use Rattle.std.specs.Prelude.{bit_xor, length, map, slice_index};
ghost use Rattle.field_base.specs.LinearMaps.{linear_image};
ghost use Rattle.additive_transforms.specs.Rows.{level_of};
ghost use Rattle.additive_transforms.specs.Units.{FirstAre};
ghost use Rattle.many_words.specs.Maps.{AreTables};

use crate::entries::{Digits, Entries};
use additive_transforms::{WordBytes, WordPlanes};
use field_base::Stored;

/// Writes over each word its image, sixteen words at once, and returns how many: those that fill no vector at the end stay.
#[inline]
pub(crate) fn map_words<
    R: Stored,
    W: WordBytes<R>,
    M,
    S: Entries<M> + Digits<M, M, S> + WordPlanes<R, W, M>,
>(words: &mut [W], tables: &[S]) -> usize
    requires size { W.size ≡ S.Planes.depth }
    requires tables { length tables.now ≡ 2 * 2 ^ S.Planes.depth }
    ensures long { length words.new ≡ length words.old }
    ensures few { result ≤ length words.old }
    ensures rest { length words.old < result + 16 }
    ensures images { (f : ℕ → ℕ) → AreTables S.Planes.lane f 0 tables.now
        → FirstAre result (λ k. f (slice_index (map W.Holds.number words.old) k % 2 ^ 2 ^ level_of S.Planes.depth))
        (map W.Holds.number words.old) (map W.Holds.number words.new) }
{
    let blocks = words.len() / 16;
    for block in 0..blocks {
        let start = 16 * block;
        let mut images = S::zeros();
        S::gather(words, start, 16).add_images(tables, &mut images);
        images.scatter(words, start, 16);
    }
    16 * blocks
}

/// Adds to each sum the image of the word at its place, sixteen words at once, and returns how many: those that fill no vector at the end
/// stay. The slices are of one length, and a word has as many bytes as an element of the planes, and fits it.
#[inline]
pub(crate) fn add_images<
    R: Stored,
    W: WordBytes<R>,
    M,
    S: Entries<M> + Digits<M, M, S> + WordPlanes<R, W, M>,
>(sums: &mut [W], words: &[W], tables: &[S]) -> usize
    requires size { W.size ≡ S.Planes.depth }
    requires tables { length tables.now ≡ 2 * 2 ^ S.Planes.depth }
    requires same { length sums.old ≡ length words.now }
    ensures long { length sums.new ≡ length sums.old }
    ensures few { result ≤ length sums.old }
    ensures rest { length sums.old < result + 16 }
    ensures images { (f : ℕ → ℕ) → AreTables S.Planes.lane f 0 tables.now
        → FirstAre result
        (λ k. bit_xor (slice_index (map W.Holds.number sums.old) k % 2 ^ 2 ^ level_of S.Planes.depth)
        (f (slice_index (map W.Holds.number words.now) k % 2 ^ 2 ^ level_of S.Planes.depth)))
        (map W.Holds.number sums.old) (map W.Holds.number sums.new) }
{
    let blocks = words.len() / 16;
    for block in 0..blocks {
        let start = 16 * block;
        let mut next = S::gather(sums, start, 16);
        S::gather(words, start, 16).add_images(tables, &mut next);
        next.scatter(sums, start, 16);
    }
    16 * blocks
}

/// Writes the tables of the linear map of words of 64 bits that takes bit j to `images[j]`.
pub(crate) fn set_tables<M, S: Entries<M> + WordPlanes<u64, u64, M>>(
    tables: &mut [S],
    images: &[u64; 64],
)
    requires depth { S.Planes.depth ≡ 3 }
    requires count { length tables.old ≡ 16 }
    ensures count { length tables.new ≡ 16 }
    ensures tables { AreTables S.Planes.lane (linear_image images.now) 0 tables.new }
{
    for digit in 0..16 {
        let place = 4 * digit;
        let entries = sums_of_four(
            images[place],
            images[place + 1],
            images[place + 2],
            images[place + 3],
        );
        tables[digit] = S::gather(&entries, 0, 16);
    }
}

// The sums of four images: entry n is the sum of those at the set bits of n.
#[inline(always)]
fn sums_of_four(a: u64, b: u64, c: u64, d: u64) -> [u64; 16]
    ensures sums { (n : ℕ) → n < 16 → slice_index result n ≡ linear_image (a ∷ b ∷ c ∷ d ∷ []) n }
    ensures fit { (n : ℕ) → n < 16 → slice_index result n < 2 ^ 64 }
{
    let low = a ^ b;
    let high = c ^ d;
    [
        0,
        a,
        b,
        low,
        c,
        a ^ c,
        b ^ c,
        low ^ c,
        d,
        a ^ d,
        b ^ d,
        low ^ d,
        high,
        a ^ high,
        b ^ high,
        low ^ high,
    ]
}
