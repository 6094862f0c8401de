// As many words as have 128 bits, as one number, and back.
ghost use Rattle.std.specs.Prelude.{◌≡◌, ◌<◌, ◌≤◌, ◌+◌, ◌*◌, ◌^◌, ℕ, get_or, length};
ghost use Rattle.field_base.specs.Chunks.{chunk};
ghost use Rattle.bit_slices.specs.Layout.{AreKept};

use crate::word::TowerWord;
use field_base::Holds;

// The number whose digits the words from `start` on are, the lowest first.
#[inline(always)]
pub(crate) fn join<R: TowerWord, W: Holds<R>>(words: &[W], start: usize) -> u128
    requires { start + R.COUNT ≤ length words.now }
    ensures { (q : ℕ) → q < R.COUNT → (d : W) → W.number (get_or words.now (start + q) d) ≡ chunk (2 ^ R.LEVEL) q result }
{
    let mut bits = 0;
    for digit in 0..R::COUNT {
        bits += words[start + digit].stored().to_number() << (digit * R::BITS);
    }
    bits
}

// Writes the digits of a number, the lowest first, from word `start` on.
#[inline(always)]
pub(crate) fn split<R: TowerWord, W: Holds<R>>(words: &mut [W], start: usize, bits: u128)
    requires { start + R.COUNT ≤ length words.old }
    ensures digits { (q : ℕ) → q < R.COUNT → (d : W) → W.number (get_or words.new (start + q) d) ≡ chunk (2 ^ R.LEVEL) q bits }
    ensures kept { AreKept start R.COUNT words.old words.new }
{
    for digit in 0..R::COUNT {
        words[start + digit] = W::of_stored(R::of_number(bits >> (digit * R::BITS)));
    }
}
