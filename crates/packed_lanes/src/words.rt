// The machine words that are words of rows, and rows of one word.
ghost use Rattle.std.specs.Prelude.{◌≡◌, map};
ghost use Rattle.field_base.specs.Chunks.{chunks};

mod impls;

use crate::word::Word;
use std::slice;

// A word as the slice of the words of a row of one word.
#[inline]
fn only_word<W: Word>(word: &W) -> &[W]
    ensures { map W.number result.now ≡ chunks W.BITS 1 (W.number word.now) }
{
    let _fits = word.to_u64();
    slice::from_ref(word)
}
