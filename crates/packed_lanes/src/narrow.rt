// Words of a row that are no wider than the words that the row is stored in.
ghost use Rattle.std.specs.Prelude.{◌≡◌, ◌<◌, ◌≤◌, ◌+◌, ◌*◌, ◌/◌, ◌%◌, ◌^◌, IsTrue};
ghost use Rattle.field_base.specs.Chunks.{chunk};
ghost use Rattle.packed_lanes.specs.Parts.{IsWithPart};
ghost use Rattle.packed_lanes.specs.Narrow.{Divides};

use crate::{Underlier, Word, with_field};

// The word of the row in which narrow word `index` lies, and its first bit there.
#[inline]
fn narrow_place<U: Underlier, W: Word>(index: usize) -> (usize, u32)
    requires divides { Divides W.BITS U.Word.BITS }
    requires inside { W.BITS * index < U.BITS }
    ensures word { result.0 ≡ index / (U.Word.BITS / W.BITS) }
    ensures inside { result.0 < U.WORD_COUNT }
    ensures start { result.1 ≡ W.BITS * (index % (U.Word.BITS / W.BITS)) }
    ensures fits { result.1 + W.BITS ≤ U.Word.BITS }
{
    let in_word = (<U::Word as Word>::BITS / W::BITS) as usize;
    let place = (index % in_word) as u32;
    (index / in_word, W::BITS * place)
}

/// The row's narrow word `index`, counted from the lowest. Requires that a word of the row is a whole number of narrow words,
/// and that the row has this one.
#[inline]
pub fn narrow_word<U: Underlier, W: Word>(row: &U, index: usize) -> W
    requires divides { Divides W.BITS U.Word.BITS }
    requires inside { W.BITS * index < U.BITS }
    ensures { W.number result ≡ chunk W.BITS index (U.number row.now) }
{
    let (i, start) = narrow_place::<U, W>(index);
    let word = row.word(i);
    W::from_u64((word >> start).to_u64())
}

/// Writes the row's narrow word `index`, counted from the lowest, and keeps the others. Requires that a word of the row is a
/// whole number of narrow words, and that the row has this one.
#[inline]
pub fn set_narrow_word<U: Underlier, W: Word>(row: &mut U, index: usize, word: W)
    requires divides { Divides W.BITS U.Word.BITS }
    requires inside { W.BITS * index < U.BITS }
    ensures replaced { IsWithPart W.BITS (U.Word.BITS / W.BITS * U.WORD_COUNT) (U.number row.old) index (W.number word) (U.number row.new) }
    ensures whole { IsTrue (U.is_whole row.new) }
{
    let (i, start) = narrow_place::<U, W>(index);
    let old = row.word(i);
    let value = <U::Word as Word>::from_u64(word.to_u64());
    row.set_word(i, with_field(old, start, W::BITS, value));
}
