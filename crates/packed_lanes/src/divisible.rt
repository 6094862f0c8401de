// Rows that are cut into narrower rows.
ghost use Rattle.std.specs.Prelude.{◌≡◌, ◌<◌, ◌+◌, ◌*◌, ◌/◌, ℕ, IfOk, IsTrue, map};
ghost use Rattle.std.specs.List.{flat_map};
ghost use Rattle.field_base.specs.Chunks.{chunk, chunks};
ghost use Rattle.packed_lanes.specs.Parts.{IsWithPart};
ghost use Rattle.packed_lanes.specs.Narrow.{Divides};

use crate::Underlier;
use crate::narrow::{narrow_word, set_narrow_word};
use std::alloc::{AllocError, Allocator};

// The index of word `k` of part `i` among all words of that width.
#[inline]
fn word_of_part<U: Divisible<V>, V: Underlier>(i: usize, k: usize) -> usize
    requires part { i < U.RATIO }
    requires word { k < V.WORD_COUNT }
    ensures value { result ≡ i * V.WORD_COUNT + k }
    ensures inside { V.Word.BITS * result < U.BITS }
    ensures counted { result < U.Word.BITS / V.Word.BITS * U.WORD_COUNT }
{
    i * V::WORD_COUNT + k
}

/// A row of bits that is `RATIO` narrower rows side by side, of which part 0 has the lowest bits.
pub trait Divisible<V: Underlier>: Underlier {
    /// How many parts a row has.
    const RATIO: usize;

    ghost RATIO: { ℕ };

    /// Part `i`. Requires `i` below `RATIO`.
    #[inline]
    final fn part(&self, i: usize) -> V
        requires { i < RATIO }
        ensures value { V.number result ≡ chunk V.BITS i (Self.number self.now) }
        ensures whole { IsTrue (V.is_whole result) }
    {
        let mut part = V::ZERO;
        for k in 0..V::WORD_COUNT {
            part.set_word(k, narrow_word(self, word_of_part::<Self, V>(i, k)));
        }
        part
    }

    /// Writes part `i` and keeps the others. Requires `i` below `RATIO`.
    #[inline]
    final fn set_part(&mut self, i: usize, part: V)
        requires { i < RATIO }
        ensures replaced { IsWithPart V.BITS RATIO (Self.number self.old) i (V.number part) (Self.number self.new) }
        ensures whole { IsTrue (Self.is_whole self.new) }
    {
        let whole = part.checked();
        *self = self.checked();
        for k in 0..V::WORD_COUNT {
            set_narrow_word(self, word_of_part::<Self, V>(i, k), whole.word(k));
        }
    }

    /// The parts of the rows, one row after the other, in a vector from `alloc`. It fails only where the allocator refuses.
    final fn split_copied<A: Allocator>(alloc: A, rows: &[Self]) -> Result<Vec<V, A>, AllocError>
        ensures { IfOk result (λ parts. map V.number parts.items ≡ flat_map (λ x. chunks V.BITS RATIO (Self.number x)) rows.now) }
    {
        let mut parts = Vec::new(alloc);
        for place in 0..rows.len() {
            let row = &rows[place];
            for i in 0..Self::RATIO {
                parts.push(row.part(i))?;
            }
        }
        Ok(parts)
    }

    ghost ratio_law: { Self.BITS ≡ V.BITS * RATIO };

    ghost divides_law: { Divides V.Word.BITS Self.Word.BITS };
}
