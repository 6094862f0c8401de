// Streams of the bytes of elements side by side: an item has one byte of each stream.
ghost use Rattle.std.specs.Prelude.{◌≡◌, ◌<◌, ℕ, Some, slice_index};
ghost use Rattle.std.specs.Iterator.{IsFinite};
ghost use Rattle.field_base.specs.Chunks.{chunk};
ghost use Rattle.field_bytes.specs.Streams.{GivesFirst, IsWithin};
ghost use Rattle.field_bytes.specs.Parallel.{GivesFirstRow, GivesRow, can_give_rows, entry_of_row, row_count};
ghost use Rattle.field_bytes.specs.Parallel.{AreBeforeAll, BeginsByteRows, StreamsByteRows};

use crate::serializable::RawDataSerializable;
use crate::streams::pending_of;

/// The bytes of `N` streams of elements side by side: each item has one byte of each stream, in which the bytes of its elements
/// follow one another, each element from its lowest byte on.
#[derive(Drop)]
pub struct ParallelByteStreams<I, E, const N: usize> {
    elements: I,
    // The row of elements that were not yet given whole, and how many bytes of each were given.
    pending: Option<[E; N]>,
    given: usize,
    // Whether the iterator has returned None. It is not called again.
    ended: bool,
}

impl<I: Drop, E: RawDataSerializable, const N: usize> ParallelByteStreams<I, E, N> {
    // The next byte of each element of a row, of which the first `given` bytes were given.
    #[inline]
    fn give(&mut self, row: [E; N]) -> [u8; N]
        requires { self.old.given < E.NUM_BYTES }
        ensures source { self.new.elements ≡ self.old.elements }
        ensures ended { self.new.ended ≡ self.old.ended }
        ensures within { IsWithin E.NUM_BYTES self.new.pending self.new.given }
        ensures fewer { GivesFirst E.NUM_BYTES (λ x. 0) (Some row) self.old.given 0 self.new.pending self.new.given }
        ensures left { GivesFirstRow N E.NUM_BYTES E.repr row self.old.given result self.new.pending self.new.given }
    {
        let size = E::NUM_BYTES;
        let bytes = bytes_of_row(&row, self.given);
        let (pending, given) = pending_of(row, self.given + 1, size);
        self.pending = pending;
        self.given = given;
        bytes
    }
}

// Byte `place` of each element of a row.
#[inline]
fn bytes_of_row<E: RawDataSerializable, const N: usize>(row: &[E; N], place: usize) -> [u8; N]
    requires { place < E.NUM_BYTES }
    ensures { (j : ℕ) → j < N → slice_index result j ≡ chunk 8 place (entry_of_row E.repr j row.now) }
{
    let mut bytes = [0; N];
    for j in 0..N {
        bytes[j] = row[j].byte(place);
    }
    bytes
}

impl<I: Iterator<Item = [E; N]>, E: RawDataSerializable, const N: usize> Iterator
    for ParallelByteStreams<I, E, N> {
    type Item = [u8; N];

    ghost can_next = { can_give_rows I.can_next E.NUM_BYTES };

    ghost next_gives = { GivesRow I.next_gives N E.NUM_BYTES E.repr };

    ghost remaining = { row_count I.remaining E.NUM_BYTES };

    fn next(&mut self) -> Option<[u8; N]> {
        match self.pending {
            Some(row) => Some(self.give(row)),
            None if self.ended => None,
            None => match self.elements.next() {
                Some(row) => Some(self.give(row)),
                None => {
                    self.ended = true;
                    None
                }
            },
        }
    }

    fn size_hint(&self) -> (usize, Option<usize>) {
        (0, None)
    }
}

/// The bytes of `N` streams of elements side by side, of an iterator that gives an element of each at a time. The streams end
/// where the iterator does, and stay ended. For no streams, `N` of 0, as many empty rows come as for one.
pub fn into_parallel_byte_streams<
    I: Iterator<Item = [E; N]>,
    E: RawDataSerializable,
    const N: usize,
>(elements: I) -> ParallelByteStreams<I, E, N>
    ensures can { I.can_next elements → can_give_rows I.can_next E.NUM_BYTES result }
    ensures ends { IsFinite (I.remaining elements) → IsFinite (row_count I.remaining E.NUM_BYTES result) }
    ensures first { AreBeforeAll elements result }
    ensures items { StreamsByteRows I.next_gives E.NUM_BYTES E.repr elements result }
    ensures part { BeginsByteRows I.next_gives E.NUM_BYTES E.repr elements result }
{
    ParallelByteStreams {
        elements,
        pending: None,
        given: 0,
        ended: false,
    }
}
