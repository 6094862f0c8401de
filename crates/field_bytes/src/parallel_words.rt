// Streams of the words that bytes make, side by side: an item has one word of each stream.
ghost use Rattle.std.specs.Prelude.{◌≡◌, ◌<◌, ◌+◌, ◌*◌, ◌^◌};
ghost use Rattle.std.specs.Iterator.{MakesProgress};
ghost use Rattle.field_bytes.specs.Bytes.{LeavesFewer, TakesCounted};
ghost use Rattle.field_bytes.specs.Words.{GivesWordRow, IsWordRow, StreamsWordRows, can_take_rows, word_row_count};

use crate::little_endian::LittleEndian;
use crate::parallel::{ParallelByteStreams, into_parallel_byte_streams};
use crate::serializable::RawDataSerializable;
use std::marker::PhantomData;

/// The words of `N` streams of bytes side by side, the lowest byte of a word first. Where the bytes end within a word, its missing
/// bytes are 0.
#[derive(Drop)]
pub struct ParallelWordStreams<W, B, const N: usize> {
    rows: B,
    // Whether the iterator has returned None.
    ended: bool,
    words: PhantomData<W>,
}

// The words of the next rows of bytes, the lowest first, as many rows as a word has bytes, and how many there were. Where the
// iterator ends before, the missing bytes are 0.
fn take_words<W: LittleEndian, B: Iterator<Item = [u8; N]>, const N: usize>(
    rows: &mut B,
) -> ([W; N], usize)
    requires { B.can_next rows.old }
    ensures taken { TakesCounted B.next_gives W.SIZE (IsWordRow N W.number result.0) rows.old result.1 rows.new }
    ensures goes_on { result.1 ≡ W.SIZE → B.can_next rows.new }
    ensures ends { LeavesFewer W.SIZE (B.remaining rows.old) result.1 (B.remaining rows.new) }
{
    let mut words = [W::ZERO; N];
    for i in 0..W::SIZE {
        match next_row(rows) {
            Some(bytes) => {
                let before = words;
                for j in 0..N {
                    words[j] = put(before[j], i, bytes[j]);
                }
            }
            None => return (words, i),
        }
    }
    (words, W::SIZE)
}

// The next row of an iterator. A loop that calls `next` itself would have to know that the iterator ends.
#[inline]
fn next_row<T, B: Iterator<Item = T>>(rows: &mut B) -> Option<T>
    requires { B.can_next rows.old }
    ensures steps { B.next_gives rows.old result rows.new }
    ensures goes { MakesProgress B.can_next B.remaining rows.old result rows.new }
{
    rows.next()
}

// A word with one byte more, as its byte `i`.
#[inline]
#[tactic(auto, using(crate::proofs::Rows::byte_fits))]
fn put<W: LittleEndian>(word: W, i: usize, byte: u8) -> W
    requires within { i < W.SIZE }
    requires above { W.number word < 2 ^ (8 * i) }
    ensures fits { W.number result < 2 ^ (8 * (i + 1)) }
    ensures put { W.number result ≡ byte * 2 ^ (8 * i) + W.number word }
{
    word.with_byte(i, byte)
}

impl<W: LittleEndian, B: Iterator<Item = [u8; N]>, const N: usize> Iterator
    for ParallelWordStreams<W, B, N> {
    type Item = [W; N];

    ghost can_next = { can_take_rows B.can_next };

    ghost next_gives = { GivesWordRow B.next_gives W.SIZE W.number };

    ghost remaining = { word_row_count B.remaining };

    fn next(&mut self) -> Option<[W; N]> {
        if self.ended {
            return None;
        }
        let size = W::SIZE;
        let (words, count) = take_words::<W, B, N>(&mut self.rows);
        if count < size {
            self.ended = true;
            if count == 0 {
                return None;
            }
        }
        Some(words)
    }

    fn size_hint(&self) -> (usize, Option<usize>) {
        (0, None)
    }
}

/// The words of the bytes of `N` streams of elements side by side: an item has one word of each stream. Each stream is
/// cut into words as [`into_word_stream`](crate::into_word_stream) does.
pub fn into_parallel_word_streams<
    W: LittleEndian,
    I: Iterator<Item = [E; N]>,
    E: RawDataSerializable,
    const N: usize,
>(elements: I) -> ParallelWordStreams<W, ParallelByteStreams<I, E, N>, N>
    ensures { StreamsWordRows I.can_next I.next_gives I.remaining N E.NUM_BYTES E.repr W.SIZE W.number elements result }
{
    ParallelWordStreams {
        rows: into_parallel_byte_streams(elements),
        ended: false,
        words: PhantomData,
    }
}
