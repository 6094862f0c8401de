// Streams of the words that bytes make.
ghost use Rattle.std.specs.Prelude.{◌≡◌, false};
ghost use Rattle.field_bytes.specs.Words.{GivesWord, StreamsWords, can_take, word_count};

use crate::little_endian::LittleEndian;
use crate::serializable::RawDataSerializable;
use crate::streams::{ByteSource, ByteStream, into_byte_stream};
use std::marker::PhantomData;

/// The words of the bytes of an iterator, the lowest byte of a word first. Where the bytes end within a word, its missing bytes
/// are 0.
#[derive(Drop)]
pub struct WordStream<W, B> {
    bytes: B,
    // Whether the iterator has returned None.
    ended: bool,
    words: PhantomData<W>,
}

impl<W: LittleEndian, B: ByteSource> Iterator for WordStream<W, B> {
    type Item = W;

    ghost can_next = { can_take B.can_next };

    ghost next_gives = { GivesWord B.next_gives W.SIZE W.number };

    ghost remaining = { word_count B.remaining };

    fn next(&mut self) -> Option<W> {
        if self.ended {
            return None;
        }
        let size = W::SIZE;
        let (word, count) = self.bytes.take_word::<W>();
        if count < size {
            self.ended = true;
            if count == 0 {
                return None;
            }
        }
        Some(word)
    }
}

/// The words of the bytes of the elements of an iterator: their bytes are joined, one element after the other, and cut into
/// words, the lowest byte first. Where they end within a word, its missing bytes are 0. The stream ends where the iterator does.
pub fn into_word_stream<W: LittleEndian, I: Iterator<Item = E>, E: RawDataSerializable>(
    elements: I,
) -> WordStream<W, ByteStream<I, E>>
    ensures { StreamsWords I.can_next I.next_gives I.remaining E.NUM_BYTES E.repr W.SIZE W.number elements result }
{
    WordStream {
        bytes: into_byte_stream(elements),
        ended: false,
        words: PhantomData,
    }
}
