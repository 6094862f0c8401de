// Streams of the bytes of many elements.
ghost use Rattle.std.specs.Prelude.{◌≡◌, ◌<◌, ◌≤◌, ◌+◌, ◌*◌, ◌/◌, ◌%◌, ◌^◌, ℕ, Some};
ghost use Rattle.std.specs.Iterator.{IsFinite};
ghost use Rattle.field_bytes.specs.Streams.{byte_count, can_give, GivesByte, GivesFirst, IsRestOf, IsWithin};
ghost use Rattle.field_bytes.specs.Streams.{BeginsBytes, IsBeforeAll, StreamsBytes};
ghost use Rattle.field_bytes.specs.Bytes.{IsWord, LeavesFewer, TakesCounted, low_bytes, number_of_bytes};

use crate::little_endian::LittleEndian;
use crate::reading::{take_word, take_word_apart};
use crate::serializable::RawDataSerializable;

/// A source of bytes that are taken as whole words.
pub trait ByteSource: Iterator<Item = u8> {
    /// The word of the next bytes, the lowest first, as many as a word has, and how many there were. Where the source ends
    /// before, the missing bytes are 0.
    fn take_word<W: LittleEndian>(&mut self) -> (W, usize)
        requires { Self.can_next self.old }
        ensures taken { TakesCounted Self.next_gives W.SIZE (IsWord W.number result.0) self.old result.1 self.new }
        ensures goes_on { result.1 ≡ W.SIZE → Self.can_next self.new }
        ensures ends { LeavesFewer W.SIZE (Self.remaining self.old) result.1 (Self.remaining self.new) };
}

/// The bytes of the elements of an iterator, one element after the other, each from its lowest byte on.
#[derive(Drop)]
pub struct ByteStream<I, E> {
    elements: I,
    // The element that was not yet given whole, and how many of its bytes were given.
    pending: Option<E>,
    given: usize,
    // Whether the iterator has returned None. It is not called again.
    ended: bool,
}

/// What a stream keeps after `given` of an element's `size` bytes: the element and `given`, or None and 0 where it gave all.
#[inline]
pub(crate) fn pending_of<E: Drop>(element: E, given: usize, size: usize) -> (Option<E>, usize)
    requires { given ≤ size }
    ensures within { IsWithin size result.0 result.1 }
    ensures left { (repr : E → ℕ) → IsRestOf size repr element given result.0 result.1 }
{
    if given == size {
        (None, 0)
    } else {
        (Some(element), given)
    }
}

impl<I: Drop, E: RawDataSerializable> ByteStream<I, E> {
    // The next byte of an element whose first `given` bytes were given.
    #[inline]
    fn give(&mut self, element: E) -> u8
        requires { self.old.given < E.NUM_BYTES }
        ensures source { self.new.elements ≡ self.old.elements }
        ensures ended { self.new.ended ≡ self.old.ended }
        ensures within { IsWithin E.NUM_BYTES self.new.pending self.new.given }
        ensures left { GivesFirst E.NUM_BYTES E.repr (Some element) self.old.given result self.new.pending self.new.given }
    {
        let size = E::NUM_BYTES;
        let byte = element.byte(self.given);
        let (pending, given) = pending_of(element, self.given + 1, size);
        self.pending = pending;
        self.given = given;
        byte
    }

    // The next eight bytes, as a word, of an element whose first `given` bytes were given, a multiple of 8. Where none was given,
    // `given` is a literal, so that in the machine code the place of the word is a constant.
    #[inline]
    fn give_wide<W: LittleEndian>(&mut self, element: E, given: usize) -> W
        requires eight { W.SIZE ≡ 8 }
        requires whole { given % 8 ≡ 0 }
        requires within { given + 8 ≤ E.NUM_BYTES }
        ensures source { self.new.elements ≡ self.old.elements }
        ensures ended { self.new.ended ≡ self.old.ended }
        ensures inside { IsWithin E.NUM_BYTES self.new.pending self.new.given }
        ensures word { W.number result ≡ number_of_bytes (low_bytes 8 (E.repr element / 2 ^ (8 * given))) }
        ensures left { IsRestOf E.NUM_BYTES E.repr element (given + 8) self.new.pending self.new.given }
    {
        let size = E::NUM_BYTES;
        let word = W::of_wide(element.wide(given / 8));
        let (pending, after) = pending_of(element, given + 8, size);
        self.pending = pending;
        self.given = after;
        word
    }
}

impl<I: Iterator<Item = E>, E: RawDataSerializable> Iterator for ByteStream<I, E> {
    type Item = u8;

    ghost can_next = { can_give I.can_next E.NUM_BYTES };

    ghost next_gives = { GivesByte I.next_gives E.NUM_BYTES E.repr };

    ghost remaining = { byte_count I.remaining E.NUM_BYTES E.repr };

    fn next(&mut self) -> Option<u8> {
        match self.pending {
            Some(element) => Some(self.give(element)),
            None if self.ended => None,
            None => match self.elements.next() {
                Some(element) => Some(self.give(element)),
                None => {
                    self.ended = true;
                    None
                }
            },
        }
    }
}

impl<I: Iterator<Item = E>, E: RawDataSerializable> ByteSource for ByteStream<I, E> {
    // Words of eight bytes are taken whole from elements of a multiple of eight bytes. Words that begin within an element's word are
    // taken out of line: in line, they hide from the compiler that an element gives its words one after the other.
    #[inline]
    fn take_word<W: LittleEndian>(&mut self) -> (W, usize) {
        if W::SIZE != 8 || E::NUM_BYTES % 8 != 0 {
            return take_word::<W, ByteStream<I, E>>(self);
        }
        match self.pending {
            Some(element) if self.given % 8 == 0 => (self.give_wide(element, self.given), 8),
            Some(_) => take_word_apart::<W, ByteStream<I, E>>(self),
            None if self.ended => (W::ZERO, 0),
            None => match self.elements.next() {
                Some(element) => (self.give_wide(element, 0), 8),
                None => {
                    self.ended = true;
                    (W::ZERO, 0)
                }
            },
        }
    }
}

/// The bytes of the elements of an iterator, one element after the other, each from its lowest byte on. The stream ends where
/// the iterator does, and stays ended.
pub fn into_byte_stream<I: Iterator<Item = E>, E: RawDataSerializable>(
    elements: I,
) -> ByteStream<I, E>
    ensures can { I.can_next elements → can_give I.can_next E.NUM_BYTES result }
    ensures ends { IsFinite (I.remaining elements) → IsFinite (byte_count I.remaining E.NUM_BYTES E.repr result) }
    ensures first { IsBeforeAll elements result }
    ensures items { StreamsBytes I.next_gives E.NUM_BYTES E.repr elements result }
    ensures part { BeginsBytes I.next_gives E.NUM_BYTES E.repr elements result }
{
    ByteStream {
        elements,
        pending: None,
        given: 0,
        ended: false,
    }
}
