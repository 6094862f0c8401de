// Written by scripts/make_impls.py; do not edit.
// Streams of words of 32 and of 64 bits, of one iterator of elements and of several side by side.
ghost use Rattle.std.specs.Prelude.{◌≡◌};
ghost use Rattle.field_bytes.specs.Words.{StreamsWordRows, StreamsWords};

use crate::parallel::ParallelByteStreams;
use crate::parallel_words::{ParallelWordStreams, into_parallel_word_streams};
use crate::serializable::RawDataSerializable;
use crate::streams::ByteStream;
use crate::words::{WordStream, into_word_stream};

/// The words of 32 bits of the bytes of elements.
pub type U32Stream<I, E> = WordStream<u32, ByteStream<I, E>>;

/// The words of 32 bits of the bytes of the elements of an iterator, as of [`into_word_stream`].
pub fn into_u32_stream<I: Iterator<Item = E>, E: RawDataSerializable>(
    elements: I,
) -> U32Stream<I, E>
    ensures { StreamsWords I.can_next I.next_gives I.remaining E.NUM_BYTES E.repr 4 (λ w. w) elements result }
{
    into_word_stream(elements)
}

/// The words of 32 bits of the bytes of `N` streams of elements.
pub type ParallelU32Streams<I, E, const N: usize> = ParallelWordStreams<
    u32,
    ParallelByteStreams<I, E, N>,
    N,
>;

/// The words of 32 bits of the bytes of `N` streams of elements side by side, as of [`into_parallel_word_streams`].
pub fn into_parallel_u32_streams<
    I: Iterator<Item = [E; N]>,
    E: RawDataSerializable,
    const N: usize,
>(elements: I) -> ParallelU32Streams<I, E, N>
    ensures { StreamsWordRows I.can_next I.next_gives I.remaining N E.NUM_BYTES E.repr 4 (λ w. w) elements result }
{
    into_parallel_word_streams(elements)
}

/// The words of 64 bits of the bytes of elements.
pub type U64Stream<I, E> = WordStream<u64, ByteStream<I, E>>;

/// The words of 64 bits of the bytes of the elements of an iterator, as of [`into_word_stream`].
pub fn into_u64_stream<I: Iterator<Item = E>, E: RawDataSerializable>(
    elements: I,
) -> U64Stream<I, E>
    ensures { StreamsWords I.can_next I.next_gives I.remaining E.NUM_BYTES E.repr 8 (λ w. w) elements result }
{
    into_word_stream(elements)
}

/// The words of 64 bits of the bytes of `N` streams of elements.
pub type ParallelU64Streams<I, E, const N: usize> = ParallelWordStreams<
    u64,
    ParallelByteStreams<I, E, N>,
    N,
>;

/// The words of 64 bits of the bytes of `N` streams of elements side by side, as of [`into_parallel_word_streams`].
pub fn into_parallel_u64_streams<
    I: Iterator<Item = [E; N]>,
    E: RawDataSerializable,
    const N: usize,
>(elements: I) -> ParallelU64Streams<I, E, N>
    ensures { StreamsWordRows I.can_next I.next_gives I.remaining N E.NUM_BYTES E.repr 8 (λ w. w) elements result }
{
    into_parallel_word_streams(elements)
}
