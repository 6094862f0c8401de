//! Elements as bytes and as words of other sizes, the lowest byte first.
#![tactic(auto)]

mod bit;
mod data_field;
mod little_endian;
mod numbers;
mod parallel;
mod parallel_words;
mod reading;
mod serializable;
mod short_element;
mod sized_words;
mod streams;
mod words;

pub use crate::data_field::DataField;
pub use crate::little_endian::{LittleEndian, put_byte, read_byte};
pub use crate::numbers::{number_of_high_first, number_of_low_first};
pub use crate::parallel::{ParallelByteStreams, into_parallel_byte_streams};
pub use crate::parallel_words::{ParallelWordStreams, into_parallel_word_streams};
pub use crate::reading::{word_from_iter, word_from_iter_by_ref};
pub use crate::serializable::{Packable, RawDataSerializable};
pub use crate::short_element::{MOST_BYTES, ShortElement, ShortWord};
pub use crate::sized_words::{
    ParallelU32Streams, ParallelU64Streams, U32Stream, U64Stream, into_parallel_u32_streams,
    into_parallel_u64_streams, into_u32_stream, into_u64_stream,
};
pub use crate::streams::{ByteSource, ByteStream, into_byte_stream};
pub use crate::words::{WordStream, into_word_stream};
