//! Transcripts over elements of binary fields: the encodings of elements and of seeds, tags of algebras, and the challenger of a field. Every call of the challenger is a list of byte calls of an inner
//! challenger, and what it returns depends on the bytes that are sampled alone.
#![tactic(auto)]

mod algebra;
mod byte_level;
mod calls;
mod challenger;
mod digest;
mod elements;
mod error;
mod field;
mod joined;
mod sample;
mod seeds;
mod tag;
mod witness;

pub use crate::algebra::FieldChallenger;
pub use crate::byte_level::ByteLevel;
pub use crate::calls::{Call, Reply, run_calls};
pub use crate::challenger::BinaryChallenger;
pub use crate::error::TranscriptError;
pub use crate::field::{TranscriptField, TranscriptKernel, WholeLevel};
pub use crate::joined::elements_join;
pub use crate::tag::TypeTag;
