//! Transcripts: what is observed and what is sampled, by traits; a recorder of what was observed; digests and caps as they are observed;
//! challengers over bytes, and one over a hash function.
//!
//! Commitments by Merkle trees over any hash function: trees over words and over rows of bytes, paths to the root and to a cap, openings
//! of many rows at once, and provers and verifiers that open places which a transcript gives after a proof of work.
#![tactic(auto)]

mod byte_challenger;
mod byte_runs;
pub mod caps;
pub mod commitment;
mod digest;
mod digests;
mod error;
mod grinding;
mod guarded;
mod hash_challenger;
mod hasher;
pub mod merkle_paths;
pub mod merkle_tree;
mod observe;
pub mod openings;
pub mod queries;
mod recorder;
mod sample;
mod sample_bits;
mod verdicts;

pub use crate::byte_challenger::{ByteChallenger, runs_join};
pub use crate::byte_runs::{observe_bytes, sample_bytes, sample_u64};
pub use crate::digest::{Digest, DigestWord, Hash, MerkleCap};
pub use crate::error::{ChallengerError, GrindError};
pub use crate::grinding::GrindingChallenger;
pub use crate::guarded::Guarded;
pub use crate::hash_challenger::HashChallenger;
pub use crate::hasher::{ByteHasher32, Sha256Hasher};
pub use crate::observe::{CanObserve, Transcript};
pub use crate::recorder::Recorder;
pub use crate::sample::{CanSample, SampleArray};
pub use crate::sample_bits::{CanSampleBits, CanSampleUniformBits};
pub use crate::verdicts::both;
