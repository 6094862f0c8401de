//! Reed-Solomon codes over vectors of bytes, of which some are missing.
mod error;
mod parts;
mod restore;

pub use crate::shard_vectors::error::ShardVectorError;
pub use crate::shard_vectors::restore::{reconstruct, reconstruct_data};
