// Why shards in vectors are not restored.
use thiserror::Error;

/// Why a call did nothing: the shards are as before.
#[derive(Clone, Copy, Debug, PartialEq, Eq, Error)]
pub enum ShardVectorError {
    /// There are fewer shards than the code has.
    #[error("too few shards for the code")]
    TooFewShards,
    /// There are more shards than the code has.
    #[error("too many shards for the code")]
    TooManyShards,
    /// The shards that are present are not of one size.
    #[error("the shards must have the same size")]
    IncorrectShardSize,
    /// Fewer shards are present than the data have.
    #[error("too few shards are present")]
    TooFewShardsPresent,
    /// The shards have no bytes.
    #[error("the shards are empty")]
    EmptyShard,
    /// Memory was refused.
    #[error("out of memory")]
    Memory,
}
