// Why a code cannot be made, or shards cannot be encoded or reconstructed.
use thiserror::Error;

/// Why a call did nothing: the shards are as before.
#[derive(Clone, Copy, Debug, PartialEq, Eq, Error)]
pub enum ReedSolomonError {
    /// A code has at least one shard of data.
    #[error("a code has at least one shard of data")]
    TooFewDataShards,
    /// A code has at least one shard of parity.
    #[error("a code has at least one shard of parity")]
    TooFewParityShards,
    /// A code has at most 256 shards.
    #[error("a code has at most 256 shards")]
    TooManyShards,
    /// There is not one flag for each shard.
    #[error("one flag per shard is required")]
    InvalidShardFlags,
    /// The shards have no bytes.
    #[error("the shards are empty")]
    EmptyShard,
    /// The bytes are not those of shards of one size.
    #[error("the shards must have the same size")]
    IncorrectShardSize,
    /// Fewer shards are present than the data have.
    #[error("too few shards are present")]
    TooFewShardsPresent,
}
