// Why a code cannot be made, or shards cannot be encoded or restored.
use thiserror::Error;

/// Why a call did nothing: the shards are as before.
#[derive(Clone, Copy, Debug, PartialEq, Eq, Error)]
pub enum TransformCodeError {
    /// A code has at least one shard of data.
    #[error("a code has at least one shard of data")]
    TooFewDataShards,
    /// A code has at least one shard of parity.
    #[error("a code has at least one shard of parity")]
    TooFewParityShards,
    /// The field has fewer points than the code: the shards of data, up to a power of two, and those of parity.
    #[error("the field has too few points for so many shards")]
    TooManyShards,
    /// There is not one flag for each shard.
    #[error("one flag per shard is required")]
    InvalidShardFlags,
    /// The shards have no words.
    #[error("the shards are empty")]
    EmptyShard,
    /// The words are not those of shards of one size.
    #[error("the shards must have the same size")]
    IncorrectShardSize,
    /// Fewer shards are present than the data have.
    #[error("too few shards are present")]
    TooFewShardsPresent,
    /// The space is too short.
    #[error("too little space to compute in")]
    TooLittleSpace,
}
