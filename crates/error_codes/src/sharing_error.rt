// Why a secret is not split, or shares are not combined.
use thiserror::Error;

/// Why a call did nothing: what it would write is as before.
#[derive(Clone, Copy, Debug, PartialEq, Eq, Error)]
pub enum SharingError {
    /// One share would be the secret itself.
    #[error("at least two shares have to be needed")]
    TooFewNeeded,
    /// There are fewer shares than are needed.
    #[error("there are fewer shares than are needed")]
    TooFewShares,
    /// An index is a byte other than 0.
    #[error("there are at most 255 shares")]
    TooManyShares,
    /// A secret has at least one byte.
    #[error("the secret is empty")]
    EmptySecret,
    /// For each share that is needed but one, as many bytes are drawn as the secret has.
    #[error("the drawn bytes are too few or too many")]
    WrongDraws,
    /// Each share has as many bytes as the secret.
    #[error("the shares do not have one length")]
    UnequalLengths,
    /// The share at index 0 would be the secret itself.
    #[error("a share has the index 0")]
    ZeroIndex,
    /// Two shares have one index.
    #[error("two shares have one index")]
    EqualIndexes,
    /// There are more shares than are needed, and they are not those of one secret; for `combine_correcting`, which
    /// are wrong cannot be told.
    #[error("a share is wrong, or is of another secret")]
    WrongShare,
}
