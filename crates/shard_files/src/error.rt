// Why shards are not written or a file is not restored.
ghost use Rattle.std.specs.Prelude.{◌≡◌};
ghost use Rattle.shard_files.specs.declared.error.RepairError.TheVariants.{Join, Split};

use std::io;
use thiserror::Error;

/// Why a file is not restored.
#[derive(Clone, Copy, Debug, PartialEq, Eq, Error)]
pub enum JoinError {
    /// Fewer shards are at hand in a stripe than the data have.
    #[error("too few shards are whole")]
    TooFew,
    /// What the shards give is not the file whose identity their heads name.
    #[error("the shards give other bytes than those of the file that their heads name")]
    OtherBytes,
    /// Memory was refused.
    #[error("out of memory")]
    Memory,
    /// The bytes could not be written.
    #[error("its bytes cannot be written")]
    CannotWrite,
}

/// Why the shards of a file are not written.
#[derive(Debug, Drop, Error)]
pub enum SplitError {
    /// Memory was refused.
    #[error("out of memory")]
    Memory,
    /// The file has not the bytes that it had when its identity was computed.
    #[error("it was changed while it was read")]
    Changed,
    /// The file could not be read.
    #[error("it cannot be read: {0}")]
    CannotRead(io::Error),
    /// The file of a shard could not be written.
    #[error("{0}")]
    CannotWrite(io::Error),
}

/// Why shards of a file are not written again.
#[derive(Debug, Drop, Error)]
pub enum RepairError {
    /// They are not restored.
    #[error("{0}")]
    Join(JoinError),
    /// They are not written.
    #[error("{0}")]
    Split(SplitError),
}

impl From<JoinError> for RepairError {
    ghost from_gives = { λ error made. made ≡ Join error };

    fn from(error: JoinError) -> RepairError {
        RepairError::Join(error)
    }
}

impl From<SplitError> for RepairError {
    ghost from_gives = { λ error made. made ≡ Split error };

    fn from(error: SplitError) -> RepairError {
        RepairError::Split(error)
    }
}
