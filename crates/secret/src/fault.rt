// Why no secret is combined.
ghost use Rattle.std.specs.Prelude.{◌≡◌};
ghost use Rattle.secret.specs.declared.fault.Fault.TheVariants.{Memory};

use error_codes::SharingError;
use std::alloc::{AllocError, AllocFailed};
use thiserror::Error;

/// Why there is no secret. A line is counted from 1.
#[derive(Clone, Copy, Debug, Error)]
pub(crate) enum Fault {
    /// A line does not begin as a share does, or is too short for one.
    #[error("line {0} is no share")]
    NoShare(usize),
    /// The digits of a line, or its check sum, are wrong.
    #[error("the share in line {0} is mistyped: its check sum is another")]
    Mistyped(usize),
    /// A line is a share of another secret than the first.
    #[error("the share in line {0} is of another set than the first")]
    OtherSet(usize),
    /// There is no share.
    #[error("there is no share")]
    Nothing,
    /// The shares are not combined.
    #[error("{0}")]
    Sharing(SharingError),
    /// Memory was refused.
    #[error("out of memory")]
    Memory,
}

impl From<AllocError> for Fault {
    ghost from_gives = { λ _ fault. fault ≡ Memory };

    fn from(_error: AllocError) -> Fault {
        Fault::Memory
    }
}

impl<T: Drop> From<AllocFailed<T>> for Fault {
    ghost from_gives = { λ _ fault. fault ≡ Memory };

    fn from(_error: AllocFailed<T>) -> Fault {
        Fault::Memory
    }
}
