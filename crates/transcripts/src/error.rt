// Why a call of a challenger failed, and why a search for a witness did.
ghost use Rattle.std.specs.Prelude.{◌≡◌};
ghost use Rattle.transcripts.specs.Grinding.{error_of};
ghost use Rattle.transcripts.specs.declared.error.ChallengerError.TheVariants as challenger_error;
ghost use Rattle.transcripts.specs.declared.error.GrindError.TheVariants as grind_error;

use std::alloc::{AllocError, AllocFailed};
use thiserror::Error;

/// Why a call of a challenger failed.
#[derive(Clone, Copy, Debug, PartialEq, Eq, Error)]
pub enum ChallengerError {
    /// Memory was refused. Where a call of the challenger was refused it, the challenger has failed from then on.
    #[error("out of memory")]
    Memory,
    /// The challenger had failed before: an earlier call was refused memory.
    #[error("the challenger has failed")]
    Failed,
}

impl From<AllocError> for ChallengerError {
    ghost from_gives = { λ _ error. error ≡ challenger_error.Memory };

    fn from(_error: AllocError) -> ChallengerError {
        ChallengerError::Memory
    }
}

/// Why a search for a witness failed, or calls among which is one.
#[derive(Clone, Copy, Debug, PartialEq, Eq, Error)]
pub enum GrindError {
    /// No candidate passes.
    #[error("no candidate passes")]
    NoWitness,
    /// Memory was refused.
    #[error("out of memory")]
    Memory,
    /// The challenger had failed before.
    #[error("the challenger has failed")]
    Failed,
}

impl From<AllocError> for GrindError {
    ghost from_gives = { λ _ error. error ≡ grind_error.Memory };

    fn from(_error: AllocError) -> GrindError {
        GrindError::Memory
    }
}

impl<T: Drop> From<AllocFailed<T>> for GrindError {
    ghost from_gives = { λ _ error. error ≡ grind_error.Memory };

    fn from(_error: AllocFailed<T>) -> GrindError {
        GrindError::Memory
    }
}

impl From<ChallengerError> for GrindError {
    ghost from_gives = { λ refusal error. error ≡ error_of refusal };

    fn from(error: ChallengerError) -> GrindError {
        match error {
            ChallengerError::Memory => GrindError::Memory,
            ChallengerError::Failed => GrindError::Failed,
        }
    }
}
