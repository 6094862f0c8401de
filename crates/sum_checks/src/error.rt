// Why a protocol stopped.
ghost use Rattle.std.specs.Prelude.{◌≡◌};
ghost use Rattle.sum_checks.specs.Refusals.{error_of_call, error_of_search};
ghost use Rattle.sum_checks.specs.declared.error.ProtocolError.TheVariants.{Memory};

use std::alloc::{AllocError, AllocFailed};
use thiserror::Error;
use transcripts::{ChallengerError, GrindError};

/// Why a protocol stopped.
#[derive(Clone, Copy, Debug, Error)]
pub enum ProtocolError {
    /// Memory was refused.
    #[error("out of memory")]
    Memory,
    /// A call of the challenger failed.
    #[error("the challenger has failed")]
    Challenger,
    /// A count, a factor or the field is out of range.
    #[error("a count, a factor or the field is out of range")]
    Shape,
    /// The proof has another number of messages, or of values.
    #[error("the proof has another length")]
    Length,
    /// No element is a witness of the work.
    #[error("no witness found")]
    NoWitness,
}

impl From<AllocError> for ProtocolError {
    ghost from_gives = { λ _ error. error ≡ Memory };

    fn from(_error: AllocError) -> ProtocolError {
        ProtocolError::Memory
    }
}

impl<T: Drop> From<AllocFailed<T>> for ProtocolError {
    ghost from_gives = { λ _ error. error ≡ Memory };

    fn from(_error: AllocFailed<T>) -> ProtocolError {
        ProtocolError::Memory
    }
}

impl From<ChallengerError> for ProtocolError {
    ghost from_gives = { λ refusal error. error ≡ error_of_call refusal };

    fn from(error: ChallengerError) -> ProtocolError {
        ProtocolError::from(GrindError::from(error))
    }
}

impl From<GrindError> for ProtocolError {
    ghost from_gives = { λ refusal error. error ≡ error_of_search refusal };

    fn from(error: GrindError) -> ProtocolError {
        match error {
            GrindError::Memory => ProtocolError::Memory,
            GrindError::Failed => ProtocolError::Challenger,
            GrindError::NoWitness => ProtocolError::NoWitness,
        }
    }
}
