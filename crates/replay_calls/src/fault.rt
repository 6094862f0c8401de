// How a line gets no answer.
use std::alloc::{AllocError, AllocFailed};

/// Why a line has no answer.
#[derive(Drop)]
pub(crate) enum Fault {
    /// The line is no call, or the function does not take its operands.
    Line,
    /// Memory was refused.
    Memory(AllocError),
}

impl From<AllocError> for Fault {
    fn from(error: AllocError) -> Fault {
        Fault::Memory(error)
    }
}

impl<T: Drop> From<AllocFailed<T>> for Fault {
    fn from(refused: AllocFailed<T>) -> Fault {
        Fault::Memory(AllocError::from(refused))
    }
}
