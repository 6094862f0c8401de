//! How a run fails.
ghost use Rattle.std.specs.Prelude.{◌≡◌};
ghost use Rattle.calculator.specs.RunError.{fault_line};

use thiserror::Error;

/// Why a run ended before its last line was answered.
#[derive(Clone, Copy, Debug, PartialEq, Eq, Error)]
pub enum RunError {
    /// The reader failed.
    #[error("cannot read")]
    Read,
    /// The writer failed.
    #[error("cannot write")]
    Write,
    /// An allocation for a line failed.
    #[error("out of memory")]
    Memory,
}

impl RunError {
    /// The line that the program prints for the fault, with its line feed.
    pub fn line(&self) -> &'static str
        ensures { result.now ≡ fault_line self.now }
    {
        match self {
            RunError::Read => "binfield: cannot read\n",
            RunError::Write => "binfield: cannot write\n",
            RunError::Memory => "binfield: out of memory\n",
        }
    }
}
