// Why an element could not be read from bytes.
use thiserror::Error;

/// Why an element could not be read from bytes.
#[derive(Clone, Copy, Debug, PartialEq, Eq, Error)]
pub enum TranscriptError {
    /// There were fewer bytes than an element has.
    #[error("an element has {needed} bytes, and there are {found}")]
    Short {
        /// The bytes of an element.
        needed: usize,
        /// The bytes that there were.
        found: usize,
    },
}
