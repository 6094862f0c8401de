// Why a code cannot be made, and why a word is not corrected.
use thiserror::Error;

/// Why there is no code with these numbers.
#[derive(Clone, Copy, Debug, PartialEq, Eq, Error)]
pub enum CodeError {
    /// A code has at least one symbol of data, and at least one other.
    #[error("a code has symbols of data and others")]
    NoSymbols,
    /// A word has at most 255 symbols, over the field of 16 elements 15, and over a field with words of 16 bits 65,535; and such a field has at
    /// most 65,536 elements.
    #[error("a word has more symbols than its field allows")]
    TooLong,
    /// The powers of the root that belong to the symbols are not different.
    #[error("the order of the root is below the length")]
    RepeatedPoints,
}

/// No code word is so near to a word that the code corrects it to that one.
#[derive(Clone, Copy, Debug, PartialEq, Eq, Error)]
#[error("more symbols are wrong or erased than the code corrects")]
pub struct TooManyErrors;
