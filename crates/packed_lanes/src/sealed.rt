// The marker that keeps words and blocks to those of this crate.

/// A word or a block of this crate.
pub trait Sealed {}
