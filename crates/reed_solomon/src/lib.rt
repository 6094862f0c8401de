//! Reed-Solomon codes over bytes: of the shards of data and of parity any as many as there are shards of data restore the rest.
//!
//! Erasure codes by additive transforms, over the levels of the tower: of k shards of data and m of parity any k determine the others.
//!
//! Shards of one size stand one after the other in a slice of words, and column `column` has word `column` of each. The symbols of a column
//! are the values of one polynomial at the points that Cantor vectors span, so that an inverse transform of the data and forward ones at
//! the points of the parity encode it (S.-J. Lin, W.-H. Chung and Y. S. Han, Novel polynomial basis and its application to Reed-Solomon
//! erasure codes, 2014): some log k products a symbol, where a code by matrices takes m.
//!
//! Missing shards, no more than there are of parity, are restored by two transforms a column and a derivative between them, and few of them by
//! sums of multiples of the others.
#![tactic(auto)]

mod adding;
mod blocks;
pub mod byte_field;
mod codec;
mod columns;
mod comparing;
mod derivatives;
mod direct;
mod encoding;
mod error;
mod groups;
mod lanes;
mod laws;
mod locators;
mod missing;
mod parity;
mod points;
mod prepared;
mod products;
mod restoring;
mod rows;
mod sample;
mod shard_factors;
pub mod shard_vectors;
mod strips;
mod tables;
mod transform_codec;
mod transform_error;
mod transform_laws;
mod transforms;

pub use crate::byte_field::erasure_field;
pub use crate::codec::ReedSolomon;
pub use crate::error::ReedSolomonError;
pub use crate::laws::{added_shards_encode, changes_are_seen, lost_shards_return};
pub use crate::prepared::PreparedEncoder;
pub use crate::transform_codec::TransformCode;
pub use crate::transform_error::TransformCodeError;
pub use crate::transform_laws::{lost_symbols_are_located, lost_symbols_return, shards_determine};
