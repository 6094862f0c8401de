//! The universal hashes of two authenticated ciphers: GHASH (NIST SP 800-38D) and POLYVAL (RFC 8452).
//!
//! A message is hashed by blocks of 16 bytes. A hash takes it in pieces of any length: what it gives depends on the bytes alone,
//! and not on where they were cut.
#![tactic(auto)]

mod absorber;
mod blocks;
mod compare;
mod encoding;
mod gcm;
mod interleaved;
mod laws;
mod reversal;
mod short;
mod state;
mod universal;

pub use crate::compare::tags_are_equal;
pub use crate::encoding::{Encoding, HighestFirst, LowestFirst};
pub use crate::gcm::{gcm_ghash, gcm_ghash_in_vectors, gcm_siv_polyval};
pub use crate::laws::{few_keys_collide, gcm_is_message, parts_are_encoded, products_are_reversed};
pub use crate::short::hash_of;
pub use crate::state::HashState;
pub use crate::universal::{Ghash, KeyedHash, Polyval, UniversalHash};
