//! What joins protocols over any field: the low-degree extension of a message by an additive transform, commitments to tables whose values
//! are opened at points, sums of products, and proofs as bytes. It passes on sum-checks and Merkle trees.
#![tactic(auto)]

pub mod commitment_scheme;
pub mod extension;
pub mod interleaved;
pub mod joint_tables;
pub mod laws;
pub mod product_sums;
pub mod proof_bytes;
pub mod tables;

pub use sum_checks::{ProtocolError, statement, sumcheck, terms, zero_check};
pub use transcripts::{caps, commitment, merkle_paths, merkle_tree, openings, queries};
