//! The sum-check protocol over any field, for sums of products of multilinear polynomials, and zero-checks by it.
//!
//! A prover and a verifier share a transcript: a challenger that observes what is sent and samples the challenges (A. Fiat and A. Shamir,
//! How to prove yourself, 1986).
#![tactic(auto)]

mod columns;
mod error;
pub mod laws;
pub mod statement;
pub mod sumcheck;
pub mod terms;
pub mod zero_check;

pub use crate::error::ProtocolError;
