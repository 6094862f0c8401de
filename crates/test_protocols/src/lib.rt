//! Tests of transcripts and protocols, and examples of programs over `binary_field` and `protocols`. Challengers of elements: scripts and
//! searches with the answers of the Rust crate p3-binary-field 0.8.0, doubles that refuse, and memory that is refused. Code words by the
//! transform; openings of Merkle trees, of many rows and of tables by columns; provers of sum-check and of
//! zero-checks, honest and cheating.
//!
//! All of it is for tests alone: a crate that names `binary_field` loads every crate below it, once for its functions and once more for
//! its tests. The crate has nothing to call.
#![tactic(auto)]

#[cfg(test)]
mod examples;
#[cfg(test)]
mod tests;
