//! Tests of what no contract says of fields, packings, packed bits, vectors over smaller fields, texts and transforms, and of what works on
//! bytes: memory that is granted or refused, closures whose calls are counted, texts, JSON, types by their names, runs of lines over readers,
//! writers and allocators that fail, byte challengers over doubles that refuse, the memory of codes, and files of shards in memory. Numbers that
//! others published stand here where no other language can call what they are about: the digests of FIPS 180-4, the hash of AES-GCM-SIV of
//! RFC 8452, and a word of telemetry in the dual basis. The others are lines of `binfield` and `replay_calls`, and of the tests of the C library.
//!
//! What tests of other crates share can be called: calls that take memory, each of whose growths is refused in turn (a call is made in a
//! heap that has no room, then in one with a little more, and so on, until it is granted), doubles of byte challengers (they sample one
//! byte always, refuse the calls that they are told to refuse, and note what they and their copies have seen), numbers that are drawn from a
//! seed, and what was printed.
#![tactic(auto)]

mod doubles;
mod drawn;
mod in_turn;
#[cfg(test)]
mod tests;
mod texts;

pub use crate::doubles::{Copies, Double, Seen};
pub use crate::drawn::{fill, fill_bytes, next_number, next_word};
pub use crate::in_turn::{Ending, Growing, Rest, is_refused_in_turn, refusals_of};
pub use crate::texts::is_text;
