//! Packings: values of several lanes, the rings whose operations go lane by lane, and packings of N elements of any field above
//! GF(2).
//!
//! Words, blocks of words, and the parts of either: rows of 8 to 512 bits, each of which stands for one number.
#![tactic(auto)]

mod bits;
mod block;
mod divisible;
mod draws;
mod narrow;
mod packed;
mod packing;
mod pairs;
mod rows;
mod sealed;
mod underlier;
mod word;
mod words;

pub use crate::bits::{
    even_word, field, interleave_word, join_even_blocks, join_odd_blocks, with_field,
};
pub use crate::block::{Block, M128, M256, M512};
pub use crate::divisible::Divisible;
pub use crate::draws::random_into;
pub use crate::narrow::{narrow_word, set_narrow_word};
pub use crate::packed::{Laned, Packed, WiderField};
pub use crate::packing::{PackedField, PackedFieldPow2, PackedValue};
pub use crate::rows::{bits_and, bits_xor, count_bits, interleave_words};
pub use crate::underlier::Underlier;
pub use crate::word::Word;
