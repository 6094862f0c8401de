//! The calls of other languages: on slices of words over any field, over words of 128 bits in the field of GHASH, the values of
//! transforms and linear maps, messages, shards, shares of secrets and lines of text, in the modules `fields`, `field_elements` and
//! `moduli` over fields that the caller chooses, in `matrices`, `field_matrices` and `bit_matrices` on matrices of words and of packed
//! bits, and in `codes`, `interleaved_codes`, `field_codes` and `binary_codes` on words of codes that correct errors. A call compares
//! the lengths, refuses words that are no elements, and returns a status. On every status but `OK` what it would have written is as
//! before; what it works in is lost. None takes memory.
#![tactic(auto)]

pub mod binary_codes;
pub mod bit_matrices;
pub mod byte_matrices;
mod chosen_words;
pub mod codes;
mod erasure;
pub mod field_codes;
pub mod field_elements;
pub mod field_matrices;
mod field_operations;
mod field_words;
pub mod fields;
pub mod in_place;
pub mod interleaved_codes;
mod linear;
mod lines;
mod low_bits;
mod many;
pub mod matrices;
mod messages;
pub mod moduli;
mod numbers;
pub mod operations;
mod scalars;
mod secrets;
mod shapes;
mod shards;
pub mod slices;
pub mod status;
mod transforms;
mod values;
mod wide;
mod words;

pub use crate::chosen_words::ChosenWords;
pub use crate::erasure::{erasure_encode, erasure_reconstruct, erasure_space, erasure_verify};
pub use crate::field_words::ChosenField;
pub use crate::linear::{map_bytes, map_wide};
pub use crate::lines::answer_line;
pub use crate::many::{
    add_scaled, batch_invert, dot_product, invert, invert_in_place, multiply, multiply_by,
    multiply_by_in_place, multiply_in_place, raise, raise_in_place,
};
pub use crate::messages::{
    gcm_ghash, gcm_hash_end, hash, hash_begin, hash_end, hash_pad, hash_update, tags_are_equal,
};
pub use crate::scalars::{ScalarWords, Words};
pub use crate::secrets::{combine_shares, correct_shares, split_secret};
pub use crate::shards::{
    add_multiple, add_shard, encode, encode_prepared, factors_of, prepare, prepare_reconstruct,
    reconstruct, reconstruct_data, reconstruct_data_prepared, reconstruct_prepared, tables_length,
    verify, verify_prepared,
};
pub use crate::transforms::{
    butterfly_forward, butterfly_inverse, inverse_transform, inverse_transform_level, low_stages,
    transform, transform_level,
};
pub use crate::values::evaluate;
pub use crate::wide::Wide;
pub use crate::words::Cubic;
pub use field_base::Holds;
pub use many_words::{ChangeOfBasis, FromTower, ToTower};
pub use tags::HashState;
pub use word_polynomial::{CubicKernel, GhashKernel, Poly64Kernel, RijndaelKernel, Triple};
pub use word_tower::{Bits1, Bits2, Bits4, Bits8, Bits16, Bits32, Bits64, Bits128, Tower};
