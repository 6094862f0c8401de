//! The functions of the library that other languages call. A slice is a pointer and a length; a word of 8 to 64 bits is one
//! number, one of 128 bits is two of 64, low half first, and one of 192 bits three, the coefficient of 1 first. Each function
//! returns a status, and no call has a condition that its caller could break.
#![tactic(auto)]

mod binary_codes;
mod bit_matrices;
mod changes;
mod chosen;
mod codes;
mod erasure;
mod field_codes;
mod field_matrices;
mod g128;
mod gf2;
mod linear;
mod lines;
mod messages;
mod p192;
mod p64;
mod r8;
mod secrets;
mod shards;
mod t128;
mod t16;
mod t2;
mod t32;
mod t4;
mod t64;
mod t8;
mod transforms;
mod version;
mod wide;
