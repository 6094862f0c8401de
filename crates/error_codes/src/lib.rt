//! Reed-Solomon codes that correct errors: their laws, their encoder and decoder over bytes, over the field of 16 elements and over any
//! field of up to 65,536 elements, of one word and of many that stand interleaved, binary BCH codes, the shortest shift registers of
//! sequences, and what shares of a secret hide.
//!
//! Shares of a secret: any k of n restore it, and k - 1 of them say nothing of it (A. Shamir, How to share a secret,
//! 1979).
//!
//! Each byte of the secret is the lowest coefficient of a polynomial over a field of 256 elements; its other k - 1
//! coefficients are bytes that the caller draws. A share has the values of these polynomials at its index, a byte
//! other than 0. The value at 0 is the secret. No call takes memory, so that nothing is left in any but the caller's.
//!
//! The bytes of the secret, of the draws and of the shares are masked, shifted and added: no branch and no address
//! goes by them, unless a compiler makes one. Products are by indexes and by factors that follow from indexes, which
//! need not be kept secret. Only where shares are wrong do branches and addresses of `combine_correcting` go by sums
//! of these bytes, its syndromes: they depend on the differences of wrong bytes to right ones, and on nothing else. Who
//! knows the wrong bytes and times the call may learn of the right bytes of these shares.
#![tactic(auto)]

mod binary_bch;
mod check;
mod code;
mod combining;
mod correcting;
mod dual_basis;
mod encoder;
mod error;
mod factors;
mod field_code;
mod interleaved;
mod lanes;
pub mod laws;
mod locating;
mod nibble_code;
mod product;
mod share_laws;
mod sharing_error;
mod shift_registers;
mod splitting;
mod standards;
mod symbols;
mod unmarked;
mod wrong_shares;

pub use crate::binary_bch::BinaryBch;
pub use crate::code::CorrectingCode;
pub use crate::combining::combine;
pub use crate::correcting::Corrected;
pub use crate::dual_basis::{dual_bytes_differ, from_dual_basis, to_dual_basis};
pub use crate::error::{CodeError, TooManyErrors};
pub use crate::field_code::FieldCode;
pub use crate::nibble_code::NibbleCode;
pub use crate::share_laws::{
    byte_shares_are_counted, changed_shares_are_found, shares_hide_string, split_shares_combine,
};
pub use crate::sharing_error::SharingError;
pub use crate::shift_registers::{Register, shortest_register};
pub use crate::splitting::split;
pub use crate::symbols::{SymbolField, WordField};
pub use crate::wrong_shares::combine_correcting;
pub use reed_solomon::byte_field::{ByteField, bytes_are_fields};
