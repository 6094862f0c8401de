//! Definitions of binary fields that every crate above shares, with their laws; the traits that they give a meaning, and the field of two
//! elements, with integers as its elements and back.
#![tactic(auto)]

pub mod byte_tables;
mod decimal;
mod gf2;
mod integer;
mod kernel;
pub mod laws;
pub mod log_tables;
mod prime;
mod reading;
mod reads;
pub mod traits;
mod word;

pub use crate::decimal::write_decimal;
pub use crate::gf2::Gf2;
pub use crate::integer::Integer;
pub use crate::kernel::{Contains, FieldKernel, Joins, LevelKernel};
pub use crate::prime::{PrimeField, PrimeField32, PrimeField64, QuotientMap};
pub use crate::reading::ReadWord;
pub use crate::reads::{Holds, Reads};
pub use crate::word::{Stored, Unsigned};
