// Fields whose elements are data: hashed, printed, and written as bytes and as numbers.
use crate::serializable::{Packable, RawDataSerializable};
use field_base::traits::Field;
use serde::{DeserializeOwned, Serialize};
use std::fmt::Display;
use std::hash::Hash;

/// A field whose elements generic code can hash, print, write as bytes and as numbers of `serde`, and read back. Every field of
/// the library is one. It has no items of its own: it stands for its supertraits, so that a function names one bound.
pub trait DataField: Field
    + RawDataSerializable
    + Packable
    + Hash
    + Display
    + Serialize
    + DeserializeOwned {}

impl<F> DataField for F
where
    F: Field + RawDataSerializable + Packable + Hash + Display + Serialize + DeserializeOwned,
{}
