// Fields whose elements a challenger observes and samples as bytes.
use field_base::{Gf2, LevelKernel};
use field_bytes::{ShortElement, ShortWord};
use field_element::{Element, HasPacking};

/// A field whose elements have at most 16 bytes, which a challenger observes and samples.
pub trait ByteLevel: ShortElement {}

impl<R: ShortWord, K: LevelKernel<R> + HasPacking<R>> ByteLevel for Element<R, K> {}

impl ByteLevel for Gf2 {}
