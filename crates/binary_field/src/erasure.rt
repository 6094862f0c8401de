//! Erasure codes of up to 65,536 shards by additive transforms, over a level of the tower that the caller names, with their laws.

pub use reed_solomon::{
    TransformCode, TransformCodeError, lost_symbols_are_located,
    lost_symbols_return as lost_shards_return, shards_determine,
};
pub use word_tower::{Bits8, Bits16, Bits32, Bits64, Bits128};
