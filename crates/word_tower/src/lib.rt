//! The levels of Wiedemann's tower of fields, GF(2) to GF(2^128), by their arithmetic on words. Each level adjoins to the
//! one below a root X of X² + t X + 1, where t is the root adjoined below, and 1 over GF(2).
#![tactic(auto)]

mod extension;
mod level;
mod levels;
pub mod quadratic;
mod subfields;
mod tower;

pub use crate::extension::Extension;
pub use crate::level::Level;
pub use crate::levels::{Bits1, Bits2, Bits4, Bits8, Bits16, Bits32, Bits64, Bits128};
pub use crate::subfields::LiesIn;
pub use crate::tower::Tower;
