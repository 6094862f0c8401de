// Levels of the tower inside wider levels: an element stays its number, with zeros above.
ghost use Rattle.std.specs.Prelude.{◌≤◌};

mod impls;

use crate::level::Level;
use field_base::{LevelKernel, Unsigned};

/// A level of the tower that lies inside the field `K`, in the basis of the field. Operators between the two replace the element
/// of the level by its image. The marker stands for the pairs between which the library converts.
pub trait LiesIn<R: Unsigned, K: LevelKernel<R>, S: Unsigned>: Level<S> {
    ghost lies_law: { Self.LEVEL ≤ K.LOG_BITS };
}
