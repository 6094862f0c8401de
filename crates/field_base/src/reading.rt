// Words as `serde` reads them: an integer is the number that stands there.
ghost use Rattle.std.specs.Prelude.{IfOk, List};
ghost use Rattle.serde.specs.Event.{Event};
ghost use Rattle.field_base.specs.Steps.{GivesEach};

mod impls;

use crate::word::Stored;
use serde::{DeserializeOwned, Deserializer, Format};
use std::alloc::Global;

/// A word that says what `serde` read as it. `serde`'s own trait says nothing of that at a type parameter.
pub trait ReadWord: Stored + DeserializeOwned {
    // What stands where the word is read.
    ghost events: { Self → List Event };

    /// The word that stands next. It fails where none stands there, or a number that is too large for it.
    fn read<F: Format>(alloc: Global, from: &mut Deserializer<'_, '_, F>) -> Result<Self, F::Error>
        ensures { IfOk result (λ word. GivesEach F.gives F.stays from.old (events word) from.new) };
}
