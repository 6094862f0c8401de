// Three words as `serde` reads them: an array of three numbers.
ghost use Rattle.std.specs.Prelude.{IfOk};
ghost use Rattle.serde.specs.Event.{unsigned};
ghost use Rattle.serde.specs.Steps.{Begins};
ghost use Rattle.field_base.specs.Steps.{GivesEach};
ghost use Rattle.word_polynomial.specs.Triple.{events_of};

use crate::triple::Triple;
use serde::{Deserializer, Format};

impl Triple {
    /// The three words that stand next, as an array of three numbers. It fails where no such array stands there.
    pub fn read<F: Format>(from: &mut Deserializer<'_, '_, F>) -> Result<Triple, F::Error>
        ensures { IfOk result (λ words. GivesEach F.gives F.stays from.old (events_of words) from.new) }
    {
        from.begin_seq()?;
        let c0 = read_item(from)?;
        let c1 = read_item(from)?;
        let c2 = read_item(from)?;
        from.expect_end()?;
        Ok(Triple { c0, c1, c2 })
    }
}

// The number that stands next in an array.
#[tactic(auto, using(crate::proofs::LooksAhead::number_after_a_look))]
fn read_item<F: Format>(from: &mut Deserializer<'_, '_, F>) -> Result<u64, F::Error>
    ensures { IfOk result (λ number. Begins F.gives F.stays from.old (unsigned number) from.new) }
{
    from.expect_item()?;
    from.u64()
}
