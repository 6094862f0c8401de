// Places to open, sampled in a transcript after a proof of work.
ghost use Rattle.std.specs.Prelude.{◌≡◌, ◌<◌, false, true, length, IfErr, IfOk, OnOk};
ghost use Rattle.transcripts.specs.Grinding.{FailsSearch, MayGrind};
ghost use Rattle.transcripts.specs.Lists.{InTurn};
ghost use Rattle.transcripts.specs.Queries.{AreBelow, AreQueries};
ghost use Rattle.transcripts.specs.Outcomes.{IsOutcome};
ghost use Rattle.transcripts.specs.declared.error.GrindError.TheVariants.{Memory};

use crate::{CanSampleUniformBits, GrindError, GrindingChallenger};
use std::alloc::Allocator;

/// Searches for a witness of `bits` bits of work, and then samples so many places of `depth` bits, in order: they are below 2^depth where
/// the challenger samples such numbers alone. They may repeat, and each number of `depth` bits is as likely as any other if the bytes that are
/// sampled are. It returns the witness and the places. It fails with
/// `Failed` if a call of the challenger had failed before, which then stays as it is; else with `NoWitness` only if no candidate passes,
/// and with no other error than that and `Memory`.
pub fn draw_queries<
    W: Drop,
    F,
    C: GrindingChallenger<Witness = W> + CanSampleUniformBits<F>,
    A: Allocator,
>(
    alloc: A,
    challenger: &mut C,
    bits: usize,
    depth: usize,
    count: usize,
) -> Result<(W, Vec<usize, A>), GrindError>
    requires work { MayGrind C.witness_bits bits }
    requires depth { depth < 64 }
    ensures count { IfOk result (λ drawn. length drawn.1.items ≡ count) }
    ensures drawn { IfOk result (λ drawn. AreQueries C.passing C.checks C.gives_bits challenger.old bits (C.number drawn.0) true depth
        drawn.1.items challenger.new) }
    ensures below { IfOk result (λ drawn. AreBelow C.gives_bits depth drawn.1.items) }
    ensures answer { IsOutcome (C.has_failed challenger.old) (C.has_failed challenger.new)
        (FailsSearch (C.passing challenger.old bits) C.witness_bits)
        (challenger.new ≡ challenger.old) result }
{
    if challenger.failed() {
        return Err(GrindError::Failed);
    }
    let witness = challenger.grind(bits)?;
    let places = places_of(alloc, challenger, depth, count)?;
    Ok((witness, places))
}

/// Checks a witness of `bits` bits of work, and then samples so many places of `depth` bits, as `draw_queries` does. It returns whether the
/// witness works, and the places. It fails with `Failed` if a call of the challenger had failed before, which then stays as it is, and
/// else only with `Memory`.
pub fn check_queries<
    W: Drop,
    F,
    C: GrindingChallenger<Witness = W> + CanSampleUniformBits<F>,
    A: Allocator,
>(
    alloc: A,
    challenger: &mut C,
    witness: W,
    bits: usize,
    depth: usize,
    count: usize,
) -> Result<(bool, Vec<usize, A>), GrindError>
    requires bits { bits < 64 }
    requires depth { depth < 64 }
    ensures count { IfOk result (λ drawn. length drawn.1.items ≡ count) }
    ensures drawn { IfOk result (λ drawn. AreQueries C.passing C.checks C.gives_bits challenger.old bits (C.number witness) drawn.0 depth
        drawn.1.items challenger.new) }
    ensures below { IfOk result (λ drawn. AreBelow C.gives_bits depth drawn.1.items) }
    ensures answer { IsOutcome (C.has_failed challenger.old) (C.has_failed challenger.new) (λ error. error ≡ Memory)
        (challenger.new ≡ challenger.old) result }
{
    if challenger.failed() {
        return Err(GrindError::Failed);
    }
    let works = challenger.check_witness(bits, witness)?;
    let places = places_of(alloc, challenger, depth, count)?;
    Ok((works, places))
}

// Samples so many numbers of `depth` bits, in order.
fn places_of<F, C: CanSampleUniformBits<F>, A: Allocator>(
    alloc: A,
    challenger: &mut C,
    depth: usize,
    count: usize,
) -> Result<Vec<usize, A>, GrindError>
    requires depth { depth < 64 }
    requires going { C.has_failed challenger.old ≡ false }
    ensures goes_on { OnOk result (C.has_failed challenger.new ≡ false) }
    ensures memory { IfErr result (λ error. error ≡ Memory) }
    ensures count { IfOk result (λ places. length places.items ≡ count) }
    ensures ok { IfOk result (λ places. InTurn (λ old place new. C.gives_bits old depth place new) places.items
        challenger.old challenger.new) }
    ensures below { IfOk result (λ places. AreBelow C.gives_bits depth places.items) }
{
    let mut places = Vec::new(alloc);
    'places: for _ in 0..count {
        let place = challenger.sample_uniform_bits(depth)?;
        places.push(place)?;
    }
    Ok(places)
}
