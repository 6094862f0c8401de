// What a proof says of a sum of the products of two tables, over any field and in any transcript of it.
ghost use Rattle.std.specs.Prelude.{◌≡◌, ◌+◌, ◌*◌, ◌^◌, ◌<◌, ◌≤◌, false, length, IfErr, IfOk, OnOk};
ghost use Rattle.sum_checks.specs.declared.error.ProtocolError.TheVariants.{Memory};
ghost use Rattle.prove_sums.specs.Verdicts.{IsReducedClaim};

use crate::shapes::part;
use field_base::traits::Field;
use protocols::ProtocolError;
use protocols::product_sums::reduce_sum;
use protocols::sumcheck::Reduced;
use std::alloc::Global;
use transcript_elements::FieldChallenger;

/// Reduces the claim that the first element of a proof is the sum of the products of two tables of 2^rounds elements: by the messages that
/// follow it, to a claim at a point. It fails as `sumcheck::verify` does: where the field has at least 2^3 elements, and more than there are
/// rounds, in a transcript that has not failed, only if memory was refused.
pub fn reduce<F: Field, C: FieldChallenger<F>>(
    alloc: Global,
    challenger: &mut C,
    rounds: usize,
    elements: &[F],
) -> Result<Reduced<F, Global>, ProtocolError>
    requires { 2 * rounds + 1 ≤ length elements.now }
    ensures reduced { IfOk result (λ reduced. IsReducedClaim C.observes C.gives F.repr F.width F.product rounds elements.now
        challenger.old reduced.point.items (F.repr reduced.claim) challenger.new) }
    ensures goes_on { OnOk result (C.has_failed challenger.new ≡ false) }
    ensures memory { 3 ≤ F.width → rounds < 2 ^ F.width → C.has_failed challenger.old ≡ false → IfErr result (λ error. error ≡ Memory) }
{
    let messages = part(elements, 1, 2 * rounds);
    let reduced = reduce_sum(alloc, challenger, rounds, elements[0], messages)?;
    Ok(reduced)
}
