// A zero-check of tables of four values, over SHA-256: the honest proof is accepted, and one of which a message was changed is refused. A
// proof is accepted if the values of the tables at the challenges meet what `verify_zero` leaves.
use super::challengers::asked::hashed;
use field_base::traits::{Field, TowerLevel};
use field_element::BinaryField128;
use field_slices::evaluate_multilinear;
use protocols::ProtocolError;
use protocols::zero_check::{prove_zero, verify_zero};
use std::alloc::Global;
use transcripts::{CanObserve, CanSample};

type Wide = BinaryField128;

// The value of a table of four values at a point, and 0 at one that has not two coordinates.
fn value_at<F: Field>(table: &[F; 4], point: &[F]) -> F {
    if point.len() != 2 {
        return F::ZERO;
    }
    evaluate_multilinear(table, point)
}

// Whether a verifier that has the tables a, b and a b accepts what was proved of them, after this is added to the first message.
fn is_accepted<F: Field, C: CanObserve<F> + CanSample<F>>(
    alloc: Global,
    prover: &mut C,
    verifier: &mut C,
    a: [F; 4],
    b: [F; 4],
    change: F,
) -> Result<bool, ProtocolError> {
    let c = [a[0] * b[0], a[1] * b[1], a[2] * b[2], a[3] * b[3]];
    let mut proof = prove_zero(alloc, prover, 2, &a, &b, &c)?;
    if let Some(value) = proof.sum.messages.as_mut_slice().first_mut() {
        *value = *value + change;
    }
    let reduced = verify_zero(alloc, verifier, 2, proof.sum.messages.as_slice())?;
    let point = reduced.sum.point.as_slice();
    Ok(reduced.is_met(
        value_at(&a, point),
        value_at(&b, point),
        value_at(&c, point),
    ))
}

// Whether what was proved of the tables 1, 7, 19, 200 and 3, 5, 77, 130 is accepted after this is added to the first message.
fn passes(alloc: Global, change: u128) -> Result<bool, ProtocolError> {
    let mut prover = hashed::<Wide, Global>(Vec::new(alloc));
    let mut verifier = hashed::<Wide, Global>(Vec::new(alloc));
    let a = [
        Wide::from_repr(1),
        Wide::from_repr(7),
        Wide::from_repr(19),
        Wide::from_repr(200),
    ];
    let b = [
        Wide::from_repr(3),
        Wide::from_repr(5),
        Wide::from_repr(77),
        Wide::from_repr(130),
    ];
    is_accepted(
        alloc,
        &mut prover,
        &mut verifier,
        a,
        b,
        Wide::from_repr(change),
    )
}

#[test]
fn an_honest_proof_of_zeros_is_accepted_and_a_changed_one_is_not(rt: HostRuntime) {
    let (honest, changed) = (passes(rt.alloc(), 0), passes(rt.alloc(), 1));
    assert!(rt; honest.is_ok_and(|is| is) && changed.is_ok_and(|is| !is));
}
