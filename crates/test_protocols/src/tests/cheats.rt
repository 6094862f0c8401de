// Provers of sum-check that cheat, over SHA-256. A proof is accepted if the claim that `verify` leaves is the value of the terms at the
// point, by the tables that the verifier has.
//
// - Honest messages for another claim; a message that gives another sum, of the first, the second and the third round; tables that differ
//   at one corner; terms of which one coefficient differs; a proof that is replayed in another transcript: refused.
// - Over a field of 256 elements, a message for a false sum whose challenge is a root of what it differs by from the honest one: accepted,
//   as about one message of 256 is. No claim of a sum over that field is turned away unread.
use super::challengers::asked::hashed;
use field_base::traits::{PrimeCharacteristicRing, TowerLevel};
use field_element::{BinaryField8, BinaryField128};
use field_slices::evaluate_multilinear;
use protocols::ProtocolError;
use protocols::sumcheck::{prove, verify};
use protocols::terms::{Term, are_within, cube_sum, terms_at};
use std::alloc::{AllocError, Global};
use std::test::Fail;

type Wide = BinaryField128;

type Byte = BinaryField8;

// What the verifier has that the prover had not.
#[derive(Clone, Copy)]
enum Cheat {
    Nothing,
    Claim,
    Message(usize),
    Corner(usize),
    Coefficient,
    Transcript,
}

static CHEATS: [(Cheat, bool); 10] = [
    (Cheat::Nothing, true),
    (Cheat::Claim, false),
    (Cheat::Message(0), false),
    (Cheat::Message(4), false),
    (Cheat::Message(8), false),
    (Cheat::Corner(0), false),
    (Cheat::Corner(22), false),
    (Cheat::Corner(31), false),
    (Cheat::Coefficient, false),
    (Cheat::Transcript, false),
];

// Rows of four tables in three coordinates: value i is the element 7 i + 1.
fn rows() -> [Wide; 32] {
    let mut rows = [Wide::ZERO; 32];
    for place in 0..32usize {
        rows[place] = Wide::from_repr(7 * place as u128 + 1);
    }
    rows
}

// The terms a b c + 3 a d of tables a, b, c and d, with another coefficient in the place of 3.
fn terms(coefficient: u128) -> Option<[Term<Wide>; 2]> {
    let first = Term::new(Wide::ONE, &[0, 1, 2])?;
    let second = Term::new(Wide::from_repr(coefficient), &[0, 3])?;
    Some([first, second])
}

// The sum of the terms, and an honest prover's messages.
fn honest(alloc: Global, terms: &[Term<Wide>]) -> Result<(Wide, Vec<Wide>), ProtocolError> {
    if !are_within(terms, 4) {
        return Err(ProtocolError::Shape);
    }
    let mut rows = rows();
    let claim = cube_sum(terms, &rows, 4, 3);
    let mut prover = hashed::<Wide, Global>(Vec::new(alloc));
    let proven = prove(alloc, &mut prover, &mut rows, 3, 4, terms, claim)?;
    Ok((claim, proven.messages))
}

// The value of a table at a point of three coordinates.
fn value_at(rows: &[Wide; 32], table: usize, point: &[Wide]) -> Wide {
    let mut column = [Wide::ZERO; 8];
    if table > 3 || point.len() != 3 {
        return Wide::ZERO;
    }
    for corner in 0..8usize {
        column[corner] = rows[4 * corner + table];
    }
    evaluate_multilinear(&column, point)
}

// Whether a verifier that has these tables accepts.
fn is_accepted(
    alloc: Global,
    front: &[u8],
    terms: &[Term<Wide>],
    rows: &[Wide; 32],
    claim: Wide,
    messages: &[Wide],
) -> Result<bool, ProtocolError> {
    if !are_within(terms, 4) {
        return Err(ProtocolError::Shape);
    }
    let bytes = Vec::from_slice(alloc, front)?;
    let mut verifier = hashed::<Wide, Global>(bytes);
    let reduced = verify(alloc, &mut verifier, 3, 4, terms, claim, messages)?;
    let point = reduced.point.as_slice();
    let values = [
        value_at(rows, 0, point),
        value_at(rows, 1, point),
        value_at(rows, 2, point),
        value_at(rows, 3, point),
    ];
    Ok(reduced.claim == terms_at(terms, &values))
}

// Whether an honest proof is accepted by a verifier that has something else.
fn passes(alloc: Global, cheat: Cheat) -> Result<bool, ProtocolError> {
    let Some(proved) = terms(3) else {
        return Err(ProtocolError::Shape);
    };
    let Some(other) = terms(2) else {
        return Err(ProtocolError::Shape);
    };
    let (mut claim, mut messages) = honest(alloc, &proved)?;
    let mut rows = rows();
    let mut read = proved;
    let mut front = 0..0;
    match cheat {
        Cheat::Nothing => (),
        Cheat::Claim => claim = claim + Wide::ONE,
        Cheat::Message(place) => {
            if let Some(value) = messages.as_mut_slice().get_mut(place) {
                *value = *value + Wide::ONE;
            }
        }
        Cheat::Corner(place) => {
            if let Some(value) = rows.get_mut(place) {
                *value = *value + Wide::ONE;
            }
        }
        Cheat::Coefficient => read = other,
        Cheat::Transcript => front = 0..1,
    }
    is_accepted(alloc, &[7][front], &read, &rows, claim, messages.as_slice())
}

#[test]
fn only_an_honest_proof_is_accepted(rt: HostRuntime) -> Result<(), Fail> {
    for (cheat, wanted) in CHEATS {
        let accepted = passes(rt.alloc(), cheat);
        assert!(rt;
            accepted.is_ok_and(|is| is == wanted),
            "a proof that was changed, or one that was not"
        );
    }
    Ok(())
}

// Of the one table with the values 5 and 9, whose sum is 12: whether a message for the sum `claim`, which gives the table's value at 0 as
// `first`, is accepted.
fn is_saved(
    alloc: Global,
    terms: &[Term<Byte>],
    claim: u8,
    first: u8,
) -> Result<bool, ProtocolError> {
    let mut verifier = hashed::<Byte, Global>(Vec::new(alloc));
    let (claim, first) = (Byte::from_repr(claim), Byte::from_repr(first));
    let reduced = verify(alloc, &mut verifier, 1, 1, terms, claim, &[first])?;
    let point = reduced.point.as_slice();
    if point.len() != 1 {
        return Ok(false);
    }
    let table = [Byte::from_repr(5), Byte::from_repr(9)];
    Ok(reduced.claim == evaluate_multilinear(&table, point))
}

// How many of all the messages for the sums 0 to 7, which are false, are accepted.
fn saved_count(alloc: Global) -> Result<usize, ProtocolError> {
    let Some(term) = Term::new(Byte::ONE, &[0]) else {
        return Err(ProtocolError::Shape);
    };
    let terms = [term];
    let mut count: usize = 0;
    for claim in 0..8u8 {
        for first in 0..=255u8 {
            if is_saved(alloc, &terms, claim, first)? {
                count = count.saturating_add(1);
            }
        }
    }
    Ok(count)
}

#[test]
fn a_challenge_that_is_a_root_saves_a_lie(rt: HostRuntime) {
    let saved = saved_count(rt.alloc());
    assert!(rt; saved.is_ok_and(|count| 0 < count && count < 40));
}

// Whether a claim of each sum is read.
fn every_claim_is_read(alloc: Global) -> Result<(), ProtocolError> {
    let Some(term) = Term::new(Byte::ONE, &[0]) else {
        return Err(ProtocolError::Shape);
    };
    for claim in 0..=255u8 {
        is_saved(alloc, &[term], claim, claim)?;
    }
    Ok(())
}

#[test]
fn no_claim_is_turned_away_unread(rt: HostRuntime) {
    assert!(rt; every_claim_is_read(rt.alloc()).is_ok());
}
