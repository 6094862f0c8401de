// The prover and the verifier of the sum-check protocol, over any field and any challenger of it.
ghost use Rattle.std.specs.Prelude.{◌≡◌, ◌↔◌, ◌+◌, ◌*◌, ◌-◌, ◌/◌, ◌^◌, ◌<◌, ◌≤◌, ◌++◌, ℕ, List, length, map, slice_index, Err, IfOk};
ghost use Rattle.std.specs.Prelude.{false, ◌||◌, IfErr, IsTrue, OnOk};
ghost use Rattle.sum_checks.specs.Products.{term_product};
ghost use Rattle.sum_checks.specs.Refusals.{CanBeProved, CanBeStated, IsAnswer, ProverRefuses, VerifierRefuses};
ghost use Rattle.sum_checks.specs.Sumcheck.{AreTurns, IsRunOf, messages_of, statement_of};
ghost use Rattle.sum_checks.specs.SumcheckClaims.{AreHonestMessages, honest_message, node_values, reduced_claim};
ghost use Rattle.sum_checks.specs.SumcheckRuns.{IsProofAndVerdict};
ghost use Rattle.sum_checks.specs.Terms.{ArePairs, AreWithin, cube_sum, degree_of, honest_at, table_value};
ghost use Rattle.sum_checks.specs.declared.error.ProtocolError.TheVariants.{Memory, Shape};
ghost use Rattle.field_slices.specs.Multilinear.{folded_all};

use crate::error::ProtocolError;
use crate::statement::{can_be_stated, statement};
use crate::terms::{Term, are_pairs, cube_sum, degree, terms_at};
use field_base::traits::Field;
use field_slices::{add_slice, fold, interpolate_at_nodes};
use std::alloc::{AllocError, Allocator};
use transcripts::{CanObserve, CanSample, both};

/// What a prover has after its last round.
#[derive(Drop)]
pub struct Proven<F: Field, A: Allocator> {
    /// The messages, one after the other, which are the proof.
    pub messages: Vec<F, A>,
    /// The challenges, which are the point at which the values are left to be checked.
    pub point: Vec<F, A>,
    /// The values of the polynomials at the point.
    pub values: Vec<F, A>,
}

/// What a verifier is left with: the terms have to have this value at the point.
#[derive(Drop)]
pub struct Reduced<F: Field, A: Allocator> {
    /// The challenges.
    pub point: Vec<F, A>,
    /// The value of the terms at the point, if what was claimed is true.
    pub claim: F,
}

/// Proves that the sum of the terms over the cube of `rounds` coordinates is the claim: row i of the values has those of `count`
/// polynomials at corner i. The values are folded in place: what they hold after a result is not said. The statement is observed, then each
/// round's message, after which its challenge is sampled. It fails with `Challenger` if a call of the challenger had failed before; else
/// with `Shape` exactly if there are not 2^rounds rows, or 2^64 of them, or the claim cannot be stated (`can_be_stated`); and else only with
/// `Memory`. The first two leave the challenger and the values as they are.
pub fn prove<F: Field, C: CanObserve<F> + CanSample<F>, A: Allocator + Copy>(
    alloc: A,
    challenger: &mut C,
    values: &mut [F],
    rounds: usize,
    count: usize,
    terms: &[Term<F>],
    claim: F,
) -> Result<Proven<F, A>, ProtocolError>
    ensures run { IfOk result (λ proven. IsRunOf C.observes C.gives F.repr challenger.old
        (statement_of F.width F.product rounds count (map (term_product F.repr) terms.now) (F.repr claim))
        (messages_of (degree_of (map (term_product F.repr) terms.now)) rounds proven.messages.items) proven.point.items challenger.new) }
    ensures honest { IfOk result (λ proven. AreHonestMessages F.product (map (term_product F.repr) terms.now) count
        (degree_of (map (term_product F.repr) terms.now)) (map F.repr values.old)
        (map (map F.repr) (messages_of (degree_of (map (term_product F.repr) terms.now)) rounds proven.messages.items))
        (map F.repr proven.point.items)) }
    ensures length { IfOk result (λ proven. length proven.messages.items ≡ rounds * degree_of (map (term_product F.repr) terms.now)) }
    ensures field { IfOk result (λ proven. 3 ≤ F.width) }
    ensures count { IfOk result (λ proven. length proven.values.items ≡ count) }
    ensures values { IfOk result (λ proven. (j : ℕ) → j < count → slice_index (map F.repr proven.values.items) j
        ≡ table_value F.product count (map F.repr values.old) (map F.repr proven.point.items) j) }
    ensures answer { IsAnswer (C.has_failed challenger.old) (C.has_failed challenger.new)
        (ProverRefuses F.width rounds count (map (term_product F.repr) terms.now) (length values.old))
        ((challenger.new ≡ challenger.old) × (values.new ≡ values.old)) result }
{
    if challenger.failed() {
        return Err(ProtocolError::Challenger);
    }
    if !can_be_proved(rounds, count, terms, values.len()) {
        return Err(ProtocolError::Shape);
    }
    let elements = statement(alloc, rounds, count, terms, claim)?;
    challenger.observe_slice(elements.as_slice())?;
    let mut scratch = F::zero_vec(alloc, values.len())?;
    let mut proven = Proven {
        messages: Vec::new(alloc),
        point: Vec::new(alloc),
        values: Vec::new(alloc),
    };
    prove_rounds(
        alloc,
        challenger,
        terms,
        values,
        scratch.as_mut_slice(),
        rounds,
        count,
        &mut proven,
    )?;
    Ok(proven)
}

// What a prover has before a round: the terms, and the values of `count` polynomials at the corners of the cube of `rounds` coordinates
// besides the first.
#[derive(Drop)]
struct Round<'a, F: Field> {
    terms: &'a [Term<F>],
    values: &'a [F],
    count: usize,
    rounds: usize,
    ghost few: { rounds < 63 },
    ghost size: { length values.now ≡ 2 ^ (rounds + 1) * count },
}

// Whether the claim can be stated and so many values are those of the polynomials at the corners of the cube.
fn can_be_proved<F: Field>(rounds: usize, count: usize, terms: &[Term<F>], size: usize) -> bool
    ensures { IsTrue result ↔ CanBeProved F.width rounds count (map (term_product F.repr) terms.now) size }
{
    if rounds >= 64 {
        return false;
    }
    both(
        can_be_stated(rounds, count, terms),
        has_length(size, count, 1 << rounds),
    )
}

// Appends the messages and the challenges of the rounds that are left, and folds the values by the challenges.
fn prove_rounds<F: Field, C: CanObserve<F> + CanSample<F>, A: Allocator + Copy>(
    alloc: A,
    challenger: &mut C,
    terms: &[Term<F>],
    values: &mut [F],
    scratch: &mut [F],
    rounds: usize,
    count: usize,
    proven: &mut Proven<F, A>,
) -> Result<(), ProtocolError>
    requires going { C.has_failed challenger.old ≡ false }
    requires few { rounds < 64 }
    requires field { 3 ≤ F.width }
    requires within { AreWithin count (map (term_product F.repr) terms.now) }
    requires size { length values.old ≡ 2 ^ rounds * count }
    requires room { length scratch.old ≡ length values.old }
    ensures goes_on { OnOk result (C.has_failed challenger.new ≡ false) }
    ensures memory { IfErr result (λ error. error ≡ Memory) }
    ensures run { IfOk result (λ done. (messages : List F) × (challenges : List F) × (left : List F)
        × (proven.new.messages.items ≡ proven.old.messages.items ++ messages) × (proven.new.point.items ≡ proven.old.point.items ++ challenges)
        × (proven.new.values.items ≡ left)
        × (length messages ≡ rounds * degree_of (map (term_product F.repr) terms.now))
        × AreTurns C.observes C.gives challenger.old (messages_of (degree_of (map (term_product F.repr) terms.now)) rounds messages) challenges
        challenger.new
        × AreHonestMessages F.product (map (term_product F.repr) terms.now) count (degree_of (map (term_product F.repr) terms.now))
        (map F.repr values.old) (map (map F.repr) (messages_of (degree_of (map (term_product F.repr) terms.now)) rounds messages))
        (map F.repr challenges)
        × (map F.repr left ≡ folded_all F.product (map F.repr challenges) (map F.repr values.old))) }
{
    if rounds == 0 {
        let left = Vec::from_slice(alloc, values)?;
        proven.values = left;
        return Ok(());
    }
    let round = Round {
        terms,
        values,
        count,
        rounds: rounds - 1,
    };
    let message = message(alloc, &round, scratch)?;
    let sent = message.as_slice();
    challenger.observe_slice(sent)?;
    proven.messages.extend_from_slice(sent)?;
    let challenge = challenger.sample()?;
    proven.point.push(challenge)?;
    fold(values, challenge);
    let half = values.len() / 2;
    prove_rounds(
        alloc,
        challenger,
        terms,
        &mut values[..half],
        &mut scratch[..half],
        rounds - 1,
        count,
        proven,
    )?;
    Ok(())
}

// The message of an honest prover: the values of the round's polynomial at the elements 0, 2, 3, .., up to the degree. `scratch` is as
// long as the values.
fn message<F: Field, A: Allocator>(
    alloc: A,
    round: &Round<'_, F>,
    scratch: &mut [F],
) -> Result<Vec<F, A>, AllocError>
    requires field { 3 ≤ F.width }
    requires within { AreWithin round.now.count (map (term_product F.repr) round.now.terms.now) }
    requires room { length scratch.old ≡ length round.now.values.now }
    ensures room { length scratch.new ≡ length scratch.old }
    ensures honest { IfOk result (λ message. map F.repr message.items
        ≡ honest_message F.product (map (term_product F.repr) round.now.terms.now) round.now.count round.now.rounds
        (map F.repr round.now.values.now) (degree_of (map (term_product F.repr) round.now.terms.now))) }
{
    let mut message = Vec::new(alloc);
    let lower = &round.values[..round.values.len() / 2];
    let first = cube_sum(round.terms, lower, round.count, round.rounds);
    message.push(first)?;
    let degree = degree(round.terms);
    for node in 2..degree + 1 {
        let x = F::interpolation_node(node);
        let value = value_at(round, scratch, x, first);
        message.push(value)?;
    }
    Ok(message)
}

// The value at x of the round's polynomial, where `first` is its value at 0. `scratch` is as long as the values.
fn value_at<F: Field>(round: &Round<'_, F>, scratch: &mut [F], x: F, first: F) -> F
    requires within { AreWithin round.now.count (map (term_product F.repr) round.now.terms.now) }
    requires room { length scratch.old ≡ length round.now.values.now }
    requires first { F.repr first ≡ honest_at F.product (map (term_product F.repr) round.now.terms.now) round.now.count round.now.rounds
        (map F.repr round.now.values.now) 0 }
    ensures room { length scratch.new ≡ length scratch.old }
    ensures value { F.repr result ≡ honest_at F.product (map (term_product F.repr) round.now.terms.now) round.now.count round.now.rounds
        (map F.repr round.now.values.now) (F.repr x) }
{
    let half = round.values.len() / 2;
    if are_pairs(round.terms) {
        return value_of_pairs(round, &mut scratch[..half], x, first);
    }
    scratch.copy_from_slice(round.values);
    fold(scratch, x);
    cube_sum(round.terms, &scratch[..half], round.count, round.rounds)
}

// `value_at` for terms with two factors each; `sums` is half as long as the values. The polynomial has degree two; its leading coefficient
// is the sum of the terms at the sums of both halves, so that no value is multiplied by x.
fn value_of_pairs<F: Field>(round: &Round<'_, F>, sums: &mut [F], x: F, first: F) -> F
    requires pairs { ArePairs (map (term_product F.repr) round.now.terms.now) }
    requires within { AreWithin round.now.count (map (term_product F.repr) round.now.terms.now) }
    requires room { length sums.old ≡ length round.now.values.now / 2 }
    requires first { F.repr first ≡ honest_at F.product (map (term_product F.repr) round.now.terms.now) round.now.count round.now.rounds
        (map F.repr round.now.values.now) 0 }
    ensures { F.repr result ≡ honest_at F.product (map (term_product F.repr) round.now.terms.now) round.now.count round.now.rounds
        (map F.repr round.now.values.now) (F.repr x) }
{
    let (lower, upper) = round.values.split_at(round.values.len() / 2);
    let second = cube_sum(round.terms, upper, round.count, round.rounds);
    sums.copy_from_slice(lower);
    add_slice(sums, upper);
    let leading = cube_sum(round.terms, sums, round.count, round.rounds);
    let linear = (first + second) + leading;
    first + (linear * x + leading * x.square())
}

/// Reduces the claim that the sum of the terms of `count` polynomials over the cube of `rounds` coordinates is `claim` to one claim at one
/// point: that the terms have the value `claim` of the result at its point. The caller has to check that one, with values that were
/// committed to before the challenges were sampled. It fails with `Challenger` if a call of the challenger had failed before; else with
/// `Length` exactly if there are not as many messages as rounds, each of as many values as a term has factors at most; else with `Shape`
/// exactly if the claim cannot be stated (`can_be_stated`); and else only with `Memory`. The first three leave the challenger as it is.
pub fn verify<F: Field, C: CanObserve<F> + CanSample<F>, A: Allocator + Copy>(
    alloc: A,
    challenger: &mut C,
    rounds: usize,
    count: usize,
    terms: &[Term<F>],
    claim: F,
    messages: &[F],
) -> Result<Reduced<F, A>, ProtocolError>
    ensures length { IfOk result (λ reduced. length messages.now ≡ rounds * degree_of (map (term_product F.repr) terms.now)) }
    ensures read { IfOk result (λ reduced. IsRunOf C.observes C.gives F.repr challenger.old
        (statement_of F.width F.product rounds count (map (term_product F.repr) terms.now) (F.repr claim))
        (messages_of (degree_of (map (term_product F.repr) terms.now)) rounds messages.now) reduced.point.items challenger.new
        × (F.repr reduced.claim ≡ reduced_claim F.width F.product (F.repr claim)
        (map (map F.repr) (messages_of (degree_of (map (term_product F.repr) terms.now)) rounds messages.now)) (map F.repr reduced.point.items))
        × (length reduced.point.items ≡ rounds)) }
    ensures answer { IsAnswer (C.has_failed challenger.old) (C.has_failed challenger.new)
        (VerifierRefuses F.width rounds count (map (term_product F.repr) terms.now) (length messages.now))
        (challenger.new ≡ challenger.old) result }
{
    if challenger.failed() {
        return Err(ProtocolError::Challenger);
    }
    test_messages(rounds, count, terms, messages.len())?;
    let degree = degree(terms);
    let elements = statement(alloc, rounds, count, terms, claim)?;
    challenger.observe_slice(elements.as_slice())?;
    let mut reduced = Reduced {
        point: Vec::new(alloc),
        claim,
    };
    verify_rounds(alloc, challenger, messages, rounds, degree, &mut reduced)?;
    Ok(reduced)
}

// Whether the claim can be stated, and so many values are those of `rounds` messages, each of as many as a term has factors at most.
fn test_messages<F: Field>(
    rounds: usize,
    count: usize,
    terms: &[Term<F>],
    size: usize,
) -> Result<(), ProtocolError>
    ensures long { OnOk result (size ≡ rounds * degree_of (map (term_product F.repr) terms.now)) }
    ensures stated { OnOk result (CanBeStated F.width rounds count (map (term_product F.repr) terms.now)) }
    ensures refused { IfErr result (λ error. VerifierRefuses F.width rounds count (map (term_product F.repr) terms.now) size error) }
{
    if !has_length(size, rounds, degree(terms)) {
        return Err(ProtocolError::Length);
    }
    if !can_be_stated(rounds, count, terms) {
        return Err(ProtocolError::Shape);
    }
    Ok(())
}

/// Whether so many values are `count` parts of this size, which is not 0.
pub fn has_length(length: usize, count: usize, size: usize) -> bool
    requires { 0 < size }
    ensures { IsTrue result ↔ (length ≡ count * size) }
{
    if length % size != 0 {
        return false;
    }
    length / size == count
}

// Appends the challenges of the rounds that are left, and reduces the claim by them.
fn verify_rounds<F: Field, C: CanObserve<F> + CanSample<F>, A: Allocator + Copy>(
    alloc: A,
    challenger: &mut C,
    messages: &[F],
    rounds: usize,
    degree: usize,
    reduced: &mut Reduced<F, A>,
) -> Result<(), ProtocolError>
    requires field { 3 ≤ F.width }
    requires some { 0 < degree }
    requires few { degree ≤ 4 }
    requires count { length messages.now ≡ rounds * degree }
    requires going { C.has_failed challenger.old ≡ false }
    ensures goes_on { OnOk result (C.has_failed challenger.new ≡ false) }
    ensures memory { IfErr result (λ error. error ≡ Memory) }
    ensures run { OnOk result ((challenges : List F) × (reduced.new.point.items ≡ reduced.old.point.items ++ challenges)
        × AreTurns C.observes C.gives challenger.old (messages_of degree rounds messages.now) challenges challenger.new
        × (F.repr reduced.new.claim ≡ reduced_claim F.width F.product (F.repr reduced.old.claim)
        (map (map F.repr) (messages_of degree rounds messages.now)) (map F.repr challenges))) }
{
    if rounds == 0 {
        return Ok(());
    }
    let (message, rest) = messages.split_at(degree);
    challenger.observe_slice(message)?;
    let challenge = challenger.sample()?;
    reduced.point.push(challenge)?;
    let nodes = node_values(alloc, reduced.claim, message)?;
    reduced.claim = interpolate_at_nodes(nodes.as_slice(), challenge);
    verify_rounds(alloc, challenger, rest, rounds - 1, degree, reduced)?;
    Ok(())
}

// The values of a round's polynomial at the first elements, by its claim and its message.
fn node_values<F: Field, A: Allocator>(
    alloc: A,
    claim: F,
    message: &[F],
) -> Result<Vec<F, A>, AllocError>
    requires { 0 < length message.now }
    ensures { IfOk result (λ nodes. map F.repr nodes.items ≡ node_values (F.repr claim) (map F.repr message.now)) }
{
    let mut nodes = Vec::new(alloc);
    let first = message[0];
    nodes.push(first)?;
    let second = claim + first;
    nodes.push(second)?;
    nodes.extend_from_slice(&message[1..])?;
    Ok(nodes)
}

/// Proves that the sum is what it is, and verifies the proof in a challenger that begins in the same state. The verifier accepts,
/// whatever the challenger is. What the values hold after a result is not said. It fails with `Challenger` if a call of either challenger
/// had failed before; else with `Shape` exactly if the claim cannot be stated (`can_be_stated`); and else only with `Memory`.
pub fn prove_and_verify<F: Field, C: CanObserve<F> + CanSample<F>, A: Allocator + Copy>(
    alloc: A,
    prover: &mut C,
    verifier: &mut C,
    values: &mut [F],
    rounds: usize,
    count: usize,
    terms: &[Term<F>],
) -> Result<bool, ProtocolError>
    requires state { C.state prover.old ≡ C.state verifier.old }
    requires few { rounds < 64 }
    requires within { AreWithin count (map (term_product F.repr) terms.now) }
    requires size { length values.old ≡ 2 ^ rounds * count }
    ensures accepted { IfOk result (λ accepted. IsTrue accepted) }
    ensures ran { IfOk result (λ accepted. IsProofAndVerdict C.observes C.gives F.width F.product F.repr
        (map (term_product F.repr) terms.now) count rounds values.old prover.old prover.new verifier.old verifier.new accepted) }
    ensures answer { IsAnswer (C.has_failed prover.old || C.has_failed verifier.old) (C.has_failed prover.new || C.has_failed verifier.new)
        (λ error. (error ≡ Shape) × (CanBeStated F.width rounds count (map (term_product F.repr) terms.now) → ⊥))
        ((prover.new ≡ prover.old) × (verifier.new ≡ verifier.old) × (values.new ≡ values.old)) result }
{
    if prover.failed() || verifier.failed() {
        return Err(ProtocolError::Challenger);
    }
    let claim = cube_sum(terms, values, count, rounds);
    let proven = prove(alloc, prover, values, rounds, count, terms, claim)?;
    let reduced = verify(
        alloc,
        verifier,
        rounds,
        count,
        terms,
        claim,
        proven.messages.as_slice(),
    )?;
    let value = terms_at(terms, proven.values.as_slice());
    Ok(reduced.claim == value)
}
