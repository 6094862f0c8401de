// The prover and the verifier of a zero-check, over any field and any challenger of it: that three tables meet a b = c at every corner of
// the cube {0, 1}^n (J. Thaler, Proofs, Arguments, and Zero-Knowledge, section 4.6).
ghost use Rattle.std.specs.Prelude.{◌≡◌, ◌↔◌, ◌*◌, ◌^◌, ◌<◌, ℕ, false, length, map, slice_index, bit_xor, IfErr, IfOk, IsTrue, OnOk};
ghost use Rattle.sum_checks.specs.Products.{term_product};
ghost use Rattle.sum_checks.specs.Refusals.{CanBeStated, IsAnswer, VerifierRefuses};
ghost use Rattle.sum_checks.specs.Sumcheck.{messages_of};
ghost use Rattle.sum_checks.specs.SumcheckClaims.{AreHonestMessages, reduced_claim};
ghost use Rattle.sum_checks.specs.ZeroCheck.{eq_point, zero_check_rows, zero_check_terms, zero_check_value};
ghost use Rattle.sum_checks.specs.ZeroCheckRuns.{IsZeroCheckRun, IsZeroCheckStart, NeedsLuck, ZeroProverRefuses, ZerosCanBeProved};
ghost use Rattle.sum_checks.specs.ZeroCheckRuns.{zero_check_row, zero_check_statement};
ghost use Rattle.sum_checks.specs.declared.error.ProtocolError.TheVariants.{Memory};

use crate::error::ProtocolError;
use crate::statement::{has_counts, statement};
use crate::sumcheck::{Proven, Reduced, has_length, prove, verify};
use crate::terms::Term;
use field_base::traits::Field;
use field_slices::eq_poly;
use std::alloc::{AllocError, Allocator};
use transcripts::{CanObserve, CanSample, both};

/// What a prover of a zero-check has after its last round.
#[derive(Drop)]
pub struct ProvenZeros<F: Field, A: Allocator> {
    /// The point that was sampled before the first message.
    pub start: Vec<F, A>,
    /// The messages, the challenges, and the values there of e, a, b and c, where e is eq(start, corner) at each corner.
    pub sum: Proven<F, A>,
}

/// What a verifier of a zero-check is left with: a b + c times the weight has to have the value `sum.claim` at `sum.point`.
#[derive(Drop)]
pub struct ReducedZeros<F: Field, A: Allocator> {
    /// The point that was sampled before the first message.
    pub start: Vec<F, A>,
    /// The challenges, and the value that is left.
    pub sum: Reduced<F, A>,
    /// eq(start, challenges).
    pub weight: F,
}

impl<F: Field, A: Allocator> ReducedZeros<F, A> {
    /// Whether the claim that is left is true where the tables have the values `a`, `b` and `c` at the challenges: whether it is
    /// `weight (a b + c)`.
    pub fn is_met(&self, a: F, b: F, c: F) -> bool
        ensures { IsTrue result ↔ (F.repr self.now.sum.claim
            ≡ F.product (F.repr self.now.weight) (bit_xor (F.product (F.repr a) (F.repr b)) (F.repr c))) }
    {
        self.sum.claim == self.weight * (a * b + c)
    }
}

/// Proves that tables of 2^rounds values each meet a b = c at every corner. The statement is observed, a point is sampled, and then the
/// sum of the terms e a b + e c is proved to be 0, where e is eq(point, corner), by a sum-check that observes the statement once more.
/// The tables are not observed: they have to be committed to before. It fails with `Challenger` if a call of the challenger had failed
/// before; else with `Shape` exactly if a table has not 2^rounds values, or 2^64 of them, or the claim cannot be stated; and else only
/// with `Memory`. The first two leave the challenger as it is.
pub fn prove_zero<F: Field, C: CanObserve<F> + CanSample<F>, A: Allocator + Copy>(
    alloc: A,
    challenger: &mut C,
    rounds: usize,
    a: &[F],
    b: &[F],
    c: &[F],
) -> Result<ProvenZeros<F, A>, ProtocolError>
    ensures run { IfOk result (λ proof. IsZeroCheckRun C.observes C.gives F.repr challenger.old
        (zero_check_statement F.width F.product rounds) proof.start.items (messages_of 3 rounds proof.sum.messages.items)
        proof.sum.point.items challenger.new) }
    ensures honest { IfOk result (λ proof. AreHonestMessages F.product zero_check_terms 4 3
        (zero_check_rows F.product (map F.repr proof.start.items) (map F.repr a.now) (map F.repr b.now) (map F.repr c.now))
        (map (map F.repr) (messages_of 3 rounds proof.sum.messages.items)) (map F.repr proof.sum.point.items)) }
    ensures complete { IfOk result (λ proof. ((i : ℕ) → i < 2 ^ rounds → F.product (slice_index (map F.repr a.now) i)
        (slice_index (map F.repr b.now) i) ≡ slice_index (map F.repr c.now) i)
        → reduced_claim F.width F.product 0 (map (map F.repr) (messages_of 3 rounds proof.sum.messages.items))
        (map F.repr proof.sum.point.items)
        ≡ zero_check_value F.product (map F.repr proof.start.items) (map F.repr proof.sum.point.items) (map F.repr a.now) (map F.repr b.now)
        (map F.repr c.now)) }
    ensures length { IfOk result (λ proof. length proof.sum.messages.items ≡ rounds * 3) }
    ensures start { IfOk result (λ proof. length proof.start.items ≡ rounds) }
    ensures point { IfOk result (λ proof. length proof.sum.point.items ≡ rounds) }
    ensures values { IfOk result (λ proof. map F.repr proof.sum.values.items ≡ zero_check_row F.product (map F.repr proof.start.items)
        (map F.repr proof.sum.point.items) (map F.repr a.now) (map F.repr b.now) (map F.repr c.now)) }
    ensures answer { IsAnswer (C.has_failed challenger.old) (C.has_failed challenger.new)
        (ZeroProverRefuses F.width rounds (length a.now) (length b.now) (length c.now)) (challenger.new ≡ challenger.old) result }
{
    if challenger.failed() {
        return Err(ProtocolError::Challenger);
    }
    if !can_be_proved::<F>(rounds, a.len(), b.len(), c.len()) {
        return Err(ProtocolError::Shape);
    }
    let terms = terms_of(alloc)?;
    let start = sample_start(alloc, challenger, rounds, terms.as_slice())?;
    let mut rows = rows_of(alloc, start.as_slice(), a, b, c)?;
    let sum = prove(
        alloc,
        challenger,
        rows.as_mut_slice(),
        rounds,
        4,
        terms.as_slice(),
        F::ZERO,
    )?;
    Ok(ProvenZeros { start, sum })
}

/// Reduces the claim that tables of 2^rounds values each meet a b = c at every corner to one at one point, by messages that `prove_zero`
/// sent: that the values there of a, b and c meet what is left (`ReducedZeros::is_met`). The caller has to check it with values that were
/// committed to before. It fails with `Challenger` if a call of the challenger had failed before; else with `Length` exactly if there are
/// not three values for each round; else with `Shape` exactly if the claim cannot be stated; and else only with `Memory`. The first three
/// leave the challenger as it is.
pub fn verify_zero<F: Field, C: CanObserve<F> + CanSample<F>, A: Allocator + Copy>(
    alloc: A,
    challenger: &mut C,
    rounds: usize,
    messages: &[F],
) -> Result<ReducedZeros<F, A>, ProtocolError>
    ensures length { IfOk result (λ reduced. length messages.now ≡ rounds * 3) }
    ensures start { IfOk result (λ reduced. length reduced.start.items ≡ rounds) }
    ensures point { IfOk result (λ reduced. length reduced.sum.point.items ≡ rounds) }
    ensures run { IfOk result (λ reduced. IsZeroCheckRun C.observes C.gives F.repr challenger.old
        (zero_check_statement F.width F.product rounds) reduced.start.items (messages_of 3 rounds messages.now) reduced.sum.point.items
        challenger.new) }
    ensures claim { IfOk result (λ reduced. F.repr reduced.sum.claim ≡ reduced_claim F.width F.product 0
        (map (map F.repr) (messages_of 3 rounds messages.now)) (map F.repr reduced.sum.point.items)) }
    ensures weight { IfOk result (λ reduced. F.repr reduced.weight
        ≡ eq_point F.product (map F.repr reduced.start.items) (map F.repr reduced.sum.point.items)) }
    ensures sound { IfOk result (λ reduced. NeedsLuck F.width F.product (map F.repr reduced.start.items)
        (map F.repr reduced.sum.point.items) (map (map F.repr) (messages_of 3 rounds messages.now)) (F.repr reduced.sum.claim)) }
    ensures answer { IsAnswer (C.has_failed challenger.old) (C.has_failed challenger.new)
        (VerifierRefuses F.width rounds 4 zero_check_terms (length messages.now)) (challenger.new ≡ challenger.old) result }
{
    if challenger.failed() {
        return Err(ProtocolError::Challenger);
    }
    if !has_length(messages.len(), rounds, 3) {
        return Err(ProtocolError::Length);
    }
    if !can_be_stated::<F>(rounds) {
        return Err(ProtocolError::Shape);
    }
    let terms = terms_of(alloc)?;
    let start = sample_start(alloc, challenger, rounds, terms.as_slice())?;
    let sum = verify(
        alloc,
        challenger,
        rounds,
        4,
        terms.as_slice(),
        F::ZERO,
        messages,
    )?;
    let weight = eq_at(start.as_slice(), sum.point.as_slice());
    Ok(ReducedZeros { start, sum, weight })
}

// Whether the statement can be observed.
fn can_be_stated<F: Field>(rounds: usize) -> bool
    ensures { IsTrue result ↔ CanBeStated F.width rounds 4 zero_check_terms }
{
    has_counts::<F>(rounds, 4, 2)
}

// Whether the statement can be observed, and tables of so many values have one for each corner.
fn can_be_proved<F: Field>(rounds: usize, a: usize, b: usize, c: usize) -> bool
    ensures { IsTrue result ↔ ZerosCanBeProved F.width rounds a b c }
{
    if rounds >= 64 {
        return false;
    }
    let size = 1 << rounds;
    let others = both(b == size, c == size);
    both(can_be_stated::<F>(rounds), both(a == size, others))
}

// The terms e a b + e c of the tables e, a, b and c.
fn terms_of<F: Field, A: Allocator>(alloc: A) -> Result<Vec<Term<F>, A>, AllocError>
    ensures { IfOk result (λ terms. map (term_product F.repr) terms.items ≡ zero_check_terms) }
{
    let mut terms = Vec::new(alloc);
    terms.push(Term {
        coefficient: F::ONE,
        factors: [0, 1, 2, 0],
        count: 3,
    })?;
    terms.push(Term {
        coefficient: F::ONE,
        factors: [0, 3, 0, 0],
        count: 2,
    })?;
    Ok(terms)
}

// Observes the statement, and then samples the point.
fn sample_start<F: Field, C: CanObserve<F> + CanSample<F>, A: Allocator + Copy>(
    alloc: A,
    challenger: &mut C,
    rounds: usize,
    terms: &[Term<F>],
) -> Result<Vec<F, A>, ProtocolError>
    requires going { C.has_failed challenger.old ≡ false }
    requires stated { CanBeStated F.width rounds 4 zero_check_terms }
    requires terms { map (term_product F.repr) terms.now ≡ zero_check_terms }
    ensures goes_on { OnOk result (C.has_failed challenger.new ≡ false) }
    ensures memory { IfErr result (λ error. error ≡ Memory) }
    ensures length { IfOk result (λ point. length point.items ≡ rounds) }
    ensures run { IfOk result (λ point. IsZeroCheckStart C.observes C.gives F.repr challenger.old
        (zero_check_statement F.width F.product rounds) point.items challenger.new) }
{
    let elements = statement(alloc, rounds, 4, terms, F::ZERO)?;
    challenger.observe_slice(elements.as_slice())?;
    let point = challenger.sample_vec(alloc, rounds)?;
    Ok(point)
}

// The rows of e, a, b and c, where e is eq(point, corner) at each corner.
fn rows_of<F: Field, A: Allocator + Copy>(
    alloc: A,
    point: &[F],
    a: &[F],
    b: &[F],
    c: &[F],
) -> Result<Vec<F, A>, AllocError>
    requires few { length point.now < 64 }
    requires first { length a.now ≡ 2 ^ length point.now }
    requires second { length b.now ≡ 2 ^ length point.now }
    requires third { length c.now ≡ 2 ^ length point.now }
    ensures { IfOk result (λ rows. map F.repr rows.items
        ≡ zero_check_rows F.product (map F.repr point.now) (map F.repr a.now) (map F.repr b.now) (map F.repr c.now)) }
{
    let weights = eq_poly(alloc, point)?;
    let table = weights.as_slice();
    let mut rows = Vec::new(alloc);
    'corners: for corner in 0..a.len() {
        rows.push(table[corner])?;
        rows.push(a[corner])?;
        rows.push(b[corner])?;
        rows.push(c[corner])?;
    }
    Ok(rows)
}

/// eq of two points of as many coordinates: the product over the coordinates of x y + (1 + x) (1 + y).
pub fn eq_at<F: Field>(point: &[F], other: &[F]) -> F
    requires { length other.now ≡ length point.now }
    ensures { F.repr result ≡ eq_point F.product (map F.repr point.now) (map F.repr other.now) }
{
    if point.is_empty() {
        return F::ONE;
    }
    let (x, y) = (point[0], other[0]);
    let first = x * y + (F::ONE + x) * (F::ONE + y);
    let others = eq_at(&point[1..], &other[1..]);
    first * others
}
