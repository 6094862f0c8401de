// Sums of the products of two tables, over any field and in any transcript of it.
ghost use Rattle.std.specs.Prelude.{◌≡◌, ◌*◌, ◌^◌, ◌<◌, ◌≤◌, [], ◌∷◌, false, length, map, IfErr, IfOk, OnOk};
ghost use Rattle.sum_checks.specs.Products.{term_product};
ghost use Rattle.sum_checks.specs.declared.error.ProtocolError.TheVariants.{Memory};
ghost use Rattle.protocols.specs.ProductSums.{interleaved, IsReducedSum, IsSummed, product_terms};

use field_base::traits::Field;
use std::alloc::{AllocError, Allocator};
use sum_checks::sumcheck::Reduced;
use sum_checks::terms::{Term, cube_sum};
use sum_checks::{ProtocolError, sumcheck};
use transcripts::{CanObserve, CanSample};

// What is summed: the product of the polynomials 0 and 1.
fn product<F: Field>() -> Term<F>
    ensures { map (term_product F.repr) (result ∷ []) ≡ product_terms }
{
    Term::new(F::ONE, &[0, 1]).unwrap()
}

// The terms of the sum.
fn terms<F: Field, A: Allocator>(alloc: A) -> Result<Vec<Term<F>, A>, AllocError>
    ensures { IfOk result (λ terms. map (term_product F.repr) terms.items ≡ product_terms) }
{
    let mut terms = Vec::new(alloc);
    terms.push(product())?;
    Ok(terms)
}

// The tables as rows of two values.
fn rows<F: Field, A: Allocator>(alloc: A, left: &[F], right: &[F]) -> Result<Vec<F, A>, AllocError>
    requires { length right.now ≡ length left.now }
    ensures { IfOk result (λ rows. rows.items ≡ interleaved left.now right.now) }
{
    let mut rows = Vec::new(alloc);
    'places: for place in 0..left.len() {
        let (one, other) = (left[place], right[place]);
        rows.push(one)?;
        rows.push(other)?;
    }
    Ok(rows)
}

/// What a prover has of a sum.
#[derive(Drop)]
pub struct Summed<F: Field, A: Allocator> {
    /// The sum.
    pub sum: F,
    /// The messages, one after the other.
    pub messages: Vec<F, A>,
    /// The challenges.
    pub point: Vec<F, A>,
}

/// The sum of the products of two tables of 2^rounds elements, the messages that prove it, and the challenges. The statement and the
/// messages are observed, and the challenges sampled. It fails as `sumcheck::prove` does: where the field has at least 2^3 elements, and
/// more than there are rounds, in a transcript that has not failed, only if memory was refused.
pub fn prove_sum<F: Field, C: CanObserve<F> + CanSample<F>, A: Allocator + Copy>(
    alloc: A,
    challenger: &mut C,
    left: &[F],
    right: &[F],
    rounds: usize,
) -> Result<Summed<F, A>, ProtocolError>
    requires left { length left.now ≡ 2 ^ rounds }
    requires right { length right.now ≡ 2 ^ rounds }
    requires few { rounds ≤ 39 }
    ensures summed { IfOk result (λ summed. IsSummed C.observes C.gives F.repr F.width F.product rounds left.now right.now challenger.old
        summed.sum summed.messages.items summed.point.items challenger.new) }
    ensures goes_on { OnOk result (C.has_failed challenger.new ≡ false) }
    ensures memory { 3 ≤ F.width → rounds < 2 ^ F.width → C.has_failed challenger.old ≡ false → IfErr result (λ error. error ≡ Memory) }
{
    let mut rows = rows(alloc, left, right)?;
    let terms = terms(alloc)?;
    let terms = terms.as_slice();
    let sum = cube_sum(terms, rows.as_slice(), 2, rounds);
    let proven = sumcheck::prove(
        alloc,
        challenger,
        rows.as_mut_slice(),
        rounds,
        2,
        terms,
        sum,
    )?;
    Ok(Summed {
        sum,
        messages: proven.messages,
        point: proven.point,
    })
}

/// Reduces the claim that the products of two tables of 2^rounds elements have this sum, by the messages, to a claim at a point. It fails
/// as `sumcheck::verify` does: where the field has at least 2^3 elements, and more than there are rounds, and there are two values for each
/// round, in a transcript that has not failed, only if memory was refused.
pub fn reduce_sum<F: Field, C: CanObserve<F> + CanSample<F>, A: Allocator + Copy>(
    alloc: A,
    challenger: &mut C,
    rounds: usize,
    sum: F,
    messages: &[F],
) -> Result<Reduced<F, A>, ProtocolError>
    ensures reduced { IfOk result (λ reduced. IsReducedSum C.observes C.gives F.repr F.width F.product rounds (F.repr sum) messages.now
        challenger.old reduced.point.items (F.repr reduced.claim) challenger.new) }
    ensures goes_on { OnOk result (C.has_failed challenger.new ≡ false) }
    ensures memory { 3 ≤ F.width → rounds < 2 ^ F.width → length messages.now ≡ 2 * rounds → C.has_failed challenger.old ≡ false
        → IfErr result (λ error. error ≡ Memory) }
{
    let terms = terms(alloc)?;
    let terms = terms.as_slice();
    let reduced = sumcheck::verify(alloc, challenger, rounds, 2, terms, sum, messages)?;
    Ok(reduced)
}
