// What is proved, as the elements that a transcript observes before the first message.
ghost use Rattle.std.specs.Prelude.{◌≡◌, ◌↔◌, ◌++◌, ◌^◌, ◌<◌, ◌≤◌, ℕ, map, length, slice_index, Err, IfErr, IfOk, IsTrue, OnOk};
ghost use Rattle.std.specs.List.{flat_map};
ghost use Rattle.sum_checks.specs.Products.{term_product};
ghost use Rattle.sum_checks.specs.Refusals.{CanBeStated};
ghost use Rattle.sum_checks.specs.Sumcheck.{SumStatementsDiffer, statement_numbers, statement_of, term_numbers};
ghost use Rattle.sum_checks.specs.Terms.{AreWithin, FactorsAreWithin};
ghost use Rattle.sum_checks.specs.declared.error.ProtocolError.TheVariants.{Memory, Shape};

use crate::error::ProtocolError;
use crate::terms::{Term, are_within};
use field_base::traits::Field;
use std::alloc::{AllocError, Allocator};
use transcripts::both;

/// States that two different statements never give one transcript: what is observed of one does not begin what is observed of the other,
/// whatever comes after.
pub fn statements_differ()
    ensures { SumStatementsDiffer }
{}

// Whether the field has an element of representation n.
fn has_element<F: Field>(n: usize) -> bool
    ensures { IsTrue result ↔ (n < 2 ^ F.width) }
{
    let bits = F::bits();
    if bits >= 64 {
        return true;
    }
    n < 1 << bits
}

// Whether a transcript over the field can observe a statement about so many coordinates, polynomials and terms.
pub(crate) fn has_counts<F: Field>(rounds: usize, count: usize, terms: usize) -> bool
    ensures { IsTrue result ↔ (3 ≤ F.width) × (rounds < 2 ^ F.width) × (count < 2 ^ F.width) × (terms < 2 ^ F.width) }
{
    let wide = F::bits() >= 3;
    let others = both(has_element::<F>(count), has_element::<F>(terms));
    both(wide, both(has_element::<F>(rounds), others))
}

/// Whether the sum of the terms of `count` polynomials in `rounds` coordinates can be stated in a transcript: the field has at least
/// eight elements, each factor is below `count`, and `rounds`, `count` and the number of the terms are representations of elements.
pub fn can_be_stated<F: Field>(rounds: usize, count: usize, terms: &[Term<F>]) -> bool
    ensures { IsTrue result ↔ CanBeStated F.width rounds count (map (term_product F.repr) terms.now) }
{
    let within = are_within(terms, count);
    both(within, has_counts::<F>(rounds, count, terms.len()))
}

// Appends the elements of these numbers.
fn push_numbers<F: Field, A: Allocator>(
    elements: &mut Vec<F, A>,
    numbers: &[usize],
) -> Result<(), AllocError>
    requires { (k : ℕ) → k < length numbers.now → slice_index numbers.now k < 2 ^ F.width }
    ensures { OnOk result (map F.repr elements.new.items ≡ map F.repr elements.old.items ++ numbers.now) }
{
    if numbers.is_empty() {
        return Ok(());
    }
    let first = F::interpolation_node(numbers[0]);
    elements.push(first)?;
    push_numbers(elements, &numbers[1..])?;
    Ok(())
}

// Appends how many factors a term has, the factors, and the coefficient.
fn push_term<F: Field, A: Allocator>(
    elements: &mut Vec<F, A>,
    term: Term<F>,
) -> Result<(), AllocError>
    requires field { 3 ≤ F.width }
    requires within { FactorsAreWithin (2 ^ F.width) (term_product F.repr term) }
    ensures { OnOk result (map F.repr elements.new.items ≡ map F.repr elements.old.items ++ term_numbers (term_product F.repr term)) }
{
    let factors = term.factors();
    let size = F::interpolation_node(factors.len());
    elements.push(size)?;
    push_numbers(elements, factors)?;
    elements.push(term.coefficient)?;
    Ok(())
}

// Appends the terms.
fn push_terms<F: Field, A: Allocator>(
    elements: &mut Vec<F, A>,
    terms: &[Term<F>],
) -> Result<(), AllocError>
    requires field { 3 ≤ F.width }
    requires within { AreWithin (2 ^ F.width) (map (term_product F.repr) terms.now) }
    ensures { OnOk result (map F.repr elements.new.items
        ≡ map F.repr elements.old.items ++ flat_map term_numbers (map (term_product F.repr) terms.now)) }
{
    if terms.is_empty() {
        return Ok(());
    }
    let term = terms[0];
    push_term(elements, term)?;
    push_terms(elements, &terms[1..])?;
    Ok(())
}

/// The elements of a statement: that the sum of the terms of `count` polynomials in `rounds` coordinates is the claim. It fails with
/// `Shape` exactly if it cannot be stated, by `can_be_stated`, and else only with `Memory`, if memory was refused.
pub fn statement<F: Field, A: Allocator>(
    alloc: A,
    rounds: usize,
    count: usize,
    terms: &[Term<F>],
    claim: F,
) -> Result<Vec<F, A>, ProtocolError>
    ensures field { IfOk result (λ elements. 3 ≤ F.width) }
    ensures within { IfOk result (λ elements. AreWithin count (map (term_product F.repr) terms.now)) }
    ensures numbers { IfOk result (λ elements. map F.repr elements.items
        ≡ statement_numbers (statement_of F.width F.product rounds count (map (term_product F.repr) terms.now) (F.repr claim))) }
    ensures shape { (CanBeStated F.width rounds count (map (term_product F.repr) terms.now) → ⊥) → result ≡ Err Shape }
    ensures memory { CanBeStated F.width rounds count (map (term_product F.repr) terms.now) → IfErr result (λ error. error ≡ Memory) }
{
    if !can_be_stated(rounds, count, terms) {
        return Err(ProtocolError::Shape);
    }
    let mut elements = Vec::new(alloc);
    push_numbers(&mut elements, &[F::bits(), rounds, count, terms.len()])?;
    let two = F::interpolation_node(2);
    let square = two * two;
    elements.push(square)?;
    push_terms(&mut elements, terms)?;
    elements.push(claim)?;
    Ok(elements)
}
