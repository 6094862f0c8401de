// What elements of a field that the caller chooses are told to be: their orders, their traces and norms over subfields, and minimal
// polynomials.
#![tactic(auto, using(crate::proofs::ChosenCalls::over_named, crate::proofs::ChosenCalls::over_none))]

ghost use Rattle.std.specs.Prelude.{◌≡◌, ◌≢◌, ◌%◌, IfNone, IfSome};
ghost use Rattle.c_calls.specs.ChosenElements.{TakesMinimalPolynomial, TakesMinimalPolynomialOver, TakesNormsOver, TakesOrders};
ghost use Rattle.c_calls.specs.ChosenElements.{TakesTracesOver};
ghost use Rattle.c_calls.specs.ChosenFields.{OverField, chosen_field};

use crate::chosen_words::{ChosenWords, field_of_words};
use crate::field_operations::{NormOver, Ordered, TraceOver};
use crate::field_words::ChosenField;
use crate::scalars::ScalarWords;
use crate::wide::Wide;
use crate::{slices, status};
use field_base::{Holds, Reads};

/// Writes the order of each element, and 0 for 0, which has none: an exponent above 0 to which its power is 1, the least one where the
/// numbers of the table of primes are prime.
pub fn order(named: ChosenField, words: &[Wide], orders: &mut [Wide]) -> u32
    ensures { OverField named (TakesOrders (chosen_field named) words.now orders.old orders.new result) orders.old orders.new result }
{
    match field_of_words(named) {
        None => status::REDUCIBLE,
        Some(field) => slices::write_each(
            ChosenWords { named, field },
            words,
            orders,
            &Ordered,
            false,
        ),
    }
}

/// Writes the trace of each element over the subfield of 2^degree elements, the sum of its conjugates; `UNSOLVABLE` exactly where there is
/// none, as `degree` does not divide that of the field.
pub fn trace_to(named: ChosenField, words: &[Wide], degree: u64, traces: &mut [Wide]) -> u32
    ensures { OverField named (TakesTracesOver (chosen_field named) degree words.now traces.old traces.new result)
        traces.old traces.new result }
{
    match field_of_words(named) {
        None => status::REDUCIBLE,
        Some(field) => write_traces(ChosenWords { named, field }, words, degree, traces),
    }
}

// Writes the trace of each element over a subfield.
fn write_traces(field: ChosenWords, words: &[Wide], degree: u64, traces: &mut [Wide]) -> u32
    ensures { TakesTracesOver (chosen_field field.named) degree words.now traces.old traces.new result }
{
    match subfield_degree(field, degree) {
        None => status::UNSOLVABLE,
        Some(found) => {
            slices::write_each(field, words, traces, &TraceOver { degree: found }, false)
        }
    }
}

// The degree of a subfield, where there is one of so many bits.
fn subfield_degree(field: ChosenWords, degree: u64) -> Option<u32>
    ensures some { IfSome result (λ found. (found ≡ degree) × (field.named.degree % found ≡ 0)) }
    ensures none { IfNone result (field.named.degree % degree ≢ 0) }
{
    if degree == 0 || field.named.degree % degree != 0 {
        return None;
    }
    Some(degree as u32)
}

/// Writes the norm of each element over the subfield of 2^degree elements, the product of its conjugates; `UNSOLVABLE` exactly where there
/// is none, as `degree` does not divide that of the field.
pub fn norm_to(named: ChosenField, words: &[Wide], degree: u64, norms: &mut [Wide]) -> u32
    ensures { OverField named (TakesNormsOver (chosen_field named) degree words.now norms.old norms.new result)
        norms.old norms.new result }
{
    match field_of_words(named) {
        None => status::REDUCIBLE,
        Some(field) => write_norms(ChosenWords { named, field }, words, degree, norms),
    }
}

// Writes the norm of each element over a subfield.
fn write_norms(field: ChosenWords, words: &[Wide], degree: u64, norms: &mut [Wide]) -> u32
    ensures { TakesNormsOver (chosen_field field.named) degree words.now norms.old norms.new result }
{
    match subfield_degree(field, degree) {
        None => status::UNSOLVABLE,
        Some(found) => {
            slices::write_each(field, words, norms, &NormOver { degree: found }, false)
        }
    }
}

/// Writes the degree and the other terms of the minimal polynomial over GF(2) of an element, which is irreducible: the modulus of the
/// least subfield with the element.
pub fn minimal_polynomial(
    named: ChosenField,
    element: Wide,
    degree: &mut usize,
    tail: &mut Wide,
) -> u32
    ensures { TakesMinimalPolynomialOver named element degree.old tail.old degree.new tail.new result }
{
    match field_of_words(named) {
        None => status::REDUCIBLE,
        Some(field) => write_minimal_polynomial(
            ChosenWords { named, field },
            element,
            degree,
            tail,
        ),
    }
}

// Writes the minimal polynomial of an element.
fn write_minimal_polynomial(
    field: ChosenWords,
    element: Wide,
    degree: &mut usize,
    tail: &mut Wide,
) -> u32
    ensures { TakesMinimalPolynomial (chosen_field field.named) element degree.old tail.old degree.new tail.new result }
{
    if !field.is_element(element) {
        return status::NOT_AN_ELEMENT;
    }
    let (found, terms) = field.field.minimal_polynomial(element.stored());
    *degree = found as usize;
    *tail = Wide::of_stored(terms);
    status::OK
}
