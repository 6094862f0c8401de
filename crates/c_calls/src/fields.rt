// Calls over slices of elements of a field that the caller chooses: modulo any irreducible polynomial of degree 1 to 128.
#![tactic(auto, using(crate::proofs::ChosenCalls::over_named, crate::proofs::ChosenCalls::over_none))]

ghost use Rattle.std.specs.Prelude.{◌≡◌, ◌≢◌, ◌^◌, ◌<◌, ◌↔◌, ℕ, IfNone, IfSome, IsTrue};
ghost use Rattle.field_base.specs.Powers.{power};
ghost use Rattle.any_field.specs.Contexts.{field_product};
ghost use Rattle.any_field.specs.Values.{binary_value};
ghost use Rattle.many_words.specs.Words.{AreElements};
ghost use Rattle.c_calls.specs.Calls.{Adds, CallOnEach, Evaluates, Inverts, Multiplies, MultipliesBy};
ghost use Rattle.c_calls.specs.Calls.{RaisesTo, Squares, TakesDotProduct, TakesRoots};
ghost use Rattle.c_calls.specs.ChosenFields.{Embeds, EmbedsOver, FindsARoot, FindsARootOver, OverField, PreparesField};
ghost use Rattle.c_calls.specs.ChosenFields.{HaveLogarithms, IsLogarithm, TakesLogarithms, TakesPrimitive, TakesQuotients, TakesTraces};
ghost use Rattle.c_calls.specs.ChosenFields.{chosen_field};
ghost use Rattle.c_calls.specs.Fields.{wide_number};

use crate::chosen_words::{ChosenWords, extension_of, field_of_words};
use crate::field_operations::{Embedded, Quotient, Tabled, Traced};
use crate::field_words::ChosenField;
use crate::operations::{Square, SquareRoot, Sum};
use crate::scalars::ScalarWords;
use crate::wide::Wide;
use crate::{many, slices, status, values};
use any_field::{BinaryExtension, Embedding, Logarithms};
use field_base::{Holds, Reads};

// From so many bits on, those of all words, tables of the images by an embedding pay.
const TABLED: usize = 256;

// Up to so many bits elements are looked for along the powers of a base, whose order is found in wider fields.
const WALKED: u32 = 8;

/// Writes the words of the field modulo x^degree + tail.
pub fn init(field: &mut ChosenField, degree: u64, tail: Wide) -> u32
    ensures { PreparesField degree (wide_number tail) field.old field.new result }
{
    match extension_of(degree, tail.stored()) {
        None => status::REDUCIBLE,
        Some(_) => {
            let spare = Wide::of_stored(0);
            *field = ChosenField {
                degree,
                tail,
                spare,
            };
            status::OK
        }
    }
}

/// Writes the sum of the elements at each place.
pub fn add(named: ChosenField, left: &[Wide], right: &[Wide], sums: &mut [Wide]) -> u32
    ensures { OverField named (Adds (chosen_field named) left.now right.now sums.old sums.new result) sums.old sums.new result }
{
    match field_of_words(named) {
        None => status::REDUCIBLE,
        Some(field) => slices::write_each_of_two(
            ChosenWords { named, field },
            left,
            right,
            sums,
            &Sum,
        ),
    }
}

/// Writes the product of the elements at each place.
pub fn multiply(named: ChosenField, left: &[Wide], right: &[Wide], products: &mut [Wide]) -> u32
    ensures { OverField named (Multiplies (chosen_field named) left.now right.now products.old products.new result)
        products.old products.new result }
{
    match field_of_words(named) {
        None => status::REDUCIBLE,
        Some(field) => many::multiply(ChosenWords { named, field }, left, right, products),
    }
}

/// Writes the product of each element and the scalar.
pub fn multiply_by(named: ChosenField, words: &[Wide], scalar: Wide, products: &mut [Wide]) -> u32
    ensures { OverField named (MultipliesBy (chosen_field named) scalar words.now products.old products.new result)
        products.old products.new result }
{
    match field_of_words(named) {
        None => status::REDUCIBLE,
        Some(field) => many::multiply_by(ChosenWords { named, field }, words, scalar, products),
    }
}

/// Writes the quotient of the elements at each place, and 0 where the divisor is 0.
pub fn divide(named: ChosenField, left: &[Wide], right: &[Wide], quotients: &mut [Wide]) -> u32
    ensures { OverField named (TakesQuotients (chosen_field named) left.now right.now quotients.old quotients.new result)
        quotients.old quotients.new result }
{
    match field_of_words(named) {
        None => status::REDUCIBLE,
        Some(field) => slices::write_each_of_two(
            ChosenWords { named, field },
            left,
            right,
            quotients,
            &Quotient,
        ),
    }
}

/// Writes the sum of the products of the elements at each place, which is 0 of none.
pub fn dot_product(named: ChosenField, left: &[Wide], right: &[Wide], sum: &mut Wide) -> u32
    ensures { OverField named (TakesDotProduct (chosen_field named) left.now right.now sum.old sum.new result) sum.old sum.new result }
{
    match field_of_words(named) {
        None => status::REDUCIBLE,
        Some(field) => many::dot_product(ChosenWords { named, field }, left, right, sum),
    }
}

/// Writes the value at each point of the polynomial with these coefficients, the constant one first.
pub fn evaluate(
    named: ChosenField,
    coefficients: &[Wide],
    points: &[Wide],
    values: &mut [Wide],
) -> u32
    ensures { OverField named (Evaluates (chosen_field named) coefficients.now points.now values.old values.new result)
        values.old values.new result }
{
    match field_of_words(named) {
        None => status::REDUCIBLE,
        Some(field) => values::evaluate(ChosenWords { named, field }, coefficients, points, values),
    }
}

/// Writes the square of each element.
pub fn square(named: ChosenField, words: &[Wide], squares: &mut [Wide]) -> u32
    ensures { OverField named (Squares (chosen_field named) words.now squares.old squares.new result) squares.old squares.new result }
{
    match field_of_words(named) {
        None => status::REDUCIBLE,
        Some(field) => slices::write_each(
            ChosenWords { named, field },
            words,
            squares,
            &Square,
            false,
        ),
    }
}

/// Writes the inverse of each element, and 0 for 0.
pub fn inverse(named: ChosenField, words: &[Wide], inverses: &mut [Wide]) -> u32
    ensures { OverField named (Inverts (chosen_field named) words.now inverses.old inverses.new result) inverses.old inverses.new result }
{
    match field_of_words(named) {
        None => status::REDUCIBLE,
        Some(field) => many::batch_invert(ChosenWords { named, field }, words, inverses),
    }
}

/// Writes the square root of each element.
pub fn square_root(named: ChosenField, words: &[Wide], roots: &mut [Wide]) -> u32
    ensures { OverField named (TakesRoots (chosen_field named) words.now roots.old roots.new result) roots.old roots.new result }
{
    match field_of_words(named) {
        None => status::REDUCIBLE,
        Some(field) => slices::write_each(
            ChosenWords { named, field },
            words,
            roots,
            &SquareRoot,
            false,
        ),
    }
}

/// Writes each element to the power of the exponent; to the power of 0 it is 1.
pub fn power(named: ChosenField, words: &[Wide], exponent: u64, powers: &mut [Wide]) -> u32
    ensures { OverField named (RaisesTo (chosen_field named) exponent words.now powers.old powers.new result) powers.old powers.new result }
{
    match field_of_words(named) {
        None => status::REDUCIBLE,
        Some(field) => many::raise(ChosenWords { named, field }, words, exponent, powers),
    }
}

/// Writes the trace of each element over GF(2): 0 or 1.
pub fn trace(named: ChosenField, words: &[Wide], traces: &mut [Wide]) -> u32
    ensures { OverField named (TakesTraces (chosen_field named) words.now traces.old traces.new result) traces.old traces.new result }
{
    match field_of_words(named) {
        None => status::REDUCIBLE,
        Some(field) => slices::write_each(
            ChosenWords { named, field },
            words,
            traces,
            &Traced,
            false,
        ),
    }
}

/// Writes the least primitive element, which is below 65,536 in every field that has been looked at; `UNSOLVABLE` where none is.
pub fn primitive_element(named: ChosenField, element: &mut Wide) -> u32
    ensures { OverField named (TakesPrimitive (chosen_field named) element.old element.new result) element.old element.new result }
{
    match field_of_words(named) {
        None => status::REDUCIBLE,
        Some(field) => write_primitive(ChosenWords { named, field }, element),
    }
}

// Writes the least primitive element.
fn write_primitive(field: ChosenWords, element: &mut Wide) -> u32
    ensures { TakesPrimitive (chosen_field field.named) element.old element.new result }
{
    match field.field.primitive_element() {
        None => status::UNSOLVABLE,
        Some(found) => {
            *element = Wide::of_stored(found);
            status::OK
        }
    }
}

/// Writes the logarithm of each element to the base: an exponent to which the power of the base is the element, the least one where the
/// numbers of the table of primes are prime. `UNSOLVABLE` exactly where an element is no power of the base.
pub fn logarithm(named: ChosenField, words: &[Wide], base: Wide, logarithms: &mut [Wide]) -> u32
    ensures { OverField named (TakesLogarithms (chosen_field named) base words.now logarithms.old logarithms.new result)
        logarithms.old logarithms.new result }
{
    match field_of_words(named) {
        None => status::REDUCIBLE,
        Some(field) => write_logarithms(ChosenWords { named, field }, words, base, logarithms),
    }
}

// Writes the logarithm of each element to the base.
fn write_logarithms(field: ChosenWords, words: &[Wide], base: Wide, logarithms: &mut [Wide]) -> u32
    ensures { TakesLogarithms (chosen_field field.named) base words.now logarithms.old logarithms.new result }
{
    if words.len() != logarithms.len() {
        return status::LENGTH;
    }
    if !field.is_element(base) || !field.are_elements(words) {
        return status::NOT_AN_ELEMENT;
    }
    let base_number = base.stored();
    let to = logarithms_to(field.field, base_number);
    if !have_logarithms(field, to, words, base_number) {
        return status::UNSOLVABLE;
    }
    for place in 0..logarithms.len() {
        let x = words[place].stored();
        let exponent = known_logarithm(field, to, x, base_number);
        logarithms[place] = Wide::of_stored(exponent);
    }
    status::OK
}

// The logarithms to the base, whose order is found once for all words, where that pays.
fn logarithms_to(field: BinaryExtension, base: u128) -> Option<Logarithms>
    ensures { IfSome result (λ to. (to.field ≡ field) × (to.base ≡ base)) }
{
    if field.degree() <= WALKED {
        return None;
    }
    Some(field.logarithms(base))
}

// Whether every word is a power of the base.
fn have_logarithms(field: ChosenWords, to: Option<Logarithms>, words: &[Wide], base: u128) -> bool
    requires elements { AreElements (chosen_field field.named) words.now }
    requires same { IfSome to (λ known. (known.field ≡ field.field) × (known.base ≡ base)) }
    ensures { IsTrue result ↔ HaveLogarithms (chosen_field field.named) base words.now }
{
    for place in 0..words.len() {
        let x = words[place].stored();
        match logarithm_of(field, to, x, base) {
            None => return false,
            Some(_) => {}
        }
    }
    true
}

// The logarithm of an element that has one.
fn known_logarithm(field: ChosenWords, to: Option<Logarithms>, x: u128, base: u128) -> u128
    requires fits { x < 2 ^ field.named.degree }
    requires same { IfSome to (λ known. (known.field ≡ field.field) × (known.base ≡ base)) }
    requires power { (e : ℕ) × (power 1 (chosen_field field.named).times base e ≡ x) }
    ensures { IsLogarithm (chosen_field field.named).times base x result }
{
    match logarithm_of(field, to, x, base) {
        None => 0,
        Some(exponent) => exponent,
    }
}

// The logarithm of an element: along the powers where the order of the base is not found.
fn logarithm_of(field: ChosenWords, to: Option<Logarithms>, x: u128, base: u128) -> Option<u128>
    requires fits { x < 2 ^ field.named.degree }
    requires same { IfSome to (λ known. (known.field ≡ field.field) × (known.base ≡ base)) }
    ensures found { IfSome result (λ e. IsLogarithm (chosen_field field.named).times base x e) }
    ensures none { IfNone result ((k : ℕ) → power 1 (chosen_field field.named).times base k ≢ x) }
{
    match to {
        None => field.field.logarithm(x, base),
        Some(known) => known.of(x),
    }
}

/// Writes a root of the modulus of `source` in `target`, by which `embed` takes elements of the first to the second; `UNSOLVABLE` exactly
/// where the degree of the first does not divide that of the second.
pub fn embedding(source: ChosenField, target: ChosenField, root: &mut Wide) -> u32
    ensures { FindsARootOver source target root.old root.new result }
{
    match field_of_words(source) {
        None => status::REDUCIBLE,
        Some(field) => root_in_field_of(
            ChosenWords {
                named: source,
                field,
            },
            target,
            root,
        ),
    }
}

// Writes a root of the modulus of one field in the field of the words.
fn root_in_field_of(source: ChosenWords, target: ChosenField, root: &mut Wide) -> u32
    ensures { OverField target (FindsARoot source.named.degree (wide_number source.named.tail)
        target.degree (wide_number target.tail) root.old root.new result)
        root.old root.new result }
{
    match field_of_words(target) {
        None => status::REDUCIBLE,
        Some(field) => write_root(
            source,
            ChosenWords {
                named: target,
                field,
            },
            root,
        ),
    }
}

// Writes a root of the modulus of one field in another.
fn write_root(source: ChosenWords, target: ChosenWords, root: &mut Wide) -> u32
    ensures { FindsARoot source.named.degree (wide_number source.named.tail)
        target.named.degree (wide_number target.named.tail) root.old root.new result }
{
    match Embedding::find(source.field, target.field) {
        None => status::UNSOLVABLE,
        Some(map) => {
            *root = Wide::of_stored(map.root());
            status::OK
        }
    }
}

/// Writes the image in `target` of each element of `source` by the embedding that takes x to `root`; `UNSOLVABLE` exactly where that is no
/// root of the modulus of `source`, as `embedding` writes one.
pub fn embed(
    source: ChosenField,
    target: ChosenField,
    root: Wide,
    words: &[Wide],
    images: &mut [Wide],
) -> u32
    ensures { EmbedsOver source target root words.now images.old images.new result }
{
    match field_of_words(source) {
        None => status::REDUCIBLE,
        Some(field) => embed_in_field_of(
            ChosenWords {
                named: source,
                field,
            },
            target,
            root,
            words,
            images,
        ),
    }
}

// Writes the images in the field of the words.
fn embed_in_field_of(
    source: ChosenWords,
    target: ChosenField,
    root: Wide,
    words: &[Wide],
    images: &mut [Wide],
) -> u32
    ensures { OverField target (Embeds source.named.degree (wide_number source.named.tail)
        target.degree (wide_number target.tail) root words.now
        images.old images.new result) images.old images.new result }
{
    match field_of_words(target) {
        None => status::REDUCIBLE,
        Some(field) => write_images(
            source,
            ChosenWords {
                named: target,
                field,
            },
            root,
            words,
            images,
        ),
    }
}

// Writes the images by the embedding that takes x to the root.
fn write_images(
    source: ChosenWords,
    target: ChosenWords,
    root: Wide,
    words: &[Wide],
    images: &mut [Wide],
) -> u32
    ensures { Embeds source.named.degree (wide_number source.named.tail)
        target.named.degree (wide_number target.named.tail) root words.now images.old images.new result }
{
    match Embedding::new(source.field, target.field, root.stored()) {
        None => status::UNSOLVABLE,
        Some(map) => {
            map.is_embedding();
            write_mapped(source, map, words, images)
        }
    }
}

// Writes the images by a map.
fn write_mapped(source: ChosenWords, map: Embedding, words: &[Wide], images: &mut [Wide]) -> u32
    requires { map.source.degree ≡ source.named.degree }
    ensures { CallOnEach (chosen_field source.named)
        (λ x y. y ≡ binary_value (field_product map.target.degree map.target.tail) map.root x) words.now images.old images.new result }
{
    let bits = words.len().saturating_mul(source.field.degree() as usize);
    if bits < TABLED {
        return slices::write_each(source, words, images, &Embedded { map }, false);
    }
    write_tabled(source, map, words, images)
}

// Writes the images by tables of a map.
fn write_tabled(source: ChosenWords, map: Embedding, words: &[Wide], images: &mut [Wide]) -> u32
    requires { map.source.degree ≡ source.named.degree }
    ensures { CallOnEach (chosen_field source.named)
        (λ x y. y ≡ binary_value (field_product map.target.degree map.target.tail) map.root x) words.now images.old images.new result }
{
    let operation = Tabled {
        source,
        images: map.images(),
    };
    slices::write_each(source, words, images, &operation, false)
}
