// Fields modulo a polynomial that the line writes, as `gf:8:11b`.
ghost use Rattle.std.specs.Prelude.{◌≡◌, ◌<◌, ◌≤◌, ◌≢◌, ◌↔◌, ◌^◌, ◌+◌, ◌/◌, ◌==◌, IfSome, IsNone, MatchOption, length};
ghost use Rattle.std.specs.List.{position};
ghost use Rattle.std.specs.Option.{option_and_then, option_map};
ghost use Rattle.any_field.specs.Contexts.{field_product, with_top};
ghost use Rattle.calculator.specs.Digits.{decimal_after, decimal_digit, number_after};
ghost use Rattle.calculator.specs.Fields.{field_modulo, polynomials_modulo};
ghost use Rattle.calculator.specs.Moduli.{degree_and_polynomial, modulus_written, number_of_few, parts_at_colon};
ghost use Rattle.calculator.specs.Number.{wide_value};
ghost use Rattle.calculator.specs.Operations.{binary_result, unary_result};

use crate::calculation::Calculates;
use crate::digits::operand_value;
use crate::names::{Binary, Unary};
use crate::number::Number;
use any_field::BinaryExtension;

impl Calculates for BinaryExtension {
    ghost known = { λ field. polynomials_modulo field.degree (with_top field.degree field.tail) };

    fn num_bits(&self) -> usize {
        self.degree() as usize
    }

    fn at_two(&self, operation: Binary, left: Number, right: Number) -> Number {
        let x = left.to_word(self.degree());
        let y = right.to_word(self.degree());
        Number::of_word(binary_result(*self, operation, x, y))
    }

    fn at_one(&self, operation: Unary, operand: Number) -> Option<Number> {
        match unary_result(*self, operation, operand.to_word(self.degree())) {
            Some(result) => Some(Number::of_word(result)),
            None => None,
        }
    }
}

// The result of an operation at two elements.
fn binary_result(field: BinaryExtension, operation: Binary, left: u128, right: u128) -> u128
    ensures { result ≡ binary_result (field_product field.degree field.tail) operation left right }
{
    match operation {
        Binary::Add => left ^ right,
        Binary::Mul => field.multiply(left, right),
    }
}

// The result of an operation at one element; None for the inverse of 0.
fn unary_result(field: BinaryExtension, operation: Unary, operand: u128) -> Option<u128>
    requires { operand < 2 ^ field.degree }
    ensures { result ≡ unary_result field.degree (field_product field.degree field.tail) operation operand }
{
    match operation {
        Unary::Square => Some(field.square(operand)),
        Unary::Inv => inverse_of(field, operand),
        Unary::Sqrt => Some(field.square_root(operand)),
    }
}

// The inverse of an element, by which the product is 1, and None for 0.
fn inverse_of(field: BinaryExtension, x: u128) -> Option<u128>
    requires { x < 2 ^ field.degree }
    ensures none { IsNone result ↔ (x ≡ 0) }
    ensures fits { IfSome result (λ y. y < 2 ^ field.degree) }
    ensures inverse { IfSome result (λ y. field_product field.degree field.tail x y ≡ 1) }
{
    let inverse = field.invert(x);
    if x == 0 { None } else { Some(inverse) }
}

/// The degree and the polynomial that a word writes.
#[tactic(auto, unfolding(crate::specs::Moduli::modulus_written))]
pub(crate) fn modulus_written(word: &[u8]) -> Option<(u32, Number)>
    ensures { option_map (λ found. (found.0, wide_value found.1)) result ≡ modulus_written word.now }
{
    match word.strip_prefix(b"gf:".as_slice()) {
        Some(text) => modulus_in_text(text),
        None => None,
    }
}

// The degree and the polynomial that a text writes, with a colon between.
fn modulus_in_text(text: &[u8]) -> Option<(u32, Number)>
    ensures { option_map (λ found. (found.0, wide_value found.1)) result ≡ option_and_then degree_and_polynomial (parts_at_colon text.now) }
{
    match first_colon(text) {
        Some(colon) => modulus_in_parts(&text[..colon], &text[colon + 1..]),
        None => None,
    }
}

// The place of the first colon.
fn first_colon(text: &[u8]) -> Option<usize>
    ensures { result ≡ position (λ byte. byte == 58) text.now }
{
    text.iter().position(|byte| *byte == b':')
}

// The degree and the polynomial that two parts write.
fn modulus_in_parts(degree: &[u8], polynomial: &[u8]) -> Option<(u32, Number)>
    ensures { option_map (λ found. (found.0, wide_value found.1)) result ≡ degree_and_polynomial (degree.now, polynomial.now) }
{
    match (degree_written(degree), polynomial_written(polynomial)) {
        (Some(degree), Some(polynomial)) => Some((degree, polynomial)),
        _ => None,
    }
}

// The number that 1 to 3 decimal digits write.
fn degree_written(word: &[u8]) -> Option<u32>
    ensures { result ≡ number_of_few 3 (decimal_after 0) word.now }
{
    if word.is_empty() || word.len() > 3 {
        return None;
    }
    decimal_value(word)
}

// The number that at most 3 decimal digits write.
fn decimal_value(word: &[u8]) -> Option<u32>
    requires { length word.now ≤ 3 }
    ensures { result ≡ decimal_after 0 word.now }
{
    let mut number = 0;
    for character in word {
        match decimal_digit(*character) {
            Some(digit) => number = number * 10 + digit,
            None => return None,
        }
    }
    Some(number)
}

// The value of a decimal digit.
fn decimal_digit(character: u8) -> Option<u32>
    ensures value { result ≡ decimal_digit character }
    ensures few { IfSome result (λ digit. digit < 10) }
{
    if b'0' <= character && character <= b'9' {
        Some(u32::from(character - b'0'))
    } else {
        None
    }
}

// The number that 1 to 33 hexadecimal digits write.
fn polynomial_written(word: &[u8]) -> Option<Number>
    ensures { option_map wide_value result ≡ number_of_few 33 (number_after 0) word.now }
{
    if word.is_empty() || word.len() > 33 {
        return None;
    }
    hexadecimal_value(word)
}

// The number that at most 48 hexadecimal digits write: zeros before them make them an operand of 24 bytes.
fn hexadecimal_value(word: &[u8]) -> Option<Number>
    requires { length word.now ≤ 48 }
    ensures { option_map wide_value result ≡ number_after 0 word.now }
{
    let mut digits = [b'0'; 48];
    digits[48 - word.len()..].copy_from_slice(word);
    operand_value(&digits, 24)
}

/// The field modulo a polynomial of that degree.
pub(crate) fn field_modulo(degree: u32, polynomial: Number) -> Option<BinaryExtension>
    ensures { option_map (λ field. polynomials_modulo field.degree (with_top field.degree field.tail)) result
        ≡ field_modulo (degree, wide_value polynomial) }
{
    if degree == 0 || degree > 128 {
        return None;
    }
    match tail_of(degree, polynomial) {
        Some(tail) => BinaryExtension::new(degree, tail).ok(),
        None => None,
    }
}

// The terms of a polynomial of that degree but for its highest; None where it has another degree.
fn tail_of(degree: u32, polynomial: Number) -> Option<u128>
    requires some { 0 < degree }
    requires few { degree ≤ 128 }
    ensures { MatchOption result (wide_value polynomial / 2 ^ degree ≢ 1)
        (λ tail. (tail < 2 ^ degree) × (wide_value polynomial ≡ 2 ^ degree + tail)) }
{
    if degree == 128 {
        return if polynomial.high == 1 {
            Some(polynomial.low)
        } else {
            None
        };
    }
    if polynomial.high != 0 {
        return None;
    }
    let top = power_of_two(degree);
    if polynomial.low / top != 1 {
        return None;
    }
    Some(polynomial.low - top)
}

// 2 to the power of the exponent.
#[tactic(auto, using(any_field::proofs::WordRemainders::one_at))]
fn power_of_two(exponent: u32) -> u128
    requires { exponent < 128 }
    ensures { result ≡ 2 ^ exponent }
{
    1 << exponent
}
