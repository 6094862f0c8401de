// Operations on the elements of a field that operands write.
ghost use Rattle.std.specs.Prelude.{◌≡◌, ◌≤◌, ◌<◌, ◌^◌};
ghost use Rattle.std.specs.Option.{option_map};
ghost use Rattle.calculator.specs.Answer.{answer_to_rest, answer_to_operands, answer_to_two, answer_to_one, operand_number};
ghost use Rattle.calculator.specs.Fields.{WrittenField, bytes_of};
ghost use Rattle.calculator.specs.Number.{wide_value};
ghost use Rattle.calculator.specs.Operations.{binary_result, unary_result};
ghost use Rattle.calculator.specs.Text.{text_of};
ghost use Rattle.calculator.specs.Words.{words};

use crate::digits::operand_value;
use crate::names::{Binary, Fault, Operation, Unary, operation_named};
use crate::number::Number;
use crate::text::Answer;
use crate::words::next_word;

/// A field in which lines are answered. Its elements are the numbers that texts write.
pub(crate) trait Calculates {
    // The field of the definitions.
    ghost known: { Self → WrittenField };

    /// The bits of an element.
    fn num_bits(&self) -> usize
        ensures bits { result ≡ (known self.now).bits }
        ensures some { 0 < result }
        ensures few { result ≤ 192 };

    /// The result of an operation at two elements.
    fn at_two(&self, operation: Binary, left: Number, right: Number) -> Number
        requires left { wide_value left < 2 ^ (known self.now).bits }
        requires right { wide_value right < 2 ^ (known self.now).bits }
        ensures { let field = known self.now in wide_value result
            ≡ field.order (binary_result field.times operation (field.order (wide_value left)) (field.order (wide_value right))) };

    /// The result of an operation at one element; None for the inverse of 0.
    fn at_one(&self, operation: Unary, operand: Number) -> Option<Number>
        requires { wide_value operand < 2 ^ (known self.now).bits }
        ensures { let field = known self.now in option_map wide_value result
            ≡ option_map field.order (unary_result field.bits field.times operation (field.order (wide_value operand))) };
}

/// The answer to what follows the name of the field: the name of an operation, and operands.
pub(crate) fn answer_to_rest<C: Calculates>(field: &C, rest: &[u8]) -> Result<Answer, Fault>
    ensures { text_of result ≡ answer_to_rest (C.known field.now) (words rest.now) }
{
    let (name, operands) = next_word(rest).ok_or(Fault::Operation)?;
    let operation = operation_named(name).ok_or(Fault::Operation)?;
    answer_to_operands(field, operation, operands)
}

// The answer by the operation and the operands that follow it.
fn answer_to_operands<C: Calculates>(
    field: &C,
    operation: Operation,
    operands: &[u8],
) -> Result<Answer, Fault>
    ensures { text_of result ≡ answer_to_operands (C.known field.now) operation (words operands.now) }
{
    let (first, rest) = next_word(operands).ok_or(Fault::Operands)?;
    match operation {
        Operation::OfTwo(binary) => {
            let (second, rest) = next_word(rest).ok_or(Fault::Operands)?;
            if next_word(rest).is_some() {
                return Err(Fault::Operands);
            }
            answer_to_two(field, binary, first, second)
        }
        Operation::OfOne(unary) => {
            if next_word(rest).is_some() {
                return Err(Fault::Operands);
            }
            answer_to_one(field, unary, first)
        }
    }
}

// The answer to two operands.
fn answer_to_two<C: Calculates>(
    field: &C,
    operation: Binary,
    left: &[u8],
    right: &[u8],
) -> Result<Answer, Fault>
    ensures { let known = C.known field.now in
        text_of result ≡ answer_to_two known operation (operand_number known left.now) (operand_number known right.now) }
{
    let num_bytes = num_bytes(field);
    let left = operand_value(left, num_bytes).ok_or(Fault::Digits)?;
    let right = operand_value(right, num_bytes).ok_or(Fault::Digits)?;
    if !left.fits(field.num_bits()) || !right.fits(field.num_bits()) {
        return Err(Fault::Range);
    }
    let result = field.at_two(operation, left, right);
    Ok(Answer::from_number(result, num_bytes))
}

// The answer to one operand.
fn answer_to_one<C: Calculates>(
    field: &C,
    operation: Unary,
    operand: &[u8],
) -> Result<Answer, Fault>
    ensures { let known = C.known field.now in
        text_of result ≡ answer_to_one known operation (operand_number known operand.now) }
{
    let num_bytes = num_bytes(field);
    let operand = operand_value(operand, num_bytes).ok_or(Fault::Digits)?;
    if !operand.fits(field.num_bits()) {
        return Err(Fault::Range);
    }
    Ok(match field.at_one(operation, operand) {
        Some(result) => Answer::from_number(result, num_bytes),
        None => Answer::from_text(b"none"),
    })
}

// How many bytes an element has; its text has two digits for each.
fn num_bytes<C: Calculates>(field: &C) -> usize
    ensures known { result ≡ bytes_of (C.known field.now) }
    ensures few { result ≤ 24 }
{
    field.num_bits().div_ceil(8)
}
