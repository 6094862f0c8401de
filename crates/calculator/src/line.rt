// The answer to a line, and the table of the fields that it may name.
ghost use Rattle.std.specs.Prelude.{◌≡◌, None, Some};
ghost use Rattle.std.specs.Str.{is_utf8};
ghost use Rattle.calculator.specs.Answer.{answer_of, answer_by_field, answer_to_rest};
ghost use Rattle.calculator.specs.Fields.{field_modulo, field_named, fields, look_up, polynomials_modulo, tower_level, written_field};
ghost use Rattle.calculator.specs.Moduli.{modulus_written};
ghost use Rattle.calculator.specs.Number.{wide_value};
ghost use Rattle.calculator.specs.Words.{words};
ghost use Rattle.calculator.specs.Text.{answer_bytes, text_of};

use crate::calculation::answer_to_rest;
use crate::chosen::{field_modulo, modulus_written};
use crate::fixed::Fixed;
use crate::names::Fault;
use crate::number::Number;
use crate::operand::Written;
use crate::text::Answer;
use crate::words::next_word;
use field_base::{Stored, Unsigned};
use std::marker::PhantomData;
use word_polynomial::{
    CubicKernel, GhashModulus, Modulus, Poly64Modulus, Polynomials, RijndaelModulus, Triple,
};
use word_tower::{Bits1, Bits2, Bits4, Bits8, Bits16, Bits32, Bits64, Bits128, Level, Tower};

/// The answer to a line: the result of its operation as hexadecimal text, `none` for the inverse of 0, or `error` and
/// the number of what is wrong with it. It allocates nothing.
pub fn answer(line: &[u8]) -> Answer
    ensures { answer_bytes result ≡ answer_of line.now }
{
    match calculated(line) {
        Ok(answer) => answer,
        Err(fault) => Answer::from_text(fault.text()),
    }
}

#[tactic(auto, unfolding(crate::specs::Answer::answer_of))]
fn calculated(line: &[u8]) -> Result<Answer, Fault>
    ensures { text_of result ≡ answer_of line.now }
{
    if !is_text(line) {
        return Err(Fault::Encoding);
    }
    let (field, rest) = next_word(line).ok_or(Fault::Field)?;
    in_field(field, rest)
}

// Whether the line is UTF-8.
fn is_text(line: &[u8]) -> bool
    ensures { result ≡ is_utf8 line.now }
{
    std::str::from_utf8(line).is_ok()
}

// The answer by the word of the field and what follows it.
fn in_field(word: &[u8], rest: &[u8]) -> Result<Answer, Fault>
    ensures { text_of result ≡ answer_by_field (modulus_written word.now) (field_named word.now) (words rest.now) }
{
    match modulus_written(word) {
        Some((degree, polynomial)) => in_field_modulo(degree, polynomial, rest),
        None => in_field_named(word, rest),
    }
}

// The answer to what follows a modulus.
fn in_field_modulo(degree: u32, polynomial: Number, rest: &[u8]) -> Result<Answer, Fault>
    ensures { text_of result ≡ answer_by_field (Some (degree, wide_value polynomial)) (field_modulo (degree, wide_value polynomial))
        (words rest.now) }
{
    match field_modulo(degree, polynomial) {
        Some(field) => answer_to_rest(&field, rest),
        None => Err(Fault::Modulus),
    }
}

// The answer by the name of the field and what follows it. Each field that has a name has one arm here and one row in
// specs/Fields.antt.
fn in_field_named(name: &[u8], rest: &[u8]) -> Result<Answer, Fault>
    ensures { text_of result ≡ answer_by_field None (look_up name.now fields) (words rest.now) }
{
    match name {
        b"gf2" => in_level::<u8, Bits1>(rest),
        b"t2" => in_level::<u8, Bits2>(rest),
        b"t4" => in_level::<u8, Bits4>(rest),
        b"t8" => in_level::<u8, Bits8>(rest),
        b"t16" => in_level::<u16, Bits16>(rest),
        b"t32" => in_level::<u32, Bits32>(rest),
        b"t64" => in_level::<u64, Bits64>(rest),
        b"t128" => in_level::<u128, Bits128>(rest),
        b"r8" => modulo::<u8, Bits8, RijndaelModulus>(rest),
        b"p64" => modulo::<u64, Bits64, Poly64Modulus>(rest),
        b"g128" => modulo::<u128, Bits128, GhashModulus>(rest),
        b"p192" => in_kernel::<Triple, CubicKernel>(rest),
        _ => Err(Fault::Field),
    }
}

// The answer to what follows the name of a level of the tower.
fn in_level<R: Unsigned, L: Level<R>>(rest: &[u8]) -> Result<Answer, Fault>
    ensures { text_of result ≡ answer_to_rest (tower_level L.LEVEL) (words rest.now) }
{
    in_kernel::<R, Tower<L>>(rest)
}

// The answer to what follows the name of a field of polynomials.
fn modulo<R: Unsigned, L: Level<R>, M: Modulus<R, L>>(rest: &[u8]) -> Result<Answer, Fault>
    ensures { text_of result ≡ answer_to_rest (polynomials_modulo M.width M.modulus) (words rest.now) }
{
    in_kernel::<R, Polynomials<M, L>>(rest)
}

// The answer to what follows the name of the field of a kernel.
fn in_kernel<R: Stored, K: Written<R>>(rest: &[u8]) -> Result<Answer, Fault>
    ensures { text_of result ≡ answer_to_rest (written_field K.width K.product K.order) (words rest.now) }
{
    let field = Fixed::<R, K> {
        word: PhantomData,
        kernel: PhantomData,
    };
    answer_to_rest(&field, rest)
}
