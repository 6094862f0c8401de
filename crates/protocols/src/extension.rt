// The low-degree extension of a message, which is a Reed-Solomon code word: the message, and its polynomial's values at more points.
ghost use Rattle.std.specs.Prelude.{◌≡◌, ◌+◌, ◌*◌, ◌≤◌, ◌<◌, ◌^◌, List, ℕ, length, map, take, IfOk, OnOk};
ghost use Rattle.ghash_slices.specs.Cantor.{point};
ghost use Rattle.ghash_slices.specs.LowStages.{ghash_cantor_vector};
ghost use Rattle.additive_transforms.specs.Transform.{AreOnlyCoefficients, HoldPolynomialValues, HoldValuesAtPoints};
ghost use Rattle.protocols.specs.CodeWords.{IsCodeWord, IsCodeWordOf, PartsDetermine};

use additive_transforms::{
    element_point, forward_elements, forward_numbers, inverse_elements, inverse_numbers, point,
};
use field_base::traits::TowerLevel;
use std::alloc::{AllocError, Allocator};

/// The code word of a message of 2^levels symbols, levels from 0 to 39: the message, and 2^levels symbols of parity. Symbol p is
/// the value at point p of one polynomial of 2^levels coefficients. It fails if memory was refused.
pub fn encode<A: Allocator + Copy>(
    alloc: A,
    message: &[u128],
    levels: usize,
) -> Result<Vec<u128, A>, AllocError>
    requires few { levels ≤ 39 }
    requires count { length message.now ≡ 2 ^ levels }
    ensures systematic { IfOk result (λ word. take (2 ^ levels) word.items ≡ message.now) }
    ensures code_word { IfOk result (λ word. IsCodeWord levels word.items) }
{
    let mut parity = Vec::from_slice(alloc, message)?;
    move_on(alloc, parity.as_mut_slice(), levels)?;
    let mut word = Vec::from_slice(alloc, message)?;
    word.extend_from_slice(parity.as_slice())?;
    Ok(word)
}

// Replaces the values of a polynomial at the first 2^levels points by its values at the next 2^levels points: the inverse transform
// gives its coefficients, and the shift of the forward one is the point behind the first.
fn move_on<A: Allocator>(alloc: A, values: &mut [u128], levels: usize) -> Result<(), AllocError>
    requires few { levels ≤ 39 }
    requires count { length values.old ≡ 2 ^ levels }
    ensures length { length values.new ≡ length values.old }
    ensures moved { OnOk result ((coefficients : List ℕ) × AreOnlyCoefficients 0 values.old coefficients
        × (length coefficients ≡ 2 ^ levels)
        × HoldPolynomialValues (point 128 ghash_cantor_vector 0 (2 ^ levels)) coefficients values.new) }
{
    inverse_numbers(values, 0);
    let shift = point(0, values.len() as u128);
    forward_numbers(alloc, values, shift)?;
    Ok(())
}

/// The code word of a message of 2^levels elements at the rate 1/2^expansion, over any field with Cantor vectors: 2^(expansion + levels)
/// elements, of which element p is the value at point p of one polynomial of 2^levels coefficients, and the first 2^levels are the
/// message. The field has to have the points: expansion + levels is at most its bits, and at most 40. One inverse transform gives the
/// coefficients, and a forward one at a shift each further block. It fails if memory was refused.
pub fn extend<F: TowerLevel, A: Allocator + Copy>(
    alloc: A,
    message: &[F],
    levels: usize,
    expansion: usize,
) -> Result<Vec<F, A>, AllocError>
    requires few { expansion + levels ≤ 40 }
    requires points { expansion + levels ≤ F.width }
    requires count { length message.now ≡ 2 ^ levels }
    ensures systematic { IfOk result (λ word. take (2 ^ levels) word.items ≡ message.now) }
    ensures code_word { IfOk result (λ word. IsCodeWordOf F.width F.product (λ i. F.basis (F.cantor i)) levels expansion
        (map F.repr word.items)) }
{
    let coefficients = coefficients_of(alloc, message, levels)?;
    let mut word = Vec::from_slice(alloc, message)?;
    for block in 1..1 << expansion {
        let values = block_of(alloc, coefficients.as_slice(), levels, block)?;
        word.extend_from_slice(values.as_slice())?;
    }
    Ok(word)
}

// The 2^levels coefficients of the polynomial that has these values at the first points.
fn coefficients_of<F: TowerLevel, A: Allocator>(
    alloc: A,
    values: &[F],
    levels: usize,
) -> Result<Vec<F, A>, AllocError>
    requires few { levels ≤ 40 }
    requires points { levels ≤ F.width }
    requires count { length values.now ≡ 2 ^ levels }
    ensures count { IfOk result (λ coefficients. length coefficients.items ≡ 2 ^ levels) }
    ensures values { IfOk result (λ coefficients. HoldValuesAtPoints F.width F.product (λ i. F.basis (F.cantor i)) 0
        (map F.repr coefficients.items) (map F.repr values.now)) }
{
    let mut coefficients = Vec::from_slice(alloc, values)?;
    inverse_elements(coefficients.as_mut_slice(), F::ZERO);
    Ok(coefficients)
}

// The values of the polynomial with these 2^levels coefficients at the points of a block of as many.
fn block_of<F: TowerLevel, A: Allocator>(
    alloc: A,
    coefficients: &[F],
    levels: usize,
    block: usize,
) -> Result<Vec<F, A>, AllocError>
    requires few { levels ≤ 40 }
    requires points { levels ≤ F.width }
    requires count { length coefficients.now ≡ 2 ^ levels }
    requires room { block * 2 ^ levels < 2 ^ 64 }
    ensures count { IfOk result (λ values. length values.items ≡ 2 ^ levels) }
    ensures values { IfOk result (λ values. HoldValuesAtPoints F.width F.product (λ i. F.basis (F.cantor i))
        (point F.width (λ i. F.basis (F.cantor i)) 0 (block * 2 ^ levels)) (map F.repr coefficients.now) (map F.repr values.items)) }
{
    let first = (block * coefficients.len()) as u128;
    let mut values = Vec::from_slice(alloc, coefficients)?;
    forward_elements(values.as_mut_slice(), element_point(F::ZERO, first));
    Ok(values)
}

/// States that as many symbols of a code word as the message has determine the others, in every field and at every rate: two different
/// code words of 2^k-symbol messages agree at fewer than 2^k places.
pub fn parts_determine()
    ensures { PartsDetermine }
{}
