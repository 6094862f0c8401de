// Fields as vector spaces over a smaller field, by their arithmetic on words.
ghost use Rattle.std.specs.Prelude.{◌≡◌, ◌*◌, ◌+◌, ◌<◌, ◌^◌, ℕ};
ghost use Rattle.std.proofs.Common.{lit<, refl, sym};
ghost use native.Mathlib.Nat.{mul-one};
ghost use Rattle.field_base.specs.Chunks.{chunk};
ghost use Rattle.field_base.specs.Remainder.{mul_mod, poly64_modulus};
ghost use Rattle.field_base.proofs.RemainderRing.{poly64_ring};
ghost use Rattle.word_polynomial.specs.lemmas.CubicRing.{chunk-cubic};
ghost use Rattle.word_polynomial.specs.Triple.{triple_number};
ghost use Rattle.field_base.proofs.Coefficients.{scales_one_coefficient};

use field_base::{FieldKernel, Stored};
use field_element::Coefficients;
use word_polynomial::{CubicKernel, Poly64Kernel, Triple};

/// A field `Self`, stored in `R`, whose elements are vectors over the field `J`, stored in `S`: coefficient i of an element is
/// chunk i of its number, of as many bits as an element of `J` has, the lowest first. Every field is a space of dimension 1 over
/// itself.
pub trait SpaceOver<R: Stored, S: Stored, J: FieldKernel<S>>: FieldKernel<R> {
    /// How many coefficients an element has.
    const DIMENSION: usize;

    ghost DIMENSION: { ℕ };

    /// Coefficient `i` of an element.
    fn coefficient(x: R, i: usize) -> S
        requires place { i < DIMENSION }
        requires fits { R.number x < 2 ^ Self.width }
        ensures { S.number result ≡ chunk J.width i (R.number x) };

    /// The element with `coefficient` in place `i`, at an element whose coefficients from there on are 0.
    fn with_coefficient(x: R, i: usize, coefficient: S) -> R
        requires place { i < DIMENSION }
        requires below { R.number x < 2 ^ (J.width * i) }
        requires fits { S.number coefficient < 2 ^ J.width }
        ensures { R.number result ≡ S.number coefficient * 2 ^ (J.width * i) + R.number x };

    ghost dimension_law: { 0 < DIMENSION };

    ghost space_law: { Self.width ≡ J.width * DIMENSION };

    // An element of `J`, as coefficient 0 of an element, multiplies each coefficient of another.
    ghost scale_law: { (i c a : ℕ) → i < DIMENSION → c < 2 ^ J.width
        → chunk J.width i (Self.product c a) ≡ J.product c (chunk J.width i a) };
}

impl<R: Stored, K: FieldKernel<R>> SpaceOver<R, R, K> for K {
    const DIMENSION: usize = 1;

    ghost DIMENSION = { 1 };

    ghost dimension_law = { lit< tt };

    ghost space_law = { sym (mul-one K.width) };

    ghost scale_law = { scales_one_coefficient K.width 1 K.product K.field_law.ring };

    fn coefficient(x: R, _i: usize) -> R {
        x
    }

    fn with_coefficient(_x: R, _i: usize, coefficient: R) -> R {
        coefficient
    }
}

// Three coefficients, which stand in three words.
impl SpaceOver<Coefficients, u64, Poly64Kernel> for CubicKernel {
    const DIMENSION: usize = 3;

    ghost DIMENSION = { 3 };

    ghost dimension_law = { lit< tt };

    ghost space_law = { refl };

    ghost scale_law = { chunk-cubic 64 (mul_mod 64 poly64_modulus) poly64_ring };

    fn coefficient(x: Coefficients, i: usize) -> u64 {
        let words = x.words();
        match i {
            0 => words.c0,
            1 => words.c1,
            _ => words.c2,
        }
    }

    fn with_coefficient(x: Coefficients, i: usize, coefficient: u64) -> Coefficients {
        Coefficients::of_words(put_word(x.words(), i, coefficient))
    }
}

// The words with `word` in place `i`, at words which are 0 from there on.
fn put_word(words: Triple, i: usize, word: u64) -> Triple
    requires place { i < 3 }
    requires below { triple_number words < 2 ^ (64 * i) }
    ensures { triple_number result ≡ word * 2 ^ (64 * i) + triple_number words }
{
    match i {
        0 => Triple::of_low(word),
        1 => Triple {
            c0: words.c0,
            c1: word,
            c2: 0,
        },
        _ => Triple {
            c0: words.c0,
            c1: words.c1,
            c2: word,
        },
    }
}
