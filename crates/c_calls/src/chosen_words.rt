// The words of a field that a caller chooses.
ghost use Rattle.std.specs.Prelude.{◌≡◌, ◌↔◌, ◌%◌, ◌^◌, ◌<◌, IfNone, IfSome, IsTrue, bit_xor, length};
ghost use Rattle.std.proofs.Common.{subst};
ghost use Rattle.field_base.specs.Field.{IsField, IsInverseOrZero};
ghost use Rattle.field_base.specs.Powers.{power};
ghost use Rattle.any_field.specs.Contexts.{IsFieldModulus, field_product};
ghost use Rattle.any_field.proofs.ContextFields.{field-at};
ghost use Rattle.many_words.specs.Words.{Each, EachOfTwo};
ghost use Rattle.c_calls.specs.ChosenFields.{NamesAField, chosen_field};
ghost use Rattle.c_calls.specs.Fields.{wide_number};
ghost use Rattle.c_calls.specs.lemmas.Named.{by-words};

use crate::field_words::ChosenField;
use crate::scalars::ScalarWords;
use crate::wide::Wide;
use any_field::{BinaryExtension, Multiples};
use field_base::{Holds, Reads};
use many_words::Sizes;

// From so many words on tables of the products by a scalar pay.
const MAPPED: usize = 32;

/// The arithmetic of a field that a caller chooses, by the words that name it.
#[derive(Clone, Copy)]
pub struct ChosenWords {
    pub(crate) named: ChosenField,
    pub(crate) field: BinaryExtension,
    ghost degree: { field.degree ≡ named.degree },
    ghost tail: { field.tail ≡ wide_number named.tail },
}

/// The field modulo x^degree + tail.
pub(crate) fn extension_of(degree: u64, tail: u128) -> Option<BinaryExtension>
    ensures some { IfSome result (λ field. (field.degree ≡ degree) × (field.tail ≡ tail) × IsFieldModulus degree tail) }
    ensures none { IfNone result (IsFieldModulus degree tail → ⊥) }
{
    if degree > 128 {
        return None;
    }
    match BinaryExtension::new(degree as u32, tail) {
        Ok(field) => Some(field),
        Err(_) => None,
    }
}

/// The field of the words. That the modulus is irreducible is tested anew.
pub(crate) fn field_of_words(words: ChosenField) -> Option<BinaryExtension>
    ensures some { IfSome result (λ field. (field.degree ≡ words.degree) × (field.tail ≡ wide_number words.tail) × NamesAField words) }
    ensures none { IfNone result (NamesAField words → ⊥) }
{
    extension_of(words.degree, words.tail.stored())
}

impl ChosenWords {
    // Whether a number has no bits above the field.
    fn fits(self, number: u128) -> bool
        ensures { IsTrue result ↔ number < 2 ^ self.named.degree }
    {
        self.field.is_element(number)
    }

    /// The bits of a word that are an element.
    pub(crate) fn low_bits(self, word: Wide) -> u128
        ensures { result ≡ wide_number word % 2 ^ self.named.degree }
    {
        self.field.add(word.stored(), 0)
    }

    // The product.
    fn times(self, x: u128, y: u128) -> u128
        ensures { result ≡ field_product self.named.degree (wide_number self.named.tail) x y }
    {
        self.field.multiply(x, y)
    }

    // The power of the exponent.
    fn power_of(self, x: Wide, exponent: u64) -> Wide
        ensures { wide_number result ≡ power 1 (chosen_field self.named).times (wide_number x) exponent }
    {
        Wide::of_stored(self.field.power(x.stored(), u128::from(exponent)))
    }

    // The inverse of an element, and 0 for 0.
    fn inverse_of(self, x: Wide) -> Wide
        requires { wide_number x < 2 ^ self.named.degree }
        ensures fits { wide_number result < 2 ^ self.named.degree }
        ensures inverse { IsInverseOrZero (chosen_field self.named).times (wide_number x) (wide_number result) }
    {
        Wide::of_stored(self.field.invert(x.stored()))
    }

    // The product of a word and the scalar of these tables.
    #[inline]
    fn product_by(self, multiples: &Multiples, word: Wide) -> u128
        requires degree { multiples.now.field.degree ≡ self.field.degree }
        requires tail { multiples.now.field.tail ≡ self.field.tail }
        ensures { result ≡ field_product self.named.degree (wide_number self.named.tail) (wide_number word) multiples.now.scalar }
    {
        multiples.of(self.low_bits(word))
    }

    // Adds to each sum the product of the word at its place and the scalar.
    fn add_products(self, sums: &mut [Wide], words: &[Wide], scalar: u128)
        requires { length words.now ≡ length sums.old }
        ensures long { length sums.new ≡ length sums.old }
        ensures sums { EachOfTwo (chosen_field self.named)
            (λ sum x next. next ≡ bit_xor sum (field_product self.named.degree (wide_number self.named.tail) x scalar)) sums.old words.now
            sums.new }
    {
        for place in 0..sums.len() {
            let product = self.times(words[place].stored(), scalar);
            sums[place] = Wide::of_stored(sums[place].stored() ^ product);
        }
    }

    // The same by tables.
    #[inline(never)]
    fn add_by_tables(self, sums: &mut [Wide], words: &[Wide], scalar: u128)
        requires { length words.now ≡ length sums.old }
        ensures long { length sums.new ≡ length sums.old }
        ensures sums { EachOfTwo (chosen_field self.named)
            (λ sum x next. next ≡ bit_xor sum (field_product self.named.degree (wide_number self.named.tail) x scalar)) sums.old words.now
            sums.new }
    {
        let multiples = self.field.multiples(scalar);
        for place in 0..sums.len() {
            let product = self.product_by(&multiples, words[place]);
            sums[place] = Wide::of_stored(sums[place].stored() ^ product);
        }
    }

    // Multiplies each word by the scalar.
    fn multiply_few(self, words: &mut [Wide], scalar: u128)
        ensures long { length words.new ≡ length words.old }
        ensures products { Each (chosen_field self.named)
            (λ x y. y ≡ field_product self.named.degree (wide_number self.named.tail) x scalar) words.old words.new }
    {
        for place in 0..words.len() {
            let product = self.times(words[place].stored(), scalar);
            words[place] = Wide::of_stored(product);
        }
    }

    // The same by tables.
    #[inline(never)]
    fn multiply_by_tables(self, words: &mut [Wide], scalar: u128)
        ensures long { length words.new ≡ length words.old }
        ensures products { Each (chosen_field self.named)
            (λ x y. y ≡ field_product self.named.degree (wide_number self.named.tail) x scalar) words.old words.new }
    {
        let multiples = self.field.multiples(scalar);
        for place in 0..words.len() {
            let product = self.product_by(&multiples, words[place]);
            words[place] = Wide::of_stored(product);
        }
    }
}

impl ScalarWords for ChosenWords {
    type Word = Wide;

    const LEAST_INVERTED: usize = usize::MAX;

    ghost field = { λ chosen. chosen_field chosen.named };

    fn zero(self) -> Wide {
        Wide::of_stored(0)
    }

    fn one(self) -> Wide {
        Wide::of_stored(1)
    }

    fn is_zero(self, x: Wide) -> bool {
        x.stored() == 0
    }

    fn is_element(self, x: Wide) -> bool {
        self.fits(x.stored())
    }

    // The bits of all words are tested at once.
    fn are_elements(self, words: &[Wide]) -> bool {
        let mut bits: u128 = 0;
        for place in 0..words.len() {
            bits |= words[place].stored();
        }
        self.fits(bits)
    }

    fn truncated(self, x: Wide) -> Wide {
        Wide::of_stored(self.low_bits(x))
    }

    fn add(self, x: Wide, y: Wide) -> Wide {
        Wide::of_stored(x.stored() ^ y.stored())
    }

    fn multiply(self, x: Wide, y: Wide) -> Wide {
        Wide::of_stored(self.times(x.stored(), y.stored()))
    }

    fn square(self, x: Wide) -> Wide {
        Wide::of_stored(self.times(x.stored(), x.stored()))
    }

    fn square_root(self, x: Wide) -> Wide {
        Wide::of_stored(self.field.square_root(x.stored()))
    }

    fn raise(self, x: Wide, exponent: u64) -> Wide {
        self.power_of(x, exponent)
    }

    fn invert(self, x: Wide) -> Wide {
        self.inverse_of(x)
    }

    fn sizes(self) -> Sizes {
        Sizes {
            multiplied: 0,
            block: 1,
            scaled: MAPPED,
            inverted: usize::MAX,
        }
    }

    fn multiply_each(self, words: &mut [Wide], others: &[Wide]) {
        self.field.multiply_words(words, others);
    }

    fn multiply_by(self, words: &mut [Wide], scalar: Wide) {
        if words.len() < MAPPED {
            self.multiply_few(words, scalar.stored());
        } else {
            self.multiply_by_tables(words, scalar.stored());
        }
    }

    fn write_multiples(self, words: &[Wide], scalar: Wide, products: &mut [Wide]) {
        products.copy_from_slice(words);
        self.multiply_by_tables(products, scalar.stored());
    }

    fn add_scaled(self, sums: &mut [Wide], scalar: Wide, words: &[Wide]) {
        if sums.len() < MAPPED {
            self.add_products(sums, words, scalar.stored());
        } else {
            self.add_by_tables(sums, words, scalar.stored());
        }
    }

    fn raise_each(self, words: &mut [Wide], exponent: u64) {
        for place in 0..words.len() {
            words[place] = self.power_of(words[place], exponent);
        }
    }

    fn invert_each(self, words: &mut [Wide]) {
        for place in 0..words.len() {
            words[place] = self.inverse_of(words[place]);
        }
    }

    fn dot_product(self, left: &[Wide], right: &[Wide]) -> Wide {
        Wide::of_stored(self.field.dot_product_of_words(left, right))
    }

    ghost wide_law = { λ chosen. subst (λ n. 0 < n) chosen.degree chosen.field.context.wide };

    ghost field_law = { λ chosen. by-words chosen.named.degree (wide_number chosen.named.tail) (λ d t. IsField d (field_product d t))
        chosen.degree chosen.tail (field-at chosen.field.degree chosen.field.tail chosen.field.ratio chosen.field.context
        chosen.field.irreducible) };
}
