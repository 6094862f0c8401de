// Fields of at most 65,536 elements, as codes over words of 16 bits compute in them. Bit i of a word is the coefficient of x^i.
ghost use Rattle.std.specs.Prelude.{◌≡◌, ◌≢◌, ◌<◌, ◌≤◌, ◌^◌, ◌↔◌, ℕ, IfErr, IfOk, IsTrue, length};
ghost use Rattle.field_base.specs.Field.{IsField};
ghost use Rattle.any_field.specs.Contexts.{field_product};
ghost use Rattle.any_field.proofs.ContextFields.{field-at};
ghost use Rattle.reed_solomon.specs.ByteFields.{byte_times};
ghost use Rattle.error_codes.specs.FieldCodes.{AreSymbols};
ghost use Rattle.reed_solomon.proofs.ByteFields.{bytes-narrow, bytes-wide, bytes_are_fields};
ghost use Rattle.error_codes.specs.declared.error.CodeError.TheVariants.{TooLong};

use crate::error::CodeError;
use any_field::BinaryExtension;
use reed_solomon::byte_field::{self, ByteField};

/// A field of characteristic two with at most 65,536 elements. An element is a word whose number has no bit above the field.
pub trait SymbolField: Copy {
    // The bits of an element, and the product over numbers.
    ghost width: { Self → ℕ };

    ghost product: { Self → ℕ → ℕ → ℕ };

    /// Whether the word is an element.
    fn is_element(self, x: u16) -> bool
        ensures { IsTrue result ↔ x < 2 ^ width self };

    /// The product, which reads the bits of the field alone.
    fn multiply(self, x: u16, y: u16) -> u16
        ensures { result ≡ product self x y };

    /// The inverse of an element other than 0.
    fn invert(self, x: u16) -> u16
        ensures { x < 2 ^ width self → x ≢ 0 → product self x result ≡ 1 };

    ghost wide_law: { (field : Self) → 0 < width field };

    ghost field_law: { (field : Self) → IsField (width field) (product field) };

    ghost narrow_law: { (field : Self) → width field ≤ 16 };
}

/// A field of 2^1 to 2^16 elements modulo any irreducible polynomial, as degree 16 and the tail 0x100b give that of PAR2.
#[derive(Clone, Copy)]
pub struct WordField {
    pub(crate) field: BinaryExtension,
    ghost narrow: { field.degree ≤ 16 },
}

impl WordField {
    /// The field with words of 16 bits for its elements. The error is `TooLong`, and exactly where its degree is above 16.
    pub fn new(field: BinaryExtension) -> Result<WordField, CodeError>
        ensures made { IfOk result (λ words. words.field ≡ field) }
        ensures refused { IfErr result (λ error. 16 < field.degree) }
        ensures long { IfErr result (λ error. error ≡ TooLong) }
    {
        if field.degree() > 16 {
            return Err(CodeError::TooLong);
        }
        Ok(WordField { field })
    }
}

impl SymbolField for WordField {
    ghost width = { λ words. words.field.degree };

    ghost product = { λ words. field_product words.field.degree words.field.tail };

    fn is_element(self, x: u16) -> bool {
        self.field.is_element(x as u128)
    }

    fn multiply(self, x: u16, y: u16) -> u16 {
        self.field.multiply(x as u128, y as u128) as u16
    }

    fn invert(self, x: u16) -> u16 {
        self.field.invert(x as u128) as u16
    }

    ghost wide_law = { λ words. words.field.context.wide };

    ghost field_law = { λ words. field-at words.field.degree words.field.tail words.field.ratio words.field.context
        words.field.irreducible };

    ghost narrow_law = { λ words. words.narrow };
}

/// Bytes, as the low halves of words.
impl SymbolField for ByteField {
    ghost width = { λ _. 8 };

    ghost product = { byte_times };

    fn is_element(self, x: u16) -> bool {
        x < 256
    }

    fn multiply(self, x: u16, y: u16) -> u16 {
        byte_field::multiply(self, (x % 256) as u8, (y % 256) as u8) as u16
    }

    fn invert(self, x: u16) -> u16 {
        let byte = (x % 256) as u8;
        if byte == 0 {
            return 0;
        }
        byte_field::invert(self, byte) as u16
    }

    ghost wide_law = { bytes-wide };

    ghost field_law = { bytes_are_fields };

    ghost narrow_law = { bytes-narrow };
}

// Writes bytes as words.
pub(crate) fn widen(bytes: &[u8], words: &mut [u16])
    requires { length words.old ≡ length bytes.now }
    ensures { words.new ≡ bytes.now }
{
    for i in 0..bytes.len() {
        words[i] = bytes[i] as u16;
    }
}

// Writes words that are bytes.
pub(crate) fn narrow(words: &[u16], bytes: &mut [u8])
    requires long { length bytes.old ≡ length words.now }
    requires bytes { AreSymbols 8 (length words.now) words.now }
    ensures { bytes.new ≡ words.now }
{
    for i in 0..words.len() {
        bytes[i] = words[i] as u8;
    }
}
