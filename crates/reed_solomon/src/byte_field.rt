//! The fields of bytes that codes and shares use, by tables: a product is a generator of the field to the power of the sum of the
//! logarithms of its factors. Those of the bytes of AES are `word_tables::rijndael`. Bit i of a byte is the coefficient of x^i.
ghost use Rattle.std.specs.Prelude.{◌≡◌, ◌≢◌, ◌-◌, ◌<◌, ◌≤◌, ℕ, slice_index};
ghost use Rattle.field_base.specs.Field.{IsField};
ghost use Rattle.field_base.specs.LinearMaps.{linear_image};
ghost use Rattle.field_base.specs.Powers.{power};
ghost use Rattle.reed_solomon.specs.ByteFields.{byte_generator, byte_times};
ghost use Rattle.reed_solomon.specs.declared.byte_field.ByteField.TheVariants.{Qr};

pub(crate) mod literals;

use field_base::log_tables::power_of_sum;
use word_tables::rijndael;

/// A field of 256 elements, given by its modulus and by the generator that standards name.
#[derive(Clone, Copy, Debug, PartialEq, Eq)]
pub enum ByteField {
    /// Modulo x^8 + x^4 + x^3 + x^2 + 1 (0x11d), with the generator 2: QR codes (ISO/IEC 18004), DVB (ETSI EN 300 421), most erasure
    /// codes, and the shares of libgfshare.
    Qr,
    /// Modulo x^8 + x^7 + x^2 + x + 1 (0x187), with the generator 2: telemetry (CCSDS 131.0-B).
    Ccsds,
    /// Modulo x^8 + x^4 + x^3 + x + 1 (0x11b), with the generator 3: the bytes of AES (FIPS 197), and the shares of SLIP-0039.
    Rijndael,
}

/// States that the bytes are a field under each of these products.
pub fn bytes_are_fields()
    ensures { (field : ByteField) → IsField 8 (byte_times field) }
{}

/// States that the bytes are a field under the product modulo x^8 + x^4 + x^3 + x^2 + 1.
pub fn erasure_field()
    ensures { IsField 8 (byte_times Qr) }
{
    bytes_are_fields();
}

/// The generator of the elements other than 0.
#[inline]
pub fn generator(field: ByteField) -> u8
    ensures { result ≡ byte_generator field }
{
    match field {
        ByteField::Qr => 2,
        ByteField::Ccsds => 2,
        ByteField::Rijndael => 3,
    }
}

/// The product of two bytes. The logarithm of 0 is so large that the table of powers has 0 at each sum with it, so that no operand is
/// compared with 0.
#[inline]
pub fn multiply(field: ByteField, a: u8, b: u8) -> u8
    ensures { result ≡ byte_times field a b }
{
    match field {
        ByteField::Qr => power_of_sum(&literals::EXP_11D, &literals::LOG_11D, a, b),
        ByteField::Ccsds => power_of_sum(&literals::EXP_187, &literals::LOG_187, a, b),
        ByteField::Rijndael => rijndael::multiply(a, b),
    }
}

/// The inverse of a byte other than 0.
#[inline]
pub fn invert(field: ByteField, a: u8) -> u8
    requires { a ≢ 0 }
    ensures { byte_times field a result ≡ 1 }
{
    match field {
        ByteField::Qr => power_to_one(&literals::EXP_11D, &literals::LOG_11D, a),
        ByteField::Ccsds => power_to_one(&literals::EXP_187, &literals::LOG_187, a),
        ByteField::Rijndael => rijndael::invert(a),
    }
}

// The power whose exponent and the logarithm of a byte are together the order of the generator.
#[inline]
fn power_to_one(powers: &[u8; 1023], logarithms: &[u16; 256], a: u8) -> u8
    requires { slice_index logarithms.now a ≤ 255 }
    ensures { result ≡ slice_index powers.now (255 - slice_index logarithms.now a) }
{
    powers[255 - logarithms[a as usize] as usize]
}

/// A byte to the power of any exponent, by squares.
pub fn power_of(field: ByteField, a: u8, exponent: usize) -> u8
    ensures { result ≡ power 1 (byte_times field) a exponent }
{
    let mut base = a;
    let mut rest = exponent;
    let mut value = 1;
    while rest != 0 {
        if rest % 2 == 1 {
            value = multiply(field, value, base);
        }
        base = multiply(field, base, base);
        rest /= 2;
    }
    value
}

/// The products of a factor by each bit of a byte.
#[inline]
pub fn images_of(field: ByteField, factor: u8) -> [u8; 8]
    ensures { (x : ℕ) → x < 256 → linear_image result x ≡ byte_times field x factor }
{
    [
        multiply(field, 1, factor),
        multiply(field, 2, factor),
        multiply(field, 4, factor),
        multiply(field, 8, factor),
        multiply(field, 16, factor),
        multiply(field, 32, factor),
        multiply(field, 64, factor),
        multiply(field, 128, factor),
    ]
}
