// Products of a secret byte by a scalar that need not be kept secret, without a look-up and without a branch by the byte: it is the
// sum, over the bits of the byte, of the products of the scalar by powers of x.
ghost use Rattle.std.specs.Prelude.{◌≡◌, ◌+◌, ◌<◌, ℕ};
ghost use Rattle.field_base.specs.LinearMaps.{linear_image};
ghost use Rattle.reed_solomon.specs.ByteFields.{byte_modulus, byte_times};

use reed_solomon::byte_field::ByteField;

// The modulus without its highest term.
#[inline]
fn reduction(field: ByteField) -> u8
    ensures { 256 + result ≡ byte_modulus field }
{
    match field {
        ByteField::Qr => 0x1d,
        ByteField::Ccsds => 0x87,
        ByteField::Rijndael => 0x1b,
    }
}

// The product by x: the bits move up, and the modulus is added where one falls off.
#[inline]
fn double(field: ByteField, byte: u8) -> u8
    ensures { result ≡ byte_times field byte 2 }
{
    (byte << 1) ^ (reduction(field) * (byte >> 7))
}

// The products of a factor by each bit of a byte. They are doubled, and not looked up: of entries of a table a compiler may read the ones alone
// whose bits are set, so that addresses go by the byte.
#[inline]
pub(crate) fn columns_of(field: ByteField, factor: u8) -> [u8; 8]
    ensures { (x : ℕ) → x < 256 → linear_image result x ≡ byte_times field x factor }
{
    let second = double(field, factor);
    let third = double(field, second);
    let fourth = double(field, third);
    let fifth = double(field, fourth);
    let sixth = double(field, fifth);
    let seventh = double(field, sixth);
    let eighth = double(field, seventh);
    [factor, second, third, fourth, fifth, sixth, seventh, eighth]
}

// The sum of the columns at the set bits of a byte. Each column is read, and enters by a product with its bit.
#[inline]
pub(crate) fn image(columns: &[u8; 8], byte: u8) -> u8
    ensures { result ≡ linear_image columns.now byte }
{
    let mut sum = 0;
    for i in 0..8 {
        sum ^= ((byte >> i) & 1) * columns[i];
    }
    sum
}

// The product of a byte by a scalar. Nothing goes by the byte.
#[inline]
pub(crate) fn multiply_masked(field: ByteField, scalar: u8, byte: u8) -> u8
    ensures { result ≡ byte_times field scalar byte }
{
    image(&columns_of(field, scalar), byte)
}
