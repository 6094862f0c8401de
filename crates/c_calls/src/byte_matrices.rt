// Products of matrices over fields of 256 elements, through products of matrices over GF(2).
ghost use Rattle.std.specs.Prelude.{◌≡◌, ◌^◌, ◌<◌, ℕ, List};
ghost use Rattle.std.proofs.Common.{refl};
ghost use Rattle.bits_packed.specs.BytesAsBits.{bilinear_product};
ghost use Rattle.many_words.specs.Fields.{field_of, itself};
ghost use Rattle.c_calls.specs.Matrices.{MultipliesMatrices};
ghost use Rattle.c_calls.specs.declared.byte_matrices.TheConstants.{RIJNDAEL_FORMS, TOWER_FORMS};
ghost use Rattle.c_calls.specs.lemmas.ByteForm.{rijndael-forms, tower-forms};

use crate::shapes::have_product_shapes;
use crate::{Words, matrices, status};
use bit_slices::Vector;
use bits_packed::matrices::multiply_bytes_into;
use ghash_slices::Width;
use many_words::Many;
use word_polynomial::RijndaelKernel;
use word_tower::{Bits8, Tower};

/// A field of 256 elements whose matrices are multiplied through matrices over GF(2).
pub trait ByteForms: Many<u8, u8> {
    /// Pairs of a mask and a weight: the product of two bytes is the sum of the weights of those masks of which both have an odd number of
    /// bits.
    const FORMS: [(u8, u8); 27];

    ghost FORMS: { List (ℕ × ℕ) };

    ghost forms_law: { (x y : ℕ) → x < 2 ^ 8 → y < 2 ^ 8 → Self.product x y ≡ bilinear_product FORMS x y };

    ghost bytes_law: { Self.width ≡ 8 };
}

// A product of the tower by three of the level below (A. Karatsuba and Yu. Ofman, 1962), three times: the masks take the low half, the high
// half and both.
const TOWER_FORMS: [(u8, u8); 27] = [
    (0x01, 0xff),
    (0x02, 0x55),
    (0x03, 0xaa),
    (0x04, 0xbb),
    (0x08, 0xdd),
    (0x0c, 0x66),
    (0x05, 0xcc),
    (0x0a, 0x44),
    (0x0f, 0x88),
    (0x10, 0x4f),
    (0x20, 0x85),
    (0x30, 0xca),
    (0x40, 0x9b),
    (0x80, 0xed),
    (0xc0, 0x76),
    (0x50, 0xbc),
    (0xa0, 0xd4),
    (0xf0, 0x68),
    (0x11, 0xf0),
    (0x22, 0x50),
    (0x33, 0xa0),
    (0x44, 0xb0),
    (0x88, 0xd0),
    (0xcc, 0x60),
    (0x55, 0xc0),
    (0xaa, 0x40),
    (0xff, 0x80),
];

// The same of polynomials, whose products are reduced modulo x^8 + x^4 + x^3 + x + 1 (FIPS 197, section 4.2).
const RIJNDAEL_FORMS: [(u8, u8); 27] = [
    (0x01, 0xff),
    (0x02, 0xe5),
    (0x03, 0xaa),
    (0x04, 0xd1),
    (0x08, 0xb9),
    (0x0c, 0x9e),
    (0x05, 0xcc),
    (0x0a, 0x83),
    (0x0f, 0x88),
    (0x10, 0x69),
    (0x20, 0xd2),
    (0x30, 0x4e),
    (0x40, 0xbf),
    (0x80, 0x65),
    (0xc0, 0x23),
    (0x50, 0x74),
    (0xa0, 0xe8),
    (0xf0, 0x58),
    (0x11, 0xf0),
    (0x22, 0xfb),
    (0x33, 0xa0),
    (0x44, 0xed),
    (0x88, 0xc1),
    (0xcc, 0xb6),
    (0x55, 0xc0),
    (0xaa, 0x9b),
    (0xff, 0x80),
];

impl ByteForms for Tower<Bits8> {
    const FORMS: [(u8, u8); 27] = TOWER_FORMS;

    ghost FORMS = { TOWER_FORMS };

    ghost forms_law = { tower-forms };

    ghost bytes_law = { refl };
}

impl ByteForms for RijndaelKernel {
    const FORMS: [(u8, u8); 27] = RIJNDAEL_FORMS;

    ghost FORMS = { RIJNDAEL_FORMS };

    ghost forms_law = { rijndael-forms };

    ghost bytes_law = { refl };
}

/// Writes the product of `left`, of `rows` rows of `inner` bytes, and `right`, of `inner` rows of `columns` bytes.
pub fn multiply<K: ByteForms, V: Width + Vector>(
    left: &[u8],
    right: &[u8],
    product: &mut [u8],
    rows: u64,
    inner: u64,
    columns: u64,
) -> u32
    ensures { MultipliesMatrices (field_of itself K.width K.product K.generator) rows inner columns left.now right.now product.old
        product.new result }
{
    if !pays(rows, inner, columns) {
        let field = Words::<u8, u8, K, V>::new();
        return matrices::multiply(field, left, right, product, rows, inner, columns);
    }
    let (rows, inner, columns) = (rows as usize, inner as usize, columns as usize);
    if !have_product_shapes(left.len(), right.len(), product.len(), rows, inner, columns) {
        return status::LENGTH;
    }
    multiply_bytes_into(&K::FORMS, product, left, right, rows, inner, columns);
    status::OK
}

// Whether the product takes less time than sums of rows, by measure: strips of 512 columns are multiplied over GF(2), whatever fills them.
fn pays(rows: u64, inner: u64, columns: u64) -> bool {
    rows >= 256 && inner >= 256 && columns >= 342
}
