// Tables of words, as bytes and as elements.
ghost use Rattle.std.specs.Prelude.{◌≡◌, ◌≢◌, ◌≤◌, ◌<◌, ◌%◌, ◌^◌, length, vec_len, IfNone, IfOk, IfSome};
ghost use Rattle.field_element.specs.Element.{repr_of};
ghost use Rattle.prove_sums.specs.Bits.{AreFor};
ghost use Rattle.prove_sums.specs.Tables.{field_letter, field_name, tower_bytes, AreEmbedded, AreTableWords, EndWithinWord};
ghost use Rattle.prove_sums.specs.declared.tables.TableField.{TableField};

use crate::shapes::Shape;
use anyhow::{Result, bail};
use field_bytes::ShortElement;
use field_element::{BinaryField128, Ghash128};
use protocols::merkle_paths::row_of;
use protocols::proof_bytes::decode;
use std::alloc::{AllocError, Global};

/// What the words of a table are elements of.
#[derive(Clone, Copy, Debug, PartialEq, Eq)]
pub enum TableField {
    /// The field of GHASH, of 16 bytes.
    Ghash,
    /// The level of the tower of 1 byte.
    Tower8,
    /// That of 2 bytes.
    Tower16,
    /// That of 4 bytes.
    Tower32,
    /// That of 8 bytes.
    Tower64,
    /// That of 16 bytes.
    Tower128,
}

impl TableField {
    /// The field of this name: `g128`, or `t8` to `t128`. It is None exactly if no field has the name.
    pub fn named(name: &str) -> Option<TableField>
        ensures named { IfSome result (λ field. name.now ≡ field_name field) }
        ensures none { IfNone result ((field : TableField) → name.now ≢ field_name field) }
    {
        match name {
            "g128" => Some(TableField::Ghash),
            "t8" => Some(TableField::Tower8),
            "t16" => Some(TableField::Tower16),
            "t32" => Some(TableField::Tower32),
            "t64" => Some(TableField::Tower64),
            "t128" => Some(TableField::Tower128),
            _ => None,
        }
    }

    /// Its name.
    pub fn name(self) -> &'static str
        ensures { result.now ≡ field_name self }
    {
        match self {
            TableField::Ghash => "g128",
            TableField::Tower8 => "t8",
            TableField::Tower16 => "t16",
            TableField::Tower32 => "t32",
            TableField::Tower64 => "t64",
            TableField::Tower128 => "t128",
        }
    }

    /// The letter that names it in a proof.
    pub fn letter(self) -> u8
        ensures { result ≡ field_letter self }
    {
        match self {
            TableField::Ghash => b'G',
            TableField::Tower8 => b'A',
            TableField::Tower16 => b'B',
            TableField::Tower32 => b'C',
            TableField::Tower64 => b'D',
            TableField::Tower128 => b'E',
        }
    }

    /// The field that a letter names in a proof, if it names one.
    pub fn with_letter(letter: u8) -> Option<TableField>
        ensures named { IfSome result (λ field. letter ≡ field_letter field) }
        ensures none { IfNone result ((field : TableField) → letter ≢ field_letter field) }
    {
        match letter {
            b'G' => Some(TableField::Ghash),
            b'A' => Some(TableField::Tower8),
            b'B' => Some(TableField::Tower16),
            b'C' => Some(TableField::Tower32),
            b'D' => Some(TableField::Tower64),
            b'E' => Some(TableField::Tower128),
            _ => None,
        }
    }

    /// How many bytes a word has that is an element of a level of the tower.
    fn tower_bytes(self) -> Option<usize>
        ensures same { result ≡ tower_bytes self }
        ensures some { IfSome result (λ size. 0 < size) }
        ensures few { IfSome result (λ size. size ≤ 16) }
    {
        match self {
            TableField::Ghash => None,
            TableField::Tower8 => Some(1),
            TableField::Tower16 => Some(2),
            TableField::Tower32 => Some(4),
            TableField::Tower64 => Some(8),
            TableField::Tower128 => Some(16),
        }
    }
}

/// A table of 2^rounds elements, rounds from 0 to 39.
#[derive(Drop)]
pub struct Table {
    /// The elements.
    pub elements: Vec<Ghash128>,
    /// The sizes of a proof for it, of which `rounds` is the logarithm of how many elements there are.
    pub shape: Shape,
    ghost size: { vec_len elements ≡ 2 ^ shape.rounds },
}

/// The table with these bytes, whose words are elements of a field, with the sizes for so many bits of soundness, up to 128. A word of a
/// level of the tower stands for its image in the field of GHASH. It fails if they are not 2^n words, n from 0 to 39, if no sizes reach
/// the bits, or if memory was refused.
pub fn table_of(alloc: Global, bits: usize, field: TableField, bytes: &[u8]) -> Result<Table>
    requires { bits ≤ 128 }
    ensures words { IfOk result (λ table. AreTableWords (tower_bytes field) repr_of bytes.now table.elements.items) }
    ensures sized { IfOk result (λ table. AreFor bits table.shape.queries table.shape.rounds) }
{
    let Some(elements) = elements_of(alloc, field, bytes)? else {
        bail!("a table has to be words of the size of its field, without --field of 16 bytes")
    };
    let rounds = elements.len().trailing_zeros() as usize;
    if rounds > 39 || elements.len() != 1 << rounds {
        bail!("a table has to be 2^n words, n from 0 to 39")
    }
    let Some(shape) = Shape::for_bits(rounds, bits) else {
        bail!("proofs for tables of 2^{rounds} words do not reach {bits} bits of soundness")
    };
    Ok(Table { elements, shape })
}

// The elements of the field of GHASH that bytes are, and None where they end within a word. It fails if memory was refused.
fn elements_of(
    alloc: Global,
    field: TableField,
    bytes: &[u8],
) -> Result<Option<Vec<Ghash128>>, AllocError>
    ensures words { IfOk result (λ read. IfSome read (λ elements. AreTableWords (tower_bytes field) repr_of bytes.now elements.items)) }
    ensures none { IfOk result (λ read. IfNone read (EndWithinWord (tower_bytes field) bytes.now)) }
{
    match field.tower_bytes() {
        None => decode::<Ghash128, Global>(alloc, bytes),
        Some(size) => embedded(alloc, size, bytes),
    }
}

// The images in the field of GHASH of words of so many bytes, which are elements of the tower, and None where bytes end within a word. It
// fails if memory was refused.
fn embedded(alloc: Global, size: usize, bytes: &[u8]) -> Result<Option<Vec<Ghash128>>, AllocError>
    requires some { 0 < size }
    requires few { size ≤ 16 }
    ensures images { IfOk result (λ read. IfSome read (λ elements. AreEmbedded size repr_of bytes.now elements.items)) }
    ensures none { IfOk result (λ read. IfNone read (length bytes.now % size ≢ 0)) }
{
    if bytes.len() % size != 0 {
        return Ok(None);
    }
    let mut words = Vec::new(alloc);
    'words: for index in 0..bytes.len() / size {
        words.push(BinaryField128::of_low_first(row_of(bytes, size, index)))?;
    }
    let elements = Ghash128::from_tower_vec(alloc, words.as_slice())?;
    Ok(Some(elements))
}
