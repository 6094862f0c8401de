// The bytes of a proof: eight that name the format and the field of the words, two that say how many places are opened and how many rounds
// there are, the roots of the left and of the right table, 32 bytes each, the elements of 16 bytes each, from the lowest, and the nodes of
// 32 bytes each.
ghost use Rattle.std.specs.Prelude.{◌≡◌, ◌≢◌, ◌<◌, ◌≤◌, ℕ, List, [], get_or, length, take, vec_len, IfOk, IfErr};
ghost use Rattle.field_bytes.specs.Streams.{joined_bytes};
ghost use Rattle.field_element.specs.Element.{repr_of};
ghost use Rattle.prove_sums.specs.ProofFiles.{file_bytes, head, HasHead, IsCutTo, IsFile, IsFileOf, IsNoWordFile, IsOnlyFileOf};
ghost use Rattle.prove_sums.specs.ProofFiles.{IsReadRefusal};
ghost use Rattle.prove_sums.specs.Shapes.{element_count};
ghost use Rattle.prove_sums.specs.declared.tables.TableField.{TableField};

use crate::refusal::Refusal;
use crate::shapes::{Shape, part};
use crate::tables::TableField;
use field_base::traits::Field;
use field_element::Ghash128;
use protocols::proof_bytes;
use std::alloc::{AllocError, Global};

/// How many bytes stand before the elements.
const FRONT: usize = 74;

/// The roots that commit to two tables of words of one field.
#[derive(Clone, Copy)]
pub struct Roots {
    /// The field of the words.
    pub field: TableField,
    /// The root of the left table.
    pub left: [u8; 32],
    /// The root of the right table.
    pub right: [u8; 32],
}

/// What a file of a proof holds.
#[derive(Drop)]
pub struct Proof<'a, F: Field> {
    /// The sizes.
    pub shape: Shape,
    /// The roots of the tables.
    pub roots: Roots,
    /// The sum, the messages, both tables' values, the witness, the row and the columns.
    pub elements: Vec<F>,
    /// The nodes that open the columns.
    pub nodes: &'a [[u8; 32]],
    ghost count: { vec_len elements ≡ element_count shape.queries shape.rounds },
}

impl<F: Field> Proof<'_, F> {
    ghost use Rattle.prove_sums.specs.Shapes.{sum_in};

    /// The sum that is proved.
    pub fn sum(&self) -> F
        ensures { F.repr result ≡ sum_in F.repr self.now.elements.items }
    {
        let elements = self.elements.as_slice();
        elements[0]
    }
}

/// The parts of a file, with the bytes of its elements.
#[derive(Clone, Copy)]
struct Parts<'a> {
    shape: Shape,
    roots: Roots,
    body: &'a [u8],
    nodes: &'a [[u8; 32]],
}

/// The bytes of the proof with these roots, elements and nodes. It fails if memory was refused.
pub fn encode(
    alloc: Global,
    shape: &Shape,
    roots: &Roots,
    elements: &[Ghash128],
    nodes: &[[u8; 32]],
) -> Result<Vec<u8>, AllocError>
    ensures bytes { IfOk result (λ bytes. bytes.items
        ≡ file_bytes roots.now.field shape.now.queries shape.now.rounds roots.now.left roots.now.right
        (joined_bytes 16 repr_of elements.now) nodes.now) }
    ensures sized { IfOk result (λ _. (k : ℕ) → k < length nodes.now → length (get_or nodes.now k []) ≡ 32) }
{
    let head = head_of(roots.field);
    let body = proof_bytes::encode(alloc, elements)?;
    let mut bytes = Vec::new(alloc);
    bytes.extend_from_slice(&head)?;
    bytes.push(shape.queries as u8)?;
    bytes.push(shape.rounds as u8)?;
    bytes.extend_from_slice(&roots.left)?;
    bytes.extend_from_slice(&roots.right)?;
    bytes.extend_from_slice(body.as_slice())?;
    'nodes: for index in 0..nodes.len() {
        bytes.extend_from_slice(&nodes[index])?;
    }
    Ok(bytes)
}

/// The proof of which these are the bytes, or why there is none. Bytes that `encode` wrote are accepted, and give what they were written
/// of; what is accepted is what `encode` writes of the result. Fewer than 74 bytes, and bytes that begin as a proof over some field does,
/// are refused with `Length`; others by what they begin with: `OtherField` after "sum 4 ", `OtherVersion` after "sum " alone, else
/// `NotAProof`. It fails if memory was refused.
pub fn decode(
    alloc: Global,
    bytes: &[u8],
) -> Result<Result<Proof<'_, Ghash128>, Refusal>, AllocError>
    ensures whole { IfOk result (λ read. IfOk read (λ proof. IsFileOf repr_of bytes.now proof.roots.field proof.shape.queries
        proof.shape.rounds proof.roots.left proof.roots.right proof.elements.items proof.nodes.now)) }
    ensures own { IfOk result (λ read. IfOk read (λ proof. IsOnlyFileOf repr_of bytes.now proof.roots.field proof.shape.queries
        proof.shape.rounds proof.roots.left proof.roots.right proof.elements.items proof.nodes.now)) }
    ensures refused { IfOk result (λ read. IfErr read (λ refusal. IsNoWordFile bytes.now × IsReadRefusal refusal bytes.now)) }
{
    let parts = match cut(bytes) {
        Ok(parts) => parts,
        Err(refusal) => return Ok(Err(refusal)),
    };
    let read = proof_bytes::decode(alloc, parts.body)?;
    let elements = match read {
        Some(elements) => elements,
        None => return Ok(Err(Refusal::Length)),
    };
    Ok(Ok(Proof {
        shape: parts.shape,
        roots: parts.roots,
        elements,
        nodes: parts.nodes,
    }))
}

// What a proof for tables of words of a field begins with: the seventh byte is the letter of the field.
fn head_of(field: TableField) -> [u8; 8]
    ensures { result ≡ head field }
{
    let mut head = *b"sum 4 G\n";
    head[6] = field.letter();
    head
}

// The field that is named by what a file begins with, or why there is none.
fn field_of(bytes: &[u8]) -> Result<TableField, Refusal>
    requires { 74 ≤ length bytes.now }
    ensures named { IfOk result (λ field. take 8 bytes.now ≡ head field) }
    ensures refused { IfErr result (λ _. (field : TableField) (queries rounds : ℕ) (left right body : List ℕ) (nodes : List (List ℕ))
        → IsFile queries rounds left right body nodes → bytes.now ≢ file_bytes field queries rounds left right body nodes) }
    ensures reason { IfErr result (λ refusal. IsReadRefusal refusal bytes.now) }
{
    let Some(field) = TableField::with_letter(bytes[6]) else {
        return Err(other_head(bytes));
    };
    let head = head_of(field);
    if bytes[..8] != head[..] {
        return Err(other_head(bytes));
    }
    Ok(field)
}

// The parts of a file.
fn cut(bytes: &[u8]) -> Result<Parts<'_>, Refusal>
    ensures file { IfOk result (λ parts. IsCutTo bytes.now parts.roots.field parts.shape.queries parts.shape.rounds parts.roots.left
        parts.roots.right parts.body.now parts.nodes.now) }
    ensures refused { IfErr result (λ _. (field : TableField) (queries rounds : ℕ) (left right body : List ℕ) (nodes : List (List ℕ))
        → IsFile queries rounds left right body nodes → bytes.now ≢ file_bytes field queries rounds left right body nodes) }
    ensures reason { IfErr result (λ refusal. IsReadRefusal refusal bytes.now) }
{
    if bytes.len() < FRONT {
        return Err(Refusal::Length);
    }
    let field = match field_of(bytes) {
        Ok(field) => field,
        Err(refusal) => return Err(refusal),
    };
    let (queries, rounds) = (bytes[8] as usize, bytes[9] as usize);
    if queries < 7 || queries > 8 || rounds > 39 {
        return Err(Refusal::Length);
    }
    let shape = Shape::new(rounds, queries);
    let size = 16 * shape.element_count();
    if bytes.len() < FRONT + size {
        return Err(Refusal::Length);
    }
    if (bytes.len() - FRONT - size) % 64 != 0 {
        return Err(Refusal::Length);
    }
    let mut left = [0; 32];
    let mut right = [0; 32];
    left.copy_from_slice(&bytes[10..42]);
    right.copy_from_slice(&bytes[42..FRONT]);
    let (nodes, _rest) = bytes[FRONT + size..].as_chunks::<32>();
    Ok(Parts {
        shape,
        roots: Roots { field, left, right },
        body: part(bytes, FRONT, size),
        nodes,
    })
}

// Why bytes are refused that begin as a proof over no field does, where there are 74 or more.
fn other_head(bytes: &[u8]) -> Refusal
    ensures { 74 ≤ length bytes.now → (HasHead bytes.now → ⊥) → IsReadRefusal result bytes.now }
{
    if bytes.starts_with(b"sum 4 ") {
        Refusal::OtherField
    } else if bytes.starts_with(b"sum ") {
        Refusal::OtherVersion
    } else {
        Refusal::NotAProof
    }
}
