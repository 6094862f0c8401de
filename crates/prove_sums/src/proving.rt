// The prover of a sum of products of two tables, both committed to.
ghost use Rattle.std.specs.Prelude.{◌≡◌, ◌^◌, ◌<◌, ◌≤◌, false, map, vec_len, IfErr, IfOk};
ghost use Rattle.std.specs.List.{flat_map};
ghost use Rattle.transcripts.specs.Grinding.{MayGrind};
ghost use Rattle.field_bytes.specs.Streams.{joined_bytes};
ghost use Rattle.transcripts.specs.Commitments.{IsTreeOver, row_at};
ghost use Rattle.protocols.specs.CommitmentScheme.{StopsOpening, matrix_rows};
ghost use Rattle.prove_sums.specs.Verdicts.{HoldsTable, IsHonestProof};

use crate::shapes::Shape;
use field_base::traits::Field;
use protocols::joint_tables::open_tables;
use protocols::product_sums::prove_sum;
use protocols::tables::TableColumns;
use protocols::{ProtocolError, commitment_scheme};
use std::alloc::{AllocError, Global};
use transcript_elements::{ByteLevel, FieldChallenger};
use transcripts::{ByteHasher32, CanSampleUniformBits, GrindingChallenger};

/// A table and what commits to it.
#[derive(Drop)]
pub struct Committed<F: Field> {
    /// Its elements.
    pub elements: Vec<F>,
    /// The columns of its extension, and their tree.
    pub held: TableColumns<F, Global>,
}

/// What a prover sends.
#[derive(Drop)]
pub struct Sent<F: Field> {
    /// The sum, the messages, both tables' values, the witness, the row, and the columns that are opened of both tables.
    pub elements: Vec<F>,
    /// The nodes that open them.
    pub nodes: Vec<[u8; 32]>,
}

/// Commits to a table of 2^rounds elements. It fails if memory was refused.
pub fn commit<F: ByteLevel, H: ByteHasher32>(
    alloc: Global,
    hasher: &H,
    shape: &Shape,
    elements: Vec<F>,
) -> Result<Committed<F>, AllocError>
    requires count { vec_len elements ≡ 2 ^ shape.now.rounds }
    requires points { 40 ≤ F.width }
    ensures table { IfOk result (λ committed. committed.elements.items ≡ elements.items) }
    ensures holds { IfOk result (λ committed. HoldsTable F.repr F.width F.product (λ i. F.basis (F.cantor i)) shape.now.queries
        shape.now.rounds committed.elements.items committed.held.columns.items committed.held.tree) }
    ensures tree { IfOk result (λ committed. IsTreeOver (H.digest hasher.now)
        (λ p. joined_bytes F.NUM_BYTES F.repr (row_at (2 ^ matrix_rows shape.now.queries shape.now.rounds) committed.held.columns.items
        p)) committed.held.tree) }
{
    let sizes = shape.sizes();
    let held = commitment_scheme::commit(alloc, hasher, &sizes, elements.as_slice())?;
    Ok(Committed { elements, held })
}

/// The proof of the sum of the products of two tables. Where the field has at least 2^3 elements, and more than there are rounds, in a
/// transcript that has not failed, it fails only if no witness is found, or if memory was refused.
pub fn prove<
    F: ByteLevel,
    C: FieldChallenger<F> + GrindingChallenger<Witness = F> + CanSampleUniformBits<F>,
>(
    alloc: Global,
    challenger: &mut C,
    shape: &Shape,
    left: &Committed<F>,
    right: &Committed<F>,
) -> Result<Sent<F>, ProtocolError>
    requires work { MayGrind C.witness_bits 16 }
    requires left { HoldsTable F.repr F.width F.product (λ i. F.basis (F.cantor i)) shape.now.queries shape.now.rounds
        left.now.elements.items left.now.held.columns.items left.now.held.tree }
    requires right { HoldsTable F.repr F.width F.product (λ i. F.basis (F.cantor i)) shape.now.queries shape.now.rounds
        right.now.elements.items right.now.held.columns.items right.now.held.tree }
    ensures honest { IfOk result (λ sent. IsHonestProof C.observes C.gives C.passing C.checks C.gives_bits C.number F.repr F.NUM_BYTES
        F.width F.product (λ i. F.basis (F.cantor i)) shape.now.queries shape.now.rounds left.now.elements.items right.now.elements.items
        left.now.held.columns.items right.now.held.columns.items left.now.held.tree right.now.held.tree sent.elements.items
        sent.nodes.items challenger.old) }
    ensures error { 3 ≤ F.width → shape.now.rounds < 2 ^ F.width → C.has_failed challenger.old ≡ false
        → IfErr result (StopsOpening C.passing C.witness_bits) }
{
    let (one, other) = (left.elements.as_slice(), right.elements.as_slice());
    let summed = prove_sum(alloc, challenger, one, other, shape.rounds)?;
    let (sizes, point) = (shape.sizes(), summed.point.as_slice());
    let tables = [&left.held, &right.held];
    let opened = open_tables(alloc, challenger, &sizes, &tables, point)?;
    let mut elements = Vec::new(alloc);
    elements.push(summed.sum)?;
    elements.extend_from_slice(summed.messages.as_slice())?;
    elements.extend_from_slice(opened.values.as_slice())?;
    elements.push(opened.witness)?;
    elements.extend_from_slice(opened.row.as_slice())?;
    let columns = joined(alloc, opened.columns.as_slice())?;
    elements.extend_from_slice(columns.as_slice())?;
    let nodes = joined(alloc, opened.nodes.as_slice())?;
    Ok(Sent { elements, nodes })
}

// The elements of lists, one list after the other.
fn joined<T: Copy>(alloc: Global, lists: &[Vec<T>]) -> Result<Vec<T>, AllocError>
    ensures { IfOk result (λ all. all.items ≡ flat_map (λ list. list) (map (λ list. list.items) lists.now)) }
{
    let mut all = Vec::new(alloc);
    'lists: for index in 0..lists.len() {
        all.extend_from_slice(lists[index].as_slice())?;
    }
    Ok(all)
}
