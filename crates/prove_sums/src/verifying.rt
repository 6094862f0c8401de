// The verifier of a sum of products of two tables, of which it has the commitments alone.
ghost use Rattle.std.specs.Prelude.{◌≡◌, ◌↔◌, ◌+◌, ◌*◌, ◌≤◌, ◌∷◌, [], ℕ, false, length, map, IfErr, IfOk, IsTrue};
ghost use Rattle.sum_checks.specs.declared.error.ProtocolError.TheVariants.{Memory};
ghost use Rattle.protocols.specs.JointTables.{sent_tables};
ghost use Rattle.prove_sums.specs.Shapes.{columns_in, nodes_in, part, sent_in, values_in};
ghost use Rattle.prove_sums.specs.Verdicts.{IsProductOf, VerifiesSum};

use crate::proof_file::Proof;
use crate::shapes::part;
use crate::sums::reduce;
use field_base::traits::Field;
use protocols::ProtocolError;
use protocols::joint_tables::{OpenedTables, verify_tables};
use std::alloc::{AllocError, Global};
use transcript_elements::{ByteLevel, FieldChallenger};
use transcripts::{ByteHasher32, CanSampleUniformBits, GrindingChallenger, both};

/// Whether a proof proves that its first element is the sum of the products of the tables to which its roots commit. In a transcript that
/// has not failed it fails only if memory was refused.
pub fn verify<
    F: ByteLevel,
    H: ByteHasher32,
    C: FieldChallenger<F> + GrindingChallenger<Witness = F> + CanSampleUniformBits<F>,
>(
    alloc: Global,
    hasher: &H,
    challenger: &mut C,
    proof: &Proof<'_, F>,
) -> Result<bool, ProtocolError>
    requires { 40 ≤ F.width }
    ensures verdict { IfOk result (λ accepted. VerifiesSum C.observes C.gives C.passing C.checks C.gives_bits C.number F.repr (H.digest
        hasher.now) F.NUM_BYTES F.width F.product (λ i. F.basis (F.cantor i)) proof.now.shape.queries proof.now.shape.rounds
        proof.now.roots.left proof.now.roots.right proof.now.elements.items proof.now.nodes.now challenger.old accepted) }
    ensures memory { C.has_failed challenger.old ≡ false → IfErr result (λ error. error ≡ Memory) }
{
    let (sizes, elements) = (proof.shape.sizes(), proof.elements.as_slice());
    let reduced = reduce(alloc, challenger, proof.shape.rounds, elements)?;
    let sent = opened_in(alloc, proof)?;
    let (roots, point) = (
        [proof.roots.left, proof.roots.right],
        reduced.point.as_slice(),
    );
    let opens = verify_tables(alloc, hasher, challenger, &sizes, &roots, point, &sent)?;
    let holds = is_product(sent.values.as_slice(), reduced.claim);
    Ok(both(opens, holds))
}

// What a proof has sent of both tables.
fn opened_in<F: Field>(
    alloc: Global,
    proof: &Proof<'_, F>,
) -> Result<OpenedTables<F, Global>, AllocError>
    ensures sent { (number : F → ℕ) → IfOk result (λ sent. sent_tables sent.values.items sent.row.items (number sent.witness)
        (map (λ list. list.items) sent.columns.items) (map (λ list. list.items) sent.nodes.items)
        ≡ sent_in number proof.now.shape.queries proof.now.shape.rounds proof.now.elements.items proof.now.nodes.now) }
    ensures values { IfOk result (λ sent. sent.values.items ≡ values_in proof.now.shape.rounds proof.now.elements.items) }
    ensures count { IfOk result (λ sent. length sent.values.items ≡ 2) }
{
    let elements = proof.elements.as_slice();
    let (behind, row_size) = (2 * proof.shape.rounds + 1, proof.shape.row_size());
    let values = Vec::from_slice(alloc, part(elements, behind, 2))?;
    let witness = elements[behind + 2];
    let row = Vec::from_slice(alloc, part(elements, behind + 3, row_size))?;
    let columns = two_parts(
        alloc,
        elements,
        behind + 3 + row_size,
        proof.shape.columns_size(),
    )?;
    let nodes = two_parts(alloc, proof.nodes, 0, proof.nodes.len() / 2)?;
    Ok(OpenedTables {
        values,
        row,
        witness,
        columns,
        nodes,
    })
}

// So many values, from a place on, and as many behind these.
fn two_parts<T: Copy>(
    alloc: Global,
    values: &[T],
    from: usize,
    size: usize,
) -> Result<Vec<Vec<T>>, AllocError>
    requires { from + 2 * size ≤ length values.now }
    ensures { IfOk result (λ lists. map (λ list. list.items) lists.items ≡ part from size values.now
        ∷ part (from + size) size values.now ∷ []) }
{
    let one = Vec::from_slice(alloc, part(values, from, size))?;
    let other = Vec::from_slice(alloc, part(values, from + size, size))?;
    let mut lists = Vec::new(alloc);
    lists.push(one)?;
    lists.push(other)?;
    Ok(lists)
}

// Whether the claim is the product of two values.
fn is_product<F: Field>(values: &[F], claim: F) -> bool
    requires { length values.now ≡ 2 }
    ensures { IsTrue result ↔ IsProductOf F.repr F.product values.now (F.repr claim) }
{
    claim == values[0] * values[1]
}
