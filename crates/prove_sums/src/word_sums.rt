// Proofs over tables of words, in the field of GHASH and in a transcript over a hash function: here the program names its field.
ghost use Rattle.std.specs.Prelude.{◌≡◌, ◌^◌, ℕ, List, [], false, IfErr, IfOk};
ghost use Rattle.field_bytes.specs.Streams.{joined_bytes};
ghost use Rattle.field_element.specs.Element.{repr_of};
ghost use Rattle.transcripts.specs.HashChallengers.{hash_state};
ghost use Rattle.transcript_elements.specs.Challengers.{challenger_failed, inner_of};
ghost use Rattle.sum_checks.specs.declared.error.ProtocolError.TheVariants.{Memory};
ghost use Rattle.transcripts.specs.{Commitments.{IsTreeOver, digest_at, row_at}, MerkleTrees.{rows_root}};
ghost use Rattle.protocols.specs.CommitmentScheme.{StopsOpening, matrix_rows};
ghost use Rattle.prove_sums.specs.ProofFiles.{file_bytes};
ghost use Rattle.prove_sums.specs.Verdicts.{passes_number, word_times, word_vector, HoldsTable, IsHonestSum, IsSumVerdict};

use crate::proof_file::{Proof, Roots, encode};
use crate::proving::{Committed, Sent, commit};
use crate::shapes::Shape;
use crate::tables::Table;
use crate::{proving, verifying};
use field_element::Ghash128;
use protocols::ProtocolError;
use std::alloc::{AllocError, Global};
use transcript_elements::BinaryChallenger;
use transcripts::{ByteHasher32, HashChallenger};

// The transcript of a proof, which begins with what names the format and the field of the words, with the sizes and with both roots.
fn transcript<H: ByteHasher32>(
    alloc: Global,
    hasher: &H,
    shape: &Shape,
    roots: &Roots,
) -> Result<BinaryChallenger<Ghash128, HashChallenger<H>>, AllocError>
    ensures state { IfOk result (λ challenger. hash_state (inner_of challenger)
        ≡ (hasher.now, file_bytes roots.now.field shape.now.queries shape.now.rounds roots.now.left roots.now.right [] [], [])) }
    ensures fresh { IfOk result (λ challenger. challenger_failed challenger ≡ false) }
{
    let front = encode(alloc, shape, roots, &[], &[])?;
    Ok(BinaryChallenger::from_hasher(front, *hasher))
}

/// What commits to a table. It fails if memory was refused.
pub fn commit_table<H: ByteHasher32>(
    alloc: Global,
    hasher: &H,
    table: Table,
) -> Result<Committed<Ghash128>, AllocError>
    ensures table { IfOk result (λ committed. committed.elements.items ≡ table.elements.items) }
    ensures holds { IfOk result (λ committed. HoldsTable repr_of 128 word_times word_vector table.shape.queries table.shape.rounds
        committed.elements.items committed.held.columns.items committed.held.tree) }
    ensures tree { IfOk result (λ committed. IsTreeOver (H.digest hasher.now)
        (λ p. joined_bytes 16 repr_of (row_at (2 ^ matrix_rows table.shape.queries table.shape.rounds) committed.held.columns.items p))
        committed.held.tree) }
{
    let shape = table.shape;
    let committed = commit(alloc, hasher, &shape, table.elements)?;
    Ok(committed)
}

/// The root of a committed table.
pub fn root_of(table: &Committed<Ghash128>) -> [u8; 32]
    ensures top { result ≡ digest_at table.now.held.tree 1 }
    ensures rows { (hash : List ℕ → List ℕ) (row : ℕ → List ℕ) → IsTreeOver hash row table.now.held.tree
        → result ≡ rows_root hash table.now.held.tree.depth row }
{
    table.held.tree.commitment().root
}

/// The proof of the sum of the products of two committed tables of this size, in the transcript that begins with these roots. It fails only
/// if no witness is found, or if memory was refused.
pub fn prove<H: ByteHasher32>(
    alloc: Global,
    hasher: &H,
    shape: &Shape,
    roots: &Roots,
    left: &Committed<Ghash128>,
    right: &Committed<Ghash128>,
) -> Result<Sent<Ghash128>, ProtocolError>
    requires left { HoldsTable repr_of 128 word_times word_vector shape.now.queries shape.now.rounds left.now.elements.items
        left.now.held.columns.items left.now.held.tree }
    requires right { HoldsTable repr_of 128 word_times word_vector shape.now.queries shape.now.rounds right.now.elements.items
        right.now.held.columns.items right.now.held.tree }
    ensures honest { IfOk result (λ sent. IsHonestSum H.digest hasher.now repr_of
        (file_bytes roots.now.field shape.now.queries shape.now.rounds roots.now.left roots.now.right [] []) shape.now.queries shape.now.rounds
        left.now.elements.items right.now.elements.items left.now.held.columns.items right.now.held.columns.items left.now.held.tree
        right.now.held.tree sent.elements.items sent.nodes.items) }
    ensures error { IfErr result (StopsOpening (passes_number H.digest) 128) }
{
    let mut challenger = transcript(alloc, hasher, shape, roots)?;
    let sent = proving::prove(alloc, &mut challenger, shape, left, right)?;
    Ok(sent)
}

/// Whether a proof proves its sum, for the tables to which its roots commit. It fails if memory was refused.
pub fn verify<H: ByteHasher32>(
    alloc: Global,
    hasher: &H,
    proof: &Proof<'_, Ghash128>,
) -> Result<bool, ProtocolError>
    ensures verdict { IfOk result (λ accepted. IsSumVerdict H.digest hasher.now repr_of
        (file_bytes proof.now.roots.field proof.now.shape.queries proof.now.shape.rounds proof.now.roots.left
        proof.now.roots.right [] [])
        proof.now.shape.queries proof.now.shape.rounds proof.now.roots.left proof.now.roots.right proof.now.elements.items
        proof.now.nodes.now accepted) }
    ensures memory { IfErr result (λ error. error ≡ Memory) }
{
    let mut challenger = transcript(alloc, hasher, &proof.shape, &proof.roots)?;
    let accepted = verifying::verify(alloc, hasher, &mut challenger, proof)?;
    Ok(accepted)
}
