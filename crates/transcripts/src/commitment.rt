// The prover and the verifier of a commitment by a Merkle tree, over any hash function and any challenger. The transcript observes the
// whole statement, so that no root, depth or work can be chosen after the index.
ghost use Rattle.std.specs.Prelude.{◌≡◌, ◌%◌, ◌^◌, ◌<◌, ◌≤◌, ◌||◌, ℕ, List, true, length, slice_index, IfOk, IsTrue};
ghost use Rattle.transcripts.specs.Digests.{words_of};
ghost use Rattle.transcripts.specs.Grinding.{MayGrind};
ghost use Rattle.transcripts.specs.Commitments.{IsTreeOf, root_of};
ghost use Rattle.transcripts.specs.MerkleTrees.{Leads};
ghost use Rattle.transcripts.specs.Outcomes.{IsOutcome};
ghost use Rattle.transcripts.specs.Runs.{IsRun, IsVerdict, statement_bytes, StatementsDiffer, StopsProver};
ghost use Rattle.transcripts.specs.declared.error.GrindError.TheVariants.{Memory};

use crate::merkle_paths::{Commitment, verify};
use crate::merkle_tree::MerkleTree;
use crate::{ByteHasher32, CanObserve, GrindError, GrindingChallenger, Hash, both};
use std::alloc::Allocator;

/// Names, in the type of what is observed, the statement of an opening: 48 bytes, which are the depth and the bits of the work, each as
/// eight bytes from the lowest, and the root.
#[derive(Clone, Copy, Debug)]
pub struct OpeningStatement;

/// What a prover sends beside the commitment: a witness of work, and the word at the index that the transcript gives after it, with
/// its path to the root.
#[derive(Drop)]
pub struct Opening<W: Drop, A: Allocator> {
    /// The witness.
    pub witness: W,
    /// The index.
    pub index: usize,
    /// The word at the index.
    pub word: u64,
    /// The siblings of the nodes on the way to the root, from the leaf's on.
    pub path: Vec<[u8; 32], A>,
}

/// Proves, and verifies in a challenger that begins in the same state, that 2^depth words are committed to. The verifier observes the
/// statement, checks the work and samples an index, as `accepts` does, and accepts, whatever the hash function and the challenger are.
/// It fails with `Failed` exactly if a call of either challenger had failed before, and both are then as before; else with `NoWitness`
/// only if no candidate passes, and with no other error than that and `Memory`.
pub fn prove_and_verify<
    H: ByteHasher32,
    W: Drop,
    C: GrindingChallenger<Witness = W> + CanObserve<Hash<OpeningStatement, u8, 48>>,
    A: Allocator + Copy,
>(
    alloc: A,
    hasher: &H,
    prover: &mut C,
    verifier: &mut C,
    tree: &MerkleTree<A>,
    words: &[u64],
    bits: usize,
) -> Result<bool, GrindError>
    requires state { C.state prover.old ≡ C.state verifier.old }
    requires work { MayGrind C.witness_bits bits }
    requires tree { IsTreeOf (H.digest hasher.now) words.now tree.now }
    ensures accepted { IfOk result (λ accepted. IsTrue accepted) }
    ensures verified { IfOk result (λ accepted. (witness index : ℕ) × (path : List (List ℕ))
        × IsVerdict C.observes C.passing C.checks C.gives_bits (H.digest hasher.now) tree.now.depth bits (root_of tree.now) verifier.old witness
        index (slice_index words.now index) path accepted verifier.new) }
    ensures answer { IsOutcome (C.has_failed prover.old || C.has_failed verifier.old) (C.has_failed prover.new || C.has_failed verifier.new)
        (StopsProver C.observes C.passing C.witness_bits tree.now.depth bits (root_of tree.now) prover.old)
        ((prover.new ≡ prover.old) × (verifier.new ≡ verifier.old)) result }
{
    if prover.failed() || verifier.failed() {
        return Err(GrindError::Failed);
    }
    let opening = prove(alloc, prover, tree, words, bits)?;
    let accepted = accepts(hasher, verifier, tree.commitment(), opening, bits)?;
    Ok(accepted)
}

/// Observes the statement, searches for a witness for `bits` bits, and opens the commitment at the index that is sampled then. It fails
/// with `Failed` exactly if a call of the challenger had failed before, which then stays as it is; else with `NoWitness` only if no
/// candidate passes, and with no other error than that and `Memory`.
pub fn prove<
    W: Drop,
    C: GrindingChallenger<Witness = W> + CanObserve<Hash<OpeningStatement, u8, 48>>,
    A: Allocator,
    B: Allocator,
>(
    alloc: B,
    challenger: &mut C,
    tree: &MerkleTree<A>,
    words: &[u64],
    bits: usize,
) -> Result<Opening<W, B>, GrindError>
    requires work { MayGrind C.witness_bits bits }
    requires count { length words.now ≡ 2 ^ tree.now.depth }
    ensures opened { IfOk result (λ opening. (number : ℕ)
        × IsRun C.observes C.passing C.checks C.gives_bits tree.now.depth bits (root_of tree.now) challenger.old (C.number opening.witness)
        true number challenger.new
        × (opening.index ≡ number % 2 ^ tree.now.depth)) }
    ensures word { IfOk result (λ opening. opening.word ≡ slice_index words.now opening.index) }
    ensures path { IfOk result (λ opening. (hash : List ℕ → List ℕ) → IsTreeOf hash words.now tree.now
        → Leads hash tree.now.depth (root_of tree.now) opening.index opening.word opening.path.items) }
    ensures answer { IsOutcome (C.has_failed challenger.old) (C.has_failed challenger.new)
        (StopsProver C.observes C.passing C.witness_bits tree.now.depth bits (root_of tree.now) challenger.old)
        (challenger.new ≡ challenger.old) result }
{
    if challenger.failed() {
        return Err(GrindError::Failed);
    }
    let statement = statement_of(tree.commitment(), bits);
    challenger.observe(statement)?;
    let witness = challenger.grind(bits)?;
    let number = challenger.sample_bits(tree.depth)?;
    let index = number % words.len();
    let path = tree.open(alloc, index)?;
    Ok(Opening {
        witness,
        index,
        word: words[index],
        path,
    })
}

/// Whether the witness works, the opening is at the index that is sampled after it, and the path leads from the word there to the
/// root. Everything that the opening holds is read. It fails with `Failed` exactly if the challenger had failed before, which then stays
/// unchanged, and else only with `Memory`, if the challenger could not allocate. Allocates nothing itself.
pub fn accepts<
    H: ByteHasher32,
    W: Drop,
    C: GrindingChallenger<Witness = W> + CanObserve<Hash<OpeningStatement, u8, 48>>,
    B: Allocator,
>(
    hasher: &H,
    challenger: &mut C,
    commitment: Commitment,
    opening: Opening<W, B>,
    bits: usize,
) -> Result<bool, GrindError>
    requires bits { bits < 64 }
    requires depth { commitment.depth ≤ 40 }
    ensures verdict { IfOk result (λ accepted. IsVerdict C.observes C.passing C.checks C.gives_bits (H.digest hasher.now) commitment.depth
        bits commitment.root challenger.old (C.number opening.witness) opening.index opening.word opening.path.items accepted
        challenger.new) }
    ensures answer { IsOutcome (C.has_failed challenger.old) (C.has_failed challenger.new)
        (λ error. (error ≡ Memory) × (C.has_refused challenger.new ≡ true)) (challenger.new ≡ challenger.old) result }
{
    if challenger.failed() {
        return Err(GrindError::Failed);
    }
    let statement = statement_of(commitment, bits);
    challenger.observe(statement)?;
    let works = challenger.check_witness(bits, opening.witness)?;
    let number = challenger.sample_bits(commitment.depth)?;
    let is_there = opening.index == number % (1 << commitment.depth);
    let leads = verify(
        hasher,
        commitment,
        opening.index,
        opening.word,
        opening.path.as_slice(),
    );
    Ok(both(works, both(is_there, leads)))
}

// The statement that is observed.
fn statement_of(commitment: Commitment, bits: usize) -> Hash<OpeningStatement, u8, 48>
    ensures { words_of result ≡ statement_bytes commitment.depth bits commitment.root }
{
    let mut bytes = [0; 48];
    let (numbers, root) = bytes.split_at_mut(16);
    let (depth, work) = numbers.split_at_mut(8);
    depth.copy_from_slice(&commitment.depth.to_le_bytes());
    work.copy_from_slice(&bits.to_le_bytes());
    root.copy_from_slice(&commitment.root);
    Hash::from(bytes)
}

/// States that statements of different depths, of different work or of different roots are observed as different bytes, of which none
/// begins another.
pub fn statements_differ()
    ensures { StatementsDiffer }
{}
