// A small proof system: that three committed tables meet a b = c in each row. A zero-check leaves a claim of the three tables' values at one
// point, where one row opens all of them.
ghost use Rattle.std.specs.Prelude.{◌↔◌, ◌≤◌, ◌∷◌, [], IfOk, IsTrue, length, map};
ghost use Rattle.protocols.specs.JointTables.{sent_tables};
ghost use Rattle.test_protocols.specs.ProofSystem.{VerifiesProducts};

use binary_field::{
    BinaryChallenger, ByteHasher32, CanObserve, CanSample, CanSampleUniformBits, Field, Ghash128,
    GrindingChallenger, HashChallenger, Sha256Hasher, ShortElement,
};
use protocols::ProtocolError;
use protocols::commitment_scheme::{Parameters, commit};
use protocols::joint_tables::{OpenedTables, open_tables, verify_tables};
use protocols::merkle_paths::power_of_two;
use protocols::zero_check::{prove_zero, verify_zero};
use std::alloc::{AllocError, Global};
use std::test::Fail;

type Transcript = BinaryChallenger<Ghash128, HashChallenger<Sha256Hasher>>;

/// The roots of the three tables.
#[derive(Clone, Copy)]
pub struct Roots {
    a: [u8; 32],
    b: [u8; 32],
    c: [u8; 32],
}

/// What is sent: the roots, the messages of the zero-check, and what opens the values of the tables at its point.
#[derive(Drop)]
pub struct Proof<F: Field> {
    roots: Roots,
    messages: Vec<F>,
    opened: OpenedTables<F, Global>,
}

// The transcript begins with what is proved, the sizes and the roots.
fn transcript(alloc: Global, sizes: &Parameters, roots: &Roots) -> Result<Transcript, AllocError> {
    let mut front = Vec::from_slice(alloc, b"a b = c")?;
    front.extend_from_slice(&sizes.variables.to_le_bytes())?;
    front.extend_from_slice(&sizes.queries.to_le_bytes())?;
    front.extend_from_slice(&roots.a)?;
    front.extend_from_slice(&roots.b)?;
    front.extend_from_slice(&roots.c)?;
    Ok(BinaryChallenger::from_hasher(front, Sha256Hasher))
}

/// Proves that a b = c in each of 2^variables rows. It fails with `Shape` where a table has not as many, and where the calls below do.
pub fn prove(
    alloc: Global,
    sizes: &Parameters,
    a: &[Ghash128],
    b: &[Ghash128],
    c: &[Ghash128],
) -> Result<Proof<Ghash128>, ProtocolError> {
    let size = power_of_two(sizes.variables);
    if a.len() != size || b.len() != size || c.len() != size {
        return Err(ProtocolError::Shape);
    }
    let first = commit(alloc, &Sha256Hasher, sizes, a)?;
    let second = commit(alloc, &Sha256Hasher, sizes, b)?;
    let third = commit(alloc, &Sha256Hasher, sizes, c)?;
    let a_root = first.tree.commitment().root;
    let b_root = second.tree.commitment().root;
    let c_root = third.tree.commitment().root;
    let roots = Roots {
        a: a_root,
        b: b_root,
        c: c_root,
    };
    let mut challenger = transcript(alloc, sizes, &roots)?;
    let zeros = prove_zero(alloc, &mut challenger, sizes.variables, a, b, c)?;
    let point = zeros.sum.point.as_slice();
    let tables = [&first, &second, &third];
    let opened = open_tables(alloc, &mut challenger, sizes, &tables, point)?;
    let messages = Vec::from_slice(alloc, zeros.sum.messages.as_slice())?;
    Ok(Proof {
        roots,
        messages,
        opened,
    })
}

/// Whether a proof is accepted in a transcript of any challenger, over a field of at least 2^26 elements: exactly if the opening is and
/// its values meet what the zero-check leaves. It fails where the calls below do.
pub fn verify_in<
    F: ShortElement,
    H: ByteHasher32,
    C: CanObserve<F> + CanSample<F> + GrindingChallenger<Witness = F> + CanSampleUniformBits<F>,
>(
    alloc: Global,
    hasher: &H,
    challenger: &mut C,
    sizes: &Parameters,
    proof: &Proof<F>,
) -> Result<bool, ProtocolError>
    requires { 26 ≤ F.width }
    ensures { IfOk result (λ accepted. VerifiesProducts C.observes C.gives C.passing C.checks C.gives_bits F.repr (H.digest hasher.now)
        F.NUM_BYTES F.width F.product (λ i. F.basis (F.cantor i)) sizes.now.queries sizes.now.variables proof.now.messages.items
        (proof.now.roots.a ∷ proof.now.roots.b ∷ proof.now.roots.c ∷ []) (sent_tables proof.now.opened.values.items
        proof.now.opened.row.items (C.number proof.now.opened.witness) (map (λ list. list.items) proof.now.opened.columns.items)
        (map (λ list. list.items) proof.now.opened.nodes.items)) challenger.old accepted challenger.new) }
{
    let messages = proof.messages.as_slice();
    let left = verify_zero(alloc, challenger, sizes.variables, messages)?;
    let point = left.sum.point.as_slice();
    let roots = [proof.roots.a, proof.roots.b, proof.roots.c];
    let opened = &proof.opened;
    let opens = verify_tables(alloc, hasher, challenger, sizes, &roots, point, opened)?;
    if opened.values.len() != 3 {
        return Ok(false);
    }
    let values = opened.values.as_slice();
    let met = left.is_met(values[0], values[1], values[2]);
    Ok(both_hold(opens, met))
}

// Whether both hold.
fn both_hold(one: bool, other: bool) -> bool
    ensures { IsTrue result ↔ IsTrue one × IsTrue other }
{
    one && other
}

/// Whether a proof shows that a b = c in each of 2^variables rows: `verify_in`, in a transcript that begins with the sizes and the roots.
/// Of each part it is proved what that shows. Values that are opened are those of the tables to which the roots' columns commit, or a
/// challenge, a coordinate or a drawing of places is one of few, or two inputs of SHA-256 that differ have one digest
/// (`laws::tables_are_bound`). Tables whose values at the point meet what the zero-check leaves have a b = c in
/// each row, or a coordinate or a challenge is one of few (`laws::false_zeros_need_luck`).
pub fn verify(
    alloc: Global,
    sizes: &Parameters,
    proof: &Proof<Ghash128>,
) -> Result<bool, ProtocolError> {
    let mut challenger = transcript(alloc, sizes, &proof.roots)?;
    verify_in(alloc, &Sha256Hasher, &mut challenger, sizes, proof)
}

// Bits as elements: bit i of a counter times an odd number, high up.
fn bits(alloc: Global, rows: usize, step: u64, other: u64) -> Result<Vec<Ghash128>, AllocError> {
    let mut table = Vec::new(alloc);
    for row in 0..rows {
        let left = (row as u64).wrapping_mul(step) >> 40;
        let right = (row as u64).wrapping_mul(other) >> 40;
        table.push(Ghash128::new((left & right & 1) as u128))?;
    }
    Ok(table)
}

// What is proved of 2^10 rows of bits, where c has this added in one row.
fn proof_of(
    alloc: Global,
    sizes: &Parameters,
    change: u128,
) -> Result<Proof<Ghash128>, ProtocolError> {
    let (one, other) = (0x9e37_79b9_7f4a_7c15, 0xbf58_476d_1ce4_e5b9);
    let a = bits(alloc, 1024, one, one)?;
    let b = bits(alloc, 1024, other, other)?;
    let mut c = bits(alloc, 1024, one, other)?;
    if let Some(bit) = c.as_mut_slice().get_mut(700) {
        *bit = *bit + Ghash128::new(change);
    }
    prove(alloc, sizes, a.as_slice(), b.as_slice(), c.as_slice())
}

#[test]
fn a_true_claim_is_accepted_at_its_sizes_alone(rt: HostRuntime) -> Result<(), Fail> {
    let sizes = Parameters::new(10, 7);
    let proof = proof_of(rt.alloc(), &sizes, 0)?;
    let accepted = verify(rt.alloc(), &sizes, &proof)?;
    let fewer = verify(rt.alloc(), &Parameters::new(10, 6), &proof)?;
    let longer = verify(rt.alloc(), &Parameters::new(11, 7), &proof);
    assert!(rt; accepted && !fewer && matches!(longer, Err(ProtocolError::Length)));
    Ok(())
}

#[test]
fn a_changed_bit_is_refused(rt: HostRuntime) -> Result<(), Fail> {
    let sizes = Parameters::new(10, 7);
    let proof = proof_of(rt.alloc(), &sizes, 1)?;
    let accepted = verify(rt.alloc(), &sizes, &proof)?;
    assert!(rt; !accepted);
    Ok(())
}
