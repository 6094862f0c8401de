// What is answered on a file of a proof.
ghost use Rattle.std.specs.Prelude.{◌≡◌, ◌≢◌, ◌≤◌, IfErr, IfOk};
ghost use Rattle.field_element.specs.Element.{repr_of};
ghost use Rattle.sum_checks.specs.declared.error.ProtocolError.TheVariants.{Memory};
ghost use Rattle.prove_sums.specs.ProofFiles.{IsFileOf};
ghost use Rattle.prove_sums.specs.Bits.{AreFor};
ghost use Rattle.prove_sums.specs.Verdicts.{IsSizeRefusal, IsWordAnswer, refusal_in};
ghost use Rattle.prove_sums.specs.declared.refusal.Refusal.TheVariants.{OtherField};

use crate::proof_file::{Proof, Roots, decode};
use crate::refusal::Refusal;
use crate::shapes::Shape;
use crate::tables::TableField;
use crate::word_sums::verify;
use field_element::Ghash128;
use protocols::ProtocolError;
use std::alloc::Global;
use transcripts::ByteHasher32;

/// The proof that a file holds, if it is one for the tables of words of this field with these roots, and with the sizes for so many bits
/// of soundness, up to 128, and is accepted, or why it is refused. It fails only if memory was refused.
pub fn answer_to<'a, H: ByteHasher32>(
    alloc: Global,
    hasher: &H,
    bits: usize,
    roots: &Roots,
    bytes: &'a [u8],
) -> Result<Result<Proof<'a, Ghash128>, Refusal>, ProtocolError>
    requires { bits ≤ 128 }
    ensures answer { IfOk result (λ answer. IsWordAnswer H.digest hasher.now bits roots.now.field roots.now.left
        roots.now.right bytes.now (refusal_in answer)) }
    ensures proof { IfOk result (λ answer. IfOk answer (λ proof. IsFileOf repr_of bytes.now roots.now.field
        proof.shape.queries proof.shape.rounds roots.now.left roots.now.right proof.elements.items proof.nodes.now)) }
    ensures memory { IfErr result (λ error. error ≡ Memory) }
{
    let proof = match decode(alloc, bytes)? {
        Ok(proof) => proof,
        Err(refusal) => return Ok(Err(refusal)),
    };
    match check_field(proof.roots.field, roots.field) {
        Ok(()) => {}
        Err(refusal) => return Ok(Err(refusal)),
    }
    match check_sizes(&proof.shape, bits) {
        Ok(()) => {}
        Err(refusal) => return Ok(Err(refusal)),
    }
    if proof.roots.left != roots.left {
        return Ok(Err(Refusal::OtherLeft));
    }
    if proof.roots.right != roots.right {
        return Ok(Err(Refusal::OtherRight));
    }
    let accepted = verify(alloc, hasher, &proof)?;
    if !accepted {
        return Ok(Err(Refusal::NotProved));
    }
    Ok(Ok(proof))
}

// Whether the field of a proof is the one that is asked for, or that it is another.
fn check_field(named: TableField, asked: TableField) -> Result<(), Refusal>
    ensures same { IfOk result (λ _. named ≡ asked) }
    ensures refused { IfErr result (λ refusal. (refusal ≡ OtherField) × (named ≢ asked)) }
{
    if named != asked {
        return Err(Refusal::OtherField);
    }
    Ok(())
}

// Whether sizes are those for so many bits, or why they are not.
fn check_sizes(shape: &Shape, bits: usize) -> Result<(), Refusal>
    requires { bits ≤ 128 }
    ensures sized { IfOk result (λ _. AreFor bits shape.now.queries shape.now.rounds) }
    ensures refused { IfErr result (λ refusal. IsSizeRefusal bits shape.now.queries shape.now.rounds refusal) }
{
    match Shape::for_bits(shape.rounds, bits) {
        Some(sizes) => {
            if sizes.queries != shape.queries {
                return Err(Refusal::OtherParameters);
            }
            Ok(())
        }
        None => Err(Refusal::TooFewBits),
    }
}
