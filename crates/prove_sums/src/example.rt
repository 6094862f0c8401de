// A worked example: two tables of eight words, and what becomes of their proof where it, or a root, is changed.
use crate::answers::answer_to;
use crate::commands::{BITS, commit_bytes, prove_tables};
use crate::proof_file::Roots;
use crate::tables::TableField;
use anyhow::Result;
use transcripts::Sha256Hasher;

// The field of the words.
const FIELD: TableField = TableField::Ghash;

// What the example changes, and at which byte of the proof.
// The change turns the lowest bits of that byte.
static CHANGES: [(&str, usize, u8); 15] = [
    ("with another first byte", 0, 1),
    ("of another version", 4, 1),
    ("over another field", 6, 1),
    ("with another number of places", 8, 15),
    ("with another number of rounds", 9, 1),
    ("for another left table", 10, 1),
    ("for another right table", 42, 1),
    ("with another sum", 74, 1),
    ("with another first message", 90, 1),
    ("with another left value", 186, 1),
    ("with another right value", 202, 1),
    ("with another witness", 218, 1),
    ("with another row", 234, 1),
    ("with another left column", 362, 1),
    ("with another right column", 874, 1),
];

// Prints the verifier's answer on a proof for the tables with these roots.
fn say(rt: &HostRuntime, what: &str, roots: &Roots, proof: &[u8]) -> Result<()> {
    match answer_to(rt.alloc(), &Sha256Hasher, BITS, roots, proof)? {
        Ok(_) => println!(rt; "{what}: accepted")?,
        Err(refusal) => {
            let why = refusal.text();
            println!(rt; "{what}: refused, {why}")?
        }
    }
    Ok(())
}

// Says what becomes of a proof that is taken for one of other tables.
fn say_others(rt: &HostRuntime, roots: &Roots, proof: &[u8]) -> Result<()> {
    let turned = &Roots {
        field: roots.field,
        left: roots.right,
        right: roots.left,
    };
    let words = &Roots {
        field: TableField::Tower128,
        left: roots.left,
        right: roots.right,
    };
    say(rt, "the proof for the tables in turn", turned, proof)?;
    say(rt, "the proof for tables of other words", words, proof)?;
    Ok(())
}

// Says what becomes of a proof in which one byte is changed.
fn say_changed(
    rt: &HostRuntime,
    what: &str,
    roots: &Roots,
    proof: &mut [u8],
    place: usize,
    bits: u8,
) -> Result<()> {
    if place < proof.len() {
        proof[place] ^= bits;
        say(rt, what, roots, proof)?;
        proof[place] ^= bits;
    }
    Ok(())
}

/// Prints the example.
pub(crate) fn print(rt: &HostRuntime) -> Result<()> {
    let left =
        *b"Two tables of eight words, of 16 bytes each, whose products are added. This is the table on the left, and so on: 12345678901234567";
    let right = [7; 128];
    let left = &left[..128];
    let mut written = prove_tables(rt.alloc(), &Sha256Hasher, BITS, FIELD, left, &right)?;
    let proof = written.bytes.as_mut_slice();
    let left = commit_bytes(rt.alloc(), &Sha256Hasher, BITS, FIELD, left)?;
    let right = commit_bytes(rt.alloc(), &Sha256Hasher, BITS, FIELD, &right)?;
    let roots = &Roots {
        field: FIELD,
        left,
        right,
    };
    let text = hex::encode(rt.alloc(), &proof[..])?;
    println!(rt; "{text}")?;
    say(rt, "the proof", roots, proof)?;
    say_others(rt, roots, proof)?;
    'changes: for index in 0..CHANGES.len() {
        let (what, place, bits) = CHANGES[index];
        say_changed(rt, what, roots, proof, place, bits)?;
    }
    let short = proof.len().saturating_sub(1);
    say(rt, "without its last byte", roots, &proof[..short])?;
    let shorter = proof.len().saturating_sub(64);
    say(rt, "without its last numbers", roots, &proof[..shorter])?;
    Ok(())
}
