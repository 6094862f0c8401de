// What the commands print, and the status that the program then ends with: over the bytes of files and the digits of roots alone.
ghost use Rattle.std.specs.Prelude.{◌≡◌, ◌≤◌, string_bytes, IfErr, IfOk, OnOk};
ghost use Rattle.std.specs.Io.KnownBytes.{Appends};
ghost use Rattle.std.specs.Process.{exit_status};
ghost use Rattle.hex.specs.Hex.{decode_sized, encode_lower};
ghost use Rattle.field_element.specs.Element.{repr_of};
ghost use Rattle.protocols.specs.CommitmentScheme.{matrix_rows, place_count, word_levels};
ghost use Rattle.prove_sums.specs.Reports.{claim_text, highest_first, info_text, refusal_line, root_line, security_text, sum_line};
ghost use Rattle.prove_sums.specs.Reports.{HasNoAnswer, IsInfoReport, IsVerifyReport};
ghost use Rattle.prove_sums.specs.Shapes.{sum_in};
ghost use Rattle.prove_sums.specs.Tables.{field_name};
ghost use Rattle.prove_sums.specs.declared.reports.NoAnswer.TheVariants.{Memory};

use crate::answers::answer_to;
use crate::proof_file::{Proof, Roots, decode};
use crate::refusal::Refusal;
use crate::security::soundness_bits;
use crate::tables::TableField;
use field_element::Ghash128;
use hex::{FromHex, FromHexError};
use protocols::commitment_scheme::EXPANSION;
use std::alloc::{AllocError, Global};
use std::io;
use std::io::Write;
use std::process::ExitCode;
use thiserror::Error;
use transcripts::ByteHasher32;

/// What a command prints, and the status that the program then ends with.
#[derive(Drop)]
pub(crate) struct Report {
    /// The line, with its line feed.
    pub line: String,
    /// The exit status.
    pub status: u8,
}

/// Why `verify` has no answer.
#[derive(Clone, Copy, Debug, PartialEq, Eq, Error)]
pub enum NoAnswer {
    /// The digits of the left root are those of none.
    #[error("reading the left root: a root has to be 64 hexadecimal digits")]
    LeftRoot,
    /// The digits of the right root are those of none.
    #[error("reading the right root: a root has to be 64 hexadecimal digits")]
    RightRoot,
    /// Memory was refused.
    #[error("out of memory")]
    Memory,
}

impl From<AllocError> for NoAnswer {
    ghost from_gives = { λ _ error. error ≡ Memory };

    fn from(_error: AllocError) -> NoAnswer {
        NoAnswer::Memory
    }
}

/// Prints the line of a report. It returns the status, as what the program ends with, and fails if the writer does.
pub(crate) fn print_report<W: Write>(writer: &mut W, report: &Report) -> io::Result<ExitCode>
    ensures status { IfOk result (λ code. exit_status code ≡ report.now.status) }
    ensures printed { OnOk result (Appends (W.contents writer.old) (W.contents writer.new) (string_bytes report.now.line)) }
{
    writer.write_all(report.line.as_str().as_bytes())?;
    Ok(ExitCode::from(report.status))
}

/// What is printed of a root that commits to a table. It fails if memory was refused.
pub(crate) fn root_report(alloc: Global, root: &[u8; 32]) -> Result<Report, AllocError>
    ensures line { IfOk result (λ report. string_bytes report.line ≡ root_line root.now) }
    ensures status { IfOk result (λ report. report.status ≡ 0) }
{
    let digits = hex::encode(alloc, &root[..])?;
    let line = format!(in alloc; "{digits}\n")?;
    Ok(Report { line, status: 0 })
}

/// What is printed of a sum, whose proof has so many bytes. It fails if memory was refused.
pub(crate) fn sum_report(alloc: Global, sum: Ghash128, size: usize) -> Result<Report, AllocError>
    ensures line { IfOk result (λ report. string_bytes report.line ≡ sum_line (repr_of sum) size) }
    ensures status { IfOk result (λ report. report.status ≡ 0) }
{
    let bytes = sum.to_bits().to_be_bytes();
    let digits = hex::encode(alloc, &bytes[..])?;
    let line = format!(in alloc; "the sum is {digits}, and its proof has {size} bytes\n")?;
    Ok(Report { line, status: 0 })
}

// What is printed of a proof that is refused.
fn refusal_report(alloc: Global, refusal: Refusal) -> Result<Report, AllocError>
    ensures line { IfOk result (λ report. string_bytes report.line ≡ refusal_line refusal) }
    ensures status { IfOk result (λ report. report.status ≡ 1) }
{
    let why = refusal.text();
    let line = format!(in alloc; "refused: {why}\n")?;
    Ok(Report { line, status: 1 })
}

// The root with these digits.
fn root_from(digits: &str) -> Result<[u8; 32], FromHexError>
    ensures { result ≡ decode_sized digits.now 32 }
{
    <[u8; 32] as FromHex>::from_hex(digits)
}

/// What `verify` prints for the bytes of a file and the digits of two roots of tables of words of a field, with the sizes for so many bits
/// of soundness, up to 128. It fails with `LeftRoot` or `RightRoot` exactly if these digits are those of no root, the left ones first, and
/// else only with `Memory`, if memory was refused.
pub(crate) fn verify_report<H: ByteHasher32>(
    alloc: Global,
    hasher: &H,
    bits: usize,
    field: TableField,
    bytes: &[u8],
    left: &str,
    right: &str,
) -> Result<Report, NoAnswer>
    requires { bits ≤ 128 }
    ensures report { IfOk result (λ report. IsVerifyReport H.digest hasher.now bits field left.now right.now bytes.now
        (string_bytes report.line) report.status) }
    ensures error { IfErr result (λ error. HasNoAnswer left.now right.now error) }
{
    let left = match root_from(left) {
        Ok(root) => root,
        Err(_) => return Err(NoAnswer::LeftRoot),
    };
    let right = match root_from(right) {
        Ok(root) => root,
        Err(_) => return Err(NoAnswer::RightRoot),
    };
    let roots = Roots { field, left, right };
    let answer = match answer_to(alloc, hasher, bits, &roots, bytes) {
        Ok(answer) => answer,
        Err(_) => return Err(NoAnswer::Memory),
    };
    let proof = match answer {
        Ok(proof) => proof,
        Err(refusal) => {
            let report = refusal_report(alloc, refusal)?;
            return Ok(report);
        }
    };
    let report = sum_report(alloc, proof.sum(), bytes.len())?;
    Ok(report)
}

// What is printed of the tables and of the sum of a proof.
fn claim_line(alloc: Global, proof: &Proof<'_, Ghash128>) -> Result<String, AllocError>
    ensures { IfOk result (λ line. string_bytes line ≡ claim_text (field_name proof.now.roots.field) proof.now.shape.rounds
        (encode_lower proof.now.roots.left) (encode_lower proof.now.roots.right) (highest_first (sum_in repr_of proof.now.elements.items))) }
{
    let left = hex::encode(alloc, &proof.roots.left[..])?;
    let right = hex::encode(alloc, &proof.roots.right[..])?;
    let bytes = proof.sum().to_bits().to_be_bytes();
    let sum = hex::encode(alloc, &bytes[..])?;
    let rounds = proof.shape.rounds;
    let field = proof.roots.field.name();
    let line = format!(in alloc;
        "field {field}\nwords 2^{rounds}\nleft root {left}\nright root {right}\nsum {sum}\n"
    )?;
    Ok(line)
}

// What is printed of a proof of so many bytes, for a matrix of 2^rows rows, which opens so many columns of 2^depth, with its bits of
// soundness.
fn security_line(
    alloc: Global,
    size: usize,
    rows: usize,
    count: usize,
    depth: usize,
    bits: usize,
) -> Result<String, AllocError>
    ensures { IfOk result (λ line. string_bytes line ≡ security_text size rows count depth bits) }
{
    let line = format!(in alloc;
        "bytes {size}\nrows 2^{rows}\ncolumns {count} of 2^{depth}\nsoundness {bits} bits, and 16 of work\n\
        assumed SHA-256 draws as if at random, and has no collisions\n"
    )?;
    Ok(line)
}

// What is printed of a proof, whose file has so many bytes.
fn info_line(
    alloc: Global,
    proof: &Proof<'_, Ghash128>,
    size: usize,
    bits: usize,
) -> Result<String, AllocError>
    ensures { IfOk result (λ line. string_bytes line ≡ info_text proof.now.roots.field proof.now.shape.rounds
        (encode_lower proof.now.roots.left) (encode_lower proof.now.roots.right) (highest_first (sum_in repr_of proof.now.elements.items)) size
        (matrix_rows proof.now.shape.queries proof.now.shape.rounds) (place_count proof.now.shape.queries proof.now.shape.rounds)
        (word_levels proof.now.shape.queries proof.now.shape.rounds) bits) }
{
    let claim = claim_line(alloc, proof)?;
    let rows = proof.shape.rows;
    let count = proof.shape.block_count();
    let depth = EXPANSION + proof.shape.levels;
    let security = security_line(alloc, size, rows, count, depth, bits)?;
    let line = format!(in alloc; "{claim}{security}")?;
    Ok(line)
}

/// What `info` prints for the bytes of a file: what the proof holds, whether it is accepted or not, and the bits of soundness of such
/// proofs; or why it is no proof. It fails if memory was refused.
pub(crate) fn info_report(alloc: Global, bytes: &[u8]) -> Result<Report, AllocError>
    ensures { IfOk result (λ report. IsInfoReport bytes.now (string_bytes report.line) report.status) }
{
    let proof = match decode(alloc, bytes)? {
        Ok(proof) => proof,
        Err(refusal) => {
            let report = refusal_report(alloc, refusal)?;
            return Ok(report);
        }
    };
    let bits = soundness_bits(proof.shape.queries, proof.shape.rounds);
    let line = info_line(alloc, &proof, bytes.len(), bits)?;
    Ok(Report { line, status: 0 })
}
