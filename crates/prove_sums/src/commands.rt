// What the program does.
ghost use Rattle.std.specs.Prelude.{◌≡◌, ◌≢◌, ◌⊎◌, ◌≤◌, codes, string_bytes, IfNone, IfOk, IfSome};
ghost use Rattle.field_element.specs.Element.{repr_of};
ghost use Rattle.prove_sums.specs.Bits.{AreFor};
ghost use Rattle.prove_sums.specs.Reports.{IsCommitReport, IsProveReport};
ghost use Rattle.prove_sums.specs.Tables.{IsTable};
ghost use Rattle.prove_sums.specs.Verdicts.{word_times, word_vector, HoldsTable, IsTableRoot, IsTableTree};
ghost use Rattle.prove_sums.specs.Verdicts.{IsWordCommitment};

use crate::example;
use crate::proof_file::{Roots, encode};
use crate::proving::Committed;
use crate::reports::{Report, info_report, print_report, root_report, sum_report, verify_report};
use crate::shapes::Shape;
use crate::tables::{TableField, table_of};
use crate::word_sums::{commit_table, prove, root_of};
use anyhow::{Context, Result, bail};
use field_element::Ghash128;
use protocols::openings::openings_have_one_count;
use std::alloc::Global;
use std::os::unix::fs::MetadataExt;
use std::process::ExitCode;
use std::{env, fs};
use transcripts::{ByteHasher32, Sha256Hasher};

const VERSION: &str = "prove_sums 0.1.0";

const USAGE: &str = "usage: prove_sums commit [--bits B] [--field F] TABLE
       prove_sums prove [--bits B] [--field F] LEFT RIGHT PROOF
       prove_sums verify [--bits B] [--field F] PROOF ROOTS
       prove_sums info PROOF

TABLE, LEFT and RIGHT are files of 2^n words, n from 0 to 39, as many in LEFT as in RIGHT. A word is an element of the field F, from its
lowest byte. `commit` prints the root that commits to a table, as 64 hexadecimal digits. `prove` adds the products of the words at the
same places, proves that this is their sum, and writes the proof to PROOF, which may not be one of the two tables. `verify` says whether
PROOF proves that for the tables nearest to what these two roots hold, that of LEFT first, and for which sum. It reads neither table.
`info` says what PROOF holds, and does not verify it: the field and the words of a table, the roots, the sum, its bytes, the rows of the
matrix, how many columns of how many are opened, and the bits of soundness.

F is g128 where it is not given: the field of GHASH, with words of 16 bytes. t8, t16, t32, t64 and t128 are the levels of the tower of so
many bits, with words of 1, 2, 4, 8 and 16 bytes. Such a word stands for its image in the field of GHASH: a root is that of the images,
and the sum is the image of the sum of the products in the tower. A proof names its field, and `verify` refuses one of another. It does
not prove that words of the nearest tables are images of words of a smaller level.

B is 80, 96 or 100, and 96 where it is not given: the bits of soundness that are asked for. A root is one for these bits, so that each
command takes the same. Columns at 128 places are opened where these reach the bits, as they do 80, and else at 256. Those reach 100 up
to n = 26 and 96 up to n = 34; a table that has more words is refused, and a proof that opens another number of places.

A table is a matrix of 2^h rows, h = (n - m) / 2, or 0 where n is below m, 2^m the places that are opened. Each row of 2^k words,
k = n - h, is extended to a code word of four times its length, and the root is that of the Merkle tree over SHA-256 whose leaves are
the columns. A proof is 8 bytes that name the format and the field F, one byte for m and one for n, both roots, the sum, the 2 n numbers
of the sum-check protocol, the values of both tables at its n challenges, a witness of 16 bits of work, a row of 2^k numbers, which has
the values at the first h challenges of the columns of the one table to which a further challenge combines both, the columns at 2^m
places for each table, or at all places where there are fewer, and the nodes that open them, as many for either. Numbers have 16 bytes
and nodes 32. The transcript begins with the bytes before the sum.

A proof is about the nearest tables: where a few columns below a root are not those of its table, a proof may be accepted that is one of
the table to which the others belong. b bits of soundness: where a verifier draws challenges and places at random, it accepts a sum that
is false with a chance of at most 2^-b, whatever the prover is, which is proved. 16 bits of work make each try at the places cost 2^16
digests. That SHA-256 may draw in place of a verifier, and that it has no collisions, is assumed.

The exit status is 0 if a proof was written, is accepted or is described, 1 if it is refused, and 2 after an error. Without arguments
the program prints a worked example. --version prints the version.";

/// The bits of soundness where none are asked for.
pub(crate) const BITS: usize = 96;

/// Does what the command line says. It returns what the program ends with.
pub fn run(rt: &HostRuntime) -> Result<ExitCode> {
    let mut words = Vec::new(rt.alloc());
    for word in env::args(rt).context("reading the command line")? {
        words.push(word)?;
    }
    if words.len() <= 1 {
        example::print(rt)?;
        return Ok(ExitCode::SUCCESS);
    }
    let command = words[1].as_str();
    if words.len() == 2 && command == "--help" {
        println!(rt; "{USAGE}")?;
        return Ok(ExitCode::SUCCESS);
    }
    if words.len() == 2 && command == "--version" {
        println!(rt; "{VERSION}")?;
        return Ok(ExitCode::SUCCESS);
    }
    let report = report_of(rt, command, &words[2..])?;
    let code = print_report(&mut rt.stdout(), &report)?;
    Ok(code)
}

// What a command prints, for the words behind it.
fn report_of(rt: &HostRuntime, command: &str, words: &[String]) -> Result<Report> {
    if command == "info" && words.len() == 1 {
        return run_info(rt, words[0].as_str());
    }
    let given = Options {
        bits: BITS,
        field: TableField::Ghash,
    };
    let (given, words) = option_of(given, words)?;
    let (given, files) = option_of(given, words)?;
    let (bits, field) = (given.bits, given.field);
    if command == "commit" && files.len() == 1 {
        run_commit(rt, bits, field, files[0].as_str())
    } else if command == "prove" && files.len() == 3 {
        let (left, right, to) = (files[0].as_str(), files[1].as_str(), files[2].as_str());
        run_prove(rt, bits, field, left, right, to)
    } else if command == "verify" && files.len() == 3 {
        let (from, left, right) = (files[0].as_str(), files[1].as_str(), files[2].as_str());
        run_verify(rt, bits, field, from, left, right)
    } else {
        bail!("{USAGE}")
    }
}

// What the options ask for: the bits of soundness, and the field of the words.
#[derive(Clone, Copy)]
struct Options {
    bits: usize,
    field: TableField,
    ghost few: { bits ≤ 100 },
}

// What is asked for by the option that words begin with, if it is one, and else by those before it; and the words behind it.
fn option_of(before: Options, words: &[String]) -> Result<(Options, &[String])> {
    let (mut bits, mut field) = (before.bits, before.field);
    if words.len() < 2 {
        return Ok((before, words));
    }
    let value = words[1].as_str();
    match words[0].as_str() {
        "--bits" => {
            let Some(asked) = bits_from(value) else {
                bail!("--bits has to be 80, 96 or 100")
            };
            bits = asked;
        }
        "--field" => {
            let Some(named) = TableField::named(value) else {
                bail!("--field has to be g128, t8, t16, t32, t64 or t128")
            };
            field = named;
        }
        _ => return Ok((before, words)),
    }
    Ok((Options { bits, field }, &words[2..]))
}

// The bits of soundness that a word asks for, and None where it is none of the three words.
fn bits_from(word: &str) -> Option<usize>
    ensures few { IfSome result (λ bits. bits ≤ 100) }
    ensures named { IfSome result (λ bits. ((bits ≡ 80) × (word.now ≡ codes "80")) ⊎ ((bits ≡ 96) × (word.now ≡ codes "96"))
        ⊎ ((bits ≡ 100) × (word.now ≡ codes "100"))) }
    ensures none { IfNone result ((word.now ≢ codes "80") × (word.now ≢ codes "96") × (word.now ≢ codes "100")) }
{
    match word {
        "80" => Some(80),
        "96" => Some(96),
        "100" => Some(100),
        _ => None,
    }
}

// Commits to the table in a file.
fn run_commit(rt: &HostRuntime, bits: usize, field: TableField, table: &str) -> Result<Report>
    requires { bits ≤ 100 }
{
    let table = fs::read(rt, table).context("reading the table")?;
    commit_report(rt.alloc(), &Sha256Hasher, bits, field, table.as_slice())
}

// Proves the sum of the tables in two files, and writes the proof to a third.
fn run_prove(
    rt: &HostRuntime,
    bits: usize,
    field: TableField,
    left: &str,
    right: &str,
    to: &str,
) -> Result<Report>
    requires { bits ≤ 100 }
{
    if is_one_file(rt, left, to) || is_one_file(rt, right, to) {
        bail!("the proof would be written over a table")
    }
    let left = fs::read(rt, left).context("reading the left table")?;
    let right = fs::read(rt, right).context("reading the right table")?;
    let (left, right) = (left.as_slice(), right.as_slice());
    let written = prove_tables(rt.alloc(), &Sha256Hasher, bits, field, left, right)?;
    fs::write(rt, to, written.bytes.as_slice()).context("writing the proof")?;
    Ok(written.report)
}

// Whether two names are those of one file, as where one is a link to the other.
fn is_one_file(rt: &HostRuntime, one: &str, other: &str) -> bool {
    match (fs::metadata(rt, one), fs::metadata(rt, other)) {
        (Ok(one), Ok(other)) => one.dev() == other.dev() && one.ino() == other.ino(),
        _ => false,
    }
}

// Verifies the proof in a file, for the tables of words of a field with the roots of these digits.
fn run_verify(
    rt: &HostRuntime,
    bits: usize,
    field: TableField,
    from: &str,
    left: &str,
    right: &str,
) -> Result<Report>
    requires { bits ≤ 100 }
{
    let bytes = fs::read(rt, from).context("reading the proof")?;
    let report = verify_report(
        rt.alloc(),
        &Sha256Hasher,
        bits,
        field,
        bytes.as_slice(),
        left,
        right,
    )?;
    Ok(report)
}

// Says what the proof in a file holds.
fn run_info(rt: &HostRuntime, from: &str) -> Result<Report> {
    let bytes = fs::read(rt, from).context("reading the proof")?;
    let report = info_report(rt.alloc(), bytes.as_slice())?;
    Ok(report)
}

// A table, and what commits to it, with the sizes for so many bits of soundness.
fn commit<H: ByteHasher32>(
    alloc: Global,
    hasher: &H,
    bits: usize,
    field: TableField,
    bytes: &[u8],
) -> Result<(Shape, Committed<Ghash128>, [u8; 32])>
    requires { bits ≤ 128 }
    ensures sized { IfOk result (λ made. AreFor bits made.0.queries made.0.rounds) }
    ensures table { IfOk result (λ made. IsTable field repr_of bytes.now made.0.rounds made.1.elements.items) }
    ensures holds { IfOk result (λ made. HoldsTable repr_of 128 word_times word_vector made.0.queries made.0.rounds
        made.1.elements.items made.1.held.columns.items made.1.held.tree) }
    ensures root { IfOk result (λ made. IsTableRoot (H.digest hasher.now) repr_of made.0.queries made.0.rounds made.1.elements.items
        made.1.held.columns.items made.2) }
    ensures tree { IfOk result (λ made. IsTableTree (H.digest hasher.now) repr_of made.0.queries made.0.rounds
        made.1.held.columns.items made.2 made.1.held.tree) }
{
    let table = table_of(alloc, bits, field, bytes)?;
    let shape = table.shape;
    let committed = commit_table(alloc, hasher, table)?;
    let root = root_of(&committed);
    Ok((shape, committed, root))
}

/// The root that commits to a table, with the sizes for so many bits of soundness.
pub(crate) fn commit_bytes<H: ByteHasher32>(
    alloc: Global,
    hasher: &H,
    bits: usize,
    field: TableField,
    table: &[u8],
) -> Result<[u8; 32]>
    requires { bits ≤ 128 }
    ensures { IfOk result (λ root. IsWordCommitment (H.digest hasher.now) bits field table.now root) }
{
    let (_shape, _committed, root) = commit(alloc, hasher, bits, field, table)?;
    Ok(root)
}

/// What `commit` prints for the bytes of a table.
fn commit_report<H: ByteHasher32>(
    alloc: Global,
    hasher: &H,
    bits: usize,
    field: TableField,
    table: &[u8],
) -> Result<Report>
    requires { bits ≤ 128 }
    ensures { IfOk result (λ report. IsCommitReport (H.digest hasher.now) bits field table.now (string_bytes report.line) report.status) }
{
    let root = commit_bytes(alloc, hasher, bits, field, table)?;
    let report = root_report(alloc, &root)?;
    Ok(report)
}

/// A proof as it is written, and what is printed of it.
#[derive(Drop)]
pub(crate) struct Written {
    /// The bytes of the proof.
    pub bytes: Vec<u8>,
    /// What is printed: the sum that is proved, and how many bytes there are.
    pub report: Report,
}

/// The proof of the sum of two tables, with the sizes for so many bits of soundness.
pub(crate) fn prove_tables<H: ByteHasher32>(
    alloc: Global,
    hasher: &H,
    bits: usize,
    field: TableField,
    left: &[u8],
    right: &[u8],
) -> Result<Written>
    requires { bits ≤ 128 }
    ensures { IfOk result (λ written. IsProveReport H.digest hasher.now bits field left.now right.now written.bytes.items
        (string_bytes written.report.line) written.report.status) }
{
    openings_have_one_count();
    let (shape, first, left_root) = commit(alloc, hasher, bits, field, left)?;
    let (other, second, right_root) = commit(alloc, hasher, bits, field, right)?;
    let (rounds, others) = (shape.rounds, other.rounds);
    if others != rounds {
        bail!("the tables have to have as many words, one as the other")
    }
    let roots = Roots {
        field,
        left: left_root,
        right: right_root,
    };
    let sent = prove(alloc, hasher, &shape, &roots, &first, &second)?;
    let (elements, nodes) = (sent.elements.as_slice(), sent.nodes.as_slice());
    let bytes = encode(alloc, &shape, &roots, elements, nodes)?;
    let report = sum_report(alloc, elements[0], bytes.len())?;
    Ok(Written { bytes, report })
}
