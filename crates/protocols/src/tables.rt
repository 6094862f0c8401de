// Commitments to tables of multilinear polynomials by the columns of interleaved code words, and openings of their values.
ghost use Rattle.std.specs.Prelude.{◌≡◌, ◌↔◌, ◌+◌, ◌-◌, ◌*◌, ◌^◌, ◌<◌, ◌≤◌, ℕ, length, map, slice_index, IfOk, IsTrue};
ghost use Rattle.std.specs.List.{range_with_len};
ghost use Rattle.field_bytes.specs.Streams.{joined_bytes};
ghost use Rattle.field_slices.specs.Multilinear.{multilinear_value};
ghost use Rattle.transcripts.specs.Commitments.{IsTreeOver, row_at};
ghost use Rattle.transcripts.specs.Openings.{AreAscending};
ghost use Rattle.protocols.specs.Tables.{AreColumnsAt, AreExtendedColumns, ColumnValuesAgree, ColumnValuesEvaluate, FewPlacesAgree};
ghost use Rattle.protocols.specs.Tables.{IsHonestOpening, OpensColumns, OpensPlaces, column_at};

use crate::extension::extend;
use crate::interleaved::extend_rows;
use crate::proof_bytes::encode;
use field_base::traits::Field;
use field_bytes::ShortElement;
use field_slices::evaluate_multilinear;
use field_slices::matrices::{Elements, transpose_into};
use std::alloc::{AllocError, Allocator};
use sum_checks::sumcheck::has_length;
use transcripts::ByteHasher32;
use transcripts::merkle_paths::{Commitment, power_of_two, row_of};
use transcripts::merkle_tree::MerkleTree;
use transcripts::openings::verify_many;

/// A table with what commits to it: the columns of its rows' code words, one after the other, and the tree over their bytes.
#[derive(Drop)]
pub struct TableColumns<F: Field, A: Allocator> {
    /// The columns, one after the other.
    pub columns: Vec<F, A>,
    /// The tree over their bytes.
    pub tree: MerkleTree<A>,
}

/// What a prover opens of a committed table.
#[derive(Drop)]
pub struct OpenedColumns<F: Field, A: Allocator> {
    /// The columns, one after the other.
    pub columns: Vec<F, A>,
    /// The nodes that open their bytes.
    pub nodes: Vec<[u8; 32], A>,
}

/// A row that a prover sends of a committed table, as the values of its columns at a point.
#[derive(Clone, Copy)]
pub struct ClaimedRow<'a, F> {
    /// The point.
    pub point: &'a [F],
    /// The row.
    pub row: &'a [F],
}

/// What a verifier is sent of a committed table's columns.
#[derive(Clone, Copy)]
pub struct ColumnOpening<'a, F> {
    /// The places that are opened.
    pub places: &'a [usize],
    /// The columns there, one after the other.
    pub columns: &'a [F],
    /// The nodes that open their bytes.
    pub nodes: &'a [[u8; 32]],
}

/// Commits to a table of 2^(rows + levels) values, a matrix of 2^rows rows of 2^levels values each: each row is extended to a code word at
/// the rate 1/2^expansion, and the bytes of column p, element by element and from the lowest byte, are leaf p of a Merkle tree. It fails if
/// memory was refused.
pub fn commit_table<F: ShortElement, H: ByteHasher32, A: Allocator + Copy>(
    alloc: A,
    hasher: &H,
    table: &[F],
    rows: usize,
    levels: usize,
    expansion: usize,
) -> Result<TableColumns<F, A>, AllocError>
    requires few { expansion + levels ≤ 40 }
    requires points { expansion + levels ≤ F.width }
    requires rows { rows ≤ 40 }
    requires count { length table.now ≡ 2 ^ rows * 2 ^ levels }
    ensures depth { IfOk result (λ held. held.tree.depth ≡ expansion + levels) }
    ensures columns { IfOk result (λ held. AreExtendedColumns F.repr F.width F.product (λ i. F.basis (F.cantor i)) levels expansion
        (2 ^ rows) (map F.repr table.now) held.columns.items) }
    ensures tree { IfOk result (λ held. IsTreeOver (H.digest hasher.now)
        (λ p. joined_bytes F.NUM_BYTES F.repr (row_at (2 ^ rows) held.columns.items p)) held.tree) }
{
    let height = power_of_two(rows);
    let depth = expansion + levels;
    let matrix = extend_rows(alloc, table, height, levels, expansion)?;
    let columns = columns_of(alloc, matrix.as_slice(), height, power_of_two(depth))?;
    let bytes = encode(alloc, columns.as_slice())?;
    let tree = MerkleTree::over_rows(
        alloc,
        alloc,
        hasher,
        bytes.as_slice(),
        height * F::NUM_BYTES,
        depth,
    )?;
    Ok(TableColumns { columns, tree })
}

// The columns of a matrix of `height` rows of `size` elements each, one after the other.
fn columns_of<F: Field, A: Allocator>(
    alloc: A,
    matrix: &[F],
    height: usize,
    size: usize,
) -> Result<Vec<F, A>, AllocError>
    requires { length matrix.now ≡ height * size }
    ensures count { IfOk result (λ columns. length columns.items ≡ size * height) }
    ensures each { IfOk result (λ columns. (p : ℕ) → p < size
        → map F.repr (row_at height columns.items p) ≡ column_at height size (map F.repr matrix.now) p) }
{
    let mut columns = F::zero_vec(alloc, matrix.len())?;
    transpose_into(
        Elements::<F>::new(),
        columns.as_mut_slice(),
        matrix,
        height,
        size,
    );
    Ok(columns)
}

/// The values at a point of the polynomials whose corner values are the first `count` of these columns, of two to the power of the point's
/// length elements each: the row that a prover sends. It fails if memory was refused.
pub fn column_values<F: Field, A: Allocator>(
    alloc: A,
    columns: &[F],
    count: usize,
    point: &[F],
) -> Result<Vec<F, A>, AllocError>
    requires few { length point.now ≤ 40 }
    requires room { count * 2 ^ length point.now ≤ length columns.now }
    ensures { IfOk result (λ values. map F.repr values.items ≡ map (λ p. multilinear_value F.product
        (map F.repr (row_at (2 ^ length point.now) columns.now p)) (map F.repr point.now)) (range_with_len 0 count)) }
{
    let height = power_of_two(point.len());
    let mut values = Vec::new(alloc);
    'columns: for place in 0..count {
        let value = evaluate_multilinear(row_of(columns, height, place), point);
        values.push(value)?;
    }
    Ok(values)
}

/// The columns at these places, one after the other, of columns of `height` elements each. It fails if memory was refused.
pub fn columns_at<F: Field, A: Allocator>(
    alloc: A,
    columns: &[F],
    height: usize,
    places: &[usize],
) -> Result<Vec<F, A>, AllocError>
    requires { (i : ℕ) → i < length places.now → (slice_index places.now i + 1) * height ≤ length columns.now }
    ensures { IfOk result (λ chosen. AreColumnsAt height columns.now places.now chosen.items) }
{
    let mut chosen = Vec::new(alloc);
    'places: for index in 0..places.len() {
        chosen.extend_from_slice(row_of(columns, height, places[index]))?;
    }
    Ok(chosen)
}

/// Opens a committed table, of columns of 2^rows elements each, rows at most 40, at places that ascend, none twice, and are below 2^depth:
/// the columns there, and the nodes that open their bytes. With the row of the columns' values at any point (`column_values`),
/// `verify_columns` accepts it. It fails if memory was refused.
pub fn open_columns<F: Field, A: Allocator + Copy>(
    alloc: A,
    table: &TableColumns<F, A>,
    rows: usize,
    places: &[usize],
) -> Result<OpenedColumns<F, A>, AllocError>
    requires few { rows ≤ 40 }
    requires count { length table.now.columns.items ≡ 2 ^ table.now.tree.depth * 2 ^ rows }
    requires places { AreAscending (2 ^ table.now.tree.depth) places.now }
    ensures columns { IfOk result (λ opened. AreColumnsAt (2 ^ rows) table.now.columns.items places.now opened.columns.items) }
    ensures nodes { IfOk result (λ opened. OpensPlaces table.now.tree places.now opened.nodes.items) }
    ensures accepted { IfOk result (λ opened. (size : ℕ) (vector : ℕ → ℕ) → IsHonestOpening F.repr size F.width F.product vector rows
        table.now.tree table.now.columns.items places.now opened.columns.items opened.nodes.items) }
{
    let height = power_of_two(rows);
    let columns = columns_at(alloc, table.columns.as_slice(), height, places)?;
    let nodes = table.tree.open_many(alloc, places)?;
    Ok(OpenedColumns { columns, nodes })
}

/// Whether a row of 2^levels values has the values of a committed table's columns at a point, as far as the columns that are opened say:
/// nodes open their bytes, and the row's code word, of 2^depth elements, has at each place the value of the column there. Rows and columns
/// of other sizes, and places that are not in ascending order, come twice or are not below 2^depth, are refused. It fails if memory was
/// refused.
pub fn verify_columns<F: ShortElement, H: ByteHasher32, A: Allocator + Copy>(
    alloc: A,
    hasher: &H,
    commitment: Commitment,
    levels: usize,
    claim: &ClaimedRow<'_, F>,
    opening: &ColumnOpening<'_, F>,
) -> Result<bool, AllocError>
    requires few { commitment.depth ≤ 40 }
    requires points { commitment.depth ≤ F.width }
    requires levels { levels ≤ commitment.depth }
    requires coordinates { length claim.now.point.now ≤ 40 }
    ensures { IfOk result (λ accepted. IsTrue accepted ↔ OpensColumns (H.digest hasher.now) F.repr F.NUM_BYTES F.width F.product
        (λ i. F.basis (F.cantor i)) levels (commitment.depth - levels) commitment.root claim.now.point.now claim.now.row.now
        opening.now.places.now opening.now.columns.now opening.now.nodes.now) }
{
    let (point, row) = (claim.point, claim.row);
    let (places, columns) = (opening.places, opening.columns);
    let height = power_of_two(point.len());
    if !has_length(columns.len(), places.len(), height) {
        return Ok(false);
    }
    if row.len() != power_of_two(levels) {
        return Ok(false);
    }
    let bytes = encode(alloc, columns)?;
    let size = height * F::NUM_BYTES;
    let opened = verify_many(
        alloc,
        hasher,
        commitment,
        places,
        bytes.as_slice(),
        size,
        opening.nodes,
    )?;
    if !opened {
        return Ok(false);
    }
    let word = extend(alloc, row, levels, commitment.depth - levels)?;
    let agree = agree_at(word.as_slice(), point, height, places, columns);
    Ok(agree)
}

// Whether a word has, at each place, the value at the point of the column that is opened there.
pub(crate) fn agree_at<F: Field>(
    word: &[F],
    point: &[F],
    height: usize,
    places: &[usize],
    columns: &[F],
) -> bool
    requires height { height ≡ 2 ^ length point.now }
    requires count { length columns.now ≡ length places.now * height }
    ensures { IsTrue result ↔ ((i : ℕ) → i < length places.now → (slice_index places.now i < length word.now)
        × (multilinear_value F.product (map F.repr (row_at height columns.now i)) (map F.repr point.now)
        ≡ slice_index (map F.repr word.now) (slice_index places.now i))) }
{
    'places: for index in 0..places.len() {
        let place = places[index];
        if place >= word.len() {
            return false;
        }
        let value = evaluate_multilinear(row_of(columns, height, index), point);
        let same = value == word[place];
        if !same {
            return false;
        }
    }
    true
}

/// States that the value of a table at a point is that of the values of its columns at the first coordinates, at the others.
pub fn column_values_evaluate()
    ensures { ColumnValuesEvaluate }
{}

/// States completeness: the code word that begins with the values of a table's columns has, at each place, the value of the extended
/// table's column there.
pub fn column_values_agree()
    ensures { ColumnValuesAgree }
{}

/// States soundness: a row whose code word agrees so at 2^k different places is the values of the table's columns. So a false row agrees
/// at fewer than 2^k of the 2^(r + k) places.
pub fn few_places_agree()
    ensures { FewPlacesAgree }
{}
