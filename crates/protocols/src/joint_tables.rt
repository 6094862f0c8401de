// Several committed tables of one shape, opened at one point by one row and at one drawing of places, so that a proof has one row for all of
// them: challenges combine the tables. The sizes are those of `commitment_scheme`.
ghost use Rattle.std.specs.Prelude.{◌≡◌, ◌↔◌, ◌+◌, ◌*◌, ◌^◌, ◌<◌, ◌≤◌, ◌++◌, [], ℕ, false, get_or, length, map, take, drop};
ghost use Rattle.std.specs.Prelude.{All, IfErr, IfOk, IsTrue, OnOk, slice_index};
ghost use Rattle.std.specs.List.{range_with_len};
ghost use Rattle.field_slices.specs.Multilinear.{multilinear_value};
ghost use Rattle.transcripts.specs.Commitments.{row_at};
ghost use Rattle.transcripts.specs.Openings.{AreAscending};
ghost use Rattle.transcripts.specs.Grinding.{MayGrind};
ghost use Rattle.sum_checks.specs.declared.error.ProtocolError.TheVariants.{Memory};
ghost use Rattle.protocols.specs.CommitmentScheme.{StopsOpening, matrix_rows, row_levels, word_levels};
ghost use Rattle.protocols.specs.JointTables.{AreTablesCombined, EachBelow, IsHonestOpeningOf, IsLeastCube, OpensBytes, OpensTables};
ghost use Rattle.protocols.specs.JointTables.{VerifiesTables, sent_column, sent_tables, stacked};
ghost use Rattle.protocols.specs.Tables.{AgreesAt, IsHonestOpening};

use crate::commitment_scheme::{EXPANSION, Parameters, draw_places, grind_places};
use crate::extension::extend;
use crate::proof_bytes::encode;
use crate::tables::{TableColumns, agree_at, column_values, open_columns};
use field_base::traits::Field;
use field_bytes::ShortElement;
use field_slices::evaluate_multilinear;
use std::alloc::{AllocError, Allocator};
use sum_checks::ProtocolError;
use sum_checks::sumcheck::has_length;
use transcripts::merkle_paths::{Commitment, power_of_two};
use transcripts::openings::verify_many;
use transcripts::{
    ByteHasher32, CanObserve, CanSample, CanSampleUniformBits, GrindingChallenger, both,
};

/// What a prover sends of several tables.
#[derive(Drop)]
pub struct OpenedTables<F: Field, A: Allocator> {
    /// The values of the tables at the point.
    pub values: Vec<F, A>,
    /// The values at the first coordinates of the columns of the table that the challenges combine them to.
    pub row: Vec<F, A>,
    /// The witness of the work.
    pub witness: F,
    /// The columns of each table that are opened, one after the other.
    pub columns: Vec<Vec<F, A>, A>,
    /// The nodes that open their bytes.
    pub nodes: Vec<Vec<[u8; 32], A>, A>,
}

// How many coordinates the least cube has with a corner for each of so many tables.
fn cube_levels(count: usize) -> usize
    requires few { count ≤ 256 }
    ensures cube { IsLeastCube count result }
    ensures few { result ≤ 8 }
{
    'levels: for levels in 0..8 {
        if count <= power_of_two(levels) {
            return levels;
        }
    }
    8
}

// Observes the point and the values, and samples the challenges that combine so many tables.
fn sample_challenges<F: Field, C: CanObserve<F> + CanSample<F>, A: Allocator + Copy>(
    alloc: A,
    challenger: &mut C,
    count: usize,
    point: &[F],
    values: &[F],
) -> Result<Vec<F, A>, ProtocolError>
    requires few { count ≤ 256 }
    ensures combined { IfOk result (λ challenges. AreTablesCombined C.observes C.gives count (point.now ++ values.now) challenger.old
        challenges.items challenger.new) }
    ensures few { IfOk result (λ challenges. length challenges.items ≤ 8) }
    ensures memory { C.has_failed challenger.old ≡ false → IfErr result (λ error. error ≡ Memory) }
    ensures goes_on { C.has_failed challenger.old ≡ false → OnOk result (C.has_failed challenger.new ≡ false) }
{
    let mut sent = Vec::from_slice(alloc, point)?;
    sent.extend_from_slice(values)?;
    challenger.observe_slice(sent.as_slice())?;
    let challenges = challenger.sample_vec(alloc, cube_levels(count))?;
    Ok(challenges)
}

// The element at a place of the list of a table, and zero where there is no such table.
fn element_of<F: Field, A: Allocator>(lists: &[Vec<F, A>], table: usize, place: usize) -> F
    requires { table < length lists.now → place < length (get_or (map (λ list. list.items) lists.now) table []) }
    ensures { F.repr result ≡ slice_index (map F.repr (get_or (map (λ list. list.items) lists.now) table [])) place }
{
    if table >= lists.len() {
        return F::ZERO;
    }
    let list = lists[table].as_slice();
    list[place]
}

// The columns of so many tables at each of so many places, where a table has lists of `height` elements for its places: the lists of the
// tables one above the other, and zeros for the tables that there are not, up to 2^levels tables.
fn stack<F: Field, A: Allocator, B: Allocator>(
    alloc: A,
    lists: &[Vec<F, B>],
    levels: usize,
    places: usize,
    height: usize,
) -> Result<Vec<F, A>, AllocError>
    requires few_levels { levels ≤ 8 }
    requires few_places { places ≤ 2 ^ 24 }
    requires height { height ≤ 2 ^ 19 }
    requires some { 0 < height }
    requires room { length lists.now ≤ 2 ^ levels }
    requires lists { (i : ℕ) → i < length lists.now → length (get_or (map (λ list. list.items) lists.now) i []) ≡ places * height }
    ensures count { IfOk result (λ list. length list.items ≡ places * (2 ^ levels * height)) }
    ensures each { IfOk result (λ list. (k j : ℕ) → k < places → slice_index (map F.repr (row_at (2 ^ levels * height) list.items k)) j
        ≡ slice_index (stacked (length lists.now) height (sent_column F.repr height (map (λ list. list.items) lists.now)) k) j) }
{
    let corners = power_of_two(levels);
    let size = corners * height;
    let mut list = Vec::new(alloc);
    'elements: for index in 0..places * size {
        let (place, within) = (index / size, index % size);
        let (table, row) = (within / height, within % height);
        list.push(element_of(lists, table, place * height + row))?;
    }
    Ok(list)
}

// The combination of lists of 2^levels elements each, of a row's, by the challenges: at each place the value at the challenges of the lists'
// elements there.
fn combine<F: Field, A: Allocator + Copy>(
    alloc: A,
    lists: &[Vec<F, A>],
    levels: usize,
    challenges: &[F],
) -> Result<Vec<F, A>, AllocError>
    requires few_levels { levels ≤ 24 }
    requires few_challenges { length challenges.now ≤ 8 }
    requires room { length lists.now ≤ 2 ^ length challenges.now }
    requires lists { (i : ℕ) → i < length lists.now → length (get_or (map (λ list. list.items) lists.now) i []) ≡ 2 ^ levels }
    ensures { IfOk result (λ row. map F.repr row.items ≡ map (λ p. multilinear_value F.product (map (λ i. slice_index (map F.repr
        (get_or (map (λ list. list.items) lists.now) i [])) p) (range_with_len 0 (length lists.now))) (map F.repr challenges.now))
        (range_with_len 0 (2 ^ levels))) }
{
    let size = power_of_two(levels);
    let columns = stack(alloc, lists, challenges.len(), size, 1)?;
    let row = column_values(alloc, columns.as_slice(), size, challenges)?;
    Ok(row)
}

// The row of a table's columns' values at the first coordinates.
fn row_of_values<F: Field, A: Allocator + Copy>(
    alloc: A,
    parameters: &Parameters,
    held: &TableColumns<F, A>,
    point: &[F],
) -> Result<Vec<F, A>, AllocError>
    requires coordinates { length point.now ≡ parameters.now.variables }
    requires count { length held.now.columns.items ≡ 2 ^ 2 * 2 ^ row_levels parameters.now.queries parameters.now.variables
        * 2 ^ matrix_rows parameters.now.queries parameters.now.variables }
    ensures { IfOk result (λ row. map F.repr row.items ≡ map (λ p. multilinear_value F.product
        (map F.repr (row_at (2 ^ matrix_rows parameters.now.queries parameters.now.variables) held.now.columns.items p))
        (map F.repr (take (matrix_rows parameters.now.queries parameters.now.variables) point.now)))
        (range_with_len 0 (2 ^ row_levels parameters.now.queries parameters.now.variables))) }
{
    let (first, _) = point.split_at(parameters.rows);
    let size = power_of_two(parameters.levels);
    let row = column_values(alloc, held.columns.as_slice(), size, first)?;
    Ok(row)
}

// The value of such a row at the other coordinates.
fn value_of_row<F: Field>(parameters: &Parameters, row: &[F], point: &[F]) -> F
    requires coordinates { length point.now ≡ parameters.now.variables }
    requires row { length row.now ≡ 2 ^ row_levels parameters.now.queries parameters.now.variables }
    ensures { F.repr result ≡ multilinear_value F.product (map F.repr row.now)
        (map F.repr (drop (matrix_rows parameters.now.queries parameters.now.variables) point.now)) }
{
    let (_, others) = point.split_at(parameters.rows);
    evaluate_multilinear(row, others)
}

// The rows of tables, each as `row_of_values` has it.
fn rows_of_tables<F: Field, A: Allocator + Copy>(
    alloc: A,
    parameters: &Parameters,
    tables: &[&TableColumns<F, A>],
    point: &[F],
) -> Result<Vec<Vec<F, A>, A>, AllocError>
    requires coordinates { length point.now ≡ parameters.now.variables }
    requires count { All (λ held. length held.now.columns.items ≡ 2 ^ 2 * 2 ^ row_levels parameters.now.queries parameters.now.variables
        * 2 ^ matrix_rows parameters.now.queries parameters.now.variables) tables.now }
    ensures count { IfOk result (λ rows. length rows.items ≡ length tables.now) }
    ensures each { IfOk result (λ rows. EachBelow (length tables.now) tables.now (λ i held.
        map F.repr (get_or (map (λ row. row.items) rows.items) i []) ≡ map (λ p. multilinear_value F.product
        (map F.repr (row_at (2 ^ matrix_rows parameters.now.queries parameters.now.variables) held.now.columns.items p))
        (map F.repr (take (matrix_rows parameters.now.queries parameters.now.variables) point.now)))
        (range_with_len 0 (2 ^ row_levels parameters.now.queries parameters.now.variables)))) }
{
    let mut rows = Vec::new(alloc);
    'tables: for index in 0..tables.len() {
        let row = row_of_values(alloc, parameters, tables[index], point)?;
        rows.push(row)?;
    }
    Ok(rows)
}

// The values of rows at the other coordinates.
fn values_of_rows<F: Field, A: Allocator>(
    alloc: A,
    parameters: &Parameters,
    rows: &[Vec<F, A>],
    point: &[F],
) -> Result<Vec<F, A>, AllocError>
    requires coordinates { length point.now ≡ parameters.now.variables }
    requires rows { (i : ℕ) → i < length rows.now → length (get_or (map (λ row. row.items) rows.now) i [])
        ≡ 2 ^ row_levels parameters.now.queries parameters.now.variables }
    ensures { IfOk result (λ values. map F.repr values.items ≡ map (λ i. multilinear_value F.product
        (map F.repr (get_or (map (λ row. row.items) rows.now) i []))
        (map F.repr (drop (matrix_rows parameters.now.queries parameters.now.variables) point.now))) (range_with_len 0 (length rows.now))) }
{
    let mut values = Vec::new(alloc);
    'rows: for index in 0..rows.len() {
        values.push(value_of_row(parameters, rows[index].as_slice(), point))?;
    }
    Ok(values)
}

// The columns of tables at places, and the nodes that open their bytes.
fn open_each<F: Field, A: Allocator + Copy>(
    alloc: A,
    parameters: &Parameters,
    tables: &[&TableColumns<F, A>],
    places: &[usize],
) -> Result<(Vec<Vec<F, A>, A>, Vec<Vec<[u8; 32], A>, A>), AllocError>
    requires depth { All (λ held. held.now.tree.depth ≡ word_levels parameters.now.queries parameters.now.variables) tables.now }
    requires count { All (λ held. length held.now.columns.items ≡ 2 ^ 2 * 2 ^ row_levels parameters.now.queries parameters.now.variables
        * 2 ^ matrix_rows parameters.now.queries parameters.now.variables) tables.now }
    requires places { AreAscending (2 ^ word_levels parameters.now.queries parameters.now.variables) places.now }
    ensures columns { IfOk result (λ opened. length opened.0.items ≡ length tables.now) }
    ensures nodes { IfOk result (λ opened. length opened.1.items ≡ length tables.now) }
    ensures each { IfOk result (λ opened. EachBelow (length tables.now) tables.now (λ i held. (size : ℕ) (vector : ℕ → ℕ)
        → IsHonestOpening F.repr size F.width F.product vector (matrix_rows parameters.now.queries parameters.now.variables) held.now.tree
        held.now.columns.items places.now (get_or (map (λ list. list.items) opened.0.items) i [])
        (get_or (map (λ list. list.items) opened.1.items) i []))) }
{
    let mut columns = Vec::new(alloc);
    let mut nodes = Vec::new(alloc);
    'tables: for index in 0..tables.len() {
        let opened = open_columns(alloc, tables[index], parameters.rows, places)?;
        columns.push(opened.columns)?;
        nodes.push(opened.nodes)?;
    }
    Ok((columns, nodes))
}

/// Opens the values of up to 256 tables that `commitment_scheme::commit` has committed to with these sizes, at a point of `variables`
/// coordinates, in a transcript that may grind 16 bits: over a field of 24 bits or more. The point and the values are observed, challenges
/// are sampled, one for each bit of a table's number, the row of the table that they combine the tables to is observed, and then places are
/// drawn, at which the columns of all tables are opened. The caller's transcript begins with its statement, the sizes and the roots, and the
/// point is drawn behind them. A verifier in a transcript of the same state accepts what is sent, and is then in the same state
/// (`laws::table_verdicts_agree`). In a transcript that has not failed it fails only if no witness is found, or if memory was refused.
pub fn open_tables<
    F: Field,
    C: CanObserve<F> + CanSample<F> + GrindingChallenger<Witness = F> + CanSampleUniformBits<F>,
    A: Allocator + Copy,
>(
    alloc: A,
    challenger: &mut C,
    parameters: &Parameters,
    tables: &[&TableColumns<F, A>],
    point: &[F],
) -> Result<OpenedTables<F, A>, ProtocolError>
    requires work { MayGrind C.witness_bits 16 }
    requires few { length tables.now ≤ 256 }
    requires coordinates { length point.now ≡ parameters.now.variables }
    requires depth { All (λ held. held.now.tree.depth ≡ word_levels parameters.now.queries parameters.now.variables) tables.now }
    requires count { All (λ held. length held.now.columns.items ≡ 2 ^ 2 * 2 ^ row_levels parameters.now.queries parameters.now.variables
        * 2 ^ matrix_rows parameters.now.queries parameters.now.variables) tables.now }
    ensures honest { IfOk result (λ opened. (size : ℕ) (vector : ℕ → ℕ)
        → IsHonestOpeningOf C.observes C.gives C.passing C.checks C.gives_bits F.repr size F.width F.product vector
        parameters.now.queries parameters.now.variables (map (λ held. (held.now.columns.items, held.now.tree)) tables.now) point.now
        (sent_tables opened.values.items opened.row.items (C.number opened.witness) (map (λ list. list.items) opened.columns.items)
        (map (λ list. list.items) opened.nodes.items)) challenger.old challenger.new) }
    ensures error { C.has_failed challenger.old ≡ false → IfErr result (StopsOpening C.passing C.witness_bits) }
{
    let rows = rows_of_tables(alloc, parameters, tables, point)?;
    let lists = rows.as_slice();
    let values = values_of_rows(alloc, parameters, lists, point)?;
    let claimed = values.as_slice();
    let challenges = sample_challenges(alloc, challenger, tables.len(), point, claimed)?;
    let row = combine(alloc, lists, parameters.levels, challenges.as_slice())?;
    let (witness, places) = grind_places(alloc, challenger, parameters, row.as_slice())?;
    let (columns, nodes) = open_each(alloc, parameters, tables, places.as_slice())?;
    Ok(OpenedTables {
        values,
        row,
        witness,
        columns,
        nodes,
    })
}

// Whether there are columns for these places, and nodes open their bytes under the root.
fn opens_bytes<F: ShortElement, H: ByteHasher32, A: Allocator + Copy>(
    alloc: A,
    hasher: &H,
    parameters: &Parameters,
    places: &[usize],
    root: [u8; 32],
    columns: &[F],
    nodes: &[[u8; 32]],
) -> Result<bool, AllocError>
    ensures { IfOk result (λ opens. IsTrue opens ↔ OpensBytes (H.digest hasher.now) F.repr F.NUM_BYTES
        (word_levels parameters.now.queries parameters.now.variables) (2 ^ matrix_rows parameters.now.queries parameters.now.variables)
        places.now root columns.now nodes.now) }
{
    let height = power_of_two(parameters.rows);
    if !has_length(columns.len(), places.len(), height) {
        return Ok(false);
    }
    let bytes = encode(alloc, columns)?;
    let commitment = Commitment {
        depth: EXPANSION + parameters.levels,
        root,
    };
    let opened = verify_many(
        alloc,
        hasher,
        commitment,
        places,
        bytes.as_slice(),
        height * F::NUM_BYTES,
        nodes,
    )?;
    Ok(opened)
}

// Whether there are so many values, and columns and nodes of so many tables.
fn has_counts<F: Field, A: Allocator>(opened: &OpenedTables<F, A>, count: usize) -> bool
    ensures { IsTrue result ↔ (length opened.now.values.items ≡ count) × (length opened.now.columns.items ≡ count)
        × (length opened.now.nodes.items ≡ count) }
{
    opened.values.len() == count && opened.columns.len() == count && opened.nodes.len() == count
}

// Whether nodes open the bytes of each table's columns under its root.
fn opens_each<F: ShortElement, H: ByteHasher32, A: Allocator + Copy, B: Allocator>(
    alloc: A,
    hasher: &H,
    parameters: &Parameters,
    places: &[usize],
    roots: &[[u8; 32]],
    lists: &[Vec<F, B>],
    openers: &[Vec<[u8; 32], B>],
) -> Result<bool, AllocError>
    requires columns { length lists.now ≡ length roots.now }
    requires nodes { length openers.now ≡ length roots.now }
    ensures { IfOk result (λ opens. IsTrue opens ↔ ((i : ℕ) → i < length roots.now → OpensBytes (H.digest hasher.now) F.repr F.NUM_BYTES
        (word_levels parameters.now.queries parameters.now.variables) (2 ^ matrix_rows parameters.now.queries parameters.now.variables)
        places.now (get_or roots.now i []) (get_or (map (λ list. list.items) lists.now) i [])
        (get_or (map (λ list. list.items) openers.now) i []))) }
{
    'tables: for index in 0..roots.len() {
        let root = roots[index];
        let columns = lists[index].as_slice();
        let nodes = openers[index].as_slice();
        let opens = opens_bytes(alloc, hasher, parameters, places, root, columns, nodes)?;
        if !opens {
            return Ok(false);
        }
    }
    Ok(true)
}

// Whether the row is one, and its code word agrees with the columns of all tables at these places.
fn row_agrees<F: ShortElement, A: Allocator + Copy, B: Allocator>(
    alloc: A,
    parameters: &Parameters,
    challenges: &[F],
    point: &[F],
    row: &[F],
    places: &[usize],
    lists: &[Vec<F, B>],
) -> Result<bool, AllocError>
    requires points { 26 ≤ F.width }
    requires coordinates { length point.now ≡ parameters.now.variables }
    requires few_places { length places.now ≤ 256 }
    requires few_challenges { length challenges.now ≤ 8 }
    requires room { length lists.now ≤ 2 ^ length challenges.now }
    requires lists { (i : ℕ) → i < length lists.now → length (get_or (map (λ list. list.items) lists.now) i [])
        ≡ length places.now * 2 ^ matrix_rows parameters.now.queries parameters.now.variables }
    ensures { IfOk result (λ agrees. IsTrue agrees ↔ AgreesAt F.width F.product (λ i. F.basis (F.cantor i))
        (row_levels parameters.now.queries parameters.now.variables) 2 (map F.repr challenges.now
        ++ map F.repr (take (matrix_rows parameters.now.queries parameters.now.variables) point.now)) (map F.repr row.now) places.now
        (stacked (length lists.now) (2 ^ matrix_rows parameters.now.queries parameters.now.variables)
        (sent_column F.repr (2 ^ matrix_rows parameters.now.queries parameters.now.variables) (map (λ list. list.items) lists.now)))) }
{
    if row.len() != power_of_two(parameters.levels) {
        return Ok(false);
    }
    let (first, _) = point.split_at(parameters.rows);
    let mut joined = Vec::from_slice(alloc, challenges)?;
    joined.extend_from_slice(first)?;
    let height = power_of_two(parameters.rows);
    let columns = stack(alloc, lists, challenges.len(), places.len(), height)?;
    let word = extend(alloc, row, parameters.levels, EXPANSION)?;
    let corners = power_of_two(challenges.len());
    let size = corners * height;
    let (line, point) = (word.as_slice(), joined.as_slice());
    Ok(agree_at(line, point, size, places, columns.as_slice()))
}

// The value at the challenges of values, of which there are at most as many as the challenges' cube has corners, and zeros.
fn value_at_challenges<F: Field, A: Allocator + Copy>(
    alloc: A,
    values: &[F],
    challenges: &[F],
) -> Result<F, AllocError>
    requires few { length challenges.now ≤ 8 }
    requires room { length values.now ≤ 2 ^ length challenges.now }
    ensures { IfOk result (λ value. F.repr value ≡ multilinear_value F.product (map F.repr values.now) (map F.repr challenges.now)) }
{
    let size = power_of_two(challenges.len());
    let mut corners = Vec::from_slice(alloc, values)?;
    let zeros = F::zero_vec(alloc, size - values.len())?;
    corners.extend_from_slice(zeros.as_slice())?;
    Ok(evaluate_multilinear(corners.as_slice(), challenges))
}

// Whether the columns at these places open the values.
fn opens_tables<F: ShortElement, H: ByteHasher32, A: Allocator + Copy, B: Allocator>(
    alloc: A,
    hasher: &H,
    parameters: &Parameters,
    roots: &[[u8; 32]],
    challenges: &[F],
    point: &[F],
    places: &[usize],
    opened: &OpenedTables<F, B>,
) -> Result<bool, AllocError>
    requires points { 26 ≤ F.width }
    requires coordinates { length point.now ≡ parameters.now.variables }
    requires few_places { length places.now ≤ 256 }
    requires few_challenges { length challenges.now ≤ 8 }
    requires room { length roots.now ≤ 2 ^ length challenges.now }
    ensures { (witness : ℕ) → IfOk result (λ opens. IsTrue opens ↔ OpensTables (H.digest hasher.now) F.repr F.NUM_BYTES F.width F.product
        (λ i. F.basis (F.cantor i)) parameters.now.queries parameters.now.variables roots.now
        (sent_tables opened.now.values.items opened.now.row.items witness (map (λ list. list.items) opened.now.columns.items)
        (map (λ list. list.items) opened.now.nodes.items)) challenges.now point.now places.now) }
{
    let row = opened.row.as_slice();
    if !has_counts(opened, roots.len()) {
        return Ok(false);
    }
    let lists = opened.columns.as_slice();
    let openers = opened.nodes.as_slice();
    let bytes = opens_each(alloc, hasher, parameters, places, roots, lists, openers)?;
    if !bytes {
        return Ok(false);
    }
    let agrees = row_agrees(alloc, parameters, challenges, point, row, places, lists)?;
    if !agrees {
        return Ok(false);
    }
    let claimed = value_at_challenges(alloc, opened.values.as_slice(), challenges)?;
    let value = value_of_row(parameters, row, point);
    Ok(claimed == value)
}

/// Whether up to 256 committed tables, over a field of at least 2^26 elements, have values at a point of `variables` coordinates, as far as
/// an opening says: the point and the values are observed, challenges are sampled, the row is observed, then the witness is checked and
/// places are drawn, and the columns there open the values. An opening of other than one value, one list of columns and one of nodes for
/// each root is not accepted. What may be lucky where it accepts, `laws::tables_are_bound` says, and how seldom, `laws::few_tables_cheat`. In
/// a transcript that has not failed it fails only if memory was refused.
pub fn verify_tables<
    F: ShortElement,
    H: ByteHasher32,
    C: CanObserve<F> + CanSample<F> + GrindingChallenger<Witness = F> + CanSampleUniformBits<F>,
    A: Allocator + Copy,
    B: Allocator,
>(
    alloc: A,
    hasher: &H,
    challenger: &mut C,
    parameters: &Parameters,
    roots: &[[u8; 32]],
    point: &[F],
    opened: &OpenedTables<F, B>,
) -> Result<bool, ProtocolError>
    requires points { 26 ≤ F.width }
    requires few { length roots.now ≤ 256 }
    requires coordinates { length point.now ≡ parameters.now.variables }
    ensures verdict { IfOk result (λ accepted. VerifiesTables C.observes C.gives C.passing C.checks C.gives_bits F.repr
        (H.digest hasher.now) F.NUM_BYTES F.width F.product (λ i. F.basis (F.cantor i)) parameters.now.queries parameters.now.variables
        roots.now point.now (sent_tables opened.now.values.items opened.now.row.items (C.number opened.now.witness)
        (map (λ list. list.items) opened.now.columns.items) (map (λ list. list.items) opened.now.nodes.items)) challenger.old accepted
        challenger.new) }
    ensures memory { C.has_failed challenger.old ≡ false → IfErr result (λ error. error ≡ Memory) }
{
    let (count, values) = (roots.len(), opened.values.as_slice());
    let challenges = sample_challenges(alloc, challenger, count, point, values)?;
    let (row, witness) = (opened.row.as_slice(), opened.witness);
    let (works, places) = draw_places(alloc, challenger, parameters, row, witness)?;
    let opens = opens_tables(
        alloc,
        hasher,
        parameters,
        roots,
        challenges.as_slice(),
        point,
        places.as_slice(),
        opened,
    )?;
    Ok(both(works, opens))
}
