// A table of four rows of four elements that is committed to by the columns of its rows' code words at the rate 1/2, over a field of 16
// bits, and what a cheating prover sends of it. The table and the point are drawn from the seeds 20261127 and 20261128.
use additive_transforms::element_point;
use field_element::BinaryField16;
use field_slices::evaluate_multilinear;
use protocols::merkle_paths::Commitment;
use protocols::tables::{
    ClaimedRow, ColumnOpening, column_values, commit_table, open_columns, verify_columns,
};
use std::alloc::{AllocError, Global};
use test_elements::next_word;
use transcript_elements::ByteLevel;
use transcripts::Sha256Hasher;

// What is changed between the prover and the verifier.
#[derive(Clone, Copy)]
enum Change {
    Nothing,
    Row(usize),
    Column(usize),
}

// Elements drawn from a seed.
pub(crate) fn drawn<F: ByteLevel>(
    alloc: Global,
    seed: u64,
    count: usize,
) -> Result<Vec<F>, AllocError> {
    let mut state = seed;
    let mut elements = Vec::new(alloc);
    for _ in 0..count {
        elements.push(element_point(F::ONE, next_word(&mut state) as u128))?;
    }
    Ok(elements)
}

// Adds 1 to the element at a place, if there is one.
fn increment<F: ByteLevel>(elements: &mut [F], place: usize) {
    if let Some(element) = elements.get_mut(place) {
        *element = *element + F::ONE;
    }
}

// Whether the value of a table at a point is that of its row at the last two coordinates, and the row is accepted with this column of the
// eight exactly if `wanted`, after this change.
fn is_opened<F: ByteLevel>(
    alloc: Global,
    place: usize,
    change: Change,
    wanted: bool,
) -> Result<bool, AllocError> {
    let table = drawn::<F>(alloc, 20261127, 16)?;
    let point = drawn::<F>(alloc, 20261128, 4)?;
    if F::bits() < 3 || table.len() != 16 || point.len() != 4 || place > 7 {
        return Ok(false);
    }
    let (first, last) = point.as_slice().split_at(2);
    let held = commit_table(alloc, &Sha256Hasher, table.as_slice(), 2, 2, 1)?;
    let commitment = held.tree.commitment();
    if held.columns.len() != 32 || commitment.depth != 3 {
        return Ok(false);
    }
    let places = [place];
    let mut row = column_values(alloc, held.columns.as_slice(), 4, first)?;
    let mut opened = open_columns(alloc, &held, 2, &places)?;
    if row.len() != 4
        || evaluate_multilinear(row.as_slice(), last)
            != evaluate_multilinear(table.as_slice(), point.as_slice())
    {
        return Ok(false);
    }
    match change {
        Change::Nothing => (),
        Change::Row(index) => increment(row.as_mut_slice(), index),
        Change::Column(index) => increment(opened.columns.as_mut_slice(), index),
    }
    let (columns, nodes) = (opened.columns.as_slice(), opened.nodes.as_slice());
    let accepted = is_accepted(
        alloc,
        commitment,
        2,
        first,
        row.as_slice(),
        &places,
        columns,
        nodes,
    )?;
    Ok(accepted == wanted)
}

// Whether a row of 2^levels symbols is accepted, as the values at a point, by the columns at places, which nodes open.
pub(crate) fn is_accepted<F: ByteLevel>(
    alloc: Global,
    commitment: Commitment,
    levels: usize,
    point: &[F],
    row: &[F],
    places: &[usize],
    columns: &[F],
    nodes: &[[u8; 32]],
) -> Result<bool, AllocError> {
    let depth = commitment.depth;
    if depth > 8 || F::bits() < depth || levels > depth || point.len() > 2 {
        return Ok(false);
    }
    let claim = ClaimedRow { point, row };
    let opening = ColumnOpening {
        places,
        columns,
        nodes,
    };
    verify_columns(alloc, &Sha256Hasher, commitment, levels, &claim, &opening)
}

// Whether each column of the eight has the honest row accepted, and is refused if one of its elements is changed; and whether a row of
// which one element is changed is accepted by the columns of the three others alone.
fn each_column_decides<F: ByteLevel>(alloc: Global) -> Result<bool, AllocError> {
    for place in 0..8usize {
        if !is_opened::<F>(alloc, place, Change::Nothing, true)? {
            return Ok(false);
        }
        for index in 0..4usize {
            let other = place < 4 && place != index;
            if !is_opened::<F>(alloc, place, Change::Row(index), other)?
                || !is_opened::<F>(alloc, place, Change::Column(index), false)?
            {
                return Ok(false);
            }
        }
    }
    Ok(true)
}

#[test]
fn rows_of_committed_tables_by_each_column(rt: HostRuntime) {
    assert!(rt; each_column_decides::<BinaryField16>(rt.alloc()) == Ok(true));
}
