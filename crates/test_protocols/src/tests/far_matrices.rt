// Matrices that are far from the code, over a field of at least 64 elements, and a prover that opens them at a point and at places that are
// drawn behind its root. All is drawn from the seed 20261129.
//
// - A message has 4 symbols and a code word 64, so that two code words differ at 61 places or more. The prover commits to two code words with
//   other symbols in 21 columns, and sends the row that the point folds the code words to.
// - Of a field of 256 elements and places one in each of four blocks of 16, `field_slices::few_cheats_in_blocks` allows at most the share
//   21 / 256 + (43 / 64)^4 of points and places that accept: 2857 of 10,000.
ghost use Rattle.transcripts.specs.Openings.{AreAscending};

use crate::tests::tables::{drawn, is_accepted};
use additive_transforms::element_point;
use field_element::BinaryField8;
use field_slices::evaluate_multilinear;
use protocols::extension::extend;
use protocols::merkle_tree::MerkleTree;
use protocols::proof_bytes::encode;
use protocols::tables::{TableColumns, open_columns};
use std::alloc::{AllocError, Global};
use test_elements::next_word;
use transcript_elements::ByteLevel;
use transcripts::Sha256Hasher;

// How many columns are no symbols of the code words.
const WRONG: usize = 21;

// The columns of the code words of two messages of four symbols, one after the other, of which 21 have other symbols.
fn far_columns<F: ByteLevel>(
    alloc: Global,
    state: &mut u64,
    messages: &[F],
) -> Result<Vec<F>, AllocError> {
    let mut columns = Vec::new(alloc);
    if F::bits() < 6 || messages.len() != 8 {
        return Ok(columns);
    }
    let (first, second) = messages.split_at(4);
    let (upper, lower) = (extend(alloc, first, 2, 4)?, extend(alloc, second, 2, 4)?);
    let begin = next_word(state) % 64;
    for place in 0..64usize {
        let (Some(high), Some(low)) = (upper.get(place), lower.get(place)) else {
            continue;
        };
        columns.push(*high)?;
        columns.push(*low)?;
    }
    for count in 0..WRONG {
        let place = (begin as usize + 3 * count) % 64;
        if let Some(symbol) = columns.get_mut(2 * place) {
            *symbol = *symbol + element_point(F::ZERO, u128::from(1 + next_word(state) % 63));
        }
    }
    Ok(columns)
}

// The row that a point folds two messages of four symbols to.
fn folded<F: ByteLevel>(
    alloc: Global,
    messages: &[F],
    point: &[F; 1],
) -> Result<Vec<F>, AllocError> {
    let mut row = Vec::new(alloc);
    if messages.len() != 8 {
        return Ok(row);
    }
    for index in 0..4usize {
        let symbols = [messages[index], messages[4 + index]];
        row.push(evaluate_multilinear(&symbols, point))?;
    }
    Ok(row)
}

// One place in each of four blocks of 16.
fn places(state: &mut u64) -> [usize; 4]
    ensures { AreAscending 64 result }
{
    let first = (next_word(state) % 16) as usize;
    let second = (next_word(state) % 16) as usize;
    let third = (next_word(state) % 16) as usize;
    let fourth = (next_word(state) % 16) as usize;
    [first, 16 + second, 32 + third, 48 + fourth]
}

// Whether the row of a matrix that is far from the code is accepted.
fn is_fooled<F: ByteLevel>(alloc: Global, state: &mut u64) -> Result<bool, AllocError> {
    let messages = drawn::<F>(alloc, next_word(state), 8)?;
    let columns = far_columns(alloc, state, messages.as_slice())?;
    let bytes = encode(alloc, columns.as_slice())?;
    if F::bits() < 6 || columns.len() != 128 || bytes.len() != 128 * F::NUM_BYTES {
        return Ok(false);
    }
    let size = 2 * F::NUM_BYTES;
    let tree = MerkleTree::over_rows(alloc, alloc, &Sha256Hasher, bytes.as_slice(), size, 6)?;
    let commitment = tree.commitment();
    if commitment.depth != 6 {
        return Ok(false);
    }
    let point = [element_point(F::ZERO, u128::from(next_word(state)))];
    let row = folded(alloc, messages.as_slice(), &point)?;
    let places = places(state);
    let held = TableColumns { columns, tree };
    let opened = open_columns(alloc, &held, 1, &places)?;
    let (columns, nodes) = (opened.columns.as_slice(), opened.nodes.as_slice());
    is_accepted(
        alloc,
        commitment,
        2,
        &point,
        row.as_slice(),
        &places,
        columns,
        nodes,
    )
}

#[test]
fn far_matrices_are_seldom_accepted(rt: HostRuntime) {
    let mut state = 20261129;
    let mut accepted = 0u64;
    for _ in 0..10_000 {
        if is_fooled::<BinaryField8>(rt.alloc(), &mut state) == Ok(true) {
            accepted = accepted.saturating_add(1);
        }
    }
    assert!(rt; 1_000 < accepted && accepted <= 2_857);
}
