// Interleaved Reed-Solomon codes: a matrix whose rows are code words, of which a column has one symbol of each row.
ghost use Rattle.std.specs.Prelude.{◌≡◌, ◌+◌, ◌*◌, ◌≤◌, ◌<◌, ◌^◌, ℕ, length, map, take, IfOk};
ghost use Rattle.transcripts.specs.Commitments.{row_at};
ghost use Rattle.protocols.specs.Interleaved.{AreCodeWords, ColumnsDetermine, CombinationsAreCodeWords};

use crate::extension::extend;
use field_base::traits::TowerLevel;
use std::alloc::{AllocError, Allocator};
use transcripts::merkle_paths::{power_of_two, row_of};

/// The code words of `height` messages of 2^levels elements each, one after the other, at the rate 1/2^expansion: a matrix by rows of
/// 2^(expansion + levels) elements, each as `extend` has it. It fails if memory was refused.
pub fn extend_rows<F: TowerLevel, A: Allocator + Copy>(
    alloc: A,
    messages: &[F],
    height: usize,
    levels: usize,
    expansion: usize,
) -> Result<Vec<F, A>, AllocError>
    requires few { expansion + levels ≤ 40 }
    requires points { expansion + levels ≤ F.width }
    requires count { length messages.now ≡ height * 2 ^ levels }
    ensures size { IfOk result (λ matrix. length matrix.items ≡ height * (2 ^ expansion * 2 ^ levels)) }
    ensures systematic { IfOk result (λ matrix. (i : ℕ) → i < height
        → take (2 ^ levels) (row_at (2 ^ expansion * 2 ^ levels) matrix.items i) ≡ row_at (2 ^ levels) messages.now i) }
    ensures code_words { IfOk result (λ matrix. AreCodeWords F.width F.product (λ i. F.basis (F.cantor i)) levels expansion height
        (λ i. map F.repr (row_at (2 ^ expansion * 2 ^ levels) matrix.items i))) }
{
    let mut matrix = Vec::new(alloc);
    'rows: for row in 0..height {
        let message = row_of(messages, power_of_two(levels), row);
        let word = extend(alloc, message, levels, expansion)?;
        matrix.extend_from_slice(word.as_slice())?;
    }
    Ok(matrix)
}

/// States that columns determine interleaved code words: two matrices of them whose columns agree at as many places as a message has
/// symbols are the same, in every field and at every rate.
pub fn columns_determine()
    ensures { ColumnsDetermine }
{}

/// States that the code is linear: a combination of the rows by scalars is a code word.
pub fn combinations_are_code_words()
    ensures { CombinationsAreCodeWords }
{}
