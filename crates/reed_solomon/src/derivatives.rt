// Derivatives of polynomials in the basis of a transform, in place, of all columns of a strip at once.
ghost use Rattle.std.specs.Prelude.{◌≡◌, ℕ, ◌+◌, ◌*◌, ◌^◌, ◌<◌, ◌≤◌, length, slice_index_or, bit_xor};
ghost use Rattle.reed_solomon.specs.Columns.{AreDerivedRows, AreFirstDerivedRows};

use crate::columns::clear_words;
use field_base::Stored;

// Sets each column of 2^levels rows of coefficients to those of its derivative. The lower half of the rows takes its own derivative, and the
// upper half, before that takes its own.
#[cycle(derive)]
pub(crate) fn derive<R: Stored>(values: &mut [R], width: usize, levels: usize)
    requires low { levels ≤ 16 }
    requires rows { length values.old ≡ 2 ^ levels * width }
    ensures long { length values.new ≡ length values.old }
    ensures derived { AreDerivedRows R.number R.ZERO levels width values.old values.new }
{
    if levels == 0 {
        clear_words(values, 0, width);
        return;
    }
    let half = levels - 1;
    let (lower, upper) = values.split_at_mut(values.len() / 2);
    derive(lower, width, half);
    add_words(lower, upper);
    derive(upper, width, half);
}

// Sets the first 2^few of 2^levels rows to those that `derive` sets, and returns how many words they have; the other rows are space. Of each
// upper half it reads as many rows.
#[cycle(first)]
pub(crate) fn derive_first<R: Stored>(
    values: &mut [R],
    width: usize,
    levels: usize,
    few: usize,
) -> usize
    requires low { levels ≤ 16 }
    requires first { few ≤ levels }
    requires rows { length values.old ≡ 2 ^ levels * width }
    ensures long { length values.new ≡ length values.old }
    ensures words { result ≡ 2 ^ few * width }
    ensures derived { AreFirstDerivedRows R.number R.ZERO levels few width values.old values.new }
{
    if levels == few {
        derive(values, width, levels);
        return values.len();
    }
    let (lower, upper) = values.split_at_mut(values.len() / 2);
    let words = derive_first(lower, width, levels - 1, few);
    let (rows, _others) = lower.split_at_mut(words);
    add_words(rows, upper);
    words
}

// Adds to each word the one at its place.
fn add_words<R: Stored>(words: &mut [R], others: &[R])
    requires { length words.old ≤ length others.now }
    ensures long { length words.new ≡ length words.old }
    ensures sums { (i : ℕ) → i < length words.old → R.number (slice_index_or words.new i R.ZERO)
        ≡ bit_xor (R.number (slice_index_or words.old i R.ZERO)) (R.number (slice_index_or others.now i R.ZERO)) }
{
    for i in 0..words.len() {
        words[i] = words[i].xor(others[i]);
    }
}
