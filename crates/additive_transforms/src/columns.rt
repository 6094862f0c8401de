// Whole transforms of rows of words, a column each.
ghost use Rattle.std.specs.Prelude.{◌≡◌, ◌^◌, length, map};
ghost use Rattle.additive_transforms.specs.Columns.{FitsColumns, InEachColumn};
ghost use Rattle.additive_transforms.specs.Transform.{AreTheCoefficients, HoldValuesAtPoints};
ghost use Rattle.field_base.specs.Tower.{tower_mul};
ghost use Rattle.additive_transforms.specs.Words.{level_element};
ghost use Rattle.word_tables.specs.Cantor.{cantor_vector};

use crate::arithmetic::OfLevel;
use crate::elements::columns::{inverse_columns_by, run_columns};
use crate::word_bytes::WordBytes;
use field_base::Unsigned;
use word_tower::Level;

/// The transform `forward_level` of each column of rows of `columns` words that lie one behind the other: column c has the words c,
/// columns + c, 2 * columns + c and so on, one of each row. There have to be a column or more, and 2^m rows, where m is at most 40 and at
/// most the bits of the level. It takes no memory.
///
/// It does for all columns what `forward_level` does for one, with one scalar for as many rows as a half of a block has: where a row has the
/// bytes of a vector or more, the lowest stages go as fast as the highest. It goes through all words once a stage. Where they are more than
/// a cache holds, take fewer columns at a time.
pub fn forward_level_columns<R: Unsigned, L: Level<R>, W: WordBytes<R>>(
    words: &mut [W],
    columns: usize,
    z: R,
)
    requires rows { FitsColumns (2 ^ L.LEVEL) columns (length words.old) }
    ensures length { length words.new ≡ length words.old }
    ensures values { let element = level_element W.Holds.number L.LEVEL in
        InEachColumn columns (HoldValuesAtPoints (2 ^ L.LEVEL) (tower_mul L.LEVEL) cantor_vector (R.number z)) (map element words.old)
        (map element words.new) }
{
    run_columns::<OfLevel<R, L, W>>(&mut (), words, columns, z, false);
}

/// The transform `inverse_level` of each column: with the same `z` it takes back what `forward_level_columns` did. It requires what
/// `forward_level_columns` requires, and takes no memory.
pub fn inverse_level_columns<R: Unsigned, L: Level<R>, W: WordBytes<R>>(
    words: &mut [W],
    columns: usize,
    z: R,
)
    requires { FitsColumns (2 ^ L.LEVEL) columns (length words.old) }
    ensures coefficients { let element = level_element W.Holds.number L.LEVEL in
        InEachColumn columns (AreTheCoefficients (2 ^ L.LEVEL) (tower_mul L.LEVEL) cantor_vector (R.number z)) (map element words.old)
        (map element words.new) }
    ensures length { length words.new ≡ length words.old }
{
    inverse_columns_by::<OfLevel<R, L, W>>(&mut (), words, columns, z);
}
