// Whole transforms of words.
ghost use Rattle.std.specs.Prelude.{◌≡◌, ◌^◌, length, map};
ghost use Rattle.additive_transforms.specs.Elements.{FitsField};
ghost use Rattle.additive_transforms.specs.Transform.{AreTheCoefficients, HoldValuesAtPoints};
ghost use Rattle.field_base.specs.Tower.{tower_mul};
ghost use Rattle.ghash_slices.specs.Cantor.{subspace_value};
ghost use Rattle.additive_transforms.specs.Words.{cantor_vector, level_element};

use crate::arithmetic::OfLevel;
use crate::elements::arithmetic::StageArithmetic;
use crate::elements::whole::{inverse_by, transform};
use crate::word_bytes::{StoredBytes, WordBytes};
use field_base::Unsigned;
use word_tower::Level;

/// Leaves at each place p the value, at point p, of the polynomial with the coefficients `words` in the basis of the products of the s_j,
/// over the level `L` of the tower: point p is `z`, and Cantor vector b for each set bit b of p. Of a word it reads the bits of the level.
/// The length of `words` has to be 2^m, where m is at most 40 and at most the bits of the level. It takes no memory.
///
/// A block whose twiddle has at most 8, 16 or 32 bits takes products by so many bits, of many words at once in vectors of their bytes. With
/// `z` = 0 these are all blocks of all stages up to 2^32 words, and the upper stages have the narrowest.
pub fn forward_level<R: Unsigned, L: Level<R>, W: WordBytes<R>>(words: &mut [W], z: R)
    requires { FitsField (2 ^ L.LEVEL) (length words.old) }
    ensures length { length words.new ≡ length words.old }
    ensures values { let element = level_element W.Holds.number L.LEVEL in
        HoldValuesAtPoints (2 ^ L.LEVEL) (tower_mul L.LEVEL) cantor_vector (R.number z) (map element words.old) (map element words.new) }
{
    transform::<OfLevel<R, L, W>>(&mut (), words, z, false);
}

/// Replaces the values at the points by the coefficients of their polynomial, of which there is one list: with the same `z` it takes back
/// what `forward_level` did. It requires what `forward_level` requires, and takes no memory.
pub fn inverse_level<R: Unsigned, L: Level<R>, W: WordBytes<R>>(words: &mut [W], z: R)
    requires { FitsField (2 ^ L.LEVEL) (length words.old) }
    ensures coefficients { let element = level_element W.Holds.number L.LEVEL in
        AreTheCoefficients (2 ^ L.LEVEL) (tower_mul L.LEVEL) cantor_vector (R.number z) (map element words.old) (map element words.new) }
    ensures length { length words.new ≡ length words.old }
{
    inverse_by::<OfLevel<R, L, W>>(&mut (), words, z);
}

/// s_`stage`(z) over the level `L` of the tower, where s_0(z) = z and s_(j + 1)(z) = s_j(z)^2 + s_j(z): the twiddle of the first block of a
/// stage of `forward_level`. It takes as many squares.
pub fn level_shift<R: StoredBytes, L: Level<R>>(z: R, stage: usize) -> R
    ensures { R.Stored.number result ≡ subspace_value (tower_mul L.LEVEL) stage (R.Stored.number z) }
{
    OfLevel::<R, L, R>::shift(z, stage)
}
