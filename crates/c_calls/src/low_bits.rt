// Words as scalars: each stands for the element that its low bits are.
ghost use Rattle.std.specs.Prelude.{◌≡◌, ◌%◌, ◌^◌, ◌<◌, ℕ, get_or, length};
ghost use Rattle.c_calls.specs.Low.{low_number};
ghost use Rattle.c_calls.specs.lemmas.Low.{low_number-lt};

use crate::scalars::ScalarWords;
use field_slices::Scalars;

/// The words of a field, each of which stands for its low bits, so that every word is an element.
#[derive(Clone, Copy)]
pub struct LowBits<S> {
    pub(crate) field: S,
}

impl<S: ScalarWords> Scalars for LowBits<S> {
    type Value = S::Word;

    ghost width = { λ low. (S.field low.field).width };

    ghost product = { λ low. (S.field low.field).times };

    ghost number = { λ low. low_number (S.field low.field).number (S.field low.field).width };

    #[inline(always)]
    fn zero(self) -> S::Word {
        self.field.zero()
    }

    #[inline(always)]
    fn one(self) -> S::Word {
        self.field.one()
    }

    #[inline(always)]
    fn is_zero(self, x: S::Word) -> bool {
        self.field.is_zero(self.field.truncated(x))
    }

    #[inline(always)]
    fn add(self, x: S::Word, y: S::Word) -> S::Word {
        self.field.add(x, y)
    }

    #[inline(always)]
    fn multiply(self, x: S::Word, y: S::Word) -> S::Word {
        self.field.multiply(x, y)
    }

    #[inline(always)]
    fn invert(self, x: S::Word) -> S::Word {
        self.field.invert(self.field.truncated(x))
    }

    #[inline]
    fn add_scaled(self, sums: &mut [S::Word], scalar: S::Word, values: &[S::Word]) {
        self.field
            .add_scaled(sums, self.field.truncated(scalar), values);
    }

    #[inline]
    fn multiply_by(self, values: &mut [S::Word], scalar: S::Word) {
        self.field.multiply_by(values, self.field.truncated(scalar));
    }

    #[inline(always)]
    fn least_inverted(self) -> usize {
        S::LEAST_INVERTED
    }

    #[inline]
    fn invert_each(self, values: &[S::Word], inverses: &mut [S::Word]) {
        inverses.copy_from_slice(values);
        truncate_all(self.field, inverses);
        self.field.invert_each(inverses);
    }

    ghost wide_law = { λ low. S.wide_law low.field };

    ghost field_law = { λ low. S.field_law low.field };

    ghost range_law = { λ low. low_number-lt (S.field low.field).number (S.field low.field).width };
}

/// Leaves each word without its bits above the field. Where an element has as many bits as a word, nothing is left of the loop.
#[inline]
pub(crate) fn truncate_all<S: ScalarWords>(field: S, words: &mut [S::Word])
    ensures long { length words.new ≡ length words.old }
    ensures low { (k : ℕ) → k < length words.old → (d : S.Word)
        → (S.field field).number (get_or words.new k d) ≡ low_number (S.field field).number (S.field field).width (get_or words.old k d) }
{
    for place in 0..words.len() {
        words[place] = field.truncated(words[place]);
    }
}
