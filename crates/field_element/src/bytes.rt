// The elements of every field as bytes: those of the word that stores them.
ghost use Rattle.std.specs.Prelude.{◌≤◌};
ghost use Rattle.std.proofs.Common.{subst};

use crate::element::{Element, HasPacking, element_of_word, word_of};
use field_base::{FieldKernel, LevelKernel, Stored};
use field_bytes::{
    LittleEndian, Packable, RawDataSerializable, ShortElement, ShortWord, word_from_iter_by_ref,
};

impl<R: LittleEndian, K: FieldKernel<R>> RawDataSerializable for Element<R, K> {
    const NUM_BYTES: usize = R::SIZE;

    ghost NUM_BYTES = { R.SIZE };

    type Bytes = R::Bytes;

    ghost listed = { R.listed };

    ghost bytes_law = { R.wide_law };

    ghost room_law = { subst (λ n. K.width ≤ n) R.size_law K.room_law };

    #[inline]
    fn into_bytes(self) -> R::Bytes {
        word_of(&self).to_bytes()
    }

    #[inline]
    fn byte(self, i: usize) -> u8 {
        word_of(&self).byte(i)
    }

    #[inline]
    fn wide(self, k: usize) -> u64 {
        word_of(&self).wide(k)
    }

    #[inline]
    fn from_le_bytes(bytes: R::Bytes) -> Element<R, K> {
        element_of_word(R::from_bytes(bytes))
    }

    fn from_le_byte_iter_by_ref<I: Iterator<Item = u8>>(iter: &mut I) -> Option<Element<R, K>> {
        match word_from_iter_by_ref::<R, I>(iter) {
            Some(word) => Some(element_of_word(word)),
            None => None,
        }
    }
}

impl<R: Stored, K: FieldKernel<R>> Packable for Element<R, K> {}

impl<R: ShortWord, K: LevelKernel<R> + HasPacking<R>> ShortElement for Element<R, K> {
    ghost short_law = { R.short_law };
}
