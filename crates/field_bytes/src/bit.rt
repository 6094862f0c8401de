// The elements of GF(2) as bytes.
ghost use Rattle.std.proofs.Common.{lit<, lit≤};

use crate::little_endian::{LittleEndian, read_byte, wide_of};
use crate::reading::word_from_iter_by_ref;
use crate::serializable::{Packable, RawDataSerializable};
use crate::short_element::ShortElement;
use field_base::Gf2;
use field_base::traits::TowerLevel;

impl RawDataSerializable for Gf2 {
    const NUM_BYTES: usize = 1;

    ghost NUM_BYTES = { 1 };

    type Bytes = [u8; 1];

    ghost listed = { λ bytes. bytes };

    ghost bytes_law = { lit< tt };

    ghost room_law = { lit≤ tt };

    #[inline]
    fn into_bytes(self) -> [u8; 1] {
        self.to_repr().to_bytes()
    }

    #[inline]
    fn byte(self, i: usize) -> u8 {
        read_byte(self.to_repr(), i)
    }

    #[inline]
    fn wide(self, k: usize) -> u64 {
        wide_of(self.to_repr(), k)
    }

    #[inline]
    fn from_le_bytes(bytes: [u8; 1]) -> Gf2 {
        Gf2::from_repr(u8::from_bytes(bytes))
    }

    fn from_le_byte_iter_by_ref<I: Iterator<Item = u8>>(iter: &mut I) -> Option<Gf2> {
        match word_from_iter_by_ref::<u8, I>(iter) {
            Some(word) => Some(Gf2::from_repr(word)),
            None => None,
        }
    }
}

impl Packable for Gf2 {}

impl ShortElement for Gf2 {
    ghost short_law = { lit≤ tt };
}
