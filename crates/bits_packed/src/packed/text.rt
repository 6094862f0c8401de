// The text of packed bits.
use crate::packed::PackedGf2;
use packed_lanes::{Underlier, Word};
use std::fmt;

// The word in hexadecimal, with all of its digits.
fn write_digits<W: fmt::Write, V: Word>(f: &mut fmt::Formatter<W>, word: V) -> fmt::Result {
    let number = word.to_u64();
    match V::BITS {
        8 => write!(f, "{number:#04x}"),
        16 => write!(f, "{number:#06x}"),
        32 => write!(f, "{number:#010x}"),
        _ => write!(f, "{number:#018x}"),
    }
}

impl<U: Underlier> fmt::Debug for PackedGf2<U> {
    // The alias and the words, the lowest first, as in `PackedGf2x16(0x0201)`.
    fn fmt<W: fmt::Write>(&self, f: &mut fmt::Formatter<W>) -> fmt::Result {
        write!(f, "PackedGf2x{}(", U::BITS)?;
        for i in 0..U::WORD_COUNT {
            if i > 0 {
                f.write_str(", ")?;
            }
            write_digits(f, self.bits.word(i))?;
        }
        f.write_str(")")
    }
}
