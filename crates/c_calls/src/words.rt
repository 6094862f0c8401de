// The words of 192 bits in which elements cross to other languages, and the words of a field's arithmetic that they hold.
ghost use prog.Memory.{size};
ghost use denote.Param.{layout};
ghost use Rattle.field_base.specs.lemmas.Room.{few_fit};
ghost use Rattle.word_polynomial.specs.Fits.{FitsThree};
ghost use Rattle.std.proofs.Common.{lit<};

use field_base::{Holds, Reads};
use word_polynomial::Triple;

/// A word of 192 bits as three of 64, the coefficient of 1 first, then that of y and of y².
#[repr(C)]
#[derive(Clone, Copy)]
pub struct Cubic {
    c0: u64,
    c1: u64,
    c2: u64,
    ghost in_range: { FitsThree c0 c1 c2 },
}

impl Reads<Triple> for Cubic {
    ghost use Rattle.c_calls.specs.Fields.{cubic_number};

    ghost number = { cubic_number };

    #[inline]
    fn stored(self) -> Triple {
        Triple {
            c0: self.c0,
            c1: self.c1,
            c2: self.c2,
        }
    }

    #[inline(always)]
    fn numbers_fit(places: &[Cubic]) {}
}

impl Holds<Triple> for Cubic {
    #[inline]
    fn of_stored(x: Triple) -> Cubic {
        Cubic {
            c0: x.c0,
            c1: x.c1,
            c2: x.c2,
        }
    }

    ghost room_law = { few_fit 1024 24 (lit< tt) };
}
