// Two words of 64 bits that are a number of 128.
ghost use prog.Memory.{size};
ghost use denote.Param.{layout};
ghost use Rattle.std.proofs.Common.{lit<};
ghost use Rattle.c_calls.specs.Fits.{FitsTwo};
ghost use Rattle.field_base.specs.lemmas.Room.{few_fit};

use field_base::{Holds, Reads};

/// A word of 128 bits as two of 64, low half first.
#[repr(C)]
#[derive(Clone, Copy)]
pub struct Wide {
    low: u64,
    high: u64,
    ghost in_range: { FitsTwo low high },
}

impl Reads<u128> for Wide {
    ghost use Rattle.c_calls.specs.Fields.{wide_number};

    ghost number = { wide_number };

    #[inline]
    fn stored(self) -> u128 {
        u128::from(self.high) * 0x10000000000000000 + u128::from(self.low)
    }

    #[inline(always)]
    fn numbers_fit(places: &[Wide]) {}
}

impl Holds<u128> for Wide {
    #[inline]
    fn of_stored(number: u128) -> Wide {
        Wide {
            low: (number % 0x10000000000000000) as u64,
            high: (number / 0x10000000000000000) as u64,
        }
    }

    ghost room_law = { few_fit 1024 16 (lit< tt) };
}
