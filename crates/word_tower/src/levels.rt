// Written by scripts/make_impls.py; do not edit.
// The eight levels. Those of 2, 4 and 8 bits use the tables of the level of 8 bits: a level lies inside those above it, so that
// products, inverses and roots of its elements are those of the level of 8 bits. Those of 16 bits and more have words for halves.
// Their squares and square roots of up to 64 bits are sums of table entries of the bytes, and products of 64 and 128 bits are
// computed in the polynomial basis; everything else is computed by halves.
ghost use Rattle.std.specs.Prelude.{◌≡◌, ◌<◌, ◌^◌, refl};
ghost use Rattle.std.proofs.Common.{lit≤};

use crate::extension::Extension;
use crate::level::Level;
use crate::quadratic;
use word_carryless::{multiply_mod_64, multiply_mod_128};
use word_tables::{
    divide_8, invert_8, multiply_8, multiply_by_root_8, sqrt_8, sqrt_16, sqrt_32, sqrt_64,
    square_8, square_16, square_32, square_64, to_polynomial_64, to_polynomial_128, to_tower_64,
    to_tower_128,
};

/// The level of 1 bit, GF(2), on which the others are built.
pub struct Bits1;

/// The level of 2 bits.
pub struct Bits2;

/// The level of 4 bits.
pub struct Bits4;

/// The level of 8 bits.
pub struct Bits8;

/// The level of 16 bits.
pub struct Bits16;

/// The level of 32 bits.
pub struct Bits32;

/// The level of 64 bits.
pub struct Bits64;

/// The level of 128 bits.
pub struct Bits128;

impl Level<u8> for Bits1 {
    const NAME: &'static str = "Gf2";

    const LEVEL: usize = 0;

    ghost LEVEL = { 0 };

    const GENERATOR: u8 = 1;

    ghost GENERATOR = { 1 };

    ghost few = { lit≤ tt };

    #[inline]
    fn truncate(x: u8) -> u8 {
        x % 2
    }

    #[inline]
    #[tactic(auto, using(crate::proofs::LowLevels::bit_times))]
    fn multiply(x: u8, y: u8) -> u8 {
        x % 2 * (y % 2)
    }

    #[inline]
    #[tactic(auto, using(crate::proofs::LowLevels::bit_times))]
    fn reference_multiply(x: u8, y: u8) -> u8 {
        x % 2 * (y % 2)
    }

    #[inline]
    #[tactic(auto, using(crate::proofs::LowLevels::bit_square))]
    fn square(x: u8) -> u8 {
        x % 2
    }

    #[inline]
    #[tactic(auto, using(crate::proofs::LowLevels::bit_by_root))]
    fn multiply_by_root(x: u8) -> u8 {
        x % 2
    }

    #[inline]
    #[tactic(auto, using(crate::proofs::LowLevels::bit_inverts))]
    fn invert(x: u8) -> u8 {
        x
    }

    #[inline]
    #[tactic(auto, using(crate::proofs::LowLevels::bit_root))]
    fn sqrt(x: u8) -> u8 {
        x
    }

    ghost room_law = { lit≤ tt };

    ghost generator_is = { refl };
}

impl Extension<u8> for Bits2 {
    type Half = u8;

    type Below = Bits1;

    #[inline]
    fn low(x: u8) -> u8 {
        x % 2
    }

    #[inline]
    fn high(x: u8) -> u8 {
        x / 2 % 2
    }

    #[inline]
    fn join(low: u8, high: u8) -> u8 {
        high * 2 + low
    }
}

impl Level<u8> for Bits2 {
    const NAME: &'static str = "BinaryField2";

    const LEVEL: usize = 1;

    ghost LEVEL = { 1 };

    const GENERATOR: u8 = 2;

    ghost GENERATOR = { 2 };

    ghost few = { lit≤ tt };

    #[inline]
    fn truncate(x: u8) -> u8 {
        x % 4
    }

    #[inline]
    fn multiply(x: u8, y: u8) -> u8 {
        multiply_8(x % 4, y % 4)
    }

    #[inline]
    fn reference_multiply(x: u8, y: u8) -> u8 {
        quadratic::reference_multiply::<u8, Bits2>(x, y)
    }

    #[inline]
    fn square(x: u8) -> u8 {
        square_8(x % 4)
    }

    #[inline]
    fn multiply_by_root(x: u8) -> u8 {
        multiply_8(2, x % 4)
    }

    #[inline]
    fn invert(x: u8) -> u8 {
        invert_8(x)
    }

    #[inline]
    fn sqrt(x: u8) -> u8 {
        sqrt_8(x)
    }

    ghost room_law = { lit≤ tt };

    ghost generator_is = { refl };
}

impl Extension<u8> for Bits4 {
    type Half = u8;

    type Below = Bits2;

    #[inline]
    fn low(x: u8) -> u8 {
        x % 4
    }

    #[inline]
    fn high(x: u8) -> u8 {
        x / 4 % 4
    }

    #[inline]
    fn join(low: u8, high: u8) -> u8 {
        high * 4 + low
    }
}

impl Level<u8> for Bits4 {
    const NAME: &'static str = "BinaryField4";

    const LEVEL: usize = 2;

    ghost LEVEL = { 2 };

    const GENERATOR: u8 = 5;

    ghost GENERATOR = { 5 };

    ghost few = { lit≤ tt };

    #[inline]
    fn truncate(x: u8) -> u8 {
        x % 16
    }

    #[inline]
    fn multiply(x: u8, y: u8) -> u8 {
        multiply_8(x % 16, y % 16)
    }

    #[inline]
    fn reference_multiply(x: u8, y: u8) -> u8 {
        quadratic::reference_multiply::<u8, Bits4>(x, y)
    }

    #[inline]
    fn square(x: u8) -> u8 {
        square_8(x % 16)
    }

    #[inline]
    fn multiply_by_root(x: u8) -> u8 {
        multiply_8(4, x % 16)
    }

    #[inline]
    fn invert(x: u8) -> u8 {
        invert_8(x)
    }

    #[inline]
    fn sqrt(x: u8) -> u8 {
        sqrt_8(x)
    }

    ghost room_law = { lit≤ tt };

    ghost generator_is = { refl };
}

impl Extension<u8> for Bits8 {
    type Half = u8;

    type Below = Bits4;

    #[inline]
    fn low(x: u8) -> u8 {
        x % 16
    }

    #[inline]
    fn high(x: u8) -> u8 {
        x / 16
    }

    #[inline]
    fn join(low: u8, high: u8) -> u8 {
        high * 16 + low
    }
}

impl Level<u8> for Bits8 {
    const NAME: &'static str = "BinaryField8";

    const LEVEL: usize = 3;

    ghost LEVEL = { 3 };

    const GENERATOR: u8 = 0x13;

    ghost GENERATOR = { 0x13 };

    ghost few = { lit≤ tt };

    #[inline]
    fn truncate(x: u8) -> u8 {
        x
    }

    #[inline]
    fn multiply(x: u8, y: u8) -> u8 {
        multiply_8(x, y)
    }

    #[inline]
    fn reference_multiply(x: u8, y: u8) -> u8 {
        quadratic::reference_multiply::<u8, Bits8>(x, y)
    }

    #[inline]
    fn square(x: u8) -> u8 {
        square_8(x)
    }

    #[inline]
    fn multiply_by_root(x: u8) -> u8 {
        multiply_by_root_8(x)
    }

    #[inline]
    fn invert(x: u8) -> u8 {
        invert_8(x)
    }

    #[inline]
    fn divide_both(x: u8, y: u8, divisor: u8) -> (u8, u8) {
        (divide_8(x, divisor), divide_8(y, divisor))
    }

    #[inline]
    fn sqrt(x: u8) -> u8 {
        sqrt_8(x)
    }

    ghost room_law = { lit≤ tt };

    ghost generator_is = { refl };
}

impl Extension<u16> for Bits16 {
    type Half = u8;

    type Below = Bits8;

    #[inline]
    fn low(x: u16) -> u8 {
        (x % 0x100) as u8
    }

    #[inline]
    fn high(x: u16) -> u8 {
        (x / 0x100) as u8
    }

    #[inline]
    fn join(low: u8, high: u8) -> u16 {
        u16::from(high) * 0x100 + u16::from(low)
    }
}

impl Level<u16> for Bits16 {
    const NAME: &'static str = "BinaryField16";

    const LEVEL: usize = 4;

    ghost LEVEL = { 4 };

    const GENERATOR: u16 = 0x102;

    ghost GENERATOR = { 0x102 };

    ghost few = { lit≤ tt };

    #[inline]
    fn truncate(x: u16) -> u16 {
        x
    }

    #[inline]
    fn multiply(x: u16, y: u16) -> u16 {
        quadratic::multiply::<u16, Bits16>(x, y)
    }

    #[inline]
    fn reference_multiply(x: u16, y: u16) -> u16 {
        quadratic::reference_multiply::<u16, Bits16>(x, y)
    }

    #[inline]
    fn square(x: u16) -> u16 {
        square_16(x)
    }

    #[inline]
    fn multiply_by_root(x: u16) -> u16 {
        quadratic::multiply_by_root::<u16, Bits16>(x)
    }

    #[inline]
    fn conjugate(x: u16) -> u16 {
        quadratic::conjugate_of::<u16, Bits16>(x)
    }

    #[inline]
    fn invert(x: u16) -> u16 {
        quadratic::invert::<u16, Bits16>(x)
    }

    #[inline]
    fn sqrt(x: u16) -> u16 {
        sqrt_16(x)
    }

    ghost room_law = { lit≤ tt };

    ghost generator_is = { refl };
}

impl Extension<u32> for Bits32 {
    type Half = u16;

    type Below = Bits16;

    #[inline]
    fn low(x: u32) -> u16 {
        (x % 0x1_0000) as u16
    }

    #[inline]
    fn high(x: u32) -> u16 {
        (x / 0x1_0000) as u16
    }

    #[inline]
    fn join(low: u16, high: u16) -> u32 {
        u32::from(high) * 0x1_0000 + u32::from(low)
    }
}

impl Level<u32> for Bits32 {
    const NAME: &'static str = "BinaryField32";

    const LEVEL: usize = 5;

    ghost LEVEL = { 5 };

    const GENERATOR: u32 = 0x1_0005;

    ghost GENERATOR = { 0x1_0005 };

    ghost few = { lit≤ tt };

    #[inline]
    fn truncate(x: u32) -> u32 {
        x
    }

    #[inline]
    fn multiply(x: u32, y: u32) -> u32 {
        quadratic::multiply::<u32, Bits32>(x, y)
    }

    #[inline]
    fn reference_multiply(x: u32, y: u32) -> u32 {
        quadratic::reference_multiply::<u32, Bits32>(x, y)
    }

    #[inline]
    fn square(x: u32) -> u32 {
        square_32(x)
    }

    #[inline]
    fn multiply_by_root(x: u32) -> u32 {
        quadratic::multiply_by_root::<u32, Bits32>(x)
    }

    #[inline]
    fn conjugate(x: u32) -> u32 {
        quadratic::conjugate_of::<u32, Bits32>(x)
    }

    #[inline]
    fn invert(x: u32) -> u32 {
        quadratic::invert::<u32, Bits32>(x)
    }

    #[inline]
    fn sqrt(x: u32) -> u32 {
        sqrt_32(x)
    }

    ghost room_law = { lit≤ tt };

    ghost generator_is = { refl };
}

impl Extension<u64> for Bits64 {
    type Half = u32;

    type Below = Bits32;

    #[inline]
    fn low(x: u64) -> u32 {
        (x % 0x1_0000_0000) as u32
    }

    #[inline]
    fn high(x: u64) -> u32 {
        (x / 0x1_0000_0000) as u32
    }

    #[inline]
    fn join(low: u32, high: u32) -> u64 {
        u64::from(high) * 0x1_0000_0000 + u64::from(low)
    }
}

impl Level<u64> for Bits64 {
    const NAME: &'static str = "BinaryField64";

    const LEVEL: usize = 6;

    ghost LEVEL = { 6 };

    const GENERATOR: u64 = 0x1_0000_0004;

    ghost GENERATOR = { 0x1_0000_0004 };

    ghost few = { lit≤ tt };

    #[inline]
    fn truncate(x: u64) -> u64 {
        x
    }

    // By the isomorphism with the polynomials modulo x^64 + x^4 + x^3 + x + 1: the element whose image is the product of the
    // images.
    #[inline]
    fn multiply(x: u64, y: u64) -> u64 {
        to_tower_64(multiply_mod_64(to_polynomial_64(x), to_polynomial_64(y)))
    }

    #[inline]
    fn reference_multiply(x: u64, y: u64) -> u64 {
        quadratic::reference_multiply::<u64, Bits64>(x, y)
    }

    #[inline]
    fn square(x: u64) -> u64 {
        square_64(x)
    }

    #[inline]
    fn multiply_by_root(x: u64) -> u64 {
        quadratic::multiply_by_root::<u64, Bits64>(x)
    }

    #[inline]
    fn conjugate(x: u64) -> u64 {
        quadratic::conjugate_of::<u64, Bits64>(x)
    }

    #[inline]
    fn invert(x: u64) -> u64 {
        quadratic::invert::<u64, Bits64>(x)
    }

    #[inline]
    fn sqrt(x: u64) -> u64 {
        sqrt_64(x)
    }

    ghost room_law = { lit≤ tt };

    ghost generator_is = { refl };
}

impl Extension<u128> for Bits128 {
    type Half = u64;

    type Below = Bits64;

    #[inline]
    fn low(x: u128) -> u64 {
        (x % 0x1_0000_0000_0000_0000) as u64
    }

    #[inline]
    fn high(x: u128) -> u64 {
        (x / 0x1_0000_0000_0000_0000) as u64
    }

    #[inline]
    fn join(low: u64, high: u64) -> u128 {
        u128::from(high) * 0x1_0000_0000_0000_0000 + u128::from(low)
    }
}

impl Level<u128> for Bits128 {
    const NAME: &'static str = "BinaryField128";

    const LEVEL: usize = 7;

    ghost LEVEL = { 7 };

    const GENERATOR: u128 = 0x1_0000_0000_0000_0005;

    ghost GENERATOR = { 0x1_0000_0000_0000_0005 };

    ghost few = { lit≤ tt };

    #[inline]
    fn truncate(x: u128) -> u128 {
        x
    }

    // By the isomorphism with the polynomials modulo x^128 + x^7 + x^2 + x + 1, as at 64 bits.
    #[inline]
    fn multiply(x: u128, y: u128) -> u128 {
        to_tower_128(multiply_mod_128(to_polynomial_128(x), to_polynomial_128(y)))
    }

    #[inline]
    fn reference_multiply(x: u128, y: u128) -> u128 {
        quadratic::reference_multiply::<u128, Bits128>(x, y)
    }

    #[inline]
    fn square(x: u128) -> u128 {
        quadratic::square::<u128, Bits128>(x)
    }

    #[inline]
    fn multiply_by_root(x: u128) -> u128 {
        quadratic::multiply_by_root::<u128, Bits128>(x)
    }

    #[inline]
    fn conjugate(x: u128) -> u128 {
        quadratic::conjugate_of::<u128, Bits128>(x)
    }

    #[inline]
    fn invert(x: u128) -> u128 {
        quadratic::invert::<u128, Bits128>(x)
    }

    // a0 + a1 X is the square of r0 + r1 X where r1² is a1 / t and r0² is a0 + a1 / t.
    #[inline]
    fn sqrt(x: u128) -> u128 {
        let low = Bits128::low(x);
        let quotient = quadratic::divide_by_root::<u64, Bits64>(Bits128::high(x));
        Bits128::join(sqrt_64(low ^ quotient), sqrt_64(quotient))
    }

    ghost room_law = { lit≤ tt };

    ghost generator_is = { refl };
}
