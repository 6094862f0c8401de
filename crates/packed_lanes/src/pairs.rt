// Written by scripts/make_impls.py; do not edit.
// The pairs of a row and its parts: each of M512, M256, M128, u64, u32 and u16 with every narrower row.
ghost use Rattle.std.specs.Prelude.{refl};

use crate::divisible::Divisible;
use crate::{M128, M256, M512};

impl Divisible<M256> for M512 {
    const RATIO: usize = 2;

    ghost RATIO = { 2 };

    ghost ratio_law = { refl };

    ghost divides_law = { refl };
}

impl Divisible<M128> for M512 {
    const RATIO: usize = 4;

    ghost RATIO = { 4 };

    ghost ratio_law = { refl };

    ghost divides_law = { refl };
}

impl Divisible<u64> for M512 {
    const RATIO: usize = 8;

    ghost RATIO = { 8 };

    ghost ratio_law = { refl };

    ghost divides_law = { refl };
}

impl Divisible<u32> for M512 {
    const RATIO: usize = 16;

    ghost RATIO = { 16 };

    ghost ratio_law = { refl };

    ghost divides_law = { refl };
}

impl Divisible<u16> for M512 {
    const RATIO: usize = 32;

    ghost RATIO = { 32 };

    ghost ratio_law = { refl };

    ghost divides_law = { refl };
}

impl Divisible<u8> for M512 {
    const RATIO: usize = 64;

    ghost RATIO = { 64 };

    ghost ratio_law = { refl };

    ghost divides_law = { refl };
}

impl Divisible<M128> for M256 {
    const RATIO: usize = 2;

    ghost RATIO = { 2 };

    ghost ratio_law = { refl };

    ghost divides_law = { refl };
}

impl Divisible<u64> for M256 {
    const RATIO: usize = 4;

    ghost RATIO = { 4 };

    ghost ratio_law = { refl };

    ghost divides_law = { refl };
}

impl Divisible<u32> for M256 {
    const RATIO: usize = 8;

    ghost RATIO = { 8 };

    ghost ratio_law = { refl };

    ghost divides_law = { refl };
}

impl Divisible<u16> for M256 {
    const RATIO: usize = 16;

    ghost RATIO = { 16 };

    ghost ratio_law = { refl };

    ghost divides_law = { refl };
}

impl Divisible<u8> for M256 {
    const RATIO: usize = 32;

    ghost RATIO = { 32 };

    ghost ratio_law = { refl };

    ghost divides_law = { refl };
}

impl Divisible<u64> for M128 {
    const RATIO: usize = 2;

    ghost RATIO = { 2 };

    ghost ratio_law = { refl };

    ghost divides_law = { refl };
}

impl Divisible<u32> for M128 {
    const RATIO: usize = 4;

    ghost RATIO = { 4 };

    ghost ratio_law = { refl };

    ghost divides_law = { refl };
}

impl Divisible<u16> for M128 {
    const RATIO: usize = 8;

    ghost RATIO = { 8 };

    ghost ratio_law = { refl };

    ghost divides_law = { refl };
}

impl Divisible<u8> for M128 {
    const RATIO: usize = 16;

    ghost RATIO = { 16 };

    ghost ratio_law = { refl };

    ghost divides_law = { refl };
}

impl Divisible<u32> for u64 {
    const RATIO: usize = 2;

    ghost RATIO = { 2 };

    ghost ratio_law = { refl };

    ghost divides_law = { refl };
}

impl Divisible<u16> for u64 {
    const RATIO: usize = 4;

    ghost RATIO = { 4 };

    ghost ratio_law = { refl };

    ghost divides_law = { refl };
}

impl Divisible<u8> for u64 {
    const RATIO: usize = 8;

    ghost RATIO = { 8 };

    ghost ratio_law = { refl };

    ghost divides_law = { refl };
}

impl Divisible<u16> for u32 {
    const RATIO: usize = 2;

    ghost RATIO = { 2 };

    ghost ratio_law = { refl };

    ghost divides_law = { refl };
}

impl Divisible<u8> for u32 {
    const RATIO: usize = 4;

    ghost RATIO = { 4 };

    ghost ratio_law = { refl };

    ghost divides_law = { refl };
}

impl Divisible<u8> for u16 {
    const RATIO: usize = 2;

    ghost RATIO = { 2 };

    ghost ratio_law = { refl };

    ghost divides_law = { refl };
}
